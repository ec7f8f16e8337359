//! The pieces of a text that are copied as they are, and the gaps before them.
//!
//! A layout has a piece for nearly every token, so their numbers have 32 bits: a text has fewer than 2^32 bytes.

ghost use Rattle.std.specs.Prelude.{◌≡◌, ◌-◌, ◌^◌, ◌==◌, min};
ghost use Rattle.nix_layout.specs.StoredNumbers.{stored};
ghost use Rattle.nix_layout.specs.Pieces.{has_lines, last_width_of, IsWord, IsNarrowed};

/// The gap between a piece and the one before it.
#[derive(Clone, Copy, PartialEq, Eq)]
pub struct Gap {
    /// The number of the group.
    pub group: u32,
    /// The number of spaces if the line does not end here: 0 or 1.
    pub blanks: u8,
    /// Whether the line ends here if the group of the gap is broken.
    pub can_break: bool,
    /// Whether the line always ends here.
    pub is_hard: bool,
    /// Whether the line always ends here in the layout of the new text, if it ends here in the new text.
    pub keeps_break: bool,
    /// Whether an empty line follows if the line ends here.
    pub has_empty_line: bool,
    /// The indentation of the next line.
    pub level: Level,
}

/// The indentation of a line, relative to that of the line on which its group begins.
#[derive(Clone, Copy, PartialEq, Eq)]
pub enum Level {
    /// The same indentation.
    Same,
    /// One level more.
    Inner,
    /// The same indentation if the group begins its line, and one level more otherwise.
    Operator,
}

/// The lines of a string that are moved with the code around it, and the blanks in it that are left out.
#[derive(Clone, Copy, PartialEq, Eq)]
pub struct MovedLines {
    /// The number of the first of these lines.
    pub first: usize,
    /// The number of the line after the last one.
    pub end: usize,
    /// Whether the last line of the string is one of them.
    pub has_last: bool,
}

/// What a piece is.
#[derive(Clone, Copy, PartialEq, Eq)]
pub enum PieceKind {
    /// A token, or a whole string or path.
    Item,
    /// A comment with `#`: the line has to end after it.
    LineComment,
    /// A comment in `/* */` that becomes one with `#` where the line ends after it.
    ShortComment,
    /// Another comment.
    BlockComment,
    /// A comma that is before comments in the new text, and after them in the old one.
    MovedComma,
    /// A comma that the old text does not have. It is written if its group is broken.
    LastComma,
}

/// A token, a comment, or a whole string or path, with the gap before it.
#[derive(Clone, Copy, PartialEq, Eq)]
pub struct Piece {
    start: u32,
    end: u32,
    width: u32,
    // `ONE_LINE` if it has only one.
    last_width: u32,
    // The lines that are moved; `NO_LINE` twice if there are none.
    first_moved: u32,
    end_moved: u32,
    has_last_moved: bool,
    /// What it is.
    pub kind: PieceKind,
    /// The number of line feeds between it and the piece before it in the old text; 255 if there are more.
    pub line_feeds: u8,
    /// The gap before it.
    pub gap: Gap,
}

// No width of a last line.
const ONE_LINE: u32 = u32::MAX;

// No number of a line.
const NO_LINE: u32 = u32::MAX;

impl Gap {
    /// Returns an empty gap.
    pub fn nothing() -> Gap {
        Gap {
            group: 0,
            blanks: 0,
            can_break: false,
            is_hard: false,
            keeps_break: false,
            has_empty_line: false,
            level: Level::Same,
        }
    }
}

/// Returns the number of line feeds in a text, or 255 if there are more.
pub fn line_feeds_in(text: &str) -> u8 {
    let count = text.bytes().filter(|byte| *byte == b'\n').count();
    u8::try_from(count).unwrap_or(u8::MAX)
}

/// Returns a number of bytes, characters, pieces, groups or lines of a text, as it is stored. A sum of widths that is 2^32 or more becomes 2^32 - 1.
pub fn as_stored(number: usize) -> u32
    ensures { result ≡ stored number }
{
    if number < u32::MAX as usize {
        number as u32
    } else {
        u32::MAX
    }
}

/// Returns the contents of a comment in `/* */` that can be written as one with `#`: it has one line, and no `*` beside those of its ends.
pub fn short_contents(comment: &str) -> Option<&str> {
    let inside = comment.strip_prefix("/*")?.strip_suffix("*/")?;
    let contents = inside.trim_matches([' ', '\t']);
    let is_short = !contents.is_empty()
        && !inside.contains(['\n', '\r'])
        && !contents.starts_with('*')
        && !contents.ends_with('*');
    if is_short { Some(contents) } else { None }
}

// Returns the kind of a comment.
fn kind_of_comment(text: &str) -> PieceKind {
    if text.starts_with('#') {
        PieceKind::LineComment
    } else if short_contents(text).is_some() {
        PieceKind::ShortComment
    } else {
        PieceKind::BlockComment
    }
}

impl Piece {
    /// Returns a piece of the old text with no gap yet, whose characters are ASCII and not line feeds: a name, or a token of a text without errors that is
    /// not white space, a comment or a part of a string.
    pub fn of_word(start: usize, end: usize) -> Piece
        ensures { IsWord start end result }
    {
        Piece {
            start: as_stored(start),
            end: as_stored(end),
            width: as_stored(end.saturating_sub(start)),
            last_width: ONE_LINE,
            first_moved: NO_LINE,
            end_moved: NO_LINE,
            has_last_moved: false,
            kind: PieceKind::Item,
            line_feeds: 0,
            gap: Gap::nothing(),
        }
    }

    /// Returns a piece of the old text, with no gap yet.
    pub fn new(start: usize, text: &str) -> Piece {
        let word = Piece::of_word(start, start.saturating_add(text.len()));
        let Some((first, _)) = text.split_once('\n') else {
            return Piece {
                width: as_stored(text.chars().count()),
                ..word
            };
        };
        let last = text.rsplit_once('\n').map_or("", |(_, last)| last);
        Piece {
            width: as_stored(first.chars().count()),
            last_width: as_stored(last.chars().count()),
            ..word
        }
    }

    /// Returns the piece of a comment, with no gap yet.
    pub fn of_comment(start: usize, text: &str) -> Piece {
        Piece {
            kind: kind_of_comment(text),
            ..Piece::new(start, text)
        }
    }

    /// Returns the piece of a comma after an offset of the old text, where the old text has none. A last comma takes no room, since it is never on one line
    /// with the rest of its group.
    pub fn of_comma(start: usize, kind: PieceKind, gap: Gap) -> Piece {
        Piece {
            width: u32::from(kind == PieceKind::MovedComma),
            kind,
            gap,
            ..Piece::of_word(start, start)
        }
    }

    /// Returns whether it is a comment.
    pub fn is_comment(&self) -> bool {
        matches!(
            self.kind,
            PieceKind::LineComment | PieceKind::ShortComment | PieceKind::BlockComment
        )
    }

    /// Returns whether the line has to end after it: whether it is a comment with `#`.
    pub fn ends_line(&self) -> bool {
        self.kind == PieceKind::LineComment
    }

    /// Returns the same piece after a number of line feeds and a gap.
    pub fn placed(self, line_feeds: u8, gap: Gap) -> Piece {
        Piece {
            line_feeds,
            gap,
            ..self
        }
    }

    /// Returns the same piece of a string with lines that are moved. `last_width` is the number of characters of its last line, counted from the indentation
    /// of the code, if that is one of them.
    pub fn with_moved_lines(self, first: usize, end: usize, last_width: Option<usize>) -> Piece {
        Piece {
            first_moved: as_stored(first),
            end_moved: as_stored(end),
            has_last_moved: last_width.is_some(),
            last_width: last_width.map_or(self.last_width, as_stored),
            ..self
        }
    }

    /// Returns the same piece without a number of blanks of its first line, and of its last line if it has several.
    pub fn narrowed(self, first: usize, last: usize) -> Piece
        ensures { IsNarrowed first last self result }
    {
        let width = self.width().saturating_sub(first);
        let last_width = match self.last_width() {
            Some(width) => as_stored(width.saturating_sub(last)),
            None => ONE_LINE,
        };
        Piece {
            width: as_stored(width),
            last_width,
            ..self
        }
    }

    /// Returns its start in the old text, in bytes.
    pub fn start(&self) -> usize
        ensures { result ≡ self.now.start }
    {
        self.start as usize
    }

    /// Returns its end in the old text, in bytes.
    pub fn end(&self) -> usize
        ensures { result ≡ self.now.end }
    {
        self.end as usize
    }

    /// Returns the number of characters of its first line.
    pub fn width(&self) -> usize
        ensures { result ≡ self.now.width }
    {
        self.width as usize
    }

    /// Returns whether it has several lines.
    pub fn has_lines(&self) -> bool
        ensures { result ≡ has_lines self.now }
    {
        self.last_width != ONE_LINE
    }

    /// Returns the number of characters of its last line, if it has several lines. If that line is moved, it counts from the indentation of the code.
    pub fn last_width(&self) -> Option<usize>
        ensures { result ≡ last_width_of self.now }
    {
        if self.has_lines() {
            Some(self.last_width as usize)
        } else {
            None
        }
    }

    /// Returns the lines of the piece that are moved, if it is a string with such lines.
    pub fn moved_lines(&self) -> Option<MovedLines> {
        if self.first_moved == NO_LINE {
            return None;
        }
        Some(MovedLines {
            first: self.first_moved as usize,
            end: self.end_moved as usize,
            has_last: self.has_last_moved,
        })
    }
}
