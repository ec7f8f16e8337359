//! The lines of strings that are moved with the code around them.

ghost use Rattle.std.specs.Prelude.{◌≡◌};
ghost use Rattle.nix_layout.specs.Indentation.{indent_with, blanks_end};

use crate::indentation::indentation_of;
use crate::layout::STEP;
use crate::piece::Piece;
use rnix::{NodeOrToken, SyntaxElement, SyntaxKind, SyntaxNode, SyntaxToken, WalkEvent};
use std::alloc::{AllocError, Global};

/// The contents of a line of a string.
#[derive(Clone, Copy, PartialEq, Eq)]
pub enum Role {
    /// Text, or code of an interpolation, this number of columns to the right of the leftmost text of the outermost string.
    Text(usize),
    /// Nothing but the spaces that all lines lose.
    Empty,
    /// The closing quotes alone.
    Closing,
    /// Not a line: these are blanks beside a brace of an interpolation, which are left out.
    Inside,
}

/// A line of a string that is moved: the spaces at its start are replaced.
#[derive(Clone, Copy, PartialEq, Eq)]
pub struct Line {
    /// Where it begins in the old text, in bytes.
    pub start: usize,
    /// The number of spaces at its start.
    pub blanks: usize,
    /// Its contents.
    pub role: Role,
}

impl Line {
    /// Returns the end of the spaces at its start.
    pub fn end_of_blanks(self) -> usize
        ensures { result ≡ blanks_end self }
    {
        self.start.saturating_add(self.blanks)
    }

    /// Returns the number of spaces that are written at its start, given the indentation of the code.
    pub fn indent(self, code: usize) -> usize
        ensures { result ≡ indent_with self.role code }
    {
        match self.role {
            Role::Text(offset) => code.saturating_add(STEP).saturating_add(offset),
            Role::Empty | Role::Inside => 0,
            Role::Closing => code,
        }
    }
}

// A string that is moved, as are all strings around it.
#[derive(Clone, Copy)]
struct MovedString {
    // The smallest indentation of its lines, and that of the outermost string's lines.
    least: usize,
    outermost: usize,
    // The number of columns from the leftmost text of the outermost string to its own, after the move.
    offset: usize,
}

impl MovedString {
    // Returns the state for a string inside this one, given the smallest indentation of its lines. After the move it is never to the left of this one, so
    // that another move does not change it.
    fn around(self, least: usize) -> MovedString {
        let inner = least.saturating_sub(self.least);
        MovedString {
            least,
            outermost: self.outermost,
            offset: self.offset.saturating_add(inner),
        }
    }

    // Returns the number of columns from the leftmost text of the outermost string to a line of this one, after the move. Lines with code or closing quotes may
    // be to the left of the string's text.
    fn offset_of(self, blanks: usize) -> usize {
        match blanks.checked_sub(self.least) {
            Some(more) => self.offset.saturating_add(more),
            None => blanks.saturating_sub(self.outermost).min(self.offset),
        }
    }
}

// A walk over a string and what is inside it.
#[derive(Drop)]
struct LineWalk {
    lines: Vec<Line>,
    // For each string around the current position, its state if it is moved.
    strings: Vec<Option<MovedString>>,
    // The current line, if it has nothing but spaces so far.
    current: Option<Line>,
    // The kind of the last token that is not white space, and the blanks after it if they have no line feed.
    last: SyntaxKind,
    blanks: Option<Line>,
}

// Returns the line that begins at an offset.
fn line_at(start: usize) -> Line {
    Line {
        start,
        blanks: 0,
        role: Role::Empty,
    }
}

impl LineWalk {
    // Returns the innermost string, if it is moved.
    fn innermost(&self) -> Option<MovedString> {
        match self.strings.last() {
            Some(string) => *string,
            None => None,
        }
    }

    // Returns the state for a string inside the innermost one, given the smallest indentation of its lines if it can be moved alone. It is moved if all strings
    // around it are.
    fn inside(&self, least: Option<usize>) -> Option<MovedString> {
        let outer = self.innermost()?;
        Some(outer.around(least?))
    }

    // Adds a line, and skips its spaces.
    fn add_line(&mut self, line: Line, role: Role) -> Result<(), AllocError> {
        self.lines.push(Line { role, ..line })?;
        self.current = None;
        Ok(())
    }

    // Before text or code, adds the current line if it has nothing but spaces so far.
    fn end_blanks(&mut self, string: MovedString) -> Result<(), AllocError> {
        match self.current {
            Some(line) => self.add_line(line, Role::Text(string.offset_of(line.blanks))),
            None => Ok(()),
        }
    }

    // Ends the current line at a line feed, and begins the next one.
    fn end_line(&mut self, string: MovedString, next: usize) -> Result<(), AllocError> {
        match self.current {
            Some(line) if line.blanks <= string.least => self.add_line(line, Role::Empty)?,
            _ => self.end_blanks(string)?,
        }
        self.current = Some(line_at(next));
        Ok(())
    }

    // Adds a part of a line: its leading spaces to the current line, if that has nothing else. Anything other than a space ends the current line.
    fn add_part(&mut self, part: &str, string: MovedString) -> Result<(), AllocError> {
        let Some(line) = self.current else {
            return Ok(());
        };
        let spaces = part.bytes().take_while(|byte| *byte == b' ').count();
        self.current = Some(Line {
            blanks: line.blanks.saturating_add(spaces),
            ..line
        });
        if spaces < part.len() {
            self.end_blanks(string)?;
        }
        Ok(())
    }

    // Adds the lines of a string's contents.
    fn add_content(
        &mut self,
        token: &SyntaxToken<'_>,
        string: MovedString,
    ) -> Result<(), AllocError> {
        let mut start = token.text_range().start();
        for (number, part) in token.text().split('\n').enumerate() {
            if number > 0 {
                self.end_line(string, start)?;
            }
            self.add_part(part, string)?;
            start = start.saturating_add(part.len()).saturating_add(1);
        }
        Ok(())
    }

    // Adds the line that begins in white space between tokens.
    fn add_white_space(
        &mut self,
        token: &SyntaxToken<'_>,
        string: MovedString,
    ) -> Result<(), AllocError> {
        if let Some((_, rest)) = token.text().rsplit_once('\n') {
            let blanks = rest.bytes().take_while(|byte| *byte == b' ').count();
            self.lines.push(Line {
                start: token.text_range().end().saturating_sub(rest.len()),
                blanks,
                role: Role::Text(string.offset_of(blanks)),
            })?;
        }
        Ok(())
    }

    // Adds the line with the closing quotes of a string, if it has nothing but spaces before them.
    fn end_string(&mut self, string: MovedString) -> Result<(), AllocError> {
        match self.current {
            Some(line) if self.strings.len() == 1 => self.add_line(line, Role::Closing),
            _ => self.end_blanks(string),
        }
    }

    // Before a token, adds the blanks before it if they are beside a brace of an interpolation and no comment is beside them.
    fn end_inside(&mut self, next: SyntaxKind) -> Result<(), AllocError> {
        let last = self.last;
        self.last = next;
        let Some(blanks) = self.blanks else {
            return Ok(());
        };
        self.blanks = None;
        let is_inside = last == SyntaxKind::TOKEN_INTERPOL_START
            || next == SyntaxKind::TOKEN_INTERPOL_END;
        let has_comment = last == SyntaxKind::TOKEN_COMMENT || next == SyntaxKind::TOKEN_COMMENT;
        if is_inside && !has_comment {
            self.lines.push(blanks)?;
        }
        Ok(())
    }

    // Notes a token, and the blanks before it.
    fn note_token(&mut self, token: &SyntaxToken<'_>) -> Result<(), AllocError> {
        if token.kind() != SyntaxKind::TOKEN_WHITESPACE {
            return self.end_inside(token.kind());
        }
        if !token.text().contains('\n') {
            self.blanks = Some(Line {
                start: token.text_range().start(),
                blanks: token.text().len(),
                role: Role::Inside,
            });
        }
        Ok(())
    }

    // Passes a token. Lines move only if they begin in a string that is moved.
    fn pass_token(&mut self, token: &SyntaxToken<'_>) -> Result<(), AllocError> {
        self.note_token(token)?;
        let Some(string) = self.innermost() else {
            return Ok(());
        };
        match token.kind() {
            SyntaxKind::TOKEN_STRING_CONTENT => self.add_content(token, string),
            SyntaxKind::TOKEN_WHITESPACE => self.add_white_space(token, string),
            SyntaxKind::TOKEN_STRING_END => self.end_string(string),
            _ => self.end_blanks(string),
        }
    }

    // Enters a node.
    fn enter_node(&mut self, node: &SyntaxNode<'_>) -> Result<(), AllocError> {
        if let Some(string) = self.innermost() {
            self.end_blanks(string)?;
        }
        if node.kind() == SyntaxKind::NODE_STRING {
            let string = self.inside(indentation_of(node));
            self.strings.push(string)?;
        }
        Ok(())
    }

    // Passes an event.
    fn pass(&mut self, event: &WalkEvent<SyntaxElement<'_>>) -> Result<(), AllocError> {
        match event {
            WalkEvent::Enter(NodeOrToken::Node(node)) => self.enter_node(node),
            WalkEvent::Enter(NodeOrToken::Token(token)) => self.pass_token(token),
            WalkEvent::Leave(NodeOrToken::Node(node)) => {
                if node.kind() == SyntaxKind::NODE_STRING {
                    self.strings.pop();
                }
                Ok(())
            }
            WalkEvent::Leave(NodeOrToken::Token(_)) => Ok(()),
        }
    }
}

// Returns the lines of a string that is moved and of the strings inside it, given the smallest indentation of its lines, and the blanks that are left out. If
// it is not moved, returns only these.
fn lines_of(
    alloc: Global,
    string: &SyntaxNode<'_>,
    least: Option<usize>,
) -> Result<Vec<Line>, AllocError> {
    let mut walk = LineWalk {
        lines: Vec::new(alloc),
        strings: Vec::new(alloc),
        current: None,
        last: SyntaxKind::NODE_STRING,
        blanks: None,
    };
    walk.strings.push(least.map(|least| MovedString {
        least,
        outermost: least,
        offset: 0,
    }))?;
    let mut events = string.preorder_with_tokens();
    let _entered = events.next();
    for event in events {
        walk.pass(&event)?;
    }
    Ok(walk.lines)
}

// Returns the last line that is moved.
fn last_moved(lines: &[Line]) -> Option<Line> {
    for line in lines.iter().rev() {
        if line.role != Role::Inside {
            return Some(*line);
        }
    }
    None
}

// Returns the number of characters of a string's last line, if that is moved; they are counted from the indentation of the code.
fn last_width(piece: &Piece, text: &str, lines: &[Line]) -> Option<usize> {
    let line = last_moved(lines)?;
    let rest = text.get(line.end_of_blanks().saturating_sub(piece.start())..)?;
    if rest.contains('\n') {
        return None;
    }
    Some(line.indent(0).saturating_add(rest.chars().count()))
}

// Returns the number of blanks that are left out between two offsets.
fn left_out(lines: &[Line], start: usize, end: usize) -> usize {
    let mut count = 0usize;
    for line in lines {
        if line.role == Role::Inside && start <= line.start && line.start < end {
            count = count.saturating_add(line.blanks);
        }
    }
    count
}

// Returns the piece of a string without the blanks that are left out.
fn without_blanks(piece: Piece, text: &str, lines: &[Line]) -> Piece {
    let start = piece.start();
    let first_end = start.saturating_add(text.find('\n').unwrap_or(text.len()));
    let last_start = start.saturating_add(text.rfind('\n').unwrap_or(0));
    let first = left_out(lines, start, first_end);
    let last = left_out(lines, last_start, piece.end());
    piece.narrowed(first, last)
}

/// Returns the piece of a string or a path. If a string's lines are moved, or blanks inside are left out, adds them to those of other strings.
pub fn with_lines(
    alloc: Global,
    node: &SyntaxNode<'_>,
    piece: Piece,
    lines: &mut Vec<Line>,
) -> Result<Piece, AllocError> {
    let least = indentation_of(node);
    if least.is_none() && node.first_child().is_none() {
        return Ok(piece);
    }
    let own = lines_of(alloc, node, least)?;
    if own.is_empty() {
        return Ok(piece);
    }
    let first = lines.len();
    lines.extend_from_slice(&own)?;
    let last = last_width(&piece, node.text(), &own);
    let moved = piece.with_moved_lines(first, lines.len(), last);
    Ok(without_blanks(moved, node.text(), &own))
}
