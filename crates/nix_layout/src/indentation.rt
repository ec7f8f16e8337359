//! The indentation of strings in `''`.

use crate::line_feed_escapes::has_spaces_after_escape;
use rnix::{NodeOrToken, SyntaxKind, SyntaxNode};
use rnix_base::is_indented;

// The largest indentation that Nix removes from lines.
const LIMIT: usize = 1_000_000;

// What is known about the lines of a string so far.
#[derive(Clone, Copy)]
struct Scan {
    // The smallest indentation of a line with text.
    least: usize,
    // The number of spaces of the current line, while it has nothing else.
    blanks: Option<usize>,
    // Whether there was a line feed.
    is_broken: bool,
    // Whether the string can be moved: the line of the opening quotes has nothing but spaces, no line begins with a tab or a carriage return,
    // perhaps after spaces, and no line that begins at an escaped line feed has spaces there.
    can_move: bool,
}

impl Scan {
    // Returns the state after an interpolation or a byte other than a space or a line feed; `is_tab` says whether it is a tab or a carriage return.
    fn with_text(self, is_tab: bool) -> Scan {
        match self.blanks {
            Some(blanks) => Scan {
                least: self.least.min(blanks),
                blanks: None,
                can_move: self.can_move && self.is_broken && !is_tab,
                ..self
            },
            None => self,
        }
    }

    // Returns the state after a line feed.
    fn with_line_feed(self) -> Scan {
        Scan {
            blanks: Some(0),
            is_broken: true,
            ..self
        }
    }

    // Returns the state after a part of a line.
    fn with_part(self, part: &str) -> Scan {
        let Some(blanks) = self.blanks else {
            return self;
        };
        let spaces = part.bytes().take_while(|byte| *byte == b' ').count();
        let scan = Scan {
            blanks: Some(blanks.saturating_add(spaces)),
            ..self
        };
        match part.as_bytes().get(spaces) {
            Some(byte) => scan.with_text(*byte == b'\t' || *byte == b'\r'),
            None => scan,
        }
    }

    // Returns the state after a text.
    fn with_content(self, text: &str) -> Scan {
        let has_spaces = text.contains('\\') && has_spaces_after_escape(text);
        let mut scan = Scan {
            can_move: self.can_move && !has_spaces,
            ..self
        };
        for (number, part) in text.split('\n').enumerate() {
            if number > 0 {
                scan = scan.with_line_feed();
            }
            scan = scan.with_part(part);
        }
        scan
    }
}

/// Returns the smallest indentation of a string's lines, if the string can be moved: it is in `''`, has several lines, has nothing but spaces on the
/// line of the opening quotes, and has no line that begins with a tab or a carriage return, perhaps after spaces, and none that begins with a space after an
/// escaped line feed. The result is `LIMIT` if the indentation is larger, or if no line has text.
pub fn indentation_of(string: &SyntaxNode<'_>) -> Option<usize> {
    if !is_indented(string) {
        return None;
    }
    let mut scan = Scan {
        least: LIMIT,
        blanks: Some(0),
        is_broken: false,
        can_move: true,
    };
    for element in string.children_with_tokens() {
        scan = match element {
            NodeOrToken::Node(_) => scan.with_text(false),
            NodeOrToken::Token(token) if token.kind() == SyntaxKind::TOKEN_STRING_CONTENT => {
                scan.with_content(token.text())
            }
            NodeOrToken::Token(_) => scan,
        };
    }
    if scan.can_move && scan.is_broken {
        Some(scan.least)
    } else {
        None
    }
}
