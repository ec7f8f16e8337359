//! Escaped line feeds in strings in `''`.
//!
//! At an escaped line feed Nix begins a line. That line loses spaces like the others, but its own spaces do not count for the smallest indentation.
//! If the string were moved, such a line would therefore keep a different number of spaces.

// The part of an escape that was read last.
#[derive(Clone, Copy, PartialEq, Eq)]
enum EscapeState {
    // No part: the scan is before or after an escape.
    Outside,
    // After `'`.
    Quote,
    // After `''`.
    Quotes,
    // After `''\`.
    Backslash,
}

// What is known about a text so far.
#[derive(Clone, Copy)]
struct Scan {
    state: EscapeState,
    // Whether the last character was the escape of a line feed.
    follows_feed: bool,
    // Whether some line that begins at an escaped line feed begins with a space, or may do so.
    has_spaces: bool,
}

impl Scan {
    // Returns the state after a character, or its escape.
    fn after(self, is_feed: bool, has_spaces: bool) -> Scan {
        Scan {
            state: EscapeState::Outside,
            follows_feed: is_feed,
            has_spaces: self.has_spaces || has_spaces,
        }
    }

    // Returns the state inside an escape, or inside what may become one.
    fn at(self, state: EscapeState) -> Scan {
        Scan { state, ..self }
    }

    // Returns the state after the byte that follows `''\`. If the byte is a line feed, the next line is moved with the others.
    fn with_escaped(self, byte: u8) -> Scan {
        match byte {
            b'n' => self.after(true, false),
            b'\n' => self.after(true, true),
            b' ' => self.after(false, self.follows_feed),
            _ => self.after(false, false),
        }
    }

    // Returns the state after a byte.
    fn with_byte(self, byte: u8) -> Scan {
        match (self.state, byte) {
            (EscapeState::Outside, b'\'') => self.at(EscapeState::Quote),
            (EscapeState::Quote, b'\'') => self.at(EscapeState::Quotes),
            (EscapeState::Quotes, b'\\') => self.at(EscapeState::Backslash),
            (EscapeState::Backslash, _) => self.with_escaped(byte),
            (EscapeState::Outside, b' ') => self.after(false, self.follows_feed),
            _ => self.after(false, false),
        }
    }
}

/// Returns whether a text in `''` has a line that begins at an escaped line feed, and begins with a space or is written as a line of its own.
pub fn has_spaces_after_escape(text: &str) -> bool {
    let mut scan = Scan {
        state: EscapeState::Outside,
        follows_feed: false,
        has_spaces: false,
    };
    for byte in text.bytes() {
        scan = scan.with_byte(byte);
    }
    scan.has_spaces
}
