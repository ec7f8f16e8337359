//! New text for some bytes of a text.

use rnix::TextRange;

/// A replacement for some bytes of a text: `before`, a copy of the bytes `kept` of the text, and `after`.
#[derive(Clone, Copy)]
pub struct Replacement {
    /// The bytes that are replaced; empty for an insertion.
    pub range: TextRange,
    /// The new text before the copy.
    pub before: &'static str,
    /// The bytes that are copied; empty if all of the replacement is new.
    pub kept: TextRange,
    /// The new text after the copy.
    pub after: &'static str,
}

impl Replacement {
    /// Returns the replacement of a range by a text.
    pub fn new(range: TextRange, text: &'static str) -> Replacement {
        Replacement {
            range,
            before: text,
            kept: TextRange::empty(range.start()),
            after: "",
        }
    }

    /// Returns the insertion of a text at an offset.
    pub fn insertion(offset: usize, text: &'static str) -> Replacement {
        Replacement::new(TextRange::empty(offset), text)
    }
}
