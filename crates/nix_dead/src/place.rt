//! Places in a text, and the line before each.

ghost use Rattle.std.specs.Prelude.{◌≡◌, ◌+◌, ◌≤◌, ◌<◌, List, ℕ, length, min};
ghost use Rattle.nix_dead.specs.Skipped.{IsAt};

use crate::comments::leaves_out;

/// A place in a text.
#[derive(Clone, Copy)]
pub struct Place<'t> {
    text: &'t [u8],
    // The place.
    offset: usize,
    // Where its line starts.
    start: usize,
    /// Whether the line before leaves out the names of this line.
    pub is_left_out: bool,
}

impl<'t> Place<'t> {
    /// Returns the start of a text.
    pub fn new(text: &'t [u8]) -> Place<'t>
        ensures start { IsAt text.now 0 result }
        ensures order { result.start ≤ result.offset }
    {
        Place {
            text,
            offset: 0,
            start: 0,
            is_left_out: false,
        }
    }

    // Returns the place after the next byte.
    fn after_byte(self) -> Place<'t>
        requires within { self.offset < length self.text.now }
        requires order { self.start ≤ self.offset }
        ensures text { result.text.now ≡ self.entry.text.now }
        ensures moved { result.offset ≡ self.entry.offset + 1 }
        ensures order { result.start ≤ result.offset }
        ensures lines { (text : List ℕ) (offset : ℕ) → IsAt text offset self.entry → IsAt text (offset + 1) result }
    {
        let offset = self.offset + 1;
        if self.text[self.offset] == b'\n' {
            return Place {
                text: self.text,
                offset,
                start: offset,
                is_left_out: leaves_out(&self.text[self.start..self.offset]),
            };
        }
        Place {
            text: self.text,
            offset,
            start: self.start,
            is_left_out: self.is_left_out,
        }
    }

    /// Returns the place at an offset that is not before it, or at the end of the text. Looks at each byte between once.
    pub fn advance(self, offset: usize) -> Place<'t>
        requires { self.start ≤ self.offset }
        ensures order { result.start ≤ result.offset }
        ensures lines { (text : List ℕ) (old : ℕ) → IsAt text old self.entry → old ≤ offset → IsAt text (min offset (length text)) result }
    {
        let end = offset.min(self.text.len());
        let mut place = self;
        while place.offset < end {
            place = place.after_byte();
        }
        place
    }
}
