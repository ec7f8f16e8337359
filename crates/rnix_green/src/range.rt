//! Ranges of bytes.

ghost use Rattle.std.specs.Prelude.{◌≡◌, ◌≤◌, ◌<◌, ◌-◌, ◌+◌, ◌^◌, ◌↔◌, IsTrue, SomeIff, min, max, option_map};

use std::cmp::Ordering;
use std::ops::Range;

/// An offset in a text, in bytes.
pub type TextSize = usize;

/// A half-open range of bytes.
#[derive(Clone, Copy, PartialEq, Eq, Hash, Debug)]
pub struct TextRange {
    start: usize,
    end: usize,
    ghost ordered: { start ≤ end },
}

impl TextRange {
    ghost use Rattle.rnix_green.specs.Range.{bounds_of};

    /// Returns the range from `start` to `end`.
    pub fn new(start: TextSize, end: TextSize) -> Self
        requires { start ≤ end }
        ensures { bounds_of result ≡ record { start = start; end = end } }
    {
        TextRange { start, end }
    }

    /// Returns the range of `len` bytes that starts at `offset`.
    pub fn at(offset: TextSize, len: TextSize) -> Self
        requires { offset + len < 2 ^ 64 }
        ensures { bounds_of result ≡ record { start = offset; end = offset + len } }
    {
        TextRange::new(offset, offset + len)
    }

    /// Returns the empty range at `offset`.
    pub fn empty(offset: TextSize) -> Self
        ensures { bounds_of result ≡ record { start = offset; end = offset } }
    {
        TextRange::new(offset, offset)
    }

    /// Returns the range of the bytes before `end`.
    pub fn up_to(end: TextSize) -> Self
        ensures { bounds_of result ≡ record { start = 0; end = end } }
    {
        TextRange::new(0, end)
    }

    /// Returns the offset of the first byte.
    pub fn start(self) -> TextSize
        ensures { result ≡ self.start }
    {
        self.start
    }

    /// Returns the offset after the last byte.
    pub fn end(self) -> TextSize
        ensures value { result ≡ self.end }
        ensures ordered { self.start ≤ result }
    {
        self.end
    }

    /// Returns the number of bytes in the range.
    pub fn len(self) -> TextSize
        ensures { result ≡ self.end - self.start }
    {
        self.end - self.start
    }

    /// Returns whether the range is empty.
    pub fn is_empty(self) -> bool
        ensures { IsTrue result ↔ (self.start ≡ self.end) }
    {
        self.start == self.end
    }

    /// Returns whether the range contains the byte at the offset.
    pub fn contains(self, offset: TextSize) -> bool
        ensures { IsTrue result ↔ ((self.start ≤ offset) × (offset < self.end)) }
    {
        self.start <= offset && offset < self.end
    }

    /// Returns whether the offset is inside the range or at its end.
    pub fn contains_inclusive(self, offset: TextSize) -> bool
        ensures { IsTrue result ↔ ((self.start ≤ offset) × (offset ≤ self.end)) }
    {
        self.start <= offset && offset <= self.end
    }

    /// Returns whether the range contains the other range.
    pub fn contains_range(self, other: TextRange) -> bool
        ensures { IsTrue result ↔ ((self.start ≤ other.start) × (other.end ≤ self.end)) }
    {
        self.start <= other.start && other.end <= self.end
    }

    /// Returns the part that both ranges share: an empty range if they only touch, `None` if they are apart.
    pub fn intersect(self, other: TextRange) -> Option<TextRange>
        ensures { SomeIff (option_map bounds_of result) (max self.start other.start ≤ min self.end other.end)
            (record { start = max self.start other.start; end = min self.end other.end }) }
    {
        let (start, end) = (self.start.max(other.start), self.end.min(other.end));
        if start <= end {
            Some(TextRange::new(start, end))
        } else {
            None
        }
    }

    /// Returns the smallest range that contains both ranges.
    pub fn cover(self, other: TextRange) -> TextRange
        ensures { bounds_of result ≡ record { start = min self.start other.start; end = max self.end other.end } }
    {
        TextRange::new(self.start.min(other.start), self.end.max(other.end))
    }

    /// Returns the smallest range that contains the range and has the offset inside or at an end.
    pub fn cover_offset(self, offset: TextSize) -> TextRange
        ensures { bounds_of result ≡ record { start = min self.start offset; end = max self.end offset } }
    {
        self.cover(TextRange::empty(offset))
    }

    /// Returns the range moved right, or `None` if its end is no longer a `TextSize`.
    pub fn checked_add(self, offset: TextSize) -> Option<TextRange>
        ensures { SomeIff (option_map bounds_of result) (self.end + offset < 2 ^ 64)
            (record { start = self.start + offset; end = self.end + offset }) }
    {
        let end = self.end.checked_add(offset)?;
        Some(TextRange::new(self.start + offset, end))
    }

    /// Returns the range moved left, or `None` if its start would be negative.
    pub fn checked_sub(self, offset: TextSize) -> Option<TextRange>
        ensures { SomeIff (option_map bounds_of result) (offset ≤ self.start)
            (record { start = self.start - offset; end = self.end - offset }) }
    {
        let start = self.start.checked_sub(offset)?;
        Some(TextRange::new(start, self.end - offset))
    }

    /// Compares the positions of two ranges; ranges with a byte in common are `Equal`.
    pub fn ordering(self, other: TextRange) -> Ordering
        ensures less { (result ≡ Ordering.Less) ↔ (self.end ≤ other.start) }
        ensures equal { (result ≡ Ordering.Equal) ↔ ((other.start < self.end) × (self.start < other.end)) }
        ensures greater { (result ≡ Ordering.Greater) ↔ ((other.start < self.end) × (other.end ≤ self.start)) }
    {
        if self.end <= other.start {
            Ordering::Less
        } else if other.end <= self.start {
            Ordering::Greater
        } else {
            Ordering::Equal
        }
    }
}

/// The default is the empty range at offset 0.
impl Default for TextRange {
    ghost use Rattle.std.specs.Prelude.{◌≡◌};
    ghost use Rattle.rnix_green.specs.Range.{bounds_of};

    ghost is_default = { λ range. bounds_of range ≡ record { start = 0; end = 0 } };

    fn default() -> TextRange {
        TextRange::empty(0)
    }
}

impl From<TextRange> for Range<usize> {
    ghost use Rattle.std.specs.Prelude.{◌≡◌};

    ghost from_gives = { λ range bounds. (bounds.start ≡ range.start) × (bounds.end ≡ range.end) };

    fn from(range: TextRange) -> Range<usize> {
        range.start..range.end
    }
}
