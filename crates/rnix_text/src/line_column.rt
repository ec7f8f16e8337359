//! Positions in a text, and the marks from which they are computed.

ghost use Rattle.std.specs.Prelude.{◌≡◌, ◌+◌, ◌-◌, ◌<◌, ◌≤◌, ◌^◌, fold};
ghost use Rattle.rnix_text.specs.Positions.{weight, step};
ghost use Rattle.rnix_text.specs.Marks.{is_plain, first_mark, mark_after, position_after, is_up_to};

/// The unit of columns.
#[derive(Clone, Copy, PartialEq, Eq, Hash, Debug)]
pub enum ColumnUnit {
    /// Bytes of UTF-8.
    Bytes,
    /// Characters.
    Chars,
    /// 16-bit units of UTF-16, as editors count them.
    Utf16,
}

/// A line and a column, both from 0.
#[derive(Clone, Copy, PartialEq, Eq, PartialOrd, Ord, Hash, Debug, Default)]
pub struct Position {
    pub line: usize,
    pub column: usize,
}

// An offset with its position.
#[derive(Clone, Copy)]
pub(crate) struct Mark {
    pub(crate) offset: usize,
    pub(crate) position: Position,
}

// The byte that ends a line.
const NEWLINE: u8 = b'\n';
// The smallest byte that continues a character.
const CONTINUATION: u8 = 0x80;
// The smallest byte that begins a character of several bytes.
const LEAD: u8 = 0xc0;
// The smallest byte that begins a character of two units in UTF-16.
const LEAD_OF_PAIR: u8 = 0xf0;

// Returns what a byte adds to the column of its line.
pub(crate) fn weight_of(unit: ColumnUnit, byte: u8) -> usize
    ensures value { result ≡ weight unit byte }
    ensures small { result ≤ 2 }
{
    match unit {
        ColumnUnit::Bytes => 1,
        _ if byte < CONTINUATION => 1,
        _ if byte < LEAD => 0,
        ColumnUnit::Utf16 if byte >= LEAD_OF_PAIR => 2,
        _ => 1,
    }
}

// Returns whether a byte moves the column by one, and does not end the line.
pub(crate) fn moves_alike(unit: ColumnUnit, byte: u8) -> bool
    ensures { result ≡ is_plain unit byte }
{
    byte != NEWLINE && weight_of(unit, byte) == 1
}

impl Mark {
    // Returns the start of a text.
    pub(crate) fn first() -> Mark
        ensures { result ≡ first_mark }
    {
        Mark {
            offset: 0,
            position: Position { line: 0, column: 0 },
        }
    }

    // Returns the mark after a byte.
    pub(crate) fn after(self, unit: ColumnUnit, byte: u8) -> Mark
        requires offset { self.offset + 1 < 2 ^ 64 }
        requires line { self.position.line + 1 < 2 ^ 64 }
        requires column { self.position.column + 2 < 2 ^ 64 }
        ensures { result ≡ mark_after unit self byte }
    {
        let position = if byte == NEWLINE {
            Position {
                line: self.position.line + 1,
                column: 0,
            }
        } else {
            Position {
                line: self.position.line,
                column: self.position.column + weight_of(unit, byte),
            }
        };
        Mark {
            offset: self.offset + 1,
            position,
        }
    }

    // Returns the position of an offset after the mark. Each byte between them must move the column by one.
    pub(crate) fn position_of(self, offset: usize) -> Position
        requires order { self.offset ≤ offset }
        requires fits { self.position.column + (offset - self.offset) < 2 ^ 64 }
        ensures { result ≡ position_after self offset }
    {
        Position {
            line: self.position.line,
            column: self.position.column + (offset - self.offset),
        }
    }

    // Returns whether the mark is at or before a position.
    pub(crate) fn is_up_to(self, position: Position) -> bool
        ensures { result ≡ is_up_to position self }
    {
        let own = self.position;
        own.line < position.line || (own.line == position.line && own.column <= position.column)
    }
}
