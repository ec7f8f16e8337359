//! The lines and columns of a text.

ghost use Rattle.std.specs.Prelude.{◌≡◌, ◌<◌, ◌^◌, ◌↔◌, length, Some, SomeIff, IfSome, IfOk, IsTrue, ℕ};
ghost use Rattle.std.specs.Str.{IsCharBoundary};
ghost use Rattle.rnix_text.specs.Positions.{position_at, IsAt};
ghost use Rattle.rnix_text.specs.TextColumns.{last_mark};
ghost use Rattle.rnix_text.specs.Marks.{marks_of, is_before, is_up_to};

use crate::line_column::{ColumnUnit, Mark, Position, moves_alike};
use std::alloc::{AllocError, Global};
use std::marker::Model;

/// The lines of a text, which end with `\n`. Building it takes time linear in the text's length, and a query takes time logarithmic in it.
#[derive(Drop)]
pub struct LineIndex<'t> {
    text: &'t str,
    unit: ColumnUnit,
    marks: Vec<Mark>,
}

impl<'t> Model for LineIndex<'t> {
    ghost use Rattle.std.specs.Prelude.{◌≡◌};
    ghost use Rattle.rnix_text.specs.TextColumns.{Counted};
    ghost use Rattle.rnix_text.specs.Marks.{marks_of};

    ghost Value = { Counted };

    ghost view = { λ i. record { text = i.text.now; unit = i.unit } };

    ghost invariant = { λ i. i.marks.items ≡ marks_of i.unit i.text.now };
}

// Returns the marks of a text.
fn marks_of(alloc: Global, bytes: &[u8], unit: ColumnUnit) -> Result<Vec<Mark>, AllocError>
    ensures { IfOk result (λ marks. marks.items ≡ marks_of unit bytes.now) }
{
    let mut mark = Mark::first();
    let mut marks = Vec::new(alloc);
    marks.push(mark)?;
    for byte in bytes {
        mark = mark.after(unit, *byte);
        if !moves_alike(unit, *byte) {
            marks.push(mark)?;
        }
    }
    Ok(marks)
}

impl<'t> LineIndex<'t> {
    /// Indexes the lines of a text, with columns that count the unit.
    pub fn new(alloc: Global, text: &'t str, unit: ColumnUnit) -> Result<Self, AllocError>
        ensures { IfOk result (λ index. index ≡ record { text = text.now; unit = unit }) }
    {
        let marks = marks_of(alloc, text.as_bytes(), unit)?;
        Ok(LineIndex { text, unit, marks })
    }

    // Returns the last mark at or before an offset.
    fn mark_before(&self, offset: usize) -> Mark
        ensures { result ≡ last_mark (is_before offset) self.now }
    {
        let after = self.marks.partition_point(
            |mark: &Mark| -> bool
                ensures { result ≡ is_before offset mark.now }
            { mark.offset <= offset },
        );
        self.marks[after - 1]
    }

    // Returns the last mark at or before a position.
    fn mark_up_to(&self, position: Position) -> Mark
        ensures mark { result ≡ last_mark (is_up_to position) self.now }
        ensures fits { length self.now.text < 2 ^ 63 }
    {
        let after = self.marks.partition_point(
            |mark: &Mark| -> bool
                ensures { result ≡ is_up_to position mark.now }
            { mark.is_up_to(position) },
        );
        self.marks[after - 1]
    }

    /// Returns the position of a byte offset, or `None` if it is beyond the text or inside a character.
    pub fn position(&self, offset: usize) -> Option<Position>
        ensures { SomeIff result (IsCharBoundary self.now.text offset)
            (position_at self.now.unit self.now.text offset) }
    {
        if !self.text.is_char_boundary(offset) {
            return None;
        }
        Some(self.mark_before(offset).position_of(offset))
    }

    // Returns whether an offset has a position.
    fn is_at(&self, position: Position, offset: usize) -> bool
        ensures { IsTrue result ↔ IsAt self.now.unit self.now.text position offset }
    {
        self.position(offset) == Some(position)
    }

    /// Returns the byte offset of a position, or `None` if the position is inside a character or beyond the end of its line.
    pub fn offset(&self, position: Position) -> Option<usize>
        ensures found { IfSome result (λ offset. IsAt self.now.unit self.now.text position offset) }
        ensures only { (offset : ℕ) → IsAt self.now.unit self.now.text position offset → result ≡ Some offset }
    {
        let mark = self.mark_up_to(position);
        let columns = position.column.saturating_sub(mark.position.column);
        let offset = mark.offset.saturating_add(columns);
        if self.is_at(position, offset) {
            Some(offset)
        } else {
            None
        }
    }
}
