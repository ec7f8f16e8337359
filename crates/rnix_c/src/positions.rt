//! Lines and columns.

ghost use Rattle.std.specs.Prelude.{◌≡◌, ◌<◌, IfSome, IfNone};
ghost use Rattle.rnix_c.specs.Answers.{filled};
ghost use Rattle.rnix_c.specs.PositionCalls.{IsUnit, position_of, positions_of, AnswersPositions};

use crate::answers::{NO_MEMORY, NO_NUMBER, NONE_SUCH, checked};
use rnix::{ColumnUnit, LineIndex};
use std::alloc::Global;

/// A line and a column, both from 0.
#[repr(C)]
#[derive(Clone, Copy)]
pub struct RnixPosition {
    pub line: u64,
    pub column: u64,
}

// Returns the unit of columns with this number.
fn unit_at(number: u32) -> Option<ColumnUnit>
    ensures found { IfSome result (λ unit. IsUnit number unit) }
    ensures missing { IfNone result (2 < number) }
{
    match number {
        0 => Some(ColumnUnit::Bytes),
        1 => Some(ColumnUnit::Chars),
        2 => Some(ColumnUnit::Utf16),
        _ => None,
    }
}

// Returns the position of an offset.
fn position_of(index: &LineIndex<'_>, offset: u64) -> RnixPosition
    ensures { result ≡ position_of index.now.unit index.now.text offset }
{
    match index.position(offset as usize) {
        Some(position) => RnixPosition {
            line: position.line as u64,
            column: position.column as u64,
        },
        None => RnixPosition {
            line: NO_NUMBER,
            column: NO_NUMBER,
        },
    }
}

// Writes the positions of the first offsets, as many as fit into the array.
fn fill(index: &LineIndex<'_>, offsets: &[u64], room: &mut [RnixPosition])
    ensures { room.new ≡ filled (positions_of index.now.unit index.now.text offsets.now) room.old }
{
    for number in 0..offsets.len().min(room.len()) {
        room[number] = position_of(index, offsets[number]);
    }
}

/// Writes the positions of offsets in a text, and returns the number of offsets.
#[unsafe(no_mangle)]
pub extern "C" fn rnix_positions(
    alloc: Global,
    text: &[u8],
    unit: u32,
    offsets: &[u64],
    room: &mut [RnixPosition],
) -> i64
    ensures { AnswersPositions text.now unit offsets.now result room.old room.new }
{
    let text = match checked(text) {
        Ok(text) => text,
        Err(answer) => return answer,
    };
    let Some(unit) = unit_at(unit) else {
        return NONE_SUCH;
    };
    match LineIndex::new(alloc, text, unit) {
        Ok(index) => {
            fill(&index, offsets, room);
            offsets.len() as i64
        }
        Err(_) => NO_MEMORY,
    }
}
