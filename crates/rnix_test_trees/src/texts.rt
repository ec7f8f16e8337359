//! Lines and edits of texts.

use rnix_text::{ColumnUnit, EditError, Edits, LineIndex, Position};
use std::alloc::{AllocError, Global};
use std::ops::Range;
use std::test::Fail;

// A character of two bytes, a newline, a character of four bytes, and a letter.
const TEXT: &str = "é\n😀x";

// The line and the column of an offset of the text.
fn position(
    alloc: Global,
    unit: ColumnUnit,
    offset: usize,
) -> Result<Option<(usize, usize)>, AllocError> {
    let lines = LineIndex::new(alloc, TEXT, unit)?;
    Ok(match lines.position(offset) {
        Some(Position { line, column }) => Some((line, column)),
        None => None,
    })
}

#[test]
fn columns_count_what_is_asked(rt: HostRuntime) -> Result<(), Fail> {
    let cases = [
        (ColumnUnit::Bytes, 7, Some((1, 4))),
        (ColumnUnit::Chars, 7, Some((1, 1))),
        (ColumnUnit::Utf16, 7, Some((1, 2))),
        (ColumnUnit::Utf16, 5, None),
        (ColumnUnit::Utf16, 9, None),
    ];
    for (unit, offset, wanted) in cases {
        assert!(rt;
            position(rt.alloc(), unit, offset)? == wanted,
            "at {offset}"
        );
    }
    Ok(())
}

// The offset of a line and a column of the text, as editors count.
fn offset(alloc: Global, line: usize, column: usize) -> Result<Option<usize>, AllocError> {
    let lines = LineIndex::new(alloc, TEXT, ColumnUnit::Utf16)?;
    Ok(lines.offset(Position { line, column }))
}

#[test]
fn positions_lead_back(rt: HostRuntime) -> Result<(), Fail> {
    let cases = [
        (0, 1, Some(2)),
        (1, 0, Some(3)),
        (1, 2, Some(7)),
        (1, 3, Some(8)),
        (1, 1, None),
        (0, 2, None),
        (2, 0, None),
    ];
    for (line, column, wanted) in cases {
        assert!(rt;
            offset(rt.alloc(), line, column)? == wanted,
            "at {line}, {column}"
        );
    }
    Ok(())
}

// A range, its new text, and the error with which the edit is refused, if it is.
type Case = (Range<usize>, &'static str, Option<EditError>);

// The text with edits, if each of them is accepted or refused as it should be.
fn edited(alloc: Global, text: &str, cases: &[Case]) -> Result<Option<String>, AllocError> {
    let mut edits = Edits::new(alloc, text);
    for (range, new, wanted) in cases {
        if edits.replace(range.start..range.end, new).err() != *wanted {
            return Ok(None);
        }
    }
    Ok(Some(edits.apply(alloc)?))
}

// Whether the text with edits is the wanted one.
fn is_edited(alloc: Global, text: &str, cases: &[Case], wanted: &str) -> Result<bool, AllocError> {
    Ok(match edited(alloc, text, cases)? {
        Some(found) => found.as_str() == wanted,
        None => false,
    })
}

#[test]
fn edits_are_made_in_any_order(rt: HostRuntime) -> Result<(), Fail> {
    let cases = [
        (14..15, "bc", None),
        (4..5, "bc", None),
        (9..10, "", None),
        (0..0, "(", None),
    ];
    assert!(rt; is_edited(rt.alloc(), "let a = 1; in a", &cases, "(let bc = 1 in bc")?);
    Ok(())
}

#[test]
fn refused_edits_change_nothing(rt: HostRuntime) -> Result<(), Fail> {
    let cases = [
        (3..7, "y", None),
        (2..8, "", Some(EditError::Overlap)),
        (1..2, "", Some(EditError::InsideCharacter)),
        (7..9, "", Some(EditError::OutOfText)),
    ];
    assert!(rt; is_edited(rt.alloc(), TEXT, &cases, "é\nyx")?);
    Ok(())
}
