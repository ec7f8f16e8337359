//! Parses and ranges as `reparse` requires them.

ghost use Rattle.std.specs.Prelude.{◌≡◌, ◌≤◌, IfOk, IfSome, IfNone};
ghost use Rattle.rnix_green.specs.Forest.{text_of};
ghost use Rattle.rnix_green.specs.Range.{bounds_of};
ghost use Rattle.rnix_green.specs.Tree.{forest_of};
ghost use Rattle.rnix_reparse.specs.EditedRange.{IsRangeOf};
ghost use Rattle.rnix_reparse.specs.EditableRanges.{between, IsEditable};
ghost use Rattle.rnix_reparse.specs.ParsedText.{IsParsedText};

use rnix::{Parse, Root, TextRange, TextSize};
use std::alloc::{AllocError, Global};

/// Returns the range between two offsets, or `None` if one of them is after the end of the text or inside a character, or they are not in order.
pub fn editable_range(text: &str, start: TextSize, end: TextSize) -> Option<TextRange>
    ensures bounds { IfSome result (λ range. bounds_of range ≡ between start end) }
    ensures range { IfSome result (λ range. IsRangeOf text.now (bounds_of range)) }
    ensures found { IfSome result (λ _. IsEditable text.now start end) }
    ensures missing { IfNone result (¬ IsEditable text.now start end) }
{
    if start > end {
        return None;
    }
    if !text.is_char_boundary(start) {
        return None;
    }
    if !text.is_char_boundary(end) {
        return None;
    }
    Some(TextRange::new(start, end))
}

/// Parses a text, like `Root::parse`; its contract promises what `reparse` requires.
pub fn parse_text(alloc: Global, text: &str) -> Result<Parse, AllocError>
    ensures parsed { IfOk result IsParsedText }
    ensures text { IfOk result (λ read. text_of (forest_of read.tree) ≡ text.now) }
{
    let read = Root::parse(alloc, text)?;
    Ok(read)
}
