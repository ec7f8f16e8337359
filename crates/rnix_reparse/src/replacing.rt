//! The parse of a node's new text alone.

ghost use Rattle.std.specs.Prelude.{[], IfOk, IfSome};
ghost use Rattle.rnix_kinds.specs.Lexical.Tokens.{tokens_of};
ghost use Rattle.rnix_green.specs.Forest.{text_of};
ghost use Rattle.rnix_green.specs.Range.{bounds_of};
ghost use Rattle.rnix_green.specs.Tree.{forest_of};
ghost use Rattle.rnix_grammar.specs.Parsed.{IsParsed};
ghost use Rattle.rnix_reparse.specs.OwnBrackets.{HasBrackets, IsBetween};
ghost use Rattle.rnix_reparse.specs.EditedRange.{IsRangeOf};
ghost use Rattle.rnix_reparse.specs.ReparsedNode.{IsReparsedNode};

use crate::comparing::has_same_brackets;
use crate::nesting::fits_at;
use crate::texts::edited_text;
use rnix::{Parse, Root, TextRange};
use rnix_green::GreenNode;
use std::alloc::{AllocError, Global};

/// Returns the parse of a node's new text after an edit between the node's brackets, if that text alone has no errors, is one node with these brackets, and
/// does not nest too deep for its place.
pub(crate) fn reparsed_node(
    alloc: Global,
    green: &GreenNode,
    number: usize,
    range: TextRange,
    replacement: &str,
) -> Result<Option<Parse>, AllocError>
    requires parsed { IsParsed (tokens_of (text_of (forest_of green.now))) green.now [] }
    requires range { IsRangeOf (text_of (forest_of green.now)) (bounds_of range) }
    requires brackets { HasBrackets green.now number }
    requires between { IsBetween green.now number (bounds_of range) }
    ensures { IfOk result (λ found. IfSome found (λ new. IsReparsedNode green.now number new.tree (bounds_of range) replacement.now)) }
{
    // Called only for its contract, from which the proof learns that the text is UTF-8.
    let _text = green.text_at(0);
    let first = green.element(number).start;
    let (start, end) = (range.start() - first, range.end() - first);
    let text = edited_text(alloc, green.text_at(number), start, end, replacement)?;
    let new = Root::parse(alloc, text.as_str())?;
    if !new.errors().is_empty() {
        return Ok(None);
    }
    if !has_same_brackets(green, number, new.green()) {
        return Ok(None);
    }
    if !fits_at(green, number, &new) {
        return Ok(None);
    }
    Ok(Some(new))
}
