//! The parse of a text after an edit.

ghost use Rattle.std.specs.Prelude.{◌<◌, length, [], IsTrue, IfOk, IfSome};
ghost use Rattle.rnix_kinds.specs.Lexical.Tokens.{tokens_of};
ghost use Rattle.rnix_green.specs.Forest.{text_of};
ghost use Rattle.rnix_green.specs.Range.{bounds_of};
ghost use Rattle.rnix_green.specs.Tree.{items_of, forest_of};
ghost use Rattle.rnix_grammar.specs.Parsed.{IsParsed};
ghost use Rattle.rnix_reparse.specs.OwnBrackets.{IsBetween};
ghost use Rattle.rnix_reparse.specs.EditedRange.{edited, IsRangeOf};
ghost use Rattle.rnix_reparse.specs.ParsedText.{IsParsedText};
ghost use Rattle.rnix_reparse.specs.ReparsedNode.{IsReparsedNode};

use crate::brackets::has_brackets;
use crate::replacing::reparsed_node;
use crate::texts::edited_text;
use rnix::{Parse, Root, TextRange};
use rnix_green::GreenNode;
use std::alloc::{AllocError, Global};

// The nodes that are parsed alone for an edit are together at most this part of the text: a twentieth.
const PART: usize = 20;

// Returns the last element that starts before an offset: it is inside each node that begins before the offset and ends after it.
fn last_before(green: &GreenNode, offset: usize) -> Option<usize>
    ensures { IfSome result (λ number. number < length (items_of green.now)) }
{
    green
        .first_from(0, green.element_count(), offset)
        .checked_sub(1)
}

// Returns whether a range is inside a node, without the node's first and last bytes.
fn is_between(green: &GreenNode, number: usize, range: TextRange) -> bool
    requires { number < length (items_of green.now) }
    ensures { IsTrue result → IsBetween green.now number (bounds_of range) }
{
    let element = green.element(number);
    element.start < range.start() && range.end() < element.end
}

// Returns the number of bytes in a node and in a replacement.
fn len_with(green: &GreenNode, number: usize, replacement: &str) -> usize
    requires { number < length (items_of green.now) }
{
    let element = green.element(number);
    (element.end - element.start).saturating_add(replacement.len())
}

/// The number of a node in a tree, and the parse of its new text alone.
#[derive(Drop)]
pub(crate) struct NewNode {
    pub(crate) number: usize,
    pub(crate) parse: Parse,
}

/// Parses nodes around the range alone, the smallest first. Returns the first that may replace the old node in the tree, or `None`.
pub(crate) fn reparse_node(
    alloc: Global,
    green: &GreenNode,
    range: TextRange,
    replacement: &str,
) -> Result<Option<NewNode>, AllocError>
    requires parsed { IsParsed (tokens_of (text_of (forest_of green.now))) green.now [] }
    requires range { IsRangeOf (text_of (forest_of green.now)) (bounds_of range) }
    ensures { IfOk result (λ found. IfSome found (λ new. IsReparsedNode green.now new.number new.parse.tree (bounds_of range) replacement.now)) }
{
    let mut left = green.text_at(0).len() / PART;
    let mut around = last_before(green, range.start());
    while let Some(number) = around {
        if is_between(green, number, range) && has_brackets(green, number) {
            let len = len_with(green, number, replacement);
            if left < len {
                return Ok(None);
            }
            left -= len;
            if let Some(parse) = reparsed_node(alloc, green, number, range, replacement)? {
                return Ok(Some(NewNode { number, parse }));
            }
        }
        around = green.element(number).parent;
    }
    Ok(None)
}

/// Returns the parse of a text after an edit that replaces the bytes in `range`, from the parse of the text before: the tree and the errors that
/// `Root::parse` returns for the new text. If the old text has no errors and the edit is between the brackets of a list, of a set, of a `let { }`, of
/// parentheses or of a string, only that node is parsed again, where its new text alone is read without errors as one such node. Otherwise the next such node
/// around it is tried, and then the whole text is parsed; trials parse at most a twentieth of it. The new parse may be edited in turn. `old` must come from
/// `parse_text`, or from an edit, and `range` must begin and end between characters of its text, as a range of `editable_range` does.
pub fn reparse(
    alloc: Global,
    old: &Parse,
    range: TextRange,
    replacement: &str,
) -> Result<Parse, AllocError>
    requires parsed { IsParsedText old.now }
    requires range { IsRangeOf (text_of (forest_of old.now.tree)) (bounds_of range) }
    ensures new { IfOk result (λ read.
        IsParsed (tokens_of (edited (bounds_of range) replacement.now (text_of (forest_of old.now.tree)))) read.tree read.faults) }
    ensures again { IfOk result IsParsedText }
{
    let whole = old.text();
    if old.errors().is_empty() {
        let green = old.green();
        if let Some(new) = reparse_node(alloc, green, range, replacement)? {
            let tree = green.with_node(new.number, new.parse.green())?;
            return Ok(Parse::without_errors(alloc, tree));
        }
    }
    let text = edited_text(alloc, whole, range.start(), range.end(), replacement)?;
    let parse = Root::parse(alloc, text.as_str())?;
    Ok(parse)
}
