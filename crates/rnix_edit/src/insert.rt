//! Inserting nodes.

ghost use Rattle.std.specs.Prelude.{◌≡◌, IfOk};
ghost use Rattle.rnix_edit.specs.EditRanges.{put_in};
ghost use Rattle.rnix_edit.specs.Edited.{IfDone, IfRefused, spliced, node_range_in, IsInsertedAfter, IsNotInsertedAfter, IsInsertedInside, IsNotInsertedInside};
ghost use Rattle.rnix_edit.specs.ParsedEdit.{IsNotParsed, IfRead, IfNotRead, gap_of};

use crate::alone::kept_if_alike;
use crate::check::{is_after, is_inside};
use crate::edited::{Edited, Refusal};
use crate::gap::{Gap, gap_after, gap_inside};
use crate::joining::joined;
use crate::node_range::{NodeRange, node_range_of};
use crate::parsed_edit::{ParsedEdit, read_spliced};
use rnix::{SyntaxKind, SyntaxNode};
use std::alloc::{AllocError, Global};

// Returns the text with a new text in a gap, which must parse without errors.
fn read_filled(alloc: Global, text: &str, gap: &Gap, new: &str) -> Result<ParsedEdit, AllocError>
    ensures read { IfOk result (IfRead (spliced text.now gap.now.start gap.now.end (put_in (gap_of gap.now) new.now))) }
    ensures refused { IfOk result (IfNotRead (λ refusal. IsNotParsed refusal text.now gap.now.start gap.now.end (put_in (gap_of gap.now) new.now))) }
{
    let put = joined(alloc, gap.before.as_str(), new, gap.after)?;
    read_spliced(alloc, text, gap.start, gap.end, put.as_str())
}

// Returns the range that a node of a kind has in a gap.
fn node_range_in(gap: &Gap, kind: SyntaxKind, new: &str) -> Result<NodeRange, AllocError>
    ensures { IfOk result (λ target. target ≡ node_range_in (gap_of gap.now) kind new.now) }
{
    match gap.start.checked_add(gap.before.len()) {
        Some(start) => Ok(NodeRange {
            kind,
            start,
            len: new.len(),
        }),
        None => Err(AllocError),
    }
}

/// Returns the text with a new node after another one: an entry of a set or a `let`, or an item of a list. If the other one has a line of
/// its own, the new one goes on the next line, with the same indentation, after the comments on that line; otherwise it follows after a space.
/// The new text must parse as one node of this kind; an expression or an entry also the same as alone. `root` is the root of the tree of `text`.
pub fn insert_after(
    alloc: Global,
    text: &str,
    root: &SyntaxNode<'_>,
    node: &SyntaxNode<'_>,
    kind: SyntaxKind,
    new: &str,
) -> Result<Edited, AllocError>
    ensures done { IfOk result (IfDone (IsInsertedAfter text.now root.now node.now kind new.now)) }
    ensures refused { IfOk result (IfRefused (λ refusal. IsNotInsertedAfter refusal text.now root.now node.now kind new.now)) }
{
    let gap = gap_after(alloc, text, node)?;
    let (made, read) = match read_filled(alloc, text, &gap, new)? {
        ParsedEdit::Read(made, read) => (made, read),
        ParsedEdit::Refused(refusal) => return Ok(Edited::Refused(refusal)),
    };
    let target = node_range_in(&gap, kind, new)?;
    let old = node_range_of(node);
    let other = read.syntax();
    if is_after(root, old, gap.comments, &other, target) {
        let kept = kept_if_alike(alloc, made, &other, target, new)?;
        Ok(kept)
    } else {
        Ok(Edited::Refused(Refusal::ReadOtherwise))
    }
}

/// Returns the text with a new node before the closing bracket of a set or a list, which may be empty. The new node goes on a line of its own if
/// the bracket has one. The new text must parse as one node of this kind; an expression or an entry also the same as alone. `root` is the root of
/// the tree of `text`.
pub fn insert_inside(
    alloc: Global,
    text: &str,
    root: &SyntaxNode<'_>,
    node: &SyntaxNode<'_>,
    kind: SyntaxKind,
    new: &str,
) -> Result<Edited, AllocError>
    ensures done { IfOk result (IfDone (IsInsertedInside text.now root.now node.now kind new.now)) }
    ensures refused { IfOk result (IfRefused (λ refusal. IsNotInsertedInside refusal text.now root.now node.now kind new.now)) }
{
    let gap = gap_inside(alloc, text, node)?;
    let (made, read) = match read_filled(alloc, text, &gap, new)? {
        ParsedEdit::Read(made, read) => (made, read),
        ParsedEdit::Refused(refusal) => return Ok(Edited::Refused(refusal)),
    };
    let target = node_range_in(&gap, kind, new)?;
    let old = node_range_of(node);
    let other = read.syntax();
    if is_inside(root, old, &other, target) {
        let kept = kept_if_alike(alloc, made, &other, target, new)?;
        Ok(kept)
    } else {
        Ok(Edited::Refused(Refusal::ReadOtherwise))
    }
}
