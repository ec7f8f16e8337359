//! Replacing nodes.

ghost use Rattle.std.specs.Prelude.{◌≡◌, IfOk};
ghost use Rattle.std.specs.Bool.{Decides};
ghost use Rattle.rnix_green.specs.Tree.{item_of};
ghost use Rattle.rnix_edit.specs.Edited.{IfDone, IfRefused, spliced, node_range_at, IsTreeReplaced, IsReplaced, IsNotReplaced};
ghost use Rattle.rnix_edit.specs.ParsedEdit.{IsNotParsed, IfRead, IfNotRead};

use crate::alone::kept_if_alike;
use crate::check::is_around;
use crate::edited::{Edited, Refusal};
use crate::node_range::{NodeRange, node_range_of};
use crate::parsed_edit::{ParsedEdit, read_spliced};
use rnix::{SyntaxKind, SyntaxNode};
use std::alloc::{AllocError, Global};

// Returns the text with a new text in place of a node, which must parse without errors.
fn read_replaced(
    alloc: Global,
    text: &str,
    node: &SyntaxNode<'_>,
    new: &str,
) -> Result<ParsedEdit, AllocError>
    ensures read { IfOk result (IfRead (spliced text.now (item_of node.now).start (item_of node.now).end new.now)) }
    ensures refused { IfOk result (IfNotRead (λ refusal. IsNotParsed refusal text.now (item_of node.now).start (item_of node.now).end new.now)) }
{
    let range = node.text_range();
    read_spliced(alloc, text, range.start(), range.end(), new)
}

// Returns the kind and the range of a new text that must parse as one node of a kind.
fn node_range_at(kind: SyntaxKind, start: usize, new: &str) -> NodeRange
    ensures { result ≡ node_range_at kind start new.now }
{
    NodeRange {
        kind,
        start,
        len: new.len(),
    }
}

// Returns whether a tree has a node of a kind in place of another one, and is otherwise unchanged.
fn is_replaced(
    root: &SyntaxNode<'_>,
    node: &SyntaxNode<'_>,
    kind: SyntaxKind,
    new: &str,
    other: &SyntaxNode<'_>,
) -> bool
    ensures { Decides result (IsTreeReplaced root.now node.now kind new.now other.now) }
{
    let old = node_range_of(node);
    is_around(root, old, other, node_range_at(kind, old.start, new))
}

// Returns the kind and the range of a new text in place of a node.
fn replaced_range(node: &SyntaxNode<'_>, kind: SyntaxKind, new: &str) -> NodeRange
    ensures { result ≡ node_range_at kind (item_of node.now).start new.now }
{
    let old = node_range_of(node);
    node_range_at(kind, old.start, new)
}

/// Returns the text with a new text in place of a node. The new text must parse as one node of this kind; an expression or an entry also the same as
/// alone. `root` is the root of the tree of `text`.
pub fn replace(
    alloc: Global,
    text: &str,
    root: &SyntaxNode<'_>,
    node: &SyntaxNode<'_>,
    kind: SyntaxKind,
    new: &str,
) -> Result<Edited, AllocError>
    ensures done { IfOk result (IfDone (IsReplaced text.now root.now node.now kind new.now)) }
    ensures refused { IfOk result (IfRefused (λ refusal. IsNotReplaced refusal text.now root.now node.now kind new.now)) }
{
    let (made, read) = match read_replaced(alloc, text, node, new)? {
        ParsedEdit::Read(made, read) => (made, read),
        ParsedEdit::Refused(refusal) => return Ok(Edited::Refused(refusal)),
    };
    let other = read.syntax();
    if is_replaced(root, node, kind, new, &other) {
        let target = replaced_range(node, kind, new);
        let kept = kept_if_alike(alloc, made, &other, target, new)?;
        Ok(kept)
    } else {
        Ok(Edited::Refused(Refusal::ReadOtherwise))
    }
}
