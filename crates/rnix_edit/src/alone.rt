//! A new node, compared with the node that its text gives when parsed alone.

ghost use Rattle.std.specs.Prelude.{◌≡◌, true, false, string_bytes, IfOk};
ghost use Rattle.std.specs.Bool.{Decides};
ghost use Rattle.rnix_kinds.specs.Lexical.Tokens.{tokens_of};
ghost use Rattle.rnix_grammar.specs.Parsed.{IsParsed};
ghost use Rattle.rnix_edit.specs.Alone.{is_only_name, is_readable, alone_before, alone_after, alone_text, alone_range, node_at, AreSame, IsSameNode, IsAsAlone, IsUnlikeAlone};
ghost use Rattle.rnix_edit.specs.Edited.{IfDone, IfRefused};
ghost use Rattle.rnix_edit.specs.declared.edited.Refusal.TheVariants as reason;

use crate::edited::{Edited, Refusal};
use crate::joining::joined;
use crate::node_range::{NodeRange, is_at};
use crate::same_tree::is_same_tree;
use rnix::ast::{AstNode, Entry, Expr};
use rnix::{Parse, Root, SyntaxKind, SyntaxNode};
use std::alloc::{AllocError, Global};

// Returns whether a text is a name of attributes, arguments or parameters, but not an expression.
fn is_only_name(text: &str) -> bool
    ensures { result ≡ is_only_name text.now }
{
    text == "or" || text == "__curPos"
}

// Returns whether a node of a kind with this text is an expression or an entry.
fn is_readable(kind: SyntaxKind, new: &str) -> bool
    ensures { result ≡ is_readable kind new.now }
{
    if kind == SyntaxKind::NODE_IDENT {
        !is_only_name(new)
    } else {
        Expr::can_cast(kind) || Entry::can_cast(kind)
    }
}

// Returns what precedes the text of a node when it is parsed alone.
fn alone_before(kind: SyntaxKind) -> &'static str
    ensures { result.now ≡ alone_before kind }
{
    if Entry::can_cast(kind) { "{" } else { "" }
}

// Returns what follows the text of a node when it is parsed alone.
fn alone_after(kind: SyntaxKind) -> &'static str
    ensures { result.now ≡ alone_after kind }
{
    if Entry::can_cast(kind) { "}" } else { "" }
}

// Parses the text of a node alone: an expression as it is, an entry in braces.
fn read_alone(alloc: Global, kind: SyntaxKind, new: &str) -> Result<Parse, AllocError>
    ensures { IfOk result (λ read. IsParsed (tokens_of (alone_text kind new.now)) read.tree read.faults) }
{
    let text = joined(alloc, alone_before(kind), new, alone_after(kind))?;
    Root::parse(alloc, text.as_str())
}

// Returns the range of a node in the text that is parsed for it alone.
fn alone_range(target: NodeRange) -> NodeRange
    ensures { result ≡ alone_range target }
{
    NodeRange {
        kind: target.kind,
        start: alone_before(target.kind).len(),
        len: target.len,
    }
}

// Returns the first node of a tree with a kind and a range.
fn node_at<'t>(root: &SyntaxNode<'t>, target: NodeRange) -> Option<SyntaxNode<'t>>
    ensures { result ≡ node_at target root.now }
{
    let mut nodes = root.descendants();
    while let Some(node) = nodes.next() {
        if is_at(&node, target) {
            return Some(node);
        }
    }
    None
}

// Returns whether two trees have nodes at two ranges, and these nodes are equal.
fn are_same(
    root: &SyntaxNode<'_>,
    target: NodeRange,
    other: &SyntaxNode<'_>,
    other_target: NodeRange,
) -> bool
    ensures { Decides result (AreSame (node_at target root.now) (node_at other_target other.now)) }
{
    let Some(node) = node_at(root, target) else {
        return false;
    };
    let Some(own) = node_at(other, other_target) else {
        return false;
    };
    is_same_tree(&node, &own)
}

// Returns whether a text that was parsed alone has no errors, and its node is the one at a range of a tree.
fn is_same_node(root: &SyntaxNode<'_>, target: NodeRange, read: &Parse) -> bool
    ensures { Decides result (IsSameNode target root.now read.now) }
{
    if !read.errors().is_empty() {
        return false;
    }
    are_same(root, target, &read.syntax(), alone_range(target))
}

// Returns whether the node at a range of a tree is the one that its text gives when parsed alone, if it is an expression or an entry.
fn is_as_alone(
    alloc: Global,
    root: &SyntaxNode<'_>,
    target: NodeRange,
    new: &str,
) -> Result<bool, AllocError>
    ensures alike { IfOk result (λ alike. alike ≡ true → IsAsAlone new.now target root.now) }
    ensures unlike { IfOk result (λ alike. alike ≡ false → IsUnlikeAlone new.now target root.now) }
{
    if !is_readable(target.kind, new) {
        return Ok(true);
    }
    let read = read_alone(alloc, target.kind, new)?;
    Ok(is_same_node(root, target, &read))
}

/// Returns the text that an edit made, unless its new node, at a range of the new tree, differs from the node that `new` gives when parsed alone.
pub fn kept_if_alike(
    alloc: Global,
    made: String,
    root: &SyntaxNode<'_>,
    target: NodeRange,
    new: &str,
) -> Result<Edited, AllocError>
    ensures done { IfOk result (IfDone (λ text. (text ≡ string_bytes made) × IsAsAlone new.now target root.now)) }
    ensures refused { IfOk result (IfRefused (λ refusal. (refusal ≡ reason.NodeReadOtherwise) × IsUnlikeAlone new.now target root.now)) }
{
    if is_as_alone(alloc, root, target, new)? {
        Ok(Edited::Done(made))
    } else {
        Ok(Edited::Refused(Refusal::NodeReadOtherwise))
    }
}
