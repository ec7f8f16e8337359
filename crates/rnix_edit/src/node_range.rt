//! Ranges of nodes.

ghost use Rattle.std.specs.Prelude.{◌≡◌, ◌==◌, ◌&&◌};
ghost use Rattle.rnix_edit.specs.Steps.{node_range_of, is_at};

use rnix::{SyntaxKind, SyntaxNode};

/// The kind of a node, the offset at which it begins, and its length in bytes.
#[derive(Clone, Copy)]
pub struct NodeRange {
    pub kind: SyntaxKind,
    pub start: usize,
    pub len: usize,
}

/// Returns the kind and the range of a node.
pub fn node_range_of(node: &SyntaxNode<'_>) -> NodeRange
    ensures { result ≡ node_range_of node.now }
{
    let range = node.text_range();
    NodeRange {
        kind: node.kind(),
        start: range.start(),
        len: range.len(),
    }
}

// Returns whether two ranges begin at the same offset and have the same length.
fn are_same_ranges(a: NodeRange, b: NodeRange) -> bool
    ensures { result ≡ (a.start == b.start && a.len == b.len) }
{
    a.start == b.start && a.len == b.len
}

/// Returns whether a node has this kind and range.
pub fn is_at(node: &SyntaxNode<'_>, target: NodeRange) -> bool
    ensures { result ≡ is_at target node.now }
{
    node.kind() == target.kind && are_same_ranges(node_range_of(node), target)
}
