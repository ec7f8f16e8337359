//! Comparing the new tree with the old one.

ghost use Rattle.std.specs.Bool.{Decides};
ghost use Rattle.rnix_edit.specs.Edited.{IsAround, IsWithout, IsWith, IsAfter, IsLastIn};

use crate::node_range::NodeRange;
use crate::steps::{
    are_same_before, are_same_walks, begins_before, skip_node, takes_closing, takes_comments,
};
use rnix::SyntaxNode;

/// Returns whether `other` has a node at `new`, and the tree around it is the same as the one around `old` in `root`.
pub fn is_around(
    root: &SyntaxNode<'_>,
    old: NodeRange,
    other: &SyntaxNode<'_>,
    new: NodeRange,
) -> bool
    ensures { Decides result (IsAround root.now old other.now new) }
{
    let mut old_walk = root.preorder_with_tokens();
    let mut new_walk = other.preorder_with_tokens();
    if !are_same_before(&mut old_walk, old, &mut new_walk, new) {
        return false;
    }
    skip_node(&mut old_walk, old);
    skip_node(&mut new_walk, new) && are_same_walks(new_walk, old_walk)
}

/// Returns whether `other` is `root` without the node at `old` and the next `comments` comments.
pub fn is_without(
    root: &SyntaxNode<'_>,
    old: NodeRange,
    comments: usize,
    other: &SyntaxNode<'_>,
) -> bool
    ensures { Decides result (IsWithout root.now old comments other.now) }
{
    let mut old_walk = root.preorder_with_tokens();
    let mut new_walk = other.preorder_with_tokens();
    if !begins_before(&mut new_walk, &mut old_walk, old) {
        return false;
    }
    skip_node(&mut old_walk, old);
    takes_comments(&mut old_walk, comments) && are_same_walks(new_walk, old_walk)
}

// Returns whether `other` has a node at `new`, and is otherwise the same as `root`.
fn is_with(root: &SyntaxNode<'_>, other: &SyntaxNode<'_>, new: NodeRange) -> bool
    ensures { Decides result (IsWith root.now other.now new) }
{
    let mut old_walk = root.preorder_with_tokens();
    let mut new_walk = other.preorder_with_tokens();
    if !begins_before(&mut old_walk, &mut new_walk, new) {
        return false;
    }
    skip_node(&mut new_walk, new) && are_same_walks(old_walk, new_walk)
}

/// Returns whether `other` is `root` plus one node at `new`, directly after the node at `old` and its next `comments` comments.
pub fn is_after(
    root: &SyntaxNode<'_>,
    old: NodeRange,
    comments: usize,
    other: &SyntaxNode<'_>,
    new: NodeRange,
) -> bool
    ensures { Decides result (IsAfter root.now old comments other.now new) }
{
    if !is_with(root, other, new) {
        return false;
    }
    let mut old_walk = root.preorder_with_tokens();
    skip_node(&mut old_walk, old);
    let mut new_walk = other.preorder_with_tokens();
    skip_node(&mut new_walk, new);
    takes_comments(&mut old_walk, comments) && are_same_walks(old_walk, new_walk)
}

/// Returns whether `other` is `root` plus one node at `new`, directly before the last token of the node at `old`.
pub fn is_inside(
    root: &SyntaxNode<'_>,
    old: NodeRange,
    other: &SyntaxNode<'_>,
    new: NodeRange,
) -> bool
    ensures { Decides result (IsLastIn root.now old other.now new) }
{
    if !is_with(root, other, new) {
        return false;
    }
    let mut old_walk = root.preorder_with_tokens();
    skip_node(&mut old_walk, old);
    let mut new_walk = other.preorder_with_tokens();
    skip_node(&mut new_walk, new);
    takes_closing(&mut new_walk) && are_same_walks(old_walk, new_walk)
}
