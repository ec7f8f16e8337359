//! Along the siblings of a node.

use crate::expected::{is_element, is_node};
use crate::parsed::Parsed;
use rnix_kinds::SyntaxKind;
use rnix_tree::{Direction, SyntaxNode};
use std::test::Fail;

// Whether the node's index, and the counts of its siblings in both directions, are those of the `2` of `[1 2 3]`.
fn are_counted(two: &SyntaxNode<'_>) -> bool {
    two.index() == 3
        && two.siblings(Direction::Next).count() == 2
        && two.siblings_with_tokens(Direction::Next).count() == 4
        && two.siblings_with_tokens(Direction::Prev).count() == 4
}

// Whether the siblings of a kind that are found next to the `2` are the right ones.
fn are_of_kind(two: &SyntaxNode<'_>) -> bool {
    let close = two.next_sibling_or_token_by_kind(SyntaxKind::TOKEN_R_BRACK);
    is_node(two.next_sibling_by_kind(SyntaxKind::NODE_LITERAL), "3")
        && is_node(two.prev_sibling_by_kind(SyntaxKind::NODE_LITERAL), "1")
        && is_element(close, SyntaxKind::TOKEN_R_BRACK, 6)
}

// What both checks return for the `2`.
fn stand_beside_two(root: &SyntaxNode<'_>) -> Option<(bool, bool)> {
    let two = root
        .first_child_by_kind(SyntaxKind::NODE_LIST)?
        .first_child()?
        .next_sibling()?;
    Some((are_counted(&two), are_of_kind(&two)))
}

#[test]
fn siblings_stand_on_both_sides(rt: HostRuntime) -> Result<(), Fail> {
    let read = Parsed::new(rt.alloc(), "[1 2 3]")?;
    assert!(rt; stand_beside_two(&read.syntax()) == Some((true, true)));
    Ok(())
}
