//! Walks that leave out what is inside some nodes.

use crate::parsed::Parsed;
use rnix_kinds::SyntaxKind;
use rnix_tree::{PreorderWithTokens, SyntaxNode, WalkEvent};
use std::test::Fail;

// How many nodes a walk enters that skips what is inside nodes of the kind.
fn entered_outside(node: &SyntaxNode<'_>, kind: SyntaxKind) -> usize {
    let mut walk = node.preorder();
    let mut entered: usize = 0;
    while let Some(event) = walk.next() {
        if let WalkEvent::Enter(node) = event {
            entered = entered.saturating_add(1);
            if node.kind() == kind {
                walk.skip_subtree();
            }
        }
    }
    entered
}

// How many nodes a walk enters that skips nothing, and one that skips what is inside parentheses.
fn entered(root: &SyntaxNode<'_>) -> (usize, usize) {
    (
        entered_outside(root, SyntaxKind::NODE_ERROR),
        entered_outside(root, SyntaxKind::NODE_PAREN),
    )
}

#[test]
fn what_is_inside_a_node_is_left_out(rt: HostRuntime) -> Result<(), Fail> {
    let read = Parsed::new(rt.alloc(), "[1 (2 + 3) 4]")?;
    assert!(rt; entered(&read.syntax()) == (8, 5));
    Ok(())
}

// How many events are left in a walk.
fn remaining(walk: PreorderWithTokens<'_>) -> usize {
    let mut remaining: usize = 0;
    for _event in walk {
        remaining = remaining.saturating_add(1);
    }
    remaining
}

// Two walks after they enter the roots: what passing the siblings that end before two offsets returns, and how many events are left in each.
fn passed(
    first: &SyntaxNode<'_>,
    before: usize,
    second: &SyntaxNode<'_>,
    other_before: usize,
) -> (Option<bool>, usize, usize) {
    let mut walk = first.preorder_with_tokens();
    let mut other = second.preorder_with_tokens();
    walk.next();
    other.next();
    let is_passed = walk.pass_alike(before, &mut other, other_before);
    (is_passed, remaining(walk), remaining(other))
}

#[test]
fn what_two_walks_have_alike_is_passed(rt: HostRuntime) -> Result<(), Fail> {
    let first = Parsed::new(rt.alloc(), "[1 (2 + 3) 4]")?;
    let second = Parsed::new(rt.alloc(), "[1 (2 + 3) 4]")?;
    let result = passed(&first.syntax(), usize::MAX, &second.syntax(), usize::MAX);
    assert!(rt; result == (Some(true), 1, 1));
    Ok(())
}

#[test]
fn what_two_walks_have_otherwise_is_not_passed(rt: HostRuntime) -> Result<(), Fail> {
    let first = Parsed::new(rt.alloc(), "[1 (2 + 3) 4]")?;
    let all = remaining(first.syntax().preorder_with_tokens()).saturating_sub(1);
    for text in [
        "[1 (2 + 3) 5]",
        "[1 (2 * 3) 4]",
        "[1 ((23)) 4]",
        "[1 (2 + 3)  ]",
    ] {
        let second = Parsed::new(rt.alloc(), text)?;
        let others = remaining(second.syntax().preorder_with_tokens()).saturating_sub(1);
        let result = passed(&first.syntax(), usize::MAX, &second.syntax(), usize::MAX);
        assert!(rt; result == (Some(false), all, others));
    }
    Ok(())
}

// Two walks after they enter the lists in two roots, the second one of a longer text: what passing the siblings before two offsets returns, how many
// events the first one has passed, and whether the second one has passed as many.
fn passed_in_lists(
    rt: &HostRuntime,
    before: usize,
    other_before: usize,
) -> Result<(Option<bool>, usize, bool), Fail> {
    let first = Parsed::new(rt.alloc(), "[1 (2 + 3) 4 5]")?;
    let second = Parsed::new(rt.alloc(), "[1 (2 + 3) 6 5 7]")?;
    let (root, other_root) = (first.syntax(), second.syntax());
    let mut walk = root.preorder_with_tokens();
    let mut other = other_root.preorder_with_tokens();
    walk.next();
    other.next();
    walk.next();
    other.next();
    let (all, others) = (
        remaining(root.preorder_with_tokens()),
        remaining(other_root.preorder_with_tokens()),
    );
    let is_passed = walk.pass_alike(before, &mut other, other_before);
    let (rest, other_rest) = (remaining(walk), remaining(other));
    Ok((
        is_passed,
        all.saturating_sub(rest),
        all.saturating_sub(rest) == others.saturating_sub(other_rest),
    ))
}

#[test]
fn siblings_before_an_offset_are_passed(rt: HostRuntime) -> Result<(), Fail> {
    assert!(rt; passed_in_lists(&rt, 1, 20)? == (None, 2, true));
    assert!(rt; passed_in_lists(&rt, 2, 20)? == (Some(true), 4, true));
    assert!(rt; passed_in_lists(&rt, 11, 20)? == (Some(true), 32, true));
    assert!(rt; passed_in_lists(&rt, 11, 11)? == (Some(true), 32, true));
    assert!(rt; passed_in_lists(&rt, 11, 10)? == (Some(false), 2, true));
    assert!(rt; passed_in_lists(&rt, 13, 20)? == (Some(false), 2, true));
    Ok(())
}
