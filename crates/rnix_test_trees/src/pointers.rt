//! Pointers to nodes.

use crate::builder_steps::{Step, built};
use rnix_kinds::SyntaxKind;
use rnix_tree::{GreenNode, SyntaxNode, SyntaxNodePtr, TextRange};
use std::alloc::{AllocError, Global};
use std::collections::HashMap;
use std::test::Fail;

// A ROOT over two lists: one of a name, and one that is empty.
fn lists(alloc: Global, name: &str) -> Result<GreenNode, AllocError> {
    let steps = [
        Step::Start(SyntaxKind::NODE_ROOT),
        Step::Start(SyntaxKind::NODE_LIST),
        Step::Leaf(SyntaxKind::TOKEN_IDENT, name),
        Step::Finish,
        Step::Start(SyntaxKind::NODE_LIST),
        Step::Finish,
        Step::Finish,
    ];
    built(alloc, &steps)
}

// A pointer to the last node below the root.
fn to_last(root: &SyntaxNode<'_>) -> Option<SyntaxNodePtr> {
    Some(SyntaxNodePtr::new(&root.last_child()?))
}

// The index in preorder of each node of a tree, by its pointer.
fn numbers(
    alloc: Global,
    root: &SyntaxNode<'_>,
) -> Result<HashMap<SyntaxNodePtr, usize>, AllocError> {
    let mut numbers = HashMap::new(alloc);
    for (number, node) in root.descendants().enumerate() {
        numbers.insert(SyntaxNodePtr::new(&node), number)?;
    }
    Ok(numbers)
}

// The index of the last list, found by its pointer, if the pointers to the three nodes differ.
fn last_number(alloc: Global, root: &SyntaxNode<'_>) -> Result<Option<usize>, AllocError> {
    let numbers = numbers(alloc, root)?;
    Ok(match to_last(root) {
        Some(last) if numbers.len() == 3 => numbers.get(&last).copied(),
        _ => None,
    })
}

#[test]
fn pointers_are_keys(rt: HostRuntime) -> Result<(), Fail> {
    let tree = lists(rt.alloc(), "a")?;
    assert!(rt; last_number(rt.alloc(), &SyntaxNode::new_root(&tree))? == Some(2));
    Ok(())
}

// A pointer to the last list of a tree that no longer exists.
fn outliving(alloc: Global) -> Result<Option<SyntaxNodePtr>, AllocError> {
    let tree = lists(alloc, "a")?;
    Ok(to_last(&SyntaxNode::new_root(&tree)))
}

// Whether a pointer to the last list of a tree finds that list in an equal tree, and none in another one.
fn finds(pointer: SyntaxNodePtr, same: &SyntaxNode<'_>, other: &SyntaxNode<'_>) -> bool {
    pointer.kind() == SyntaxKind::NODE_LIST
        && pointer.text_range() == TextRange::empty(1)
        && pointer.try_to_node(same) == same.last_child()
        && pointer.try_to_node(other).is_none()
}

#[test]
fn pointers_outlive_their_tree(rt: HostRuntime) -> Result<(), Fail> {
    let pointer = outliving(rt.alloc())?;
    let (same, other) = (lists(rt.alloc(), "a")?, lists(rt.alloc(), "ab")?);
    let (same, other) = (SyntaxNode::new_root(&same), SyntaxNode::new_root(&other));
    assert!(rt; pointer.is_some_and(|pointer| finds(pointer, &same, &other)));
    Ok(())
}
