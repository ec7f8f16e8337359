//! Trees that were built by hand, with empty nodes and empty leaves.

use crate::builder_steps::{Step, built};
use crate::expected::is_token;
use rnix_kinds::SyntaxKind;
use rnix_tree::{GreenNode, GreenNodeBuilder, SyntaxNode};
use std::alloc::{AllocError, Global};
use std::test::Fail;

// A ROOT over an empty LIST, the name `a`, an empty LIST and the name `b`.
const LISTS: [Step<'static>; 8] = [
    Step::Start(SyntaxKind::NODE_ROOT),
    Step::Start(SyntaxKind::NODE_LIST),
    Step::Finish,
    Step::Leaf(SyntaxKind::TOKEN_IDENT, "a"),
    Step::Start(SyntaxKind::NODE_LIST),
    Step::Finish,
    Step::Leaf(SyntaxKind::TOKEN_IDENT, "b"),
    Step::Finish,
];

// Whether the tokens beside the empty lists are found, and none in them.
fn are_past_lists(root: &SyntaxNode<'_>) -> Option<bool> {
    let (first, last) = (root.first_child()?, root.last_child()?);
    let a = root.first_token()?;
    Some(
        a.text() == "a"
            && is_token(a.next_token(), "b")
            && a.prev_token().is_none()
            && first.first_token().is_none()
            && last.last_token().is_none(),
    )
}

#[test]
fn tokens_are_found_past_empty_nodes(rt: HostRuntime) -> Result<(), Fail> {
    let tree = built(rt.alloc(), &LISTS)?;
    assert!(rt; are_past_lists(&SyntaxNode::new_root(&tree)) == Some(true));
    Ok(())
}

// The numbers of children of a kind: of lists and roots among the nodes, and of names among nodes and tokens.
fn count_by_kind(root: &SyntaxNode<'_>) -> [usize; 3] {
    let names = root.children_with_tokens();
    [
        root.children().by_kind(SyntaxKind::NODE_LIST).count(),
        root.children().by_kind(SyntaxKind::NODE_ROOT).count(),
        names.by_kind(SyntaxKind::TOKEN_IDENT).count(),
    ]
}

#[test]
fn children_are_narrowed_to_a_kind(rt: HostRuntime) -> Result<(), Fail> {
    let tree = built(rt.alloc(), &LISTS)?;
    assert!(rt; count_by_kind(&SyntaxNode::new_root(&tree)) == [2, 0, 2]);
    Ok(())
}

// A ROOT over an empty leaf, `a` and an empty leaf.
const LEAVES: [Step<'static>; 5] = [
    Step::Start(SyntaxKind::NODE_ROOT),
    Step::Leaf(SyntaxKind::TOKEN_ERROR, ""),
    Step::Leaf(SyntaxKind::TOKEN_IDENT, "a"),
    Step::Leaf(SyntaxKind::TOKEN_ERROR, ""),
    Step::Finish,
];

// Whether the first token is empty, and `a` alone is at both offsets.
fn are_left_out(root: &SyntaxNode<'_>) -> bool {
    is_token(root.first_token(), "")
        && root.token_at_offset(0).count() == 1
        && is_token(root.token_at_offset(0).left_biased(), "a")
        && root.token_at_offset(1).count() == 1
        && is_token(root.token_at_offset(1).right_biased(), "a")
}

#[test]
fn empty_leaves_stand_at_no_offset(rt: HostRuntime) -> Result<(), Fail> {
    let tree = built(rt.alloc(), &LEAVES)?;
    assert!(rt; are_left_out(&SyntaxNode::new_root(&tree)));
    Ok(())
}

// Whether checkpoints outside and inside a list are valid: the outer one while the list is open, and both once it is closed.
fn valid_checkpoints(alloc: Global) -> Result<[bool; 3], AllocError> {
    let mut builder = GreenNodeBuilder::new(alloc);
    let outside = builder.checkpoint();
    builder.token(SyntaxKind::TOKEN_IDENT, "a")?;
    builder.start_node(SyntaxKind::NODE_LIST)?;
    builder.token(SyntaxKind::TOKEN_IDENT, "b")?;
    builder.token(SyntaxKind::TOKEN_IDENT, "c")?;
    let inside = builder.checkpoint();
    let open = builder.is_valid_checkpoint(outside);
    builder.finish_node()?;
    Ok([
        open,
        builder.is_valid_checkpoint(outside),
        builder.is_valid_checkpoint(inside),
    ])
}

#[test]
fn checkpoints_are_valid_where_no_node_stands_around_them(rt: HostRuntime) -> Result<(), Fail> {
    assert!(rt; valid_checkpoints(rt.alloc())? == [false, true, false]);
    Ok(())
}

// `levels` lists, each in the one before it.
fn deep_lists(alloc: Global, levels: u32) -> Result<GreenNode, AllocError> {
    let mut builder = GreenNodeBuilder::new(alloc);
    for _level in 0..levels {
        builder.start_node(SyntaxKind::NODE_LIST)?;
    }
    closed(builder, levels)
}

// The tree of a builder after `levels` nodes are closed. If more are open, there is none.
fn closed(mut builder: GreenNodeBuilder, levels: u32) -> Result<GreenNode, AllocError> {
    for _level in 0..levels {
        if builder.open_nodes() > 0 {
            builder.finish_node()?;
        }
    }
    if builder.is_complete() {
        return builder.finish();
    }
    Err(AllocError)
}

// Whether the trees are equal, and a walk over one has `steps` steps.
fn are_walked(tree: &GreenNode, copy: &GreenNode, steps: usize) -> bool {
    let root = SyntaxNode::new_root(tree);
    root.preorder().count() == steps && SyntaxNode::new_root(copy) == root
}

#[test]
fn deep_lists_are_walked(rt: HostRuntime) -> Result<(), Fail> {
    let tree = deep_lists(rt.alloc(), 100_000)?;
    let copy = tree.try_clone()?;
    assert!(rt; are_walked(&tree, &copy, 200_000));
    Ok(())
}

// A ROOT over an IDENT with the name `a`, by single calls.
const SINGLE_CALLS: [Step<'static>; 5] = [
    Step::Start(SyntaxKind::NODE_ROOT),
    Step::Start(SyntaxKind::NODE_IDENT),
    Step::Leaf(SyntaxKind::TOKEN_IDENT, "a"),
    Step::Finish,
    Step::Finish,
];

// The same tree, with one call for the IDENT.
const AT_ONCE: [Step<'static>; 3] = [
    Step::Start(SyntaxKind::NODE_ROOT),
    Step::LeafNode(SyntaxKind::NODE_IDENT, SyntaxKind::TOKEN_IDENT, "a"),
    Step::Finish,
];

// Whether the steps make equal trees.
fn make_the_same(alloc: Global, a: &[Step<'_>], b: &[Step<'_>]) -> Result<bool, AllocError> {
    let (a, b) = (built(alloc, a)?, built(alloc, b)?);
    Ok(SyntaxNode::new_root(&a) == SyntaxNode::new_root(&b))
}

#[test]
fn a_node_over_one_leaf_is_made_at_once(rt: HostRuntime) -> Result<(), Fail> {
    assert!(rt; make_the_same(rt.alloc(), &AT_ONCE, &SINGLE_CALLS)?);
    Ok(())
}

// Whether too many elements are refused, and too many bytes, and how many nodes are open after that.
fn refused_rooms(alloc: Global) -> Result<(bool, bool, usize), AllocError> {
    let mut builder = GreenNodeBuilder::new(alloc);
    builder.start_node(SyntaxKind::NODE_ROOT)?;
    let elements = builder.reserve(usize::MAX, 0).is_err();
    let bytes = builder.reserve(0, usize::MAX).is_err();
    builder.reserve(2, 1)?;
    Ok((elements, bytes, builder.open_nodes()))
}

#[test]
fn too_much_room_is_refused_and_changes_nothing(rt: HostRuntime) -> Result<(), Fail> {
    assert!(rt; refused_rooms(rt.alloc())? == (true, true, 1));
    Ok(())
}
