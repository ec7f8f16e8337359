//! A tree that is built call by call. A call that is refused memory is made again.

use crate::again::{read_again, report_refusal};
use rnix::{Checkpoint, GreenNode, GreenNodeBuilder, SyntaxKind, SyntaxNode};
use std::alloc::{AllocError, Global};
use std::process::Abort;

// A call of a builder.
#[derive(Drop)]
enum Call<'a> {
    Open(SyntaxKind),
    OpenAt(Checkpoint, SyntaxKind),
    Leaf(SyntaxKind, &'a str),
    Close,
}

// Makes a call.
fn make(
    rt: &impl Abort,
    builder: &mut GreenNodeBuilder,
    call: &Call<'_>,
) -> Result<(), AllocError> {
    match call {
        Call::Open(kind) => builder.start_node(*kind),
        Call::OpenAt(start, kind) if builder.is_valid_checkpoint(*start) => {
            builder.start_node_at(*start, *kind)
        }
        Call::Leaf(kind, text) => builder.token(*kind, text),
        Call::Close if builder.open_nodes() > 0 => builder.finish_node(),
        _ => {
            assert!(rt; false);
            Ok(())
        }
    }
}

// Makes calls, each a second time if memory was refused.
fn make_again(
    rt: &impl Abort,
    builder: &mut GreenNodeBuilder,
    calls: &[Call<'_>],
    refused: &mut bool,
) {
    for call in calls {
        if make(rt, builder, call).is_err() {
            *refused = true;
            assert!(rt; make(rt, builder, call).is_ok());
        }
    }
}

// Adds a name.
fn add_name(rt: &impl Abort, builder: &mut GreenNodeBuilder, text: &str, refused: &mut bool) {
    let calls = [
        Call::Open(SyntaxKind::NODE_IDENT),
        Call::Leaf(SyntaxKind::TOKEN_IDENT, text),
        Call::Close,
    ];
    make_again(rt, builder, &calls, refused);
}

// Adds `++` between spaces.
fn add_operator(rt: &impl Abort, builder: &mut GreenNodeBuilder, refused: &mut bool) {
    let calls = [
        Call::Leaf(SyntaxKind::TOKEN_WHITESPACE, " "),
        Call::Leaf(SyntaxKind::TOKEN_CONCAT, "++"),
        Call::Leaf(SyntaxKind::TOKEN_WHITESPACE, " "),
    ];
    make_again(rt, builder, &calls, refused);
}

// The tree of `a ++ b ++ c`.
fn build(rt: &impl Abort, alloc: Global, refused: &mut bool) -> Result<GreenNode, AllocError> {
    let mut builder = GreenNodeBuilder::new(alloc);
    make_again(
        rt,
        &mut builder,
        &[Call::Open(SyntaxKind::NODE_ROOT)],
        refused,
    );
    let outer = builder.checkpoint();
    add_name(rt, &mut builder, "a", refused);
    add_operator(rt, &mut builder, refused);
    let inner = builder.checkpoint();
    add_name(rt, &mut builder, "b", refused);
    add_operator(rt, &mut builder, refused);
    add_name(rt, &mut builder, "c", refused);
    let calls = [
        Call::OpenAt(inner, SyntaxKind::NODE_BIN_OP),
        Call::Close,
        Call::OpenAt(outer, SyntaxKind::NODE_BIN_OP),
        Call::Close,
        Call::Close,
    ];
    make_again(rt, &mut builder, &calls, refused);
    assert!(rt; builder.is_complete());
    builder.finish()
}

// The tree of `a ++ b ++ c`. If `finish` is refused memory, all calls are made again on a new builder.
fn build_again(
    rt: &impl Abort,
    alloc: Global,
    refused: &mut bool,
) -> Result<GreenNode, AllocError> {
    let first = build(rt, alloc, refused);
    if first.is_ok() {
        return first;
    }
    assert!(rt; !*refused);
    *refused = true;
    let second = build(rt, alloc, refused);
    assert!(rt; second.is_ok());
    second
}

#[test]
fn a_tree_is_built_again(rt: HostRuntime) -> Result<(), AllocError> {
    let mut refused = false;
    let tree = build_again(&rt, rt.alloc(), &mut refused)?;
    let read = read_again(&rt, rt.alloc(), "a ++ b ++ c", &mut refused)?;
    assert!(rt; SyntaxNode::new_root(&tree) == read.syntax());
    report_refusal(refused)
}
