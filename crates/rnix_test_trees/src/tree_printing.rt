//! What is printed of nodes and tokens.

use crate::builder_steps::{Step, built};
use rnix_kinds::SyntaxKind;
use rnix_tree::{GreenNode, SyntaxNode, dump};
use std::alloc::{AllocError, Global};
use std::test::Fail;

// A ROOT over a string in quotes with the content `text`.
fn quoted(alloc: Global, text: &str) -> Result<GreenNode, AllocError> {
    let steps = [
        Step::Start(SyntaxKind::NODE_ROOT),
        Step::Start(SyntaxKind::NODE_STRING),
        Step::Leaf(SyntaxKind::TOKEN_STRING_START, "\""),
        Step::Leaf(SyntaxKind::TOKEN_STRING_CONTENT, text),
        Step::Leaf(SyntaxKind::TOKEN_STRING_END, "\""),
        Step::Finish,
        Step::Finish,
    ];
    built(alloc, &steps)
}

// What is printed of a node, without its descendants and with them.
fn shown(alloc: Global, node: &SyntaxNode<'_>) -> Result<String, AllocError> {
    format!(in alloc; "{node:?}\n{node:#?}")
}

#[test]
fn a_tree_is_printed_line_by_line(rt: HostRuntime) -> Result<(), Fail> {
    let tree = quoted(rt.alloc(), "a\n")?;
    let lines = "\
NODE_ROOT@0..4
NODE_ROOT@0..4
  NODE_STRING@0..4
    TOKEN_STRING_START@0..1 \"\\\"\"
    TOKEN_STRING_CONTENT@1..3 \"a\\n\"
    TOKEN_STRING_END@3..4 \"\\\"\"
";
    assert_eq!(rt;
        shown(rt.alloc(), &SyntaxNode::new_root(&tree))?.as_str(),
        lines
    );
    Ok(())
}

// What is printed of the second token of a string in quotes.
fn second_shown(alloc: Global, text: &str) -> Result<String, AllocError> {
    let tree = quoted(alloc, text)?;
    let first = SyntaxNode::new_root(&tree).first_token();
    match first.and_then(|first| first.next_token()) {
        Some(second) => format!(in alloc; "{second:?}"),
        None => Ok(String::new(alloc)),
    }
}

#[test]
fn a_long_text_is_cut(rt: HostRuntime) -> Result<(), Fail> {
    let cases = [
        (
            "abcdefghijklmnopqrstuvwx",
            "TOKEN_STRING_CONTENT@1..25 \"abcdefghijklmnopqrstuvwx\"",
        ),
        (
            "abcdefghijklmnopqrstuvwxy",
            "TOKEN_STRING_CONTENT@1..26 \"abcdefghijklmnopqrstu ...\"",
        ),
        (
            "abcdefghijklmnopqrst\u{e9}vwxy",
            "TOKEN_STRING_CONTENT@1..27 \"abcdefghijklmnopqrst\u{e9} ...\"",
        ),
    ];
    for (text, wanted) in cases {
        assert_eq!(rt; second_shown(rt.alloc(), text)?.as_str(), wanted);
    }
    Ok(())
}

// What is printed of the last node below a root, and then of the root.
fn dumped(alloc: Global, root: &SyntaxNode<'_>) -> Result<Vec<u8>, Fail> {
    let mut out = Vec::new(alloc);
    if let Some(last) = root.last_child() {
        dump(&last, &mut out)?;
    }
    dump(root, &mut out)?;
    Ok(out)
}

#[test]
fn a_dump_has_a_line_for_each_element(rt: HostRuntime) -> Result<(), Fail> {
    let steps = [
        Step::Start(SyntaxKind::NODE_ROOT),
        Step::Leaf(SyntaxKind::TOKEN_WHITESPACE, "  "),
        Step::Start(SyntaxKind::NODE_LITERAL),
        Step::Leaf(SyntaxKind::TOKEN_INTEGER, "12"),
        Step::Finish,
        Step::Finish,
    ];
    let lines = "\
NODE_LITERAL@2..4
  TOKEN_INTEGER@2..4
NODE_ROOT@0..4
  TOKEN_WHITESPACE@0..2
  NODE_LITERAL@2..4
    TOKEN_INTEGER@2..4
";
    let tree = built(rt.alloc(), &steps)?;
    let found = dumped(rt.alloc(), &SyntaxNode::new_root(&tree))?;
    assert!(rt; found.as_slice() == lines.as_bytes());
    Ok(())
}
