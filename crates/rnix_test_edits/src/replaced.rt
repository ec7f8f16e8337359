//! Texts in which a node is replaced.

use crate::found::{node_of, shown};
use rnix::{Root, SyntaxKind};
use rnix_edit::replace;
use std::alloc::{AllocError, Global};
use std::test::Fail;

// Returns the text in which the first name with a text is replaced by a node of a kind.
fn replaced(
    alloc: Global,
    text: &str,
    name: &str,
    kind: SyntaxKind,
    new: &str,
) -> Result<String, AllocError> {
    let read = Root::parse(alloc, text)?;
    let root = read.syntax();
    match node_of(&root, SyntaxKind::NODE_IDENT, name) {
        Some(node) => shown(alloc, replace(alloc, text, &root, &node, kind, new)?),
        None => String::from_str(alloc, "no node"),
    }
}

#[test]
fn other_bytes_stay(rt: HostRuntime) -> Result<(), Fail> {
    let cases = [
        ("a: # b\r\n  x /* c */", "a: # b\r\n  \"y\" /* c */"),
        ("[ x ]", "[ \"y\" ]"),
        ("f x.z", "f \"y\".z"),
        ("x", "\"y\""),
    ];
    for (text, wanted) in cases {
        let made = replaced(rt.alloc(), text, "x", SyntaxKind::NODE_STRING, "\"y\"")?;
        assert_eq!(rt; made.as_str(), wanted);
    }
    Ok(())
}

#[test]
fn what_would_be_read_otherwise_is_refused(rt: HostRuntime) -> Result<(), Fail> {
    let cases = [
        // Two items in place of one, and another operator outside.
        ("[ x ]", SyntaxKind::NODE_APPLY, "f y", "read otherwise"),
        ("x * 2", SyntaxKind::NODE_BIN_OP, "1 + 1", "read otherwise"),
        ("1 + x", SyntaxKind::NODE_BIN_OP, "1 + 1", "read otherwise"),
        // One token with what precedes it, and with what follows.
        ("[ 1x ]", SyntaxKind::NODE_LITERAL, "2", "read otherwise"),
        ("[ x.y ]", SyntaxKind::NODE_LITERAL, "1", "read otherwise"),
        ("[ x \"a\" ]", SyntaxKind::NODE_STRING, "\"", "errors"),
        // A comment that takes what follows.
        ("x + 1", SyntaxKind::NODE_IDENT, "x #", "read otherwise"),
        ("[ x\n]", SyntaxKind::NODE_IDENT, "x #", "read otherwise"),
        // Nothing, too much, another kind.
        ("f x", SyntaxKind::NODE_IDENT, "", "read otherwise"),
        ("(x)", SyntaxKind::NODE_IDENT, "y) (z", "read otherwise"),
        ("x", SyntaxKind::NODE_STRING, "y", "read otherwise"),
        ("x +", SyntaxKind::NODE_IDENT, "y", "errors"),
    ];
    for (text, kind, new, wanted) in cases {
        let made = replaced(rt.alloc(), text, "x", kind, new)?;
        assert_eq!(rt; made.as_str(), wanted);
    }
    Ok(())
}

#[test]
fn brackets_keep_an_operand_together(rt: HostRuntime) -> Result<(), Fail> {
    let cases = [
        ("[ x ]", "(f y)", "[ (f y) ]"),
        ("x * 2", "(1 + 1)", "(1 + 1) * 2"),
    ];
    for (text, new, wanted) in cases {
        let made = replaced(rt.alloc(), text, "x", SyntaxKind::NODE_PAREN, new)?;
        assert_eq!(rt; made.as_str(), wanted);
    }
    Ok(())
}
