//! Texts into which a node is inserted.

use crate::found::{node_of, shown};
use rnix::{Root, SyntaxKind};
use rnix_edit::{insert_after, insert_inside};
use std::alloc::{AllocError, Global};
use std::test::Fail;

// Returns the text with a new node of a kind after the first one of this kind with a text.
fn inserted(
    alloc: Global,
    text: &str,
    kind: SyntaxKind,
    own: &str,
    new: &str,
) -> Result<String, AllocError> {
    let read = Root::parse(alloc, text)?;
    let root = read.syntax();
    match node_of(&root, kind, own) {
        Some(node) => shown(alloc, insert_after(alloc, text, &root, &node, kind, new)?),
        None => String::from_str(alloc, "no node"),
    }
}

// Returns the text with a new entry in the first set.
fn inserted_in_set(alloc: Global, text: &str, new: &str) -> Result<String, AllocError> {
    let read = Root::parse(alloc, text)?;
    let root = read.syntax();
    let entry = SyntaxKind::NODE_ATTRPATH_VALUE;
    for node in root.descendants() {
        if node.kind() == SyntaxKind::NODE_ATTR_SET {
            return shown(alloc, insert_inside(alloc, text, &root, &node, entry, new)?);
        }
    }
    String::from_str(alloc, "no node")
}

#[test]
fn an_entry_follows_another(rt: HostRuntime) -> Result<(), Fail> {
    let cases = [
        ("{\n  a = 1;\n}\n", "{\n  a = 1;\n  b = 2;\n}\n"),
        (
            "{\r\n\ta = 1; # a\r\n}",
            "{\r\n\ta = 1; # a\r\n\tb = 2;\r\n}",
        ),
        (
            "{\n  a = 1; # a\n  # c\n}",
            "{\n  a = 1; # a\n  b = 2;\n  # c\n}",
        ),
        ("{ a = 1; }", "{ a = 1; b = 2; }"),
        ("{a = 1;}", "{a = 1; b = 2;}"),
        (
            "{ a = 1; /* c */ d = 3; }",
            "{ a = 1; b = 2; /* c */ d = 3; }",
        ),
        ("let\n  a = 1;\nin a", "let\n  a = 1;\n  b = 2;\nin a"),
    ];
    let kind = SyntaxKind::NODE_ATTRPATH_VALUE;
    for (text, wanted) in cases {
        let made = inserted(rt.alloc(), text, kind, "a = 1;", "b = 2;")?;
        assert_eq!(rt; made.as_str(), wanted);
    }
    let made = inserted(rt.alloc(), "{ a = 1; }", kind, "a = 1;", "b = 2; c = 3;")?;
    assert_eq!(rt; made.as_str(), "read otherwise");
    let made = inserted(rt.alloc(), "{ a = 1; }", kind, "a = 1;", "b = 2")?;
    assert_eq!(rt; made.as_str(), "errors");
    let made = inserted(rt.alloc(), "{ a = 1; }", kind, "a = 1;", "b = 2; #")?;
    assert_eq!(rt; made.as_str(), "errors");
    Ok(())
}

#[test]
fn an_item_follows_another(rt: HostRuntime) -> Result<(), Fail> {
    let cases = [
        ("[ a ]", "[ a b ]"),
        ("[a]", "[a b]"),
        ("[ a c ]", "[ a b c ]"),
        ("[\n  a # a\n]", "[\n  a # a\n  b\n]"),
        ("a", "read otherwise"),
    ];
    for (text, wanted) in cases {
        let made = inserted(rt.alloc(), text, SyntaxKind::NODE_IDENT, "a", "b")?;
        assert_eq!(rt; made.as_str(), wanted);
    }
    Ok(())
}

#[test]
fn an_entry_goes_into_a_set(rt: HostRuntime) -> Result<(), Fail> {
    let cases = [
        ("{}", "{ b = 2; }"),
        ("{ }", "{ b = 2; }"),
        ("rec {  }", "rec { b = 2; }"),
        ("  {\n  }\n", "  {\n    b = 2;\n  }\n"),
        ("{\r\n}", "{\r\n  b = 2;\r\n}"),
        ("{\n\n}", "{\n\n  b = 2;\n}"),
        ("{ /* c */ }", "{ /* c */ b = 2; }"),
        ("{ # c\n}", "{ # c\n  b = 2;\n}"),
        ("{ # c\n a = 1; }", "{ # c\n a = 1; b = 2; }"),
        ("{ a = 1; }", "{ a = 1; b = 2; }"),
    ];
    for (text, wanted) in cases {
        let made = inserted_in_set(rt.alloc(), text, "b = 2;")?;
        assert_eq!(rt; made.as_str(), wanted);
    }
    Ok(())
}
