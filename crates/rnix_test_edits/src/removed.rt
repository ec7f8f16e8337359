//! Texts from which a node is removed.

use crate::found::{node_of, shown};
use rnix::{Root, SyntaxKind};
use rnix_edit::remove;
use std::alloc::{AllocError, Global};
use std::test::Fail;

// Returns the text without the first node of a kind with a text.
fn removed(alloc: Global, text: &str, kind: SyntaxKind, own: &str) -> Result<String, AllocError> {
    let read = Root::parse(alloc, text)?;
    let root = read.syntax();
    match node_of(&root, kind, own) {
        Some(node) => shown(alloc, remove(alloc, text, &root, &node)?),
        None => String::from_str(alloc, "no node"),
    }
}

#[test]
fn an_entry_is_removed_with_its_line(rt: HostRuntime) -> Result<(), Fail> {
    let cases = [
        ("{\n  a = 1;\n  b = 2;\n}\n", "{\n  a = 1;\n}\n"),
        ("{\n  b = 2;\n  a = 1;\n}\n", "{\n  a = 1;\n}\n"),
        (
            "{\r\n  a = 1;\r\n  b = 2;\r\n}\r\n",
            "{\r\n  a = 1;\r\n}\r\n",
        ),
        ("{\n\tb = 2;\n}", "{\n}"),
        // Comments after it are removed, those on other lines stay.
        ("{\n  # a\n  b = 2; # b\n  # c\n}", "{\n  # a\n  # c\n}"),
        ("{\r\n  b = 2; # b\r\n  # c\r\n}", "{\r\n  # c\r\n}"),
        ("{\n  b = 2; /* b */ # c\n}", "{\n}"),
        ("let\n  b = 2;\nin b", "let\nin b"),
        // A comment that continues stays.
        ("{\n  b = 2; /* c\n  d */\n}", "{\n  /* c\n  d */\n}"),
    ];
    for (text, wanted) in cases {
        let made = removed(rt.alloc(), text, SyntaxKind::NODE_ATTRPATH_VALUE, "b = 2;")?;
        assert_eq!(rt; made.as_str(), wanted);
    }
    Ok(())
}

#[test]
fn an_entry_is_removed_from_its_line(rt: HostRuntime) -> Result<(), Fail> {
    let cases = [
        ("{ a = 1; b = 2; }", "{ a = 1; }"),
        ("{ b = 2; a = 1; }", "{ a = 1; }"),
        ("{ b = 2; }", "{ }"),
        ("{b = 2;}", "{}"),
        ("{b = 2; a = 1;}", "{a = 1;}"),
        ("{a = 1; b = 2;}", "{a = 1;}"),
        (
            "{ a = 1; /* b */ b = 2; /* c */ }",
            "{ a = 1; /* b */ /* c */ }",
        ),
        ("{ a = 1; b = 2; # b\n}", "{ a = 1;\n}"),
        ("{ b = 2; a = 1; # a\n}", "{ a = 1; # a\n}"),
        ("{ # a\n  b = 2; }", "{ # a\n  }"),
    ];
    for (text, wanted) in cases {
        let made = removed(rt.alloc(), text, SyntaxKind::NODE_ATTRPATH_VALUE, "b = 2;")?;
        assert_eq!(rt; made.as_str(), wanted);
    }
    Ok(())
}

#[test]
fn an_item_is_removed(rt: HostRuntime) -> Result<(), Fail> {
    let cases = [
        ("[ a b ]", "[ a ]"),
        ("[ b a ]", "[ a ]"),
        ("[ a b c ]", "[ a c ]"),
        ("[b]", "[]"),
        ("[\n  a\n  b # b\n]", "[\n  a\n]"),
        ("[\n  a b\n  c\n]", "[\n  a\n  c\n]"),
        // An operand is no item.
        ("f b", "read otherwise"),
        ("b", "errors"),
        ("[ b", "errors"),
    ];
    for (text, wanted) in cases {
        let made = removed(rt.alloc(), text, SyntaxKind::NODE_IDENT, "b")?;
        assert_eq!(rt; made.as_str(), wanted);
    }
    let made = removed(rt.alloc(), "[ a(b)c ]", SyntaxKind::NODE_PAREN, "(b)")?;
    assert_eq!(rt; made.as_str(), "read otherwise");
    Ok(())
}
