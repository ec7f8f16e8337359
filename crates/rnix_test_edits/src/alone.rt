//! New nodes, compared with the nodes that their texts give when parsed alone.

use crate::found::{node_of, shown};
use rnix::{Root, SyntaxElement, SyntaxKind, SyntaxNode};
use rnix_edit::{insert_after, replace};
use std::alloc::{AllocError, Global};
use std::test::Fail;

// Returns whether two elements have the same kind and length.
fn is_alike(element: &SyntaxElement<'_>, other: &SyntaxElement<'_>) -> bool {
    element.kind() == other.kind() && element.text_range().len() == other.text_range().len()
}

// Returns whether two nodes have the same text, and inside them elements that are pairwise alike.
fn are_alike(node: &SyntaxNode<'_>, other: &SyntaxNode<'_>) -> bool {
    let mut others = other.descendants_with_tokens();
    for element in node.descendants_with_tokens() {
        match others.next() {
            Some(other) if is_alike(&element, &other) => {}
            _ => return false,
        }
    }
    others.next().is_none() && node.text() == other.text()
}

// Returns whether two texts each have a node with the text `new`, and these nodes are alike.
fn have_node(
    alloc: Global,
    text: &str,
    other: &str,
    kind: SyntaxKind,
    new: &str,
) -> Result<bool, AllocError> {
    let read = Root::parse(alloc, text)?;
    let alone = Root::parse(alloc, other)?;
    let found = node_of(&read.syntax(), kind, new);
    match (found, node_of(&alone.syntax(), kind, new)) {
        (Some(node), Some(own)) => Ok(are_alike(&node, &own)),
        _ => Ok(false),
    }
}

// Returns the text in which the name `x` has another text.
fn replaced(alloc: Global, text: &str, kind: SyntaxKind, new: &str) -> Result<String, AllocError> {
    let read = Root::parse(alloc, text)?;
    let root = read.syntax();
    match node_of(&root, SyntaxKind::NODE_IDENT, "x") {
        Some(node) => shown(alloc, replace(alloc, text, &root, &node, kind, new)?),
        None => String::from_str(alloc, "no node"),
    }
}

// Returns the text with a new entry after `x = 1;`.
fn inserted(alloc: Global, text: &str, kind: SyntaxKind, new: &str) -> Result<String, AllocError> {
    let read = Root::parse(alloc, text)?;
    let root = read.syntax();
    match node_of(&root, SyntaxKind::NODE_ATTRPATH_VALUE, "x = 1;") {
        Some(node) => shown(alloc, insert_after(alloc, text, &root, &node, kind, new)?),
        None => String::from_str(alloc, "no node"),
    }
}

#[test]
fn a_new_expression_is_the_one_that_its_text_is_alone(rt: HostRuntime) -> Result<(), Fail> {
    let cases = [
        ("[ x ]", SyntaxKind::NODE_SELECT, "a.b or c"),
        ("[ x ]", SyntaxKind::NODE_APPLY, "f or"),
        ("[ x ]", SyntaxKind::NODE_LAMBDA, "a: b"),
        ("[ x ]", SyntaxKind::NODE_LITERAL, "a:b"),
        ("[ x ]", SyntaxKind::NODE_PAREN, "( /* c */ f\n  y # d\n)"),
        ("[ x ]", SyntaxKind::NODE_PATH_REL, "./a/${b}c"),
        ("f x y", SyntaxKind::NODE_ATTR_SET, "rec { ${} = 1; }"),
        ("x.z", SyntaxKind::NODE_STRING, "\"a${b}$${c}\""),
        ("x * 2", SyntaxKind::NODE_UNARY_OP, "-1"),
        ("x + a", SyntaxKind::NODE_BIN_OP, "1  * 2"),
        ("a: x", SyntaxKind::NODE_WITH, "with a;  b c"),
        ("\"${x}\"", SyntaxKind::NODE_IF_ELSE, "if a then b else c"),
        ("''\n  ${x}\n''", SyntaxKind::NODE_STRING, "''\n  a\n''"),
        ("./a/${x}", SyntaxKind::NODE_CUR_POS, "__curPos"),
        ("{ x = 1; }", SyntaxKind::NODE_STRING, "\"a\""),
        ("x: 1", SyntaxKind::NODE_IDENT, "y"),
    ];
    for (text, kind, new) in cases {
        let made = replaced(rt.alloc(), text, kind, new)?;
        assert!(rt; have_node(rt.alloc(), made.as_str(), new, kind, new)?);
    }
    Ok(())
}

#[test]
fn a_new_entry_is_the_one_that_its_text_is_in_braces(rt: HostRuntime) -> Result<(), Fail> {
    let cases = [
        ("{ x = 1; }", "y.or = [ 1 2 ];", "{y.or = [ 1 2 ];}"),
        ("let x = 1; in x", "\"a\"  = { };", "{\"a\"  = { };}"),
        ("let { x = 1; }", "${a} = /* c */ 1;", "{${a} = /* c */ 1;}"),
    ];
    let kind = SyntaxKind::NODE_ATTRPATH_VALUE;
    for (text, new, alone) in cases {
        let made = inserted(rt.alloc(), text, kind, new)?;
        assert!(rt; have_node(rt.alloc(), made.as_str(), alone, kind, new)?);
    }
    let (kind, new) = (SyntaxKind::NODE_INHERIT, "inherit (a) or;");
    let made = inserted(rt.alloc(), "{ x = 1; }", kind, new)?;
    assert!(rt; have_node(rt.alloc(), made.as_str(), "{inherit (a) or;}", kind, new)?);
    Ok(())
}

#[test]
fn what_is_no_expression_and_no_entry_is_put_in(rt: HostRuntime) -> Result<(), Fail> {
    let cases = [
        // Names that are no expressions.
        ("{ x = 1; }", SyntaxKind::NODE_IDENT, "or", "{ or = 1; }"),
        ("a.x", SyntaxKind::NODE_IDENT, "__curPos", "a.__curPos"),
        ("f x", SyntaxKind::NODE_IDENT, "or", "f or"),
        (
            "{ x = 1; }",
            SyntaxKind::NODE_DYNAMIC,
            "${a}",
            "{ ${a} = 1; }",
        ),
    ];
    for (text, kind, new, wanted) in cases {
        let made = replaced(rt.alloc(), text, kind, new)?;
        assert_eq!(rt; made.as_str(), wanted);
    }
    Ok(())
}

#[test]
fn a_new_text_has_no_comments_around_it(rt: HostRuntime) -> Result<(), Fail> {
    for new in ["/* c */ y", "y /* c */", " y", "y ", "y # c"] {
        let made = replaced(rt.alloc(), "[ x ]\n", SyntaxKind::NODE_IDENT, new)?;
        assert!(rt; made.as_str() == "read otherwise" || made.as_str() == "errors");
    }
    let made = replaced(rt.alloc(), "[ x ]", SyntaxKind::NODE_PAREN, "(y # c\n)")?;
    assert_eq!(rt; made.as_str(), "[ (y # c\n) ]");
    Ok(())
}
