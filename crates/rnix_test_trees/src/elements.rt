//! What the calls of an element return, and the elements that contain a range.

use crate::expected::{is_node, is_token};
use crate::parsed::Parsed;
use rnix_green::TextRange;
use rnix_kinds::SyntaxKind;
use rnix_tree::{SyntaxElement, SyntaxNode};
use std::test::Fail;

// Whether what is around the element is what is around the first `a` of `a b`.
fn stands_first(element: &SyntaxElement<'_>) -> bool {
    element.prev_sibling_or_token().is_none()
        && element.next_sibling_or_token().is_some()
        && is_token(element.first_token(), "a")
        && is_node(element.parent(), "a b")
        && element.ancestors().count() == 3
        && element.index() == 0
}

// Whether the element is a node and no token.
fn is_no_token(element: SyntaxElement<'_>) -> bool {
    element.as_node().is_some()
        && element.as_token().is_none()
        && element.clone().into_token().is_none()
        && element.into_node().is_some()
}

// What both checks return for the `a`.
fn agrees_with_node(root: &SyntaxNode<'_>) -> Option<(bool, bool)> {
    let element = SyntaxElement::from(root.first_child()?.first_child()?);
    Some((stands_first(&element), is_no_token(element)))
}

#[test]
fn an_element_returns_what_its_node_returns(rt: HostRuntime) -> Result<(), Fail> {
    let read = Parsed::new(rt.alloc(), "a b")?;
    assert!(rt; agrees_with_node(&read.syntax()) == Some((true, true)));
    Ok(())
}

// The kind of the element that covers the bytes.
fn covering_kind(root: &SyntaxNode<'_>, start: usize, end: usize) -> Option<SyntaxKind> {
    let range = TextRange::new(start.min(end), end);
    Some(root.covering_element(range)?.kind())
}

// The kinds of the elements that cover some bytes of `[1 23]`.
fn covering_kinds(root: &SyntaxNode<'_>) -> [Option<SyntaxKind>; 4] {
    [
        covering_kind(root, 4, 4),
        covering_kind(root, 3, 3),
        covering_kind(root, 2, 4),
        covering_kind(root, 3, 7),
    ]
}

#[test]
fn the_innermost_element_covers_a_range(rt: HostRuntime) -> Result<(), Fail> {
    let wanted = [
        Some(SyntaxKind::TOKEN_INTEGER),
        Some(SyntaxKind::NODE_LIST),
        Some(SyntaxKind::NODE_LIST),
        None,
    ];
    let read = Parsed::new(rt.alloc(), "[1 23]")?;
    assert!(rt; covering_kinds(&read.syntax()) == wanted);
    Ok(())
}
