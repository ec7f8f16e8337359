//! Walks over trees that were read, what is around their nodes, and tokens at an offset.

use crate::expected::{is_element, is_node, is_token};
use crate::parsed::Parsed;
use rnix_kinds::SyntaxKind;
use rnix_tree::{SyntaxNode, SyntaxToken};
use std::alloc::{AllocError, Global};
use std::test::Fail;

// A sum of a number and a product.
const SUM: &str = "1 + 2 * 3";

// The number of items of each iterator over a node.
fn counts(root: &SyntaxNode<'_>) -> [usize; 5] {
    [
        root.descendants().count(),
        root.descendants_with_tokens().count(),
        root.preorder().count(),
        root.preorder_with_tokens().count(),
        root.children().count(),
    ]
}

#[test]
fn descendants_and_walks_are_counted(rt: HostRuntime) -> Result<(), Fail> {
    let read = Parsed::new(rt.alloc(), SUM)?;
    assert!(rt; counts(&read.syntax()) == [6, 15, 12, 30, 1]);
    Ok(())
}

// Where a token starts, if there is one.
fn start_of(token: Option<SyntaxToken<'_>>) -> Option<usize> {
    Some(token?.text_range().start())
}

// How many tokens are at an offset, and where the left and the right one start.
type Starts = (usize, Option<usize>, Option<usize>);

// The tokens at an offset of a node.
fn starts_at(node: &SyntaxNode<'_>, offset: usize) -> Starts {
    (
        node.token_at_offset(offset).count(),
        start_of(node.token_at_offset(offset).left_biased()),
        start_of(node.token_at_offset(offset).right_biased()),
    )
}

// The tokens at an offset of a text.
fn starts_in(alloc: Global, text: &str, offset: usize) -> Result<Starts, AllocError> {
    let read = Parsed::new(alloc, text)?;
    Ok(starts_at(&read.syntax(), offset))
}

#[test]
fn tokens_stand_at_offsets(rt: HostRuntime) -> Result<(), Fail> {
    let cases = [
        (SUM, 2, (2, Some(1), Some(2))),
        (SUM, 9, (1, Some(8), Some(8))),
        ("a b", 0, (1, Some(0), Some(0))),
        ("a b", 1, (2, Some(0), Some(1))),
        ("a b", 3, (1, Some(2), Some(2))),
        ("a b", 4, (0, None, None)),
        ("", 0, (0, None, None)),
    ];
    for (text, offset, wanted) in cases {
        assert!(rt;
            starts_in(rt.alloc(), text, offset)? == wanted,
            "at {offset} of {text}"
        );
    }
    Ok(())
}

// Whether what is next to the `1` is found.
fn stands_beside_one(root: &SyntaxNode<'_>) -> Option<bool> {
    let one = root.first_child()?.first_child()?;
    Some(
        one.text() == "1"
            && is_node(one.next_sibling(), "2 * 3")
            && is_element(one.next_sibling_or_token(), SyntaxKind::TOKEN_WHITESPACE, 1)
            && one.prev_sibling().is_none()
            && one.prev_sibling_or_token().is_none(),
    )
}

// Whether what is next to the `3` is found.
fn stands_beside_three(root: &SyntaxNode<'_>) -> Option<bool> {
    let three = root.first_child()?.last_child()?.last_child()?;
    Some(
        three.text() == "3"
            && is_node(three.prev_sibling(), "2")
            && is_element(
                three.prev_sibling_or_token(),
                SyntaxKind::TOKEN_WHITESPACE,
                7,
            )
            && three.next_sibling().is_none()
            && three.next_sibling_or_token().is_none(),
    )
}

#[test]
fn siblings_of_literals(rt: HostRuntime) -> Result<(), Fail> {
    let read = Parsed::new(rt.alloc(), SUM)?;
    assert!(rt; stands_beside_one(&read.syntax()) == Some(true));
    assert!(rt; stands_beside_three(&read.syntax()) == Some(true));
    Ok(())
}

// Whether the children at both ends of the product are found, and at its start only the token that is inside it.
fn has_both_ends(root: &SyntaxNode<'_>) -> Option<bool> {
    let product = root.first_child()?.last_child()?;
    Some(
        is_node(product.first_child(), "2")
            && is_node(product.last_child(), "3")
            && is_element(product.first_child_or_token(), SyntaxKind::NODE_LITERAL, 4)
            && is_element(product.last_child_or_token(), SyntaxKind::NODE_LITERAL, 8)
            && starts_at(&product, 4) == (1, Some(4), Some(4)),
    )
}

// Whether the nodes around the `3` lead to the root.
fn leads_to_root(root: &SyntaxNode<'_>) -> Option<bool> {
    let three = root.first_child()?.last_child()?.last_child()?;
    Some(
        three.ancestors().count() == 4
            && three.ancestors().last()?.kind() == SyntaxKind::NODE_ROOT
            && is_node(three.parent(), "2 * 3")
            && root.parent().is_none(),
    )
}

#[test]
fn children_at_both_ends_and_ancestors(rt: HostRuntime) -> Result<(), Fail> {
    let read = Parsed::new(rt.alloc(), SUM)?;
    assert!(rt; has_both_ends(&read.syntax()) == Some(true));
    assert!(rt; leads_to_root(&read.syntax()) == Some(true));
    Ok(())
}

// Whether no token comes before the first one, and none after the last one.
fn has_no_token_beyond_its_ends(root: &SyntaxNode<'_>) -> Option<bool> {
    let (first, last) = (root.first_token()?, root.last_token()?);
    Some(
        first.text() == "1"
            && is_token(first.next_token(), " ")
            && first.prev_token().is_none()
            && last.text() == "3"
            && last.next_token().is_none(),
    )
}

#[test]
fn no_token_comes_before_the_first_or_after_the_last(rt: HostRuntime) -> Result<(), Fail> {
    let read = Parsed::new(rt.alloc(), SUM)?;
    assert!(rt; has_no_token_beyond_its_ends(&read.syntax()) == Some(true));
    Ok(())
}
