//! Equality and hashes of nodes and tokens, and what is printed of them.

use crate::parsed::Parsed;
use rnix_tree::SyntaxNode;
use std::alloc::{AllocError, Global};
use std::hash::{DefaultHasher, Hash, Hasher};
use std::test::Fail;

// The hash of a node.
fn hash_of(node: &SyntaxNode<'_>) -> u64 {
    let mut state = DefaultHasher::new();
    node.hash(&mut state);
    state.finish()
}

// Whether two roots, their hashes and their first tokens are equal, and the first token is not equal to the last one.
fn are_equal(a: &SyntaxNode<'_>, b: &SyntaxNode<'_>) -> bool {
    a == b
        && hash_of(a) == hash_of(b)
        && a.first_token() == b.first_token()
        && a.first_token() != a.last_token()
}

#[test]
fn two_readings_of_a_text_are_equal(rt: HostRuntime) -> Result<(), Fail> {
    let a = Parsed::new(rt.alloc(), "1 + 2 * 3")?;
    let b = Parsed::new(rt.alloc(), "1 + 2 * 3")?;
    assert!(rt; are_equal(&a.syntax(), &b.syntax()));
    Ok(())
}

// Whether the first nodes below two roots have the same text, and are not equal.
fn differ(a: &SyntaxNode<'_>, b: &SyntaxNode<'_>) -> Option<bool> {
    let (a, b) = (a.first_child()?, b.first_child()?);
    Some(a.text() == b.text() && a != b)
}

#[test]
fn names_of_different_trees_are_not_equal(rt: HostRuntime) -> Result<(), Fail> {
    let short = Parsed::new(rt.alloc(), "a")?;
    let long = Parsed::new(rt.alloc(), "a ")?;
    assert!(rt; differ(&short.syntax(), &long.syntax()) == Some(true));
    Ok(())
}

// What is printed of a node and of the last token in it.
fn printed(alloc: Global, node: &SyntaxNode<'_>) -> Result<String, AllocError> {
    match node.last_token() {
        Some(token) => format!(in alloc; "{node}/{token}"),
        None => format!(in alloc; "{node}"),
    }
}

#[test]
fn a_node_prints_its_text(rt: HostRuntime) -> Result<(), Fail> {
    let read = Parsed::new(rt.alloc(), "f  x")?;
    assert!(rt; printed(rt.alloc(), &read.syntax())?.as_str() == "f  x/x");
    Ok(())
}
