//! Further handles of nodes. Making them cannot fail.

use rnix::ast::{AstNode, Ident, LetIn};
use rnix::{Root, SyntaxNode};
use std::alloc::AllocError;
use std::test::Fail;

// A node with its text.
#[derive(Drop)]
struct Found<'t> {
    node: SyntaxNode<'t>,
    text: &'t str,
}

// Adds a node.
fn add<'t>(node: &SyntaxNode<'t>, found: &mut Vec<Found<'t>>) -> Result<(), AllocError> {
    found.push(Found {
        node: node.clone(),
        text: node.text(),
    })?;
    Ok(())
}

#[test]
fn nodes_stand_in_structs_of_users(rt: HostRuntime) -> Result<(), Fail> {
    let read = Root::parse(rt.alloc(), "a")?;
    let mut found = Vec::new(rt.alloc());
    add(&read.syntax(), &mut found)?;
    for one in &found {
        assert!(rt; one.node.text() == one.text);
    }
    Ok(())
}

// Whether a node is an identifier or a `let`. It is cast to each of them.
fn is_of_two(node: &SyntaxNode<'_>) -> bool {
    LetIn::cast(node.clone()).is_some() || Ident::cast(node.clone()).is_some()
}

#[test]
fn a_node_is_cast_again_and_again(rt: HostRuntime) -> Result<(), Fail> {
    let read = Root::parse(rt.alloc(), "a")?;
    for node in read.syntax().children() {
        assert!(rt; is_of_two(&node) && is_of_two(&node));
    }
    Ok(())
}
