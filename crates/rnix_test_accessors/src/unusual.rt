//! Typed nodes and tokens that were built by hand, and that no text has.

use crate::hand::node_over;
use rnix::ast::{AstNode, AstToken, BinOp, BinOpKind, Comment, Integer};
use rnix::{GreenNode, SyntaxKind, SyntaxNode};
use std::alloc::{AllocError, Global};
use std::test::Fail;

// An operation over a comma and a plus.
fn operation(alloc: Global) -> Result<GreenNode, AllocError> {
    let leaves = [(SyntaxKind::TOKEN_COMMA, ","), (SyntaxKind::TOKEN_ADD, "+")];
    node_over(alloc, SyntaxKind::NODE_BIN_OP, &leaves)
}

// The value of an integer token; `None` if it has none.
fn value_of(alloc: Global, text: &str) -> Result<Option<i64>, AllocError> {
    let leaf = (SyntaxKind::TOKEN_INTEGER, text);
    let tree = node_over(alloc, SyntaxKind::NODE_LITERAL, &[leaf])?;
    let Some(token) = SyntaxNode::new_root(&tree).first_token() else {
        return Ok(None);
    };
    Ok(Integer::cast(token).and_then(|integer| integer.value().ok()))
}

#[test]
fn signs_are_read_and_letters_are_not(rt: HostRuntime) -> Result<(), Fail> {
    assert!(rt; value_of(rt.alloc(), "-5")? == Some(-5));
    assert!(rt; value_of(rt.alloc(), "+5")? == Some(5));
    assert!(rt; value_of(rt.alloc(), "")?.is_none());
    assert!(rt; value_of(rt.alloc(), "1_0")?.is_none());
    Ok(())
}

#[test]
fn an_operator_is_the_first_token_that_is_one(rt: HostRuntime) -> Result<(), Fail> {
    let tree = operation(rt.alloc())?;
    let Some(operation) = BinOp::cast(SyntaxNode::new_root(&tree)) else {
        assert!(rt; false);
        return Ok(());
    };
    assert!(rt; operation.operator() == Some(BinOpKind::Add));
    assert!(rt; operation.lhs().is_none() && operation.rhs().is_none());
    Ok(())
}

// Whether a comment with this text has the wanted content.
fn says(alloc: Global, text: &str, wanted: &str) -> Result<bool, Fail> {
    let leaf = (SyntaxKind::TOKEN_COMMENT, text);
    let tree = node_over(alloc, SyntaxKind::NODE_ROOT, &[leaf])?;
    let Some(token) = SyntaxNode::new_root(&tree).first_token() else {
        return Ok(false);
    };
    let Some(comment) = Comment::cast(token) else {
        return Ok(false);
    };
    Ok(comment.text() == wanted)
}

#[test]
fn comments_of_other_forms_are_given_whole(rt: HostRuntime) -> Result<(), Fail> {
    assert!(rt; says(rt.alloc(), "/**/", "")?);
    assert!(rt; says(rt.alloc(), "#", "")?);
    assert!(rt; says(rt.alloc(), "/*/", "/*/")?);
    assert!(rt; says(rt.alloc(), "a", "a")?);
    Ok(())
}
