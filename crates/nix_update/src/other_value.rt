//! Texts that are values of Nix other than strings.

use rnix::Root;
use rnix::ast::{AstNode, Expr, Literal, LiteralKind};
use std::alloc::{AllocError, Global};

// Returns whether a literal is a number.
fn is_number(literal: &Literal<'_>) -> bool {
    matches!(
        literal.kind(),
        Some(LiteralKind::Integer(_) | LiteralKind::Float(_))
    )
}

// Returns whether an expression is a number, which may be negative, or `true`, `false` or `null`.
fn is_other(expr: &Expr<'_>) -> bool {
    match expr {
        Expr::Literal(literal) => is_number(literal),
        Expr::UnaryOp(operation) => match operation.expr() {
            Some(Expr::Literal(literal)) => is_number(&literal),
            _ => false,
        },
        Expr::Ident(name) => matches!(name.syntax().text(), "true" | "false" | "null"),
        _ => false,
    }
}

/// Returns whether a text, read as Nix, is a number, `true`, `false` or `null`.
pub fn is_other_value(alloc: Global, text: &str) -> Result<bool, AllocError> {
    let read = Root::parse(alloc, text)?;
    if !read.errors().is_empty() {
        return Ok(false);
    }
    match read.tree().expr() {
        Some(expr) => Ok(is_other(&expr)),
        None => Ok(false),
    }
}
