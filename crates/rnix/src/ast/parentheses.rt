//! Expressions in parentheses.

ghost use Rattle.std.specs.Prelude.{◌≡◌};
ghost use Rattle.rnix.specs.AttrName.{inside_of, without_parens};

use crate::ast::expression::Expr;
use rnix_base::{AstNode, child_at};
use rnix_kinds::SyntaxKind;
use rnix_tree::SyntaxNode;

// Returns the expression that is in parentheses, if a node is that.
fn inside_of<'t>(node: &SyntaxNode<'t>) -> Option<SyntaxNode<'t>>
    ensures { result ≡ inside_of node.now }
{
    if node.kind() != SyntaxKind::NODE_PAREN {
        return None;
    }
    Some(child_at::<Expr<'t>>(node, 0)?.syntax().clone())
}

/// Returns an expression without the parentheses around it.
pub fn without_parens<'t>(expr: &SyntaxNode<'t>) -> SyntaxNode<'t>
    ensures { result ≡ without_parens expr.now }
{
    let mut inner = expr.clone();
    let mut count = expr.inside_count();
    while count > 0 {
        match inside_of(&inner) {
            Some(next) => inner = next,
            None => return inner,
        }
        count -= 1;
    }
    inner
}
