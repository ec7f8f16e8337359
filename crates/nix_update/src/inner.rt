//! The part of an expression in which its attributes are defined.

ghost use Rattle.std.specs.Prelude.{◌≡◌};
ghost use Rattle.rnix_green.specs.Tree.{item_of};
ghost use Rattle.rnix_base.specs.Select.{child_of, tokens_in};
ghost use Rattle.rnix_base.specs.TokenOperators.{first_operator, binary_operator};
ghost use Rattle.rnix_green.specs.Walk.{children_of};
ghost use Rattle.rnix.specs.NodeKinds.{is_expr};
ghost use Rattle.nix_update.specs.Inner.{may_define, is_candidate, only_candidate, operand, inner};

use rnix::ast::{AstNode, BinOp, BinOpKind, Expr, without_parens};
use rnix::{SyntaxKind, SyntaxNode};
use rnix_base::child_at;

/// Returns the child expression with an index in a node.
pub fn expr_at<'t>(node: &SyntaxNode<'t>, number: usize) -> Option<SyntaxNode<'t>>
    ensures { result ≡ child_of is_expr number node.now }
{
    let expr = child_at::<Expr<'t>>(node, number)?;
    Some(expr.syntax().clone())
}

// Returns whether an expression of a kind may write out attributes.
fn may_define(kind: SyntaxKind) -> bool
    ensures { result ≡ may_define kind }
{
    matches!(
        kind,
        SyntaxKind::NODE_ATTR_SET
            | SyntaxKind::NODE_BIN_OP
            | SyntaxKind::NODE_IF_ELSE
            | SyntaxKind::NODE_LET_IN
            | SyntaxKind::NODE_LEGACY_LET
            | SyntaxKind::NODE_WITH
            | SyntaxKind::NODE_ASSERT
    )
}

// Returns whether PATH may lead into an operand of `//`: without the parentheses around it, it may write out attributes.
fn is_candidate(operand: &SyntaxNode<'_>) -> bool
    ensures { result ≡ is_candidate operand.now }
{
    may_define(without_parens(operand).kind())
}

// Returns the operand into which PATH may lead, if it may lead into just one of the two.
fn only_candidate<'t>(left: SyntaxNode<'t>, right: SyntaxNode<'t>) -> Option<SyntaxNode<'t>>
    ensures { result ≡ only_candidate left.entry right.entry }
{
    if is_candidate(&left) {
        if is_candidate(&right) {
            None
        } else {
            Some(left)
        }
    } else if is_candidate(&right) {
        Some(right)
    } else {
        None
    }
}

// Returns the operand into which PATH leads, if the operation is `//` and PATH may lead into just one of the two.
fn operand<'t>(node: &SyntaxNode<'t>) -> Option<SyntaxNode<'t>>
    ensures { result ≡ operand node.now }
{
    let operation = BinOp::cast(node.clone())?;
    match operation.operator() {
        Some(BinOpKind::Update) => only_candidate(expr_at(node, 0)?, expr_at(node, 1)?),
        _ => None,
    }
}

/// Returns the expression in a node that has the node's attributes: the one of the root or in parentheses, the body of a function, a `let`, a `with` or an
/// `assert`, the argument of a call, or the only operand of `//` into which PATH may lead.
pub fn inner<'t>(node: &SyntaxNode<'t>) -> Option<SyntaxNode<'t>>
    ensures { result ≡ inner node.now }
{
    match node.kind() {
        SyntaxKind::NODE_ROOT
        | SyntaxKind::NODE_PAREN
        | SyntaxKind::NODE_LAMBDA
        | SyntaxKind::NODE_LET_IN => expr_at(node, 0),
        SyntaxKind::NODE_WITH | SyntaxKind::NODE_ASSERT | SyntaxKind::NODE_APPLY => {
            expr_at(node, 1)
        }
        SyntaxKind::NODE_BIN_OP => operand(node),
        _ => None,
    }
}
