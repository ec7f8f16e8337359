//! Names that are expressions, and nodes that are bodies of `with`.

ghost use Rattle.std.specs.Prelude.{◌≡◌};
ghost use Rattle.nix_scopes.specs.References.{is_after_node, is_value_below, is_expression};
ghost use Rattle.nix_scopes.specs.Scopes.{is_with_body};

use rnix::{Direction, SyntaxKind, SyntaxNode};

// Returns whether another node comes before this one in its parent.
fn is_after_node(node: &SyntaxNode<'_>) -> bool
    ensures { result ≡ is_after_node node.now }
{
    let mut nodes = node.siblings(Direction::Prev);
    let _itself = nodes.next();
    nodes.next().is_some()
}

// Returns whether a name in a parent of a kind is an expression: it is neither bound, nor inherited, nor a part of an attribute path.
fn is_value_below(parent: SyntaxKind, node: &SyntaxNode<'_>) -> bool
    ensures { result ≡ is_value_below parent node.now }
{
    match parent {
        SyntaxKind::NODE_ATTRPATH
        | SyntaxKind::NODE_INHERIT
        | SyntaxKind::NODE_IDENT_PARAM
        | SyntaxKind::NODE_PAT_BIND => false,
        SyntaxKind::NODE_PAT_ENTRY => is_after_node(node),
        _ => true,
    }
}

/// Returns whether a node is a name that is an expression.
pub fn is_expression(node: &SyntaxNode<'_>) -> bool
    ensures { result ≡ is_expression node.now }
{
    let Some(parent) = node.parent() else {
        return false;
    };
    node.kind() == SyntaxKind::NODE_IDENT && is_value_below(parent.kind(), node)
}

/// Returns whether a node is the body of a `with`.
pub fn is_with_body(node: &SyntaxNode<'_>) -> bool
    ensures { result ≡ is_with_body node.now }
{
    let Some(parent) = node.parent() else {
        return false;
    };
    parent.kind() == SyntaxKind::NODE_WITH && is_after_node(node)
}
