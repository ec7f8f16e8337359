//! The nodes that are scopes.

ghost use Rattle.std.specs.Prelude.{◌≡◌};
ghost use Rattle.nix_scopes.specs.Binders.{is_recursive, is_binder, is_scope};

use rnix::ast::{AstNode, AttrSet};
use rnix::{SyntaxKind, SyntaxNode};

/// Returns whether a node is a set with `rec`.
pub fn is_recursive(node: &SyntaxNode<'_>) -> bool
    ensures { result ≡ is_recursive node.now }
{
    match AttrSet::cast(node.clone()) {
        Some(set) => set.rec_token().is_some(),
        None => false,
    }
}

/// Returns whether a node of the kind binds names.
pub fn is_binder(kind: SyntaxKind) -> bool
    ensures { result ≡ is_binder kind }
{
    matches!(
        kind,
        SyntaxKind::NODE_LET_IN | SyntaxKind::NODE_LEGACY_LET | SyntaxKind::NODE_LAMBDA
    )
}

/// Returns whether the node's names are in scope inside it.
pub fn is_scope(node: &SyntaxNode<'_>) -> bool
    ensures { result ≡ is_scope node.now }
{
    is_binder(node.kind()) || is_recursive(node)
}
