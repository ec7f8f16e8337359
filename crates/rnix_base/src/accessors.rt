//! The children of a node, selected by their types and kinds.

ghost use Rattle.std.specs.Prelude.{◌≡◌, ◌<◌, ◌^◌, length, option_map};
ghost use Rattle.rnix_green.specs.Equality.{same_kind};
ghost use Rattle.rnix_base.specs.Select.{those_of, nodes_of, child_of, token_of};

use crate::ast_children::AstChildren;
use crate::node::AstNode;
use crate::token::AstToken;
use rnix_kinds::SyntaxKind;
use rnix_tree::{NodeOrToken, SyntaxNode, SyntaxToken};
use std::marker::PhantomData;

/// Returns the child nodes that cast to `T`, in order.
#[tactic(auto, using(crate::proofs::SelectLemmas::those_fit))]
pub fn children<'t, T: AstNode<'t>>(parent: &SyntaxNode<'t>) -> AstChildren<'t, T>
    ensures children { those_of T.kinds result ≡ nodes_of T.kinds parent.now }
    ensures fits { length (those_of T.kinds result) < 2 ^ 64 }
{
    AstChildren {
        nodes: parent.children(),
        cast: PhantomData,
    }
}

/// Returns the child node with a number, from 0, among those that cast to `T`.
pub fn child_at<'t, T: AstNode<'t>>(parent: &SyntaxNode<'t>, number: usize) -> Option<T>
    ensures { option_map T.node result ≡ child_of T.kinds number parent.now }
{
    let mut nodes = children::<T>(parent);
    let mut before = number;
    while let Some(node) = nodes.next() {
        if before == 0 {
            return Some(node);
        }
        before -= 1;
    }
    None
}

/// Returns the first child node that casts to `T`.
pub fn first_child<'t, T: AstNode<'t>>(parent: &SyntaxNode<'t>) -> Option<T>
    ensures { option_map T.node result ≡ child_of T.kinds 0 parent.now }
{
    children::<T>(parent).next()
}

// Returns whether the kinds are equal.
fn same_kind(a: SyntaxKind, b: SyntaxKind) -> bool
    ensures { result ≡ same_kind a b }
{
    a == b
}

/// Returns the first child token of the kind.
pub fn first_token<'t>(parent: &SyntaxNode<'t>, kind: SyntaxKind) -> Option<SyntaxToken<'t>>
    ensures { result ≡ token_of (same_kind kind) parent.now }
{
    let mut elements = parent.children_with_tokens();
    while let Some(element) = elements.next() {
        if let NodeOrToken::Token(token) = element {
            if same_kind(kind, token.kind()) {
                return Some(token);
            }
        }
    }
    None
}

/// Returns the first child token that casts to `T`.
pub fn child_token<'t, T: AstToken<'t>>(parent: &SyntaxNode<'t>) -> Option<T>
    ensures { option_map T.token result ≡ token_of T.kinds parent.now }
{
    let mut elements = parent.children_with_tokens();
    while let Some(element) = elements.next() {
        if let NodeOrToken::Token(token) = element {
            if let Some(value) = T::cast(token) {
                return Some(value);
            }
        }
    }
    None
}
