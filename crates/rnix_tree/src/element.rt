//! Nodes or tokens, and the events of a walk.

ghost use Rattle.std.specs.Prelude.{◌≡◌, ◌<◌, length, option_map};
ghost use Rattle.rnix_green.specs.Range.{bounds_of};
ghost use Rattle.rnix_green.specs.Tree.{items_of, item_of, extent_of};
ghost use Rattle.rnix_green.specs.Walk.{spot_at};
ghost use Rattle.rnix_tree.specs.Spots.{spot_of, located_of, node_in, token_in, element_in, MapsEvent};

use crate::node::SyntaxNode;
use crate::token::SyntaxToken;
use rnix_green::{GreenNode, TextRange};
use rnix_kinds::SyntaxKind;

/// A node or a token.
#[derive(Clone, Debug, PartialEq, Eq, Hash, Drop)]
pub enum NodeOrToken<N, T> {
    Node(N),
    Token(T),
}

/// A node or a token of a tree.
pub type SyntaxElement<'t> = NodeOrToken<SyntaxNode<'t>, SyntaxToken<'t>>;

/// An event of a walk.
#[derive(Clone, Debug, Drop)]
pub enum WalkEvent<T> {
    /// The walk enters the element, before what is inside it.
    Enter(T),
    /// The walk leaves the element, after what is inside it.
    Leave(T),
}

impl<N, T> NodeOrToken<N, T> {
    /// Returns the node, if it is one.
    pub fn as_node(&self) -> Option<&N>
        ensures { option_map (λ node. node.now) result ≡ node_in self.now }
    {
        match self {
            NodeOrToken::Node(node) => Some(node),
            NodeOrToken::Token(_) => None,
        }
    }

    /// Returns the token, if it is one.
    pub fn as_token(&self) -> Option<&T>
        ensures { option_map (λ token. token.now) result ≡ token_in self.now }
    {
        match self {
            NodeOrToken::Node(_) => None,
            NodeOrToken::Token(token) => Some(token),
        }
    }
}

impl<T> WalkEvent<T> {
    /// Returns the same event with the element mapped by `f`.
    pub fn map<F: FnOnce(T) -> U, U>(self, f: F) -> WalkEvent<U>
        requires { F.pre f (element_in self) }
        ensures { MapsEvent (F.post f) self result }
    {
        match self {
            WalkEvent::Enter(element) => WalkEvent::Enter(f(element)),
            WalkEvent::Leave(element) => WalkEvent::Leave(f(element)),
        }
    }
}

impl<N: Drop, T: Drop> NodeOrToken<N, T> {
    /// Returns the node, if it is one.
    pub fn into_node(self) -> Option<N>
        ensures { result ≡ node_in self }
    {
        match self {
            NodeOrToken::Node(node) => Some(node),
            NodeOrToken::Token(_) => None,
        }
    }

    /// Returns the token, if it is one.
    pub fn into_token(self) -> Option<T>
        ensures { result ≡ token_in self }
    {
        match self {
            NodeOrToken::Node(_) => None,
            NodeOrToken::Token(token) => Some(token),
        }
    }
}

impl<'t> NodeOrToken<SyntaxNode<'t>, SyntaxToken<'t>> {
    /// Returns a copy, without allocating.
    pub fn clone(&self) -> Self
        ensures { result ≡ self.now }
    {
        match self {
            NodeOrToken::Node(node) => NodeOrToken::Node(node.clone()),
            NodeOrToken::Token(token) => NodeOrToken::Token(token.clone()),
        }
    }

    /// Returns the element's kind.
    pub fn kind(&self) -> SyntaxKind
        ensures { result ≡ (item_of (located_of self.now)).kind }
    {
        match self {
            NodeOrToken::Node(node) => node.kind(),
            NodeOrToken::Token(token) => token.kind(),
        }
    }

    /// Returns the element's range in the text, in bytes.
    pub fn text_range(&self) -> TextRange
        ensures { bounds_of result ≡ extent_of (located_of self.now) }
    {
        match self {
            NodeOrToken::Node(node) => node.text_range(),
            NodeOrToken::Token(token) => token.text_range(),
        }
    }
}

impl<'t> From<SyntaxNode<'t>> for NodeOrToken<SyntaxNode<'t>, SyntaxToken<'t>> {
    ghost use Rattle.rnix_tree.specs.declared.element.NodeOrToken.TheVariants.{Node};

    ghost from_gives = { λ node element. element ≡ Node node };

    fn from(node: SyntaxNode<'t>) -> SyntaxElement<'t> {
        NodeOrToken::Node(node)
    }
}

impl<'t> From<SyntaxToken<'t>> for NodeOrToken<SyntaxNode<'t>, SyntaxToken<'t>> {
    ghost use Rattle.rnix_tree.specs.declared.element.NodeOrToken.TheVariants.{Token};

    ghost from_gives = { λ token element. element ≡ Token token };

    fn from(token: SyntaxToken<'t>) -> SyntaxElement<'t> {
        NodeOrToken::Token(token)
    }
}

/// Returns the element with a number in preorder.
pub(crate) fn element_at<'t>(green: &'t GreenNode, number: usize) -> SyntaxElement<'t>
    requires { number < length (items_of green.now) }
    ensures spot { spot_of result ≡ spot_at green.now number }
    ensures located { located_of result ≡ record { tree = green.now; number = number } }
{
    if green.element(number).is_node {
        NodeOrToken::Node(SyntaxNode { green, number })
    } else {
        NodeOrToken::Token(SyntaxToken { green, number })
    }
}
