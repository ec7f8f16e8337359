//! Parents, children, siblings and adjacent tokens.

ghost use Rattle.std.specs.Prelude.{◌≡◌, ◌<◌, ◌^◌, length, option_map, is_some, true};
ghost use Rattle.rnix_tree.specs.Spots.{located_of};
ghost use Rattle.rnix_green.specs.Relatives.{located, parent_of, IsFirstChild, IsLastChild, IsFirstChildNode, IsLastChildNode, IsNextSibling, IsPrevSibling, IsNextSiblingNode, IsPrevSiblingNode, IsFirstToken, IsLastToken, IsNextToken, IsPrevToken};
ghost use Rattle.rnix_tree.specs.Around.{IsThereIfAny, IsNodeIfAny, IsTokenIfAny, parent_ancestors_of, nodes_around, IsFirstTokenOf, IsLastTokenOf};

use crate::ancestors::Ancestors;
use crate::element::{NodeOrToken, SyntaxElement, element_at};
use crate::node::SyntaxNode;
use crate::relatives;
use crate::token::SyntaxToken;
use rnix_green::GreenNode;

// Returns the node with a number, if there is one.
fn node_if<'t>(green: &'t GreenNode, number: Option<usize>) -> Option<SyntaxNode<'t>>
    requires { IsNodeIfAny green.now number }
    ensures { result ≡ located green.now number }
{
    match number {
        Some(number) => Some(SyntaxNode { green, number }),
        None => None,
    }
}

// Returns the token with a number, if there is one.
fn token_if<'t>(green: &'t GreenNode, number: Option<usize>) -> Option<SyntaxToken<'t>>
    requires { IsTokenIfAny green.now number }
    ensures { result ≡ located green.now number }
{
    match number {
        Some(number) => Some(SyntaxToken { green, number }),
        None => None,
    }
}

// Returns the element with a number, if there is one.
fn element_if<'t>(green: &'t GreenNode, number: Option<usize>) -> Option<SyntaxElement<'t>>
    requires { IsThereIfAny green.now number }
    ensures { option_map located_of result ≡ located green.now number }
{
    match number {
        Some(number) => Some(element_at(green, number)),
        None => None,
    }
}

impl<'t> SyntaxNode<'t> {
    /// Returns the parent; `None` for the root.
    pub fn parent(&self) -> Option<SyntaxNode<'t>>
        ensures { result ≡ parent_of self.now }
    {
        node_if(self.green, self.green.element(self.number).parent)
    }

    /// Returns the first child node.
    pub fn first_child(&self) -> Option<SyntaxNode<'t>>
        ensures { IsFirstChildNode self.now result }
    {
        let first = relatives::first_child(self.green, self.number);
        node_if(self.green, relatives::first_node(self.green, first))
    }

    /// Returns the last child node.
    pub fn last_child(&self) -> Option<SyntaxNode<'t>>
        ensures { IsLastChildNode self.now result }
    {
        let last = relatives::last_child(self.green, self.number);
        node_if(self.green, relatives::last_node(self.green, last))
    }

    /// Returns the first child, node or token.
    pub fn first_child_or_token(&self) -> Option<SyntaxElement<'t>>
        ensures { IsFirstChild self.now (option_map located_of result) }
    {
        element_if(self.green, relatives::first_child(self.green, self.number))
    }

    /// Returns the last child, node or token.
    pub fn last_child_or_token(&self) -> Option<SyntaxElement<'t>>
        ensures { IsLastChild self.now (option_map located_of result) }
    {
        element_if(self.green, relatives::last_child(self.green, self.number))
    }

    /// Returns the next sibling node.
    pub fn next_sibling(&self) -> Option<SyntaxNode<'t>>
        ensures { IsNextSiblingNode self.now result }
    {
        let next = relatives::next_sibling(self.green, self.number);
        node_if(self.green, relatives::first_node(self.green, next))
    }

    /// Returns the previous sibling node.
    pub fn prev_sibling(&self) -> Option<SyntaxNode<'t>>
        ensures { IsPrevSiblingNode self.now result }
    {
        let prev = relatives::prev_sibling(self.green, self.number);
        node_if(self.green, relatives::last_node(self.green, prev))
    }

    /// Returns the next sibling, node or token.
    pub fn next_sibling_or_token(&self) -> Option<SyntaxElement<'t>>
        ensures { IsNextSibling self.now (option_map located_of result) }
    {
        element_if(self.green, relatives::next_sibling(self.green, self.number))
    }

    /// Returns the previous sibling, node or token.
    pub fn prev_sibling_or_token(&self) -> Option<SyntaxElement<'t>>
        ensures { IsPrevSibling self.now (option_map located_of result) }
    {
        element_if(self.green, relatives::prev_sibling(self.green, self.number))
    }

    /// Returns the first token inside the node, at any depth.
    pub fn first_token(&self) -> Option<SyntaxToken<'t>>
        ensures { IsFirstToken self.now result }
    {
        let element = self.green.element(self.number);
        let end = self.number + 1 + element.below;
        token_if(
            self.green,
            relatives::first_token(self.green, self.number + 1, end),
        )
    }

    /// Returns the last token inside the node, at any depth.
    pub fn last_token(&self) -> Option<SyntaxToken<'t>>
        ensures { IsLastToken self.now result }
    {
        let element = self.green.element(self.number);
        let end = self.number + 1 + element.below;
        token_if(
            self.green,
            relatives::last_token(self.green, self.number + 1, end),
        )
    }
}

impl<'t> SyntaxToken<'t> {
    /// Returns the parent.
    pub fn parent(&self) -> Option<SyntaxNode<'t>>
        ensures parent { result ≡ parent_of self.now }
        ensures some { is_some result ≡ true }
    {
        node_if(self.green, self.green.element(self.number).parent)
    }

    /// Returns the nodes around the token, innermost first.
    pub fn parent_ancestors(&self) -> Ancestors<'t>
        ensures ancestors { result ≡ parent_ancestors_of self.now }
        ensures fits { length result < 2 ^ 64 }
    {
        Ancestors {
            green: self.green,
            next: self.green.element(self.number).parent,
        }
    }

    /// Returns the next token of the tree.
    pub fn next_token(&self) -> Option<SyntaxToken<'t>>
        ensures { IsNextToken self.now result }
    {
        let end = self.green.element_count();
        token_if(
            self.green,
            relatives::first_token(self.green, self.number + 1, end),
        )
    }

    /// Returns the previous token of the tree.
    pub fn prev_token(&self) -> Option<SyntaxToken<'t>>
        ensures { IsPrevToken self.now result }
    {
        token_if(
            self.green,
            relatives::last_token(self.green, 0, self.number),
        )
    }

    /// Returns the next sibling, node or token.
    pub fn next_sibling_or_token(&self) -> Option<SyntaxElement<'t>>
        ensures { IsNextSibling self.now (option_map located_of result) }
    {
        element_if(self.green, relatives::next_sibling(self.green, self.number))
    }

    /// Returns the previous sibling, node or token.
    pub fn prev_sibling_or_token(&self) -> Option<SyntaxElement<'t>>
        ensures { IsPrevSibling self.now (option_map located_of result) }
    {
        element_if(self.green, relatives::prev_sibling(self.green, self.number))
    }
}

impl<'t> NodeOrToken<SyntaxNode<'t>, SyntaxToken<'t>> {
    /// Returns the parent; `None` for the root.
    pub fn parent(&self) -> Option<SyntaxNode<'t>>
        ensures { result ≡ parent_of (located_of self.now) }
    {
        match self {
            NodeOrToken::Node(node) => node.parent(),
            NodeOrToken::Token(token) => token.parent(),
        }
    }

    /// Returns the nodes around the element, innermost first; a node itself comes first.
    pub fn ancestors(&self) -> Ancestors<'t>
        ensures ancestors { result ≡ nodes_around self.now }
        ensures fits { length result < 2 ^ 64 }
    {
        match self {
            NodeOrToken::Node(node) => node.ancestors(),
            NodeOrToken::Token(token) => token.parent_ancestors(),
        }
    }

    /// Returns the first token inside a node, at any depth; for a token, the token itself.
    pub fn first_token(&self) -> Option<SyntaxToken<'t>>
        ensures { IsFirstTokenOf self.now result }
    {
        match self {
            NodeOrToken::Node(node) => node.first_token(),
            NodeOrToken::Token(token) => Some(token.clone()),
        }
    }

    /// Returns the last token inside a node, at any depth; for a token, the token itself.
    pub fn last_token(&self) -> Option<SyntaxToken<'t>>
        ensures { IsLastTokenOf self.now result }
    {
        match self {
            NodeOrToken::Node(node) => node.last_token(),
            NodeOrToken::Token(token) => Some(token.clone()),
        }
    }

    /// Returns the next sibling, node or token.
    pub fn next_sibling_or_token(&self) -> Option<SyntaxElement<'t>>
        ensures { IsNextSibling (located_of self.now) (option_map located_of result) }
    {
        match self {
            NodeOrToken::Node(node) => node.next_sibling_or_token(),
            NodeOrToken::Token(token) => token.next_sibling_or_token(),
        }
    }

    /// Returns the previous sibling, node or token.
    pub fn prev_sibling_or_token(&self) -> Option<SyntaxElement<'t>>
        ensures { IsPrevSibling (located_of self.now) (option_map located_of result) }
    {
        match self {
            NodeOrToken::Node(node) => node.prev_sibling_or_token(),
            NodeOrToken::Token(token) => token.prev_sibling_or_token(),
        }
    }
}
