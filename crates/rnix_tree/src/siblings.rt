//! Siblings of an element, in either direction.

ghost use Rattle.std.specs.Prelude.{◌≡◌, ◌<◌, ◌^◌, length};
ghost use Rattle.rnix_green.specs.Tree.{items_of};
ghost use Rattle.rnix_green.specs.Walk.{nodes_in};
ghost use Rattle.rnix_tree.specs.Spots.{located_of};
ghost use Rattle.rnix_tree.specs.Around.{IsThereIfAny};
ghost use Rattle.rnix_tree.specs.Siblings.{siblings_of, index_of, IsBeside};

use crate::element::{NodeOrToken, SyntaxElement, element_at};
use crate::node::SyntaxNode;
use crate::relatives;
use crate::token::SyntaxToken;
use rnix_green::GreenNode;
use std::marker::Model;

/// The direction of a walk along siblings.
#[derive(Clone, Copy, Debug, PartialEq, Eq, Hash)]
pub enum Direction {
    /// Towards the end of the text.
    Next,
    /// Towards its start.
    Prev,
}

/// An iterator over an element and its siblings on one side, nodes and tokens, nearest first.
#[derive(Drop)]
pub struct SiblingsWithTokens<'t> {
    green: &'t GreenNode,
    direction: Direction,
    next: Option<usize>,
}

impl<'t> Model for SiblingsWithTokens<'t> {
    ghost use Rattle.std.specs.Prelude.{List};
    ghost use Rattle.rnix_green.specs.Walk.{Spot, spots_code};
    ghost use Rattle.rnix_tree.specs.Around.{IsThereIfAny};
    ghost use Rattle.rnix_tree.specs.Siblings.{siblings_if};

    ghost Value = { List Spot };

    ghost coded = { spots_code };

    ghost view = { λ s. siblings_if s.direction s.green.now s.next };

    ghost invariant = { λ s. IsThereIfAny s.green.now s.next };
}

impl<'t> SiblingsWithTokens<'t> {
    pub(crate) fn new(green: &'t GreenNode, direction: Direction, number: usize) -> Self
        requires { number < length (items_of green.now) }
        ensures siblings { result ≡ siblings_of direction record { tree = green.now; number = number } }
        ensures fits { length result < 2 ^ 64 }
    {
        // This call has no effect. Its contract bounds the count.
        let _count = green.element_count();
        SiblingsWithTokens {
            green,
            direction,
            next: Some(number),
        }
    }
}

// Returns the number of siblings before the element, counted from the parent's first child.
fn index(green: &GreenNode, number: usize) -> usize
    requires { number < length (items_of green.now) }
    ensures { result ≡ index_of record { tree = green.now; number = number } }
{
    let Some(parent) = green.element(number).parent else {
        return 0;
    };
    let (mut sibling, mut index) = (parent + 1, 0);
    while sibling < number {
        let element = green.element(sibling);
        sibling += 1 + element.below;
        index += 1;
    }
    index
}

// Returns the nearest sibling on one side.
fn sibling(green: &GreenNode, direction: Direction, number: usize) -> Option<usize>
    requires { number < length (items_of green.now) }
    ensures there { IsThereIfAny green.now result }
    ensures beside { IsBeside direction record { tree = green.now; number = number } result }
{
    match direction {
        Direction::Next => relatives::next_sibling(green, number),
        Direction::Prev => relatives::prev_sibling(green, number),
    }
}

impl<'t> Iterator for SiblingsWithTokens<'t> {
    type Item = SyntaxElement<'t>;

    ghost use Rattle.std.specs.Iterator.{YieldsFirstBy, item_count};
    ghost use Rattle.rnix_tree.specs.Spots.{spot_of};

    ghost next_gives = { YieldsFirstBy spot_of (λ s. s) };

    ghost remaining = { item_count (λ s. s) };

    fn next(&mut self) -> Option<SyntaxElement<'t>> {
        let green = self.green;
        let Some(number) = self.next else {
            return None;
        };
        self.next = sibling(green, self.direction, number);
        Some(element_at(green, number))
    }
}

/// An iterator over a node and its sibling nodes on one side, nearest first.
#[derive(Drop)]
pub struct Siblings<'t> {
    elements: SiblingsWithTokens<'t>,
}

impl<'t> Model for Siblings<'t> {
    ghost use Rattle.std.specs.Prelude.{List};
    ghost use Rattle.std.specs.Coded.{coded_list};
    ghost use Rattle.rnix_green.specs.Tree.{Located, located_code};
    ghost use Rattle.rnix_green.specs.Walk.{nodes_in};

    ghost Value = { List Located };

    ghost coded = { coded_list located_code };

    ghost view = { λ s. nodes_in s.elements };
}

impl<'t> Iterator for Siblings<'t> {
    type Item = SyntaxNode<'t>;

    ghost use Rattle.std.specs.Iterator.{YieldsFirstBy, item_count};

    ghost next_gives = { YieldsFirstBy (λ node. node) (λ s. s) };

    ghost remaining = { item_count (λ s. s) };

    fn next(&mut self) -> Option<SyntaxNode<'t>> {
        while let Some(element) = self.elements.next() {
            if let NodeOrToken::Node(node) = element {
                return Some(node);
            }
        }
        None
    }
}

impl<'t> SyntaxNode<'t> {
    /// Returns the node and its siblings on one side, nodes and tokens, nearest first.
    pub fn siblings_with_tokens(&self, direction: Direction) -> SiblingsWithTokens<'t>
        ensures siblings { result ≡ siblings_of direction self.now }
        ensures fits { length result < 2 ^ 64 }
    {
        SiblingsWithTokens::new(self.green, direction, self.number)
    }

    /// Returns the node and its sibling nodes on one side, nearest first.
    pub fn siblings(&self, direction: Direction) -> Siblings<'t>
        ensures siblings { result ≡ nodes_in (siblings_of direction self.now) }
        ensures fits { length result < 2 ^ 64 }
    {
        Siblings {
            elements: self.siblings_with_tokens(direction),
        }
    }

    /// Returns the number of siblings, nodes and tokens, before the node.
    pub fn index(&self) -> usize
        ensures { result ≡ index_of self.now }
    {
        index(self.green, self.number)
    }
}

impl<'t> SyntaxToken<'t> {
    /// Returns the token and its siblings on one side, nodes and tokens, nearest first.
    pub fn siblings_with_tokens(&self, direction: Direction) -> SiblingsWithTokens<'t>
        ensures siblings { result ≡ siblings_of direction self.now }
        ensures fits { length result < 2 ^ 64 }
    {
        SiblingsWithTokens::new(self.green, direction, self.number)
    }

    /// Returns the number of siblings, nodes and tokens, before the token.
    pub fn index(&self) -> usize
        ensures { result ≡ index_of self.now }
    {
        index(self.green, self.number)
    }
}

impl<'t> NodeOrToken<SyntaxNode<'t>, SyntaxToken<'t>> {
    /// Returns the element and its siblings on one side, nodes and tokens, nearest first.
    pub fn siblings_with_tokens(&self, direction: Direction) -> SiblingsWithTokens<'t>
        ensures siblings { result ≡ siblings_of direction (located_of self.now) }
        ensures fits { length result < 2 ^ 64 }
    {
        match self {
            NodeOrToken::Node(node) => node.siblings_with_tokens(direction),
            NodeOrToken::Token(token) => token.siblings_with_tokens(direction),
        }
    }

    /// Returns the number of siblings, nodes and tokens, before the element.
    pub fn index(&self) -> usize
        ensures { result ≡ index_of (located_of self.now) }
    {
        match self {
            NodeOrToken::Node(node) => node.index(),
            NodeOrToken::Token(token) => token.index(),
        }
    }
}
