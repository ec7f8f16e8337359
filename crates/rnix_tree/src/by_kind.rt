//! Children and siblings of one kind.

ghost use Rattle.std.specs.Prelude.{◌≡◌, ◌≤◌, length, drop, filter, find, option_map};
ghost use Rattle.rnix_green.specs.Equality.{same_kind};
ghost use Rattle.rnix_green.specs.Walk.{children_of, nodes_in};
ghost use Rattle.rnix_tree.specs.Spots.{spot_of};
ghost use Rattle.rnix_tree.specs.Siblings.{siblings_of};
ghost use Rattle.rnix_tree.specs.ByKind.{is_of_kind, is_spot_of_kind};
ghost use Rattle.rnix_tree.specs.declared.siblings.Direction.TheVariants as direction;

use crate::element::SyntaxElement;
use crate::node::SyntaxNode;
use crate::nodes::SyntaxNodeChildren;
use crate::siblings::{Direction, Siblings, SiblingsWithTokens};
use crate::walk::SyntaxElementChildren;
use rnix_kinds::SyntaxKind;
use std::marker::Model;

// Returns whether the kinds are equal.
fn same_kind(a: SyntaxKind, b: SyntaxKind) -> bool
    ensures { result ≡ same_kind a b }
{
    a == b
}

/// An iterator over the child nodes of one kind, in order.
#[derive(Drop)]
pub struct SyntaxNodeChildrenByKind<'t> {
    nodes: SyntaxNodeChildren<'t>,
    kind: SyntaxKind,
}

impl<'t> Model for SyntaxNodeChildrenByKind<'t> {
    ghost use Rattle.std.specs.Prelude.{List, filter};
    ghost use Rattle.std.specs.Coded.{coded_list};
    ghost use Rattle.rnix_green.specs.Tree.{Located, located_code};
    ghost use Rattle.rnix_tree.specs.ByKind.{is_of_kind};

    ghost Value = { List Located };

    ghost coded = { coded_list located_code };

    ghost view = { λ c. filter (is_of_kind c.kind) c.nodes };
}

impl<'t> SyntaxNodeChildren<'t> {
    /// Returns those of the remaining nodes that have the kind.
    #[tactic(auto, using(crate::proofs::ListLemmas::filter_most))]
    pub fn by_kind(self, kind: SyntaxKind) -> SyntaxNodeChildrenByKind<'t>
        ensures children { result ≡ filter (is_of_kind kind) self.entry }
        ensures fewer { length result ≤ length self.entry }
    {
        SyntaxNodeChildrenByKind { nodes: self, kind }
    }
}

impl<'t> Iterator for SyntaxNodeChildrenByKind<'t> {
    type Item = SyntaxNode<'t>;

    ghost use Rattle.std.specs.Iterator.{YieldsFirstBy, item_count};

    ghost next_gives = { YieldsFirstBy (λ node. node) (λ s. s) };

    ghost remaining = { item_count (λ s. s) };

    fn next(&mut self) -> Option<SyntaxNode<'t>> {
        while let Some(node) = self.nodes.next() {
            if same_kind(self.kind, node.kind()) {
                return Some(node);
            }
        }
        None
    }
}

/// An iterator over the children of one kind, nodes and tokens, in order.
#[derive(Drop)]
pub struct SyntaxElementChildrenByKind<'t> {
    elements: SyntaxElementChildren<'t>,
    kind: SyntaxKind,
}

impl<'t> Model for SyntaxElementChildrenByKind<'t> {
    ghost use Rattle.std.specs.Prelude.{List, filter};
    ghost use Rattle.rnix_green.specs.Walk.{Spot, spots_code};
    ghost use Rattle.rnix_tree.specs.ByKind.{is_spot_of_kind};

    ghost Value = { List Spot };

    ghost coded = { spots_code };

    ghost view = { λ c. filter (is_spot_of_kind c.kind) c.elements };
}

impl<'t> SyntaxElementChildren<'t> {
    /// Returns those of the remaining nodes and tokens that have the kind.
    #[tactic(auto, using(crate::proofs::ListLemmas::filter_most))]
    pub fn by_kind(self, kind: SyntaxKind) -> SyntaxElementChildrenByKind<'t>
        ensures children { result ≡ filter (is_spot_of_kind kind) self.entry }
        ensures fewer { length result ≤ length self.entry }
    {
        SyntaxElementChildrenByKind {
            elements: self,
            kind,
        }
    }
}

impl<'t> Iterator for SyntaxElementChildrenByKind<'t> {
    type Item = SyntaxElement<'t>;

    ghost use Rattle.std.specs.Iterator.{YieldsFirstBy, item_count};
    ghost use Rattle.rnix_tree.specs.Spots.{spot_of};

    ghost next_gives = { YieldsFirstBy spot_of (λ s. s) };

    ghost remaining = { item_count (λ s. s) };

    fn next(&mut self) -> Option<SyntaxElement<'t>> {
        while let Some(element) = self.elements.next() {
            if same_kind(self.kind, element.kind()) {
                return Some(element);
            }
        }
        None
    }
}

// Returns the first sibling node of a kind.
fn first_node<'t>(mut nodes: Siblings<'t>, kind: SyntaxKind) -> Option<SyntaxNode<'t>>
    ensures { result ≡ find (is_of_kind kind) nodes.entry }
{
    while let Some(node) = nodes.next() {
        if same_kind(kind, node.kind()) {
            return Some(node);
        }
    }
    None
}

// Returns the first sibling of a kind, node or token.
fn first_element<'t>(
    mut elements: SiblingsWithTokens<'t>,
    kind: SyntaxKind,
) -> Option<SyntaxElement<'t>>
    ensures { option_map spot_of result ≡ find (is_spot_of_kind kind) elements.entry }
{
    while let Some(element) = elements.next() {
        if same_kind(kind, element.kind()) {
            return Some(element);
        }
    }
    None
}

impl<'t> SyntaxNode<'t> {
    /// Returns the first child node of a kind.
    #[tactic(auto, using(crate::proofs::ListLemmas::found_itself))]
    pub fn first_child_by_kind(&self, kind: SyntaxKind) -> Option<SyntaxNode<'t>>
        ensures { result ≡ find (is_of_kind kind) (nodes_in (children_of self.now)) }
    {
        self.children().by_kind(kind).next()
    }

    /// Returns the first child of a kind, node or token.
    #[tactic(auto, using(crate::proofs::ListLemmas::found_first))]
    pub fn first_child_or_token_by_kind(&self, kind: SyntaxKind) -> Option<SyntaxElement<'t>>
        ensures { option_map spot_of result ≡ find (is_spot_of_kind kind) (children_of self.now) }
    {
        self.children_with_tokens().by_kind(kind).next()
    }

    /// Returns the next sibling node of a kind.
    pub fn next_sibling_by_kind(&self, kind: SyntaxKind) -> Option<SyntaxNode<'t>>
        ensures { result ≡ find (is_of_kind kind) (drop 1 (nodes_in (siblings_of direction.Next self.now))) }
    {
        let mut nodes = self.siblings(Direction::Next);
        let _this = nodes.next();
        first_node(nodes, kind)
    }

    /// Returns the previous sibling node of a kind.
    pub fn prev_sibling_by_kind(&self, kind: SyntaxKind) -> Option<SyntaxNode<'t>>
        ensures { result ≡ find (is_of_kind kind) (drop 1 (nodes_in (siblings_of direction.Prev self.now))) }
    {
        let mut nodes = self.siblings(Direction::Prev);
        let _this = nodes.next();
        first_node(nodes, kind)
    }

    /// Returns the next sibling of a kind, node or token.
    pub fn next_sibling_or_token_by_kind(&self, kind: SyntaxKind) -> Option<SyntaxElement<'t>>
        ensures { option_map spot_of result ≡ find (is_spot_of_kind kind) (drop 1 (siblings_of direction.Next self.now)) }
    {
        let mut elements = self.siblings_with_tokens(Direction::Next);
        let _this = elements.next();
        first_element(elements, kind)
    }

    /// Returns the previous sibling of a kind, node or token.
    pub fn prev_sibling_or_token_by_kind(&self, kind: SyntaxKind) -> Option<SyntaxElement<'t>>
        ensures { option_map spot_of result ≡ find (is_spot_of_kind kind) (drop 1 (siblings_of direction.Prev self.now)) }
    {
        let mut elements = self.siblings_with_tokens(Direction::Prev);
        let _this = elements.next();
        first_element(elements, kind)
    }
}
