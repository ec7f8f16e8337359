//! A node and everything inside it, in preorder.

use crate::element::{NodeOrToken, SyntaxElement, element_at};
use crate::node::SyntaxNode;
use rnix_green::GreenNode;
use std::marker::Model;

/// An iterator over a node and everything inside it, nodes and tokens, in preorder.
#[derive(Drop)]
pub struct DescendantsWithTokens<'t> {
    pub(crate) green: &'t GreenNode,
    pub(crate) next: usize,
    pub(crate) end: usize,
}

impl<'t> Model for DescendantsWithTokens<'t> {
    ghost use Rattle.std.specs.Prelude.{List, ◌≤◌, ◌-◌, length, map};
    ghost use Rattle.rnix_green.specs.Tree.{items_of};
    ghost use Rattle.rnix_green.specs.Walk.{Spot, spots_code, spot_at, counted};

    ghost Value = { List Spot };

    ghost coded = { spots_code };

    ghost view = { λ s. map (spot_at s.green.now) (counted s.next (s.end - s.next)) };

    ghost invariant = { λ s. s.end ≤ length (items_of s.green.now) };
}

impl<'t> Iterator for DescendantsWithTokens<'t> {
    type Item = SyntaxElement<'t>;

    ghost use Rattle.std.specs.Iterator.{YieldsFirstBy, item_count};
    ghost use Rattle.rnix_tree.specs.Spots.{spot_of};

    ghost next_gives = { YieldsFirstBy spot_of (λ s. s) };

    ghost remaining = { item_count (λ s. s) };

    fn next(&mut self) -> Option<SyntaxElement<'t>> {
        let number = self.next;
        if number < self.end {
            self.next = number + 1;
            Some(element_at(self.green, number))
        } else {
            None
        }
    }
}

/// An iterator over a node and all nodes inside it, in preorder.
#[derive(Drop)]
pub struct Descendants<'t> {
    pub(crate) elements: DescendantsWithTokens<'t>,
}

impl<'t> Model for Descendants<'t> {
    ghost use Rattle.std.specs.Prelude.{List};
    ghost use Rattle.std.specs.Coded.{coded_list};
    ghost use Rattle.rnix_green.specs.Tree.{Located, located_code};
    ghost use Rattle.rnix_green.specs.Walk.{nodes_in};

    ghost Value = { List Located };

    ghost coded = { coded_list located_code };

    ghost view = { λ c. nodes_in c.elements };
}

impl<'t> Iterator for Descendants<'t> {
    type Item = SyntaxNode<'t>;

    ghost use Rattle.std.specs.Iterator.{YieldsFirstBy, item_count};

    ghost next_gives = { YieldsFirstBy (λ node. node) (λ s. s) };

    ghost remaining = { item_count (λ s. s) };

    fn next(&mut self) -> Option<SyntaxNode<'t>> {
        while let Some(element) = self.elements.next() {
            if let NodeOrToken::Node(node) = element {
                return Some(node);
            }
        }
        None
    }
}
