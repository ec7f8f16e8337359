//! Ancestors of a node.

use crate::node::SyntaxNode;
use rnix_green::GreenNode;
use std::marker::Model;

/// An iterator over a node and its ancestors, innermost first.
#[derive(Drop)]
pub struct Ancestors<'t> {
    pub(crate) green: &'t GreenNode,
    pub(crate) next: Option<usize>,
}

impl<'t> Model for Ancestors<'t> {
    ghost use Rattle.std.specs.Prelude.{List};
    ghost use Rattle.std.specs.Coded.{coded_list};
    ghost use Rattle.rnix_green.specs.Tree.{Located, located_code};
    ghost use Rattle.rnix_tree.specs.Around.{IsNodeIfAny, ancestors_if};

    ghost Value = { List Located };

    ghost coded = { coded_list located_code };

    ghost view = { λ a. ancestors_if a.green.now a.next };

    ghost invariant = { λ a. IsNodeIfAny a.green.now a.next };
}

impl<'t> Iterator for Ancestors<'t> {
    type Item = SyntaxNode<'t>;

    ghost use Rattle.std.specs.Iterator.{YieldsFirstBy, item_count};

    ghost next_gives = { YieldsFirstBy (λ node. node) (λ s. s) };

    ghost remaining = { item_count (λ s. s) };

    fn next(&mut self) -> Option<SyntaxNode<'t>> {
        let Some(number) = self.next else {
            return None;
        };
        self.next = self.green.element(number).parent;
        Some(SyntaxNode {
            green: self.green,
            number,
        })
    }
}
