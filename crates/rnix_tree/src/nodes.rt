//! Iterators over nodes, without tokens.

ghost use Rattle.std.specs.Prelude.{◌≡◌, ◌≤◌, length};
ghost use Rattle.rnix_green.specs.Walk.{from_leaving, node_events};

use crate::element::{NodeOrToken, WalkEvent};
use crate::node::SyntaxNode;
use crate::walk::{PreorderWithTokens, SyntaxElementChildren};
use std::marker::Model;

/// An iterator over the child nodes, in order.
#[derive(Drop)]
pub struct SyntaxNodeChildren<'t> {
    pub(crate) elements: SyntaxElementChildren<'t>,
}

impl<'t> Model for SyntaxNodeChildren<'t> {
    ghost use Rattle.std.specs.Prelude.{List};
    ghost use Rattle.std.specs.Coded.{coded_list};
    ghost use Rattle.rnix_green.specs.Tree.{Located, located_code};
    ghost use Rattle.rnix_green.specs.Walk.{nodes_in};

    ghost Value = { List Located };

    ghost coded = { coded_list located_code };

    ghost view = { λ c. nodes_in c.elements };
}

impl<'t> Iterator for SyntaxNodeChildren<'t> {
    type Item = SyntaxNode<'t>;

    ghost use Rattle.std.specs.Iterator.{YieldsFirstBy, item_count};

    ghost next_gives = { YieldsFirstBy (λ node. node) (λ s. s) };

    ghost remaining = { item_count (λ s. s) };

    fn next(&mut self) -> Option<SyntaxNode<'t>> {
        while let Some(element) = self.elements.next() {
            if let NodeOrToken::Node(node) = element {
                return Some(node);
            }
        }
        None
    }
}

/// A walk that enters and leaves each node, in preorder.
#[derive(Drop)]
pub struct Preorder<'t> {
    pub(crate) events: PreorderWithTokens<'t>,
}

impl<'t> Model for Preorder<'t> {
    ghost use Rattle.std.specs.Prelude.{List};
    ghost use Rattle.rnix_green.specs.Walk.{Event, events_code};

    ghost Value = { List Event };

    ghost coded = { events_code };

    ghost view = { λ w. w.events };
}

impl<'t> Preorder<'t> {
    /// Skips the rest of the innermost open node, one that was entered and not left: the next event leaves it. If none is open, the walk ends.
    pub fn skip_subtree(&mut self)
        ensures walk { self.new ≡ from_leaving 0 self.old }
        ensures shorter { length (node_events self.new) ≤ length (node_events self.old) }
    {
        self.events.skip_subtree();
    }
}

impl<'t> Iterator for Preorder<'t> {
    type Item = WalkEvent<SyntaxNode<'t>>;

    ghost use Rattle.std.specs.Iterator.{YieldsFirstBy, item_count};
    ghost use Rattle.rnix_tree.specs.Spots.{node_event_of};
    ghost use Rattle.rnix_green.specs.Walk.{node_events};

    ghost next_gives = { YieldsFirstBy node_event_of node_events };

    ghost remaining = { item_count node_events };

    fn next(&mut self) -> Option<WalkEvent<SyntaxNode<'t>>> {
        while let Some(event) = self.events.next() {
            match event {
                WalkEvent::Enter(NodeOrToken::Node(node)) => return Some(WalkEvent::Enter(node)),
                WalkEvent::Leave(NodeOrToken::Node(node)) => return Some(WalkEvent::Leave(node)),
                _ => {}
            }
        }
        None
    }
}
