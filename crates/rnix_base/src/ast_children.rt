//! The children of a type.

use crate::node::AstNode;
use rnix_tree::SyntaxNodeChildren;
use std::marker::{Model, PhantomData};

/// An iterator over the child nodes that cast to `T`, in order.
#[derive(Drop)]
pub struct AstChildren<'t, T> {
    pub(crate) nodes: SyntaxNodeChildren<'t>,
    pub(crate) cast: PhantomData<T>,
}

impl<'t, T> Model for AstChildren<'t, T> {
    ghost use Rattle.std.specs.Prelude.{List};
    ghost use Rattle.std.specs.Coded.{coded_list};
    ghost use Rattle.rnix_green.specs.Tree.{Located, located_code};

    ghost Value = { List Located };

    ghost coded = { coded_list located_code };

    ghost view = { λ c. c.nodes };
}

impl<'t, T: AstNode<'t>> Iterator for AstChildren<'t, T> {
    type Item = T;

    ghost use Rattle.std.specs.Iterator.{YieldsFirstBy, item_count};
    ghost use Rattle.rnix_base.specs.Select.{those_of};

    ghost next_gives = { YieldsFirstBy T.node (those_of T.kinds) };

    ghost remaining = { item_count (those_of T.kinds) };

    fn next(&mut self) -> Option<T> {
        while let Some(node) = self.nodes.next() {
            if let Some(value) = T::cast(node) {
                return Some(value);
            }
        }
        None
    }
}
