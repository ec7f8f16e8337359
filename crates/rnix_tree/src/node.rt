//! Nodes of a tree.

ghost use Rattle.std.specs.Prelude.{◌≡◌, ◌<◌, ◌^◌, length};
ghost use Rattle.rnix_green.specs.Forest.{element_count};
ghost use Rattle.rnix_tree.specs.InsideCounts.{inside_count};
ghost use Rattle.rnix_green.specs.Range.{bounds_of};
ghost use Rattle.rnix_green.specs.Tree.{item_of, extent_of, text_at, part_at};
ghost use Rattle.rnix_green.specs.Walk.{children_of, preorder_of, nodes_in, elements_of, node_events, ancestors_of};

use crate::ancestors::Ancestors;
use crate::descendants::{Descendants, DescendantsWithTokens};
use crate::nodes::{Preorder, SyntaxNodeChildren};
use crate::walk::{PreorderWithTokens, SyntaxElementChildren};
use rnix_green::{GreenNode, TextRange};
use rnix_kinds::SyntaxKind;
use std::marker::Model;

/// A node, which borrows its tree. `==` on two nodes with the same number compares their whole trees, even if both borrow the same one;
/// a `SyntaxNodePtr` compares and hashes in constant time.
#[derive(Clone, Drop)]
pub struct SyntaxNode<'t> {
    pub(crate) green: &'t GreenNode,
    pub(crate) number: usize,
}

impl<'t> Model for SyntaxNode<'t> {
    ghost use Rattle.rnix_green.specs.Tree.{Located, located_code, IsNodeAt};

    ghost Value = { Located };

    ghost coded = { located_code };

    ghost view = { λ n. record { tree = n.green.now; number = n.number } };

    ghost invariant = { λ n. IsNodeAt record { tree = n.green.now; number = n.number } };
}

impl<'t> SyntaxNode<'t> {
    /// Returns the root of a tree.
    pub fn new_root(green: &'t GreenNode) -> Self
        ensures { result ≡ record { tree = green.now; number = 0 } }
    {
        SyntaxNode { green, number: 0 }
    }

    /// Returns a copy, without allocating: a reference and a number.
    pub fn clone(&self) -> Self
        ensures { result ≡ self.now }
    {
        SyntaxNode {
            green: self.green,
            number: self.number,
        }
    }

    /// Returns the node's number: how many nodes and tokens of the tree begin before it, where a node begins before those inside it.
    pub fn number(&self) -> usize
        ensures { result ≡ self.now.number }
    {
        self.number
    }

    /// Returns the node's kind.
    pub fn kind(&self) -> SyntaxKind
        ensures { result ≡ (item_of self.now).kind }
    {
        self.green.element(self.number).kind
    }

    /// Returns the node's range in the text, in bytes.
    pub fn text_range(&self) -> TextRange
        ensures { bounds_of result ≡ extent_of self.now }
    {
        let element = self.green.element(self.number);
        TextRange::new(element.start, element.end)
    }

    /// Returns the node's text, a slice of the tree's text.
    pub fn text(&self) -> &'t str
        ensures { result.now ≡ text_at self.now }
    {
        self.green.text_at(self.number)
    }

    /// Returns the number of nodes and tokens inside the node, not counting itself. It is smaller for each child, so it can be a recursion's measure.
    pub fn inside_count(&self) -> usize
        ensures { result ≡ inside_count self.now }
    {
        self.green.element(self.number).below
    }

    /// Returns the children, nodes and tokens, in order.
    pub fn children_with_tokens(&self) -> SyntaxElementChildren<'t>
        ensures children { result ≡ children_of self.now }
        ensures fits { length result < 2 ^ 64 }
    {
        let element = self.green.element(self.number);
        SyntaxElementChildren {
            green: self.green,
            next: self.number + 1,
            end: self.number + 1 + element.below,
        }
    }

    /// Returns the child nodes, in order.
    pub fn children(&self) -> SyntaxNodeChildren<'t>
        ensures children { result ≡ nodes_in (children_of self.now) }
        ensures fits { length result < 2 ^ 64 }
    {
        SyntaxNodeChildren {
            elements: self.children_with_tokens(),
        }
    }

    /// Returns the node and its ancestors, innermost first.
    pub fn ancestors(&self) -> Ancestors<'t>
        ensures ancestors { result ≡ ancestors_of self.now }
        ensures fits { length result < 2 ^ 64 }
    {
        // This call has no effect. Its contract bounds the number of elements.
        let _element = self.green.element(self.number);
        Ancestors {
            green: self.green,
            next: Some(self.number),
        }
    }

    /// Returns the node and everything inside it, nodes and tokens, in preorder.
    pub fn descendants_with_tokens(&self) -> DescendantsWithTokens<'t>
        ensures elements { result ≡ elements_of self.now }
        ensures fits { length result < 2 ^ 64 }
    {
        let element = self.green.element(self.number);
        DescendantsWithTokens {
            green: self.green,
            next: self.number,
            end: self.number + 1 + element.below,
        }
    }

    /// Returns the node and all nodes inside it, in preorder.
    pub fn descendants(&self) -> Descendants<'t>
        ensures nodes { result ≡ nodes_in (elements_of self.now) }
        ensures fits { length result < 2 ^ 64 }
    {
        Descendants {
            elements: self.descendants_with_tokens(),
        }
    }

    /// Returns a walk that enters and leaves the node and each node inside it.
    pub fn preorder(&self) -> Preorder<'t>
        ensures walk { result ≡ preorder_of self.now }
        ensures fits { length (node_events result) < 2 ^ 64 }
    {
        Preorder {
            events: self.preorder_with_tokens(),
        }
    }

    /// Returns a walk that enters and leaves the node and each node and token inside it.
    pub fn preorder_with_tokens(&self) -> PreorderWithTokens<'t>
        ensures walk { result ≡ preorder_of self.now }
        ensures count { element_count (part_at self.now) < 2 ^ 64 }
        ensures fits { length result < 2 ^ 64 }
    {
        // This call has no effect. Its contract bounds the number of elements.
        let _element = self.green.element(self.number);
        PreorderWithTokens::new(self.green, self.number)
    }
}
