//! Pointers to nodes that borrow nothing.

ghost use Rattle.std.specs.Prelude.{◌≡◌};
ghost use Rattle.std.specs.Bool.{Decides};
ghost use Rattle.rnix_green.specs.Range.{bounds_of};
ghost use Rattle.rnix_green.specs.Kept.{item_from};
ghost use Rattle.rnix_tree.specs.Pointer.{address_of, address_in, fits, HasNode, IsFoundIn, FindsItsNode};

use crate::node::SyntaxNode;
use rnix_green::{Element, GreenNode, TextRange};
use rnix_kinds::SyntaxKind;

/// A pointer to a node: its number in preorder, its kind and its range. It outlives the tree and finds the node again in the same tree
/// or an equal one. It compares and hashes in constant time.
#[derive(Clone, Copy, Debug, PartialEq, Eq, Hash)]
pub struct SyntaxNodePtr {
    number: usize,
    kind: SyntaxKind,
    range: TextRange,
}

// Returns whether the element is a node of the pointer's kind and range.
fn fits(element: Element, pointer: SyntaxNodePtr) -> bool
    ensures { result ≡ fits (item_from element) (address_in pointer) }
{
    element.is_node
        && element.kind == pointer.kind
        && element.start == pointer.range.start()
        && element.end == pointer.range.end()
}

// Returns whether the tree has a node of the pointer's number, kind and range.
fn has_node(green: &GreenNode, pointer: SyntaxNodePtr) -> bool
    ensures { Decides result (HasNode green.now (address_in pointer)) }
{
    pointer.number < green.element_count() && fits(green.element(pointer.number), pointer)
}

impl SyntaxNodePtr {
    /// Returns the pointer to a node.
    pub fn new(node: &SyntaxNode<'_>) -> Self
        ensures { address_in result ≡ address_of node.now }
    {
        SyntaxNodePtr {
            number: node.number,
            kind: node.kind(),
            range: node.text_range(),
        }
    }

    /// Returns the node's kind.
    pub fn kind(self) -> SyntaxKind
        ensures { result ≡ (address_in self).kind }
    {
        self.kind
    }

    /// Returns the node's range in the text, in bytes.
    pub fn text_range(self) -> TextRange
        ensures { bounds_of result ≡ (address_in self).extent }
    {
        self.range
    }

    /// Returns the node in the tree of `root`, which may be any node of it: the node that the pointer was made from if the trees are
    /// equal, and `None` if no node has the pointer's number, kind and range.
    pub fn try_to_node<'t>(self, root: &SyntaxNode<'t>) -> Option<SyntaxNode<'t>>
        ensures found { IsFoundIn root.now.tree (address_in self) result }
        ensures same { FindsItsNode root.now.tree (address_in self) result }
    {
        if has_node(root.green, self) {
            Some(SyntaxNode {
                green: root.green,
                number: self.number,
            })
        } else {
            None
        }
    }
}
