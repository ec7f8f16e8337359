//! Pointers to typed nodes.

ghost use Rattle.std.specs.Prelude.{◌≡◌, true, is_some, option_map, IfSome};
ghost use Rattle.rnix_tree.specs.Pointer.{address_of, address_in};
ghost use Rattle.rnix_base.specs.TypedPointer.{address_under, IsTypedIn, FindsTyped};

use crate::node::AstNode;
use rnix_tree::{SyntaxNode, SyntaxNodePtr};
use std::marker::PhantomData;

/// Names a type of nodes without the lifetime of their tree.
pub trait Pointee<'t> {
    /// The type of nodes of a tree with that lifetime.
    type Node: AstNode<'t>;
}

/// A pointer to a typed node: a `SyntaxNodePtr` with the type.
#[derive_where(Clone, Copy, Debug, PartialEq, Eq, Hash)]
pub struct AstPtr<T> {
    raw: SyntaxNodePtr,
    pointee: PhantomData<T>,
}

impl<T> AstPtr<T> {
    /// Returns the pointer to a typed node.
    pub fn new<'t>(node: &T::Node) -> Self
    where
        T: Pointee<'t>,
        ensures address { address_under result ≡ address_of (T.Node.node node.now) }
        ensures kind { T.Node.kinds (address_under result).kind ≡ true }
    {
        AstPtr {
            raw: SyntaxNodePtr::new(node.syntax()),
            pointee: PhantomData,
        }
    }

    /// Returns the untyped pointer.
    pub fn syntax_node_ptr(self) -> SyntaxNodePtr
        ensures { address_in result ≡ address_under self }
    {
        self.raw
    }

    /// Casts the pointer; returns a value exactly if the node's kind is one of the other type's.
    pub fn cast<'t, U: Pointee<'t>>(self) -> Option<AstPtr<U>>
        ensures some { is_some result ≡ U.Node.kinds (address_under self).kind }
        ensures same { IfSome result (λ pointer. address_under pointer ≡ address_under self) }
    {
        if U::Node::can_cast(self.raw.kind()) {
            Some(AstPtr {
                raw: self.raw,
                pointee: PhantomData,
            })
        } else {
            None
        }
    }

    /// Returns the typed node in the tree of `root`, which may be any node of it: the node that the pointer was made from if the trees are
    /// equal, and `None` if no node of the type has the pointer's number, kind and range.
    pub fn try_to_node<'t>(self, root: &SyntaxNode<'t>) -> Option<T::Node>
    where
        T: Pointee<'t>,
        ensures found { IsTypedIn T.Node.kinds root.now.tree (address_under self) (option_map T.Node.node result) }
        ensures same { FindsTyped T.Node.kinds root.now.tree (address_under self) (option_map T.Node.node result) }
    {
        T::Node::cast(self.raw.try_to_node(root)?)
    }
}
