//! Nodes of one kind.

ghost use Rattle.std.specs.Prelude.{◌≡◌};
ghost use Rattle.rnix_kinds.specs.declared.kinds.SyntaxKind.{SyntaxKind};
ghost use Rattle.rnix_green.specs.Equality.{same_kind};
ghost use Rattle.rnix_base.specs.Select.{HasKind};

use rnix_base::AstNode;
use rnix_kinds::SyntaxKind;
use rnix_tree::SyntaxNode;
use std::fmt;
use std::marker::{Model, PhantomData};

/// A name for a kind of nodes, such as `pointee::LetIn`.
pub trait NodeType: Drop {
    ghost KIND: { SyntaxKind };

    /// The kind.
    const KIND: SyntaxKind;

    /// The name of the type of these nodes, as `{:?}` prints it.
    const NAME: &'static str;
}

/// A node of one kind. `LetIn` and the like are its names for each kind.
#[derive(Drop)]
#[derive_where(Clone, PartialEq, Eq, Hash)]
pub struct TypedNode<'t, K: NodeType> {
    pub(crate) syntax: SyntaxNode<'t>,
    of: PhantomData<K>,
}

impl<'t, K: NodeType> Model for TypedNode<'t, K> {
    ghost use Rattle.rnix_green.specs.Tree.{Located, located_code};
    ghost use Rattle.rnix_base.specs.Select.{HasKind};

    ghost Value = { Located };

    ghost coded = { located_code };

    ghost view = { λ n. n.syntax };

    ghost inverse = { λ e. record { syntax = e; of = record {} } };

    ghost invariant = { λ n. HasKind K.KIND n.syntax };
}

// Returns whether the kinds are equal.
fn same_kind(a: SyntaxKind, b: SyntaxKind) -> bool
    ensures { result ≡ same_kind a b }
{
    a == b
}

impl<'t, K: NodeType> AstNode<'t> for TypedNode<'t, K> {
    ghost kinds = { same_kind K.KIND };

    ghost node = { λ n. n };

    fn can_cast(kind: SyntaxKind) -> bool
        ensures { result ≡ same_kind K.KIND kind }
    {
        same_kind(K::KIND, kind)
    }

    fn cast(syntax: SyntaxNode<'t>) -> Option<Self> {
        if Self::can_cast(syntax.kind()) {
            Some(TypedNode::new(syntax))
        } else {
            None
        }
    }

    fn syntax(&self) -> &SyntaxNode<'t> {
        &self.syntax
    }
}

impl<'t, K: NodeType> fmt::Display for TypedNode<'t, K> {
    ghost use Rattle.std.specs.Prelude.{Some};
    ghost use Rattle.rnix_green.specs.Tree.{text_at};

    ghost output = { λ node. Some (text_at node) };

    fn fmt<W: fmt::Write>(&self, f: &mut fmt::Formatter<W>) -> fmt::Result {
        f.write_str(self.syntax.text())
    }
}

impl<'t, K: NodeType> fmt::Debug for TypedNode<'t, K> {
    fn fmt<W: fmt::Write>(&self, f: &mut fmt::Formatter<W>) -> fmt::Result {
        f.debug_struct(K::NAME)
            .field("syntax", &self.syntax)
            .finish()
    }
}

impl<'t, K: NodeType> TypedNode<'t, K> {
    // Returns the node, which has the kind.
    pub(crate) fn new(syntax: SyntaxNode<'t>) -> Self
        requires { HasKind K.KIND syntax }
        ensures { result ≡ syntax.entry }
    {
        TypedNode {
            syntax,
            of: PhantomData,
        }
    }

    /// Returns a copy, without allocating.
    pub fn clone(&self) -> Self
        ensures { result ≡ self.now }
    {
        TypedNode {
            syntax: self.syntax.clone(),
            of: PhantomData,
        }
    }
}
