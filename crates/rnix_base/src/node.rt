//! Typed nodes.

ghost use Rattle.std.specs.Prelude.{◌≡◌, Bool, true, is_some, IfSome};
ghost use Rattle.rnix_kinds.specs.declared.kinds.SyntaxKind.{SyntaxKind};
ghost use Rattle.rnix_green.specs.Tree.{Located, item_of};

use rnix_kinds::SyntaxKind;
use rnix_tree::SyntaxNode;

/// A type of nodes: its values are the nodes of certain kinds.
pub trait AstNode<'t>: Sized + Drop {
    ghost kinds: { SyntaxKind → Bool };

    ghost node: { Self → Located };

    /// Returns whether the kind is one of the type's.
    fn can_cast(kind: SyntaxKind) -> bool
        ensures { result ≡ kinds kind };

    /// Casts a node; returns a value exactly if the node's kind is one of the type's.
    fn cast(syntax: SyntaxNode<'t>) -> Option<Self>
        ensures some { is_some result ≡ kinds (item_of syntax.entry).kind }
        ensures same { IfSome result (λ value. node value ≡ syntax.entry) };

    /// Returns the node that was cast. Its kind is one of the type's.
    fn syntax(&self) -> &SyntaxNode<'t>
        ensures node { result.now ≡ node self.now }
        ensures kind { kinds (item_of result.now).kind ≡ true };
}
