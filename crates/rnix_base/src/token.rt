//! Typed tokens.

ghost use Rattle.std.specs.Prelude.{◌≡◌, Bool, true, is_some, IfSome};
ghost use Rattle.rnix_kinds.specs.declared.kinds.SyntaxKind.{SyntaxKind};
ghost use Rattle.rnix_green.specs.Tree.{Located, item_of};

use rnix_kinds::SyntaxKind;
use rnix_tree::SyntaxToken;

/// A type of tokens: its values are the tokens of certain kinds.
pub trait AstToken<'t>: Sized + Drop {
    ghost kinds: { SyntaxKind → Bool };

    ghost token: { Self → Located };

    /// Returns whether the kind is one of the type's.
    fn can_cast(kind: SyntaxKind) -> bool
        ensures { result ≡ kinds kind };

    /// Casts a token; returns a value exactly if the token's kind is one of the type's.
    fn cast(syntax: SyntaxToken<'t>) -> Option<Self>
        ensures some { is_some result ≡ kinds (item_of syntax.entry).kind }
        ensures same { IfSome result (λ value. token value ≡ syntax.entry) };

    /// Returns the token that was cast. Its kind is one of the type's.
    fn syntax(&self) -> &SyntaxToken<'t>
        ensures token { result.now ≡ token self.now }
        ensures kind { kinds (item_of result.now).kind ≡ true };
}
