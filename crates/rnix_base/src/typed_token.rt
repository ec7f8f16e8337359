//! Tokens of certain kinds.

ghost use Rattle.std.specs.Prelude.{◌≡◌, Bool, true};
ghost use Rattle.rnix_kinds.specs.declared.kinds.SyntaxKind.{SyntaxKind};
ghost use Rattle.rnix_base.specs.Select.{has_kind};

use crate::token::AstToken;
use rnix_kinds::SyntaxKind;
use rnix_tree::SyntaxToken;
use std::fmt;
use std::marker::{Model, PhantomData};

/// The kinds and the name of a type of tokens.
pub trait TokenType: Drop {
    ghost kinds: { SyntaxKind → Bool };

    /// The name of the type, as `{:?}` prints it.
    const NAME: &'static str;

    /// Returns whether the kind is one of the type's.
    fn has_kind(kind: SyntaxKind) -> bool
        ensures { result ≡ kinds kind };
}

/// A token of certain kinds. `Comment`, `Integer` and the other types of tokens are aliases of it.
#[derive(Drop)]
#[derive_where(Clone, PartialEq, Eq, Hash)]
pub struct TypedToken<'t, K: TokenType> {
    pub(crate) syntax: SyntaxToken<'t>,
    of: PhantomData<K>,
}

impl<'t, K: TokenType> Model for TypedToken<'t, K> {
    ghost use Rattle.std.specs.Prelude.{◌≡◌, true};
    ghost use Rattle.rnix_green.specs.Tree.{Located, located_code};
    ghost use Rattle.rnix_base.specs.Select.{has_kind};

    ghost Value = { Located };

    ghost coded = { located_code };

    ghost view = { λ t. t.syntax };

    ghost inverse = { λ e. record { syntax = e; of = record {} } };

    ghost invariant = { λ t. has_kind K.kinds t.syntax ≡ true };
}

impl<'t, K: TokenType> AstToken<'t> for TypedToken<'t, K> {
    ghost kinds = { K.kinds };

    ghost token = { λ t. t };

    fn can_cast(kind: SyntaxKind) -> bool
        ensures { result ≡ K.kinds kind }
    {
        K::has_kind(kind)
    }

    fn cast(syntax: SyntaxToken<'t>) -> Option<Self> {
        if Self::can_cast(syntax.kind()) {
            Some(TypedToken {
                syntax,
                of: PhantomData,
            })
        } else {
            None
        }
    }

    fn syntax(&self) -> &SyntaxToken<'t> {
        &self.syntax
    }
}

impl<'t, K: TokenType> fmt::Display for TypedToken<'t, K> {
    ghost use Rattle.std.specs.Prelude.{Some};
    ghost use Rattle.rnix_green.specs.Tree.{text_at};

    ghost output = { λ token. Some (text_at token) };

    fn fmt<W: fmt::Write>(&self, f: &mut fmt::Formatter<W>) -> fmt::Result {
        f.write_str(self.syntax.text())
    }
}

impl<'t, K: TokenType> fmt::Debug for TypedToken<'t, K> {
    fn fmt<W: fmt::Write>(&self, f: &mut fmt::Formatter<W>) -> fmt::Result {
        f.debug_struct(K::NAME)
            .field("syntax", &self.syntax)
            .finish()
    }
}

impl<'t, K: TokenType> TypedToken<'t, K> {
    /// Returns a copy, without allocating.
    pub fn clone(&self) -> Self
        ensures { result ≡ self.now }
    {
        TypedToken {
            syntax: self.syntax.clone(),
            of: PhantomData,
        }
    }
}
