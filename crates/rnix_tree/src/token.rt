//! Tokens of a tree.

ghost use Rattle.std.specs.Prelude.{◌≡◌};
ghost use Rattle.rnix_green.specs.Range.{bounds_of};
ghost use Rattle.rnix_green.specs.Tree.{item_of, extent_of, text_at};

use rnix_green::{GreenNode, TextRange};
use rnix_kinds::SyntaxKind;
use std::marker::Model;

/// A token, which borrows its tree. `==` on two tokens with the same number compares their whole trees, even if both borrow the same one.
#[derive(Clone, Drop)]
pub struct SyntaxToken<'t> {
    pub(crate) green: &'t GreenNode,
    pub(crate) number: usize,
}

impl<'t> Model for SyntaxToken<'t> {
    ghost use Rattle.rnix_green.specs.Tree.{Located, located_code, IsTokenAt};

    ghost Value = { Located };

    ghost coded = { located_code };

    ghost view = { λ n. record { tree = n.green.now; number = n.number } };

    ghost invariant = { λ n. IsTokenAt record { tree = n.green.now; number = n.number } };
}

impl<'t> SyntaxToken<'t> {
    /// Returns a copy, without allocating: a reference and a number.
    pub fn clone(&self) -> Self
        ensures { result ≡ self.now }
    {
        SyntaxToken {
            green: self.green,
            number: self.number,
        }
    }

    /// Returns the token's kind.
    pub fn kind(&self) -> SyntaxKind
        ensures { result ≡ (item_of self.now).kind }
    {
        self.green.element(self.number).kind
    }

    /// Returns the token's range in the text, in bytes.
    pub fn text_range(&self) -> TextRange
        ensures { bounds_of result ≡ extent_of self.now }
    {
        let element = self.green.element(self.number);
        TextRange::new(element.start, element.end)
    }

    /// Returns the token's text, a slice of the tree's text.
    pub fn text(&self) -> &'t str
        ensures { result.now ≡ text_at self.now }
    {
        self.green.text_at(self.number)
    }
}
