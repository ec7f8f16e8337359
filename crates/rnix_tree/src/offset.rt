//! The tokens at an offset.

ghost use Rattle.std.specs.Prelude.{◌≡◌, ◌<◌, ◌≤◌, ℕ};
ghost use Rattle.rnix_green.specs.Tree.{item, item_of};
ghost use Rattle.rnix_green.specs.Relatives.{IsNodeIn};
ghost use Rattle.rnix_tree.specs.Offset.{AreTouched, IsHolding, left_of, right_of, ForTokens, MapsTokens};

use crate::node::SyntaxNode;
use crate::token::SyntaxToken;
use rnix_green::{GreenNode, TextSize};
use std::mem;

/// The tokens at an offset: two if one ends where the other begins.
#[derive(Clone, Debug, Drop)]
pub enum TokenAtOffset<T> {
    None,
    Single(T),
    Between(T, T),
}

impl<T> TokenAtOffset<T> {
    /// Applies `f` to each token.
    pub fn map<F: Fn(T) -> U, U>(self, f: F) -> TokenAtOffset<U>
        requires { ForTokens (F.pre f) self }
        ensures { MapsTokens (F.post f) self result }
    {
        match self {
            TokenAtOffset::None => TokenAtOffset::None,
            TokenAtOffset::Single(token) => TokenAtOffset::Single(f(token)),
            TokenAtOffset::Between(left, right) => TokenAtOffset::Between(f(left), f(right)),
        }
    }
}

impl<T: Drop> Iterator for TokenAtOffset<T> {
    type Item = T;

    ghost use Rattle.std.specs.Iterator.{YieldsFirst, item_count};
    ghost use Rattle.rnix_tree.specs.Offset.{tokens_of};

    ghost next_gives = { YieldsFirst tokens_of };

    ghost remaining = { item_count tokens_of };

    fn next(&mut self) -> Option<T> {
        match mem::replace(self, TokenAtOffset::None) {
            TokenAtOffset::None => None,
            TokenAtOffset::Single(token) => Some(token),
            TokenAtOffset::Between(left, right) => {
                *self = TokenAtOffset::Single(right);
                Some(left)
            }
        }
    }
}

impl<T: Drop> TokenAtOffset<T> {
    /// Returns the token, or the left one of two.
    pub fn left_biased(self) -> Option<T>
        ensures { result ≡ left_of self }
    {
        match self {
            TokenAtOffset::None => None,
            TokenAtOffset::Single(token) => Some(token),
            TokenAtOffset::Between(left, _) => Some(left),
        }
    }

    /// Returns the token, or the right one of two.
    pub fn right_biased(self) -> Option<T>
        ensures { result ≡ right_of self }
    {
        match self {
            TokenAtOffset::None => None,
            TokenAtOffset::Single(token) => Some(token),
            TokenAtOffset::Between(_, right) => Some(right),
        }
    }
}

/// Returns the token inside the node that contains the byte before the offset: the last element that starts before the offset.
pub(crate) fn token_before(green: &GreenNode, number: usize, offset: usize) -> usize
    requires node { IsNodeIn green.now number }
    requires low { (item green.now number).start < offset }
    requires high { offset ≤ (item green.now number).end }
    ensures token { IsHolding record { tree = green.now; number = number } offset result }
    ensures only { (m : ℕ) → IsHolding record { tree = green.now; number = number } offset m → m ≡ result }
{
    let element = green.element(number);
    green.first_from(number, number + 1 + element.below, offset) - 1
}

impl<'t> SyntaxNode<'t> {
    /// Returns the tokens inside the node that contain or touch the offset. Empty tokens are left out.
    pub fn token_at_offset(&self, offset: TextSize) -> TokenAtOffset<SyntaxToken<'t>>
        ensures { AreTouched self.now offset result }
    {
        let element = self.green.element(self.number);
        if offset < element.start || element.end < offset || element.start == element.end {
            TokenAtOffset::None
        } else {
            self.tokens_inside(offset)
        }
    }

    // Returns the tokens at an offset of a node that is not empty.
    fn tokens_inside(&self, offset: TextSize) -> TokenAtOffset<SyntaxToken<'t>>
        requires some { (item_of self.now).start < (item_of self.now).end }
        requires low { (item_of self.now).start ≤ offset }
        requires high { offset ≤ (item_of self.now).end }
        ensures { AreTouched self.now offset result }
    {
        let (green, range) = (self.green, self.text_range());
        if offset == range.start() {
            let number = token_before(green, self.number, offset + 1);
            return TokenAtOffset::Single(SyntaxToken { green, number });
        }
        let left = token_before(green, self.number, offset);
        if offset == range.end() {
            return TokenAtOffset::Single(SyntaxToken {
                green,
                number: left,
            });
        }
        let right = token_before(green, self.number, offset + 1);
        let left = SyntaxToken {
            green,
            number: left,
        };
        if left.number == right {
            TokenAtOffset::Single(left)
        } else {
            TokenAtOffset::Between(
                left,
                SyntaxToken {
                    green,
                    number: right,
                },
            )
        }
    }
}
