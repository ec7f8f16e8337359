//! The parts of a string or of a path: texts, and interpolations between them.

ghost use Rattle.std.specs.Prelude.{◌≡◌, ◌<◌, ◌^◌, length, map, IfOk};
ghost use Rattle.rnix_base.specs.Parts.{part_of, parts_of, parts_below, is_indented, texts_below};

use crate::node::AstNode;
use crate::token::AstToken;
use rnix_tree::{NodeOrToken, SyntaxElementChildren, SyntaxNode};
use std::alloc::{AllocError, Global};
use std::marker::{Model, PhantomData};

/// A part of a string or of a path.
#[derive(Clone, Debug, PartialEq, Eq, Hash, Drop)]
pub enum InterpolPart<T, I> {
    /// A text.
    Literal(T),
    /// An interpolation: an expression between `${` and `}`.
    Interpolation(I),
}

/// An iterator over the child tokens that cast to `T` and the child nodes that cast to `I`, in order.
#[derive(Drop)]
pub struct InterpolParts<'t, T, I> {
    pub(crate) elements: SyntaxElementChildren<'t>,
    pub(crate) literals: PhantomData<T>,
    pub(crate) interpolations: PhantomData<I>,
}

impl<'t, T, I> Model for InterpolParts<'t, T, I> {
    ghost use Rattle.std.specs.Prelude.{List};
    ghost use Rattle.rnix_green.specs.Walk.{Spot, spots_code};

    ghost Value = { List Spot };

    ghost coded = { spots_code };

    ghost view = { λ p. p.elements };
}

impl<'t, T: AstToken<'t>, I: AstNode<'t>> Iterator for InterpolParts<'t, T, I> {
    type Item = InterpolPart<T, I>;

    ghost use Rattle.std.specs.Iterator.{YieldsFirstBy, item_count};
    ghost use Rattle.rnix_base.specs.Parts.{part_of, parts_of};

    ghost next_gives = { YieldsFirstBy (part_of T.token I.node) (parts_of T.kinds I.kinds) };

    ghost remaining = { item_count (parts_of T.kinds I.kinds) };

    fn next(&mut self) -> Option<InterpolPart<T, I>> {
        while let Some(element) = self.elements.next() {
            match element {
                NodeOrToken::Token(token) => {
                    if let Some(literal) = T::cast(token) {
                        return Some(InterpolPart::Literal(literal));
                    }
                }
                NodeOrToken::Node(node) => {
                    if let Some(interpolation) = I::cast(node) {
                        return Some(InterpolPart::Interpolation(interpolation));
                    }
                }
            }
        }
        None
    }
}

/// Returns the child tokens that cast to `T` and the child nodes that cast to `I`, in order.
#[tactic(auto, using(crate::proofs::SelectLemmas::parts_fit))]
pub fn parts_in<'t, T: AstToken<'t>, I: AstNode<'t>>(
    parent: &SyntaxNode<'t>,
) -> InterpolParts<'t, T, I>
    ensures parts { parts_of T.kinds I.kinds result ≡ parts_below T.kinds I.kinds parent.now }
    ensures fits { length (parts_of T.kinds I.kinds result) < 2 ^ 64 }
{
    InterpolParts {
        elements: parent.children_with_tokens(),
        literals: PhantomData,
        interpolations: PhantomData,
    }
}

/// Collects the parts in a vector.
pub fn all_parts<'t, T: AstToken<'t>, I: AstNode<'t>>(
    alloc: Global,
    parent: &SyntaxNode<'t>,
) -> Result<Vec<InterpolPart<T, I>>, AllocError>
    ensures { IfOk result (λ all. map (part_of T.token I.node) all.items ≡ parts_below T.kinds I.kinds parent.now) }
{
    let mut parts = parts_in::<T, I>(parent);
    let mut all = Vec::new(alloc);
    while let Some(part) = parts.next() {
        all.push(part)?;
    }
    Ok(all)
}

/// Collects the parts in a vector, with the texts of the tokens.
pub fn text_parts<'t, T: AstToken<'t>, I: AstNode<'t>>(
    alloc: Global,
    parent: &SyntaxNode<'t>,
) -> Result<Vec<InterpolPart<&'t str, I>>, AllocError>
    ensures { IfOk result (λ ps. map (part_of (λ t. t.now) I.node) ps.items ≡ texts_below T.kinds I.kinds parent.now) }
{
    let mut parts = parts_in::<T, I>(parent);
    let mut all = Vec::new(alloc);
    while let Some(part) = parts.next() {
        match part {
            InterpolPart::Literal(literal) => {
                let text = literal.syntax().text();
                all.push(InterpolPart::Literal(text))?;
            }
            InterpolPart::Interpolation(interpolation) => {
                all.push(InterpolPart::Interpolation(interpolation))?;
            }
        }
    }
    Ok(all)
}

/// Returns whether the node's first token is `''`.
pub fn is_indented(parent: &SyntaxNode<'_>) -> bool
    ensures { result ≡ is_indented parent.now }
{
    let mut elements = parent.children_with_tokens();
    while let Some(element) = elements.next() {
        if let NodeOrToken::Token(token) = element {
            return token.text() == "''";
        }
    }
    false
}
