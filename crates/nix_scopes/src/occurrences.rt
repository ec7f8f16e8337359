//! The name at an offset, and the occurrences of a binding.

ghost use Rattle.std.specs.Prelude.{◌≡◌, ◌++◌, map, IfOk, OnOk};
ghost use Rattle.rnix_green.specs.Range.{bounds_of};
ghost use Rattle.nix_scopes.specs.Occurrences.{identifier_of, IsNameAt, written_at, referred_at, occurrences_of};

use crate::resolution::{Binding, Reference, Resolution};
use rnix::{SyntaxKind, SyntaxNode, SyntaxToken, TextRange, TokenAtOffset};
use std::alloc::{AllocError, Global};

// Returns the identifier to which a token belongs, if it belongs to one.
fn identifier<'t>(token: &SyntaxToken<'t>) -> Option<SyntaxNode<'t>>
    ensures { result ≡ identifier_of token.now }
{
    let node = token.parent()?;
    if node.kind() == SyntaxKind::NODE_IDENT {
        Some(node)
    } else {
        None
    }
}

/// Returns the name at an offset or directly before it.
pub fn name_at<'t>(root: &SyntaxNode<'t>, offset: usize) -> Option<SyntaxNode<'t>>
    ensures { IsNameAt root.now offset result }
{
    match root.token_at_offset(offset) {
        TokenAtOffset::None => None,
        TokenAtOffset::Single(token) => identifier(&token),
        TokenAtOffset::Between(left, right) => match identifier(&right) {
            Some(node) => Some(node),
            None => identifier(&left),
        },
    }
}

// Adds the ranges at which the binding with a number is made.
fn add_written(
    bindings: &[Binding<'_>],
    number: usize,
    extents: &mut Vec<TextRange>,
) -> Result<(), AllocError>
    ensures { OnOk result (map bounds_of extents.new.items ≡ map bounds_of extents.old.items ++ written_at number bindings.now) }
{
    for binding in bindings {
        if binding.first == number {
            extents.push(binding.node.text_range())?;
        }
    }
    Ok(())
}

// Adds the ranges of the references to the binding with a number.
fn add_referred(
    references: &[Reference<'_>],
    number: usize,
    extents: &mut Vec<TextRange>,
) -> Result<(), AllocError>
    ensures { OnOk result (map bounds_of extents.new.items ≡ map bounds_of extents.old.items ++ referred_at number references.now) }
{
    for reference in references {
        if reference.binding == Some(number) {
            extents.push(reference.node.text_range())?;
        }
    }
    Ok(())
}

impl Resolution<'_> {
    /// Returns the ranges of the names that make the binding with a number, in each of its parts, and then of the references to it. The range of a quoted name
    /// includes the quotes.
    pub fn occurrences(&self, alloc: Global, number: usize) -> Result<Vec<TextRange>, AllocError>
        ensures { IfOk result (λ extents. map bounds_of extents.items ≡ occurrences_of number self.now) }
    {
        let mut extents = Vec::new(alloc);
        add_written(self.bindings(), number, &mut extents)?;
        add_referred(self.references(), number, &mut extents)?;
        Ok(extents)
    }
}
