//! Kinds by their numbers.

ghost use Rattle.std.specs.Prelude.{◌≡◌, ◌≤◌, IfSome, IfNone, slice_get};
ghost use Rattle.rnix_kinds.specs.SyntaxKind.{discriminant_of, kind_count};

use crate::kinds::{ALL, SyntaxKind};

// The kind at an index of a list.
fn kind_at(kinds: &[SyntaxKind], index: usize) -> Option<SyntaxKind>
    ensures { result ≡ slice_get kinds.now index }
{
    kinds.get(index).copied()
}

impl SyntaxKind {
    /// Returns the kind whose number, `kind as u16`, is this one. Kinds are numbered from 0, in the order of their declaration.
    pub fn from_raw(number: u16) -> Option<SyntaxKind>
        ensures found { IfSome result (λ kind. discriminant_of kind ≡ number) }
        ensures missing { IfNone result (kind_count ≤ number) }
    {
        kind_at(&ALL, number as usize)
    }
}
