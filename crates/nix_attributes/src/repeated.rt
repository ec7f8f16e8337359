//! Attributes that are defined again.

ghost use Rattle.std.specs.Prelude.{◌≡◌, IfOk, map};
ghost use Rattle.nix_attributes.specs.Repeated.{repetition_of, repeated_in};

use crate::attributes::Attributes;
use crate::entries::add_names;
use rnix::{SyntaxNode, TextRange};
use std::alloc::{AllocError, Global};

/// A name that defines an attribute again, where Nix allows no second definition.
#[derive(Clone, Copy, Debug, PartialEq, Eq)]
pub struct Repeated {
    /// The name.
    pub range: TextRange,
    /// The first name of the same attribute.
    pub first: TextRange,
}

/// Returns the names that define an attribute again that cannot be defined again, in the order of their entries. Nix 2.8 refuses a text with such a name.
///
/// An attribute can be defined again if each definition is a path that continues or has a set as its value: `{ a.b = 1; a.c = 2; }`. The attributes of a
/// set that is the value of such a second definition must all be new.
pub fn repeated_attributes(
    alloc: Global,
    root: &SyntaxNode<'_>,
) -> Result<Vec<Repeated>, AllocError>
    ensures { IfOk result (λ found. map repetition_of found.items ≡ repeated_in root.now) }
{
    let mut attributes = Attributes::new(alloc);
    for node in root.descendants() {
        add_names(alloc, node, &mut attributes)?;
    }
    Ok(attributes.repeated)
}
