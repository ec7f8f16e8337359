//! The parts of strings.

ghost use Rattle.std.specs.Prelude.{◌≡◌, ◌<◌, ◌^◌, length, map, option_map, IfOk, string_bytes};
ghost use Rattle.rnix_kinds.specs.declared.kinds.SyntaxKind.TheVariants as k;
ghost use Rattle.rnix_green.specs.Equality.{same_kind};
ghost use Rattle.rnix_base.specs.Parts.{parts_of};
ghost use Rattle.rnix_base.specs.Normal.{with_text};
ghost use Rattle.rnix.specs.StringParts.{string_parts, normalized_parts, value_parts, plain_value};

use crate::ast::strings::{Interpol, Str};
use rnix_base::{
    InterpolParts, StrContent, indented_parts, indented_value, is_indented, parts_in, quoted_parts,
    quoted_value, text_parts,
};
use std::alloc::{AllocError, Global};

/// A part of a string or of a path.
pub type InterpolPart<'t, T> = rnix_base::InterpolPart<T, Interpol<'t>>;

/// An iterator over the parts of a string, in order.
pub type StrParts<'t> = InterpolParts<'t, StrContent<'t>, Interpol<'t>>;

impl<'t> Str<'t> {
    /// Returns the contents and interpolations of the string, in order. Other children are left out.
    pub fn parts(&self) -> StrParts<'t>
        ensures parts { parts_of (same_kind k.TOKEN_STRING_CONTENT) (same_kind k.NODE_INTERPOL) result ≡ string_parts self.now }
        ensures fits { length (parts_of (same_kind k.TOKEN_STRING_CONTENT) (same_kind k.NODE_INTERPOL) result) < 2 ^ 64 }
    {
        parts_in::<StrContent<'t>, Interpol<'t>>(&self.syntax)
    }

    /// Returns the parts with escapes replaced and, in `''`, without the indentation.
    pub fn normalized_parts(
        &self,
        alloc: Global,
    ) -> Result<Vec<InterpolPart<'t, String>>, AllocError>
        ensures { IfOk result (λ parts. map (with_text string_bytes) parts.items ≡ normalized_parts self.now) }
    {
        let texts = text_parts::<StrContent<'t>, Interpol<'t>>(alloc, &self.syntax)?;
        if is_indented(&self.syntax) {
            indented_parts(alloc, texts)
        } else {
            quoted_parts(alloc, texts)
        }
    }

    /// Returns the parts of the string's value in Nix. They differ from [`Str::normalized_parts`], which follows rnix, in two cases. After an escaped line feed
    /// in `''`, Nix drops the indentation too. A carriage return in `"` is a line feed for Nix.
    pub fn value_parts(&self, alloc: Global) -> Result<Vec<InterpolPart<'t, String>>, AllocError>
        ensures { IfOk result (λ parts. map (with_text string_bytes) parts.items ≡ value_parts self.now) }
    {
        let texts = text_parts::<StrContent<'t>, Interpol<'t>>(alloc, &self.syntax)?;
        if is_indented(&self.syntax) {
            indented_value(alloc, texts)
        } else {
            quoted_value(alloc, texts)
        }
    }

    /// Returns the string's value in Nix, or `None` if it has an interpolation.
    pub fn plain_value(&self, alloc: Global) -> Result<Option<String>, AllocError>
        ensures { IfOk result (λ value. option_map string_bytes value ≡ plain_value self.now) }
    {
        let mut parts = self.value_parts(alloc)?.into_iter();
        match (parts.next(), parts.next()) {
            (None, _) => Ok(Some(String::new(alloc))),
            (Some(InterpolPart::Literal(text)), None) => Ok(Some(text)),
            _ => Ok(None),
        }
    }
}
