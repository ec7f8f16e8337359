//! Texts that are kept only if they read as the data for which they were written.

ghost use Rattle.std.specs.Prelude.{◌≡◌, ℕ, List, IfOk, IfSome, string_bytes};
ghost use Rattle.nix_values.specs.Contents.{Entry, contents};

use crate::data::Data;
use std::alloc::{AllocError, Global};

/// A way to write data as text.
pub trait Notation {
    // What a text may be read as, in a specification.
    ghost reads: { List ℕ → List Entry → Type 0 };

    /// Returns the data of a text, or `None` if the text is refused.
    fn read(&self, alloc: Global, text: &str) -> Result<Option<Data>, AllocError>
        ensures { IfOk result (λ found. IfSome found (λ found. reads text.now (contents found))) };
}

/// Returns a text if it reads as the given data, and `None` otherwise.
pub fn kept<N: Notation>(
    alloc: Global,
    notation: &N,
    text: String,
    whole: &Data,
) -> Result<Option<String>, AllocError>
    ensures reads { IfOk result (λ kept. IfSome kept (λ kept. N.reads (string_bytes kept) (contents whole.now))) }
    ensures same { IfOk result (λ kept. IfSome kept (λ kept. string_bytes kept ≡ string_bytes text)) }
{
    match notation.read(alloc, text.as_str())? {
        Some(found) if found.is_same(whole) => Ok(Some(text)),
        _ => Ok(None),
    }
}
