//! Formatted texts, which differ only in white space, also at the start of the lines of strings, in the commas of patterns and in the marks of comments.

ghost use Rattle.std.specs.Prelude.{string_bytes, IfOk, IfErr};
ghost use Rattle.nix_formatting.specs.Retokened.{IsFormatted};
ghost use Rattle.rnix_c.specs.Formatting.{AnswersFormat, WritesFormat, IsUnformatted};

use crate::answers::{self, DIFFERENT, HAS_ERRORS, NO_MEMORY, checked};
use nix_formatting::{Formatting, formatted};
use std::alloc::Global;

// Returns the new text, or the reason why there is none.
fn new_text(alloc: Global, text: &str) -> Result<String, i64>
    ensures made { IfOk result (λ made. IsFormatted text.now (string_bytes made)) }
    ensures refused { IfErr result (λ answer. IsUnformatted text.now answer) }
{
    match formatted(alloc, text) {
        Ok(Formatting::Formatted(made)) => Ok(made),
        Ok(Formatting::Retokened(made)) => Ok(made),
        Ok(Formatting::HasErrors) => Err(HAS_ERRORS),
        Ok(Formatting::Refused) => Err(DIFFERENT),
        Err(_) => Err(NO_MEMORY),
    }
}

// Writes the new text, and returns its length in bytes, or the reason why there is none.
fn write_format(alloc: Global, text: &str, room: &mut [u8]) -> i64
    ensures { WritesFormat text.now result room.old room.new }
{
    match new_text(alloc, text) {
        Ok(made) => answers::written(&made, room),
        Err(answer) => answer,
    }
}

/// Writes the text in the style of Nixpkgs, and returns its length in bytes.
#[unsafe(no_mangle)]
pub extern "C" fn rnix_format(alloc: Global, text: &[u8], room: &mut [u8]) -> i64
    ensures { AnswersFormat text.now result room.old room.new }
{
    match checked(text) {
        Ok(text) => write_format(alloc, text, room),
        Err(answer) => answer,
    }
}
