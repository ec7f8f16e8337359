//! The fix of a diagnostic.

ghost use Rattle.std.specs.Prelude.{length, IfOk, IfSome, IfNone};
ghost use Rattle.nix_fixes.specs.Fixes.{IsFix, HaveNoFix, IsFirstFix};

use crate::tried::{error_count, try_notes};
use nix_diagnostics::Diagnostic;
use rnix::{Parse, TextRange};
use std::alloc::{AllocError, Global};

/// A range of a text, and the text to write in its place.
#[derive(Drop)]
pub struct Fix {
    /// The bytes that are replaced; empty for an insertion.
    pub range: TextRange,
    /// The new text.
    pub text: String,
}

/// Returns the fix of a diagnostic of a text: the first replacement of its notes that leaves fewer errors. Parses the text once for each replacement that
/// is tried; a diagnostic of `nix_diagnostics` has at most three.
pub fn fix_of(
    alloc: Global,
    read: &Parse,
    text: &str,
    diagnostic: &Diagnostic,
) -> Result<Option<Fix>, AllocError>
    ensures fix { IfOk result (λ found. IfSome found (IsFix text.now (length read.now.faults))) }
    ensures first { IfOk result (λ found. IfSome found (IsFirstFix text.now (length read.now.faults) diagnostic.now.notes.items)) }
    ensures none { IfOk result (λ found. IfNone found (HaveNoFix text.now (length read.now.faults) diagnostic.now.notes.items)) }
{
    match try_notes(alloc, text, error_count(read), &diagnostic.notes)? {
        Some(tried) => Ok(Some(tried.fix)),
        None => Ok(None),
    }
}
