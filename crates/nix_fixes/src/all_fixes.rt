//! All fixes of a text.

ghost use Rattle.std.specs.Prelude.{◌≡◌, ◌+◌, ◌<◌, length, take, string_bytes, IfOk, IfSome, IfNone};
ghost use Rattle.rnix_kinds.specs.Lexical.Tokens.{tokens_of};
ghost use Rattle.rnix_grammar.specs.Parsed.{IsParsed};
ghost use Rattle.nix_fixes.specs.Fixes.{IsReadWith, HasNoFewer};
ghost use Rattle.nix_fixes.specs.AllFixes.{HaveNoFixes, IsFixAt, HasNoMore, IsFixedUpTo};
ghost use Rattle.nix_fixes.specs.Tries.{IsTried};
ghost use Rattle.nix_fixes.specs.Rounds.{IsProgress, IsNextFix};

use crate::tried::{Tried, error_count, try_notes};
use nix_diagnostics::{Diagnostic, diagnostics};
use rnix::{Parse, Root};
use std::alloc::{AllocError, Global};

/// A text with fixes.
#[derive(Drop)]
pub struct FixedText {
    /// The new text.
    pub text: String,
    /// The number of fixes.
    pub fixes: usize,
    /// The number of errors of the new text.
    pub errors: usize,
}

// The fix of the diagnostic with a number, the first one that has a fix.
#[derive(Drop)]
struct Found {
    number: usize,
    tried: Tried,
}

// Returns the first fix of some diagnostics, of which the first `most` are tried.
fn first_fix(
    alloc: Global,
    text: &str,
    errors: usize,
    diagnostics: &[Diagnostic],
    most: usize,
) -> Result<Option<Found>, AllocError>
    ensures within { IfOk result (λ found. IfSome found (λ found. found.number < most)) }
    ensures tried { IfOk result (λ found. IfSome found (λ found. IsTried text.now errors found.tried)) }
    ensures first { IfOk result (λ found. IfSome found (λ found. IsFixAt text.now errors diagnostics.now found.number found.tried.fix)) }
    ensures none { IfOk result (λ found. IfNone found (HaveNoFixes text.now errors (take most diagnostics.now))) }
{
    for number in 0..diagnostics.len().min(most) {
        let notes = &diagnostics[number].notes;
        if let Some(tried) = try_notes(alloc, text, errors, notes)? {
            return Ok(Some(Found { number, tried }));
        }
    }
    Ok(None)
}

// The text so far, with its tree, the number of fixes in it, and the number of diagnostics that were tried.
#[derive(Drop)]
struct Progress {
    made: String,
    read: Parse,
    fixes: usize,
    tried: usize,
}

// Returns a text before its first fix.
fn start_progress(alloc: Global, text: &str) -> Result<Progress, AllocError>
    ensures progress { IfOk result (IsProgress text.now) }
    ensures fixes { IfOk result (λ progress. progress.fixes ≡ 0) }
    ensures tried { IfOk result (λ progress. progress.tried ≡ 0) }
{
    let made = String::from_str(alloc, text)?;
    let read = Root::parse(alloc, text)?;
    Ok(Progress {
        made,
        read,
        fixes: 0,
        tried: 0,
    })
}

// Returns the next fix of a text so far, of whose diagnostics the first `most` are tried.
fn next_fix(alloc: Global, progress: &Progress, most: usize) -> Result<Option<Found>, AllocError>
    requires { IsParsed (tokens_of (string_bytes progress.now.made)) progress.now.read.tree progress.now.read.faults }
    ensures some { IfOk result (λ found. IfSome found (IsNextFix progress.now most)) }
    ensures none { IfOk result (λ found. IfNone found (HasNoMore (string_bytes progress.now.made) (length progress.now.read.faults) most)) }
{
    let shown = diagnostics(alloc, &progress.read)?;
    let errors = error_count(&progress.read);
    let found = first_fix(alloc, progress.made.as_str(), errors, &shown, most)?;
    Ok(found)
}

/// Fixes a text repeatedly, each time by the first diagnostic that has a fix, until no diagnostic has one or the limit of diagnostics is reached.
/// Takes time proportional to the length of the text for each diagnostic that is tried.
pub fn fixed(alloc: Global, text: &str, most: usize) -> Result<FixedText, AllocError>
    // The new text is the old one with this number of fixes, each proposed by a note, and no diagnostic has a fix any more, as far as any are tried.
    ensures fixes { IfOk result (λ made. IsFixedUpTo most text.now made.fixes (string_bytes made.text) made.errors) }
    // It has this number of errors.
    ensures errors { IfOk result (λ made. IsReadWith (string_bytes made.text) made.errors) }
    // The old text had at least one more for each fix.
    ensures fewer { IfOk result (λ made. HasNoFewer text.now (made.errors + made.fixes)) }
{
    let mut progress = start_progress(alloc, text)?;
    while let Some(found) = next_fix(alloc, &progress, most.saturating_sub(progress.tried))? {
        let number = found.number;
        let next = found.tried;
        progress = Progress {
            made: next.made,
            read: next.read,
            fixes: progress.fixes + 1,
            tried: progress.tried + number + 1,
        };
    }
    Ok(FixedText {
        errors: error_count(&progress.read),
        text: progress.made,
        fixes: progress.fixes,
    })
}
