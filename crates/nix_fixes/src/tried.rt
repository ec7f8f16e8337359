//! Trying replacements.

ghost use Rattle.std.specs.Prelude.{◌≡◌, length, string_bytes, IfOk, IfSome, IfNone};
ghost use Rattle.nix_fixes.specs.Fixes.{spliced, keeps_inside, removed, is_small, IsOfCharacters, HasNoFewer, IsProposed, DoesNotHelp, HasNoFix, HaveNoFix, IsOfNote, IsFirstFix};
ghost use Rattle.nix_fixes.specs.Tries.{IsTried};

use crate::changed_text::{new_text, spliced};
use crate::fix::Fix;
use nix_diagnostics::{Note, Replacement};
use rnix::{Parse, Root, TextRange};
use std::alloc::{AllocError, Global};

// The greatest number of bytes that a fix removes, and of bytes that it adds: a few characters and a keyword.
const MOST_REMOVED: usize = 8;

const MOST_ADDED: usize = 8;

/// A fix, with the new text and its tree.
#[derive(Drop)]
pub struct Tried {
    pub fix: Fix,
    pub made: String,
    pub read: Parse,
}

/// Returns the number of errors of a text.
#[tactic(auto, using(crate::proofs::ErrorCounts::same_count))]
pub fn error_count(read: &Parse) -> usize
    ensures { result ≡ length read.now.faults }
{
    read.errors().len()
}

// Returns the text with new bytes in place of those of a range, if it has fewer errors than this number.
fn try_new(
    alloc: Global,
    text: &str,
    errors: usize,
    range: TextRange,
    new: String,
) -> Result<Option<Tried>, AllocError>
    ensures tried { IfOk result (λ found. IfSome found (IsTried text.now errors)) }
    ensures is { IfOk result (λ found. IfSome found (λ tried. (tried.fix.range ≡ range) × (tried.fix.text ≡ new))) }
    ensures none { IfOk result (λ found. IfNone found
        (IsOfCharacters text.now range → HasNoFewer (spliced text.now range.start range.end (string_bytes new)) errors)) }
{
    let Some(made) = spliced(alloc, text, range, new.as_str())? else {
        return Ok(None);
    };
    let read = Root::parse(alloc, made.as_str())?;
    if error_count(&read) < errors {
        let fix = Fix { range, text: new };
        return Ok(Some(Tried { fix, made, read }));
    }
    Ok(None)
}

// Returns whether the bytes that a replacement keeps are among those that it replaces.
fn keeps_inside(replacement: &Replacement) -> bool
    ensures { result ≡ keeps_inside replacement.now }
{
    let (range, kept) = (replacement.range, replacement.kept);
    range.start() <= kept.start() && kept.end() <= range.end()
}

// Returns the number of bytes that a replacement removes.
fn removed(replacement: &Replacement) -> usize
    ensures { result ≡ removed replacement.now }
{
    if keeps_inside(replacement) {
        replacement
            .range
            .len()
            .saturating_sub(replacement.kept.len())
    } else {
        replacement.range.len()
    }
}

// Returns whether a replacement removes and adds few bytes.
fn is_small(replacement: &Replacement) -> bool
    ensures { result ≡ is_small replacement.now }
{
    let added = replacement.before.len() + replacement.after.len();
    removed(replacement) <= MOST_REMOVED && added <= MOST_ADDED
}

// Returns the text with a replacement, if it is small and has fewer errors than this number.
fn try_replacement(
    alloc: Global,
    text: &str,
    errors: usize,
    replacement: &Replacement,
) -> Result<Option<Tried>, AllocError>
    ensures tried { IfOk result (λ found. IfSome found (IsTried text.now errors)) }
    ensures proposed { IfOk result (λ found. IfSome found (λ tried. IsProposed text.now replacement.now tried.fix)) }
    ensures none { IfOk result (λ found. IfNone found (DoesNotHelp text.now errors replacement.now)) }
{
    if !is_small(replacement) {
        return Ok(None);
    }
    match new_text(alloc, text, replacement)? {
        Some(new) => try_new(alloc, text, errors, replacement.range, new),
        None => Ok(None),
    }
}

// Returns the text with the replacement of a note, if it has fewer errors than this number.
fn try_note(
    alloc: Global,
    text: &str,
    errors: usize,
    note: &Note,
) -> Result<Option<Tried>, AllocError>
    ensures tried { IfOk result (λ found. IfSome found (IsTried text.now errors)) }
    ensures proposed { IfOk result (λ found. IfSome found (λ tried. IsOfNote text.now note.now tried.fix)) }
    ensures none { IfOk result (λ found. IfNone found (HasNoFix text.now errors note.now)) }
{
    match &note.replacement {
        Some(replacement) => try_replacement(alloc, text, errors, replacement),
        None => Ok(None),
    }
}

/// Returns the text with the first replacement of some notes with which it has fewer errors than this number.
pub fn try_notes(
    alloc: Global,
    text: &str,
    errors: usize,
    notes: &[Note],
) -> Result<Option<Tried>, AllocError>
    ensures tried { IfOk result (λ found. IfSome found (IsTried text.now errors)) }
    ensures first { IfOk result (λ found. IfSome found (λ tried. IsFirstFix text.now errors notes.now tried.fix)) }
    ensures none { IfOk result (λ found. IfNone found (HaveNoFix text.now errors notes.now)) }
{
    for note in notes {
        if let Some(tried) = try_note(alloc, text, errors, note)? {
            return Ok(Some(tried));
        }
    }
    Ok(None)
}
