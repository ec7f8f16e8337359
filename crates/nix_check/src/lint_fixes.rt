//! Fixes of what lints find.

ghost use Rattle.std.specs.Prelude.{◌≡◌, ◌<◌, ◌≤◌, ◌+◌, ◌^◌, ℕ, List, true, map, string_bytes, IfOk, IfSome};
ghost use Rattle.rnix_kinds.specs.Lexical.Tokens.{tokens_of};
ghost use Rattle.rnix_grammar.specs.Parsed.{IsParsed};
ghost use Rattle.rnix.specs.ParseResult.{root_of};
ghost use Rattle.nix_fixes.specs.Fixes.{spliced, new_text};
ghost use Rattle.nix_scopes.specs.Bound.{bound_of, resolved_of};
ghost use Rattle.nix_check.specs.LintFixes.{meaning_of, texts_of, KeepNames, IsLinted, Proposes, IsBetter, IsLintFix, IsLintFixed};

use nix_diagnostics::Replacement;
use nix_fixes::{new_text, spliced};
use nix_lints::{Finding, Reported};
use nix_scopes::{Binding, Reference, resolve};
use rnix::{Parse, Root};
use std::alloc::{AllocError, Global};

// A text without errors, and what the lints find in it.
#[derive(Drop)]
struct Linted {
    made: String,
    read: Parse,
    found: Vec<Finding>,
}

/// A text with fixes of what lints find.
#[derive(Drop)]
pub struct LintFixed {
    /// The new text.
    pub text: String,
    /// The number of fixes.
    pub fixes: usize,
}

// Returns what the lints find in a text, if it has no errors.
fn with_findings(
    alloc: Global,
    made: String,
    read: Parse,
    disabled: &[String],
) -> Result<Option<Linted>, AllocError>
    requires { IsParsed (tokens_of (string_bytes made)) read.tree read.faults }
    ensures linted { IfOk result (λ linted. IfSome linted (IsLinted (map string_bytes disabled.now))) }
    ensures text { IfOk result (λ linted. IfSome linted (λ linted. string_bytes linted.made ≡ string_bytes made)) }
{
    if !read.errors().is_empty() {
        return Ok(None);
    }
    match Reported::new(alloc, &read, false, disabled)? {
        Reported::Findings(found) => Ok(Some(Linted { made, read, found })),
        Reported::Mistakes(_) => Ok(None),
    }
}

// Returns whether two references mean the same.
fn is_same_reference(old: &Reference<'_>, new: &Reference<'_>) -> bool
    ensures { result ≡ true → meaning_of (resolved_of new.now) ≡ meaning_of (resolved_of old.now) }
{
    new.text.as_str() == old.text.as_str()
        && new.binding == old.binding
        && new.is_open == old.is_open
}

// Returns whether references mean the same, one by one.
fn are_same_references(old: &[Reference<'_>], new: &[Reference<'_>]) -> bool
    ensures { result ≡ true → map meaning_of (map resolved_of new.now) ≡ map meaning_of (map resolved_of old.now) }
{
    if new.len() != old.len() {
        return false;
    }
    for number in 0..new.len() {
        if !is_same_reference(&old[number], &new[number]) {
            return false;
        }
    }
    true
}

// Returns whether two bindings have the same name.
fn is_same_binding(old: &Binding<'_>, new: &Binding<'_>) -> bool
    ensures { result ≡ true → (bound_of new.now).text ≡ (bound_of old.now).text }
{
    new.text.as_str() == old.text.as_str()
}

// Returns whether bindings have the same names, one by one.
fn are_same_bindings(old: &[Binding<'_>], new: &[Binding<'_>]) -> bool
    ensures { result ≡ true → texts_of (map bound_of new.now) ≡ texts_of (map bound_of old.now) }
{
    if new.len() != old.len() {
        return false;
    }
    for number in 0..new.len() {
        if !is_same_binding(&old[number], &new[number]) {
            return false;
        }
    }
    true
}

// Returns whether the names of two texts mean the same.
fn keeps_names(alloc: Global, old: &Parse, new: &Parse) -> Result<bool, AllocError>
    ensures { IfOk result (λ keeps. keeps ≡ true → KeepNames (root_of old.now) (root_of new.now)) }
{
    let (before, after) = (old.syntax(), new.syntax());
    let (olds, news) = (resolve(alloc, &before)?, resolve(alloc, &after)?);
    Ok(
        are_same_bindings(olds.bindings(), news.bindings())
            && are_same_references(olds.references(), news.references()),
    )
}

// Returns whether the names of two texts mean the same, and less is found in the second.
fn is_better(alloc: Global, old: &Linted, new: &Linted) -> Result<bool, AllocError>
    ensures { IfOk result (λ is_better. is_better ≡ true → IsBetter old.now new.now) }
{
    if new.found.len() >= old.found.len() {
        return Ok(false);
    }
    let keeps = keeps_names(alloc, &old.read, &new.read)?;
    Ok(keeps)
}

// Returns the text with a replacement, if it is in the text and at character boundaries.
fn replaced(
    alloc: Global,
    text: &str,
    replacement: &Replacement,
) -> Result<Option<String>, AllocError>
    ensures { IfOk result (λ made. IfSome made (λ made. string_bytes made
        ≡ spliced text.now replacement.now.range.start replacement.now.range.end (new_text text.now replacement.now))) }
{
    match new_text(alloc, text, replacement)? {
        Some(new) => spliced(alloc, text, replacement.range, new.as_str()),
        None => Ok(None),
    }
}

// Returns the replacement that the finding with a number proposes, if it does.
fn proposal(found: &[Finding], number: usize) -> Option<Replacement>
    ensures { IfSome result (Proposes found.now) }
{
    match found.get(number) {
        Some(finding) => finding.replacement,
        None => None,
    }
}

// Returns a text with a replacement, if it keeps what names mean, and less is found in it.
fn try_replacement(
    alloc: Global,
    old: &Linted,
    replacement: &Replacement,
    disabled: &[String],
) -> Result<Option<Linted>, AllocError>
    requires { Proposes old.now.found.items replacement.now }
    ensures linted { IfOk result (λ found. IfSome found (IsLinted (map string_bytes disabled.now))) }
    ensures fix { IfOk result (λ found. IfSome found (IsLintFix old.now)) }
{
    let Some(made) = replaced(alloc, old.made.as_str(), replacement)? else {
        return Ok(None);
    };
    let read = Root::parse(alloc, made.as_str())?;
    let Some(new) = with_findings(alloc, made, read, disabled)? else {
        return Ok(None);
    };
    if is_better(alloc, old, &new)? {
        Ok(Some(new))
    } else {
        Ok(None)
    }
}

// Returns a text with what the finding with a number proposes, if it is a fix.
fn try_finding(
    alloc: Global,
    old: &Linted,
    number: usize,
    disabled: &[String],
) -> Result<Option<Linted>, AllocError>
    ensures linted { IfOk result (λ found. IfSome found (IsLinted (map string_bytes disabled.now))) }
    ensures fix { IfOk result (λ found. IfSome found (IsLintFix old.now)) }
{
    match proposal(&old.found, number) {
        Some(replacement) => try_replacement(alloc, old, &replacement, disabled),
        None => Ok(None),
    }
}

// A text so far, the number of fixes in it, and the number of the next finding to try.
#[derive(Drop)]
struct Progress {
    linted: Linted,
    fixes: usize,
    number: usize,
}

// Tries the next finding.
fn next(alloc: Global, progress: Progress, disabled: &[String]) -> Result<Progress, AllocError>
    requires linted { IsLinted (map string_bytes disabled.now) progress.linted }
    requires fits { progress.fixes + 1 < 2 ^ 64 }
    ensures linted { IfOk result (λ p. IsLinted (map string_bytes disabled.now) p.linted) }
    ensures fixed { IfOk result (λ p. (text : List ℕ) →
        IsLintFixed (map string_bytes disabled.now) text progress.fixes (string_bytes progress.linted.made) →
        IsLintFixed (map string_bytes disabled.now) text p.fixes (string_bytes p.linted.made)) }
    ensures count { IfOk result (λ p. p.fixes ≤ progress.fixes + 1) }
{
    match try_finding(alloc, &progress.linted, progress.number, disabled)? {
        Some(linted) => Ok(Progress {
            linted,
            fixes: progress.fixes + 1,
            number: progress.number,
        }),
        None => Ok(Progress {
            linted: progress.linted,
            fixes: progress.fixes,
            number: progress.number.saturating_add(1),
        }),
    }
}

// Applies fixes, of which at most `most` are tried.
fn apply(
    alloc: Global,
    start: Linted,
    disabled: &[String],
    most: usize,
) -> Result<LintFixed, AllocError>
    requires { IsLinted (map string_bytes disabled.now) start }
    ensures { IfOk result (λ made. IsLintFixed (map string_bytes disabled.now) (string_bytes start.made) made.fixes (string_bytes made.text)) }
{
    let mut progress = Progress {
        linted: start,
        fixes: 0,
        number: 0,
    };
    for _ in 0..most {
        progress = next(alloc, progress, disabled)?;
    }
    let Progress { linted, fixes, .. } = progress;
    let Linted { made, .. } = linted;
    Ok(LintFixed { text: made, fixes })
}

/// Applies what the lints propose in a text without errors, one after another, where the names of the text then mean the same, and less is found. Tries at most
/// `most` findings; takes time proportional to the length of the text for each.
pub fn lint_fixed(
    alloc: Global,
    text: &str,
    disabled: &[String],
    most: usize,
) -> Result<LintFixed, AllocError>
    ensures { IfOk result (λ made. IsLintFixed (map string_bytes disabled.now) text.now made.fixes (string_bytes made.text)) }
{
    let made = String::from_str(alloc, text)?;
    let read = Root::parse(alloc, text)?;
    match with_findings(alloc, made, read, disabled)? {
        Some(start) => apply(alloc, start, disabled, most),
        None => {
            let text = String::from_str(alloc, text)?;
            Ok(LintFixed { text, fixes: 0 })
        }
    }
}
