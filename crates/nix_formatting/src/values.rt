//! The values of strings, as bytes and interpolations.

ghost use Rattle.std.specs.Prelude.{◌≡◌, true, [], ◌∷◌, ◌++◌, fold, IfOk, OnOk, string_bytes, bytes_eq};
ghost use Rattle.rnix_base.specs.Normal.{borrowed, owned, with_text};
ghost use Rattle.rnix.specs.StringParts.{normalized_parts};
ghost use Rattle.nix_formatting.specs.Pairs.{same_shown};
ghost use Rattle.nix_formatting.specs.Values.{interpolation_symbol, with_symbols, symbols_of, value_of, nix_value_of, both_values};

use crate::alike::same_flag;
use crate::parts::{have_same_normalized, have_same_written};
use rnix::ast::{AstNode, Interpol, InterpolPart, Str};
use rnix_base::{StrContent, is_indented, text_parts};
use std::alloc::{AllocError, Global};

// The number that represents an interpolation.
const INTERPOLATION: u16 = 256;

// Adds the bytes of a text.
fn add_text(text: &str, symbols: &mut Vec<u16>) -> Result<(), AllocError>
    ensures { OnOk result (symbols.new.items ≡ symbols.old.items ++ text.now) }
{
    for byte in text.as_bytes() {
        symbols.push(u16::from(*byte))?;
    }
    Ok(())
}

// Adds an interpolation.
fn add_interpolation(symbols: &mut Vec<u16>) -> Result<(), AllocError>
    ensures { OnOk result (symbols.new.items ≡ symbols.old.items ++ interpolation_symbol ∷ []) }
{
    symbols.push(INTERPOLATION)?;
    Ok(())
}

// Adds a normalized part of a string.
fn add_normalized(part: &InterpolPart<'_, String>, symbols: &mut Vec<u16>) -> Result<(), AllocError>
    ensures { OnOk result (symbols.new.items ≡ with_symbols symbols.old.items (with_text string_bytes part.now)) }
{
    match part {
        InterpolPart::Literal(text) => add_text(text.as_str(), symbols),
        InterpolPart::Interpolation(_) => add_interpolation(symbols),
    }
}

// Adds the normalized parts of a string.
fn add_all_normalized(
    parts: &[InterpolPart<'_, String>],
    symbols: &mut Vec<u16>,
) -> Result<(), AllocError>
    ensures { OnOk result (symbols.new.items ≡ fold with_symbols symbols.old.items (owned parts.now)) }
{
    for part in parts {
        add_normalized(part, symbols)?;
    }
    Ok(())
}

// Adds a part of a string as it is written.
fn add_written(part: &InterpolPart<'_, &str>, symbols: &mut Vec<u16>) -> Result<(), AllocError>
    ensures { OnOk result (symbols.new.items ≡ with_symbols symbols.old.items (with_text (λ text. text.now) part.now)) }
{
    match part {
        InterpolPart::Literal(text) => add_text(text, symbols),
        InterpolPart::Interpolation(_) => add_interpolation(symbols),
    }
}

// Adds the parts of a string as they are written.
fn add_all_written(
    parts: &[InterpolPart<'_, &str>],
    symbols: &mut Vec<u16>,
) -> Result<(), AllocError>
    ensures { OnOk result (symbols.new.items ≡ fold with_symbols symbols.old.items (borrowed parts.now)) }
{
    for part in parts {
        add_written(part, symbols)?;
    }
    Ok(())
}

// Returns the value of a string.
fn value_of(alloc: Global, string: &Str<'_>) -> Result<Vec<u16>, AllocError>
    ensures { IfOk result (λ value. value.items ≡ value_of string.now) }
{
    let mut symbols = Vec::new(alloc);
    if is_indented(string.syntax()) {
        let parts = string.normalized_parts(alloc)?;
        add_all_normalized(&parts, &mut symbols)?;
    } else {
        let parts = text_parts::<StrContent<'_>, Interpol<'_>>(alloc, string.syntax())?;
        add_all_written(&parts, &mut symbols)?;
    }
    Ok(symbols)
}

// Returns the value of normalized parts.
fn normalized_value(
    alloc: Global,
    parts: &[InterpolPart<'_, String>],
) -> Result<Vec<u16>, AllocError>
    ensures { IfOk result (λ value. value.items ≡ symbols_of (owned parts.now)) }
{
    let mut symbols = Vec::new(alloc);
    add_all_normalized(parts, &mut symbols)?;
    Ok(symbols)
}

// Returns whether some parts have the same bytes and interpolations as others.
#[tactic(auto, using(crate::proofs::ValueLemmas::normalized_same, crate::proofs::ValueLemmas::equal_pass))]
fn are_same_parts(
    alloc: Global,
    olds: &[InterpolPart<'_, String>],
    news: &[InterpolPart<'_, String>],
) -> Result<bool, AllocError>
    ensures { IfOk result (λ same. same ≡ bytes_eq (symbols_of (owned olds.now)) (symbols_of (owned news.now))) }
{
    if have_same_normalized(olds, news) {
        return Ok(true);
    }
    let old_row = normalized_value(alloc, olds)?;
    let new_row = normalized_value(alloc, news)?;
    Ok(old_row.as_slice() == new_row.as_slice())
}

// Returns whether the normalized parts of two strings have the same bytes and interpolations.
fn are_same_normalized<'t>(alloc: Global, old: &Str<'t>, new: &Str<'t>) -> Result<bool, AllocError>
    ensures { IfOk result (λ same. same ≡ bytes_eq (symbols_of (normalized_parts old.now)) (symbols_of (normalized_parts new.now))) }
{
    let olds = old.normalized_parts(alloc)?;
    let news = new.normalized_parts(alloc)?;
    are_same_parts(alloc, &olds, &news)
}

// Returns whether two strings have the same value in Nix.
fn have_same_nix_value<'t>(alloc: Global, old: &Str<'t>, new: &Str<'t>) -> Result<bool, AllocError>
    ensures { IfOk result (λ same. same ≡ bytes_eq (nix_value_of old.now) (nix_value_of new.now)) }
{
    let olds = old.value_parts(alloc)?;
    let news = new.value_parts(alloc)?;
    are_same_parts(alloc, &olds, &news)
}

// Returns whether two strings have the same parts as written, and quotes of the same kind.
#[tactic(auto, using(crate::proofs::ValueLemmas::written_same, crate::proofs::ValueLemmas::nix_written_same))]
fn have_same_source<'t>(old: &Str<'t>, new: &Str<'t>) -> bool
    ensures value { result ≡ true → value_of old.now ≡ value_of new.now }
    ensures nix_value { result ≡ true → nix_value_of old.now ≡ nix_value_of new.now }
{
    same_flag(is_indented(old.syntax()), is_indented(new.syntax())) && have_same_written(old, new)
}

// Returns whether two strings have the same value.
#[tactic(auto, using(crate::proofs::ValueLemmas::value_of_indented))]
fn have_same_value<'t>(alloc: Global, old: &Str<'t>, new: &Str<'t>) -> Result<bool, AllocError>
    ensures { IfOk result (λ same. same ≡ bytes_eq (value_of old.now) (value_of new.now)) }
{
    if is_indented(old.syntax()) && is_indented(new.syntax()) {
        return are_same_normalized(alloc, old, new);
    }
    let old_value = value_of(alloc, old)?;
    let new_value = value_of(alloc, new)?;
    Ok(old_value.as_slice() == new_value.as_slice())
}

/// Returns whether two strings have the same normalized parts and the same value in Nix. Strings that are written alike are not evaluated.
#[tactic(auto, using(crate::proofs::ValueLemmas::both_same, crate::proofs::ValueLemmas::second_decides, crate::proofs::ValueLemmas::first_differs))]
pub fn are_same_values<'t>(alloc: Global, old: &Str<'t>, new: &Str<'t>) -> Result<bool, AllocError>
    ensures { IfOk result (λ same. same ≡ same_shown (both_values old.now) (both_values new.now)) }
{
    if have_same_source(old, new) {
        return Ok(true);
    }
    if have_same_value(alloc, old, new)? {
        return have_same_nix_value(alloc, old, new);
    }
    Ok(false)
}
