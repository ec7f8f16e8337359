//! Formatting of a text.

ghost use Rattle.std.specs.Prelude.{◌≡◌, [], IfOk};
ghost use Rattle.rnix_kinds.specs.Lexical.Tokens.{tokens_of};
ghost use Rattle.rnix_grammar.specs.Parsed.{IsParsed};
ghost use Rattle.nix_formatting.specs.SpaceChange.{visible_tokens_of, IsSpaceChange};
ghost use Rattle.nix_formatting.specs.Formatted.{IsWithoutErrors, IsOutcome};

use crate::alike::have_same_visible_tokens;
use crate::retokened::have_same_kept_steps;
use crate::stabilizing::stabilized;
use crate::walks::have_same_steps;
use nix_layout::styled;
use rnix::laws::{has_reading, layout, one_list};
use rnix::{Parse, Root};
use std::alloc::{AllocError, Global};

/// The result of formatting a text.
#[derive(Drop)]
pub enum Formatting {
    /// The formatted text, which differs only in white space and in the indentation of strings.
    Formatted(String),
    /// The formatted text, which differs also in commas of patterns, or in the marks of comments.
    Retokened(String),
    /// The text has errors.
    HasErrors,
    /// The text has no errors, but the new text differs in more than that, or changes each time it is formatted again. This is a bug of the layout.
    Refused,
}

// Two texts with the same tokens except for white space have the same tree, if one of them has no errors.
fn read_alike(text: &str, made: &str)
    requires faultless { IsWithoutErrors text.now }
    requires same { visible_tokens_of made.now ≡ visible_tokens_of text.now }
    ensures { IsSpaceChange text.now made.now }
{
    one_list(text);
    one_list(made);
    has_reading(made);
    layout(text, made);
}

// Returns the new text if it has no errors, and a tree that differs from the old one only in white space and in the indentation of strings, or also in commas
// and the marks of comments.
#[tactic(auto, using(crate::proofs::OutcomeLemmas::faultless))]
fn with_same_steps(
    alloc: Global,
    text: &str,
    read: &Parse,
    made: String,
) -> Result<Formatting, AllocError>
    requires read { IsParsed (tokens_of text.now) read.now.tree read.now.faults }
    requires faultless { read.now.faults ≡ [] }
    ensures { IfOk result (IsOutcome text.now) }
{
    let again = Root::parse(alloc, made.as_str())?;
    if !again.errors().is_empty() {
        return Ok(Formatting::Refused);
    }
    if have_same_steps(alloc, &read.syntax(), &again.syntax())? {
        return Ok(Formatting::Formatted(made));
    }
    if have_same_kept_steps(alloc, &read.syntax(), &again.syntax())? {
        return Ok(Formatting::Retokened(made));
    }
    Ok(Formatting::Refused)
}

// Returns the new text if it has the same tokens as the old one, except for white space, the indentation of strings, commas and the marks of comments.
#[tactic(auto, using(crate::proofs::OutcomeLemmas::only_space_changed))]
fn compared(alloc: Global, text: &str, read: &Parse, made: String) -> Result<Formatting, AllocError>
    requires read { IsParsed (tokens_of text.now) read.now.tree read.now.faults }
    requires faultless { read.now.faults ≡ [] }
    ensures { IfOk result (IsOutcome text.now) }
{
    if have_same_visible_tokens(alloc, text, made.as_str())? {
        read_alike(text, made.as_str());
        return Ok(Formatting::Formatted(made));
    }
    with_same_steps(alloc, text, read, made)
}

/// Formats a text in the style of Nixpkgs. The new text has the same tokens, comments included, and the same tree, except for white space and the
/// indentation of strings in `''`, whose values stay the same; if it also differs in commas of patterns, or in the marks of comments, the result is
/// `Retokened`. It is compared with the old text, and the result is `Refused` if it differs in more. Formatting it again changes nothing: if the layout cannot
/// tell, the new text is formatted again, a few times at most. The result is `HasErrors` exactly if the text has errors.
pub fn formatted(alloc: Global, text: &str) -> Result<Formatting, AllocError>
    ensures { IfOk result (IsOutcome text.now) }
{
    let read = Root::parse(alloc, text)?;
    if !read.errors().is_empty() {
        return Ok(Formatting::HasErrors);
    }
    let made = styled(alloc, text, &read.syntax())?;
    match stabilized(alloc, made)? {
        Some(made) => compared(alloc, text, &read, made),
        None => Ok(Formatting::Refused),
    }
}
