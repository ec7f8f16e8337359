//! White space that Nix does not read.

ghost use Rattle.std.specs.Prelude.{◌≡◌, ◌≤◌, ◌<◌, ◌+◌, ◌++◌, ◌^◌, false, drop, length, slice_index, IfOk, OnOk, map};
ghost use Rattle.std.specs.List.{prefix_len};
ghost use Rattle.std.specs.Str.{IsCharBoundary};
ghost use Rattle.rnix_green.specs.Tree.{item_of, text_at};
ghost use Rattle.rnix_tree.specs.Spots.{spot_of};
ghost use Rattle.nix_lints.specs.ForeignSpaces.{is_blank, is_foreign, run_of, run_at, run_if, runs_from, runs_at, foreign_in};

use rnix::{NodeOrToken, SyntaxElement, SyntaxKind, SyntaxNode, SyntaxToken, TextRange};
use std::alloc::{AllocError, Global};

/// Characters that are white space for this parser, but not for Nix.
#[derive(Clone, Copy, Debug, PartialEq, Eq)]
pub struct ForeignSpace {
    /// A run of such characters, as long as possible.
    pub range: TextRange,
    /// Its first character.
    pub first: char,
}

// Returns whether a byte is white space for Nix.
fn is_blank(byte: u8) -> bool
    ensures { result ≡ is_blank byte }
{
    byte == b' ' || byte == b'\n' || byte == b'\t' || byte == b'\r'
}

// Returns the number of bytes before the first one that is white space for Nix.
fn foreign_len(bytes: &[u8]) -> usize
    ensures value { result ≡ prefix_len is_foreign bytes.now }
    ensures within { result ≤ length bytes.now }
{
    for index in 0..bytes.len() {
        if is_blank(bytes[index]) {
            return index;
        }
    }
    bytes.len()
}

// Returns the run at the beginning of a text that starts at an offset.
fn run_at(start: usize, text: &str) -> ForeignSpace
    requires { start + length text.now < 2 ^ 64 }
    ensures { run_of result ≡ run_at start text.now }
{
    let len = foreign_len(text.as_bytes());
    ForeignSpace {
        range: TextRange::at(start, len),
        first: text.chars().next().unwrap_or('\0'),
    }
}

// Adds the run that begins at an index of a text, if one does, and returns whether the byte there is in a run. `is_inside` says whether the byte before it is.
fn add_run(
    start: usize,
    text: &str,
    index: usize,
    is_inside: bool,
    found: &mut Vec<ForeignSpace>,
) -> Result<bool, AllocError>
    requires within { index < length text.now }
    requires fits { start + length text.now < 2 ^ 64 }
    requires boundary { is_inside ≡ false → IsCharBoundary text.now index }
    ensures byte { IfOk result (λ is_in. is_in ≡ is_foreign (slice_index text.now index)) }
    ensures runs { OnOk result
        (map run_of found.new.items ≡ map run_of found.old.items ++ run_if (start + index) is_inside (slice_index text.now index) (drop index text.now)) }
{
    if is_blank(text.as_bytes()[index]) {
        return Ok(false);
    }
    if is_inside {
        return Ok(true);
    }
    found.push(run_at(start + index, &text[index..]))?;
    Ok(true)
}

// Adds the runs of a text that starts at an offset.
fn add_runs(start: usize, text: &str, found: &mut Vec<ForeignSpace>) -> Result<(), AllocError>
    requires { start + length text.now < 2 ^ 64 }
    ensures { OnOk result (map run_of found.new.items ≡ map run_of found.old.items ++ runs_from start false text.now) }
{
    let mut is_inside = false;
    for index in 0..text.len() {
        is_inside = add_run(start, text, index, is_inside, found)?;
    }
    Ok(())
}

// Adds the runs of a token, if it is white space.
fn add_token(token: &SyntaxToken<'_>, found: &mut Vec<ForeignSpace>) -> Result<(), AllocError>
    ensures { OnOk result (map run_of found.new.items ≡ map run_of found.old.items ++ runs_at (false, token.now)) }
{
    if token.kind() != SyntaxKind::TOKEN_WHITESPACE {
        return Ok(());
    }
    add_runs(token.text_range().start(), token.text(), found)
}

// Adds the runs of an element, if it is white space.
fn add_element(element: SyntaxElement<'_>, found: &mut Vec<ForeignSpace>) -> Result<(), AllocError>
    ensures { OnOk result (map run_of found.new.items ≡ map run_of found.old.items ++ runs_at (spot_of element.entry)) }
{
    match element {
        NodeOrToken::Node(_) => Ok(()),
        NodeOrToken::Token(token) => add_token(&token, found),
    }
}

/// Returns the characters between tokens that are white space for this parser, but not for Nix, such as no-break spaces: each run of them, in order. Nix 2.8
/// refuses a text with such a character.
pub fn foreign_spaces(alloc: Global, root: &SyntaxNode<'_>) -> Result<Vec<ForeignSpace>, AllocError>
    ensures { IfOk result (λ found. map run_of found.items ≡ foreign_in root.now) }
{
    let mut found = Vec::new(alloc);
    for element in root.descendants_with_tokens() {
        add_element(element, &mut found)?;
    }
    Ok(found)
}
