//! The first token of a text that closes nothing.

ghost use Rattle.std.specs.Prelude.{◌≡◌, ◌||◌, reverse, List, [], ◌∷◌, OnOk, false};
ghost use Rattle.rnix_green.specs.Equality.{same_kind};
ghost use Rattle.rnix_green.specs.Tree.{item_of};
ghost use Rattle.rnix_green.specs.Walk.{Spot};
ghost use Rattle.nix_diagnostics.specs.Brackets.{opens, closes};
ghost use Rattle.nix_diagnostics.specs.Unmatched.{opener_of, is_open, open_around, closes_none, after_closing, unmatched_in, unmatched_after};

use SyntaxKind::*;
use rnix::{SyntaxKind, SyntaxToken, TextRange};
use std::alloc::{AllocError, Global};

/// Returns whether a token opens something.
// This function and the next three run for each token; without inlining they took 4 million instructions of `keys 1 10`.
#[inline(always)]
pub fn opens(kind: SyntaxKind) -> bool
    ensures { result ≡ opens kind }
{
    matches!(
        kind,
        TOKEN_L_BRACE
            | TOKEN_L_BRACK
            | TOKEN_L_PAREN
            | TOKEN_INTERPOL_START
            | TOKEN_STRING_START
            | TOKEN_LET
            | TOKEN_IF
            | TOKEN_THEN
    )
}

/// Returns whether a token closes something.
#[inline(always)]
pub fn closes(kind: SyntaxKind) -> bool
    ensures { result ≡ closes kind }
{
    matches!(
        kind,
        TOKEN_R_BRACE
            | TOKEN_R_BRACK
            | TOKEN_R_PAREN
            | TOKEN_INTERPOL_END
            | TOKEN_STRING_END
            | TOKEN_IN
            | TOKEN_THEN
            | TOKEN_ELSE
    )
}

/// Returns whether a token opens or closes something.
#[inline(always)]
pub fn is_bracket(kind: SyntaxKind) -> bool
    ensures { result ≡ (opens kind || closes kind) }
{
    opens(kind) || closes(kind)
}

/// Returns the kind of token that a token of the kind closes, if it closes one.
#[inline(always)]
pub fn opener_of(closing: SyntaxKind) -> Option<SyntaxKind>
    ensures { result ≡ opener_of closing }
{
    match closing {
        TOKEN_R_BRACE => Some(TOKEN_L_BRACE),
        TOKEN_R_BRACK => Some(TOKEN_L_BRACK),
        TOKEN_R_PAREN => Some(TOKEN_L_PAREN),
        TOKEN_INTERPOL_END => Some(TOKEN_INTERPOL_START),
        TOKEN_STRING_END => Some(TOKEN_STRING_START),
        TOKEN_IN => Some(TOKEN_LET),
        TOKEN_THEN => Some(TOKEN_IF),
        TOKEN_ELSE => Some(TOKEN_THEN),
        _ => None,
    }
}

/// The openings that are not yet closed after some tokens of a text, up to the first token that closes nothing.
#[derive(Drop)]
pub struct Openings {
    // The kinds of the open tokens, innermost last.
    opened: Vec<SyntaxKind>,
    /// The first token that closes nothing. No token after it is read.
    pub extra: Option<TextRange>,
}

// Returns whether two kinds are the same.
fn same_kind(a: SyntaxKind, b: SyntaxKind) -> bool
    ensures { result ≡ same_kind a b }
{
    a == b
}

// Closes the innermost opening of a kind, and all inside it. Returns whether there is one.
fn close(opened: &mut Vec<SyntaxKind>, kind: SyntaxKind) -> bool
    ensures closes { result ≡ is_open kind (reverse opened.old.items) }
    ensures around { reverse opened.new.items ≡ open_around kind (reverse opened.old.items) }
{
    while let Some(innermost) = opened.pop() {
        if same_kind(innermost, kind) {
            return true;
        }
    }
    false
}

// Closes what a token of the kind closes. Returns whether the token closes something, but nothing of that kind is open.
fn closes_none(opened: &mut Vec<SyntaxKind>, kind: SyntaxKind) -> bool
    ensures none { result ≡ closes_none (opener_of kind) (reverse opened.old.items) }
    ensures remaining { reverse opened.new.items ≡ after_closing (opener_of kind) (reverse opened.old.items) }
{
    match opener_of(kind) {
        Some(opener) => !close(opened, opener),
        None => false,
    }
}

impl Openings {
    /// Returns the state before the first token: nothing is open.
    pub fn new(alloc: Global) -> Openings
        ensures { (spots : List Spot) → unmatched_after result spots ≡ unmatched_in [] spots }
    {
        Openings {
            opened: Vec::new(alloc),
            extra: None,
        }
    }

    // Reads the next token, of the given kind, which opens or closes something.
    fn read_bracket(&mut self, token: &SyntaxToken<'_>, kind: SyntaxKind) -> Result<(), AllocError>
        requires { kind ≡ (item_of token.now).kind }
        ensures { OnOk result ((spots : List Spot) → unmatched_after self.old ((false, token.now) ∷ spots) ≡ unmatched_after self.new spots) }
    {
        if self.extra.is_some() {
            return Ok(());
        }
        if closes_none(&mut self.opened, kind) {
            self.extra = Some(token.text_range());
            return Ok(());
        }
        if opens(kind) {
            self.opened.push(kind)?;
            return Ok(());
        }
        Ok(())
    }

    /// Reads the next token, of the given kind.
    #[inline(always)]
    pub fn read(&mut self, token: &SyntaxToken<'_>, kind: SyntaxKind) -> Result<(), AllocError>
        requires { kind ≡ (item_of token.now).kind }
        ensures { OnOk result ((spots : List Spot) → unmatched_after self.old ((false, token.now) ∷ spots) ≡ unmatched_after self.new spots) }
    {
        if is_bracket(kind) {
            return self.read_bracket(token, kind);
        }
        Ok(())
    }
}
