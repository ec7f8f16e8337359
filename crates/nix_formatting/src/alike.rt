//! Comparison of the tokens of two texts other than white space.

ghost use Rattle.std.specs.Prelude.{◌≡◌, true, IfOk};
ghost use Rattle.rnix_grammar.specs.TokenKinds.{is_piece_start};
ghost use Rattle.rnix_proof_layout.specs.AlikeItems.{ends_piece};
ghost use Rattle.nix_formatting.specs.SpaceChange.{visible_tokens_of};
ghost use Rattle.nix_formatting.specs.VisibleTokens.{IsNextVisible, same_flag, same_visible, AreCompared, IsStep};

use rnix::{SyntaxKind, Tokenizer, tokenize};
use std::alloc::{AllocError, Global};

// A token other than white space.
#[derive(Clone, Copy)]
struct VisibleToken<'t> {
    kind: SyntaxKind,
    text: &'t str,
    // Whether it follows a part of a path without white space between, and would continue the path.
    joins: bool,
}

// Returns whether a path may continue after a token of the kind.
fn ends_piece(kind: SyntaxKind) -> bool
    ensures { result ≡ ends_piece kind }
{
    matches!(
        kind,
        SyntaxKind::TOKEN_PATH_ABS
            | SyntaxKind::TOKEN_PATH_HOME
            | SyntaxKind::TOKEN_PATH_REL
            | SyntaxKind::TOKEN_INTERPOL_END
    )
}

// Returns whether a token of the kind continues a path that ends right before it.
fn is_piece_start(kind: SyntaxKind) -> bool
    ensures { result ≡ is_piece_start kind }
{
    matches!(
        kind,
        SyntaxKind::TOKEN_PATH_ABS
            | SyntaxKind::TOKEN_PATH_HOME
            | SyntaxKind::TOKEN_PATH_REL
            | SyntaxKind::TOKEN_INTERPOL_START
    )
}

// Returns the next token other than white space; `in_path` is whether a part of a path precedes the first token.
fn next_visible<'t>(
    tokens: &mut Tokenizer<'t>,
    in_path: bool,
) -> Result<Option<VisibleToken<'t>>, AllocError>
    ensures { IfOk result (λ found. IsNextVisible in_path tokens.old found tokens.new) }
{
    let mut in_path = in_path;
    while let Some(token) = tokens.next_token() {
        let (kind, text) = token?;
        if kind != SyntaxKind::TOKEN_WHITESPACE {
            let joins = in_path && is_piece_start(kind);
            return Ok(Some(VisibleToken { kind, text, joins }));
        }
        in_path = false;
    }
    Ok(None)
}

// How the next tokens of two texts compare.
#[derive(Clone, Copy)]
enum Step {
    // Both are the same token, of this kind.
    Same(SyntaxKind),
    // They differ, or only one text has a next token.
    Differ,
    // Neither text has a next token.
    End,
}

/// Returns whether two flags are the same.
pub fn same_flag(old: bool, new: bool) -> bool
    ensures { result ≡ same_flag old new }
{
    if old { new } else { !new }
}

// Returns whether two tokens are the same.
fn is_same(old: &VisibleToken<'_>, new: &VisibleToken<'_>) -> bool
    ensures { result ≡ same_visible old.now new.now }
{
    old.kind == new.kind && old.text == new.text && same_flag(old.joins, new.joins)
}

// Compares the next tokens of two texts.
#[tactic(auto, using(crate::proofs::VisibleTokenLemmas::visible_tokens_same))]
fn compared<'t>(old: Option<VisibleToken<'t>>, new: Option<VisibleToken<'t>>) -> Step
    ensures { AreCompared result old.entry new.entry }
{
    match (old, new) {
        (Some(old), Some(new)) => {
            if is_same(&old, &new) {
                Step::Same(old.kind)
            } else {
                Step::Differ
            }
        }
        (None, None) => Step::End,
        _ => Step::Differ,
    }
}

// Compares the next tokens of two texts and advances past them.
#[tactic(auto, using(crate::proofs::VisibleTokenLemmas::stepped))]
fn next_step(
    olds: &mut Tokenizer<'_>,
    news: &mut Tokenizer<'_>,
    in_path: bool,
) -> Result<Step, AllocError>
    ensures { IfOk result (IsStep in_path olds.old news.old olds.new news.new) }
{
    let old = next_visible(olds, in_path)?;
    let new = next_visible(news, in_path)?;
    Ok(compared(old, new))
}

/// Returns whether two texts have the same tokens except for white space, and the same parts of paths without white space between them.
#[tactic(auto, using(crate::proofs::VisibleTokenLemmas::same_text, crate::proofs::VisibleTokenLemmas::same_step, crate::proofs::VisibleTokenLemmas::end_step))]
pub fn have_same_visible_tokens(alloc: Global, old: &str, new: &str) -> Result<bool, AllocError>
    ensures { IfOk result (λ are_same. are_same ≡ true → visible_tokens_of new.now ≡ visible_tokens_of old.now) }
{
    if old == new {
        return Ok(true);
    }
    let mut olds = tokenize(alloc, old);
    let mut news = tokenize(alloc, new);
    let mut in_path = false;
    for _ in 0..u64::MAX {
        match next_step(&mut olds, &mut news, in_path)? {
            Step::Same(kind) => in_path = ends_piece(kind),
            Step::Differ => return Ok(false),
            Step::End => return Ok(true),
        }
    }
    Ok(false)
}
