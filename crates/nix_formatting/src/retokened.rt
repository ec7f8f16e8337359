//! Comparison of two trees by walks over them, apart from commas and the marks of comments.

ghost use Rattle.std.specs.Prelude.{◌≡◌, true, false, IfOk};
ghost use Rattle.rnix_green.specs.Walk.{preorder_of};
ghost use Rattle.rnix_tree.specs.Spots.{event_of};
ghost use Rattle.nix_formatting.specs.WalkSteps.{step_of};
ghost use Rattle.nix_formatting.specs.WithoutCommas.{is_kept};
ghost use Rattle.nix_formatting.specs.KeptPairs.{kept_of, IsNextKept, AreAlike, AreKeptCompared, AreKeptPassed};

use crate::comments::contents_of;
use crate::walks::{Pair, are_same, next_step};
use rnix::{
    NodeOrToken, PreorderWithTokens, SyntaxElement, SyntaxKind, SyntaxNode, SyntaxToken, WalkEvent,
};
use std::alloc::{AllocError, Global};

// Returns whether an event passes no comma.
fn is_kept(event: &WalkEvent<SyntaxElement<'_>>) -> bool
    ensures { result ≡ is_kept (step_of (event_of event.now)) }
{
    match event {
        WalkEvent::Enter(element) | WalkEvent::Leave(element) => match element {
            NodeOrToken::Token(token) => token.kind() != SyntaxKind::TOKEN_COMMA,
            NodeOrToken::Node(_) => true,
        },
    }
}

// Returns the next step of a walk that passes no comma.
fn next_kept<'t>(walk: &mut PreorderWithTokens<'t>) -> Option<WalkEvent<SyntaxElement<'t>>>
    ensures { IsNextKept walk.old result walk.new }
{
    while let Some(event) = next_step(walk) {
        if is_kept(&event) {
            return Some(event);
        }
    }
    None
}

// Returns whether two tokens are comments with the same contents.
fn are_alike_comments(old: &SyntaxToken<'_>, new: &SyntaxToken<'_>) -> bool
    ensures { result ≡ true → AreAlike (true, (false, old.now)) (true, (false, new.now)) }
{
    old.kind() == SyntaxKind::TOKEN_COMMENT
        && new.kind() == SyntaxKind::TOKEN_COMMENT
        && contents_of(old.text().as_bytes()) == contents_of(new.text().as_bytes())
}

// Returns whether two events have the same step, apart from the marks of comments.
fn are_alike<'t>(
    alloc: Global,
    old: &WalkEvent<SyntaxElement<'t>>,
    new: &WalkEvent<SyntaxElement<'t>>,
) -> Result<bool, AllocError>
    ensures { IfOk result (λ are_alike. are_alike ≡ true → AreAlike (event_of old.now) (event_of new.now)) }
{
    match (old, new) {
        (WalkEvent::Enter(NodeOrToken::Token(old)), WalkEvent::Enter(NodeOrToken::Token(new)))
            if are_alike_comments(old, new) => { Ok(true) }
        _ => are_same(alloc, old, new),
    }
}

// Compares the next kept steps of two walks.
fn compared<'t>(
    alloc: Global,
    old: Option<WalkEvent<SyntaxElement<'t>>>,
    new: Option<WalkEvent<SyntaxElement<'t>>>,
) -> Result<Pair, AllocError>
    ensures { IfOk result (λ pair. AreKeptCompared pair old.entry new.entry) }
{
    match (old, new) {
        (Some(old), Some(new)) => {
            if are_alike(alloc, &old, &new)? {
                Ok(Pair::Same)
            } else {
                Ok(Pair::Differ)
            }
        }
        (None, None) => Ok(Pair::End),
        _ => Ok(Pair::Differ),
    }
}

// Compares the next kept steps of two walks and advances past them.
#[tactic(auto, using(crate::proofs::KeptStepLemmas::passed))]
fn next_pair(
    alloc: Global,
    olds: &mut PreorderWithTokens<'_>,
    news: &mut PreorderWithTokens<'_>,
) -> Result<Pair, AllocError>
    ensures { IfOk result (AreKeptPassed olds.old news.old olds.new news.new) }
{
    let old = next_kept(olds);
    let new = next_kept(news);
    compared(alloc, old, new)
}

/// Returns whether walks over two trees have the same steps, apart from commas and the marks of comments.
#[tactic(auto, using(crate::proofs::KeptStepLemmas::same_pair, crate::proofs::KeptStepLemmas::end_pair))]
pub fn have_same_kept_steps(
    alloc: Global,
    old: &SyntaxNode<'_>,
    new: &SyntaxNode<'_>,
) -> Result<bool, AllocError>
    ensures { IfOk result (λ are_same. are_same ≡ true → kept_of (preorder_of new.now) ≡ kept_of (preorder_of old.now)) }
{
    let mut olds = old.preorder_with_tokens();
    let mut news = new.preorder_with_tokens();
    for _ in 0..u64::MAX {
        match next_pair(alloc, &mut olds, &mut news)? {
            Pair::Same => {}
            Pair::Differ => return Ok(false),
            Pair::End => return Ok(true),
        }
    }
    Ok(false)
}
