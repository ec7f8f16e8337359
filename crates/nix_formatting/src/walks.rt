//! Comparison of two trees by walks over them.

ghost use Rattle.std.specs.Prelude.{◌≡◌, true, IfOk};
ghost use Rattle.rnix_green.specs.Walk.{preorder_of};
ghost use Rattle.rnix_tree.specs.Spots.{event_of};
ghost use Rattle.nix_formatting.specs.WalkSteps.{is_step, steps_of};
ghost use Rattle.nix_formatting.specs.Pairs.{IsNextStep, AreSame, ShowTheSame, same_nodes, same_tokens, AreCompared, IsPassed};

use crate::values::are_same_values;
use rnix::ast::{AstNode, Str};
use rnix::{
    NodeOrToken, PreorderWithTokens, SyntaxElement, SyntaxKind, SyntaxNode, SyntaxToken, WalkEvent,
};
use std::alloc::{AllocError, Global};

// Returns whether an event is a step: it enters or leaves a node, or passes a token other than white space.
fn is_step(event: &WalkEvent<SyntaxElement<'_>>) -> bool
    ensures { result ≡ is_step (event_of event.now) }
{
    match event {
        WalkEvent::Enter(NodeOrToken::Node(_)) => true,
        WalkEvent::Leave(NodeOrToken::Node(_)) => true,
        WalkEvent::Enter(NodeOrToken::Token(token)) => {
            token.kind() != SyntaxKind::TOKEN_WHITESPACE
        }
        WalkEvent::Leave(NodeOrToken::Token(_)) => false,
    }
}

/// Returns the next step of a walk.
pub fn next_step<'t>(walk: &mut PreorderWithTokens<'t>) -> Option<WalkEvent<SyntaxElement<'t>>>
    ensures { IsNextStep walk.old result walk.new }
{
    while let Some(event) = walk.next() {
        if is_step(&event) {
            return Some(event);
        }
    }
    None
}

// Returns whether two nodes of the same kind that are entered show the same: the same values, if they are strings.
#[tactic(auto, using(crate::proofs::WalkStepLemmas::no_strings, crate::proofs::WalkStepLemmas::one_string, crate::proofs::WalkStepLemmas::strings_show))]
fn show_the_same<'t>(
    alloc: Global,
    old: &SyntaxNode<'t>,
    new: &SyntaxNode<'t>,
) -> Result<bool, AllocError>
    ensures { IfOk result (ShowTheSame old.now new.now) }
{
    let Some(old_string) = Str::cast(old.clone()) else {
        return Ok(true);
    };
    let Some(new_string) = Str::cast(new.clone()) else {
        return Ok(true);
    };
    are_same_values(alloc, &old_string, &new_string)
}

// Returns whether two nodes that are entered have the same kind, and the same values if they are strings.
#[tactic(auto, using(crate::proofs::WalkStepLemmas::kinds_differ, crate::proofs::WalkStepLemmas::kinds_same))]
fn are_same_nodes<'t>(
    alloc: Global,
    old: &SyntaxNode<'t>,
    new: &SyntaxNode<'t>,
) -> Result<bool, AllocError>
    ensures { IfOk result (λ are_same. are_same ≡ same_nodes old.now new.now) }
{
    if old.kind() == new.kind() {
        return show_the_same(alloc, old, new);
    }
    Ok(false)
}

// Returns whether two tokens have the same kind, and the same text unless they are the contents of strings.
fn are_same_tokens(old: &SyntaxToken<'_>, new: &SyntaxToken<'_>) -> bool
    ensures { result ≡ same_tokens old.now new.now }
{
    old.kind() == new.kind()
        && (old.kind() == SyntaxKind::TOKEN_STRING_CONTENT || old.text() == new.text())
}

/// Returns whether two events have the same step.
#[tactic(auto, using(crate::proofs::WalkStepLemmas::nodes_entered, crate::proofs::WalkStepLemmas::nodes_done, crate::proofs::WalkStepLemmas::tokens_passed))]
pub fn are_same<'t>(
    alloc: Global,
    old: &WalkEvent<SyntaxElement<'t>>,
    new: &WalkEvent<SyntaxElement<'t>>,
) -> Result<bool, AllocError>
    ensures { IfOk result (λ are_same. are_same ≡ true → AreSame (event_of old.now) (event_of new.now)) }
{
    match (old, new) {
        (WalkEvent::Enter(NodeOrToken::Node(old)), WalkEvent::Enter(NodeOrToken::Node(new))) => {
            are_same_nodes(alloc, old, new)
        }
        (WalkEvent::Leave(NodeOrToken::Node(old)), WalkEvent::Leave(NodeOrToken::Node(new))) => {
            Ok(old.kind() == new.kind())
        }
        (WalkEvent::Enter(NodeOrToken::Token(old)), WalkEvent::Enter(NodeOrToken::Token(new))) => {
            Ok(are_same_tokens(old, new))
        }
        _ => Ok(false),
    }
}

/// How the next steps of two walks compare.
#[derive(Clone, Copy)]
pub enum Pair {
    /// Both are equal.
    Same,
    /// They differ, or only one walk has a next step.
    Differ,
    /// Neither walk has a next step.
    End,
}

// Compares the next steps of two walks.
fn compared<'t>(
    alloc: Global,
    old: Option<WalkEvent<SyntaxElement<'t>>>,
    new: Option<WalkEvent<SyntaxElement<'t>>>,
) -> Result<Pair, AllocError>
    ensures { IfOk result (λ pair. AreCompared pair old.entry new.entry) }
{
    match (old, new) {
        (Some(old), Some(new)) => {
            if are_same(alloc, &old, &new)? {
                Ok(Pair::Same)
            } else {
                Ok(Pair::Differ)
            }
        }
        (None, None) => Ok(Pair::End),
        _ => Ok(Pair::Differ),
    }
}

// Compares the next steps of two walks and advances past them.
#[tactic(auto, using(crate::proofs::WalkStepLemmas::passed))]
fn next_pair(
    alloc: Global,
    olds: &mut PreorderWithTokens<'_>,
    news: &mut PreorderWithTokens<'_>,
) -> Result<Pair, AllocError>
    ensures { IfOk result (IsPassed olds.old news.old olds.new news.new) }
{
    let old = next_step(olds);
    let new = next_step(news);
    compared(alloc, old, new)
}

/// Returns whether walks over two trees have the same steps: without white space, and with the values of strings in place of their contents.
#[tactic(auto, using(crate::proofs::WalkStepLemmas::same_pair, crate::proofs::WalkStepLemmas::end_pair))]
pub fn have_same_steps(
    alloc: Global,
    old: &SyntaxNode<'_>,
    new: &SyntaxNode<'_>,
) -> Result<bool, AllocError>
    ensures { IfOk result (λ are_same. are_same ≡ true → steps_of (preorder_of new.now) ≡ steps_of (preorder_of old.now)) }
{
    let mut olds = old.preorder_with_tokens();
    let mut news = new.preorder_with_tokens();
    for _ in 0..u64::MAX {
        match next_pair(alloc, &mut olds, &mut news)? {
            Pair::Same => {}
            Pair::Differ => return Ok(false),
            Pair::End => return Ok(true),
        }
    }
    Ok(false)
}
