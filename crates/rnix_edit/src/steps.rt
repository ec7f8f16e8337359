//! Comparing trees by the steps of walks over them, without white space.

ghost use Rattle.std.specs.Prelude.{◌≡◌, ◌<◌, ◌≤◌, ◌+◌, [], ◌∷◌, MatchOption, IfSome, IfNone, IsTrue};
ghost use Rattle.rnix_green.specs.Tree.{item_of, text_at};
ghost use Rattle.std.specs.Bool.{Decides};
ghost use Rattle.rnix_tree.specs.{Spots.{event_of}, WalksAlike.{siblings_before}};
ghost use Rattle.rnix_edit.specs.Steps.{step_of, token_steps, node_step, step_at, steps_of, enters, leaves, events_before, events_inside, events_after};
ghost use Rattle.rnix_edit.specs.Steps.{is_exited, is_comment, ArePassed, AreTaken, AreCommentsTaken, IsClosingTaken};

use crate::node_range::{NodeRange, is_at};
use rnix::{
    NodeOrToken, PreorderWithTokens, SyntaxElement, SyntaxKind, SyntaxNode, SyntaxToken, WalkEvent,
};

// The number of failed attempts after which walks are compared step by step, so that the time stays linear.
const MAX_MISSES: u8 = 2;

/// A step of a walk: entering or leaving a node, which has no text, or passing a token.
#[derive(Clone, Copy)]
pub struct Step<'t> {
    pub enters: bool,
    pub kind: SyntaxKind,
    pub text: &'t str,
}

// Returns the step of a token, unless it is white space.
fn token_step<'t>(token: &SyntaxToken<'t>) -> Option<Step<'t>>
    ensures { MatchOption result (token_steps (item_of token.now).kind (text_at token.now) ≡ [])
        (λ step. token_steps (item_of token.now).kind (text_at token.now) ≡ step_of step ∷ []) }
{
    let kind = token.kind();
    if kind == SyntaxKind::TOKEN_WHITESPACE {
        return None;
    }
    Some(Step {
        enters: true,
        kind,
        text: token.text(),
    })
}

// Returns the step of entering or leaving a node.
fn node_step<'t>(node: &SyntaxNode<'t>, enters: bool) -> Step<'t>
    ensures { step_of result ≡ node_step enters (item_of node.now).kind }
{
    Step {
        enters,
        kind: node.kind(),
        text: "",
    }
}

// Returns whether an event enters the node with a range.
fn enters(event: &WalkEvent<SyntaxElement<'_>>, target: NodeRange) -> bool
    ensures { result ≡ enters target (event_of event.now) }
{
    match event {
        WalkEvent::Enter(NodeOrToken::Node(node)) => is_at(node, target),
        _ => false,
    }
}

// Returns whether an event leaves the node with a range.
fn leaves(event: &WalkEvent<SyntaxElement<'_>>, target: NodeRange) -> bool
    ensures { result ≡ leaves target (event_of event.now) }
{
    match event {
        WalkEvent::Leave(NodeOrToken::Node(node)) => is_at(node, target),
        _ => false,
    }
}

/// Takes the events up to the one that leaves the node with a range, and returns whether there is one.
pub fn skip_node(events: &mut PreorderWithTokens<'_>, target: NodeRange) -> bool
    ensures rest { events.new ≡ events_after target events.old }
    ensures found { result ≡ is_exited target events.old }
{
    while let Some(event) = events.next() {
        if leaves(&event, target) {
            return true;
        }
    }
    false
}

impl<'t> PartialEq for Step<'t> {
    ghost use Rattle.std.specs.Cmp.{partial_equiv_from_equiv};
    ghost use Rattle.rnix_edit.specs.SameSteps.{same_made, steps_equal};

    ghost eq = { same_made };

    ghost laws = { partial_equiv_from_equiv steps_equal };

    fn eq(&self, other: &Step<'t>) -> bool {
        self.enters == other.enters && self.kind == other.kind && self.text == other.text
    }
}

// Returns whether a step passes a comment.
fn is_comment(step: &Step<'_>) -> bool
    ensures { result ≡ is_comment (step_of step.now) }
{
    step.kind == SyntaxKind::TOKEN_COMMENT
}

// Returns the step of an event, if it has one.
fn step_at<'t>(event: &WalkEvent<SyntaxElement<'t>>) -> Option<Step<'t>>
    ensures { MatchOption result (step_at (event_of event.now) ≡ []) (λ step. step_at (event_of event.now) ≡ step_of step ∷ []) }
{
    match event {
        WalkEvent::Enter(NodeOrToken::Node(node)) => Some(node_step(node, true)),
        WalkEvent::Leave(NodeOrToken::Node(node)) => Some(node_step(node, false)),
        WalkEvent::Enter(NodeOrToken::Token(token)) => token_step(token),
        WalkEvent::Leave(NodeOrToken::Token(_)) => None,
    }
}

// Takes the next step of a walk.
fn next_step<'t>(events: &mut PreorderWithTokens<'t>) -> Option<Step<'t>>
    ensures { MatchOption result (steps_of events.old ≡ []) (λ step. steps_of events.old ≡ step_of step ∷ steps_of events.new) }
{
    while let Some(event) = events.next() {
        if let Some(step) = step_at(&event) {
            return Some(step);
        }
    }
    None
}

// Takes the next step of a walk before the node with a range, if there is one. If not, the walk has then entered that node, or has ended.
fn next_before<'t>(events: &mut PreorderWithTokens<'t>, target: NodeRange) -> Option<Step<'t>>
    ensures steps { MatchOption result (steps_of (events_before target events.old) ≡ [])
        (λ step. steps_of (events_before target events.old) ≡ step_of step ∷ steps_of (events_before target events.new)) }
    ensures entered { IfNone result (events.new ≡ events_inside target events.old) }
    ensures inside { IfSome result (λ _. events_inside target events.new ≡ events_inside target events.old) }
{
    while let Some(event) = events.next() {
        if enters(&event, target) {
            return None;
        }
        if let Some(step) = step_at(&event) {
            return Some(step);
        }
    }
    None
}

// Returns whether two steps are equal.
fn is_step<'t>(a: Step<'t>, b: Step<'t>) -> bool
    ensures { Decides result (step_of a.entry ≡ step_of b.entry) }
{
    a == b
}

// Returns whether no step remains.
fn are_done(mut events: PreorderWithTokens<'_>) -> bool
    ensures { Decides result (steps_of events.entry ≡ []) }
{
    match next_step(&mut events) {
        Some(_) => false,
        None => true,
    }
}

// Passes the siblings that walk `a` enters next and that end before an offset, if walk `b` has equal ones before another offset. Makes no attempt after
// too many have failed. Returns the number of failed attempts.
fn try_pass(
    a: &mut PreorderWithTokens<'_>,
    before: usize,
    b: &mut PreorderWithTokens<'_>,
    other_before: usize,
    misses: u8,
) -> u8
    ensures passed { ArePassed before other_before a.old b.old a.new b.new }
    ensures all { misses < MAX_MISSES → result ≡ misses → siblings_before before 0 a.new ≡ [] }
    ensures kept { misses ≤ result }
    ensures counted { result ≤ misses + 1 }
{
    if misses >= MAX_MISSES {
        return misses;
    }
    match a.pass_alike(before, b, other_before) {
        Some(false) => misses + 1,
        _ => misses,
    }
}

/// Returns whether the remaining steps of two walks are equal.
// Passes equal siblings together, which is faster than entering and leaving each of them in both walks.
pub fn are_same_walks<'t>(mut a: PreorderWithTokens<'t>, mut b: PreorderWithTokens<'t>) -> bool
    ensures { Decides result (steps_of a.entry ≡ steps_of b.entry) }
{
    let mut misses = try_pass(&mut a, usize::MAX, &mut b, usize::MAX, 0);
    while let Some(step) = next_step(&mut a) {
        match next_step(&mut b) {
            Some(other) if is_step(step, other) => {}
            _ => return false,
        }
        if !step.enters {
            misses = try_pass(&mut a, usize::MAX, &mut b, usize::MAX, misses);
        }
    }
    are_done(b)
}

/// Returns whether two walks have the same steps before the nodes with two ranges. If so, both walks have then entered these nodes, or have ended.
pub fn are_same_before(
    events: &mut PreorderWithTokens<'_>,
    old: NodeRange,
    others: &mut PreorderWithTokens<'_>,
    new: NodeRange,
) -> bool
    ensures same { Decides result (steps_of (events_before new others.old) ≡ steps_of (events_before old events.old)) }
    ensures entered { IsTrue result → events.new ≡ events_inside old events.old }
    ensures others { IsTrue result → others.new ≡ events_inside new others.old }
{
    let mut misses = 0;
    while let Some(step) = next_before(others, new) {
        match next_before(events, old) {
            Some(other) if is_step(step, other) => {}
            _ => return false,
        }
        if step.enters {
            misses = try_pass(events, old.start, others, new.start, misses);
        }
    }
    next_before(events, old).is_none()
}

/// Takes the steps of `wanted` before the node with a range from both walks, if `events` begins with them, and returns whether it does. If so, `wanted` has
/// then entered the node, or has ended.
// Passes equal siblings together.
pub fn begins_before(
    events: &mut PreorderWithTokens<'_>,
    wanted: &mut PreorderWithTokens<'_>,
    target: NodeRange,
) -> bool
    ensures taken { AreTaken result (steps_of (events_before target wanted.old)) (steps_of events.old) (steps_of events.new) }
    ensures entered { IsTrue result → wanted.new ≡ events_inside target wanted.old }
{
    let mut misses = 0;
    while let Some(step) = next_before(wanted, target) {
        match next_step(events) {
            Some(other) if is_step(step, other) => {}
            _ => return false,
        }
        if step.enters {
            misses = try_pass(wanted, target.start, events, usize::MAX, misses);
        }
    }
    true
}

/// Takes `count` steps from a walk, as long as they pass comments, and returns whether all of them do.
pub fn takes_comments(events: &mut PreorderWithTokens<'_>, count: usize) -> bool
    ensures { AreCommentsTaken result count (steps_of events.old) (steps_of events.new) }
{
    let mut remaining = count;
    while remaining > 0 {
        match next_step(events) {
            Some(step) if is_comment(&step) => remaining -= 1,
            _ => return false,
        }
    }
    true
}

/// Takes two steps from a walk, for the last token and the end of a node. Returns whether there are two and the first one leaves no node.
pub fn takes_closing(events: &mut PreorderWithTokens<'_>) -> bool
    ensures { IsClosingTaken result (steps_of events.old) (steps_of events.new) }
{
    match next_step(events) {
        Some(bracket) if bracket.enters => next_step(events).is_some(),
        _ => false,
    }
}
