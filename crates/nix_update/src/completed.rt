//! Updates that are repeated: until no element is left to remove.

ghost use Rattle.std.specs.Prelude.{◌≡◌, string_bytes, IfOk};
ghost use Rattle.nix_update.specs.Updated.{IfMade};
ghost use Rattle.nix_update.specs.NotUpdated.{IfRefused};
ghost use Rattle.nix_update.specs.declared.outcome.Outcome.TheVariants as outcomes;
ghost use Rattle.nix_update.specs.declared.outcome.Reason.TheVariants as reason;
ghost use Rattle.nix_update.specs.Results.{HasNew};
ghost use Rattle.nix_update.specs.FullUpdates.{IfRefusal, IsRepeatedToEnd, IsNotRepeatedToEnd, IsCompleted, IsNotCompleted, IsFullyUpdated};

use crate::outcome::{Attempt, Outcome, Reason, Refused, refuse};
use crate::request::{Action, Update};
use crate::update::updated;
use std::alloc::{AllocError, Global};

/// Returns the new text of an outcome, or the refusal.
pub fn attempt_of(outcome: Outcome) -> Attempt
    ensures made { IfMade (λ made. HasNew (λ new. new ≡ made) outcome) result }
    ensures refused { IfRefusal (λ refused. outcome ≡ outcomes.Refused refused) result }
{
    match outcome {
        Outcome::Updated(made) => Attempt::Made(made),
        Outcome::SetInLet(made, _) => Attempt::Made(made),
        Outcome::Refused(refused) => Attempt::Refused(refused),
    }
}

// Returns a text that is not updated again because no element is left to remove, or the refusal for another reason.
fn ended(text: String, refused: Refused) -> Attempt
    ensures made { IfMade (λ made. (made ≡ string_bytes text) × (refused.reason ≡ reason.NoElement)) result }
    ensures refused { IfRefused (λ why. (why ≡ refused.reason) × ¬ (why ≡ reason.NoElement)) result }
{
    match refused.reason {
        Reason::NoElement => Attempt::Made(text),
        other => Attempt::Refused(refuse(other)),
    }
}

// Repeats an update until no element is left to remove.
fn repeat(alloc: Global, first: String, update: Update<'_>) -> Result<Attempt, AllocError>
    ensures made { IfOk result (IfMade (IsRepeatedToEnd update.entry (string_bytes first))) }
    ensures refused { IfOk result (IfRefused (IsNotRepeatedToEnd update.entry (string_bytes first))) }
{
    let most = first.len();
    let mut text = first;
    // Each removal makes the text shorter.
    for _ in 0..most {
        match attempt_of(updated(alloc, text.as_str(), update)?) {
            Attempt::Made(made) => text = made,
            Attempt::Refused(refused) => return Ok(ended(text, refused)),
        }
    }
    Err(AllocError)
}

// Repeats an update if it removes elements, after the first time.
fn complete(alloc: Global, first: String, update: Update<'_>) -> Result<Attempt, AllocError>
    ensures made { IfOk result (IfMade (IsCompleted update.entry (string_bytes first))) }
    ensures refused { IfOk result (IfRefused (IsNotCompleted update.entry (string_bytes first))) }
{
    match update.action {
        Action::RemoveItem => repeat(alloc, first, update),
        _ => Ok(Attempt::Made(first)),
    }
}

/// Returns the updated text, or the refusal. If elements are removed, none is left. The offsets of a refusal are those of `text`; a refusal after the first
/// removal has none.
pub fn fully_updated(alloc: Global, text: &str, update: Update<'_>) -> Result<Outcome, AllocError>
    ensures { IfOk result (IsFullyUpdated update.entry text.now) }
{
    match updated(alloc, text, update)? {
        Outcome::Updated(first) => match complete(alloc, first, update)? {
            Attempt::Made(made) => Ok(Outcome::Updated(made)),
            Attempt::Refused(refused) => Ok(Outcome::Refused(refused)),
        },
        Outcome::SetInLet(first, offset) => match complete(alloc, first, update)? {
            Attempt::Made(made) => Ok(Outcome::SetInLet(made, offset)),
            Attempt::Refused(refused) => Ok(Outcome::Refused(refused)),
        },
        Outcome::Refused(refused) => Ok(Outcome::Refused(refused)),
    }
}
