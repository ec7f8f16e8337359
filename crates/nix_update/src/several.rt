//! Several updates of a text, one after another.

ghost use Rattle.std.specs.Prelude.{IfOk};
ghost use Rattle.nix_update.specs.FullUpdates.{IsFullyUpdated};
ghost use Rattle.nix_update.specs.Several.{AreUpdatedAll};

use crate::completed::{attempt_of, fully_updated};
use crate::outcome::{Attempt, Outcome, Refused};
use crate::request::Update;
use std::alloc::{AllocError, Global};

/// The result of several updates.
#[derive(Drop)]
pub enum Several {
    /// The new text, and the numbers of the updates that change the value of a name of a `let`.
    Updated(String, Vec<usize>),
    /// The number of the update that is refused, and the refusal. Its offsets are those of the text that the updates before it make.
    Refused(usize, Refused),
}

// Returns the outcome of one of the updates.
fn next_outcome(alloc: Global, text: &str, update: &Update<'_>) -> Result<Outcome, AllocError>
    ensures { IfOk result (IsFullyUpdated update.now text.now) }
{
    fully_updated(alloc, text, *update)
}

// Returns whether the value of a name of a `let` is changed.
fn is_in_let(outcome: &Outcome) -> bool {
    matches!(outcome, Outcome::SetInLet(..))
}

/// Returns the text after several updates, each of the text that the one before makes, or the refusal of the first one that is refused.
pub fn all_updated(alloc: Global, text: &str, updates: &[Update<'_>]) -> Result<Several, AllocError>
    ensures { IfOk result (AreUpdatedAll updates.now text.now) }
{
    let mut made = String::from_str(alloc, text)?;
    let mut in_let = Vec::new(alloc);
    let mut number = 0;
    for update in updates {
        let outcome = next_outcome(alloc, made.as_str(), update)?;
        if is_in_let(&outcome) {
            in_let.push(number)?;
        }
        match attempt_of(outcome) {
            Attempt::Made(next) => made = next,
            Attempt::Refused(refused) => return Ok(Several::Refused(number, refused)),
        }
        number += 1;
    }
    Ok(Several::Updated(made, in_let))
}
