//! Texts in which an attribute is set, added or removed.

ghost use Rattle.std.specs.Prelude.{◌≡◌, ◌⊎◌, true, length, map, string_bytes, IfOk, IsTrue, IsFalse};
ghost use Rattle.nix_attributes.specs.Repeated.{repeated_in};
ghost use Rattle.nix_update.specs.OfRequest.{names_of, IsDefinitionRefusedFor, IsUndefinedOutcome, IsUndefinedRefusedFor, IsOutcomeFor, IsAttributeRefusedFor};
ghost use Rattle.nix_update.specs.Updated.{IfMade, IfNew, HasNoMoreRepeated, IfUpdated, IfSetInLet, outcome_of, IsOnlyChanged, IsDefinitionUpdated};
ghost use Rattle.nix_update.specs.declared.outcome.Reason.TheVariants as reason;
ghost use Rattle.nix_update.specs.NotUpdated.{IfRefused, IfNone, IsNotChangedInLet};
ghost use Rattle.nix_update.specs.Results.{HasNew, HasMoreRepeated, IsUpdated};

use crate::adding::add;
use crate::definitions::{Definition, definitions_of};
use crate::insertion_sets::deepest_node;
use crate::node_start::start_of;
use crate::outcome::{Attempt, Outcome, Reason, Refused, refuse, refuse_at, refuse_with_first};
use crate::path::{Path, path_of};
use crate::removing::remove_entry;
use crate::request::{Action, Update};
use crate::setting::change_entry;
use crate::steps::{PathStep, path_steps};
use nix_attributes::repeated_attributes;
use rnix::{Root, SyntaxNode};
use std::alloc::{AllocError, Global};

/// Returns the refusal if several entries define the attribute.
pub fn refuse_several(first: &Definition<'_>, second: &Definition<'_>) -> Refused
    ensures { result.reason ≡ reason.SeveralEntries }
{
    refuse_with_first(
        Reason::SeveralEntries,
        start_of(&first.entry),
        start_of(&second.entry),
    )
}

/// Returns the refusal if no entry defines the attribute.
pub fn refuse_none(steps: &[PathStep<'_>], root: &SyntaxNode<'_>) -> Refused
    ensures { result.reason ≡ reason.NoAttribute }
{
    let end = deepest_node(steps, root);
    refuse_at(Reason::NoAttribute, start_of(&end))
}

// Changes the value of a name of a `let`, if no attribute has the path.
fn set_in_let(
    alloc: Global,
    text: &str,
    root: &SyntaxNode<'_>,
    path: &Path<'_>,
    steps: &[PathStep<'_>],
    update: Update<'_>,
) -> Result<Outcome, AllocError>
    ensures set { IfOk result (IfSetInLet (IsOnlyChanged true update.entry (names_of path.now) steps.now text.now root.now)) }
    ensures no_other { IfOk result (IfUpdated (λ made. ⊥)) }
    ensures refused { IfOk result (IfNone (IsNotChangedInLet update.entry (names_of path.now) steps.now text.now root.now)) }
{
    let definitions = definitions_of(alloc, &path.names, steps, true)?;
    let Some(definition) = definitions.first() else {
        return Ok(Outcome::Refused(refuse_none(steps, root)));
    };
    match definitions.get(1) {
        Some(second) => Ok(Outcome::Refused(refuse_several(definition, second))),
        None => match change_entry(alloc, text, root, update, definition)? {
            Attempt::Made(made) => Ok(Outcome::SetInLet(made, start_of(&definition.entry))),
            Attempt::Refused(refused) => Ok(Outcome::Refused(refused)),
        },
    }
}

// Updates the attribute that a single entry defines.
fn update_defined(
    alloc: Global,
    text: &str,
    root: &SyntaxNode<'_>,
    names: &[String],
    steps: &[PathStep<'_>],
    update: Update<'_>,
    definition: &Definition<'_>,
) -> Result<Attempt, AllocError>
    ensures made { IfOk result (IfMade (IsDefinitionUpdated update.entry.action update.entry
        (map string_bytes names.now) steps.now text.now root.now definition.now)) }
    ensures refused { IfOk result (IfRefused
        (IsDefinitionRefusedFor update.entry (map string_bytes names.now) steps.now text.now root.now definition.now)) }
{
    match update.action {
        Action::Remove => remove_entry(alloc, text, root, names, steps, update, definition),
        Action::Set | Action::Add | Action::Append | Action::RemoveItem => {
            change_entry(alloc, text, root, update, definition)
        }
    }
}

// Updates an attribute that no entry defines.
fn update_undefined(
    alloc: Global,
    text: &str,
    root: &SyntaxNode<'_>,
    path: &Path<'_>,
    steps: &[PathStep<'_>],
    update: Update<'_>,
) -> Result<Outcome, AllocError>
    ensures made { IfOk result (IsUndefinedOutcome update.entry path.now steps.now text.now root.now) }
    ensures refused { IfOk result (IfNone (IsUndefinedRefusedFor update.entry path.now steps.now text.now root.now)) }
{
    match update.action {
        Action::Remove => Ok(Outcome::Refused(refuse_none(steps, root))),
        Action::Add => {
            let attempt = add(alloc, text, root, path, steps, update)?;
            Ok(outcome_of(attempt))
        }
        Action::Set | Action::Append | Action::RemoveItem => {
            set_in_let(alloc, text, root, path, steps, update)
        }
    }
}

// Returns the result of an attempt.
fn outcome_of(attempt: Attempt) -> Outcome
    ensures { result ≡ outcome_of attempt }
{
    match attempt {
        Attempt::Made(made) => Outcome::Updated(made),
        Attempt::Refused(refused) => Outcome::Refused(refused),
    }
}

// Updates a text, given the expressions along the path.
fn update_in(
    alloc: Global,
    text: &str,
    root: &SyntaxNode<'_>,
    path: &Path<'_>,
    steps: &[PathStep<'_>],
    update: Update<'_>,
) -> Result<Outcome, AllocError>
    ensures made { IfOk result (IsOutcomeFor update.entry path.now steps.now text.now root.now) }
    ensures refused { IfOk result (IfNone (IsAttributeRefusedFor update.entry path.now steps.now text.now root.now)) }
{
    let definitions = definitions_of(alloc, &path.names, steps, false)?;
    let Some(definition) = definitions.first() else {
        return update_undefined(alloc, text, root, path, steps, update);
    };
    match definitions.get(1) {
        Some(second) => Ok(Outcome::Refused(refuse_several(definition, second))),
        None => {
            let attempt = update_defined(
                alloc,
                text,
                root,
                &path.names,
                steps,
                update,
                definition,
            )?;
            Ok(outcome_of(attempt))
        }
    }
}

// Returns the number of names in a text that define an attribute again.
fn count_repeated(alloc: Global, root: &SyntaxNode<'_>) -> Result<usize, AllocError>
    ensures { IfOk result (λ count. count ≡ length (repeated_in root.now)) }
{
    let found = repeated_attributes(alloc, root)?;
    Ok(found.len())
}

// Returns whether a new text has no more names that define an attribute again than the old one.
fn is_as_defined(alloc: Global, root: &SyntaxNode<'_>, made: &str) -> Result<bool, AllocError>
    ensures yes { IfOk result (λ is. IsTrue is → HasNoMoreRepeated root.now made.now) }
    ensures no { IfOk result (λ is. IsFalse is → HasMoreRepeated root.now made.now) }
{
    let read = Root::parse(alloc, made)?;
    let count = count_repeated(alloc, &read.syntax())?;
    Ok(count <= count_repeated(alloc, root)?)
}

// Returns an outcome, or the refusal if its text defines an attribute again that cannot be defined again.
fn accept(alloc: Global, root: &SyntaxNode<'_>, outcome: Outcome) -> Result<Outcome, AllocError>
    ensures made { IfOk result (λ accepted. IfNew (λ made. (accepted ≡ outcome) × HasNoMoreRepeated root.now made) accepted) }
    ensures refused { IfOk result (λ accepted. IfNone (λ why. (accepted ≡ outcome)
        ⊎ ((why ≡ reason.Repeated) × HasNew (HasMoreRepeated root.now) outcome)) accepted) }
{
    let is_good = match &outcome {
        Outcome::Updated(made) | Outcome::SetInLet(made, _) => {
            is_as_defined(alloc, root, made.as_str())?
        }
        Outcome::Refused(_) => true,
    };
    if is_good {
        Ok(outcome)
    } else {
        Ok(Outcome::Refused(refuse(Reason::Repeated)))
    }
}

/// Returns the updated text, or the refusal.
pub fn updated(alloc: Global, text: &str, update: Update<'_>) -> Result<Outcome, AllocError>
    ensures { IfOk result (IsUpdated update.entry text.now) }
{
    let Some(path) = path_of(alloc, update.path)? else {
        return Ok(Outcome::Refused(refuse(Reason::NotAPath)));
    };
    let read = Root::parse(alloc, text)?;
    if let Some(error) = read.errors().first() {
        let offset = error.range().map_or(text.len(), |range| range.start());
        return Ok(Outcome::Refused(refuse_at(Reason::NotNix, offset)));
    }
    let root = read.syntax();
    let steps = path_steps(alloc, &root, &path.names)?;
    let outcome = update_in(alloc, text, &root, &path, &steps, update)?;
    accept(alloc, &root, outcome)
}
