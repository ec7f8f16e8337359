//! Adding an attribute.

ghost use Rattle.std.specs.Prelude.{◌≡◌, false, drop, string_bytes, IfOk, IfSome, IfNone};
ghost use Rattle.nix_update.specs.SameNames.{HasNoOpenName, no_range};
ghost use Rattle.nix_update.specs.SpecialNames.{HasNoSpecialName};
ghost use Rattle.nix_update.specs.OfRequest.{names_at, IsRefusedWith, IsAddedAt, IsNotAddedAt, IsAddedFor, IsNotAddedFor};
ghost use Rattle.nix_update.specs.Updated.{IfMade, IsRest, IsEntryAdded, IsMeaningKeptWith};
ghost use Rattle.nix_update.specs.NotUpdated.{IfRefused, HasNoRest, IsEntryRefused};

use crate::change::add_value;
use crate::guard::{Site, addition_refusal};
use crate::insertion_sets::{deepest_node, insertion_sets};
use crate::node_start::start_of;
use crate::outcome::{Attempt, Reason, refuse, refuse_at, refuse_with_first};
use crate::path::Path;
use crate::request::Update;
use crate::steps::PathStep;
use rnix::SyntaxNode;
use rnix_edit::Edited;
use std::alloc::{AllocError, Global};

// Returns the text of a path from the name with index `at` on.
fn rest_at<'p>(path: &Path<'p>, at: usize) -> Option<&'p str>
    ensures rest { IfSome result (λ rest. IsRest path.now.starts.items path.now.text.now at rest.now) }
    ensures none { IfNone result (HasNoRest path.now.starts.items path.now.text.now at) }
{
    let start = path.starts.get(at)?;
    path.text.get(*start..)
}

// Adds an attribute to a set, without checking what names then refer to.
fn add_entry(
    alloc: Global,
    text: &str,
    root: &SyntaxNode<'_>,
    names: &str,
    update: Update<'_>,
    set: &SyntaxNode<'_>,
) -> Result<Attempt, AllocError>
    ensures made { IfOk result (IfMade (IsEntryAdded update.entry.form update.entry.value.now names.now text.now root.now set.now)) }
    ensures refused { IfOk result (IfRefused (IsEntryRefused update.entry.form update.entry.value.now names.now text.now root.now set.now)) }
{
    let edited = add_value(alloc, text, root, set, names, update.form, update.value)?;
    match edited {
        Some(Edited::Done(made)) => Ok(Attempt::Made(made)),
        Some(Edited::Refused(refusal)) => Ok(Attempt::Refused(refuse_at(
            Reason::Edit(refusal),
            start_of(set),
        ))),
        None => Ok(Attempt::Refused(refuse(Reason::NotAnExpression))),
    }
}

// Returns the text `made`, to which an attribute was added, or refuses it if a name would then refer to something else, unless forced.
fn accept_added(
    alloc: Global,
    site: Site<'_, '_>,
    is_forced: bool,
    made: String,
) -> Result<Attempt, AllocError>
    ensures made { IfOk result (IfMade (λ text. (text ≡ string_bytes made)
        × (is_forced ≡ false → IsMeaningKeptWith site.entry.text.now site.entry.root.now site.entry.set.now text)
        × (is_forced ≡ false → HasNoOpenName site.entry.root.now no_range (drop site.entry.at (names_at site.entry)))
        × (is_forced ≡ false → HasNoSpecialName (names_at site.entry) site.entry.steps.now))) }
    ensures refused { IfOk result (IfRefused (λ why. (is_forced ≡ false) × IsRefusedWith site.entry (string_bytes made) why)) }
{
    if is_forced {
        return Ok(Attempt::Made(made));
    }
    match addition_refusal(alloc, site, made.as_str())? {
        Some(refused) => Ok(Attempt::Refused(refused)),
        None => Ok(Attempt::Made(made)),
    }
}

// Adds the attribute to the set `target`, the only one to which the largest number of names of its path lead.
fn add_to(
    alloc: Global,
    text: &str,
    root: &SyntaxNode<'_>,
    path: &Path<'_>,
    steps: &[PathStep<'_>],
    update: Update<'_>,
    target: &PathStep<'_>,
) -> Result<Attempt, AllocError>
    ensures made { IfOk result (IfMade (IsAddedAt update.entry path.now steps.now target.now text.now root.now)) }
    ensures refused { IfOk result (IfRefused (IsNotAddedAt update.entry path.now steps.now target.now text.now root.now)) }
{
    let Some(names) = rest_at(path, target.at) else {
        return Ok(Attempt::Refused(refuse(Reason::NotAPath)));
    };
    let made = match add_entry(alloc, text, root, names, update, &target.node)? {
        Attempt::Made(made) => made,
        Attempt::Refused(refused) => return Ok(Attempt::Refused(refused)),
    };
    let site = Site {
        text,
        root,
        set: &target.node,
        names: &path.names,
        steps,
        at: target.at,
    };
    accept_added(alloc, site, update.is_forced, made)
}

/// Adds the attribute to the set to which the largest number of names of its path lead, if there is only one.
pub fn add(
    alloc: Global,
    text: &str,
    root: &SyntaxNode<'_>,
    path: &Path<'_>,
    steps: &[PathStep<'_>],
    update: Update<'_>,
) -> Result<Attempt, AllocError>
    ensures made { IfOk result (IfMade (IsAddedFor update.entry path.now steps.now text.now root.now)) }
    ensures refused { IfOk result (IfRefused (IsNotAddedFor update.entry path.now steps.now text.now root.now)) }
{
    let sets = insertion_sets(alloc, steps)?;
    let Some(target) = sets.first() else {
        let end = deepest_node(steps, root);
        return Ok(Attempt::Refused(refuse_at(Reason::NoSet, start_of(&end))));
    };
    match sets.get(1) {
        Some(second) => Ok(Attempt::Refused(refuse_with_first(
            Reason::SeveralSets,
            start_of(&target.node),
            start_of(&second.node),
        ))),
        None => add_to(alloc, text, root, path, steps, update, target),
    }
}
