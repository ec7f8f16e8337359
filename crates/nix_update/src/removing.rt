//! Removing an entry.

ghost use Rattle.std.specs.Prelude.{◌≡◌, false, drop, map, string_bytes, IfOk};
ghost use Rattle.rnix_green.specs.Tree.{extent_of};
ghost use Rattle.nix_update.specs.SameNames.{HasNoOpenName};
ghost use Rattle.nix_update.specs.SpecialNames.{HasNoSpecialName};
ghost use Rattle.nix_update.specs.OfRequest.{names_at, IsRefusedWithout};
ghost use Rattle.nix_update.specs.Updated.{IfMade, IsEntryRemoved, IsMeaningKeptWithout};
ghost use Rattle.nix_update.specs.NotUpdated.{IfRefused, IsEntryNotRemoved};

use crate::definitions::Definition;
use crate::guard::{Site, removal_refusal};
use crate::node_start::start_of;
use crate::outcome::{Attempt, Reason, refuse_at};
use crate::request::Update;
use crate::steps::PathStep;
use rnix::SyntaxNode;
use rnix_edit::{Edited, remove};
use std::alloc::{AllocError, Global};

// Returns the text `made`, from which an entry was removed, or refuses it if a name would then refer to something else, unless forced.
fn accept_removed(
    alloc: Global,
    site: Site<'_, '_>,
    is_forced: bool,
    entry: &SyntaxNode<'_>,
    made: String,
) -> Result<Attempt, AllocError>
    ensures made { IfOk result (IfMade (λ text. (text ≡ string_bytes made)
        × (is_forced ≡ false → IsMeaningKeptWithout site.entry.text.now site.entry.root.now entry.now text)
        × (is_forced ≡ false → HasNoOpenName site.entry.root.now (extent_of entry.now) (drop site.entry.at (names_at site.entry)))
        × (is_forced ≡ false → HasNoSpecialName (names_at site.entry) site.entry.steps.now))) }
    ensures refused { IfOk result (IfRefused (λ why. (is_forced ≡ false) × IsRefusedWithout site.entry entry.now (string_bytes made) why)) }
{
    if is_forced {
        return Ok(Attempt::Made(made));
    }
    match removal_refusal(alloc, site, entry, made.as_str())? {
        Some(refused) => Ok(Attempt::Refused(refused)),
        None => Ok(Attempt::Made(made)),
    }
}

/// Removes an entry that defines the attribute.
pub fn remove_entry(
    alloc: Global,
    text: &str,
    root: &SyntaxNode<'_>,
    names: &[String],
    steps: &[PathStep<'_>],
    update: Update<'_>,
    definition: &Definition<'_>,
) -> Result<Attempt, AllocError>
    ensures made { IfOk result (IfMade
        (IsEntryRemoved update.entry.is_forced (map string_bytes names.now) steps.now text.now root.now definition.now)) }
    ensures refused { IfOk result (IfRefused
        (IsEntryNotRemoved update.entry.is_forced (map string_bytes names.now) steps.now text.now root.now definition.now)) }
{
    let entry = &definition.entry;
    if !definition.path_match.is_removable() {
        return Ok(Attempt::Refused(refuse_at(Reason::Inherited, start_of(entry))));
    }
    let made = match remove(alloc, text, root, entry)? {
        Edited::Done(made) => made,
        Edited::Refused(refusal) => {
            let refused = refuse_at(Reason::Edit(refusal), start_of(entry));
            return Ok(Attempt::Refused(refused));
        }
    };
    let site = Site {
        text,
        root,
        set: &definition.parent,
        names,
        steps,
        at: definition.at,
    };
    accept_removed(alloc, site, update.is_forced, entry, made)
}
