//! A text without what some removals remove.

ghost use Rattle.std.specs.Prelude.{◌≡◌, map, string_bytes, IfOk};
ghost use Rattle.nix_dead.specs.Removal.{change_of};
ghost use Rattle.nix_dead.specs.AppliedRemovals.{IsTried, AreApplied};

use crate::removal::Removal;
use rnix_text::{EditError, Edits};
use std::alloc::{AllocError, Global};

/// A text, and the removals that made it.
#[derive(Drop)]
pub struct Applied {
    /// The text.
    pub made: String,
    /// The removals, none of which overlap.
    pub removals: Vec<Removal>,
}

// Adds a removal to some edits, and to the list of those that were applied, unless it overlaps one of these or has no range.
fn add_edit(
    removal: Removal,
    edits: &mut Edits<'_>,
    applied: &mut Vec<Removal>,
) -> Result<(), AllocError>
    ensures text { edits.new.text ≡ edits.old.text }
    ensures tried { IfOk result (λ _. IsTried removal edits.old edits.new applied.old.items applied.new.items) }
{
    if removal.end < removal.start {
        return Ok(());
    }
    match edits.replace(removal.start..removal.end, removal.new) {
        Ok(()) => {
            applied.push(removal)?;
            Ok(())
        }
        Err(EditError::Memory) => Err(AllocError),
        Err(_) => Ok(()),
    }
}

/// Returns a text without what some removals remove. A removal that overlaps an earlier one is left out.
pub fn apply_removals(
    alloc: Global,
    text: &str,
    removals: &[Removal],
) -> Result<Applied, AllocError>
    ensures { IfOk result (λ made. AreApplied text.now removals.now made.removals.items (string_bytes made.made)) }
{
    let mut edits = Edits::new(alloc, text);
    let mut applied = Vec::new(alloc);
    for removal in removals {
        add_edit(*removal, &mut edits, &mut applied)?;
    }
    let made = edits.apply(alloc)?;
    Ok(Applied {
        made,
        removals: applied,
    })
}
