//! The removals of all names that are reported.

ghost use Rattle.std.specs.Prelude.{◌≡◌, ◌++◌, ◌==◌, ◌||◌, ℕ, map, option_map, IfOk, OnOk};
ghost use Rattle.std.specs.List.{list_any};
ghost use Rattle.std.specs.Option.{option_to_list};
ghost use Rattle.nix_lints.specs.UnusedNames.{has_offset};
ghost use Rattle.nix_dead.specs.Dead.{start_of};
ghost use Rattle.nix_dead.specs.Removal.{change_of};
ghost use Rattle.nix_dead.specs.Proposals.{is_hole, removals_of, insertions_of, AreStarts, AreProposed};

use crate::dead::{reported_names, start_of};
use crate::options::Options;
use crate::removal::{Removal, removal_of};
use crate::underscore::underscored;
use nix_lints::UnusedName;
use nix_scopes::{Reference, Resolution};
use rnix::SyntaxNode;
use std::alloc::{AllocError, Global};
use std::collections::BTreeSet;

// Adds the offset of a name.
fn add_start(name: &UnusedName<'_>, starts: &mut BTreeSet<usize>) -> Result<(), AllocError>
    ensures { OnOk result ((start : ℕ) → has_offset starts.new start ≡ (has_offset starts.old start || (start_of name.now == start))) }
{
    starts.insert(start_of(name))?;
    Ok(())
}

// Returns the offsets of names.
fn starts_of(alloc: Global, names: &[UnusedName<'_>]) -> Result<BTreeSet<usize>, AllocError>
    ensures { IfOk result (λ starts. AreStarts names.now starts) }
{
    let mut starts = BTreeSet::new(alloc);
    for name in names {
        add_start(name, &mut starts)?;
    }
    Ok(starts)
}

// Returns whether a reference is called `_`.
fn is_hole(reference: &Reference<'_>) -> bool
    ensures { result ≡ is_hole reference.now }
{
    reference.text.as_str() == "_"
}

// Returns whether a reference is called `_`.
fn has_hole(references: &[Reference<'_>]) -> bool
    ensures { result ≡ list_any is_hole references.now }
{
    for reference in references {
        if is_hole(reference) {
            return true;
        }
    }
    false
}

// Adds a removal, if there is one.
fn add(removal: Option<Removal>, removals: &mut Vec<Removal>) -> Result<(), AllocError>
    ensures { OnOk result (map change_of removals.new.items ≡ map change_of removals.old.items ++ option_to_list (option_map change_of removal)) }
{
    if let Some(removal) = removal {
        removals.push(removal)?;
    }
    Ok(())
}

// Returns the removals of these names.
fn removals_of(
    alloc: Global,
    text: &str,
    dead: &BTreeSet<usize>,
    is_free: bool,
    names: &[UnusedName<'_>],
) -> Result<Vec<Removal>, AllocError>
    ensures { IfOk result (λ removals. map change_of removals.items ≡ removals_of text.now dead.now is_free names.now) }
{
    let mut removals = Vec::new(alloc);
    for name in names {
        add(removal_of(text, dead, is_free, &name.node), &mut removals)?;
    }
    Ok(removals)
}

// Returns the insertions of `_` before these names of a text.
fn insertions_of(
    alloc: Global,
    names: &Resolution<'_>,
    unused: &[UnusedName<'_>],
) -> Result<Vec<Removal>, AllocError>
    ensures { IfOk result (λ insertions. map change_of insertions.items ≡ insertions_of names.now unused.now) }
{
    let mut insertions = Vec::new(alloc);
    for name in unused {
        add(underscored(names, name), &mut insertions)?;
    }
    Ok(insertions)
}

/// Returns the removals of the names of a text that are reported, or the insertions of `_` before them, as far as there are any. Removals may overlap.
pub fn proposals(
    alloc: Global,
    text: &str,
    root: &SyntaxNode<'_>,
    names: &Resolution<'_>,
    options: Options,
) -> Result<Vec<Removal>, AllocError>
    ensures { IfOk result (λ removals. AreProposed text.now options root.now names.now (map change_of removals.items)) }
{
    let reported = reported_names(alloc, text, root, options)?;
    if options.writes_underscores {
        return insertions_of(alloc, names, &reported);
    }
    let dead = starts_of(alloc, &reported)?;
    let is_free = !has_hole(names.references());
    removals_of(alloc, text, &dead, is_free, &reported)
}
