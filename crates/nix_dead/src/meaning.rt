//! Checks that the names that are left mean the same.

ghost use Rattle.std.specs.Prelude.{◌≡◌, map, IfOk};
ghost use Rattle.std.specs.List.{list_any};
ghost use Rattle.nix_scopes.specs.Bound.{bindings_of};
ghost use Rattle.nix_dead.specs.Removal.{change_of, start_at};
ghost use Rattle.nix_dead.specs.KeptReferences.{removes, is_removed, moved_numbers, number_at, same_number, same_reference, are_alike, IsCompared};

use crate::removal::Removal;
use nix_scopes::{Binding, Reference, Resolution, resolve};
use rnix::SyntaxNode;
use std::alloc::{AllocError, Global};

// Returns whether a removal removes what begins at an offset. A name that is called `_` stays.
fn removes(removal: Removal, offset: usize) -> bool
    ensures { result ≡ removes offset (change_of removal) }
{
    removal.new != "_" && removal.start <= offset && offset < removal.end
}

// Returns whether one of some removals removes what begins at an offset.
fn is_removed(removals: &[Removal], offset: usize) -> bool
    ensures { result ≡ is_removed removals.now offset }
{
    for removal in removals {
        if removes(*removal, offset) {
            return true;
        }
    }
    false
}

// Returns the start of a node.
fn start_at(node: &SyntaxNode<'_>) -> usize
    ensures { result ≡ start_at node.now }
{
    node.text_range().start()
}

// Returns for each binding its number among those that are left, if it is left.
fn moved_numbers(
    alloc: Global,
    removals: &[Removal],
    bindings: &[Binding<'_>],
) -> Result<Vec<Option<usize>>, AllocError>
    ensures { IfOk result (λ numbers. numbers.items ≡ moved_numbers removals.now 0 bindings.now) }
{
    let mut numbers = Vec::new(alloc);
    let mut count = 0;
    for binding in bindings {
        if is_removed(removals, start_at(&binding.node)) {
            numbers.push(None)?;
        } else {
            numbers.push(Some(count))?;
            count += 1;
        }
    }
    Ok(numbers)
}

// Returns the new number of the binding with a number, if it is left.
fn number_at(numbers: &[Option<usize>], number: usize) -> Option<usize>
    ensures { result ≡ number_at numbers.now number }
{
    match numbers.get(number) {
        Some(moved) => *moved,
        None => None,
    }
}

// Returns whether a reference that refers to a binding with a number refers to the same one as another reference, which refers to that with a new number.
fn same_number(numbers: &[Option<usize>], old: Option<usize>, new: Option<usize>) -> bool
    ensures { result ≡ same_number numbers.now old new }
{
    match (old, new) {
        (None, None) => true,
        (Some(old), Some(new)) => number_at(numbers, old) == Some(new),
        _ => false,
    }
}

// Returns whether two references have the same name, which means the same.
fn same_reference(numbers: &[Option<usize>], old: &Reference<'_>, new: &Reference<'_>) -> bool
    ensures { result ≡ same_reference numbers.now old.now new.now }
{
    old.text.as_str() == new.text.as_str()
        && old.is_inherited == new.is_inherited
        && old.is_open == new.is_open
        && same_number(numbers, old.binding, new.binding)
}

// Returns whether the references that are left are the new ones, one for one, and each means the same.
fn are_alike(
    removals: &[Removal],
    numbers: &[Option<usize>],
    olds: &[Reference<'_>],
    news: &[Reference<'_>],
) -> bool
    ensures { result ≡ are_alike removals.now numbers.now olds.now news.now }
{
    let mut next = 0;
    for old in olds {
        if !is_removed(removals, start_at(&old.node)) {
            let Some(new) = news.get(next) else {
                return false;
            };
            if !same_reference(numbers, old, new) {
                return false;
            }
            next += 1;
        }
    }
    next == news.len()
}

/// Returns whether the names that are left after some removals mean the same in the new text, which has this root.
pub fn is_kept(
    alloc: Global,
    names: &Resolution<'_>,
    removals: &[Removal],
    root: &SyntaxNode<'_>,
) -> Result<bool, AllocError>
    ensures { IfOk result (λ is_kept. IsCompared names.now removals.now root.now is_kept) }
{
    let numbers = moved_numbers(alloc, removals, names.bindings())?;
    let others = resolve(alloc, root)?;
    Ok(are_alike(removals, &numbers, names.references(), others.references()))
}
