//! Each `with` that no name needs.

ghost use Rattle.std.specs.Prelude.{◌≡◌, ◌||◌, ℕ, Bool, List, map, option_map, IfOk, OnOk};
ghost use Rattle.std.specs.List.{list_any};
ghost use Rattle.rnix_green.specs.Range.{bounds_of};
ghost use Rattle.nix_scopes.specs.Bound.{resolved_of};
ghost use Rattle.nix_scopes.specs.Scopes.{Resolved};
ghost use Rattle.nix_lints.specs.Found.{found_of};
ghost use Rattle.nix_lints.specs.NeedlessWith.{is_within, is_open_where, is_closed_in, needless_with, ArePlaces};

use crate::finding::Finding;
use crate::nodes::{expression, removal};
use nix_diagnostics::Code;
use nix_scopes::Reference;
use rnix::{SyntaxNode, TextRange};
use std::alloc::{AllocError, Global};
use std::collections::BTreeSet;

// Adds the place of a reference that may come from a `with`.
fn add_open(reference: &Reference<'_>, places: &mut BTreeSet<usize>) -> Result<(), AllocError>
    ensures { OnOk result ((test : ℕ → Bool) →
        list_any test places.new.keys ≡ (list_any test places.old.keys || is_open_where test (resolved_of reference.now))) }
{
    if reference.is_open {
        places.insert(reference.node.text_range().start())?;
    }
    Ok(())
}

/// Returns where the references are written that may come from a `with`.
pub fn open_places(
    alloc: Global,
    references: &[Reference<'_>],
) -> Result<BTreeSet<usize>, AllocError>
    ensures { IfOk result (λ places. ArePlaces (map resolved_of references.now) places) }
{
    let mut places = BTreeSet::new(alloc);
    for reference in references {
        add_open(reference, &mut places)?;
    }
    Ok(places)
}

// Returns whether one of these places is within a range.
fn has_place(places: &BTreeSet<usize>, range: TextRange) -> bool
    ensures { result ≡ list_any (is_within (bounds_of range)) places.now.keys }
{
    match places.range(range.start()..range.end()).next() {
        Some(_) => true,
        None => false,
    }
}

// Returns whether a node is given, and no name in it may come from a `with`.
fn is_closed_in(places: &BTreeSet<usize>, node: &Option<SyntaxNode<'_>>) -> bool
    ensures { (names : List Resolved) → ArePlaces names places.now → result ≡ is_closed_in names node.now }
{
    match node {
        Some(node) => !has_place(places, node.text_range()),
        None => false,
    }
}

/// Returns the finding on a `with`, if no name in its body may come from a `with`, given where such names are.
pub fn needless_with(places: &BTreeSet<usize>, node: &SyntaxNode<'_>) -> Option<Finding>
    ensures { (names : List Resolved) → ArePlaces names places.now → option_map found_of result ≡ needless_with names node.now }
{
    let body = expression(node, 1);
    let is_found = is_closed_in(places, &body);
    let replacement = if is_found { removal(node, &body) } else { None };
    Finding::when(is_found, Code::NeedlessWith, node, replacement)
}
