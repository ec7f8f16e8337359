//! What is found about the names of a text: those that nothing binds, and those that nothing uses.

ghost use Rattle.std.specs.Prelude.{◌≡◌, ◌++◌, map, IfOk, OnOk};
ghost use Rattle.nix_scopes.specs.Bound.{resolved_of};
ghost use Rattle.nix_lints.specs.Found.{found_of};
ghost use Rattle.rnix_green.specs.Tree.{Located};
ghost use Rattle.nix_lints.specs.UnboundNames.{is_known, is_unbound, found_by_name, unbound_names};
ghost use Rattle.nix_lints.specs.UnusedNames.{Resolves};
ghost use Rattle.nix_scopes.specs.Resolved.{resolved_in};
ghost use Rattle.nix_lints.specs.NeedlessWith.{ArePlaces};
ghost use Rattle.nix_lints.specs.Lints.{found_at_names};

use crate::finding::Finding;
use crate::needless_with::open_places;
use crate::unused::add_unused_names;
use nix_diagnostics::Code;
use nix_scopes::{Reference, Resolution, is_global, resolve};
use rnix::SyntaxNode;
use std::alloc::{AllocError, Global};
use std::collections::BTreeSet;

// Returns whether a version of Nix may itself bind a name: it begins with two underscores, like a name for a builtin function, or is one of the others.
fn is_known(name: &str) -> bool
    ensures { result ≡ is_known name.now }
{
    name.as_bytes().starts_with(b"__") || name == "break" || is_global(name)
}

// Returns whether nothing binds the name of a reference: neither the text nor a `with` around it nor Nix.
fn is_unbound(reference: &Reference<'_>) -> bool
    ensures { result ≡ is_unbound (resolved_of reference.now) }
{
    reference.binding.is_none() && !reference.is_open && !is_known(reference.text.as_str())
}

// Adds the finding on a reference, if nothing binds its name.
fn add_unbound(reference: &Reference<'_>, found: &mut Vec<Finding>) -> Result<(), AllocError>
    ensures { OnOk result (map found_of found.new.items ≡ map found_of found.old.items ++ found_by_name (resolved_of reference.now)) }
{
    let is_found = is_unbound(reference);
    if let Some(finding) = Finding::when(is_found, Code::UnboundName, &reference.node, None) {
        found.push(finding)?;
    }
    Ok(())
}

// Adds the names that nothing binds, in the order of the text.
fn add_unbound_names(names: &Resolution<'_>, found: &mut Vec<Finding>) -> Result<(), AllocError>
    ensures { OnOk result ((root : Located) → Resolves root names.now →
        map found_of found.new.items ≡ map found_of found.old.items ++ unbound_names root) }
{
    for reference in names.references() {
        add_unbound(reference, found)?;
    }
    Ok(())
}

/// Adds the names that nothing binds, and those that nothing uses. Returns where the names are that may come from a `with`.
pub fn add_at_names(
    alloc: Global,
    root: &SyntaxNode<'_>,
    found: &mut Vec<Finding>,
) -> Result<BTreeSet<usize>, AllocError>
    ensures found { OnOk result (map found_of found.new.items ≡ map found_of found.old.items ++ found_at_names root.now) }
    ensures places { IfOk result (λ places. ArePlaces (resolved_in root.now) places) }
{
    let names = resolve(alloc, root)?;
    add_unbound_names(&names, found)?;
    add_unused_names(alloc, &names, found)?;
    let places = open_places(alloc, names.references())?;
    Ok(places)
}
