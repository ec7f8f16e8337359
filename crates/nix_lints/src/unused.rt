//! Names that a text binds and never uses.

ghost use Rattle.std.specs.Prelude.{◌≡◌, ◌++◌, ◌||◌, ℕ, map, IfOk, OnOk};
ghost use Rattle.rnix_green.specs.Tree.{Located};
ghost use Rattle.nix_scopes.specs.Bound.{bound_of, AreFirst};
ghost use Rattle.nix_lints.specs.Found.{found_of};
ghost use Rattle.nix_lints.specs.UnusedNames.{is_ignored, is_reportable, is_pattern_name, marked, AreMarked, written_name, unmarked, unmarked_from};
ghost use Rattle.nix_lints.specs.UnusedNames.{has_offset, is_marked_pattern_name, has_marked_pattern_name, scope_start};
ghost use Rattle.nix_lints.specs.UnusedNames.{unused_in, unused_found, Resolves};

use crate::finding::Finding;
use nix_diagnostics::Code;
use nix_scopes::{Binding, Reference, Resolution, resolve};
use rnix::{SyntaxKind, SyntaxNode};
use std::alloc::{AllocError, Global};
use std::borrow::CowStr;
use std::collections::BTreeSet;

/// A name that nothing uses.
#[derive(Drop)]
pub struct UnusedName<'t> {
    /// The name as Nix reads it: without quotes and `${}`, and with escapes replaced.
    pub text: CowStr<'t>,
    /// The node that writes it: an identifier, a string or a `${}`.
    pub node: SyntaxNode<'t>,
}

// Returns whether a name is marked as unused on purpose: it starts with `_`.
fn is_ignored(name: &str) -> bool
    ensures { result ≡ is_ignored name.now }
{
    name.as_bytes().starts_with(b"_")
}

// Returns whether to report a binding if it is unused. The names of a `rec` set are attributes, and the `body` of a legacy `let` is its value.
fn is_reportable(binding: &Binding<'_>) -> bool
    ensures { result ≡ is_reportable (bound_of binding.now) }
{
    let scope = binding.scope.kind();
    let is_body = scope == SyntaxKind::NODE_LEGACY_LET && binding.text.as_str() == "body";
    scope != SyntaxKind::NODE_ATTR_SET && !is_body && !is_ignored(binding.text.as_str())
}

// Marks the item with a number as used, if the list has one.
fn mark(is_used: &mut Vec<bool>, number: usize)
    ensures { is_used.new.items ≡ marked is_used.old.items number }
{
    if number < is_used.len() {
        is_used[number] = true;
    }
}

// Returns, for each binding by its number, whether a reference refers to it.
fn used_bindings(
    alloc: Global,
    count: usize,
    references: &[Reference<'_>],
) -> Result<Vec<bool>, AllocError>
    ensures { IfOk result (λ is_used. AreMarked count references.now is_used.items) }
{
    let mut is_used = Vec::new(alloc);
    is_used.resize(count, false)?;
    for reference in references {
        if let Some(number) = reference.binding {
            mark(&mut is_used, number);
        }
    }
    Ok(is_used)
}

// Returns whether a binding is the name of a whole pattern, as `args` in `args@{ a }`.
fn is_pattern_name(binding: &Binding<'_>) -> bool
    ensures { result ≡ is_pattern_name (bound_of binding.now) }
{
    match binding.node.parent() {
        Some(parent) => parent.kind() == SyntaxKind::NODE_PAT_BIND,
        None => false,
    }
}

// Adds the start of a function, if the binding is the name of its whole pattern and is used.
fn add_used_pattern(
    number: usize,
    binding: &Binding<'_>,
    is_used: &[bool],
    patterns: &mut BTreeSet<usize>,
) -> Result<(), AllocError>
    ensures { OnOk result ((start : ℕ) →
        has_offset patterns.new start ≡ (has_offset patterns.old start || is_marked_pattern_name is_used.now start number binding.now)) }
{
    let is_used = is_used.get(number).copied().unwrap_or(false);
    if is_used && is_pattern_name(binding) {
        patterns.insert(binding.scope.text_range().start())?;
    }
    Ok(())
}

// Returns the starts of the functions whose pattern has a name of its own that is used.
fn used_patterns(
    alloc: Global,
    bindings: &[Binding<'_>],
    is_used: &[bool],
) -> Result<BTreeSet<usize>, AllocError>
    ensures { IfOk result (λ patterns. (start : ℕ) → has_offset patterns start ≡ has_marked_pattern_name is_used.now start 0 bindings.now) }
{
    let mut patterns = BTreeSet::new(alloc);
    for number in 0..bindings.len() {
        add_used_pattern(number, &bindings[number], is_used, &mut patterns)?;
    }
    Ok(patterns)
}

// Returns whether a binding is in the scope of a pattern whose own name is used.
fn is_in_used_pattern(binding: &Binding<'_>, patterns: &BTreeSet<usize>) -> bool
    ensures { result ≡ has_offset patterns.now (scope_start (bound_of binding.now)) }
{
    patterns.contains(&binding.scope.text_range().start())
}

// Adds a binding if it is the first one of its name in its scope, is unused, and is to be reported.
fn add_unused<'t>(
    number: usize,
    binding: &Binding<'t>,
    is_used: &[bool],
    patterns: &BTreeSet<usize>,
    unused: &mut Vec<UnusedName<'t>>,
) -> Result<(), AllocError>
    ensures { OnOk result (map written_name unused.new.items ≡ map written_name unused.old.items ++ unmarked is_used.now patterns.now number binding.now) }
{
    let is_used = is_used.get(number).copied().unwrap_or(true);
    if binding.first == number
        && is_reportable(binding)
        && !is_used
        && !is_in_used_pattern(binding, patterns)
    {
        unused.push(UnusedName {
            text: binding.text.clone()?,
            node: binding.node.clone(),
        })?;
    }
    Ok(())
}

// Returns the names of the bindings that are not marked, in the order of their numbers.
fn unmarked<'t>(
    alloc: Global,
    bindings: &[Binding<'t>],
    is_used: &[bool],
    patterns: &BTreeSet<usize>,
) -> Result<Vec<UnusedName<'t>>, AllocError>
    ensures { IfOk result (λ unused. map written_name unused.items ≡ unmarked_from is_used.now patterns.now 0 bindings.now) }
{
    let mut unused = Vec::new(alloc);
    for number in 0..bindings.len() {
        add_unused(number, &bindings[number], is_used, patterns, &mut unused)?;
    }
    Ok(unused)
}

/// Returns the names of `let` and the parameters that nothing refers to, in the order of the bindings. Leaves out names that start with `_`, and arguments of
/// a pattern whose own name is used, as in `args@{ a }: args.a`.
fn unused_among<'t>(
    alloc: Global,
    names: &Resolution<'t>,
) -> Result<Vec<UnusedName<'t>>, AllocError>
    ensures { IfOk result (λ unused. (root : Located) → Resolves root names.now → map written_name unused.items ≡ unused_in root) }
{
    let is_used = used_bindings(alloc, names.bindings().len(), names.references())?;
    let patterns = used_patterns(alloc, names.bindings(), &is_used)?;
    unmarked(alloc, names.bindings(), &is_used, &patterns)
}

/// Returns the names of `let` and the parameters that nothing refers to, in the order of the scopes. Leaves out names that start with `_`, and arguments of a
/// pattern whose own name is used, as in `args@{ a }: args.a`.
pub fn unused_names<'t>(
    alloc: Global,
    root: &SyntaxNode<'t>,
) -> Result<Vec<UnusedName<'t>>, AllocError>
    ensures { IfOk result (λ unused. map written_name unused.items ≡ unused_in root.now) }
{
    let names = resolve(alloc, root)?;
    let unused = unused_among(alloc, &names)?;
    Ok(unused)
}

/// Adds the names that nothing uses.
pub fn add_unused_names(
    alloc: Global,
    names: &Resolution<'_>,
    found: &mut Vec<Finding>,
) -> Result<(), AllocError>
    ensures { OnOk result ((root : Located) → Resolves root names.now →
        map found_of found.new.items ≡ map found_of found.old.items ++ map unused_found (unused_in root)) }
{
    let unused = unused_among(alloc, names)?;
    for name in &unused {
        found.push(Finding::at(Code::UnusedName, &name.node, None))?;
    }
    Ok(())
}
