//! Names that a text binds and never uses, in the order of the text.

ghost use Rattle.std.specs.Prelude.{◌≡◌, ◌++◌, ◌∷◌, [], ℕ, List, length, map, min, IfOk, OnOk};
ghost use Rattle.std.specs.List.{filter};
ghost use Rattle.std.specs.List.Sorted.{IsNonDecreasingBy, IsPermutation};
ghost use Rattle.rnix_kinds.specs.declared.kinds.SyntaxKind.TheVariants as k;
ghost use Rattle.nix_lints.specs.UnusedNames.{unused_in, written_name};
ghost use Rattle.nix_dead.specs.Dead.{start_of};
ghost use Rattle.nix_dead.specs.DeadNames.{AreDead};
ghost use Rattle.nix_dead.specs.Skipped.{is_below, is_skipped, is_reported, IsAt};

use crate::options::Options;
use crate::place::Place;
use nix_lints::{UnusedName, unused_names};
use rnix::{SyntaxKind, SyntaxNode};
use std::alloc::{AllocError, Global};

/// Returns the offset in bytes at which a name is written.
pub fn start_of(name: &UnusedName<'_>) -> usize
    ensures { result ≡ start_of name.now }
{
    name.node.text_range().start()
}

/// Returns the names of `let` and the parameters that nothing refers to, in the order of the text. Leaves out names that start with `_`, and arguments of a
/// pattern whose own name is used, as in `args@{ a }: args.a`.
pub fn dead_names<'t>(
    alloc: Global,
    root: &SyntaxNode<'t>,
) -> Result<Vec<UnusedName<'t>>, AllocError>
    ensures exactly { IfOk result (λ names. IsPermutation (unused_in root.now) (map written_name names.items)) }
    ensures order { IfOk result (λ names. IsNonDecreasingBy start_of names.items) }
{
    let mut names = unused_names(alloc, root)?;
    names.sort_by_key(
        |name: &UnusedName<'_>| -> usize
            ensures { result ≡ start_of name.now }
        { start_of(name) },
    )?;
    Ok(names)
}

// Returns whether the parent of a node has a kind.
fn is_below(kind: SyntaxKind, node: &SyntaxNode<'_>) -> bool
    ensures { result ≡ is_below kind node.now }
{
    match node.parent() {
        Some(parent) => parent.kind() == kind,
        None => false,
    }
}

// Returns whether the options leave out the name at a node.
fn is_skipped(options: Options, node: &SyntaxNode<'_>) -> bool
    ensures { result ≡ is_skipped options node.now }
{
    (options.skips_arguments && is_below(SyntaxKind::NODE_IDENT_PARAM, node))
        || (options.skips_entries && is_below(SyntaxKind::NODE_PAT_ENTRY, node))
}

// Adds a name, unless it is left out by the options, or by the line before.
fn add_reported<'t>(
    name: UnusedName<'t>,
    options: Options,
    place: &Place<'_>,
    reported: &mut Vec<UnusedName<'t>>,
) -> Result<(), AllocError>
    ensures { OnOk result ((text : List ℕ) → IsAt text (min (start_of name.entry) (length text)) place.now →
        reported.new.items ≡ reported.old.items ++ filter (is_reported text options) (name.entry ∷ [])) }
{
    if is_skipped(options, &name.node) || place.is_left_out {
        return Ok(());
    }
    reported.push(name)?;
    Ok(())
}

// Returns the names that are not left out, of a list in the order of where they begin.
fn reported<'t>(
    alloc: Global,
    text: &[u8],
    names: Vec<UnusedName<'t>>,
    options: Options,
) -> Result<Vec<UnusedName<'t>>, AllocError>
    ensures { IfOk result (λ reported. IsNonDecreasingBy start_of names.entry.items →
        reported.items ≡ filter (is_reported text.now options) names.entry.items) }
{
    let mut place = Place::new(text);
    let mut reported = Vec::new(alloc);
    for name in names {
        place = place.advance(start_of(&name));
        add_reported(name, options, &place, &mut reported)?;
    }
    Ok(reported)
}

/// Returns the names that [`dead_names`] finds in a text, without those that the options leave out, or a comment on the line before: `# deadnix: skip`, or
/// `# nix-check: ignore unused-name`.
pub fn reported_names<'t>(
    alloc: Global,
    text: &str,
    root: &SyntaxNode<'t>,
    options: Options,
) -> Result<Vec<UnusedName<'t>>, AllocError>
    ensures { IfOk result (λ names. AreDead text.now options root.now names.items) }
{
    let names = dead_names(alloc, root)?;
    reported(alloc, text.as_bytes(), names, options)
}
