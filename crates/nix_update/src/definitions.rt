//! The entries that define the attribute of a path.

ghost use Rattle.std.specs.Prelude.{◌≡◌, ◌++◌, map, string_bytes, IfOk, OnOk};
ghost use Rattle.nix_update.specs.PathMatches.{path_match};
ghost use Rattle.nix_update.specs.PathSteps.{has_entries, definition_if, definitions_at, definitions_if, definitions_in};

use crate::path_match::{PathMatch, match_entry};
use crate::steps::PathStep;
use rnix::{SyntaxKind, SyntaxNode};
use std::alloc::{AllocError, Global};

/// An entry that defines the attribute of a path or a part of it.
#[derive(Drop)]
pub struct Definition<'t> {
    pub entry: SyntaxNode<'t>,
    pub path_match: PathMatch,
    /// The set or the `let` of the entry.
    pub parent: SyntaxNode<'t>,
    /// The number of names of the path that lead to this set or `let`.
    pub at: usize,
}

// Returns whether an expression along the path has entries: those to which names of a `let` lead if `of_let`, otherwise those of sets.
fn has_entries(step: &PathStep<'_>, of_let: bool) -> bool
    ensures { result ≡ has_entries of_let step.now }
{
    match step.node.kind() {
        SyntaxKind::NODE_ATTR_SET => step.in_let == of_let,
        SyntaxKind::NODE_LET_IN => of_let,
        _ => false,
    }
}

// Adds a node in an expression along the path, if it is an entry that defines the attribute.
fn add_definition<'t>(
    alloc: Global,
    names: &[String],
    step: &PathStep<'t>,
    entry: SyntaxNode<'t>,
    definitions: &mut Vec<Definition<'t>>,
) -> Result<(), AllocError>
    ensures { OnOk result (definitions.new.items ≡ definitions.old.items
        ++ definition_if step.now entry.entry (path_match (map string_bytes names.now) step.now.at entry.entry)) }
{
    let path_match = match_entry(alloc, names, step.at, &entry)?;
    if path_match.is_defining() {
        definitions.push(Definition {
            entry,
            path_match,
            parent: step.node.clone(),
            at: step.at,
        })?;
    }
    Ok(())
}

// Adds the entries of an expression along the path that define the attribute.
fn add_definitions<'t>(
    alloc: Global,
    names: &[String],
    step: &PathStep<'t>,
    definitions: &mut Vec<Definition<'t>>,
) -> Result<(), AllocError>
    ensures { OnOk result (definitions.new.items ≡ definitions.old.items ++ definitions_at (map string_bytes names.now) step.now) }
{
    for entry in step.node.children() {
        add_definition(alloc, names, step, entry, definitions)?;
    }
    Ok(())
}

// Adds the entries of an expression along the path that define the attribute: those to which names of a `let` lead if `of_let`, otherwise those of sets.
fn add_definitions_if<'t>(
    alloc: Global,
    names: &[String],
    step: &PathStep<'t>,
    of_let: bool,
    definitions: &mut Vec<Definition<'t>>,
) -> Result<(), AllocError>
    ensures { OnOk result (definitions.new.items ≡ definitions.old.items ++ definitions_if (map string_bytes names.now) of_let step.now) }
{
    if has_entries(step, of_let) {
        add_definitions(alloc, names, step, definitions)?;
    }
    Ok(())
}

/// Returns the entries along a path that define its attribute: those to which names of a `let` lead if `of_let`, otherwise those of sets.
pub fn definitions_of<'t>(
    alloc: Global,
    names: &[String],
    steps: &[PathStep<'t>],
    of_let: bool,
) -> Result<Vec<Definition<'t>>, AllocError>
    ensures { IfOk result (λ definitions. definitions.items ≡ definitions_in (map string_bytes names.now) of_let steps.now) }
{
    let mut definitions = Vec::new(alloc);
    for step in steps {
        add_definitions_if(alloc, names, step, of_let, &mut definitions)?;
    }
    Ok(definitions)
}
