//! The expressions along a path.

ghost use Rattle.std.specs.Prelude.{◌≡◌, ◌++◌, map, slice_get, string_bytes, IfOk, OnOk};
ghost use Rattle.nix_update.specs.PathMatches.{path_match};
ghost use Rattle.nix_update.specs.PathSteps.{step_if, continued_value, values_in, next_steps, ArePathSteps};

use crate::inner::{expr_at, inner};
use crate::path_match::{PathMatch, match_entry};
use rnix::{SyntaxKind, SyntaxNode};
use std::alloc::{AllocError, Global};

/// An expression along a path.
#[derive(Drop)]
pub struct PathStep<'t> {
    pub node: SyntaxNode<'t>,
    /// The number of names of the path that lead to it.
    pub at: usize,
    /// Whether a name of a `let` leads to it.
    pub in_let: bool,
}

// Adds an expression along the path, if there is one.
fn add_if<'t>(
    node: Option<SyntaxNode<'t>>,
    at: usize,
    in_let: bool,
    steps: &mut Vec<PathStep<'t>>,
) -> Result<(), AllocError>
    ensures { OnOk result (steps.new.items ≡ steps.old.items ++ step_if node.entry at in_let) }
{
    if let Some(node) = node {
        steps.push(PathStep { node, at, in_let })?;
    }
    Ok(())
}

// Adds the value of an entry, if the path continues in it.
fn add_value<'t>(
    alloc: Global,
    names: &[String],
    at: usize,
    in_let: bool,
    entry: &SyntaxNode<'t>,
    steps: &mut Vec<PathStep<'t>>,
) -> Result<(), AllocError>
    ensures { OnOk result (steps.new.items
        ≡ steps.old.items ++ continued_value (path_match (map string_bytes names.now) at entry.now) in_let entry.now) }
{
    match match_entry(alloc, names, at, entry)? {
        PathMatch::Prefix(next) => add_if(expr_at(entry, 0), next, in_let, steps),
        _ => Ok(()),
    }
}

// Adds the values of the entries of a node in which the path continues.
fn add_values<'t>(
    alloc: Global,
    names: &[String],
    at: usize,
    in_let: bool,
    node: &SyntaxNode<'t>,
    steps: &mut Vec<PathStep<'t>>,
) -> Result<(), AllocError>
    ensures { OnOk result (steps.new.items ≡ steps.old.items ++ values_in (map string_bytes names.now) at in_let node.now) }
{
    for entry in node.children() {
        add_value(alloc, names, at, in_let, &entry, steps)?;
    }
    Ok(())
}

// Adds the expressions that follow an expression along the path.
fn add_next_steps<'t>(
    alloc: Global,
    names: &[String],
    step: &PathStep<'t>,
    steps: &mut Vec<PathStep<'t>>,
) -> Result<(), AllocError>
    ensures { OnOk result (steps.new.items ≡ steps.old.items ++ next_steps (map string_bytes names.now) step.now) }
{
    let (node, at, in_let) = (&step.node, step.at, step.in_let);
    match node.kind() {
        SyntaxKind::NODE_ATTR_SET => add_values(alloc, names, at, in_let, node, steps)?,
        SyntaxKind::NODE_LET_IN => add_values(alloc, names, at, true, node, steps)?,
        _ => {}
    }
    add_if(inner(node), at, in_let, steps)
}

impl<'t> PathStep<'t> {
    /// Returns a copy.
    pub fn copy(&self) -> Self
        ensures { result ≡ self.now }
    {
        PathStep {
            node: self.node.clone(),
            at: self.at,
            in_let: self.in_let,
        }
    }
}

// Returns a copy of the expression along the path with a number, if there is one.
fn step_at<'t>(steps: &[PathStep<'t>], number: usize) -> Option<PathStep<'t>>
    ensures { result ≡ slice_get steps.now number }
{
    let step = steps.get(number)?;
    Some(step.copy())
}

/// Returns the expressions along a path from a root, each once.
pub fn path_steps<'t>(
    alloc: Global,
    root: &SyntaxNode<'t>,
    names: &[String],
) -> Result<Vec<PathStep<'t>>, AllocError>
    ensures { IfOk result (λ steps. ArePathSteps (map string_bytes names.now) root.now steps.items) }
{
    let mut steps = Vec::new(alloc);
    add_if(Some(root.clone()), 0, false, &mut steps)?;
    // There are at most as many of them as nodes.
    for number in 0..root.inside_count().saturating_add(2) {
        match step_at(&steps, number) {
            Some(step) => add_next_steps(alloc, names, &step, &mut steps)?,
            None => return Ok(steps),
        }
    }
    Err(AllocError)
}
