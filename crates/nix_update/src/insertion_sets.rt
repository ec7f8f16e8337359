//! The sets to which a new attribute can be added.

ghost use Rattle.std.specs.Prelude.{◌≡◌, ◌++◌, IfOk, OnOk};
ghost use Rattle.nix_update.specs.Updated.{longest_prefix, is_insertion_set, insertion_set_if, insertion_sets_in};

use crate::steps::PathStep;
use rnix::{SyntaxKind, SyntaxNode};
use std::alloc::{AllocError, Global};

// Returns the greatest number of names of a path that lead to an expression, without names of a `let`.
fn longest_prefix(steps: &[PathStep<'_>]) -> usize
    ensures { result ≡ longest_prefix 0 steps.now }
{
    let mut most = 0;
    for step in steps {
        if !step.in_let && most < step.at {
            most = step.at;
        }
    }
    most
}

// Returns whether an expression along the path is a set to which `most` names lead, none of them of a `let`.
fn is_insertion_set(step: &PathStep<'_>, most: usize) -> bool
    ensures { result ≡ is_insertion_set most step.now }
{
    !step.in_let && step.at == most && step.node.kind() == SyntaxKind::NODE_ATTR_SET
}

// Adds an expression along the path, if it is a set for the new attribute.
fn add_insertion_set<'t>(
    most: usize,
    step: &PathStep<'t>,
    sets: &mut Vec<PathStep<'t>>,
) -> Result<(), AllocError>
    ensures { OnOk result (sets.new.items ≡ sets.old.items ++ insertion_set_if most step.now) }
{
    if is_insertion_set(step, most) {
        sets.push(step.copy())?;
    }
    Ok(())
}

/// Returns the sets along a path to which the largest number of names lead: if there is only one, a new attribute is added to it.
pub fn insertion_sets<'t>(
    alloc: Global,
    steps: &[PathStep<'t>],
) -> Result<Vec<PathStep<'t>>, AllocError>
    ensures { IfOk result (λ sets. sets.items ≡ insertion_sets_in steps.now) }
{
    let most = longest_prefix(steps);
    let mut sets = Vec::new(alloc);
    for step in steps {
        add_insertion_set(most, step, &mut sets)?;
    }
    Ok(sets)
}

/// Returns the last expression along the path to which the largest number of names lead, or the root if there is none.
pub fn deepest_node<'t>(steps: &[PathStep<'t>], root: &SyntaxNode<'t>) -> SyntaxNode<'t> {
    let most = longest_prefix(steps);
    let mut last = root.clone();
    for step in steps {
        if !step.in_let && step.at == most {
            last = step.node.clone();
        }
    }
    last
}
