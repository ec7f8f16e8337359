//! All lints: what is wrong in a text without syntax errors.

ghost use Rattle.std.specs.Prelude.{◌≡◌, ◌++◌, map, IfOk, OnOk};
ghost use Rattle.nix_attributes.specs.Repeated.{repetition_of, repeated_in};
ghost use Rattle.nix_lints.specs.ForeignSpaces.{run_of, foreign_in};
ghost use Rattle.nix_lints.specs.Found.{found_of};
ghost use Rattle.nix_lints.specs.Lints.{space_found, repetition_found, AreLints};

use crate::finding::{Finding, Reason};
use crate::foreign::{ForeignSpace, foreign_spaces};
use crate::names::add_at_names;
use crate::nodes::add_at_nodes;
use nix_attributes::{Repeated, repeated_attributes};
use nix_diagnostics::{Code, Replacement};
use rnix::SyntaxNode;
use std::alloc::{AllocError, Global};

// Returns the finding on a run of white space that Nix does not read.
fn space_found(space: ForeignSpace) -> Finding
    ensures { found_of result ≡ space_found (run_of space) }
{
    Finding {
        code: Code::ForeignSpace,
        range: space.range,
        reason: Reason::Character(space.first),
        replacement: Some(Replacement::new(space.range, " ")),
    }
}

// Returns the finding on a name that defines an attribute again.
fn repetition_found(name: Repeated) -> Finding
    ensures { found_of result ≡ repetition_found (repetition_of name) }
{
    Finding {
        code: Code::RepeatedAttribute,
        range: name.range,
        reason: Reason::Place(name.first),
        replacement: None,
    }
}

// Adds the white space that Nix does not read.
fn add_spaces(
    alloc: Global,
    root: &SyntaxNode<'_>,
    found: &mut Vec<Finding>,
) -> Result<(), AllocError>
    ensures { OnOk result (map found_of found.new.items ≡ map found_of found.old.items ++ map space_found (foreign_in root.now)) }
{
    let spaces = foreign_spaces(alloc, root)?;
    for space in &spaces {
        found.push(space_found(*space))?;
    }
    Ok(())
}

// Adds the names that define an attribute again.
fn add_repetitions(
    alloc: Global,
    root: &SyntaxNode<'_>,
    found: &mut Vec<Finding>,
) -> Result<(), AllocError>
    ensures { OnOk result (map found_of found.new.items ≡ map found_of found.old.items ++ map repetition_found (repeated_in root.now)) }
{
    let names = repeated_attributes(alloc, root)?;
    for name in &names {
        found.push(repetition_found(*name))?;
    }
    Ok(())
}

/// Returns what the lints find in a text without syntax errors, in the order of where it begins.
pub fn lints(alloc: Global, root: &SyntaxNode<'_>) -> Result<Vec<Finding>, AllocError>
    ensures { IfOk result (λ found. AreLints root.now (map found_of found.items)) }
{
    let mut found = Vec::new(alloc);
    add_spaces(alloc, root, &mut found)?;
    add_repetitions(alloc, root, &mut found)?;
    let places = add_at_names(alloc, root, &mut found)?;
    add_at_nodes(alloc, root, &places, &mut found)?;
    found.sort_by_key(
        |finding: &Finding| -> usize
            ensures { result ≡ finding.now.range.start }
        { finding.range.start() },
    )?;
    Ok(found)
}
