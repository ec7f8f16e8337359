//! Diagnostics: mistakes in words for people.

ghost use Rattle.std.specs.Prelude.{◌≡◌, ◌≤◌, ◌++◌, ℕ, List, true, false, length, take, IfOk, OnOk};
ghost use Rattle.std.specs.Option.{option_to_list};
ghost use Rattle.rnix_green.specs.Tree.{Located};
ghost use Rattle.rnix_grammar.specs.Fault.{Fault};
ghost use Rattle.rnix.specs.ParseResult.{root_of};
ghost use Rattle.nix_diagnostics.specs.Mistakes.{mistakes, mistakes_at, AreWorded};
ghost use Rattle.nix_diagnostics.specs.Described.{Describes};

use crate::code::Code;
use crate::diagnosis::Diagnosis;
use crate::notes::Note;
use rnix::{Parse, TextRange};
use std::alloc::{AllocError, Global};

/// A mistake in a text: the bytes to underline, none if something is missing at the end, and a message such as
/// `expected ";" after the value of "a", found the name "b"`.
///
/// It covers a run of errors in `Parse::errors`, and is shown at the first of them. The others follow from that one.
#[derive(Drop)]
pub struct Diagnostic {
    /// The code of what it reports.
    pub code: Code,
    /// The bytes to underline.
    pub range: TextRange,
    /// The message, in one line.
    pub message: String,
    /// The index of the first error that it covers.
    pub first_error: usize,
    /// The index after that of the last error that it covers.
    pub end_error: usize,
    /// Notes that may help: what is not closed, where something is missing, and what may be meant.
    pub notes: Vec<Note>,
}

// Adds a diagnostic, if there is one.
fn add(diagnostic: Option<Diagnostic>, found: &mut Vec<Diagnostic>) -> Result<(), AllocError>
    ensures { OnOk result (found.new.items ≡ found.old.items ++ option_to_list diagnostic) }
{
    if let Some(diagnostic) = diagnostic {
        found.push(diagnostic)?;
    }
    Ok(())
}

// Returns the diagnostics of the first mistakes, as many as `count`.
fn worded(
    alloc: Global,
    diagnosis: &mut Diagnosis<'_>,
    count: usize,
) -> Result<Vec<Diagnostic>, AllocError>
    ensures { IfOk result (λ found. (root : Located) (faults : List Fault) (starts : List ℕ) → Describes root faults starts diagnosis.old →
        count ≤ length starts → AreWorded (take count (mistakes_at root faults starts)) found.items) }
{
    let mut found = Vec::new(alloc);
    for number in 0..count {
        let diagnostic = diagnosis.diagnostic(alloc, number)?;
        add(diagnostic, &mut found)?;
    }
    Ok(found)
}

/// Returns the diagnostics of a text, in the order of its errors. Errors that follow from an earlier one share its diagnostic.
pub fn diagnostics(alloc: Global, read: &Parse) -> Result<Vec<Diagnostic>, AllocError>
    ensures { IfOk result (λ found. AreWorded (mistakes false (root_of read.now) read.now.faults) found.items) }
{
    let mut diagnosis = Diagnosis::new(alloc, read, false)?;
    let count = diagnosis.len();
    let found = worded(alloc, &mut diagnosis, count)?;
    Ok(found)
}

/// Returns the first diagnostics of a text, at most `most`. No messages are made for the others.
pub fn first_diagnostics(
    alloc: Global,
    read: &Parse,
    most: usize,
) -> Result<Vec<Diagnostic>, AllocError>
    ensures { IfOk result (λ found. AreWorded (take most (mistakes false (root_of read.now) read.now.faults)) found.items) }
{
    let mut diagnosis = Diagnosis::new(alloc, read, false)?;
    let count = diagnosis.len().min(most);
    let found = worded(alloc, &mut diagnosis, count)?;
    Ok(found)
}

/// Returns a diagnostic for each error of a text, in order.
pub fn all_diagnostics(alloc: Global, read: &Parse) -> Result<Vec<Diagnostic>, AllocError>
    ensures { IfOk result (λ found. AreWorded (mistakes true (root_of read.now) read.now.faults) found.items) }
{
    let mut diagnosis = Diagnosis::new(alloc, read, true)?;
    let count = diagnosis.len();
    let found = worded(alloc, &mut diagnosis, count)?;
    Ok(found)
}
