//! A text's tree and errors.

ghost use Rattle.std.specs.Prelude.{◌≡◌, length, map};
ghost use Rattle.rnix_grammar.specs.Fault.{fault_of};
ghost use Rattle.rnix_c.specs.Answers.{filled, IsWritten, Answers};
ghost use Rattle.rnix_c.specs.Elements.{elements_of, AreFew};
ghost use Rattle.rnix_c.specs.Errors.{errors_of};

use crate::answers::parsed;
use crate::elements::{self, RnixElement};
use crate::errors::{self, RnixError};
use rnix::{GreenNode, ParseError};
use std::alloc::Global;

// Writes the elements, the errors and the number of errors, and returns the number of elements.
fn write_parse(
    green: &GreenNode,
    faults: &[ParseError],
    elements: &mut [RnixElement],
    errors: &mut [RnixError],
    error_count: &mut u64,
) -> i64
    ensures elements { IsWritten (elements_of green.now) result elements.old elements.new }
    ensures errors { errors.new ≡ filled (errors_of (map fault_of faults.now)) errors.old }
    ensures count { error_count.new ≡ length (map fault_of faults.now) }
{
    errors::fill(faults, errors);
    *error_count = faults.len() as u64;
    elements::written(green, elements)
}

/// Writes the elements and the errors of a text, and the number of errors. Returns the number of elements: at most three for each byte and three
/// more.
#[unsafe(no_mangle)]
pub extern "C" fn rnix_parse(
    alloc: Global,
    text: &[u8],
    elements: &mut [RnixElement],
    errors: &mut [RnixError],
    error_count: &mut u64,
) -> i64
    ensures { Answers text.now result ((elements.new ≡ elements.old) × (errors.new ≡ errors.old) × (error_count.new ≡ error_count.old))
        (λ tree faults. IsWritten (elements_of tree) result elements.old elements.new × AreFew text.now tree
        × (errors.new ≡ filled (errors_of faults) errors.old) × (error_count.new ≡ length faults)) }
{
    match parsed(alloc, text) {
        Ok((green, faults)) => write_parse(&green, &faults, elements, errors, error_count),
        Err(answer) => answer,
    }
}

/// Writes the elements of a text's tree, in preorder, and returns their number: at most three for each byte and three more.
#[unsafe(no_mangle)]
pub extern "C" fn rnix_elements(alloc: Global, text: &[u8], room: &mut [RnixElement]) -> i64
    ensures { Answers text.now result (room.new ≡ room.old) (λ tree _. IsWritten (elements_of tree) result room.old room.new × AreFew text.now tree) }
{
    match parsed(alloc, text) {
        Ok((green, _errors)) => elements::written(&green, room),
        Err(answer) => answer,
    }
}

/// Writes the errors of a text, and returns their number.
#[unsafe(no_mangle)]
pub extern "C" fn rnix_errors(alloc: Global, text: &[u8], room: &mut [RnixError]) -> i64
    ensures { Answers text.now result (room.new ≡ room.old) (λ _ faults. IsWritten (errors_of faults) result room.old room.new) }
{
    match parsed(alloc, text) {
        Ok((_green, errors)) => {
            errors::fill(&errors, room);
            errors.len() as i64
        }
        Err(answer) => answer,
    }
}
