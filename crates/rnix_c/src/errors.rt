//! The errors of a text.

ghost use Rattle.std.specs.Prelude.{◌≡◌, map};
ghost use Rattle.rnix_green.specs.Range.{bounds_of};
ghost use Rattle.rnix_grammar.specs.Fault.{fault_of};
ghost use Rattle.rnix_c.specs.Answers.{filled};
ghost use Rattle.rnix_c.specs.Errors.{unplaced, placed, wanted_of, error_of, errors_of};

use crate::answers::{NO_KIND, NO_NUMBER};
use rnix::{ParseError, SyntaxKind, TextRange};

/// The number of expected kinds that an error can contain.
const WANTED_ROOM: usize = 16;

/// The number in place of an absent expected kind.
const NOT_WANTED: u8 = u8::MAX;

/// An error: its variant and range, the expected kinds, in rnix's order, and the kind of the token that was found.
#[repr(C)]
#[derive(Clone, Copy)]
pub struct RnixError {
    pub start: u64,
    pub end: u64,
    pub wanted: [u8; 16],
    pub variant: u32,
    pub found: u32,
}

// Returns an error with this variant and no range.
fn unplaced(variant: u32) -> RnixError
    ensures { result ≡ unplaced variant }
{
    RnixError {
        start: NO_NUMBER,
        end: NO_NUMBER,
        wanted: [NOT_WANTED; 16],
        variant,
        found: NO_KIND,
    }
}

// Returns an error with this variant and range.
fn placed(variant: u32, range: TextRange) -> RnixError
    ensures { result ≡ placed variant (bounds_of range) }
{
    RnixError {
        start: range.start() as u64,
        end: range.end() as u64,
        ..unplaced(variant)
    }
}

// Returns the numbers of the expected kinds.
fn wanted_of(kinds: &[SyntaxKind]) -> [u8; 16]
    ensures { result ≡ wanted_of kinds.now }
{
    let mut wanted = [NOT_WANTED; 16];
    for number in 0..kinds.len().min(WANTED_ROOM) {
        wanted[number] = kinds[number] as u8;
    }
    wanted
}

// Returns an error as numbers. The header names the variants.
fn record_of(error: &ParseError) -> RnixError
    ensures { result ≡ error_of (fault_of error.now) }
{
    match error {
        ParseError::Unexpected(range) => placed(0, *range),
        ParseError::UnexpectedExtra(range) => placed(1, *range),
        ParseError::UnexpectedWanted(kind, range, wanted) => RnixError {
            found: *kind as u32,
            wanted: wanted_of(wanted),
            ..placed(2, *range)
        },
        ParseError::UnexpectedDoubleBind(range) => placed(3, *range),
        ParseError::UnexpectedEOF => unplaced(4),
        ParseError::UnexpectedEOFWanted(wanted) => RnixError {
            wanted: wanted_of(wanted),
            ..unplaced(5)
        },
        ParseError::DuplicatedArgs(range, _name) => placed(6, *range),
        ParseError::RecursionLimitExceeded => unplaced(7),
    }
}

/// Writes the first errors, as many as fit into the array.
pub fn fill(errors: &[ParseError], room: &mut [RnixError])
    ensures { room.new ≡ filled (errors_of (map fault_of errors.now)) room.old }
{
    for number in 0..errors.len().min(room.len()) {
        room[number] = record_of(&errors[number]);
    }
}
