//! Fixes of errors.

ghost use Rattle.std.specs.Prelude.{◌≡◌, length, string_bytes};
ghost use Rattle.rnix_c.specs.Answers.{filled, Answers};
ghost use Rattle.rnix_c.specs.FixCalls.{fix_written, RefusedOr, WritesFix, WritesFixAt, WritesFixIn};

use crate::answers::{NO_MEMORY, NONE_SUCH, checked, fill};
use nix_diagnostics::{Diagnostic, diagnostics};
use nix_fixes::{Fix, fix_of};
use rnix::{Parse, Root};
use std::alloc::Global;

/// There is no fix.
const NO_FIX: i64 = 0;

/// There is a fix.
const ONE_FIX: i64 = 1;

/// A fix: the range that it replaces, and the length of the new text in bytes.
#[repr(C)]
#[derive(Clone, Copy)]
pub struct RnixFix {
    pub start: u64,
    pub end: u64,
    pub text_len: u64,
}

// Writes a fix, and as many bytes of its text as fit into the array.
fn write_fix(found: &Fix, fix: &mut RnixFix, buffer: &mut [u8])
    ensures fix { fix.new ≡ fix_written found.now }
    ensures text { buffer.new ≡ filled (string_bytes found.now.text) buffer.old }
{
    fill(found.text.as_bytes(), buffer);
    *fix = RnixFix {
        start: found.range.start() as u64,
        end: found.range.end() as u64,
        text_len: found.text.len() as u64,
    };
}

// Writes the fix of a diagnostic, if there is one, and returns the number of fixes: 1 or 0.
fn write_fix_of(
    alloc: Global,
    read: &Parse,
    text: &str,
    diagnostic: &Diagnostic,
    fix: &mut RnixFix,
    buffer: &mut [u8],
) -> i64
    ensures { RefusedOr result fix.old fix.new buffer.old buffer.new
        (WritesFix text.now (length read.now.faults) result fix.old fix.new buffer.old buffer.new) }
{
    match fix_of(alloc, read, text, diagnostic) {
        Ok(Some(found)) => {
            write_fix(&found, fix, buffer);
            ONE_FIX
        }
        Ok(None) => NO_FIX,
        Err(_) => NO_MEMORY,
    }
}

// Writes the fix of the diagnostic with this number.
fn write_fix_at(
    alloc: Global,
    read: &Parse,
    text: &str,
    number: usize,
    fix: &mut RnixFix,
    buffer: &mut [u8],
) -> i64
    ensures { RefusedOr result fix.old fix.new buffer.old buffer.new
        (WritesFixAt text.now read.now.tree read.now.faults number result fix.old fix.new buffer.old buffer.new) }
{
    let Ok(all) = diagnostics(alloc, read) else {
        return NO_MEMORY;
    };
    match all.get(number) {
        Some(diagnostic) => write_fix_of(alloc, read, text, diagnostic, fix, buffer),
        None => NONE_SUCH,
    }
}

// Writes the fix of the diagnostic with this number, given a text.
fn write_fix_in(
    alloc: Global,
    text: &str,
    number: usize,
    fix: &mut RnixFix,
    buffer: &mut [u8],
) -> i64
    ensures { WritesFixIn text.now number result fix.old fix.new buffer.old buffer.new }
{
    match Root::parse(alloc, text) {
        Ok(read) => write_fix_at(alloc, &read, text, number, fix, buffer),
        Err(_) => NO_MEMORY,
    }
}

/// Writes the fix of the diagnostic with this number. Returns the number of fixes: 1 or 0.
#[unsafe(no_mangle)]
pub extern "C" fn rnix_fix(
    alloc: Global,
    text: &[u8],
    number: usize,
    fix: &mut RnixFix,
    buffer: &mut [u8],
) -> i64
    ensures { Answers text.now result ((fix.new ≡ fix.old) × (buffer.new ≡ buffer.old))
        (λ tree faults. WritesFixAt text.now tree faults number result fix.old fix.new buffer.old buffer.new) }
{
    match checked(text) {
        Ok(text) => write_fix_in(alloc, text, number, fix, buffer),
        Err(answer) => answer,
    }
}
