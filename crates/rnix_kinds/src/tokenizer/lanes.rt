//! Tests of 16 bytes at a time.

ghost use Rattle.std.specs.Prelude.{◌≡◌, ◌≤◌, ◌==◌, not};
ghost use Rattle.std.specs.List.{prefix_len};
ghost use Rattle.rnix_kinds.specs.Lexical.Classes.{class_test, class_of};
ghost use Rattle.rnix_kinds.specs.Lexical.Lanes.{lanes, is_between};

use super::long::LongClass;
use std::simd::prelude::*;

/// The number of bytes that are tested at once.
pub const LANES: usize = 16;

// The value of a lane whose byte passes a test; the others are 0.
const FULL: u8 = 255;

// Which bytes are equal to this one.
#[inline(always)]
fn equal(bytes: u8x16, byte: u8) -> u8x16
    ensures { result ≡ lanes (λ b. b == byte) bytes }
{
    bytes
        .simd_eq(u8x16::splat(byte))
        .select(u8x16::splat(FULL), u8x16::splat(0))
}

// Which bytes differ from this one.
#[inline(always)]
fn differ(bytes: u8x16, byte: u8) -> u8x16
    ensures { result ≡ lanes (λ b. not (b == byte)) bytes }
{
    bytes
        .simd_eq(u8x16::splat(byte))
        .select(u8x16::splat(0), u8x16::splat(FULL))
}

// Which bytes are among the `count` bytes from `first` on.
#[inline(always)]
fn between(bytes: u8x16, first: u8, count: u8) -> u8x16
    ensures { result ≡ lanes (is_between first count) bytes }
{
    (bytes - u8x16::splat(first))
        .simd_lt(u8x16::splat(count))
        .select(u8x16::splat(FULL), u8x16::splat(0))
}

// Which bytes belong to the class.
#[inline(always)]
fn members(bytes: u8x16, class: LongClass) -> u8x16
    ensures { result ≡ lanes (class_test (class_of class)) bytes }
{
    match class {
        LongClass::Blank => between(bytes, b'\t', 5) | equal(bytes, b' '),
        LongClass::Line => differ(bytes, b'\n'),
        LongClass::Comment => differ(bytes, b'*'),
        LongClass::Content => {
            let others = differ(bytes, b'$') & differ(bytes, b'\'');
            differ(bytes, b'"') & differ(bytes, b'\\') & others
        }
    }
}

/// Returns how many bytes of the class come first.
#[inline(always)]
pub fn lanes_in(bytes: u8x16, class: LongClass) -> usize
    ensures len { result ≡ prefix_len (class_test (class_of class)) bytes }
    ensures within { result ≤ LANES }
{
    let others = members(bytes, class).simd_eq(u8x16::splat(0)).to_bitmask();
    if others == 0 {
        LANES
    } else {
        others.trailing_zeros() as usize
    }
}
