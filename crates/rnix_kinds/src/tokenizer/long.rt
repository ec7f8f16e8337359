//! Runs that are often long.

ghost use Rattle.std.specs.Prelude.{◌≡◌, ◌≤◌, length};
ghost use Rattle.std.specs.List.{prefix_len};
ghost use Rattle.rnix_kinds.specs.Lexical.Texts.{run_end};
ghost use Rattle.rnix_kinds.specs.Lexical.Classes.{class_test, class_of};

use super::lanes::{LANES, lanes_in};
use super::text::{Class, is_in};
use std::simd::prelude::*;

/// A set of bytes whose runs are often long.
#[derive(Clone, Copy)]
pub enum LongClass {
    Blank,
    Line,
    Comment,
    Content,
}

// The number of bytes that are tested one at a time before 16 are tested at once.
const HEAD: usize = 8;

impl LongClass {
    // The set of bytes.
    #[inline(always)]
    fn class(self) -> Class
        ensures { result ≡ class_of self }
    {
        match self {
            LongClass::Blank => Class::Blank,
            LongClass::Line => Class::Line,
            LongClass::Comment => Class::Comment,
            LongClass::Content => Class::Content,
        }
    }
}

// Returns the length of the longest run at the front, and tests 16 bytes at a time.
#[inline(always)]
fn wide_run_len(bytes: &[u8], class: LongClass) -> usize
    ensures len { result ≡ prefix_len (class_test (class_of class)) bytes.now }
    ensures within { result ≤ length bytes.now }
{
    let mut at = 0;
    while bytes.len() - at >= LANES {
        let len = lanes_in(u8x16::from_slice(&bytes[at..]), class);
        if len < LANES {
            return at + len;
        }
        at += LANES;
    }
    while at < bytes.len() && is_in(class.class(), bytes[at]) {
        at += 1;
    }
    at
}

// Returns the length of the longest run at the front, as `wide_run_len` does, in a call that keeps its callers small.
#[inline(never)]
fn long_run_len(bytes: &[u8], class: LongClass) -> usize
    ensures len { result ≡ prefix_len (class_test (class_of class)) bytes.now }
    ensures within { result ≤ length bytes.now }
{
    wide_run_len(bytes, class)
}

// Returns the length of the longest run at the front.
#[inline(always)]
fn run_len(bytes: &[u8], class: LongClass) -> usize
    ensures len { result ≡ prefix_len (class_test (class_of class)) bytes.now }
    ensures within { result ≤ length bytes.now }
{
    let mut at = 0;
    while at < bytes.len() && is_in(class.class(), bytes[at]) {
        at += 1;
        if at == HEAD {
            return at + long_run_len(&bytes[at..], class);
        }
    }
    at
}

/// Returns where the longest run of the class ends that begins at `from`.
#[inline(always)]
pub fn long_run_end(bytes: &[u8], from: usize, class: LongClass) -> usize
    requires { from ≤ length bytes.now }
    ensures end { result ≡ run_end (class_test (class_of class)) from bytes.now }
    ensures within { result ≤ length bytes.now }
    ensures onward { from ≤ result }
{
    from + run_len(&bytes[from..], class)
}

/// Returns where the longest run of the class ends that begins at `from`, and tests 16 bytes at a time from there on.
#[inline(always)]
pub fn wide_run_end(bytes: &[u8], from: usize, class: LongClass) -> usize
    requires { from ≤ length bytes.now }
    ensures end { result ≡ run_end (class_test (class_of class)) from bytes.now }
    ensures within { result ≤ length bytes.now }
    ensures onward { from ≤ result }
{
    from + wide_run_len(&bytes[from..], class)
}
