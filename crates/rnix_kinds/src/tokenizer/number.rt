//! Numbers.

ghost use Rattle.std.specs.Prelude.{◌≡◌, ◌≤◌, length};
ghost use Rattle.rnix_kinds.specs.Lexical.Numbers.{number, fraction, exponent, exponent_digits};

use super::rule::{Cut, plain};
use super::text::{Class, byte_at, run_end};
use crate::kinds::SyntaxKind;

// The digits of an exponent, of which there must be one.
fn exponent_digits(text: &str, at: usize) -> Cut
    requires { at ≤ length text.now }
    ensures { result ≡ exponent_digits at text.now }
{
    let end = run_end(text, at, Class::Digit);
    if end == at {
        plain(SyntaxKind::TOKEN_ERROR, end)
    } else {
        plain(SyntaxKind::TOKEN_FLOAT, end)
    }
}

// A float whose digits end at `at`, with the exponent that may follow them.
fn exponent(text: &str, at: usize) -> Cut
    requires { at ≤ length text.now }
    ensures { result ≡ exponent at text.now }
{
    if byte_at(text, at) == b'e' || byte_at(text, at) == b'E' {
        if byte_at(text, at + 1) == b'+' || byte_at(text, at + 1) == b'-' {
            exponent_digits(text, at + 2)
        } else {
            exponent_digits(text, at + 1)
        }
    } else {
        plain(SyntaxKind::TOKEN_FLOAT, at)
    }
}

// A float whose digits after the point begin at `at`.
fn fraction(text: &str, at: usize) -> Cut
    requires { at ≤ length text.now }
    ensures { result ≡ fraction at text.now }
{
    exponent(text, run_end(text, at, Class::Digit))
}

/// Returns the token of a number.
#[inline(always)]
pub fn number(text: &str) -> Option<Cut>
    ensures { result ≡ number text.now }
{
    if byte_at(text, 0).is_ascii_digit() {
        let end = run_end(text, 0, Class::Digit);
        let is_whole = byte_at(text, 0) == b'0' && byte_at(text, 1) != b'.';
        if byte_at(text, end) == b'.' && !is_whole {
            Some(fraction(text, end + 1))
        } else {
            Some(plain(SyntaxKind::TOKEN_INTEGER, end))
        }
    } else if byte_at(text, 0) == b'.' && byte_at(text, 1).is_ascii_digit() {
        Some(fraction(text, 1))
    } else {
        None
    }
}
