//! Floats as both Nix and JSON write them.

ghost use Rattle.std.specs.Prelude.{◌≡◌, ◌++◌, ◌<◌, OnOk, IfOk, option_map, string_bytes};
ghost use Rattle.nix_values.specs.Floats.{has_value, is_held, without_first, first_digits, after_digits, or_zero, fraction_text, unsigned_text, with_point, float_text};

use crate::bytes::{byte_at, digits};
use std::alloc::{AllocError, Global};

const ZERO: f64 = 0.0;

// Returns whether a number has a digit other than 0 before its exponent.
fn has_value(number: &[u8]) -> bool
    ensures { result ≡ has_value number.now }
{
    for index in 0..number.len() {
        let byte = number[index];
        if b'1' <= byte && byte <= b'9' {
            return true;
        }
        if byte == b'e' || byte == b'E' {
            return false;
        }
    }
    false
}

/// Returns whether Nix can hold a number: its nearest float is neither infinite nor so small that digits are lost.
pub fn is_held(number: &str) -> bool
    ensures { result ≡ is_held number.now }
{
    match number.parse::<f64>() {
        Ok(float) => float.is_normal() || (float == ZERO && !has_value(number.as_bytes())),
        Err(_) => false,
    }
}

/// Returns a text without its first byte, if that is the given ASCII byte.
pub fn without_first(text: &str, byte: u8) -> &str
    requires some { 0 < byte }
    requires ascii { byte < 128 }
    ensures { result.now ≡ without_first byte text.now }
{
    if byte_at(text.as_bytes(), 0) == byte {
        text.split_at(1).1
    } else {
        text
    }
}

// Returns the digits with which a text begins, and what follows them.
fn split_digits(text: &str) -> (&str, &str)
    ensures front { result.0.now ≡ first_digits text.now }
    ensures back { result.1.now ≡ after_digits text.now }
{
    text.split_at(digits(text.as_bytes()))
}

// Returns digits, or `0` if there are none.
fn or_zero(digits: &str) -> &str
    ensures { result.now ≡ or_zero digits.now }
{
    if digits.is_empty() { "0" } else { digits }
}

// Writes digits, or `0` if there are none, and what follows them.
fn push_fraction(rest: &str, text: &mut String) -> Result<(), AllocError>
    ensures { OnOk result (string_bytes text.new ≡ string_bytes text.old ++ fraction_text rest.now) }
{
    let (fraction, exponent) = split_digits(rest);
    text.push_str(or_zero(fraction))?;
    text.push_str(exponent)
}

// Writes a number without a sign, with a point between digits.
fn push_unsigned(number: &str, text: &mut String) -> Result<(), AllocError>
    ensures { OnOk result (string_bytes text.new ≡ string_bytes text.old ++ unsigned_text number.now) }
{
    let (whole, rest) = split_digits(number);
    text.push_str(or_zero(whole))?;
    text.push('.')?;
    push_fraction(without_first(rest, b'.'), text)
}

/// Returns a number with a point between digits, or `None` if Nix cannot hold it. A float in Nix and a number in JSON are
/// written so.
pub fn float_of(alloc: Global, number: &str) -> Result<Option<String>, AllocError>
    ensures { IfOk result (λ found. option_map string_bytes found ≡ float_text number.now) }
{
    if !is_held(number) {
        return Ok(None);
    }
    let mut text = String::new(alloc);
    if byte_at(number.as_bytes(), 0) == b'-' {
        text.push('-')?;
    }
    push_unsigned(without_first(number, b'-'), &mut text)?;
    Ok(Some(text))
}
