//! Numbers in JSON.

ghost use Rattle.std.specs.Prelude.{◌≡◌, ℕ, ◌<◌, ◌≤◌, true, length, Some, None, IfSome, IfOk, option_map};
ghost use Rattle.std.specs.Str.Parse.{IsNumeral};
ghost use Rattle.nix_values.specs.Contents.{plain_of};
ghost use Rattle.nix_values.specs.Floats.{without_first};
ghost use Rattle.nix_values.specs.JsonNumbers.{some_digits, whole_end, fraction_end, exponent_end, decimals_end, unsigned_start, number_end, integer_value, number_value, number_at};
ghost use Rattle.nix_values.specs.JsonErrors.{error_at, no_value, no_number};
ghost use Rattle.nix_values.specs.JsonReading.{EndsAscii, Reads, RefusesWith};

use crate::bytes::{byte_at, digits};
use crate::data::Value;
use crate::float::{float_of, without_first};
use crate::json_error::{JsonReason, JsonStop, refused};
use std::alloc::Global;

// Returns the end of the digits at an offset, where at least one is required.
fn some_digits(text: &[u8], from: usize) -> Option<usize>
    requires { from ≤ length text.now }
    ensures end { result ≡ some_digits from text.now }
    ensures ascii { IfSome result (EndsAscii text.now) }
{
    let end = from + digits(&text[from..]);
    if end == from { None } else { Some(end) }
}

// Returns the end of the integer part.
fn whole_end(text: &[u8], from: usize) -> Option<usize>
    requires { from ≤ length text.now }
    ensures end { result ≡ whole_end from text.now }
    ensures ascii { IfSome result (EndsAscii text.now) }
{
    if byte_at(text, from) == b'0' {
        Some(from + 1)
    } else {
        some_digits(text, from)
    }
}

// Returns the end of the fraction at an offset, or the offset if there is no fraction.
fn fraction_end(text: &[u8], from: usize) -> Option<usize>
    requires { EndsAscii text.now from }
    ensures end { result ≡ fraction_end from text.now }
    ensures ascii { IfSome result (EndsAscii text.now) }
{
    if byte_at(text, from) == b'.' {
        some_digits(text, from + 1)
    } else {
        Some(from)
    }
}

// Returns the end of the exponent at an offset, or the offset if there is no exponent.
fn exponent_end(text: &[u8], from: usize) -> Option<usize>
    requires { EndsAscii text.now from }
    ensures end { result ≡ exponent_end from text.now }
    ensures ascii { IfSome result (EndsAscii text.now) }
{
    if byte_at(text, from) == b'e' || byte_at(text, from) == b'E' {
        if byte_at(text, from + 1) == b'+' || byte_at(text, from + 1) == b'-' {
            some_digits(text, from + 2)
        } else {
            some_digits(text, from + 1)
        }
    } else {
        Some(from)
    }
}

// Returns the end of the fraction and the exponent at an offset; both are optional.
fn decimals_end(text: &[u8], from: usize) -> Option<usize>
    requires { EndsAscii text.now from }
    ensures end { result ≡ decimals_end from text.now }
    ensures ascii { IfSome result (EndsAscii text.now) }
{
    match fraction_end(text, from) {
        Some(end) => exponent_end(text, end),
        None => None,
    }
}

// Returns the offset of the integer part.
fn unsigned_start(text: &[u8]) -> usize
    ensures start { result ≡ unsigned_start text.now }
    ensures within { result ≤ length text.now }
{
    if byte_at(text, 0) == b'-' { 1 } else { 0 }
}

// Returns the end of a number, and whether it is an integer.
fn number_end(text: &[u8]) -> Option<(usize, bool)>
    ensures end { result ≡ number_end text.now }
    ensures ascii { IfSome result (λ n. EndsAscii text.now n.0) }
{
    let whole = whole_end(text, unsigned_start(text))?;
    let end = decimals_end(text, whole)?;
    Some((end, end == whole))
}

// Returns the value of an integer, if Nix can write it.
fn integer_value(number: &str) -> Option<Value>
    requires { IsNumeral 10 (without_first 45 number.now) }
    ensures { option_map plain_of result ≡ integer_value number.now }
{
    let Ok(magnitude) = without_first(number, b'-').parse::<i64>() else {
        return None;
    };
    if byte_at(number.as_bytes(), 0) == b'-' {
        Some(Value::Integer(-magnitude))
    } else {
        Some(Value::Integer(magnitude))
    }
}

// Returns the value of a number, or why Nix cannot hold it.
fn number_value(
    alloc: Global,
    is_integer: bool,
    number: &str,
    start: usize,
) -> Result<Value, JsonStop>
    requires { is_integer ≡ true → IsNumeral 10 (without_first 45 number.now) }
    ensures read { Reads result (λ value. number_value is_integer number.now ≡ Some (plain_of value)) (number_value is_integer number.now ≡ None) }
    ensures error { (end : ℕ) → RefusesWith result (error_at (no_value (Some (end, is_integer))) start) }
{
    if is_integer {
        return match integer_value(number) {
            Some(value) => Ok(value),
            None => Err(refused(JsonReason::TooLarge, start)),
        };
    }
    match float_of(alloc, number)? {
        Some(float) => Ok(Value::Float(float)),
        None => Err(refused(JsonReason::NoFloat, start)),
    }
}

/// Reads the number with which a text begins, and returns its length. The text begins at the given offset.
pub fn json_number(alloc: Global, text: &str, start: usize) -> Result<(Value, usize), JsonStop>
    ensures read { Reads result (λ found. number_at text.now ≡ Some (plain_of found.0, found.1)) (number_at text.now ≡ None) }
    ensures within { IfOk result (λ found. (0 < found.1) × (found.1 ≤ length text.now)) }
    ensures error { RefusesWith result (error_at (no_number text.now) start) }
{
    let Some((end, is_integer)) = number_end(text.as_bytes()) else {
        return Err(refused(JsonReason::NoNumber, start));
    };
    let (number, _rest) = text.split_at(end);
    match number_value(alloc, is_integer, number, start) {
        Ok(value) => Ok((value, end)),
        Err(stop) => Err(stop),
    }
}
