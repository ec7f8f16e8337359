//! The values of JSON strings.

ghost use Rattle.std.specs.Prelude.{◌≡◌, ◌≢◌, ◌+◌, ◌-◌, ◌^◌, ◌<◌, ◌≤◌, ◌⊎◌, true, false, length, slice_index, Some, None, IfSome, IfOk, string_bytes};
ghost use Rattle.std.specs.Char.{is_digit};
ghost use Rattle.nix_values.specs.JsonContent.{IsHexAt, code_unit, is_high, low_half, paired, escaped_unit, numbered, short_escape, escape_at, content};
ghost use Rattle.std.specs.Result.{IfErr};
ghost use Rattle.nix_values.specs.declared.json_error.JsonReason.TheVariants.{LoneSurrogate};
ghost use Rattle.nix_values.specs.JsonErrors.{error_at, no_unit, no_escape, no_character, string_error};
ghost use Rattle.nix_values.specs.JsonReading.{EndsAscii, Finds, Reads, RefusesWith, IsRun, IsEscape};

use crate::bytes::{byte_at, bytes_from};
use crate::json_error::{JsonReason, JsonStop, refused};
use crate::json_strings::{plain_len, push_some};
use std::alloc::{AllocError, Global};

// Returns the value of the hexadecimal digit at an index.
fn hex_at(text: &[u8], index: usize) -> Option<u32>
    ensures none { result ≡ None → is_digit (slice_index text.now index) 16 ≡ false }
    ensures some { IfSome result (IsHexAt text.now index) }
{
    char::from(byte_at(text, index)).to_digit(16)
}

// Returns the code unit that the first four hexadecimal digits write.
#[inline(never)]
fn code_unit(text: &[u8]) -> Option<u32>
    ensures unit { result ≡ code_unit text.now }
    ensures small { IfSome result (λ unit. unit < 65536) }
    ensures ascii { IfSome result (λ unit. EndsAscii text.now 4) }
{
    let first = hex_at(text, 0)?;
    let second = hex_at(text, 1)?;
    let third = hex_at(text, 2)?;
    let fourth = hex_at(text, 3)?;
    Some(first * 4096 + (second * 256 + (third * 16 + fourth)))
}

// Returns the code unit of the escape with which a text begins, if there is one.
fn low_half(text: &[u8]) -> Option<u32>
    ensures unit { result ≡ low_half text.now }
    ensures ascii { IfSome result (λ unit. EndsAscii text.now 6) }
{
    if byte_at(text, 0) == b'\\' && byte_at(text, 1) == b'u' {
        code_unit(bytes_from(text, 2))
    } else {
        None
    }
}

// Returns the character of a surrogate pair, and the length of both escapes after the backslash.
fn paired(high: u32, low: Option<u32>) -> Result<(char, usize), JsonReason>
    requires { is_high high ≡ true }
    ensures found { Finds result (paired high low) }
    ensures len { IfOk result (λ found. (found.1 ≡ 11) × (low ≢ None)) }
    ensures reason { IfErr result (λ reason. reason ≡ LoneSurrogate) }
{
    let Some(low) = low else {
        return Err(JsonReason::LoneSurrogate);
    };
    if low < 0xdc00 || low >= 0xe000 {
        return Err(JsonReason::LoneSurrogate);
    }
    match char::from_u32((high - 0xd800) * 1024 + (low - 0xdc00) + 0x10000) {
        Some(letter) => Ok((letter, 11)),
        None => Err(JsonReason::LoneSurrogate),
    }
}

// Returns whether a code unit is the first half of a pair.
fn is_high(unit: u32) -> bool
    ensures { result ≡ is_high unit }
{
    unit >= 0xd800 && unit < 0xdc00
}

// Returns the character of a code unit, and the length of its escape after the backslash.
fn escaped_unit(unit: u32, rest: &[u8]) -> Result<(char, usize), JsonReason>
    requires { unit < 65536 }
    ensures found { Finds result (escaped_unit (Some unit) rest.now) }
    ensures len { IfOk result (λ found. (found.1 ≡ 5) ⊎ ((found.1 ≡ 11) × EndsAscii rest.now 6)) }
    ensures reason { IfErr result (λ reason. reason ≡ no_unit (Some unit)) }
{
    if unit == 0 {
        return Err(JsonReason::HasNul);
    }
    if is_high(unit) {
        return paired(unit, low_half(rest));
    }
    match char::from_u32(unit) {
        Some(letter) => Ok((letter, 5)),
        None => Err(JsonReason::LoneSurrogate),
    }
}

// Returns the character with the digits after `\u`, and the length of the escape after the backslash.
fn numbered(text: &[u8]) -> Result<(char, usize), JsonReason>
    ensures found { Finds result (numbered text.now) }
    ensures ascii { IfOk result (λ found. (0 < found.1) × EndsAscii text.now (found.1 - 1)) }
    ensures reason { IfErr result (λ reason. reason ≡ no_unit (code_unit text.now)) }
{
    match code_unit(text) {
        Some(unit) => escaped_unit(unit, bytes_from(text, 4)),
        None => Err(JsonReason::NoEscape),
    }
}

// Returns the character that a letter after a backslash means.
fn short_escape(letter: u8) -> Option<char>
    ensures { result ≡ short_escape letter }
{
    match letter {
        b'"' => Some('"'),
        b'\\' => Some('\\'),
        b'/' => Some('/'),
        b'b' => Some('\u{8}'),
        b'f' => Some('\u{c}'),
        b'n' => Some('\n'),
        b'r' => Some('\r'),
        b't' => Some('\t'),
        _ => None,
    }
}

// Returns the character of an escape, and the length of the escape after the backslash.
#[tactic(auto, unfolding(crate::specs::JsonContent::escape_at))]
fn escape_at(rest: &[u8]) -> Result<(char, usize), JsonReason>
    ensures found { Finds result (escape_at rest.now) }
    ensures ascii { IfOk result (λ found. EndsAscii rest.now found.1) }
    ensures reason { IfErr result (λ reason. reason ≡ no_escape rest.now) }
{
    let letter = byte_at(rest, 0);
    if letter == b'u' {
        return numbered(bytes_from(rest, 1));
    }
    match short_escape(letter) {
        Some(letter) => Ok((letter, 1)),
        None => Err(JsonReason::NoEscape),
    }
}

// Returns why a byte is not allowed in a string.
fn control_reason(byte: u8) -> JsonReason
    ensures { result ≡ no_character byte }
{
    if byte == 0 {
        JsonReason::HasNul
    } else {
        JsonReason::ControlCharacter
    }
}

// Writes the leading bytes that need no escape, and returns the rest of the text.
fn after_plain<'t>(text: &'t str, value: &mut String) -> Result<&'t str, AllocError>
    ensures { IfOk result (λ rest. IsRun (string_bytes value.old) text.now (string_bytes value.new) rest.now) }
{
    let (run, rest) = text.split_at(plain_len(text.as_bytes()));
    push_some(run, value)?;
    Ok(rest)
}

// Writes the character of an escape, and returns the rest of the text. The text begins after the backslash, which is at the given offset.
fn after_escape<'t>(text: &'t str, at: usize, value: &mut String) -> Result<&'t str, JsonStop>
    ensures read { Reads result (λ rest. IsEscape (string_bytes value.old) text.now (string_bytes value.new) rest.now) (escape_at text.now ≡ None) }
    ensures error { RefusesWith result (error_at (no_escape text.now) at) }
{
    match escape_at(text.as_bytes()) {
        Ok((letter, len)) => {
            value.push(letter)?;
            Ok(text.split_at(len).1)
        }
        Err(reason) => Err(refused(reason, at)),
    }
}

/// Reads a string, and returns its value and its length in bytes including the closing quote. The text begins after the opening quote, at the given offset.
pub fn json_string(alloc: Global, text: &str, start: usize) -> Result<(String, usize), JsonStop>
    ensures read { Reads result (λ found. content 0 text.now ≡ Some (string_bytes found.0, found.1)) (content 0 text.now ≡ None) }
    ensures within { IfOk result (λ found. found.1 ≤ length text.now) }
    ensures error { start + length text.now < 2 ^ 64 → RefusesWith result (string_error (start - 1) 0 start text.now) }
{
    let mut value = String::new(alloc);
    let mut rest = text;
    while !rest.is_empty() {
        let behind = after_plain(rest, &mut value)?;
        let passed = text.len() - behind.len();
        let at = start.saturating_add(passed);
        if behind.is_empty() {
            return Err(refused(JsonReason::OpenString, start.saturating_sub(1)));
        }
        let byte = byte_at(behind.as_bytes(), 0);
        if byte == b'"' {
            return Ok((value, passed + 1));
        }
        if byte != b'\\' {
            return Err(refused(control_reason(byte), at));
        }
        match after_escape(behind.split_at(1).1, at, &mut value) {
            Ok(more) => rest = more,
            Err(stop) => return Err(stop),
        }
    }
    Err(refused(JsonReason::OpenString, start.saturating_sub(1)))
}
