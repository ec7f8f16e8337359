//! Texts as strings of JSON.

ghost use Rattle.std.specs.Prelude.{◌≡◌, ◌++◌, ◌∷◌, [], ◌≤◌, ◌<◌, false, length, OnOk, IfOk, string_bytes};
ghost use Rattle.std.specs.Char.{digit_char};
ghost use Rattle.std.specs.List.{flat_map, prefix_len};
ghost use Rattle.nix_values.specs.JsonEscapes.{is_plain, numbered, escape, json_string};

use std::alloc::AllocError;

// Returns whether a byte needs no escape.
#[inline(always)]
fn is_plain(byte: u8) -> bool
    ensures { result ≡ is_plain byte }
{
    byte >= b' ' && byte != b'"' && byte != b'\\'
}

/// Returns the number of leading bytes that need no escape.
pub fn plain_len(bytes: &[u8]) -> usize
    ensures len { result ≡ prefix_len is_plain bytes.now }
    ensures within { result ≤ length bytes.now }
{
    bytes.iter().take_while(|byte| is_plain(**byte)).count()
}

// Returns the hexadecimal digit of a number below 16.
fn digit(number: u8) -> char
    ensures { number < 16 → result ≡ digit_char number }
{
    char::from(if number < 10 {
        b'0' | number
    } else {
        b'W'.wrapping_add(number)
    })
}

// Writes the number of a control character.
fn push_number(byte: u8, text: &mut String) -> Result<(), AllocError>
    ensures { OnOk result (string_bytes text.new ≡ string_bytes text.old ++ numbered byte) }
{
    text.push_str("\\u00")?;
    text.push(digit(byte / 16))?;
    text.push(digit(byte % 16))
}

// Writes a letter after a backslash.
fn push_letter(letter: char, text: &mut String) -> Result<(), AllocError>
    ensures { OnOk result (letter < 128 → string_bytes text.new ≡ string_bytes text.old ++ 92 ∷ letter ∷ []) }
{
    text.push('\\')?;
    text.push(letter)
}

// Writes the escape of a byte that needs one.
#[tactic(auto, unfolding(crate::specs::JsonEscapes::escape))]
fn push_escape(byte: u8, text: &mut String) -> Result<(), AllocError>
    ensures { OnOk result (is_plain byte ≡ false → string_bytes text.new ≡ string_bytes text.old ++ escape byte) }
{
    match byte {
        b'"' => push_letter('"', text),
        b'\\' => push_letter('\\', text),
        b'\n' => push_letter('n', text),
        b'\r' => push_letter('r', text),
        b'\t' => push_letter('t', text),
        b'\x08' => push_letter('b', text),
        b'\x0c' => push_letter('f', text),
        _ => push_number(byte, text),
    }
}

/// Writes a text, unless it is empty.
pub fn push_some(part: &str, text: &mut String) -> Result<(), AllocError>
    ensures { OnOk result (string_bytes text.new ≡ string_bytes text.old ++ part.now) }
{
    match part.as_bytes() {
        [] => Ok(()),
        [byte] if *byte < 128 => text.push(char::from(*byte)),
        _ => text.push_str(part),
    }
}

// Writes the leading bytes that need no escape and the escape of the next byte, and returns the rest.
fn push_run<'t>(value: &'t str, text: &mut String) -> Result<&'t str, AllocError>
    ensures written { IfOk result (λ rest. string_bytes text.new ++ flat_map escape rest.now ≡ string_bytes text.old ++ flat_map escape value.now) }
    ensures fewer { IfOk result (λ rest. 0 < length value.now → length rest.now < length value.now) }
{
    let bytes = value.as_bytes();
    let plain = plain_len(bytes);
    let (run, behind) = value.split_at(plain);
    push_some(run, text)?;
    if plain == bytes.len() {
        return Ok(behind);
    }
    push_escape(bytes[plain], text)?;
    Ok(value.split_at(plain + 1).1)
}

/// Writes a string.
pub fn push_json_string(value: &str, text: &mut String) -> Result<(), AllocError>
    ensures { OnOk result (string_bytes text.new ≡ string_bytes text.old ++ json_string value.now) }
{
    text.push('"')?;
    let mut rest = value;
    while !rest.is_empty() {
        rest = push_run(rest, text)?;
    }
    text.push('"')
}
