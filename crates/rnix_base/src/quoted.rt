//! Writing values as strings in `"`.

ghost use Rattle.std.specs.Prelude.{◌≡◌, ◌++◌, ◌∷◌, [], ◌≤◌, ◌<◌, false, length, OnOk, IfOk, string_bytes};
ghost use Rattle.std.specs.List.{prefix_len};
ghost use Rattle.rnix_base.specs.Quoted.{is_ordinary, begins_with_brace, escape_of, inside_of, nix_string, IsQuoted};

use std::alloc::AllocError;

// Returns whether a byte needs no escape, whatever follows it.
#[inline(always)]
fn is_ordinary(byte: u8) -> bool
    ensures { result ≡ is_ordinary byte }
{
    byte != b'\t' && byte != b'\n' && byte != b'\r' && byte != b'"' && byte != b'$' && byte != b'\\'
}

// Returns the number of leading bytes that need no escape, whatever follows them.
fn plain_len(bytes: &[u8]) -> usize
    ensures len { result ≡ prefix_len is_ordinary bytes.now }
    ensures within { result ≤ length bytes.now }
{
    bytes.iter().take_while(|byte| is_ordinary(**byte)).count()
}

// Returns whether a text begins with a brace.
fn begins_with_brace(text: &str) -> bool
    ensures { result ≡ begins_with_brace text.now }
{
    match text.as_bytes() {
        [first, ..] => *first == b'{',
        [] => false,
    }
}

// Appends a letter after a backslash.
fn push_letter(letter: char, text: &mut String) -> Result<(), AllocError>
    ensures { OnOk result (letter < 128 → string_bytes text.new ≡ string_bytes text.old ++ 92 ∷ letter ∷ []) }
{
    text.push('\\')?;
    text.push(letter)
}

// Appends a byte that is not ordinary, with an escape if it needs one where `rest` follows it.
#[tactic(auto, unfolding(crate::specs::Quoted::escape_of))]
fn push_escape(byte: u8, rest: &str, text: &mut String) -> Result<(), AllocError>
    ensures { OnOk result (is_ordinary byte ≡ false → string_bytes text.new ≡ string_bytes text.old ++ escape_of byte rest.now) }
{
    match byte {
        b'\t' => push_letter('t', text),
        b'\n' => push_letter('n', text),
        b'\r' => push_letter('r', text),
        b'"' => push_letter('"', text),
        b'\\' => push_letter('\\', text),
        _ if begins_with_brace(rest) => push_letter('$', text),
        _ => text.push('$'),
    }
}

// Appends a text, if there is any.
fn push_some(part: &str, text: &mut String) -> Result<(), AllocError>
    ensures { OnOk result (string_bytes text.new ≡ string_bytes text.old ++ part.now) }
{
    match part.as_bytes() {
        [] => Ok(()),
        [byte] if *byte < 128 => text.push(char::from(*byte)),
        _ => text.push_str(part),
    }
}

// Appends the leading bytes that need no escape and the byte after them, and returns the rest.
fn push_run<'t>(value: &'t str, text: &mut String) -> Result<&'t str, AllocError>
    ensures written { IfOk result (λ rest. string_bytes text.new ++ inside_of rest.now ≡ string_bytes text.old ++ inside_of value.now) }
    ensures fewer { IfOk result (λ rest. 0 < length value.now → length rest.now < length value.now) }
{
    let bytes = value.as_bytes();
    let plain = plain_len(bytes);
    let (run, behind) = value.split_at(plain);
    push_some(run, text)?;
    if plain == bytes.len() {
        return Ok(behind);
    }
    let (_, rest) = value.split_at(plain + 1);
    push_escape(bytes[plain], rest, text)?;
    Ok(rest)
}

/// Appends a value as a Nix string in `"`, without interpolation.
#[tactic(auto, unfolding(crate::specs::Quoted::inside_of))]
pub fn push_quoted(value: &str, text: &mut String) -> Result<(), AllocError>
    ensures text { OnOk result (string_bytes text.new ≡ string_bytes text.old ++ nix_string value.now) }
    ensures is_string { OnOk result (IsQuoted value.now (nix_string value.now)) }
{
    text.push('"')?;
    let mut rest = value;
    while !rest.is_empty() {
        rest = push_run(rest, text)?;
    }
    text.push('"')?;
    Ok(())
}
