//! JSON output.

ghost use Rattle.std.specs.Prelude.{◌≡◌, ◌≤◌, ◌<◌, false, length, take, OnOk, IfOk};
ghost use Rattle.std.specs.Char.{digit_char};
ghost use Rattle.std.specs.List.{flat_map, list_all, prefix_len};
ghost use Rattle.std.specs.Io.KnownBytes.{Appends};
ghost use Rattle.nix_cli.specs.JsonString.{is_plain, escape, json_string, shown_text};

use std::io::{self, Write};

// Returns whether a byte needs no escape in a JSON string.
#[inline(always)]
fn is_plain(byte: u8) -> bool
    ensures { result ≡ is_plain byte }
{
    byte >= b' ' && byte != b'"' && byte != b'\\'
}

// Returns the number of bytes at the start that need no escape.
fn plain_len(bytes: &[u8]) -> usize
    ensures len { result ≡ prefix_len is_plain bytes.now }
    ensures within { result ≤ length bytes.now }
{
    bytes.iter().take_while(|byte| is_plain(**byte)).count()
}

// Returns the hexadecimal digit of a number below 16.
fn digit(number: u8) -> u8
    ensures { number < 16 → result ≡ digit_char number }
{
    if number < 10 {
        b'0' | number
    } else {
        b'W'.wrapping_add(number)
    }
}

// Returns the escape of a control character below 32.
#[tactic(auto, unfolding(crate::specs::JsonString::escape))]
fn control_escape(byte: u8) -> [u8; 6]
    ensures { byte < 32 → result ≡ escape byte }
{
    let digits = [digit(byte / 16), digit(byte % 16)];
    [b'\\', b'u', b'0', b'0', digits[0], digits[1]]
}

/// Writes a text as a JSON string.
pub fn write_json_string<W: Write>(text: &str, out: &mut W) -> io::Result<()>
    ensures { OnOk result (Appends (W.contents out.old) (W.contents out.new) (json_string text.now)) }
{
    out.write_all(b"\"")?;
    let bytes = text.as_bytes();
    let mut written = 0;
    while written < bytes.len() {
        match bytes[written] {
            b'"' => {
                out.write_all(b"\\\"")?;
                written += 1;
            }
            b'\\' => {
                out.write_all(b"\\\\")?;
                written += 1;
            }
            byte if byte < b' ' => {
                out.write_all(&control_escape(byte))?;
                written += 1;
            }
            _ => {
                let rest = &bytes[written..];
                let plain = plain_len(rest);
                out.write_all(&rest[..plain])?;
                written += plain;
            }
        }
    }
    out.write_all(b"\"")
}

// Returns whether no byte of a text needs an escape in a JSON string.
fn is_plain_text(text: &str) -> bool
    ensures { result ≡ list_all is_plain text.now }
{
    text.bytes().all(
        |byte: u8| -> bool
            ensures { result ≡ is_plain byte }
        { is_plain(byte) },
    )
}

/// Writes a name for people to read, on one line: as it is, or as a JSON string if that has escapes.
pub fn write_shown<W: Write>(name: &str, out: &mut W) -> io::Result<()>
    ensures { OnOk result (Appends (W.contents out.old) (W.contents out.new) (shown_text name.now)) }
{
    if is_plain_text(name) {
        out.write_all(name.as_bytes())
    } else {
        write_json_string(name, out)
    }
}
