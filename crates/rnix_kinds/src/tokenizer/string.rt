//! The inside of a string.

ghost use Rattle.std.specs.Prelude.{◌≡◌, ◌≤◌, length};
ghost use Rattle.rnix_kinds.specs.Lexical.Strings.{piece_len, content_len, string_cut};

use super::long::{LongClass, long_run_end};
use super::rule::{Change, Cut, Mode, plain};
use super::text::{byte_at, byte_of};
use crate::kinds::SyntaxKind;

/// Returns the length of the first piece, which is 0 at the closing quote and at `${`.
fn piece_len(rest: &[u8], multiline: bool) -> usize
    ensures value { result ≡ piece_len multiline rest.now }
    ensures short { result ≤ 4 }
{
    let first = byte_of(rest, 0);
    let second = byte_of(rest, 1);
    if first == b'$' && second == b'{' {
        0
    } else if first == b'$' && second == b'$' {
        2
    } else if multiline {
        if first == b'\'' && second == b'\'' {
            match byte_of(rest, 2) {
                b'\'' | b'$' => 3,
                b'\\' => 4,
                _ => 0,
            }
        } else {
            1
        }
    } else if first == b'"' {
        0
    } else if first == b'\\' {
        2
    } else {
        1
    }
}

/// Returns the length of the pieces before the closing quote or `${`.
#[inline(never)]
fn content_len(bytes: &[u8], multiline: bool) -> usize
    ensures value { result ≡ content_len multiline bytes.now }
    ensures within { result ≤ length bytes.now }
{
    let mut at = long_run_end(bytes, 0, LongClass::Content);
    while at < bytes.len() {
        let len = piece_len(&bytes[at..], multiline);
        if len == 0 {
            return at;
        }
        if len > bytes.len() - at {
            return bytes.len();
        }
        at = long_run_end(bytes, at + len, LongClass::Content);
    }
    at
}

/// Returns the next token inside a string: its content, an interpolation, its end, or an error if the text ends first.
#[inline(always)]
pub fn string(text: &str, multiline: bool) -> Cut
    ensures { result ≡ string_cut multiline text.now }
{
    let len = content_len(text.as_bytes(), multiline);
    if len == text.len() {
        plain(SyntaxKind::TOKEN_ERROR, len)
    } else if len > 0 {
        plain(SyntaxKind::TOKEN_STRING_CONTENT, len)
    } else if byte_at(text, 0) == b'$' && byte_at(text, 1) == b'{' {
        Cut {
            kind: SyntaxKind::TOKEN_INTERPOL_START,
            len: 2,
            change: Change::Open(Mode::Interpolation(0)),
        }
    } else {
        Cut {
            kind: SyntaxKind::TOKEN_STRING_END,
            len: if multiline { 2 } else { 1 },
            change: Change::Close,
        }
    }
}
