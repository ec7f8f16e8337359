//! Tokens that Nix reads differently.

ghost use Rattle.std.specs.Prelude.{◌≡◌, ◌==◌, not, false, is_some, slice_index};
ghost use Rattle.std.specs.List.{list_all, list_any};
ghost use Rattle.rnix_green.specs.Tree.{item_of, text_at};
ghost use Rattle.nix_data.specs.Misread.{is_blank, has_text_after_return, ends_early, lacks_digit, is_misread, is_quoted, is_altered};

use crate::no_data::{NoData, Reason};
use rnix::{SyntaxKind, SyntaxToken, TextRange};

// Returns whether a byte is white space for Nix.
fn is_blank(byte: u8) -> bool
    ensures { result ≡ is_blank byte }
{
    byte == b' ' || byte == b'\n' || byte == b'\t' || byte == b'\r'
}

// Returns the index of the first byte that is not white space for Nix.
fn foreign(text: &[u8]) -> Option<usize>
    ensures { is_some result ≡ not (list_all is_blank text.now) }
{
    for index in 0..text.len() {
        if !is_blank(text[index]) {
            return Some(index);
        }
    }
    None
}

// Returns the index of the first carriage return, if something other than white space follows it.
fn early_return(text: &[u8]) -> Option<usize>
    ensures { is_some result ≡ has_text_after_return false text.now }
{
    let mut found: Option<usize> = None;
    for index in 0..text.len() {
        let byte = text[index];
        if found.is_some() && !is_blank(byte) {
            return found;
        }
        if found.is_none() && byte == b'\r' {
            found = Some(index);
        }
    }
    None
}

// Returns the byte at an index, or 0 if there is none.
fn byte_at(text: &[u8], index: usize) -> u8
    ensures { result ≡ slice_index text.now index }
{
    match text.get(index) {
        Some(byte) => *byte,
        None => 0,
    }
}

// Returns the index of the carriage return at which a `#` comment ends for Nix, if the comment continues after it.
fn early_end(text: &[u8]) -> Option<usize>
    ensures { is_some result ≡ ends_early text.now }
{
    if byte_at(text, 0) == b'#' {
        early_return(text)
    } else {
        None
    }
}

// Returns whether a float begins with `0.` and has no digit after it.
fn lacks_digit(text: &[u8]) -> bool
    ensures { result ≡ lacks_digit text.now }
{
    byte_at(text, 0) == b'0' && byte_at(text, 1) == b'.' && !byte_at(text, 2).is_ascii_digit()
}

// Returns whether a text contains a byte.
fn has_byte(text: &[u8], wanted: u8) -> bool
    ensures { result ≡ list_any (λ b. b == wanted) text.now }
{
    text.iter().any(|byte| *byte == wanted)
}

/// Returns whether a string with this source is in `"`, not in `''`.
pub fn is_quoted(source: &str) -> bool
    ensures { result ≡ is_quoted source.now }
{
    byte_at(source.as_bytes(), 0) == b'"'
}

/// Returns whether Nix changes a string with this source: it contains the character 0, or it is in `"` and contains a carriage return.
pub fn is_altered(source: &str) -> bool
    ensures { result ≡ is_altered source.now }
{
    let bytes = source.as_bytes();
    has_byte(bytes, 0) || (is_quoted(source) && has_byte(bytes, b'\r'))
}

// Returns the index of the byte from which Nix reads a token differently, if it does.
fn misread_from(kind: SyntaxKind, text: &[u8]) -> Option<usize>
    ensures { is_some result ≡ is_misread kind text.now }
{
    match kind {
        SyntaxKind::TOKEN_WHITESPACE => foreign(text),
        SyntaxKind::TOKEN_COMMENT => early_end(text),
        SyntaxKind::TOKEN_FLOAT if lacks_digit(text) => Some(0),
        _ => None,
    }
}

// Returns why Nix reads a token of a kind differently, and how many bytes of the text to show.
fn reason_for(kind: SyntaxKind, text: &str) -> (Reason, usize) {
    let first = text.chars().next().map_or(0, |letter| letter.len_utf8());
    match kind {
        SyntaxKind::TOKEN_WHITESPACE => (Reason::ForeignSpace, first),
        SyntaxKind::TOKEN_COMMENT => (Reason::EarlyEnd, first),
        _ => (Reason::LacksDigit, text.len()),
    }
}

// Returns why Nix reads a token of a kind differently, and where, if it does.
fn misread_as(kind: SyntaxKind, token: &SyntaxToken<'_>) -> Option<NoData>
    ensures { is_some result ≡ is_misread kind (text_at token.now) }
{
    let text = token.text();
    let from = misread_from(kind, text.as_bytes())?;
    let (reason, len) = reason_for(kind, text.get(from..).unwrap_or(""));
    let start = token.text_range().start().saturating_add(from);
    Some(NoData {
        reason,
        range: TextRange::new(start, start.saturating_add(len)),
        first: None,
    })
}

/// Returns why Nix reads a token differently, and where, if it does.
pub fn misread(token: &SyntaxToken<'_>) -> Option<NoData>
    ensures { is_some result ≡ is_misread (item_of token.now).kind (text_at token.now) }
{
    // Most tokens have another kind, and no text is computed for them.
    let kind = token.kind();
    match kind {
        SyntaxKind::TOKEN_WHITESPACE | SyntaxKind::TOKEN_COMMENT | SyntaxKind::TOKEN_FLOAT => {
            misread_as(kind, token)
        }
        _ => None,
    }
}
