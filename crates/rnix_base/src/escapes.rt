//! Escapes in strings.

ghost use Rattle.std.specs.Prelude.{◌≡◌, [], IfOk, MatchOption, string_bytes, true, false};
ghost use Rattle.std.specs.List.{prefix_len};
ghost use Rattle.rnix_base.specs.Escapes.{unescaped, first_piece, itself, is_plain, Begins, Escapes, IsFirstChar};

use std::alloc::{AllocError, Global};

// Returns the first character, and the rest.
fn first_char(text: &str) -> Option<(&str, &str)>
    ensures { MatchOption result (text.now ≡ []) (λ p. IsFirstChar text.now p.0.now p.1.now) }
{
    let mut chars = text.chars();
    let c = chars.next()?;
    Some(text.split_at(c.len_utf8()))
}

// Returns the value of the first character after a backslash, and the rest.
fn escape(text: &str) -> Option<(&str, &str)>
    ensures { MatchOption result (text.now ≡ []) (λ p. Escapes text.now p.0.now p.1.now) }
{
    let (c, rest) = first_char(text)?;
    let value = match c {
        "n" => "\n",
        "r" => "\r",
        "t" => "\t",
        _ => c,
    };
    Some((value, rest))
}

// Returns whether a byte can begin neither an escape nor a quote.
fn is_plain(byte: u8, multiline: bool) -> bool
    ensures { result ≡ is_plain multiline byte }
{
    if multiline {
        byte != b'\''
    } else {
        byte != b'"' && byte != b'\\'
    }
}

// Returns the number of plain bytes at the start.
fn plain_len(bytes: &[u8], multiline: bool) -> usize
    ensures { result ≡ prefix_len (is_plain multiline) bytes.now }
{
    bytes
        .iter()
        .take_while(|b| is_plain(**b, multiline))
        .count()
}

// Splits a text after its first byte, which needs no replacement, and the plain bytes that follow it. Returns `None` if the text is empty.
fn plain_run(text: &str, multiline: bool) -> Option<(&str, &str)>
    requires { first_piece multiline text.now ≡ itself text.now }
    ensures { MatchOption result (unescaped multiline text.now ≡ []) (λ p. Begins multiline text.now p.0.now p.1.now) }
{
    let (_, more) = text.as_bytes().split_first()?;
    let len = plain_len(more, multiline);
    Some(text.split_at(1 + len))
}

// Returns the value of the first piece of a text between `"`, and the rest; `None` if there is no piece. A piece is an escape, or the bytes before the next.
fn quoted_piece(text: &str) -> Option<(&str, &str)>
    ensures { MatchOption result (unescaped false text.now ≡ []) (λ p. Begins false text.now p.0.now p.1.now) }
{
    if let Some(rest) = text.strip_prefix("\\") {
        return escape(rest);
    }
    if text.starts_with("\"") {
        return None;
    }
    plain_run(text, false)
}

// Returns the value of the first piece of a text between `''`, and the rest; `None` if there is no piece. A piece is an escape, or the bytes up to a `'`.
fn indented_piece(text: &str) -> Option<(&str, &str)>
    ensures { MatchOption result (unescaped true text.now ≡ []) (λ p. Begins true text.now p.0.now p.1.now) }
{
    if let Some(rest) = text.strip_prefix("'''") {
        return Some(("''", rest));
    }
    if let Some(rest) = text.strip_prefix("''$") {
        return Some(("$", rest));
    }
    if let Some(rest) = text.strip_prefix("''\\") {
        return escape(rest);
    }
    if text.starts_with("''") {
        return None;
    }
    plain_run(text, true)
}

// Returns the value of the first piece, an escape or a run of plain bytes, and the rest; `None` if there is no piece.
fn first_piece(text: &str, multiline: bool) -> Option<(&str, &str)>
    ensures { MatchOption result (unescaped multiline text.now ≡ []) (λ p. Begins multiline text.now p.0.now p.1.now) }
{
    if multiline {
        indented_piece(text)
    } else {
        quoted_piece(text)
    }
}

/// Returns a text inside a string with its escapes replaced: in `''` if `multiline`, else in `"`.
pub fn unescape(alloc: Global, text: &str, multiline: bool) -> Result<String, AllocError>
    ensures { IfOk result (λ value. string_bytes value ≡ unescaped multiline text.now) }
{
    let mut value = String::new(alloc);
    let mut rest = text;
    while let Some((piece, more)) = first_piece(rest, multiline) {
        value.push_str(piece)?;
        rest = more;
    }
    Ok(value)
}
