//! The values of strings as Nix makes them.

ghost use Rattle.std.specs.Prelude.{◌≡◌, ◌<◌, ◌≤◌, ◌++◌, [], ◌∷◌, map, length, slice_index, not, ◌==◌, ◌&&◌, true, false, IfOk, OnOk, MatchOption, string_bytes};
ghost use Rattle.rnix_base.specs.Normal.{with_text, borrowed, owned, trimmed};
ghost use Rattle.rnix_base.specs.Indent.{indent_behind, indent_of, no_indent};
ghost use Rattle.rnix_base.specs.Value.{escape_len, without_escapes, IsLetter, last_byte, without_last_line, indented_value};
ghost use Rattle.rnix_base.specs.Value.{with_line_feeds, letter_with_line_feed, has_return, quoted_text, quoted_value};

use crate::escapes::unescape;
use crate::indent::{Indent, trimmed_len, unindented, without_last_spaces};
use crate::normalized_parts::opened;
use crate::parts::InterpolPart;
use std::alloc::{AllocError, Global};

// The byte that represents an escape, which counts as text when the indentation is measured.
const ESCAPE_MARK: u8 = b'\'';

// Returns the byte at an index, or 0 past the end.
fn byte_at(bytes: &[u8], index: usize) -> u8
    ensures byte { result ≡ slice_index bytes.now index }
    ensures within { 0 < result → index < length bytes.now }
{
    if index < bytes.len() { bytes[index] } else { 0 }
}

// Returns the length of the escape that the bytes of a text in `''` begin with; 0 if they begin with none.
fn escape_len(bytes: &[u8]) -> usize
    ensures len { result ≡ escape_len bytes.now }
    ensures within { result ≤ length bytes.now }
{
    if byte_at(bytes, 0) != b'\'' {
        return 0;
    }
    if byte_at(bytes, 1) != b'\'' {
        return 0;
    }
    match byte_at(bytes, 2) {
        b'\'' => 3,
        b'$' => 3,
        b'\\' if bytes.len() > 3 => 4,
        _ => 0,
    }
}

// Returns the first letter of the bytes of a text in `''`, a byte or the mark of an escape, and what follows it; `None` if there is none.
#[tactic(auto, using(crate::proofs::LetterLemmas::byte_letter, crate::proofs::LetterLemmas::escape_letter))]
fn next_letter(bytes: &[u8]) -> Option<(u8, &[u8])>
    ensures { MatchOption result (bytes.now ≡ []) (λ p. IsLetter bytes.now p.0 p.1.now) }
{
    let (first, more) = bytes.split_first()?;
    let len = escape_len(bytes);
    if len == 0 {
        return Some((*first, more));
    }
    let (_, rest) = bytes.split_at(len);
    Some((ESCAPE_MARK, rest))
}

// Returns the state of the indentation after the letters of a text in `''`.
fn behind_letters(indent: Indent, bytes: &[u8]) -> Indent
    ensures { result ≡ indent_behind indent (without_escapes bytes.now) }
{
    let mut indent = indent;
    let mut rest = bytes;
    while let Some((letter, more)) = next_letter(rest) {
        indent = indent.after(Some(letter));
        rest = more;
    }
    indent
}

// Returns the last letter of a text in `''`; 0 if there is none.
fn last_letter(bytes: &[u8]) -> u8
    ensures { result ≡ last_byte (without_escapes bytes.now) }
{
    let mut last = 0;
    let mut rest = bytes;
    while let Some((letter, more)) = next_letter(rest) {
        last = letter;
        rest = more;
    }
    last
}

// Returns the smallest indentation of a line that has text, where an escape is text and ends no line.
fn value_indentation<I>(parts: &[InterpolPart<&str, I>]) -> usize
    ensures { result ≡ (indent_of no_indent (map (with_text without_escapes) (borrowed parts.now))).least }
{
    let mut indent = Indent::before();
    for part in parts {
        indent = match part {
            InterpolPart::Literal(text) => behind_letters(indent, text.as_bytes()),
            InterpolPart::Interpolation(_) => indent.after(None),
        };
    }
    indent.least()
}

// Returns the text without the spaces after its last line feed, if nothing else follows it and it is not escaped.
fn without_last_line(text: &str) -> &str
    ensures { result.now ≡ without_last_line text.now }
{
    let bytes = text.as_bytes();
    let end = trimmed_len(bytes);
    if last_letter(&bytes[..end]) == b'\n' {
        without_last_spaces(text)
    } else {
        text
    }
}

/// Returns the parts of the value of a string in `''`: lines lose their indentation after the escapes are replaced, and an escape is text where the
/// indentation is counted.
pub fn indented_value<'t, I: Drop>(
    alloc: Global,
    parts: Vec<InterpolPart<&'t str, I>>,
) -> Result<Vec<InterpolPart<String, I>>, AllocError>
    ensures { IfOk result (λ value. owned value.items ≡ indented_value (borrowed parts.entry.items)) }
{
    let parts = opened(parts);
    let least = value_indentation(&parts);
    let mut remaining = least;
    let mut rest = parts.into_iter();
    let mut value = Vec::new(alloc);
    while let Some(part) = rest.next() {
        match part {
            InterpolPart::Literal(text) => {
                let text = if rest.len() == 0 {
                    without_last_line(text)
                } else {
                    text
                };
                let unescaped = unescape(alloc, text, true)?;
                let (kept, after) = unindented(alloc, unescaped.as_str(), least, remaining)?;
                remaining = after;
                value.push(InterpolPart::Literal(kept))?;
            }
            InterpolPart::Interpolation(interpolation) => {
                remaining = 0;
                value.push(InterpolPart::Interpolation(interpolation))?;
            }
        }
    }
    Ok(value)
}

// Appends a character that `rest` follows. An unescaped carriage return becomes a line feed, or is left out if a line feed follows.
fn push_with_line_feed(
    made: &mut String,
    letter: char,
    rest: &str,
    is_escaped: bool,
) -> Result<(), AllocError>
    ensures { OnOk result (string_bytes made.new ≡ string_bytes made.old ++ letter_with_line_feed letter rest.now is_escaped) }
{
    if letter != '\r' || is_escaped {
        made.push(letter)?;
    } else if !rest.starts_with('\n') {
        made.push('\n')?;
    }
    Ok(())
}

// Returns whether a character escapes the next one.
fn is_escape(letter: char, is_escaped: bool) -> bool
    ensures { result ≡ (letter == 92 && not is_escaped) }
{
    letter == '\\' && !is_escaped
}

// Returns a text between `"` in which each carriage return, with a line feed after it or without one, becomes one line feed, unless it is escaped.
fn with_line_feeds(alloc: Global, text: &str) -> Result<String, AllocError>
    ensures { IfOk result (λ made. string_bytes made ≡ with_line_feeds false text.now) }
{
    let mut made = String::new(alloc);
    let mut is_escaped = false;
    let mut letters = text.chars();
    while let Some(letter) = letters.next() {
        push_with_line_feed(&mut made, letter, letters.as_str(), is_escaped)?;
        is_escaped = is_escape(letter, is_escaped);
    }
    Ok(made)
}

// Returns whether a text has a carriage return.
fn has_return(text: &str) -> bool
    ensures { result ≡ has_return text.now }
{
    text.as_bytes().contains(&b'\r')
}

// Returns the value of a text between `"`.
fn quoted_text(alloc: Global, text: &str) -> Result<String, AllocError>
    ensures { IfOk result (λ value. string_bytes value ≡ quoted_text text.now) }
{
    if has_return(text) {
        let text = with_line_feeds(alloc, text)?;
        unescape(alloc, text.as_str(), false)
    } else {
        unescape(alloc, text, false)
    }
}

/// Returns the parts of the value of a string in `"`: escapes are replaced, and carriage returns that are not escaped become line feeds.
pub fn quoted_value<'t, I: Drop>(
    alloc: Global,
    parts: Vec<InterpolPart<&'t str, I>>,
) -> Result<Vec<InterpolPart<String, I>>, AllocError>
    ensures { IfOk result (λ value. owned value.items ≡ quoted_value (borrowed parts.entry.items)) }
{
    let mut rest = parts.into_iter();
    let mut value = Vec::new(alloc);
    while let Some(part) = rest.next() {
        match part {
            InterpolPart::Literal(text) => {
                value.push(InterpolPart::Literal(quoted_text(alloc, text)?))?;
            }
            InterpolPart::Interpolation(interpolation) => {
                value.push(InterpolPart::Interpolation(interpolation))?;
            }
        }
    }
    Ok(value)
}
