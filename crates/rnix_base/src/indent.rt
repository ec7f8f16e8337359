//! The indentation of a string.

ghost use Rattle.std.specs.Prelude.{◌≡◌, ◌<◌, ◌≤◌, ◌+◌, length, drop, IfOk, MatchOption, string_bytes, false};
ghost use Rattle.std.specs.List.{prefix_len, suffix_len};
ghost use Rattle.rnix_base.specs.Normal.{is_space, spaces, opens_blank, without_last_spaces, IsBehindBlank, borrowed};
ghost use Rattle.rnix_base.specs.Indent.{indent_after, indent_behind, indent_of, no_indent, kept, remaining_behind, is_inside_line, KeepsLine};

use crate::parts::InterpolPart;
use std::alloc::{AllocError, Global};

// The largest indentation that is removed from lines.
const LIMIT: usize = 1_000_000;

/// What is known of the lines so far.
#[derive(Clone, Copy)]
pub(crate) struct Indent {
    // The smallest indentation.
    least: usize,
    // The number of spaces at the start of the current line, while it has nothing else.
    spaces: Option<usize>,
}

impl Indent {
    // Returns the state before the first symbol.
    pub(crate) fn before() -> Indent
        ensures { result ≡ no_indent }
    {
        Indent {
            least: LIMIT,
            spaces: Some(0),
        }
    }

    // Returns the smallest indentation.
    pub(crate) fn least(self) -> usize
        ensures { result ≡ self.least }
    {
        self.least
    }

    // Returns the state after one more symbol: a byte, or an interpolation.
    pub(crate) fn after(self, symbol: Option<u8>) -> Indent
        ensures { result ≡ indent_after self symbol }
    {
        match (symbol, self.spaces) {
            (Some(b'\n'), _) => Indent {
                least: self.least,
                spaces: Some(0),
            },
            (Some(b' '), Some(spaces)) => Indent {
                least: self.least,
                spaces: Some(if spaces < LIMIT { spaces + 1 } else { spaces }),
            },
            (_, Some(spaces)) => Indent {
                least: self.least.min(spaces),
                spaces: None,
            },
            (_, None) => self,
        }
    }

    // Returns the state after the bytes of a text. What follows on a line that has text changes nothing.
    fn behind(self, bytes: &[u8]) -> Indent
        ensures { result ≡ indent_behind self bytes.now }
    {
        let mut indent = self;
        let mut rest = bytes;
        while let Some((first, more)) = rest.split_first() {
            indent = indent.after(Some(*first));
            rest = match indent.spaces {
                Some(_) => more,
                None => line_end(more),
            };
        }
        indent
    }
}

// Returns the length of the first line without its line feed.
fn line_len(bytes: &[u8]) -> usize
    ensures { result ≡ prefix_len is_inside_line bytes.now }
{
    bytes.iter().take_while(|b| **b != b'\n').count()
}

/// Returns the smallest indentation of a line that has text.
pub(crate) fn least_indentation<I>(parts: &[InterpolPart<&str, I>]) -> usize
    ensures { result ≡ (indent_of no_indent (borrowed parts.now)).least }
{
    let mut indent = Indent::before();
    for part in parts {
        indent = match part {
            InterpolPart::Literal(text) => indent.behind(text.as_bytes()),
            InterpolPart::Interpolation(_) => indent.after(None),
        };
    }
    indent.least()
}

// Returns the number of spaces that the bytes begin with.
fn spaces_before(bytes: &[u8]) -> usize
    ensures { result ≡ spaces bytes.now }
{
    bytes.iter().take_while(|b| **b == b' ').count()
}

// Returns what follows the first line, from its line feed on.
fn line_end(bytes: &[u8]) -> &[u8]
    ensures { result.now ≡ drop (prefix_len is_inside_line bytes.now) bytes.now }
{
    let (_, rest) = bytes.split_at(line_len(bytes));
    rest
}

// Removes up to `remaining` spaces from the start of the first line. Returns the line, what follows it, and how many spaces are still to be removed there.
fn first_line(text: &str, least: usize, remaining: usize) -> (&str, &str, usize)
    requires { 0 < length text.now }
    ensures { KeepsLine least remaining text.now result.0.now result.1.now result.2 }
{
    let bytes = text.as_bytes();
    let lost = spaces_before(bytes).min(remaining);
    let (_, kept) = text.split_at(lost);
    let len = line_len(kept.as_bytes());
    if len < kept.len() {
        let (line, rest) = kept.split_at(len + 1);
        (line, rest, least)
    } else if len > 0 {
        (kept, "", 0)
    } else {
        ("", "", remaining - lost)
    }
}

/// Removes up to `remaining` spaces from the start of the first line of a text and up to `least` from each other line. Returns the new text, and how many
/// spaces are still to be removed from its last line.
pub(crate) fn unindented(
    alloc: Global,
    text: &str,
    least: usize,
    remaining: usize,
) -> Result<(String, usize), AllocError>
    ensures kept { IfOk result (λ r. string_bytes r.0 ≡ kept least remaining text.now) }
    ensures remaining { IfOk result (λ r. r.1 ≡ remaining_behind least remaining text.now) }
{
    let mut kept = String::new(alloc);
    let mut remaining = remaining;
    let mut rest = text;
    while !rest.is_empty() {
        let (line, behind, next) = first_line(rest, least, remaining);
        kept.push_str(line)?;
        remaining = next;
        rest = behind;
    }
    Ok((kept, remaining))
}

/// Returns the text after the first line feed, if only spaces precede it.
pub(crate) fn behind_blank(text: &str) -> Option<&str>
    ensures { MatchOption result (opens_blank text.now ≡ false) (λ rest. IsBehindBlank text.now rest.now) }
{
    let bytes = text.as_bytes();
    let spaces = spaces_before(bytes);
    if spaces < bytes.len() && bytes[spaces] == b'\n' {
        Some(&text[spaces + 1..])
    } else {
        None
    }
}

/// Returns the length of the bytes without the spaces at their end.
pub(crate) fn trimmed_len(bytes: &[u8]) -> usize
    ensures value { result + suffix_len is_space bytes.now ≡ length bytes.now }
    ensures within { result ≤ length bytes.now }
{
    let mut end = bytes.len();
    while end > 0 && bytes[end - 1] == b' ' {
        end -= 1;
    }
    end
}

/// Returns the text without the spaces after its last line feed, if nothing else follows it.
pub(crate) fn without_last_spaces(text: &str) -> &str
    ensures { result.now ≡ without_last_spaces text.now }
{
    let bytes = text.as_bytes();
    let end = trimmed_len(bytes);
    if end > 0 && bytes[end - 1] == b'\n' {
        &text[..end]
    } else {
        text
    }
}
