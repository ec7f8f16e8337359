//! A `"` that seems to end a string in `''`.

use crate::near::indentation;

// Returns whether a line with this indentation is a `"` and the end of an entry.
fn is_closing(line: &str, indent: usize) -> bool {
    matches!(line.trim(), "\";" | "\");" | "\"];") && indentation(line) == indent
}

// Returns whether a text contains an odd number of `"`.
fn has_odd_quotes(text: &str) -> bool {
    let mut is_odd = false;
    for byte in text.bytes() {
        if byte == b'"' {
            is_odd = !is_odd;
        }
    }
    is_odd
}

/// Returns the offset, in the content of a string in `''`, of the first `"` that seems to end the string: with the end of an entry it is alone on a line that
/// is indented like the one where the string begins, and all `"` before it are in pairs. Also returns whether the number of `"` is odd up to the end of the
/// content, given whether it was before the content.
pub fn closing_quote(content: &str, indent: usize, was_odd: bool) -> (Option<usize>, bool) {
    let (mut start, mut quote, mut is_odd) = (0usize, None, was_odd);
    for (number, line) in content.split_inclusive('\n').enumerate() {
        if number > 0 && !is_odd && quote.is_none() && is_closing(line, indent) {
            quote = Some(start.saturating_add(indent));
        }
        is_odd = is_odd != has_odd_quotes(line);
        start = start.saturating_add(line.len());
    }
    (quote, is_odd)
}
