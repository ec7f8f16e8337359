//! Names, with quotes where Nix needs them.

use rnix_base::push_quoted;
use std::alloc::AllocError;

// The keywords.
const KEYWORDS: [&str; 10] = [
    "assert", "else", "if", "in", "inherit", "let", "or", "rec", "then", "with",
];

// Returns whether an identifier may contain a byte after its first one.
fn is_in_name(byte: u8) -> bool {
    byte.is_ascii_alphanumeric() || matches!(byte, b'_' | b'-' | b'\'')
}

// Returns whether a text is a keyword.
fn is_keyword(text: &str) -> bool {
    for keyword in &KEYWORDS {
        if *keyword == text {
            return true;
        }
    }
    text == "__curPos"
}

/// Returns whether a name needs no quotes.
pub fn is_plain(name: &str) -> bool {
    match name.bytes().next() {
        Some(first) if first.is_ascii_alphabetic() || first == b'_' => {
            name.bytes().all(|byte| is_in_name(byte)) && !is_keyword(name)
        }
        _ => false,
    }
}

/// Writes a name.
pub fn push_name(name: &str, text: &mut String) -> Result<(), AllocError> {
    if is_plain(name) {
        text.push_str(name)
    } else {
        push_quoted(name, text)
    }
}
