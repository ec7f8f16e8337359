//! Words for tokens.

use rnix::{SyntaxKind, SyntaxToken};
use std::alloc::AllocError;

/// The length in bytes of the longest text that a message quotes.
pub const LONGEST: usize = 40;
// Shown in place of characters that a terminal would act on.
const REPLACEMENT: char = '\u{fffd}';

// Returns the word for a missing token.
fn word(kind: SyntaxKind) -> &'static str {
    match kind {
        SyntaxKind::TOKEN_R_PAREN => "\")\"",
        SyntaxKind::TOKEN_L_BRACE => "\"{\"",
        SyntaxKind::TOKEN_R_BRACE | SyntaxKind::TOKEN_INTERPOL_END => "\"}\"",
        SyntaxKind::TOKEN_SEMICOLON => "\";\"",
        SyntaxKind::TOKEN_ASSIGN => "\"=\"",
        SyntaxKind::TOKEN_COLON => "\":\"",
        SyntaxKind::TOKEN_THEN => "\"then\"",
        SyntaxKind::TOKEN_ELSE => "\"else\"",
        SyntaxKind::TOKEN_ELLIPSIS => "\"...\"",
        SyntaxKind::TOKEN_IDENT => "a name",
        _ => kind.name(),
    }
}

/// Adds the words for a list of expected kinds.
pub fn add_expected(expected: &[SyntaxKind], text: &mut String) -> Result<(), AllocError> {
    match expected.first() {
        // The kinds that start an expression.
        Some(SyntaxKind::TOKEN_L_PAREN) => return text.push_str("an expression"),
        // The kinds that are names of attributes.
        Some(SyntaxKind::TOKEN_IDENT) => return text.push_str("a name"),
        // The kinds that follow in a string.
        Some(SyntaxKind::TOKEN_STRING_END) => return text.push_str("the end of the string"),
        _ => {}
    }
    for (number, kind) in expected.iter().enumerate() {
        if number > 0 {
            let is_last = number == expected.len().saturating_sub(1);
            text.push_str(if is_last { " or " } else { ", " })?;
        }
        text.push_str(word(*kind))?;
    }
    Ok(())
}

// Returns the word for a kind whose tokens have different texts.
fn category(kind: SyntaxKind) -> Option<&'static str> {
    match kind {
        SyntaxKind::TOKEN_IDENT => Some("the name"),
        SyntaxKind::TOKEN_INTEGER | SyntaxKind::TOKEN_FLOAT => Some("the number"),
        SyntaxKind::TOKEN_PATH_ABS
        | SyntaxKind::TOKEN_PATH_HOME
        | SyntaxKind::TOKEN_PATH_REL
        | SyntaxKind::TOKEN_PATH_SEARCH => Some("the path"),
        SyntaxKind::TOKEN_URI => Some("the address"),
        SyntaxKind::TOKEN_ERROR => Some("the unknown text"),
        _ => None,
    }
}

// Returns a visible character for a control character and for one that changes the direction of text, and any other character itself.
fn shown(letter: char) -> char {
    match letter {
        '\0'..='\u{1f}' => char::from_u32(0x2400 | u32::from(letter)).unwrap_or(REPLACEMENT),
        '\u{7f}'..='\u{9f}' | '\u{200b}'..='\u{200f}' | '\u{202a}'..='\u{202e}' => REPLACEMENT,
        '\u{2060}'..='\u{2069}' | '\u{feff}' => REPLACEMENT,
        _ => letter,
    }
}

// Returns whether a text contains only spaces and visible ASCII characters.
fn is_plain(text: &str) -> bool {
    text.bytes().all(|byte| matches!(byte, b' '..=b'~'))
}

// Adds a text with every character visible and on one line.
fn add_shown(own: &str, text: &mut String) -> Result<(), AllocError> {
    if is_plain(own) {
        return text.push_str(own);
    }
    for letter in own.chars() {
        text.push(shown(letter))?;
    }
    Ok(())
}

/// Adds a text in quotes, or in backticks if it contains quotes.
pub fn add_quoted(own: &str, text: &mut String) -> Result<(), AllocError> {
    let quote = if own.contains('"') { '`' } else { '"' };
    text.push(quote)?;
    add_shown(own, text)?;
    text.push(quote)
}

/// Adds the words for the token that was found.
pub fn add_found(token: &SyntaxToken<'_>, text: &mut String) -> Result<(), AllocError> {
    let (category, own) = (category(token.kind()), token.text());
    let is_long = own.len() > LONGEST || own.contains('\n');
    match category {
        _ if token.kind() == SyntaxKind::TOKEN_STRING_START => return text.push_str("a string"),
        Some(category) if is_long => return text.push_str(category),
        None if is_long => return text.push_str(token.kind().name()),
        Some(category) => {
            text.push_str(category)?;
            text.push(' ')?;
        }
        None => {}
    }
    add_quoted(own, text)
}
