//! What is written as in other languages: JSON, and words without quotes.

use crate::unexpected::UnexpectedToken;
use SyntaxKind::*;
use rnix::{SyntaxKind, SyntaxToken};

// The number of tokens after a `:` that are searched for what ends its value.
const MAX_TOKENS: usize = 64;

/// Returns whether an unexpected token is the `:` after a name in quotes, in what looks like JSON: `,` or `}` ends its value, or another such name follows.
pub fn is_of_json(unexpected: &UnexpectedToken<'_>) -> bool {
    if unexpected.kind_before() != Some(TOKEN_STRING_END) {
        return false;
    }
    let mut token = unexpected.token.clone();
    for _step in 0..MAX_TOKENS {
        let Some(next) = token.next_token() else {
            return false;
        };
        match next.kind() {
            TOKEN_ASSIGN | TOKEN_SEMICOLON => return false,
            TOKEN_COMMA | TOKEN_R_BRACE => return true,
            TOKEN_COLON if token.kind() == TOKEN_STRING_END => return true,
            _ => {}
        }
        token = next;
    }
    false
}

// Returns whether a token of the kind may begin what follows the `@` of an address.
fn is_of_address(kind: SyntaxKind) -> bool {
    matches!(
        kind,
        TOKEN_IDENT | TOKEN_INTEGER | TOKEN_FLOAT | TOKEN_PATH_REL | TOKEN_URI
    )
}

// Returns the `@` that an unexpected token is, outside a pattern, or that it follows at once.
fn at_sign<'t>(unexpected: &UnexpectedToken<'t>) -> Option<SyntaxToken<'t>> {
    if unexpected.expected == Some(TOKEN_L_BRACE) {
        return unexpected.token.prev_token();
    }
    if unexpected.is_in_pattern {
        return None;
    }
    Some(unexpected.token.clone())
}

/// Returns the `@` inside a word, such as an e-mail address, that an unexpected token is or follows.
pub fn address_sign<'t>(unexpected: &UnexpectedToken<'t>) -> Option<SyntaxToken<'t>> {
    let sign = at_sign(unexpected).filter(|token| token.kind() == TOKEN_AT)?;
    let (before, after) = (sign.prev_token()?, sign.next_token()?);
    // A `:` shows that the name after the `@` is meant as a pattern.
    let is_function = after
        .next_token()
        .is_some_and(|token| token.kind() == TOKEN_COLON);
    let is_word = before.kind() == TOKEN_IDENT && is_of_address(after.kind()) && !is_function;
    is_word.then_some(sign)
}
