//! Operators and brackets.

ghost use Rattle.std.specs.Prelude.{◌≡◌};
ghost use Rattle.rnix_kinds.specs.Lexical.Operators.{ellipsis, opener, opening_brace, closing_brace, operator, HasRoom};

use super::rule::{Change, Cut, Mode, plain};
use super::text::byte_at;
use crate::kinds::SyntaxKind;

/// Returns the token of three dots.
pub fn ellipsis(text: &str) -> Option<Cut>
    ensures { result ≡ ellipsis text.now }
{
    if byte_at(text, 0) == b'.' && byte_at(text, 1) == b'.' && byte_at(text, 2) == b'.' {
        Some(plain(SyntaxKind::TOKEN_ELLIPSIS, 3))
    } else {
        None
    }
}

/// Returns the token that opens a string or an interpolation.
#[inline(always)]
pub fn opener(text: &str) -> Option<Cut>
    ensures { result ≡ opener text.now }
{
    let kind = SyntaxKind::TOKEN_STRING_START;
    match (byte_at(text, 0), byte_at(text, 1)) {
        (b'$', b'{') => Some(Cut {
            kind: SyntaxKind::TOKEN_INTERPOL_START,
            len: 2,
            change: Change::Open(Mode::Interpolation(0)),
        }),
        (b'\'', b'\'') => Some(Cut {
            kind,
            len: 2,
            change: Change::Open(Mode::Quoted(true)),
        }),
        (b'"', _) => Some(Cut {
            kind,
            len: 1,
            change: Change::Open(Mode::Quoted(false)),
        }),
        _ => None,
    }
}

/// Returns the token `{`. An interpolation counts it.
#[inline(always)]
pub fn opening_brace(top: Option<Mode>) -> Cut
    requires { HasRoom top }
    ensures { result ≡ opening_brace top }
{
    match top {
        Some(Mode::Interpolation(braces)) => Cut {
            kind: SyntaxKind::TOKEN_L_BRACE,
            len: 1,
            change: Change::Count(braces + 1),
        },
        _ => plain(SyntaxKind::TOKEN_L_BRACE, 1),
    }
}

/// Returns the token `}`. An interpolation ends at an unmatched one.
#[inline(always)]
pub fn closing_brace(top: Option<Mode>) -> Cut
    ensures { result ≡ closing_brace top }
{
    match top {
        Some(Mode::Interpolation(0)) => Cut {
            kind: SyntaxKind::TOKEN_INTERPOL_END,
            len: 1,
            change: Change::Close,
        },
        Some(Mode::Interpolation(braces)) => Cut {
            kind: SyntaxKind::TOKEN_R_BRACE,
            len: 1,
            change: Change::Count(braces - 1),
        },
        _ => plain(SyntaxKind::TOKEN_R_BRACE, 1),
    }
}

/// Returns the token of the longest operator or bracket that matches.
#[inline(always)]
pub fn operator(text: &str) -> Option<Cut>
    ensures { result ≡ operator text.now }
{
    let (kind, len) = match (byte_at(text, 0), byte_at(text, 1)) {
        (b'=', b'=') => (SyntaxKind::TOKEN_EQUAL, 2),
        (b'!', b'=') => (SyntaxKind::TOKEN_NOT_EQUAL, 2),
        (b'+', b'+') => (SyntaxKind::TOKEN_CONCAT, 2),
        (b'-', b'>') => (SyntaxKind::TOKEN_IMPLICATION, 2),
        (b'<', b'|') => (SyntaxKind::TOKEN_PIPE_LEFT, 2),
        (b'|', b'>') => (SyntaxKind::TOKEN_PIPE_RIGHT, 2),
        (b'|', b'|') => (SyntaxKind::TOKEN_OR_OR, 2),
        (b'&', b'&') => (SyntaxKind::TOKEN_AND_AND, 2),
        (b'<', b'=') => (SyntaxKind::TOKEN_LESS_OR_EQ, 2),
        (b'>', b'=') => (SyntaxKind::TOKEN_MORE_OR_EQ, 2),
        (b'=', _) => (SyntaxKind::TOKEN_ASSIGN, 1),
        (b'!', _) => (SyntaxKind::TOKEN_INVERT, 1),
        (b'[', _) => (SyntaxKind::TOKEN_L_BRACK, 1),
        (b']', _) => (SyntaxKind::TOKEN_R_BRACK, 1),
        (b'(', _) => (SyntaxKind::TOKEN_L_PAREN, 1),
        (b')', _) => (SyntaxKind::TOKEN_R_PAREN, 1),
        (b'@', _) => (SyntaxKind::TOKEN_AT, 1),
        (b':', _) => (SyntaxKind::TOKEN_COLON, 1),
        (b',', _) => (SyntaxKind::TOKEN_COMMA, 1),
        (b'.', _) => (SyntaxKind::TOKEN_DOT, 1),
        (b'?', _) => (SyntaxKind::TOKEN_QUESTION, 1),
        (b';', _) => (SyntaxKind::TOKEN_SEMICOLON, 1),
        (b'+', _) => (SyntaxKind::TOKEN_ADD, 1),
        (b'-', _) => (SyntaxKind::TOKEN_SUB, 1),
        (b'*', _) => (SyntaxKind::TOKEN_MUL, 1),
        (b'<', _) => (SyntaxKind::TOKEN_LESS, 1),
        (b'>', _) => (SyntaxKind::TOKEN_MORE, 1),
        _ => return None,
    };
    Some(plain(kind, len))
}
