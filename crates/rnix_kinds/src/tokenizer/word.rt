//! Names, keywords and URIs.

ghost use Rattle.std.specs.Prelude.{◌≡◌, Some, true, slice_index};
ghost use Rattle.std.specs.List.{prefix_len};
ghost use Rattle.rnix_kinds.specs.Lexical.Plain.{uri, word, begins_word, kind_of_word};
ghost use Rattle.rnix_kinds.specs.Lexical.Texts.{run_end};
ghost use Rattle.rnix_kinds.specs.Lexical.Classes.{class_test};

use super::rule::{Cut, plain};
use super::text::{Class, byte_at, is_in, run_end};
use crate::kinds::SyntaxKind;

/// Returns a URI; `scheme` is the run of the bytes that its scheme may have.
#[inline(always)]
pub fn uri(text: &str, scheme: usize) -> Option<Cut>
    requires { scheme ≡ prefix_len (class_test Class.Scheme) text.now }
    ensures { result ≡ uri text.now }
{
    if byte_at(text, 0).is_ascii_alphabetic()
        && byte_at(text, scheme) == b':'
        && is_in(Class::Uri, byte_at(text, scheme + 1))
    {
        Some(plain(SyntaxKind::TOKEN_URI, run_end(text, 0, Class::Uri)))
    } else {
        None
    }
}

// The kind of a keyword, or of a name. Most names differ from each keyword in their length or their first byte.
#[inline(always)]
fn kind_of_word(word: &str) -> SyntaxKind
    ensures { result ≡ kind_of_word word.now }
{
    match (word.len(), byte_at(word, 0)) {
        (2, b'i') => match word {
            "if" => SyntaxKind::TOKEN_IF,
            "in" => SyntaxKind::TOKEN_IN,
            _ => SyntaxKind::TOKEN_IDENT,
        },
        (2, b'o') if word == "or" => SyntaxKind::TOKEN_OR,
        (3, b'l') if word == "let" => SyntaxKind::TOKEN_LET,
        (3, b'r') if word == "rec" => SyntaxKind::TOKEN_REC,
        (4, b'e') if word == "else" => SyntaxKind::TOKEN_ELSE,
        (4, b't') if word == "then" => SyntaxKind::TOKEN_THEN,
        (4, b'w') if word == "with" => SyntaxKind::TOKEN_WITH,
        (6, b'a') if word == "assert" => SyntaxKind::TOKEN_ASSERT,
        (7, b'i') if word == "inherit" => SyntaxKind::TOKEN_INHERIT,
        _ => SyntaxKind::TOKEN_IDENT,
    }
}

/// Returns a keyword or a name; `end` is where it ends.
#[inline(always)]
pub fn word(text: &str, end: usize) -> Cut
    requires first { begins_word (slice_index text.now 0) ≡ true }
    requires end { end ≡ run_end (class_test Class.Name) 0 text.now }
    ensures { Some result ≡ word text.now }
{
    plain(kind_of_word(&text[..end]), end)
}
