//! White space and comments.

ghost use Rattle.std.specs.Prelude.{◌≡◌, ◌≤◌, drop, length};
ghost use Rattle.rnix_kinds.specs.declared.kinds.SyntaxKind.TheVariants.{TOKEN_COMMENT};
ghost use Rattle.rnix_kinds.specs.declared.tokenizer.text.Class.TheVariants.{Line};
ghost use Rattle.rnix_kinds.specs.Lexical.Classes.{class_test};
ghost use Rattle.rnix_kinds.specs.Lexical.Texts.{before_pair, run_end};
ghost use Rattle.rnix_kinds.specs.Lexical.Plain.{plain, space, block_comment};

use super::long::{LongClass, wide_run_end};
use super::rule::{Cut, plain};
use super::text::{byte_of, space_len};
use crate::kinds::SyntaxKind;

/// Returns the token of white space.
pub fn space(text: &str) -> Option<Cut>
    ensures { result ≡ space text.now }
{
    let len = space_len(text);
    if len > 0 {
        Some(plain(SyntaxKind::TOKEN_WHITESPACE, len))
    } else {
        None
    }
}

// Returns the number of bytes before the first line feed; if there is none, of all bytes.
#[inline(never)]
fn line_len(text: &str) -> usize
    ensures { result ≡ run_end (class_test Line) 0 text.now }
{
    wide_run_end(text.as_bytes(), 0, LongClass::Line)
}

/// Returns a comment up to the end of its line.
#[inline(always)]
pub fn line_comment(text: &str) -> Cut
    ensures { result ≡ plain TOKEN_COMMENT (run_end (class_test Line) 0 text.now) }
{
    plain(SyntaxKind::TOKEN_COMMENT, line_len(text))
}

// Returns the number of bytes before the first `*/`; if there is none, of all bytes.
#[inline(never)]
fn comment_len(inside: &[u8]) -> usize
    ensures value { result ≡ before_pair 42 47 inside.now }
    ensures within { result ≤ length inside.now }
{
    let mut at = wide_run_end(inside, 0, LongClass::Comment);
    while at < inside.len() && byte_of(inside, at + 1) != b'/' {
        at = wide_run_end(inside, at + 1, LongClass::Comment);
    }
    at
}

/// Returns a comment through `*/`. Without a `*/` the rest of the text is an error.
#[inline(always)]
pub fn block_comment(text: &str) -> Cut
    requires { 2 ≤ length text.now }
    ensures { result ≡ block_comment (before_pair 42 47 (drop 2 text.now)) text.now }
{
    let inside = &text.as_bytes()[2..];
    let len = comment_len(inside);
    if len == inside.len() {
        plain(SyntaxKind::TOKEN_ERROR, text.len())
    } else {
        plain(SyntaxKind::TOKEN_COMMENT, len + 4)
    }
}
