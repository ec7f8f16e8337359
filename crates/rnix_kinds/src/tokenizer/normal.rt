//! The rules, by the first byte.

ghost use Rattle.std.specs.Prelude.{◌≡◌, ◌<◌, ◌∷◌, [], true, length, slice_index};
ghost use Rattle.rnix_kinds.specs.Lexical.Ahead.{IsAhead};
ghost use Rattle.rnix_kinds.specs.Lexical.Operators.{HasRoom, ellipsis, opener, operator};
ghost use Rattle.rnix_kinds.specs.Lexical.Paths.{relative, search_path};
ghost use Rattle.rnix_kinds.specs.Lexical.Plain.{space, uri, word, begins_word, goes_past_name};
ghost use Rattle.rnix_kinds.specs.Lexical.Numbers.{number};
ghost use Rattle.rnix_kinds.specs.Lexical.Tokens.{first_that_fits, one_error, normal_cut};

use super::ahead::{Ahead, looked};
use super::number::number;
use super::operator::{closing_brace, ellipsis, opener, opening_brace, operator};
use super::path::{home, relative, search_path, slash};
use super::rule::{Cut, Mode, plain};
use super::space::{block_comment, line_comment, space};
use super::text::{Class, blank_len, byte_at, char_len, is_in, run_end};
use super::word::{uri, word};
use crate::kinds::SyntaxKind;

// An operator, or an error over one character.
#[inline(always)]
fn symbol(text: &str) -> Cut
    requires { 0 < length text.now }
    ensures { result ≡ first_that_fits (operator text.now ∷ []) (one_error text.now) }
{
    match operator(text) {
        Some(cut) => cut,
        None => plain(SyntaxKind::TOKEN_ERROR, char_len(text)),
    }
}

// Whether a path or a URI may continue with this byte after a name.
#[inline]
fn goes_past_name(b: u8) -> bool
    ensures { result ≡ goes_past_name b }
{
    matches!(b, b'.' | b'+' | b'/' | b':')
}

// A token that begins with a letter or `_`.
#[inline(always)]
fn named(text: &str, ahead: &mut Ahead) -> Cut
    requires first { begins_word (slice_index text.now 0) ≡ true }
    requires ahead { IsAhead ahead.old text.now }
    ensures cut { result ≡ first_that_fits (relative text.now ∷ uri text.now ∷ word text.now ∷ []) (one_error text.now) }
    ensures ahead { IsAhead ahead.new text.now }
{
    let end = run_end(text, 0, Class::Name);
    if goes_past_name(byte_at(text, end)) {
        let step = looked(text, &mut ahead.step, Class::Step);
        if let Some(cut) = relative(text, step) {
            return cut;
        }
        // A scheme ends where this run does, if it ends before `:`.
        if byte_at(text, step) == b':' {
            if let Some(cut) = uri(text, looked(text, &mut ahead.scheme, Class::Scheme)) {
                return cut;
            }
        }
    }
    word(text, end)
}

// A token that begins with a digit, `.`, `+` or `-`. A path continues with a path character.
#[inline(always)]
fn stepped(text: &str, ahead: &mut Ahead) -> Cut
    requires some { 0 < length text.now }
    requires ahead { IsAhead ahead.old text.now }
    ensures cut { result
        ≡ first_that_fits
        (ellipsis text.now ∷ relative text.now ∷ number text.now ∷ operator text.now ∷ [])
        (one_error text.now) }
    ensures ahead { IsAhead ahead.new text.now }
{
    if is_in(Class::Path, byte_at(text, 1)) {
        if let Some(cut) = ellipsis(text) {
            return cut;
        }
        if let Some(cut) = relative(text, looked(text, &mut ahead.step, Class::Step)) {
            return cut;
        }
    }
    match number(text) {
        Some(cut) => cut,
        None => symbol(text),
    }
}

// Tokens that begin with `<`.
#[inline(always)]
fn angled(text: &str, ahead: &mut Ahead) -> Cut
    requires some { 0 < length text.now }
    requires ahead { IsAhead ahead.old text.now }
    ensures cut { result ≡ first_that_fits (search_path text.now ∷ operator text.now ∷ []) (one_error text.now) }
    ensures ahead { IsAhead ahead.new text.now }
{
    match search_path(text, looked(text, &mut ahead.angle, Class::Angle)) {
        Some(cut) => cut,
        None => symbol(text),
    }
}

// Tokens that begin with `"`, `$` or `'`.
#[inline(always)]
fn opened(text: &str) -> Cut
    requires { 0 < length text.now }
    ensures { result ≡ first_that_fits (opener text.now ∷ operator text.now ∷ []) (one_error text.now) }
{
    match opener(text) {
        Some(cut) => cut,
        None => symbol(text),
    }
}

// Tokens that begin with a control character, or with a character outside ASCII.
#[inline(always)]
fn other(text: &str) -> Cut
    requires { 0 < length text.now }
    ensures { result ≡ first_that_fits (space text.now ∷ operator text.now ∷ []) (one_error text.now) }
{
    match space(text) {
        Some(cut) => cut,
        None => symbol(text),
    }
}

/// Returns the token of the first rule that matches.
#[inline(always)]
pub fn normal(text: &str, top: Option<Mode>, ahead: &mut Ahead) -> Cut
    requires some { 0 < length text.now }
    requires room { HasRoom top }
    requires ahead { IsAhead ahead.old text.now }
    ensures cut { result ≡ normal_cut top text.now }
    ensures ahead { IsAhead ahead.new text.now }
{
    match byte_at(text, 0) {
        b' ' | b'\t'..=b'\r' => plain(SyntaxKind::TOKEN_WHITESPACE, blank_len(text)),
        b'a'..=b'z' | b'A'..=b'Z' | b'_' => named(text, ahead),
        b'0'..=b'9' | b'.' | b'+' | b'-' => stepped(text, ahead),
        b'#' => line_comment(text),
        b'/' => match byte_at(text, 1) {
            b'*' => block_comment(text),
            _ => slash(text),
        },
        b'<' => angled(text, ahead),
        b'~' => home(text),
        b'"' | b'$' | b'\'' => opened(text),
        b'{' => opening_brace(top),
        b'}' => closing_brace(top),
        b'!'..=b'~' => symbol(text),
        _ => other(text),
    }
}
