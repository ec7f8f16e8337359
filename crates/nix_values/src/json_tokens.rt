//! Tokens of JSON.

ghost use Rattle.std.specs.Prelude.{◌≡◌, ◌≢◌, ℕ, ◌+◌, ◌-◌, ◌<◌, ◌≤◌, true, false, List, None, length, drop, slice_index, IfOk};
ghost use Rattle.nix_values.specs.Json.{Part, is_space, word_at, string_at, scalar_at, token_at, tokens_behind};
ghost use Rattle.nix_values.specs.JsonErrors.{error_at, no_number, string_error, token_error};
ghost use Rattle.nix_values.specs.JsonReading.{token_of, IsWord, IsCutOf, ReadsCut, RefusesWith, MissesIfOther};

use crate::bytes::{byte_at, bytes_from};
use crate::data::Value;
use crate::json_content::json_string;
use crate::json_error::JsonStop;
use crate::json_numbers::json_number;
use std::alloc::Global;

/// A token.
#[derive(Drop)]
pub enum Token {
    /// `[`, or `{` if it begins a set.
    Open(bool),
    /// `]`, or `}` if it ends a set.
    Close(bool),
    /// `,`.
    Comma,
    /// `:`.
    Colon,
    /// A string.
    Text(String),
    /// Another value that contains no others.
    Scalar(Value),
    /// Bytes that begin no token.
    Other,
}

/// A token with its end offset.
#[derive(Drop)]
pub struct Cut {
    /// The token.
    pub token: Token,
    /// Its end offset, in bytes.
    pub end: usize,
}

// Returns whether a byte is white space.
#[inline(always)]
fn is_space(byte: u8) -> bool
    ensures { result ≡ is_space byte }
{
    byte == b' ' || byte == b'\t' || byte == b'\n' || byte == b'\r'
}

// Returns the offset of the next token after white space.
#[inline(never)]
fn after_more_space(bytes: &[u8], at: usize) -> usize
    requires { at ≤ length bytes.now }
    ensures same { tokens_behind 0 (drop result bytes.now) ≡ tokens_behind 0 (drop at bytes.now) }
    ensures onward { at ≤ result }
    ensures within { result ≤ length bytes.now }
    ensures stops { result < length bytes.now → is_space (slice_index bytes.now result) ≡ false }
    ensures spaces { (i : ℕ) → at ≤ i → i < result → is_space (slice_index bytes.now i) ≡ true }
{
    for next in at..bytes.len() {
        if !is_space(bytes[next]) {
            return next;
        }
    }
    bytes.len()
}

/// Returns the offset of the next token.
#[inline]
pub fn after_space(text: &str, at: usize) -> usize
    requires { at ≤ length text.now }
    ensures same { tokens_behind 0 (drop result text.now) ≡ tokens_behind 0 (drop at text.now) }
    ensures onward { at ≤ result }
    ensures within { result ≤ length text.now }
    ensures stops { result < length text.now → is_space (slice_index text.now result) ≡ false }
    ensures spaces { (i : ℕ) → at ≤ i → i < result → is_space (slice_index text.now i) ≡ true }
{
    if is_space(byte_at(text.as_bytes(), at)) {
        after_more_space(text.as_bytes(), at)
    } else {
        at
    }
}

// Returns the keyword with which a text begins, and its length.
fn word_at(bytes: &[u8]) -> (Token, usize)
    ensures { IsWord bytes.now result.0 result.1 }
{
    if bytes.starts_with(b"null") {
        (Token::Scalar(Value::Null), 4)
    } else if bytes.starts_with(b"true") {
        (Token::Scalar(Value::Bool(true)), 4)
    } else if bytes.starts_with(b"false") {
        (Token::Scalar(Value::Bool(false)), 5)
    } else {
        (Token::Other, 1)
    }
}

// Returns the token of the keyword at an offset.
fn word(bytes: &[u8], at: usize) -> Cut
    requires { at < length bytes.now }
    ensures { IsCutOf (word_at (drop at bytes.now)) bytes.now at result }
{
    let (token, len) = word_at(bytes_from(bytes, at));
    Cut {
        token,
        end: at + len,
    }
}

// Returns the string that begins at an offset.
fn string_token(alloc: Global, text: &str, at: usize) -> Result<Cut, JsonStop>
    requires within { at < length text.now }
    requires quote { slice_index text.now at ≡ 34 }
    ensures read { ReadsCut result (string_at (drop (at + 1) text.now)) text.now at }
    ensures token { IfOk result (λ cut. token_of cut.token ≢ None) }
    ensures error { RefusesWith result (string_error at 0 (at + 1) (drop (at + 1) text.now)) }
{
    let (_quote, behind) = text.split_at(at + 1);
    match json_string(alloc, behind, at + 1) {
        Ok((value, len)) => Ok(Cut {
            token: Token::Text(value),
            end: at + 1 + len,
        }),
        Err(stop) => Err(stop),
    }
}

// Returns the number that begins at an offset with an ASCII byte.
fn number_token(alloc: Global, text: &str, at: usize) -> Result<Cut, JsonStop>
    requires within { at < length text.now }
    requires ascii { slice_index text.now at < 128 }
    ensures read { ReadsCut result (scalar_at (drop at text.now)) text.now at }
    ensures token { IfOk result (λ cut. token_of cut.token ≢ None) }
    ensures error { RefusesWith result (error_at (no_number (drop at text.now)) at) }
{
    let (_front, behind) = text.split_at(at);
    match json_number(alloc, behind, at) {
        Ok((value, len)) => Ok(Cut {
            token: Token::Scalar(value),
            end: at + len,
        }),
        Err(stop) => Err(stop),
    }
}

/// Reads the token at an offset.
#[tactic(auto, unfolding(crate::specs::Json::token_at))]
pub fn json_token(alloc: Global, text: &str, at: usize) -> Result<Cut, JsonStop>
    requires { at < length text.now }
    ensures read { ReadsCut result (token_at (slice_index text.now at) (drop (at + 1) text.now)) text.now at }
    ensures other { IfOk result (λ cut. MissesIfOther cut.token text.now at) }
    ensures error { (parts : List Part) → RefusesWith result (token_error parts at (slice_index text.now at) (drop (at + 1) text.now)) }
{
    let token = match byte_at(text.as_bytes(), at) {
        b'[' => Token::Open(false),
        b'{' => Token::Open(true),
        b']' => Token::Close(false),
        b'}' => Token::Close(true),
        b',' => Token::Comma,
        b':' => Token::Colon,
        b'"' => return string_token(alloc, text, at),
        b'-' | b'0'..=b'9' => return number_token(alloc, text, at),
        _ => return Ok(word(text.as_bytes(), at)),
    };
    Ok(Cut { token, end: at + 1 })
}
