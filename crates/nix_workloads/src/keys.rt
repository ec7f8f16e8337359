//! Key presses: a text is read again after each, and what is under the pointer is looked up.

use crate::check::{add_mistakes, add_names};
use crate::digest::Digest;
use crate::numbers::{Numbers, mixed};
use crate::packages::{generated, listing};
use crate::results::{add_element, add_kind, add_parse, add_range};
use crate::source::{lets, module};
use crate::words::Words;
use rnix::{Root, SyntaxNode, SyntaxToken, TextRange, TokenAtOffset};
use rnix_text::{ColumnUnit, LineIndex};
use std::alloc::{AllocError, Global};
use std::io;

// What the key with a number adds to the text.
fn key(number: usize) -> &'static str {
    match number {
        0 => "x",
        1 => " ",
        2 => ";",
        3 => "{",
        4 => "\"",
        5 => "a.",
        6 => "(",
        _ => "= ",
    }
}

// How many places are looked up after each key press: one in each part of the text, so that none is looked up twice.
const PLACES: usize = 40;

// Adds the kinds of the nodes around a token.
fn add_ancestors(token: &SyntaxToken<'_>, digest: &mut Digest) {
    if let Some(parent) = token.parent() {
        for node in parent.ancestors() {
            add_kind(node.kind(), digest);
        }
    }
}

// Adds a token.
fn add_token(token: &SyntaxToken<'_>, digest: &mut Digest) {
    add_kind(token.kind(), digest);
    add_range(token.text_range(), digest);
    digest.add_text(token.text());
}

/// Adds what is at an offset: its tokens, the nodes around the last of them, and what covers a few bytes after it.
pub fn add_place(root: &SyntaxNode<'_>, offset: usize, len: usize, digest: &mut Digest) {
    match root.token_at_offset(offset) {
        TokenAtOffset::None => digest.add_number(0),
        TokenAtOffset::Single(token) => {
            add_token(&token, digest);
            add_ancestors(&token, digest);
        }
        TokenAtOffset::Between(left, right) => {
            add_token(&left, digest);
            add_token(&right, digest);
            add_ancestors(&right, digest);
        }
    }
    let range = TextRange::new(offset, offset.saturating_add(len));
    if let Some(element) = root.covering_element(range) {
        add_element(&element, digest);
    }
}

// Adds what an editor asks of a text that it has just changed.
fn read_again(
    alloc: Global,
    text: &str,
    numbers: &mut Numbers,
    digest: &mut Digest,
) -> Result<(), AllocError> {
    let read = Root::parse(alloc, text)?;
    add_parse(&read, digest);
    add_mistakes(alloc, &read, digest)?;
    add_names(alloc, &read, digest)?;
    let index = LineIndex::new(alloc, text, ColumnUnit::Utf16)?;
    let root = read.syntax();
    let part = text.len() / PLACES;
    for place in 0..PLACES {
        let offset = part
            .saturating_mul(place)
            .saturating_add(numbers.below(part));
        add_place(&root, offset, numbers.below(30), digest);
        let position = index.position(offset).unwrap_or_default();
        digest.add_number(position.line);
        digest.add_number(position.column);
    }
    Ok(())
}

// How many keys are pressed in a text, each in the original text.
const KEYS: usize = 2;

// Presses a key somewhere in a text.
fn press_once(
    alloc: Global,
    text: &str,
    numbers: &mut Numbers,
    digest: &mut Digest,
) -> Result<(), AllocError> {
    let at = numbers.below(text.len());
    let mut made = String::from_str(alloc, text.get(..at).unwrap_or(""))?;
    made.push_str(key(numbers.below(8)))?;
    made.push_str(text.get(at..).unwrap_or(""))?;
    read_again(alloc, made.as_str(), numbers, digest)
}

// Presses keys somewhere in a text.
fn press_keys(alloc: Global, text: &str, seed: u64, digest: &mut Digest) -> Result<(), AllocError> {
    let mut numbers = Numbers::new(seed);
    for _key in 0..KEYS {
        press_once(alloc, text, &mut numbers, digest)?;
    }
    Ok(())
}

/// Presses keys in `size` texts of 5 to 150 KB.
pub fn press(
    alloc: Global,
    words: &Words,
    seed: u64,
    size: usize,
    digest: &mut Digest,
) -> io::Result<()> {
    let seed = mixed(seed);
    for number in 0..size {
        let own = mixed(seed.wrapping_add(number as u64));
        let many = 40 + (number % 4) * 100;
        let text = match number % 5 {
            0 => module(alloc, words, own, many)?,
            1 => lets(alloc, words, own, many / 10)?,
            2 => generated(alloc, words, own, many)?,
            _ => listing(alloc, words, own, many.saturating_mul(5))?,
        };
        press_keys(alloc, text.as_str(), own, digest)?;
    }
    Ok(())
}
