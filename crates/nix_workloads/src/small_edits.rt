//! Small edits of long texts, as a person makes them.

use crate::digest::Digest;
use crate::keys::add_place;
use crate::numbers::Numbers;
use crate::packages::{generated, listing};
use crate::results::add_parse;
use crate::source::module;
use crate::words::Words;
use rnix::Parse;
use std::alloc::{AllocError, Global};

/// An edit: the offsets of what is removed, and what replaces it.
#[derive(Clone, Copy)]
pub struct SmallEdit<'w> {
    pub start: usize,
    pub end: usize,
    pub new: &'w str,
}

// What is inserted.
const INSERTED: [&str; 16] = [
    "x",
    " ",
    "\n",
    "1",
    "a",
    ".b",
    "\n  c = 1;",
    "\n  # d\n",
    " e",
    "/* f */",
    "[ ]",
    ";",
    "{",
    "\"",
    "(",
    "${",
];

/// How many edits are made of each text.
pub const EDITS: usize = 60;

/// A text of 20 KB to 1 MB without errors: mostly one set with many entries.
pub fn edited_text(
    alloc: Global,
    words: &Words,
    number: usize,
    seed: u64,
) -> Result<String, AllocError> {
    match number % 5 {
        0 => module(alloc, words, seed, 60),
        1 => listing(alloc, words, seed, 1500),
        2 => generated(alloc, words, seed, 150),
        3 => generated(alloc, words, seed, 1000),
        _ => listing(alloc, words, seed, 18_000),
    }
}

// Returns whether a byte is a small letter.
fn is_letter(byte: u8) -> bool {
    byte.is_ascii_lowercase()
}

// Returns where the first run of small letters behind an offset begins and ends.
fn word_behind(text: &str, offset: usize) -> (usize, usize) {
    let behind = text.get(offset..).unwrap_or("").as_bytes();
    let before = behind.iter().take_while(|byte| !is_letter(**byte)).count();
    let start = offset.saturating_add(before);
    let word = text.get(start..).unwrap_or("").as_bytes();
    let len = word.iter().take_while(|byte| is_letter(**byte)).count();
    (start, start.saturating_add(len))
}

/// Returns an edit somewhere in a text: of eight, four replace a word, two insert a few bytes, and two remove up to four.
pub fn small_edit<'w>(words: &'w Words, text: &str, numbers: &mut Numbers) -> SmallEdit<'w> {
    let offset = numbers.below(text.len());
    let (way, number) = (numbers.below(8), numbers.next());
    match way {
        0..=3 => {
            let (start, end) = word_behind(text, offset);
            let new = words.word(number);
            SmallEdit { start, end, new }
        }
        4..=5 => SmallEdit {
            start: offset,
            end: offset,
            new: INSERTED[(number % 16) as usize],
        },
        _ => {
            let end = offset.saturating_add((number % 4) as usize);
            let end = end.saturating_add(1).min(text.len());
            SmallEdit {
                start: offset,
                end,
                new: "",
            }
        }
    }
}

/// Adds the parse of a text after an edit, and what is at the edited place.
pub fn add_edited(read: &Parse, edit: SmallEdit<'_>, digest: &mut Digest) {
    add_parse(read, digest);
    add_place(&read.syntax(), edit.start, edit.new.len(), digest);
}
