//! Single bytes typed into one text of about 1 MB, each after the first small letter that follows a `{`. After each, the whole text is parsed.

use crate::anew::text_after;
use crate::digest::Digest;
use crate::numbers::{Numbers, mixed};
use crate::pins::pins;
use crate::small_edits::SmallEdit;
use crate::words::Words;
use rnix::{Parse, Root};
use std::alloc::{AllocError, Global};

/// The number of pins in the text.
pub const PINS: usize = 5000;

/// Returns the edit that types a byte somewhere.
pub fn typed<'a>(text: &str, byte: &'a str, numbers: &mut Numbers) -> SmallEdit<'a> {
    let offset = numbers.below(text.len());
    let after = text.get(offset..).unwrap_or("");
    let inside = after.find('{').unwrap_or(0);
    let letters = after.get(inside..).unwrap_or("").as_bytes();
    let skipped = letters
        .iter()
        .take_while(|byte| !byte.is_ascii_lowercase())
        .count();
    let start = offset.saturating_add(inside).saturating_add(skipped);
    let start = start.saturating_add(1).min(text.len());
    SmallEdit {
        start,
        end: start,
        new: byte,
    }
}

/// Adds the size of a tree and the number of its errors.
pub fn add_size(read: &Parse, digest: &mut Digest) {
    digest.add_number(read.syntax().inside_count());
    digest.add_number(read.errors().len());
}

/// Types a byte `count` times. One that leaves errors is undone.
pub fn press_anew(
    alloc: Global,
    words: &Words,
    byte: &str,
    seed: u64,
    count: usize,
    digest: &mut Digest,
) -> Result<(), AllocError> {
    let seed = mixed(seed);
    let mut numbers = Numbers::new(seed);
    let mut last = pins(alloc, words, seed, PINS)?;
    let _first = Root::parse(alloc, last.as_str())?;
    for _press in 0..count {
        let edit = typed(last.as_str(), byte, &mut numbers);
        if let Some(made) = text_after(alloc, last.as_str(), edit)? {
            let read = Root::parse(alloc, made.as_str())?;
            add_size(&read, digest);
            if read.errors().is_empty() {
                last = made;
            }
        }
    }
    Ok(())
}
