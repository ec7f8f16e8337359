//! Small edits, after each of which the whole text is parsed.

use crate::digest::Digest;
use crate::numbers::{Numbers, mixed};
use crate::small_edits::{EDITS, SmallEdit, add_edited, edited_text, small_edit};
use crate::words::Words;
use rnix::Root;
use std::alloc::{AllocError, Global};
use std::io;

/// Returns a text after an edit, or `None` if its offsets are not in the text, or inside a character.
pub fn text_after(
    alloc: Global,
    text: &str,
    edit: SmallEdit<'_>,
) -> Result<Option<String>, AllocError> {
    match (
        text.get(..edit.start),
        text.get(edit.start..edit.end),
        text.get(edit.end..),
    ) {
        (Some(before), Some(_), Some(behind)) => {
            let mut made = String::from_str(alloc, before)?;
            made.push_str(edit.new)?;
            made.push_str(behind)?;
            Ok(Some(made))
        }
        _ => Ok(None),
    }
}

// Edits a text. An edit that leaves errors is undone.
fn edit_anew(
    alloc: Global,
    words: &Words,
    text: String,
    seed: u64,
    digest: &mut Digest,
) -> Result<(), AllocError> {
    let mut numbers = Numbers::new(seed);
    let mut last = text;
    for _edit in 0..EDITS {
        let edit = small_edit(words, last.as_str(), &mut numbers);
        if let Some(made) = text_after(alloc, last.as_str(), edit)? {
            let read = Root::parse(alloc, made.as_str())?;
            add_edited(&read, edit, digest);
            if read.errors().is_empty() {
                last = made;
            }
        }
    }
    Ok(())
}

/// Makes small edits of `size` texts.
pub fn anew(
    alloc: Global,
    words: &Words,
    seed: u64,
    size: usize,
    digest: &mut Digest,
) -> io::Result<()> {
    let seed = mixed(seed);
    for number in 0..size {
        let own = mixed(seed.wrapping_add(number as u64));
        let text = edited_text(alloc, words, number, own)?;
        edit_anew(alloc, words, text, own, digest)?;
    }
    Ok(())
}
