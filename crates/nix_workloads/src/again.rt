//! Small edits, after each of which the text is parsed from the tree of the text before.

ghost use Rattle.std.specs.Prelude.{IfOk};
ghost use Rattle.rnix_reparse.specs.ParsedText.{IsParsedText};

use crate::digest::Digest;
use crate::numbers::{Numbers, mixed};
use crate::small_edits::{EDITS, SmallEdit, add_edited, edited_text, small_edit};
use crate::words::Words;
use rnix::Parse;
use rnix_reparse::{editable_range, parse_text, reparse};
use std::alloc::{AllocError, Global};
use std::io;

// Returns the parse of a text after an edit, or the one before if the edit leaves errors.
fn parse_after(
    alloc: Global,
    last: Parse,
    edit: SmallEdit<'_>,
    digest: &mut Digest,
) -> Result<Parse, AllocError>
    requires { IsParsedText last }
    ensures { IfOk result IsParsedText }
{
    let Some(range) = editable_range(last.text(), edit.start, edit.end) else {
        return Ok(last);
    };
    let made = reparse(alloc, &last, range, edit.new)?;
    add_edited(&made, edit, digest);
    if !made.errors().is_empty() {
        return Ok(last);
    }
    Ok(made)
}

// Edits a text. An edit that leaves errors is undone.
fn edit_again(
    alloc: Global,
    words: &Words,
    read: Parse,
    seed: u64,
    digest: &mut Digest,
) -> Result<(), AllocError>
    requires { IsParsedText read }
{
    let mut numbers = Numbers::new(seed);
    let mut last = read;
    for _edit in 0..EDITS {
        let edit = small_edit(words, last.text(), &mut numbers);
        last = parse_after(alloc, last, edit, digest)?;
    }
    Ok(())
}

/// Makes small edits of `size` texts. The results are those of `anew`.
pub fn again(
    alloc: Global,
    words: &Words,
    seed: u64,
    size: usize,
    digest: &mut Digest,
) -> io::Result<()> {
    let seed = mixed(seed);
    for number in 0..size {
        let own = mixed(seed.wrapping_add(number as u64));
        let text = edited_text(alloc, words, number, own)?;
        edit_again(alloc, words, parse_text(alloc, text.as_str())?, own, digest)?;
    }
    Ok(())
}
