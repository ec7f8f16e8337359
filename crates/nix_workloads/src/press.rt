//! Single bytes typed into one text, after each of which it is parsed from the tree of the text before.

ghost use Rattle.std.specs.Prelude.{IfOk, OnOk};
ghost use Rattle.rnix_reparse.specs.ParsedText.{IsParsedText};

use crate::digest::Digest;
use crate::numbers::{Numbers, mixed};
use crate::pins::pins;
use crate::press_anew::{PINS, add_size, typed};
use crate::small_edits::SmallEdit;
use crate::words::Words;
use rnix::Parse;
use rnix_reparse::{editable_range, parse_text, reparse, reparse_in_place};
use std::alloc::{AllocError, Global};

// Returns the parse of a text after an edit, or the one before if the edit leaves errors.
fn parse_after(
    alloc: Global,
    last: Parse,
    edit: SmallEdit<'_>,
    digest: &mut Digest,
) -> Result<Parse, AllocError>
    requires { IsParsedText last }
    ensures { IfOk result IsParsedText }
{
    let Some(range) = editable_range(last.text(), edit.start, edit.end) else {
        return Ok(last);
    };
    let made = reparse(alloc, &last, range, edit.new)?;
    add_size(&made, digest);
    if !made.errors().is_empty() {
        return Ok(last);
    }
    Ok(made)
}

// Removes bytes that were typed.
fn remove(alloc: Global, parse: &mut Parse, start: usize, len: usize) -> Result<(), AllocError>
    requires { IsParsedText parse.old }
    ensures { OnOk result (IsParsedText parse.new) }
{
    let end = start.saturating_add(len);
    let Some(range) = editable_range(parse.text(), start, end) else {
        return Ok(());
    };
    reparse_in_place(alloc, parse, range, "")?;
    Ok(())
}

// Types into a text, and removes what was typed if it leaves errors.
fn type_in_place(
    alloc: Global,
    parse: &mut Parse,
    edit: SmallEdit<'_>,
    digest: &mut Digest,
) -> Result<(), AllocError>
    requires { IsParsedText parse.old }
    ensures { OnOk result (IsParsedText parse.new) }
{
    let Some(range) = editable_range(parse.text(), edit.start, edit.end) else {
        return Ok(());
    };
    reparse_in_place(alloc, parse, range, edit.new)?;
    add_size(parse, digest);
    if !parse.errors().is_empty() {
        remove(alloc, parse, edit.start, edit.new.len())?;
    }
    Ok(())
}

/// Types a byte `count` times, each in place; the results are those of `press_anew`.
pub fn press_in_place(
    alloc: Global,
    words: &Words,
    byte: &str,
    seed: u64,
    count: usize,
    digest: &mut Digest,
) -> Result<(), AllocError> {
    let seed = mixed(seed);
    let mut numbers = Numbers::new(seed);
    let mut parse = parse_text(alloc, pins(alloc, words, seed, PINS)?.as_str())?;
    for _press in 0..count {
        let edit = typed(parse.text(), byte, &mut numbers);
        type_in_place(alloc, &mut parse, edit, digest)?;
    }
    Ok(())
}

/// Types a byte `count` times; the results are those of `press_anew`. The parse before each stays until the next.
pub fn press(
    alloc: Global,
    words: &Words,
    byte: &str,
    seed: u64,
    count: usize,
    digest: &mut Digest,
) -> Result<(), AllocError> {
    let seed = mixed(seed);
    let mut numbers = Numbers::new(seed);
    let mut last = parse_text(alloc, pins(alloc, words, seed, PINS)?.as_str())?;
    for _press in 0..count {
        let edit = typed(last.text(), byte, &mut numbers);
        last = parse_after(alloc, last, edit, digest)?;
    }
    Ok(())
}
