//! Compares parses after random edits with parses of the new texts.

ghost use Rattle.std.specs.Prelude.{IfOk};
ghost use Rattle.rnix_reparse.specs.ParsedText.{IsParsedText};

use crate::again_rules::{expression, written};
use crate::anew::text_after;
use crate::digest::Digest;
use crate::numbers::{Numbers, mixed};
use crate::packages::{Files, listing};
use crate::results::add_parse;
use crate::small_edits::SmallEdit;
use crate::words::Words;
use rnix::{Parse, Root};
use rnix_reparse::{editable_range, parse_text, reparse, reparse_in_place};
use std::alloc::{AllocError, Global};
use std::io;

// How many edits are made of each text.
const EDITS: usize = 20;

// The numbers of edits, of edits of texts without errors, of edits that make such texts, and of differences.
#[derive(Clone, Copy)]
struct Counts {
    edits: u64,
    clean: u64,
    left_clean: u64,
    different: u64,
}

// Returns whether two parses have one tree and the same errors.
fn is_same(one: &Parse, other: &Parse) -> bool {
    let (mut first, mut second) = (Digest::new(), Digest::new());
    add_parse(one, &mut first);
    add_parse(other, &mut second);
    one.green().is_same(other.green()) && first.sum() == second.sum()
}

// Returns a random edit of a text. Of eight edits, three remove nothing, three one byte, one up to 7 and one up to 59; six insert one or two pieces.
fn random_edit(text: &str, numbers: &mut Numbers) -> (usize, usize, &'static str, &'static str) {
    let start = numbers.below(text.len().saturating_add(1));
    let removed = match numbers.below(8) {
        0..=2 => 0,
        3..=5 => 1,
        6 => numbers.below(8),
        _ => numbers.below(60),
    };
    let end = start.saturating_add(removed).min(text.len());
    match numbers.below(8) {
        0..=1 => (start, end, "", ""),
        2 => (start, end, written(numbers), written(numbers)),
        _ => (start, end, written(numbers), ""),
    }
}

// Counts an edit, and prints it if the result of `reparse` or of `reparse_in_place` differs from the parse of the new text.
fn count(
    rt: &HostRuntime,
    old: &Parse,
    edit: SmallEdit<'_>,
    new: &Parse,
    in_place: &Parse,
    counts: &mut Counts,
) -> io::Result<()> {
    counts.edits = counts.edits.wrapping_add(1);
    counts.clean = counts
        .clean
        .wrapping_add(u64::from(old.errors().is_empty()));
    counts.left_clean = counts
        .left_clean
        .wrapping_add(u64::from(new.errors().is_empty()));
    let Some(text) = text_after(rt.alloc(), old.text(), edit)? else {
        return Ok(());
    };
    let whole = Root::parse(rt.alloc(), text.as_str())?;
    if !is_same(new, &whole) || !is_same(in_place, &whole) {
        counts.different = counts.different.wrapping_add(1);
        println!(rt;
            "{}..{} <{}> in <{}>",
            edit.start,
            edit.end,
            edit.new,
            old.text()
        )?;
    }
    Ok(())
}

// Returns the parse of a text after an edit, or the one before: of twelve edits that leave errors, eleven are undone.
fn parse_after(
    rt: &HostRuntime,
    last: Parse,
    edit: SmallEdit<'_>,
    numbers: &mut Numbers,
    counts: &mut Counts,
) -> io::Result<Parse>
    requires { IsParsedText last }
    ensures { IfOk result IsParsedText }
{
    let Some(range) = editable_range(last.text(), edit.start, edit.end) else {
        return Ok(last);
    };
    let made = reparse(rt.alloc(), &last, range, edit.new)?;
    let mut in_place = last.try_clone()?;
    reparse_in_place(rt.alloc(), &mut in_place, range, edit.new)?;
    count(rt, &last, edit, &made, &in_place, counts)?;
    let is_kept = made.errors().is_empty() || numbers.below(12) == 0;
    if !is_kept {
        return Ok(last);
    }
    Ok(made)
}

// Edits a text again and again.
fn compare_edits(
    rt: &HostRuntime,
    read: Parse,
    numbers: &mut Numbers,
    counts: &mut Counts,
) -> io::Result<()>
    requires { IsParsedText read }
{
    let mut last = read;
    for _edit in 0..EDITS {
        let (start, end, first, second) = random_edit(last.text(), numbers);
        let mut text = String::from_str(rt.alloc(), first)?;
        text.push_str(second)?;
        let new = text.as_str();
        last = parse_after(rt, last, SmallEdit { start, end, new }, numbers, counts)?;
    }
    Ok(())
}

// A text: of 400, 396 are short expressions, three are packages, and one is a list of 20 KB.
fn text_of(
    alloc: Global,
    words: &Words,
    files: &Files,
    numbers: &mut Numbers,
) -> Result<String, AllocError> {
    match numbers.below(400) {
        0 => listing(alloc, words, numbers.next(), 350),
        1..=3 => files.file(alloc, words, numbers.next()),
        _ => expression(alloc, numbers),
    }
}

/// Makes about `size` random edits, and prints how many results differ from a parse of the new text.
pub fn compare(rt: &HostRuntime, words: &Words, seed: u64, size: usize) -> io::Result<()> {
    let mut numbers = Numbers::new(mixed(seed));
    let files = Files::new(rt.alloc())?;
    let mut counts = Counts {
        edits: 0,
        clean: 0,
        left_clean: 0,
        different: 0,
    };
    for _text in 0..size / EDITS {
        let text = text_of(rt.alloc(), words, &files, &mut numbers)?;
        let read = parse_text(rt.alloc(), text.as_str())?;
        compare_edits(rt, read, &mut numbers, &mut counts)?;
    }
    println!(rt;
        "compare: {} edits, {} of texts without errors, {} to such texts, {} different",
        counts.edits, counts.clean, counts.left_clean, counts.different
    )
}
