//! The parse of a text after an edit, from the arrays that contain the parse of the text before it.

ghost use Rattle.std.specs.Prelude.{◌≡◌, ◌≤◌, ◌<◌, ◌^◌, length, IfOk, IfErr, IsUtf8};
ghost use Rattle.rnix_kinds.specs.Lexical.Tokens.{tokens_of};
ghost use Rattle.rnix_green.specs.Forest.{text_of};
ghost use Rattle.rnix_green.specs.Range.{bounds_of};
ghost use Rattle.rnix_green.specs.Tree.{forest_of};
ghost use Rattle.rnix_grammar.specs.Parsed.{IsParsed};
ghost use Rattle.rnix_reparse.specs.EditedRange.{edited, IsRangeOf};
ghost use Rattle.rnix_reparse.specs.EditableRanges.{between, IsEditable};
ghost use Rattle.rnix_c.specs.Answers.{filled, IsWritten};
ghost use Rattle.rnix_c.specs.Elements.{AreFew};
ghost use Rattle.rnix_c.specs.CompactElements.{ranges_of, links_of, HaveShortNumbers};
ghost use Rattle.rnix_c.specs.Errors.{errors_of};
ghost use Rattle.rnix_c.specs.KeptArrays.{HoldParse};
ghost use Rattle.rnix_c.specs.AgainCalls.{IsNoEdit, IsEditRefused, AnswersEdit};

use crate::answers::{NO_MEMORY, NONE_SUCH, TOO_LONG, checked};
use crate::compact::{RnixLink, RnixRange, write_parse};
use crate::errors::RnixError;
use crate::kept_arrays::parse_kept;
use rnix::{Parse, Root, TextRange};
use rnix_reparse::{editable_range, edited_text, reparse};
use std::alloc::{AllocError, Global};

// The largest number of bytes of a text, and of elements of a tree.
const LONGEST: usize = u32::MAX as usize;

// Parses the text after an edit, if the text before it has no errors.
fn parse_edit(
    alloc: Global,
    text: &str,
    ranges: &[RnixRange],
    links: &[RnixLink],
    range: TextRange,
    replacement: &str,
) -> Result<Parse, AllocError>
    requires short { length text.now < 2 ^ 32 }
    requires kept { HoldParse text.now ranges.now links.now 0 }
    requires range { IsRangeOf text.now (bounds_of range) }
    ensures { IfOk result (λ read. IsParsed (tokens_of (edited (bounds_of range) replacement.now text.now)) read.tree read.faults) }
{
    let old = parse_kept(alloc, text, ranges, links)?;
    let read = reparse(alloc, &old, range, replacement)?;
    Ok(read)
}

// Parses the text after an edit as a whole.
fn parse_whole(
    alloc: Global,
    text: &str,
    range: TextRange,
    replacement: &str,
) -> Result<Parse, AllocError>
    requires { IsRangeOf text.now (bounds_of range) }
    ensures { IfOk result (λ read. IsParsed (tokens_of (edited (bounds_of range) replacement.now text.now)) read.tree read.faults) }
{
    let new = edited_text(alloc, text, range.start(), range.end(), replacement)?;
    let read = Root::parse(alloc, new.as_str())?;
    Ok(read)
}

// Parses the text after an edit: as a whole if the text before it has errors.
fn parse_edited(
    alloc: Global,
    text: &str,
    ranges: &[RnixRange],
    links: &[RnixLink],
    error_count: u64,
    range: TextRange,
    replacement: &str,
) -> Result<Parse, AllocError>
    requires short { length text.now < 2 ^ 32 }
    requires kept { HoldParse text.now ranges.now links.now error_count }
    requires range { IsRangeOf text.now (bounds_of range) }
    ensures { IfOk result (λ read. IsParsed (tokens_of (edited (bounds_of range) replacement.now text.now)) read.tree read.faults) }
{
    if error_count == 0 {
        parse_edit(alloc, text, ranges, links, range, replacement)
    } else {
        parse_whole(alloc, text, range, replacement)
    }
}

// Returns the range of an edit, or the reason why the edit cannot be made.
fn checked_range(text: &str, start: usize, end: usize, replacement: &str) -> Result<TextRange, i64>
    ensures found { IfOk result (λ range. (bounds_of range ≡ between start end) × IsEditable text.now start end) }
    ensures short { IfOk result (λ _. length (edited (between start end) replacement.now text.now) < 2 ^ 32) }
    ensures refused { IfErr result (λ answer. IsNoEdit text.now start end replacement.now answer) }
{
    let Some(range) = editable_range(text, start, end) else {
        return Err(NONE_SUCH);
    };
    let kept = text.len() - (end - start);
    if kept > LONGEST || replacement.len() > LONGEST - kept {
        return Err(TOO_LONG);
    }
    Ok(range)
}

// Parses the text after an edit, or returns the reason for refusing it.
fn parsed_again(
    alloc: Global,
    text: &[u8],
    ranges: &[RnixRange],
    links: &[RnixLink],
    error_count: u64,
    start: usize,
    end: usize,
    replacement: &[u8],
) -> Result<Parse, i64>
    requires { HoldParse text.now ranges.now links.now error_count }
    ensures editable { IfOk result (λ _. IsEditable text.now start end) }
    ensures utf8 { IfOk result (λ _. IsUtf8 (edited (between start end) replacement.now text.now)) }
    ensures read { IfOk result (λ read. IsParsed (tokens_of (edited (between start end) replacement.now text.now)) read.tree read.faults) }
    ensures few { IfOk result (λ read. HaveShortNumbers read.tree) }
    ensures short { IfOk result (λ read. length (text_of (forest_of read.tree)) < 2 ^ 32) }
    ensures refused { IfErr result (λ answer. IsEditRefused text.now start end replacement.now answer) }
{
    let text = checked(text)?;
    let replacement = checked(replacement)?;
    let range = checked_range(text, start, end, replacement)?;
    let Ok(read) = parse_edited(alloc, text, ranges, links, error_count, range, replacement) else {
        return Err(NO_MEMORY);
    };
    // No tree has more elements, but the contract of the parse does not say so.
    if read.green().element_count() > LONGEST {
        return Err(NO_MEMORY);
    }
    Ok(read)
}

/// Writes the elements, in two arrays, and the errors of a text after an edit that replaces the bytes from `start` to `end`. Returns the number of elements,
/// as `rnix_parse_compact` does for the new text. The arrays `ranges` and `links` and the number of errors are what that function, or this one, wrote
/// for the text before the edit.
#[unsafe(no_mangle)]
pub extern "C" fn rnix_parse_again(
    alloc: Global,
    text: &[u8],
    ranges: &[RnixRange],
    links: &[RnixLink],
    error_count: u64,
    start: u64,
    end: u64,
    replacement: &[u8],
    new_ranges: &mut [RnixRange],
    new_links: &mut [RnixLink],
    errors: &mut [RnixError],
    new_error_count: &mut u64,
) -> i64
    requires { HoldParse text.now ranges.now links.now error_count }
    ensures { AnswersEdit text.now start end replacement.now result
        ((new_ranges.new ≡ new_ranges.old) × (new_links.new ≡ new_links.old) × (errors.new ≡ errors.old) × (new_error_count.new ≡ new_error_count.old))
        (λ tree faults. IsWritten (ranges_of tree) result new_ranges.old new_ranges.new × (new_links.new ≡ filled (links_of tree) new_links.old)
        × AreFew (edited (between start end) replacement.now text.now) tree × HaveShortNumbers tree
        × (errors.new ≡ filled (errors_of faults) errors.old) × (new_error_count.new ≡ length faults)) }
{
    let (start, end) = (start as usize, end as usize);
    match parsed_again(
        alloc,
        text,
        ranges,
        links,
        error_count,
        start,
        end,
        replacement,
    ) {
        Ok(read) => write_parse(&read, new_ranges, new_links, errors, new_error_count),
        Err(answer) => answer,
    }
}
