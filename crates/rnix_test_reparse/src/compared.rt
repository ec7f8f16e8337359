//! Edits, and the parses after them.

ghost use Rattle.std.specs.Prelude.{IfOk, IfSome, OnOk};
ghost use Rattle.rnix_reparse.specs.ParsedText.{IsParsedText};

use rnix::{Parse, Root, TextRange};
use rnix_reparse::{reparse, reparse_in_place};
use std::alloc::{AllocError, Global};

/// An edit of a text: what is before it, what it replaces, what it writes, and what follows.
pub type Edit<'t> = (&'t str, &'t str, &'t str, &'t str);

// Returns texts, one after the other.
fn joined(alloc: Global, texts: [&str; 3]) -> Result<String, AllocError> {
    let mut all = String::new(alloc);
    for text in texts {
        all.push_str(text)?;
    }
    Ok(all)
}

/// Returns the parse of a text.
pub fn parsed(alloc: Global, text: &str) -> Result<Parse, AllocError>
    ensures { IfOk result IsParsedText }
{
    let parse = Root::parse(alloc, text)?;
    Ok(parse)
}

/// Returns the parse after an edit of the bytes from `start` to `end`, if these are offsets of characters.
pub fn after_edit(
    alloc: Global,
    old: &Parse,
    start: usize,
    end: usize,
    new: &str,
) -> Result<Option<Parse>, AllocError>
    requires { IsParsedText old.now }
    ensures { IfOk result (λ found. IfSome found IsParsedText) }
{
    let text = old.text();
    if end < start || !text.is_char_boundary(start) || !text.is_char_boundary(end) {
        return Ok(None);
    }
    let parse = reparse(alloc, old, TextRange::new(start, end), new)?;
    Ok(Some(parse))
}

/// Edits the bytes from `start` to `end` in place, if these are offsets of characters, and returns whether they are.
pub fn edit_in_place(
    alloc: Global,
    parse: &mut Parse,
    start: usize,
    end: usize,
    new: &str,
) -> Result<bool, AllocError>
    requires { IsParsedText parse.old }
    ensures { OnOk result (IsParsedText parse.new) }
{
    let text = parse.text();
    if end < start || !text.is_char_boundary(start) || !text.is_char_boundary(end) {
        return Ok(false);
    }
    reparse_in_place(alloc, parse, TextRange::new(start, end), new)?;
    Ok(true)
}

// Returns the errors as a text.
fn errors_of(alloc: Global, parse: &Parse) -> Result<String, AllocError> {
    let mut all = String::new(alloc);
    for error in parse.errors() {
        let text = format!(in alloc; "{error:?}\n")?;
        all.push_str(text.as_str())?;
    }
    Ok(all)
}

/// Returns whether two parses have the same tree and the same errors.
pub fn are_same(alloc: Global, parse: &Parse, other: &Parse) -> Result<bool, AllocError> {
    let (errors, other_errors) = (errors_of(alloc, parse)?, errors_of(alloc, other)?);
    Ok(parse.green().is_same(other.green()) && errors == other_errors)
}

/// Returns whether `reparse` and `reparse_in_place` both give the parse of the new text.
pub fn is_parse_after(alloc: Global, edit: Edit<'_>) -> Result<bool, AllocError> {
    let (before, old, new, after) = edit;
    let text = joined(alloc, [before, old, after])?;
    let end = before.len().saturating_add(old.len());
    let whole = parsed(alloc, joined(alloc, [before, new, after])?.as_str())?;
    let mut parse = parsed(alloc, text.as_str())?;
    let Some(other) = after_edit(alloc, &parse, before.len(), end, new)? else {
        return Ok(false);
    };
    let is_edited = edit_in_place(alloc, &mut parse, before.len(), end, new)?;
    Ok(is_edited && are_same(alloc, &other, &whole)? && are_same(alloc, &parse, &whole)?)
}

// Returns a set's first 400 lines and the beginning of its last entry, whose value begins with `before`.
fn long_before(alloc: Global, before: &str) -> Result<String, AllocError> {
    let mut text = String::from_str(alloc, "{\n")?;
    for _ in 0..400 {
        text.push_str("  package = [ { version = \"1.0\"; } (f x) ];\n")?;
    }
    text.push_str("  it = ")?;
    text.push_str(before)?;
    Ok(text)
}

/// Returns whether `is_parse_after` is true of an edit in a short text and in a long one, of which the edited node is a small part.
pub fn is_parse_after_both(alloc: Global, edit: Edit<'_>) -> Result<bool, AllocError> {
    let (before, old, new, after) = edit;
    let long_before = long_before(alloc, before)?;
    let long_after = joined(alloc, [after, ";\n", "}\n"])?;
    let short = is_parse_after(alloc, edit)?;
    let long = is_parse_after(alloc, (long_before.as_str(), old, new, long_after.as_str()))?;
    Ok(short && long)
}
