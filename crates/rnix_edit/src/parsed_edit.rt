//! Replacing one range of a text and parsing the new text.

ghost use Rattle.std.specs.Prelude.{◌≡◌, false, string_bytes, IfOk, IfSome, IfNone};
ghost use Rattle.rnix_text.specs.Changes.{IsInside, IsBetween};
ghost use Rattle.rnix_edit.specs.Edited.{spliced};
ghost use Rattle.rnix_edit.specs.ParsedEdit.{is_memory, IsNotParsed, IfRead, IfNotRead};

use crate::edited::Refusal;
use rnix::{Parse, Root};
use rnix_text::{EditError, Edits};
use std::alloc::{AllocError, Global};

/// A changed text with its tree, or the reason for refusing the change.
#[derive(Drop)]
pub enum ParsedEdit {
    Read(String, Parse),
    Refused(Refusal),
}

// Returns an error if the edit was refused because an allocation failed.
fn refuse_memory(error: EditError) -> Result<(), AllocError>
    ensures { IfOk result (λ _. is_memory error ≡ false) }
{
    match error {
        EditError::Memory => Err(AllocError),
        EditError::OutOfText | EditError::InsideCharacter | EditError::Overlap => Ok(()),
    }
}

// Returns the text with new bytes in place of those from `start` up to `end`, or `None` if the range is not in the text or not at character boundaries.
fn spliced(
    alloc: Global,
    text: &str,
    start: usize,
    end: usize,
    new: &str,
) -> Result<Option<String>, AllocError>
    ensures made { IfOk result (λ made. IfSome made (λ made. string_bytes made ≡ spliced text.now start end new.now)) }
    ensures none { IfOk result (λ made. IfNone made (¬ (IsInside text.now start end × IsBetween text.now start end))) }
{
    let mut edits = Edits::new(alloc, text);
    match edits.replace(start..end, new) {
        Ok(()) => Ok(Some(edits.apply(alloc)?)),
        Err(error) => {
            refuse_memory(error)?;
            Ok(None)
        }
    }
}

/// Replaces the bytes from `start` up to `end`, and parses the new text, which must have no errors.
pub fn read_spliced(
    alloc: Global,
    text: &str,
    start: usize,
    end: usize,
    new: &str,
) -> Result<ParsedEdit, AllocError>
    ensures read { IfOk result (IfRead (spliced text.now start end new.now)) }
    ensures refused { IfOk result (IfNotRead (λ refusal. IsNotParsed refusal text.now start end new.now)) }
{
    let Some(made) = spliced(alloc, text, start, end, new)? else {
        return Ok(ParsedEdit::Refused(Refusal::NotInText));
    };
    let read = Root::parse(alloc, made.as_str())?;
    if read.errors().is_empty() {
        Ok(ParsedEdit::Read(made, read))
    } else {
        Ok(ParsedEdit::Refused(Refusal::HasErrors))
    }
}
