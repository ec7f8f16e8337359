//! Findings in words.

ghost use Rattle.std.specs.Prelude.{◌≡◌, ◌<◌, ◌%◌, ◌++◌, ◌∷◌, [], map, string_bytes, IfOk, OnOk};
ghost use Rattle.std.specs.Option.{option_to_list};
ghost use Rattle.nix_diagnostics.specs.Codes.{rule_of};
ghost use Rattle.nix_lints.specs.Found.{found_of, about_of};
ghost use Rattle.nix_lints.specs.Words.{upper_digit, space_message, message_about, note_of, note_with, ranges_about, said_of, said};

use crate::finding::{Finding, Reason};
use nix_diagnostics::{Code, Diagnostic, Note};
use std::alloc::{AllocError, Global};

/// Returns the hexadecimal digit of a number below 16.
pub fn upper_digit(number: u8) -> u8
    ensures { number < 16 → result ≡ upper_digit number }
{
    if number < 10 {
        b'0' + number
    } else {
        b'7'.wrapping_add(number)
    }
}

// Adds the last hexadecimal digit of a number.
fn push_digit(number: u32, text: &mut String) -> Result<(), AllocError>
    ensures { OnOk result (string_bytes text.new ≡ string_bytes text.old ++ upper_digit (number % 16) ∷ []) }
{
    text.push(char::from(upper_digit((number % 16) as u8)))
}

// Returns the message on a character that Nix does not read as white space.
fn space_message(alloc: Global, character: char) -> Result<String, AllocError>
    ensures { IfOk result (λ text. string_bytes text ≡ space_message character) }
{
    let number = u32::from(character);
    let mut text = String::from_str(alloc, "Nix does not read U+")?;
    push_digit(number / 4096, &mut text)?;
    push_digit(number / 256, &mut text)?;
    push_digit(number / 16, &mut text)?;
    push_digit(number, &mut text)?;
    text.push_str(" as white space")?;
    Ok(text)
}

// Returns the message on a finding.
fn message(alloc: Global, code: Code, reason: Reason) -> Result<String, AllocError>
    ensures { IfOk result (λ text. string_bytes text ≡ message_about code (about_of reason)) }
{
    match reason {
        Reason::Code | Reason::Place(_) => String::from_str(alloc, code.rule().message),
        Reason::Character(character) => space_message(alloc, character),
    }
}

// Returns the note on a finding, if its code has one.
fn note(finding: &Finding) -> Option<Note>
    ensures { map note_of (option_to_list result) ≡ note_with (rule_of finding.now.code).note (ranges_about (about_of finding.now.reason)) }
{
    let message = finding.code.rule().note;
    if message.is_empty() {
        return None;
    }
    let range = match finding.reason {
        Reason::Place(range) => Some(range),
        Reason::Code | Reason::Character(_) => None,
    };
    Some(Note {
        range,
        message,
        replacement: finding.replacement,
    })
}

/// Returns a finding in words. The diagnostic covers no syntax errors.
pub fn diagnostic(alloc: Global, finding: &Finding) -> Result<Diagnostic, AllocError>
    ensures { IfOk result (λ d. said_of d ≡ said (found_of finding.now)) }
{
    let mut notes = Vec::new(alloc);
    if let Some(note) = note(finding) {
        notes.push(note)?;
    }
    Ok(Diagnostic {
        code: finding.code,
        range: finding.range,
        message: message(alloc, finding.code, finding.reason)?,
        first_error: 0,
        end_error: 0,
        notes,
    })
}
