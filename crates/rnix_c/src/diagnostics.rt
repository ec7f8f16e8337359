//! What is said about a text in words for people: its errors, or what the lints find.

ghost use Rattle.std.specs.Prelude.{◌≡◌, ◌++◌, ℕ, List, drop, take, fold, length, IfOk, OnOk, string_bytes};
ghost use Rattle.nix_diagnostics.specs.Codes.{severity_of};
ghost use Rattle.nix_diagnostics.specs.declared.diagnostic.Diagnostic.{Diagnostic as Worded};
ghost use Rattle.rnix_c.specs.Answers.{filled, Answers};
ghost use Rattle.rnix_c.specs.Diagnostics.{bytes_between, severity_number, note_start, note_end, replaced_start, replaced_end, with_proposed};
ghost use Rattle.rnix_c.specs.Diagnostics.{said, with_note, with_diagnostic, said_of, AreShown, WritesSaid, WritesDiagnostics};

use crate::answers::{NO_MEMORY, NO_NUMBER, fill, parse_of};
use nix_diagnostics::{Code, Diagnostic, Note, Replacement, Severity};
use nix_lints::Reported;
use rnix::{Parse, TextRange};
use std::alloc::{AllocError, Global};

/// The severity of what Nix refuses.
const ERROR: u32 = 1;

/// The severity of what is probably a mistake.
const WARNING: u32 = 2;

/// A diagnostic: a range of the text, the range of its message in the concatenated texts, the number after its last note, its code and its severity.
#[repr(C)]
#[derive(Clone, Copy)]
pub struct RnixDiagnostic {
    pub start: u64,
    pub end: u64,
    pub message_start: u64,
    pub message_end: u64,
    pub note_end: u64,
    pub code: u32,
    pub severity: u32,
}

/// A note: a range of the text, the range of its message in the concatenated texts, and what it proposes: a range of the text, and the range in the
/// concatenated texts of what to write there.
#[repr(C)]
#[derive(Clone, Copy)]
pub struct RnixNote {
    pub start: u64,
    pub end: u64,
    pub message_start: u64,
    pub message_end: u64,
    pub replaced_start: u64,
    pub replaced_end: u64,
    pub text_start: u64,
    pub text_end: u64,
}

/// Diagnostics and their notes as they are written for C, and the concatenated texts of both.
#[derive(Drop)]
pub struct Said {
    pub records: Vec<RnixDiagnostic>,
    pub notes: Vec<RnixNote>,
    pub texts: Vec<u8>,
}

// Returns the bytes of a range, as far as the text goes.
fn bytes_between(text: &[u8], range: TextRange) -> &[u8]
    ensures { result.now ≡ bytes_between range.start range.end text.now }
{
    if range.start() >= text.len() {
        return &[];
    }
    let rest = &text[range.start()..];
    let count = range.end().saturating_sub(range.start());
    if count >= rest.len() {
        return rest;
    }
    &rest[..count]
}

// Adds the text that a note proposes, if it proposes one.
fn add_proposed(
    text: &[u8],
    replacement: &Option<Replacement>,
    texts: &mut Vec<u8>,
) -> Result<(), AllocError>
    ensures { OnOk result (texts.new.items ≡ with_proposed text.now replacement.now texts.old.items) }
{
    if let Some(replacement) = replacement {
        texts.extend_from_slice(replacement.before.as_bytes())?;
        texts.extend_from_slice(bytes_between(text, replacement.kept))?;
        texts.extend_from_slice(replacement.after.as_bytes())?;
    }
    Ok(())
}

// Returns the start of the range of a note, if it has one.
fn note_start(note: &Note) -> u64
    ensures { result ≡ note_start note.now }
{
    match note.range {
        Some(range) => range.start() as u64,
        None => NO_NUMBER,
    }
}

// Returns the end of the range of a note, if it has one.
fn note_end(note: &Note) -> u64
    ensures { result ≡ note_end note.now }
{
    match note.range {
        Some(range) => range.end() as u64,
        None => NO_NUMBER,
    }
}

// Returns the start of the range that a note would replace, if it proposes that.
fn replaced_start(note: &Note) -> u64
    ensures { result ≡ replaced_start note.now }
{
    match note.replacement {
        Some(replacement) => replacement.range.start() as u64,
        None => NO_NUMBER,
    }
}

// Returns the end of the range that a note would replace, if it proposes that.
fn replaced_end(note: &Note) -> u64
    ensures { result ≡ replaced_end note.now }
{
    match note.replacement {
        Some(replacement) => replacement.range.end() as u64,
        None => NO_NUMBER,
    }
}

// Adds a note, its message and what it proposes.
fn add_note(
    text: &[u8],
    note: &Note,
    notes: &mut Vec<RnixNote>,
    texts: &mut Vec<u8>,
) -> Result<(), AllocError>
    ensures { OnOk result ((records : List RnixDiagnostic) → said records notes.new.items texts.new.items
        ≡ with_note text.now (said records notes.old.items texts.old.items) note.now) }
{
    let message_start = texts.len() as u64;
    texts.extend_from_slice(note.message.as_bytes())?;
    let message_end = texts.len() as u64;
    add_proposed(text, &note.replacement, texts)?;
    notes.push(RnixNote {
        start: note_start(note),
        end: note_end(note),
        message_start,
        message_end,
        replaced_start: replaced_start(note),
        replaced_end: replaced_end(note),
        text_start: message_end,
        text_end: texts.len() as u64,
    })?;
    Ok(())
}

// Adds the notes on a diagnostic.
fn add_notes(
    text: &[u8],
    added: &[Note],
    notes: &mut Vec<RnixNote>,
    texts: &mut Vec<u8>,
) -> Result<(), AllocError>
    ensures { OnOk result ((records : List RnixDiagnostic) → said records notes.new.items texts.new.items
        ≡ fold (with_note text.now) (said records notes.old.items texts.old.items) added.now) }
{
    for note in added {
        add_note(text, note, notes, texts)?;
    }
    Ok(())
}

// Returns the number of the severity of a code.
fn severity_number(code: Code) -> u32
    ensures { result ≡ severity_number (severity_of code) }
{
    match code.severity() {
        Severity::Error => ERROR,
        Severity::Warning => WARNING,
    }
}

// Adds a diagnostic, its message and its notes.
fn add(text: &[u8], diagnostic: &Diagnostic, made: &mut Said) -> Result<(), AllocError>
    ensures { OnOk result (said made.new.records.items made.new.notes.items made.new.texts.items
        ≡ with_diagnostic text.now (said made.old.records.items made.old.notes.items made.old.texts.items) diagnostic.now) }
{
    let message_start = made.texts.len() as u64;
    made.texts.extend_from_slice(diagnostic.message.as_bytes())?;
    let message_end = made.texts.len() as u64;
    add_notes(text, &diagnostic.notes, &mut made.notes, &mut made.texts)?;
    made.records.push(RnixDiagnostic {
        start: diagnostic.range.start() as u64,
        end: diagnostic.range.end() as u64,
        message_start,
        message_end,
        note_end: made.notes.len() as u64,
        code: diagnostic.code as u32,
        severity: severity_number(diagnostic.code),
    })?;
    Ok(())
}

// Returns what is written for diagnostics of a text.
fn said_of(alloc: Global, text: &[u8], diagnostics: &[Diagnostic]) -> Result<Said, AllocError>
    ensures { IfOk result (λ made. said made.records.items made.notes.items made.texts.items ≡ said_of text.now diagnostics.now) }
{
    let mut made = Said {
        records: Vec::new(alloc),
        notes: Vec::new(alloc),
        texts: Vec::new(alloc),
    };
    for diagnostic in diagnostics {
        add(text, diagnostic, &mut made)?;
    }
    Ok(made)
}

/// Returns what is written for the diagnostics of a text, given its parse.
pub fn described(alloc: Global, text: &[u8], read: &Parse) -> Result<Said, AllocError>
    ensures { IfOk result (λ made. (all : List Worded) × AreShown read.now.tree read.now.faults all
        × (said made.records.items made.notes.items made.texts.items ≡ said_of text.now all)) }
{
    let mut reported = Reported::new(alloc, read, false, &[])?;
    let all = reported.diagnostics(alloc)?;
    let made = said_of(alloc, text, &all)?;
    Ok(made)
}

/// Writes as many diagnostics, notes and bytes of texts as fit into the arrays, and the numbers of notes and bytes.
pub fn write_said(
    made: &Said,
    room: &mut [RnixDiagnostic],
    notes: &mut [RnixNote],
    note_count: &mut u64,
    buffer: &mut [u8],
    buffer_len: &mut u64,
)
    ensures { WritesSaid (said made.now.records.items made.now.notes.items made.now.texts.items)
        room.old room.new notes.old notes.new note_count.new buffer.old buffer.new buffer_len.new }
{
    fill(&made.records, room);
    fill(&made.notes, notes);
    fill(&made.texts, buffer);
    *note_count = made.notes.len() as u64;
    *buffer_len = made.texts.len() as u64;
}

/// Writes the diagnostics of a text, their notes, the texts of both, and the numbers of notes and of bytes. Returns the number of diagnostics.
#[unsafe(no_mangle)]
pub extern "C" fn rnix_diagnostics(
    alloc: Global,
    text: &[u8],
    room: &mut [RnixDiagnostic],
    notes: &mut [RnixNote],
    note_count: &mut u64,
    buffer: &mut [u8],
    buffer_len: &mut u64,
) -> i64
    ensures { Answers text.now result ((room.new ≡ room.old) × (notes.new ≡ notes.old) × (note_count.new ≡ note_count.old)
        × (buffer.new ≡ buffer.old) × (buffer_len.new ≡ buffer_len.old))
        (λ tree faults. WritesDiagnostics text.now tree faults result
        room.old room.new notes.old notes.new note_count.new buffer.old buffer.new buffer_len.new) }
{
    let read = match parse_of(alloc, text) {
        Ok(read) => read,
        Err(answer) => return answer,
    };
    match described(alloc, text, &read) {
        Ok(made) => {
            write_said(&made, room, notes, note_count, buffer, buffer_len);
            made.records.len() as i64
        }
        Err(_) => NO_MEMORY,
    }
}
