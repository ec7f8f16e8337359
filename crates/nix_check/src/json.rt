//! Diagnostics as lines of JSON.

ghost use Rattle.std.specs.Prelude.{map, OnOk};
ghost use Rattle.std.specs.Io.KnownBytes.{Appends};
ghost use Rattle.nix_cli.specs.MessageLocations.{IsIndexed};
ghost use Rattle.nix_check.specs.Listed.{comma, comma_joined};
ghost use Rattle.nix_check.specs.AsJson.{message_members, note_object, errors_member, json_line};

use nix_cli::{Source, write_json_string};
use nix_diagnostics::{Code, Diagnostic, Note};
use rnix::TextRange;
use std::io::{self, Write};

/// Writes a comma before a value, if others precede it.
pub fn write_comma<W: Write>(number: usize, out: &mut W) -> io::Result<()>
    ensures { OnOk result (Appends (W.contents out.old) (W.contents out.new) (comma number)) }
{
    out.write_all(if number == 0 { b"" } else { b"," })
}

// Writes a range and a message: the line and the column in characters, both from 1, and the bounds in bytes from 0.
fn write_message<W: Write>(
    source: &Source<'_>,
    range: TextRange,
    message: &str,
    out: &mut W,
) -> io::Result<()>
    requires { IsIndexed source.now }
    ensures { OnOk result (Appends (W.contents out.old) (W.contents out.new) (message_members source.now.text.now range message.now)) }
{
    let (line, column) = source.position(range.start());
    let (start, end) = (range.start(), range.end());
    write!(
        out,
        "\"line\":{line},\"column\":{column},\"start\":{start},\"end\":{end},\"message\":"
    )?;
    write_json_string(message, out)
}

// Writes a note of a diagnostic at a range.
fn write_note<W: Write>(
    source: &Source<'_>,
    range: TextRange,
    note: Note,
    out: &mut W,
) -> io::Result<()>
    requires { IsIndexed source.now }
    ensures { OnOk result (Appends (W.contents out.old) (W.contents out.new) (note_object source.now.text.now range note)) }
{
    out.write_all(b"{")?;
    write_message(source, note.range.unwrap_or(range), note.message, out)?;
    out.write_all(b"}")
}

// Writes the notes of a diagnostic at a range.
fn write_notes<W: Write>(
    source: &Source<'_>,
    range: TextRange,
    notes: &[Note],
    out: &mut W,
) -> io::Result<()>
    requires { IsIndexed source.now }
    ensures { OnOk result
        (Appends (W.contents out.old) (W.contents out.new) (comma_joined (map (note_object source.now.text.now range) notes.now))) }
{
    for number in 0..notes.len() {
        write_comma(number, out)?;
        write_note(source, range, notes[number], out)?;
    }
    Ok(())
}

// Writes the code and the severity of a diagnostic and the number of its errors, before its notes.
fn write_errors<W: Write>(code: Code, errors: usize, out: &mut W) -> io::Result<()>
    ensures { OnOk result (Appends (W.contents out.old) (W.contents out.new) (errors_member code errors)) }
{
    let severity = code.severity();
    let level = severity.name();
    let name = code.name();
    write!(
        out,
        ",\"severity\":\"{level}\",\"code\":\"{name}\",\"errors\":{errors},\"notes\":["
    )
}

/// Writes a diagnostic as a line of JSON.
pub fn write_json<W: Write>(
    source: &Source<'_>,
    diagnostic: &Diagnostic,
    out: &mut W,
) -> io::Result<()>
    requires { IsIndexed source.now }
    ensures { OnOk result (Appends (W.contents out.old) (W.contents out.new) (json_line source.now.name.now source.now.text.now diagnostic.now)) }
{
    let errors = diagnostic.end_error.saturating_sub(diagnostic.first_error);
    out.write_all(b"{\"file\":")?;
    write_json_string(source.name, out)?;
    out.write_all(b",")?;
    write_message(source, diagnostic.range, diagnostic.message.as_str(), out)?;
    write_errors(diagnostic.code, errors, out)?;
    write_notes(source, diagnostic.range, &diagnostic.notes, out)?;
    out.write_all(b"]}\n")
}
