//! Diagnostics as text for people to read.

ghost use Rattle.std.specs.Prelude.{OnOk};
ghost use Rattle.std.specs.Io.KnownBytes.{Appends};
ghost use Rattle.nix_cli.specs.MessageLocations.{IsIndexed};
ghost use Rattle.nix_check.specs.AsText.{word_text, message_text, severity_text, help_text, IsLocatedText, IsNoteText, AreNoteTexts, IsText};
ghost use Rattle.nix_check.specs.Listed.{Prints};

use nix_cli::{Source, write_excerpt, write_source_location};
use nix_diagnostics::{Diagnostic, Note, Severity};
use rnix::TextRange;
use std::io::{self, Write};

// Writes a word, in bold and a color if the text is colored.
fn write_word<W: Write>(word: &str, color: &str, is_colored: bool, out: &mut W) -> io::Result<()>
    ensures { OnOk result (Appends (W.contents out.old) (W.contents out.new) (word_text is_colored color.now word.now)) }
{
    if is_colored {
        write!(out, "\x1b[1;{color}m{word}\x1b[0m")
    } else {
        out.write_all(word.as_bytes())
    }
}

// Writes a kind of message, and the message.
fn write_message<W: Write>(
    kind: &str,
    color: &str,
    message: &str,
    is_colored: bool,
    out: &mut W,
) -> io::Result<()>
    ensures { OnOk result (Appends (W.contents out.old) (W.contents out.new) (message_text is_colored color.now kind.now message.now)) }
{
    write_word(kind, color, is_colored, out)?;
    writeln!(out, " {message}")
}

// Writes a note without a location.
fn write_help<W: Write>(message: &str, is_colored: bool, out: &mut W) -> io::Result<()>
    ensures { OnOk result (Appends (W.contents out.old) (W.contents out.new) (help_text is_colored message.now)) }
{
    out.write_all(b"  ")?;
    write_message("help:", "36", message, is_colored, out)
}

// Writes a note with a location: the location, the message, the line and carets.
fn write_located<W: Write>(
    source: &Source<'_>,
    range: TextRange,
    message: &str,
    is_colored: bool,
    out: &mut W,
) -> io::Result<()>
    requires { IsIndexed source.now }
    ensures { OnOk result (Prints (IsLocatedText is_colored source.now.name.now source.now.text.now range.start message.now)
        (W.contents out.old) (W.contents out.new)) }
{
    write_source_location(source, range.start(), out)?;
    write_message("note:", "36", message, is_colored, out)?;
    write_excerpt(source.text, range.start()..range.end(), out)
}

// Writes a note.
fn write_note<W: Write>(
    source: &Source<'_>,
    note: Note,
    is_colored: bool,
    out: &mut W,
) -> io::Result<()>
    requires { IsIndexed source.now }
    ensures { OnOk result (Prints (IsNoteText is_colored source.now.name.now source.now.text.now note) (W.contents out.old) (W.contents out.new)) }
{
    match note.range {
        None => write_help(note.message, is_colored, out),
        Some(range) => write_located(source, range, note.message, is_colored, out),
    }
}

// Writes notes.
fn write_notes<W: Write>(
    source: &Source<'_>,
    notes: &[Note],
    is_colored: bool,
    out: &mut W,
) -> io::Result<()>
    requires { IsIndexed source.now }
    ensures { OnOk result
        (Prints (AreNoteTexts is_colored source.now.name.now source.now.text.now notes.now) (W.contents out.old) (W.contents out.new)) }
{
    for note in notes {
        write_note(source, *note, is_colored, out)?;
    }
    Ok(())
}

// Writes the name of a severity in its color, and a message.
fn write_severe<W: Write>(
    severity: Severity,
    message: &str,
    is_colored: bool,
    out: &mut W,
) -> io::Result<()>
    ensures { OnOk result (Appends (W.contents out.old) (W.contents out.new) (severity_text is_colored severity message.now)) }
{
    match severity {
        Severity::Error => write_message("error:", "31", message, is_colored, out),
        Severity::Warning => write_message("warning:", "33", message, is_colored, out),
    }
}

// Returns where the carets of a diagnostic end: with its range, or with what a note proposes to replace at the beginning of the range.
fn marked_end(diagnostic: &Diagnostic) -> usize {
    let range = diagnostic.range;
    for note in &diagnostic.notes {
        if let (None, Some(replacement)) = (note.range, note.replacement) {
            let replaced = replacement.range;
            if replaced.start() == range.start() && !replaced.is_empty() {
                return replaced.end().min(range.end());
            }
        }
    }
    range.end()
}

/// Writes a diagnostic: its location, message, line with carets, and notes.
pub fn write_text<W: Write>(
    source: &Source<'_>,
    diagnostic: &Diagnostic,
    is_colored: bool,
    out: &mut W,
) -> io::Result<()>
    requires { IsIndexed source.now }
    ensures { OnOk result
        (Prints (IsText is_colored source.now.name.now source.now.text.now diagnostic.now) (W.contents out.old) (W.contents out.new)) }
{
    let (start, end) = (diagnostic.range.start(), marked_end(diagnostic));
    write_source_location(source, start, out)?;
    let severity = diagnostic.code.severity();
    write_severe(severity, diagnostic.message.as_str(), is_colored, out)?;
    write_excerpt(source.text, start..end, out)?;
    write_notes(source, &diagnostic.notes, is_colored, out)
}
