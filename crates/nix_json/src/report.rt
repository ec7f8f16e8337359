//! Messages about a text, with the location and the line.

ghost use Rattle.nix_cli.specs.MessageLocations.{IsIndexed};

use nix_cli::{Source, display_name, write_excerpt, write_source_location};
use nix_data::NoData;
use nix_diagnostics::{Diagnostic, first_diagnostics};
use rnix::{Parse, TextRange};
use rnix_text::{ColumnUnit, LineIndex};
use std::io::{self, BufWriter, Write};

// The largest number of errors that are printed.
const LIMIT: usize = 20;

// Prints a message with its location, and the line with carets.
fn write_message<W: Write>(
    source: &Source<'_>,
    range: TextRange,
    kind: &str,
    message: &str,
    out: &mut W,
) -> io::Result<()>
    requires { IsIndexed source.now }
{
    write_source_location(source, range.start(), out)?;
    writeln!(out, "{kind}: {message}")?;
    write_excerpt(source.text, range.start()..range.end(), out)
}

// Prints an error of a text, with its notes.
fn write_diagnostic<W: Write>(
    source: &Source<'_>,
    diagnostic: &Diagnostic,
    out: &mut W,
) -> io::Result<()>
    requires { IsIndexed source.now }
{
    write_message(
        source,
        diagnostic.range,
        "error",
        diagnostic.message.as_str(),
        out,
    )?;
    for note in &diagnostic.notes {
        match note.range {
            Some(range) => write_message(source, range, "note", note.message, out)?,
            None => writeln!(out, "  help: {}", note.message)?,
        }
    }
    Ok(())
}

/// Prints the errors of a text.
pub fn report_errors(rt: &HostRuntime, name: &str, text: &str, parse: &Parse) -> io::Result<()> {
    let index = LineIndex::new(rt.alloc(), text, ColumnUnit::Chars)?;
    let source = Source {
        name: display_name(name),
        text,
        index: &index,
    };
    let mut out = BufWriter::new(rt.alloc(), rt.stderr())?;
    for diagnostic in &first_diagnostics(rt.alloc(), parse, LIMIT)? {
        write_diagnostic(&source, diagnostic, &mut out)?;
    }
    out.flush()
}

/// Prints why a part of a text is not data.
pub fn report_no_data(rt: &HostRuntime, name: &str, text: &str, reason: NoData) -> io::Result<()> {
    let index = LineIndex::new(rt.alloc(), text, ColumnUnit::Chars)?;
    let source = Source {
        name: display_name(name),
        text,
        index: &index,
    };
    let mut out = BufWriter::new(rt.alloc(), rt.stderr())?;
    write_message(
        &source,
        reason.range,
        "error",
        reason.reason.text(),
        &mut out,
    )?;
    if let Some(first) = reason.first {
        write_message(&source, first, "note", "it is first defined here", &mut out)?;
    }
    out.flush()
}
