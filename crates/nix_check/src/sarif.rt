//! Diagnostics in SARIF 2.1.0, the format in which code hosts read the results of checkers: one run for all files.

ghost use Rattle.std.specs.Prelude.{◌≡◌, ◌<◌, ◌++◌, map, OnOk};
ghost use Rattle.std.specs.List.{flat_map};
ghost use Rattle.std.specs.Io.KnownBytes.{Appends};
ghost use Rattle.nix_cli.specs.MessageLocations.{IsIndexed};
ghost use Rattle.nix_check.specs.Listed.{comma_joined};
ghost use Rattle.nix_check.specs.AsSarif.{rule_object, sarif_head, bool_text, sarif_tail, is_unreserved, uri_byte, uri, region, location, message_object, related_location, rule_members, sarif_result, separator};

use crate::json::write_comma;
use nix_cli::{Source, VERSION, write_json_string};
use nix_diagnostics::{CODES, Code, Diagnostic, Note};
use nix_lints::upper_digit;
use rnix::TextRange;
use std::io::{self, Write};

// The beginning of the file, up to the program's name.
const HEAD: &[u8] =
    b"{\"$schema\":\"https://json.schemastore.org/sarif-2.1.0.json\",\"version\":\"2.1.0\",\"runs\":[{\"tool\":{\"driver\":{\"name\":";
// The part after the rules, up to the first result.
const RESULTS: &[u8] = b"]}},\"columnKind\":\"unicodeCodePoints\",\"results\":[";

// Writes a rule: the name of a code, its severity and its title.
fn write_rule_of<W: Write>(code: Code, out: &mut W) -> io::Result<()>
    ensures { OnOk result (Appends (W.contents out.old) (W.contents out.new) (rule_object code)) }
{
    let rule = code.rule();
    let severity = code.severity();
    let level = severity.name();
    let (name, title) = (rule.name, rule.title);
    write!(
        out,
        "{{\"id\":\"{name}\",\"shortDescription\":{{\"text\":\"{title}\"}},\"defaultConfiguration\":{{\"level\":\"{level}\"}}}}"
    )
}

// Writes the rules, one for each code.
fn write_rules<W: Write>(all: &[Code], out: &mut W) -> io::Result<()>
    ensures { OnOk result (Appends (W.contents out.old) (W.contents out.new) (comma_joined (map rule_object all.now))) }
{
    for number in 0..all.len() {
        write_comma(number, out)?;
        write_rule_of(all[number], out)?;
    }
    Ok(())
}

/// Writes what precedes the first result.
pub fn write_head<W: Write>(program: &str, out: &mut W) -> io::Result<()>
    ensures { OnOk result (Appends (W.contents out.old) (W.contents out.new) (sarif_head program.now VERSION.now)) }
{
    out.write_all(HEAD)?;
    write_json_string(program, out)?;
    out.write_all(b",\"version\":")?;
    write_json_string(VERSION, out)?;
    out.write_all(b",\"rules\":[")?;
    write_rules(&CODES, out)?;
    out.write_all(RESULTS)
}

// Writes `true` or `false`.
fn write_bool<W: Write>(is_true: bool, out: &mut W) -> io::Result<()>
    ensures { OnOk result (Appends (W.contents out.old) (W.contents out.new) (bool_text is_true)) }
{
    out.write_all(if is_true { b"true" } else { b"false" })
}

/// Writes what follows the last result, and whether all files were read.
pub fn write_tail<W: Write>(is_complete: bool, out: &mut W) -> io::Result<()>
    ensures { OnOk result (Appends (W.contents out.old) (W.contents out.new) (sarif_tail is_complete)) }
{
    out.write_all(b"\n],\"invocations\":[{\"executionSuccessful\":")?;
    write_bool(is_complete, out)?;
    out.write_all(b"}]}]}\n")
}

// Returns whether a byte needs no escape in a URI.
fn is_unreserved(byte: u8) -> bool
    ensures { result ≡ is_unreserved byte }
{
    byte.is_ascii_alphanumeric() || matches!(byte, b'/' | b'.' | b'-' | b'_' | b'~')
}

// Writes a byte of a URI, percent-encoded if necessary.
fn write_uri_byte<W: Write>(byte: u8, out: &mut W) -> io::Result<()>
    ensures { OnOk result (Appends (W.contents out.old) (W.contents out.new) (uri_byte byte)) }
{
    if is_unreserved(byte) {
        out.write_all(&[byte])
    } else {
        out.write_all(&[b'%', upper_digit(byte / 16), upper_digit(byte % 16)])
    }
}

// Writes bytes of a URI, percent-encoded where necessary.
fn write_uri_bytes<W: Write>(bytes: &[u8], out: &mut W) -> io::Result<()>
    ensures { OnOk result (Appends (W.contents out.old) (W.contents out.new) (flat_map uri_byte bytes.now)) }
{
    for byte in bytes {
        write_uri_byte(*byte, out)?;
    }
    Ok(())
}

// Writes the name of a file as a URI: bytes other than ASCII letters, digits and `/.-_~` are percent-encoded.
fn write_uri<W: Write>(name: &str, out: &mut W) -> io::Result<()>
    ensures { OnOk result (Appends (W.contents out.old) (W.contents out.new) (uri name.now)) }
{
    out.write_all(b"\"")?;
    write_uri_bytes(name.as_bytes(), out)?;
    out.write_all(b"\"")
}

// Writes the bounds of a region as lines and columns from 1.
fn write_region<W: Write>(start: (usize, usize), end: (usize, usize), out: &mut W) -> io::Result<()>
    ensures { OnOk result (Appends (W.contents out.old) (W.contents out.new) (region start end)) }
{
    let (line, column) = start;
    let (end_line, end_column) = end;
    write!(
        out,
        "\"startLine\":{line},\"startColumn\":{column},\"endLine\":{end_line},\"endColumn\":{end_column}}}}}"
    )
}

// Writes the file and the region of a range.
fn write_location<W: Write>(source: &Source<'_>, range: TextRange, out: &mut W) -> io::Result<()>
    requires { IsIndexed source.now }
    ensures { OnOk result (Appends (W.contents out.old) (W.contents out.new) (location source.now.name.now source.now.text.now range)) }
{
    let start = source.position(range.start());
    let end = source.position(range.end());
    out.write_all(b"\"physicalLocation\":{\"artifactLocation\":{\"uri\":")?;
    write_uri(source.name, out)?;
    out.write_all(b"},\"region\":{")?;
    write_region(start, end, out)
}

// Writes a message.
fn write_message<W: Write>(message: &str, out: &mut W) -> io::Result<()>
    ensures { OnOk result (Appends (W.contents out.old) (W.contents out.new) (message_object message.now)) }
{
    out.write_all(b"\"message\":{\"text\":")?;
    write_json_string(message, out)?;
    out.write_all(b"}")
}

// Writes a note of a diagnostic at a range as a related location.
fn write_related<W: Write>(
    source: &Source<'_>,
    range: TextRange,
    note: Note,
    out: &mut W,
) -> io::Result<()>
    requires { IsIndexed source.now }
    ensures { OnOk result
        (Appends (W.contents out.old) (W.contents out.new) (related_location source.now.name.now source.now.text.now range note)) }
{
    out.write_all(b"{")?;
    write_location(source, note.range.unwrap_or(range), out)?;
    out.write_all(b",")?;
    write_message(note.message, out)?;
    out.write_all(b"}")
}

// Writes the notes of a diagnostic at a range as related locations.
fn write_all_related<W: Write>(
    source: &Source<'_>,
    range: TextRange,
    notes: &[Note],
    out: &mut W,
) -> io::Result<()>
    requires { IsIndexed source.now }
    ensures { OnOk result (Appends (W.contents out.old) (W.contents out.new)
        (comma_joined (map (related_location source.now.name.now source.now.text.now range) notes.now))) }
{
    for number in 0..notes.len() {
        write_comma(number, out)?;
        write_related(source, range, notes[number], out)?;
    }
    Ok(())
}

// Writes the separator before a result.
fn write_separator<W: Write>(is_first: bool, out: &mut W) -> io::Result<()>
    ensures { OnOk result (Appends (W.contents out.old) (W.contents out.new) (separator is_first)) }
{
    out.write_all(if is_first { b"\n" } else { b",\n" })
}

// Writes the code and the severity of a result.
fn write_rule<W: Write>(code: Code, out: &mut W) -> io::Result<()>
    ensures { OnOk result (Appends (W.contents out.old) (W.contents out.new) (rule_members code)) }
{
    let severity = code.severity();
    let level = severity.name();
    let name = code.name();
    write!(out, "{{\"ruleId\":\"{name}\",\"level\":\"{level}\",")
}

// Writes a diagnostic as a result, with its notes as related locations.
fn write_result<W: Write>(
    source: &Source<'_>,
    diagnostic: &Diagnostic,
    out: &mut W,
) -> io::Result<()>
    requires { IsIndexed source.now }
    ensures { OnOk result (Appends (W.contents out.old) (W.contents out.new) (sarif_result source.now.name.now source.now.text.now diagnostic.now)) }
{
    write_rule(diagnostic.code, out)?;
    write_message(diagnostic.message.as_str(), out)?;
    out.write_all(b",\"locations\":[{")?;
    write_location(source, diagnostic.range, out)?;
    out.write_all(b"}],\"relatedLocations\":[")?;
    write_all_related(source, diagnostic.range, &diagnostic.notes, out)?;
    out.write_all(b"]}")
}

/// Writes a separator, and a diagnostic as a result, with its notes as related locations.
pub fn write_separated<W: Write>(
    source: &Source<'_>,
    diagnostic: &Diagnostic,
    is_first: bool,
    out: &mut W,
) -> io::Result<()>
    requires { IsIndexed source.now }
    ensures { OnOk result (Appends (W.contents out.old) (W.contents out.new)
        (separator is_first ++ sarif_result source.now.name.now source.now.text.now diagnostic.now)) }
{
    write_separator(is_first, out)?;
    write_result(source, diagnostic, out)
}
