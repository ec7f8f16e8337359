//! The report on files: their unused names.

ghost use Rattle.std.specs.Prelude.{◌≡◌, [], IfOk, OnOk, map, string_bytes};
ghost use Rattle.std.specs.List.{flat_map};
ghost use Rattle.std.specs.Io.KnownBytes.{Appends, Keeps};
ghost use Rattle.nix_cli.specs.MessageLocations.{IsIndexed};
ghost use Rattle.nix_cli.specs.Statuses.{first_status, AreProcessed};
ghost use Rattle.nix_dead.specs.Report.{name_line, name_object, name_output, AreReported, IsReported, IsFileReported};

use crate::command::COMMAND;
use crate::dead::{reported_names, start_of};
use crate::options::Options;
use nix_cli::{
    FAILED, FOUND, Files, Source, TextReader, display_name, location_of, refuse_after_output,
    write_json_string, write_shown, write_source_location,
};
use nix_lints::UnusedName;
use rnix::{Parse, Root, SyntaxNode};
use rnix_text::{ColumnUnit, LineIndex};
use std::alloc::Global;
use std::io::{self, Write};

// Writes the line of a name.
fn write_line<W: Write>(source: &Source<'_>, name: &UnusedName<'_>, out: &mut W) -> io::Result<()>
    requires { IsIndexed source.now }
    ensures { OnOk result (Appends (W.contents out.old) (W.contents out.new) (name_line source.now.name.now source.now.text.now name.now)) }
{
    write_source_location(source, start_of(name), out)?;
    write_shown(name.text.as_str(), out)?;
    out.write_all(b" is never used\n")
}

// Writes the line of a name as JSON.
fn write_object<W: Write>(source: &Source<'_>, name: &UnusedName<'_>, out: &mut W) -> io::Result<()>
    requires { IsIndexed source.now }
    ensures { OnOk result (Appends (W.contents out.old) (W.contents out.new) (name_object source.now.name.now source.now.text.now name.now)) }
{
    let start = start_of(name);
    let (line, column) = source.position(start);
    out.write_all(b"{\"file\":")?;
    write_json_string(source.name, out)?;
    write!(
        out,
        ",\"line\":{line},\"column\":{column},\"start\":{},\"name\":",
        start
    )?;
    write_json_string(name.text.as_str(), out)?;
    out.write_all(b"}\n")
}

// Writes the line of a name, as text or JSON.
#[tactic(auto, unfolding(crate::specs::Report::name_output))]
fn write_name<W: Write>(
    source: &Source<'_>,
    name: &UnusedName<'_>,
    is_json: bool,
    out: &mut W,
) -> io::Result<()>
    requires { IsIndexed source.now }
    ensures { OnOk result
        (Appends (W.contents out.old) (W.contents out.new) (name_output is_json source.now.name.now source.now.text.now name.now)) }
{
    if is_json {
        write_object(source, name, out)
    } else {
        write_line(source, name, out)
    }
}

// Writes a line for each name.
fn write_names<W: Write>(
    source: &Source<'_>,
    names: &[UnusedName<'_>],
    is_json: bool,
    out: &mut W,
) -> io::Result<()>
    requires { IsIndexed source.now }
    ensures { OnOk result
        (Appends (W.contents out.old) (W.contents out.new) (flat_map (name_output is_json source.now.name.now source.now.text.now) names.now)) }
{
    for name in names {
        write_name(source, name, is_json, out)?;
    }
    Ok(())
}

// Reports the first syntax error of a text.
fn refuse_text<W: Write>(
    rt: &HostRuntime,
    file: &str,
    text: &str,
    read: &Parse,
    out: &mut W,
) -> io::Result<()>
    ensures { Keeps (W.contents out.old) (W.contents out.new) }
{
    let range = read.errors().first().and_then(|error| error.range());
    let location = location_of(text, range.map_or(text.len(), |range| range.start()));
    refuse_after_output(rt, &COMMAND, file, location, "this is not Nix", out)
}

// Writes the unused names of a tree, and returns the exit status.
fn report_names<W: Write>(
    alloc: Global,
    file: &str,
    text: &str,
    root: &SyntaxNode<'_>,
    options: Options,
    out: &mut W,
) -> io::Result<u8>
    ensures { IfOk result (AreReported options file.now text.now root.now (W.contents out.old) (W.contents out.new)) }
{
    let names = reported_names(alloc, text, root, options)?;
    if names.is_empty() {
        return Ok(0);
    }
    let index = LineIndex::new(alloc, text, ColumnUnit::Chars)?;
    let source = Source {
        name: file,
        text,
        index: &index,
    };
    write_names(&source, &names, options.is_json, out)?;
    Ok(FOUND)
}

/// Writes the unused names of a text, and returns the exit status. A text with syntax errors is refused.
pub fn report<W: Write>(
    rt: &HostRuntime,
    file: &str,
    text: &str,
    options: Options,
    out: &mut W,
) -> io::Result<u8>
    ensures { IfOk result (IsReported options file.now text.now (W.contents out.old) (W.contents out.new)) }
{
    let read = Root::parse(rt.alloc(), text)?;
    if !read.errors().is_empty() {
        refuse_text(rt, file, text, &read, out)?;
        return Ok(FAILED);
    }
    report_names(rt.alloc(), file, text, &read.syntax(), options, out)
}

// Writes the unused names of a file, and returns the exit status. A file that cannot be read is reported.
fn report_file<R: TextReader, W: Write>(
    rt: &HostRuntime,
    reader: &R,
    file: &str,
    options: Options,
    out: &mut W,
) -> io::Result<u8>
    ensures { IfOk result (IsFileReported options (R.texts reader.now) file.now (W.contents out.old) (W.contents out.new)) }
{
    match reader.read_text(rt, &COMMAND, file, out)? {
        Some(text) => report(rt, display_name(file), text.as_str(), options, out),
        None => Ok(FAILED),
    }
}

/// Writes the unused names of the files, and returns the highest exit status.
pub fn report_files<R: TextReader, W: Write>(
    rt: &HostRuntime,
    reader: &R,
    files: &Files,
    options: Options,
    out: &mut W,
) -> io::Result<u8>
    ensures { IfOk result (λ status. AreProcessed (IsFileReported options (R.texts reader.now)) (first_status files.now.failed)
        (W.contents out.old) (map string_bytes files.now.names.items) (W.contents out.new) status) }
{
    let mut status = files.status();
    for number in 0..files.names.len() {
        let file = files.names[number].as_str();
        let own = report_file(rt, reader, file, options, out)?;
        status = status.max(own);
    }
    Ok(status)
}
