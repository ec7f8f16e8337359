//! The report on files: their errors, the counts, and the exit status.

ghost use Rattle.std.specs.Prelude.{◌≡◌, map, string_bytes, IfOk, OnOk};
ghost use Rattle.std.specs.Io.KnownBytes.{Appends};
ghost use Rattle.nix_check.specs.ErrorReport.{counted, numbers_text, among, found_in, clean_line, count_line, report_head, report_tail, IsTextCounted, IsFileCounted, AreChecked, IsReport};

use crate::check::check_text;
use crate::command::COMMAND;
use crate::sarif::{write_head, write_tail};
use crate::style::{Format, Style};
use crate::tally::Tally;
use nix_cli::{Files, Progress, TextReader, display_name};
use std::alloc::Global;
use std::io::{self, Write};

// Checks a text, and returns the counts with its errors and warnings.
fn count_text<W: Write>(
    alloc: Global,
    name: &str,
    text: &str,
    style: Style<'_>,
    tally: Tally,
    out: &mut W,
) -> io::Result<Tally>
    ensures { IfOk result (IsTextCounted style.entry name.now text.now tally (W.contents out.old) (W.contents out.new)) }
{
    let counts = check_text(alloc, name, text, style, tally.found(), out)?;
    Ok(tally.with_counts(counts))
}

// Checks a file, and returns the counts with its errors, or with the file if it cannot be read.
fn check_file<R: TextReader, W: Write>(
    rt: &HostRuntime,
    reader: &R,
    name: &str,
    style: Style<'_>,
    tally: Tally,
    out: &mut W,
) -> io::Result<Tally>
    ensures { IfOk result (IsFileCounted style.entry (R.texts reader.now) name.now tally (W.contents out.old) (W.contents out.new)) }
{
    match reader.read_text(rt, &COMMAND, name, out)? {
        Some(text) => count_text(
            rt.alloc(),
            display_name(name),
            text.as_str(),
            style,
            tally,
            out,
        ),
        None => Ok(tally.with_unread()),
    }
}

// Checks a file as `check_file` does. If it has errors, clears the progress bar and flushes the output.
fn check_next<R: TextReader, W: Write>(
    rt: &HostRuntime,
    reader: &R,
    progress: Progress,
    name: &str,
    style: Style<'_>,
    tally: Tally,
    out: &mut W,
) -> io::Result<Tally>
    ensures { IfOk result (IsFileCounted style.entry (R.texts reader.now) name.now tally (W.contents out.old) (W.contents out.new)) }
{
    let next = check_file(rt, reader, name, style, tally, out)?;
    if next.found() == tally.found() {
        return Ok(next);
    }
    progress.clear(rt)?;
    out.flush()?;
    Ok(next)
}

// Checks the files in order.
fn check_files<R: TextReader, W: Write>(
    rt: &HostRuntime,
    reader: &R,
    files: &Files,
    style: Style<'_>,
    out: &mut W,
) -> io::Result<Tally>
    ensures { IfOk result (AreChecked style.entry (R.texts reader.now) files.now.failed (W.contents out.old)
        (map string_bytes files.now.names.items) (W.contents out.new)) }
{
    let progress = Progress::of(rt, files.names.len());
    let mut tally = Tally {
        errors: 0,
        warnings: 0,
        faulty: 0,
        unread: files.failed,
    };
    for number in 0..files.names.len() {
        progress.show(rt, number)?;
        let name = files.names[number].as_str();
        tally = check_next(rt, reader, progress, name, style, tally, out)?;
    }
    progress.clear(rt)?;
    Ok(tally)
}

// Writes what precedes the errors of the first file.
fn write_start<W: Write>(format: Format, out: &mut W) -> io::Result<()>
    ensures { OnOk result (Appends (W.contents out.old) (W.contents out.new) (report_head format)) }
{
    match format {
        Format::Text | Format::Json => Ok(()),
        Format::Sarif => write_head("rnix", out),
    }
}

// Writes a number of things, of which one has another word.
fn write_number<W: Write>(number: usize, one: &str, more: &str, out: &mut W) -> io::Result<()>
    ensures { OnOk result (Appends (W.contents out.old) (W.contents out.new) (counted number one.now more.now)) }
{
    if number == 1 {
        write!(out, "1 {one}")
    } else {
        write!(out, "{number} {more}")
    }
}

// Writes the numbers of errors and warnings, of which one is not 0.
fn write_numbers<W: Write>(errors: usize, warnings: usize, out: &mut W) -> io::Result<()>
    ensures { OnOk result (Appends (W.contents out.old) (W.contents out.new) (numbers_text errors warnings)) }
{
    if warnings == 0 {
        return write_number(errors, "error", "errors", out);
    }
    if errors == 0 {
        return write_number(warnings, "warning", "warnings", out);
    }
    write_number(errors, "error", "errors", out)?;
    out.write_all(b", ")?;
    write_number(warnings, "warning", "warnings", out)
}

// Writes of how many files this is the report, if there are several.
fn write_among<W: Write>(files: usize, out: &mut W) -> io::Result<()>
    ensures { OnOk result (Appends (W.contents out.old) (W.contents out.new) (among files)) }
{
    if files < 2 {
        Ok(())
    } else {
        write!(out, " in {files} files")
    }
}

// Writes in how many of these files something was found.
fn write_found_in<W: Write>(faulty: usize, files: usize, out: &mut W) -> io::Result<()>
    ensures { OnOk result (Appends (W.contents out.old) (W.contents out.new) (found_in faulty files)) }
{
    if files < 2 {
        Ok(())
    } else {
        write!(out, " in {faulty} of {files} files")
    }
}

// Writes the last line if nothing was found. There is no such line if some files could not be read.
fn write_clean<W: Write>(unread: usize, files: usize, out: &mut W) -> io::Result<()>
    ensures { OnOk result (Appends (W.contents out.old) (W.contents out.new) (clean_line unread files)) }
{
    if unread > 0 {
        return Ok(());
    }
    out.write_all(b"no errors")?;
    write_among(files, out)?;
    out.write_all(b"\n")
}

// Writes the last line, the numbers of errors and warnings, and of files.
fn write_count<W: Write>(tally: Tally, files: usize, out: &mut W) -> io::Result<()>
    ensures { OnOk result (Appends (W.contents out.old) (W.contents out.new) (count_line tally files)) }
{
    if tally.errors == 0 && tally.warnings == 0 {
        return write_clean(tally.unread, files, out);
    }
    write_numbers(tally.errors, tally.warnings, out)?;
    write_found_in(tally.faulty, files, out)?;
    out.write_all(b"\n")
}

// Writes what follows the errors of the last file.
fn write_end<W: Write>(format: Format, tally: Tally, files: usize, out: &mut W) -> io::Result<()>
    ensures { OnOk result (Appends (W.contents out.old) (W.contents out.new) (report_tail format tally files)) }
{
    match format {
        Format::Text => write_count(tally, files, out),
        Format::Json => Ok(()),
        Format::Sarif => write_tail(tally.unread == 0, out),
    }
}

/// Writes the errors of the files, and returns the exit status.
pub fn report_files<R: TextReader, W: Write>(
    rt: &HostRuntime,
    reader: &R,
    files: &Files,
    style: Style<'_>,
    out: &mut W,
) -> io::Result<u8>
    ensures { IfOk result (IsReport style.entry (R.texts reader.now) files.now.failed (map string_bytes files.now.names.items)
        (W.contents out.old) (W.contents out.new)) }
{
    write_start(style.format, out)?;
    let tally = check_files(rt, reader, files, style, out)?;
    write_end(style.format, tally, files.names.len(), out)?;
    Ok(tally.status(style.is_strict))
}
