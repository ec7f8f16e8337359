//! Removing unused names from files.

ghost use Rattle.std.specs.Prelude.{◌≡◌, false, codes, map, string_bytes, IfOk, IsFalse};
ghost use Rattle.std.specs.Str.{bytes_eq};
ghost use Rattle.nix_cli.specs.Statuses.{first_status, AreProcessed};
ghost use Rattle.nix_dead.specs.EditedFiles.{IsTextEdited, IsFileEdited};

use crate::command::COMMAND;
use crate::editing::{Edited, remove_unused};
use crate::options::Options;
use crate::report::report;
use nix_cli::{FAILED, Files, TextReader, display_name, refuse_after_output, replace_text};
use nix_diff::unified_diff;
use std::io::{self, Write};

// Prints the diff of a text and its new text.
fn write_diff(rt: &HostRuntime, name: &str, old: &str, new: &str) -> io::Result<()> {
    let diff = unified_diff(rt.alloc(), display_name(name), old, new)?;
    rt.stdout().write_all(diff.as_bytes())
}

// Writes the new text of a file: to the file if it differs, or to standard output if it was read from standard input. Reports what fails. Or prints only what
// changed.
fn write_made(
    rt: &HostRuntime,
    name: &str,
    old: &str,
    new: &str,
    prints_diff: bool,
) -> io::Result<bool>
    ensures { IfOk result (λ is_written. IsFalse is_written → (bytes_eq name.now (codes "-") ≡ false) × (bytes_eq new.now old.now ≡ false)) }
{
    if prints_diff {
        write_diff(rt, name, old, new)?;
        return Ok(true);
    }
    if name == "-" {
        rt.stdout().write_all(new.as_bytes())?;
        return Ok(true);
    }
    if new == old {
        return Ok(true);
    }
    match replace_text(rt, name, new) {
        Ok(()) => Ok(true),
        Err(error) => {
            eprintln!(rt; "{}: {name}: {error}", COMMAND.name)?;
            Ok(false)
        }
    }
}

// Reports that a text is left as it is.
fn refuse_edit(rt: &HostRuntime, name: &str) -> io::Result<u8>
    ensures { IfOk result (λ status. status ≡ 2) }
{
    eprintln!(rt;
        "{}: {}: this text is left as it is: without its unused names, some name would mean something else",
        COMMAND.name,
        display_name(name)
    )?;
    Ok(FAILED)
}

// Removes the unused names of a text, and writes those that are left. Returns the exit status.
fn edit_text<W: Write>(
    rt: &HostRuntime,
    name: &str,
    text: &str,
    options: Options,
    out: &mut W,
) -> io::Result<u8>
    ensures { IfOk result (IsTextEdited options name.now text.now (W.contents out.old) (W.contents out.new)) }
{
    match remove_unused(rt.alloc(), text, options)? {
        Edited::Done(made) => {
            if write_made(rt, name, text, made.as_str(), options.prints_diff)? {
                report(rt, display_name(name), made.as_str(), options, out)
            } else {
                Ok(FAILED)
            }
        }
        Edited::HasErrors => report(rt, display_name(name), text, options, out),
        Edited::Refused => refuse_edit(rt, name),
    }
}

// Removes the unused names of a file, and writes those that are left. Returns the exit status. A file that cannot be read is reported.
fn edit_file<R: TextReader, W: Write>(
    rt: &HostRuntime,
    reader: &R,
    file: &str,
    options: Options,
    out: &mut W,
) -> io::Result<u8>
    ensures { IfOk result (IsFileEdited options (R.texts reader.now) file.now (W.contents out.old) (W.contents out.new)) }
{
    match reader.read_text(rt, &COMMAND, file, out)? {
        Some(text) => {
            let status = edit_text(rt, file, text.as_str(), options, out)?;
            out.flush()?;
            Ok(status)
        }
        None => Ok(FAILED),
    }
}

/// Removes the unused names of the files, writes those that are left, and returns the highest exit status.
pub fn edit_files<R: TextReader, W: Write>(
    rt: &HostRuntime,
    reader: &R,
    files: &Files,
    options: Options,
    out: &mut W,
) -> io::Result<u8>
    ensures { IfOk result (λ status. AreProcessed (IsFileEdited options (R.texts reader.now)) (first_status files.now.failed)
        (W.contents out.old) (map string_bytes files.now.names.items) (W.contents out.new) status) }
{
    let mut status = files.status();
    for number in 0..files.names.len() {
        let file = files.names[number].as_str();
        let own = edit_file(rt, reader, file, options, out)?;
        status = status.max(own);
    }
    Ok(status)
}
