//! Formatting of one file.

ghost use Rattle.std.specs.Prelude.{◌≡◌, true, false, IfOk, IfSome, OnOk};
ghost use Rattle.std.specs.Io.KnownBytes.{Appends};
ghost use Rattle.nix_format.specs.Outcomes.{is_input, changed_name, input_text, writes, Prints, IsDiffOf, IsPrinted, IsReplaced, IsFinished, IsTextFormatted, IsFileFormatted};

use nix_cli::{Command, TextReader, display_name, location_of, replace_text, replaceable};
use nix_diagnostics::first_diagnostics;
use nix_diff::unified_diff;
use nix_formatting::{Formatting, formatted};
use rnix::Root;
use std::alloc::Global;
use std::io::{self, Write};

// The greatest number of errors of a file that are printed.
const LIMIT: usize = 3;

/// The command's task for the formatted text of a file.
#[derive(Clone, Copy, PartialEq, Eq)]
pub enum Task {
    /// Write it to the file.
    Write,
    /// Print the name of the file if the text differs.
    Check,
    /// Print a diff of the texts.
    Diff,
    /// Print the formatted text.
    Print,
}

impl Task {
    // Returns whether the formatted text is written to the file.
    fn writes(self) -> bool
        ensures { result ≡ writes self }
    {
        match self {
            Task::Write => true,
            Task::Check | Task::Diff | Task::Print => false,
        }
    }
}

/// The result for a file.
#[derive(Clone, Copy, PartialEq, Eq)]
pub enum Outcome {
    /// The formatted text differs.
    Changed,
    /// The file is already formatted.
    Same,
    /// The file could not be read, formatted or written.
    Failed,
}

// A file with its text and its formatted text.
#[derive(Clone, Copy)]
struct Change<'a> {
    name: &'a str,
    old: &'a str,
    new: &'a str,
}

// Prints the first errors of a text.
fn write_errors(rt: &HostRuntime, command: &Command, name: &str, text: &str) -> io::Result<()> {
    let read = Root::parse(rt.alloc(), text)?;
    let found = first_diagnostics(rt.alloc(), &read, LIMIT + 1)?;
    let shown = display_name(name);
    for diagnostic in found.iter().take(LIMIT) {
        let (line, column) = location_of(text, diagnostic.range.start());
        let message = diagnostic.message.as_str();
        eprintln!(rt;
            "{}: {shown}:{line}:{column}: error: {message}",
            command.name
        )?;
    }
    if found.len() > LIMIT {
        eprintln!(rt;
            "{}: {shown}: more errors (rnix check shows them)",
            command.name
        )?;
    }
    Ok(())
}

// Reports an error of a file.
fn fail(rt: &HostRuntime, command: &Command, name: &str, error: io::Error) -> io::Result<Outcome>
    ensures { IfOk result (λ outcome. outcome ≡ Outcome.Failed) }
{
    eprintln!(rt; "{}: {name}: {error}", command.name)?;
    Ok(Outcome::Failed)
}

// Replaces a file, but not standard input. Reports what fails.
fn replace(rt: &HostRuntime, command: &Command, change: Change<'_>) -> io::Result<Outcome>
    ensures { IfOk result (IsReplaced change.entry.name.now) }
{
    if change.name == "-" {
        return Ok(Outcome::Changed);
    }
    match replace_text(rt, change.name, change.new) {
        Ok(()) => Ok(Outcome::Changed),
        Err(error) => fail(rt, command, change.name, error),
    }
}

// Prints the name of a file whose text differs.
fn write_name<W: Write>(name: &str, is_same: bool, out: &mut W) -> io::Result<()>
    ensures { OnOk result (Appends (W.contents out.old) (W.contents out.new) (changed_name is_same name.now)) }
{
    if is_same {
        Ok(())
    } else {
        writeln!(out, "{}", display_name(name))
    }
}

// Prints the diff of a text.
fn write_diff<W: Write>(
    alloc: Global,
    change: Change<'_>,
    is_same: bool,
    out: &mut W,
) -> io::Result<()>
    ensures { OnOk result (Prints (IsDiffOf is_same change.entry.old.now change.entry.new.now) (W.contents out.old) (W.contents out.new)) }
{
    if is_same {
        return Ok(());
    }
    let diff = unified_diff(alloc, display_name(change.name), change.old, change.new)?;
    out.write_all(diff.as_bytes())
}

// Prints the formatted text of standard input, which has no file.
fn write_input<W: Write>(name: &str, made: &str, out: &mut W) -> io::Result<()>
    ensures { OnOk result (Appends (W.contents out.old) (W.contents out.new) (input_text name.now made.now)) }
{
    if name == "-" {
        out.write_all(made.as_bytes())
    } else {
        Ok(())
    }
}

// Prints the formatted text, its diff or the name of the file, as the task says.
fn write_change<W: Write>(
    alloc: Global,
    change: Change<'_>,
    task: Task,
    is_same: bool,
    out: &mut W,
) -> io::Result<()>
    ensures { OnOk result (Prints (IsPrinted task is_same change.entry.name.now change.entry.old.now change.entry.new.now)
        (W.contents out.old) (W.contents out.new)) }
{
    match task {
        Task::Check => write_name(change.name, is_same, out),
        Task::Diff => write_diff(alloc, change, is_same, out),
        Task::Write => write_input(change.name, change.new, out),
        Task::Print => out.write_all(change.new.as_bytes()),
    }
}

// Writes or prints the formatted text, as the task says.
fn finish<W: Write>(
    rt: &HostRuntime,
    command: &Command,
    change: Change<'_>,
    task: Task,
    out: &mut W,
) -> io::Result<Outcome>
    ensures { IfOk result
        (IsFinished task change.entry.name.now change.entry.old.now change.entry.new.now (W.contents out.old) (W.contents out.new)) }
{
    let is_same = change.new == change.old;
    write_change(rt.alloc(), change, task, is_same, out)?;
    if is_same {
        return Ok(Outcome::Same);
    }
    if task.writes() {
        return replace(rt, command, change);
    }
    Ok(Outcome::Changed)
}

// Reports that a text was not formatted because of a bug in the formatter.
fn write_refusal(rt: &HostRuntime, command: &Command, name: &str) -> io::Result<()> {
    eprintln!(rt;
        "{}: {}: this text is left as it is: its new text would differ in more than its layout, or change again, which is a bug; please report it",
        command.name,
        display_name(name)
    )
}

// Writes or prints a formatted text, as the task says.
fn finish_text<W: Write>(
    rt: &HostRuntime,
    command: &Command,
    name: &str,
    text: &str,
    made: &str,
    task: Task,
    out: &mut W,
) -> io::Result<Outcome>
    ensures { IfOk result (IsFinished task name.now text.now made.now (W.contents out.old) (W.contents out.new)) }
{
    let change = Change {
        name,
        old: text,
        new: made,
    };
    finish(rt, command, change, task, out)
}

// Formats a text.
fn format_text<W: Write>(
    rt: &HostRuntime,
    command: &Command,
    name: &str,
    text: &str,
    task: Task,
    out: &mut W,
) -> io::Result<Outcome>
    ensures { IfOk result (IsTextFormatted task name.now text.now (W.contents out.old) (W.contents out.new)) }
{
    match formatted(rt.alloc(), text)? {
        Formatting::Formatted(made) => {
            finish_text(rt, command, name, text, made.as_str(), task, out)
        }
        Formatting::Retokened(made) => {
            finish_text(rt, command, name, text, made.as_str(), task, out)
        }
        Formatting::HasErrors => {
            write_errors(rt, command, name, text)?;
            Ok(Outcome::Failed)
        }
        Formatting::Refused => {
            write_refusal(rt, command, name)?;
            Ok(Outcome::Failed)
        }
    }
}

// Reads and formats a file. A file that cannot be read is reported.
fn read_and_format<R: TextReader, W: Write>(
    rt: &HostRuntime,
    command: &Command,
    reader: &R,
    name: &str,
    task: Task,
    out: &mut W,
) -> io::Result<Outcome>
    ensures { IfOk result (IsFileFormatted task (R.texts reader.now) name.now (W.contents out.old) (W.contents out.new)) }
{
    match reader.read_text(rt, command, name, out)? {
        Some(text) => format_text(rt, command, name, text.as_str(), task, out),
        None => Ok(Outcome::Failed),
    }
}

// Returns the reason why a file that is to be written cannot be replaced, if it cannot.
fn replacement_error(rt: &HostRuntime, name: &str, task: Task) -> Option<io::Error>
    ensures { IfSome result (λ error. (writes task ≡ true) × (is_input name.now ≡ false)) }
{
    if task.writes() && name != "-" {
        replaceable(rt, name).err()
    } else {
        None
    }
}

/// Formats a file, or standard input for `-`. Reports what fails. A file that is to be written but cannot be replaced is not read.
pub fn format_file<R: TextReader, W: Write>(
    rt: &HostRuntime,
    command: &Command,
    reader: &R,
    name: &str,
    task: Task,
    out: &mut W,
) -> io::Result<Outcome>
    ensures { IfOk result (IsFileFormatted task (R.texts reader.now) name.now (W.contents out.old) (W.contents out.new)) }
{
    match replacement_error(rt, name, task) {
        Some(error) => fail(rt, command, name, error),
        None => read_and_format(rt, command, reader, name, task, out),
    }
}
