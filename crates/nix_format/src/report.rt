//! Formatting files: the output for each, the counts, and the exit status.

ghost use Rattle.std.specs.Prelude.{◌≡◌, map, string_bytes, IfOk, OnOk};
ghost use Rattle.std.specs.Io.KnownBytes.{Appends};
ghost use Rattle.nix_format.specs.Outcomes.{heading, counted, found_status, status_of, AreFormatted, IsReport};

use crate::command::COMMAND;
use crate::file::{Outcome, Task, format_file};
use nix_cli::{FAILED, FOUND, Files, Progress, TextReader, display_name};
use std::io::{self, Write};

// The numbers of files with each outcome.
#[derive(Clone, Copy)]
struct Tally {
    changed: usize,
    same: usize,
    failed: usize,
}

impl Tally {
    // Returns the counts with one more file.
    fn counted(self, outcome: Outcome) -> Tally
        ensures { result ≡ counted outcome self }
    {
        let Tally {
            changed,
            same,
            failed,
        } = self;
        match outcome {
            Outcome::Changed => Tally {
                changed: changed.saturating_add(1),
                same,
                failed,
            },
            Outcome::Same => Tally {
                changed,
                same: same.saturating_add(1),
                failed,
            },
            Outcome::Failed => Tally {
                changed,
                same,
                failed: failed.saturating_add(1),
            },
        }
    }

    // Returns the exit status of a check without failures.
    fn found(self) -> u8
        ensures { result ≡ found_status self }
    {
        if self.changed == 0 { 0 } else { FOUND }
    }

    // Returns the exit status.
    fn status(self, task: Task) -> u8
        ensures { result ≡ status_of task self }
    {
        if self.failed == 0 {
            match task {
                Task::Check | Task::Diff => self.found(),
                Task::Write | Task::Print => 0,
            }
        } else {
            FAILED
        }
    }
}

// Writes the line before a text, if there is one.
fn write_heading<W: Write>(has_headings: bool, name: &str, out: &mut W) -> io::Result<()>
    ensures { OnOk result (Appends (W.contents out.old) (W.contents out.new) (heading has_headings name.now)) }
{
    if has_headings {
        writeln!(out, "# {}:", display_name(name))
    } else {
        Ok(())
    }
}

// Formats the files in order.
fn format_each<R: TextReader, W: Write>(
    rt: &HostRuntime,
    reader: &R,
    files: &Files,
    task: Task,
    has_headings: bool,
    out: &mut W,
) -> io::Result<Tally>
    ensures { IfOk result (AreFormatted task (R.texts reader.now) has_headings files.now.failed (W.contents out.old)
        (map string_bytes files.now.names.items) (W.contents out.new)) }
{
    let progress = Progress::of(rt, files.names.len());
    let mut tally = Tally {
        changed: 0,
        same: 0,
        failed: files.failed,
    };
    for number in 0..files.names.len() {
        let name = files.names[number].as_str();
        progress.show(rt, number)?;
        write_heading(has_headings, name, out)?;
        let outcome = format_file(rt, &COMMAND, reader, name, task, out)?;
        tally = tally.counted(outcome);
    }
    progress.clear(rt)?;
    Ok(tally)
}

// Prints the numbers of files to standard error if there are several files.
fn write_counts(rt: &HostRuntime, tally: Tally, task: Task) -> io::Result<()> {
    let all = tally
        .changed
        .saturating_add(tally.same)
        .saturating_add(tally.failed);
    if all < 2 {
        return Ok(());
    }
    let done = match task {
        Task::Check | Task::Diff | Task::Print => "would change",
        Task::Write => "changed",
    };
    let (changed, same, failed) = (tally.changed, tally.same, tally.failed);
    eprintln!(rt; "{all} files: {changed} {done}, {same} stay as they are, {failed} failed")
}

/// Formats the files, and returns the exit status.
pub fn format_files<R: TextReader, W: Write>(
    rt: &HostRuntime,
    reader: &R,
    files: &Files,
    task: Task,
    out: &mut W,
) -> io::Result<u8>
    ensures { IfOk result (IsReport task (R.texts reader.now) files.now.failed (map string_bytes files.now.names.items)
        (W.contents out.old) (W.contents out.new)) }
{
    let has_headings = task == Task::Print && files.names.len() > 1;
    let tally = format_each(rt, reader, files, task, has_headings, out)?;
    write_counts(rt, tally, task)?;
    Ok(tally.status(task))
}
