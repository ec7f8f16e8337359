//! The command `rnix names`.

use crate::lines::write_names;
use nix_cli::{
    Arguments, Command, FAILED, Start, TextReader, display_name, end, find_inputs, location_of,
    read_arguments, refuse_after_output,
};
use nix_scopes::resolve;
use rnix::{Parse, Root};
use rnix_text::{ColumnUnit, LineIndex};
use std::io::{self, BufWriter, Write};
use std::process::ExitCode;

/// The command and its options.
pub const COMMAND: Command = Command {
    name: "rnix names",
    usage: &["[OPTION..] [FILE..]"],
    help: "
Prints a line for each name that a let, a rec set or a function binds, and for each name that is used, with the place of its binding. A folder
stands for all files in it and below that end with .nix, except those that a .gitignore leaves out; - and no FILE mean standard input.

    --json     print each line as JSON
    --exclude GLOB  leave out what GLOB names in a folder, as a line of a .gitignore there does; may be given several times
",
    statuses: "
Ends with 0, or with 2 if a file has a syntax error, or something could not be read or written.
",
    flags: &["--json"],
    has_colors: false,
    has_excludes: true,
    min_words: 0,
    max_words: usize::MAX,
};

// Reports the first syntax error of a text.
fn refuse_text<W: Write>(
    rt: &HostRuntime,
    file: &str,
    text: &str,
    read: &Parse,
    out: &mut W,
) -> io::Result<()> {
    let range = read.errors().first().and_then(|error| error.range());
    let location = location_of(text, range.map_or(text.len(), |range| range.start()));
    refuse_after_output(rt, &COMMAND, file, location, "syntax error", out)
}

// Writes the names of a text, and returns the exit status. A text with syntax errors is refused.
fn report<W: Write>(
    rt: &HostRuntime,
    file: &str,
    text: &str,
    is_json: bool,
    out: &mut W,
) -> io::Result<u8> {
    let read = Root::parse(rt.alloc(), text)?;
    if !read.errors().is_empty() {
        refuse_text(rt, file, text, &read, out)?;
        return Ok(FAILED);
    }
    let names = resolve(rt.alloc(), &read.syntax())?;
    let index = LineIndex::new(rt.alloc(), text, ColumnUnit::Chars)?;
    write_names(file, &names, &index, is_json, out)?;
    Ok(0)
}

// Writes the names of the files that the command line names, and returns the highest exit status.
fn report_files(rt: &HostRuntime, arguments: &Arguments) -> io::Result<u8> {
    let mut out = BufWriter::new(rt.alloc(), rt.stdout())?;
    let inputs = find_inputs(rt, &COMMAND, arguments)?;
    let is_json = arguments.has("--json");
    let mut status = inputs.files.status();
    for file in &inputs.files.names {
        let own = match inputs.read_text(rt, &COMMAND, file.as_str(), &mut out)? {
            Some(text) => report(
                rt,
                display_name(file.as_str()),
                text.as_str(),
                is_json,
                &mut out,
            )?,
            None => FAILED,
        };
        status = status.max(own);
    }
    out.flush()?;
    Ok(status)
}

/// Prints which names Nix files bind, and what each name in them refers to. Takes the arguments that follow the name of the command, and
/// returns the exit code.
pub fn run(rt: &HostRuntime, arguments: &[String]) -> ExitCode {
    let outcome = match read_arguments(rt, &COMMAND, arguments) {
        Start::Run(arguments) => report_files(rt, &arguments),
        Start::End(outcome) => outcome,
    };
    end(rt, &COMMAND, outcome)
}
