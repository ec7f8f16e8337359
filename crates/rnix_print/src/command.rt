//! The command `rnix tree`, which is also a program of its own, `nix-tree`.

use crate::json::write_json;
use crate::printing::print_text;
use nix_cli::{
    Arguments, Command, FAILED, Inputs, Start, TextReader, display_name, end, file_status,
    find_inputs, read_arguments,
};
use std::io::{self, BufWriter, Write};
use std::process::ExitCode;

/// The command and its options.
pub const COMMAND: Command = Command {
    name: "rnix tree",
    usage: &["[OPTION..] [FILE..]"],
    help: "
Prints the errors and the syntax tree of Nix files. Each of several files has a heading. A folder means all files in it and below that
end with .nix, except those that a .gitignore leaves out; - and no FILE mean standard input.

    --json     print each file as a line of JSON
    --exclude GLOB  leave out what GLOB names in a folder, as a line of a .gitignore there does; may be given several times
",
    statuses: "
Ends with 0 if there are no errors, 1 if there are some, 2 if something could not be read or written.
",
    flags: &["--json"],
    has_colors: false,
    has_excludes: true,
    min_words: 0,
    max_words: usize::MAX,
};

// Returns what precedes the heading of the file with a number, or `None` if it is the only file and has no heading.
fn before_heading(number: usize, is_alone: bool) -> Option<&'static str> {
    match (is_alone, number) {
        (true, _) => None,
        (false, 0) => Some(""),
        (false, _) => Some("\n"),
    }
}

// Writes the heading of a file, if it has one.
fn write_heading<W: Write>(before: Option<&str>, name: &str, out: &mut W) -> io::Result<()> {
    match before {
        Some(before) => writeln!(out, "{before}==> {} <==", display_name(name)),
        None => Ok(()),
    }
}

// Prints one of some files, and returns the status.
fn print_file<W: Write>(
    rt: &HostRuntime,
    command: &Command,
    inputs: &Inputs,
    name: &str,
    is_json: bool,
    before: Option<&str>,
    out: &mut W,
) -> io::Result<u8> {
    let Some(text) = inputs.read_text(rt, command, name, out)? else {
        return Ok(FAILED);
    };
    if is_json {
        let is_good = write_json(rt.alloc(), display_name(name), text.as_str(), out)?;
        return Ok(file_status(is_good));
    }
    write_heading(before, name, out)?;
    let is_good = print_text(rt.alloc(), text.as_str(), out)?;
    Ok(file_status(is_good))
}

// Prints the files that the command line names, and returns the worst status of all.
fn print_files(rt: &HostRuntime, command: &Command, arguments: &Arguments) -> io::Result<u8> {
    let inputs = find_inputs(rt, command, arguments)?;
    let files = &inputs.files;
    let (is_json, is_alone) = (arguments.has("--json"), files.names.len() == 1);
    let mut out = BufWriter::new(rt.alloc(), rt.stdout())?;
    let mut worst = files.status();
    for (number, name) in files.names.iter().enumerate() {
        let before = before_heading(number, is_alone);
        let own = print_file(
            rt,
            command,
            &inputs,
            name.as_str(),
            is_json,
            before,
            &mut out,
        )?;
        worst = worst.max(own);
    }
    out.flush()?;
    Ok(worst)
}

/// Prints the errors and the trees of the files that the arguments of a command name, and returns the exit code. The command is [`COMMAND`], or has another
/// name.
pub fn run(rt: &HostRuntime, command: &Command, arguments: &[String]) -> ExitCode {
    let outcome = match read_arguments(rt, command, arguments) {
        Start::Run(arguments) => print_files(rt, command, &arguments),
        Start::End(outcome) => outcome,
    };
    end(rt, command, outcome)
}
