//! The command `rnix dead`.

use crate::edit::edit_files;
use crate::options::Options;
use crate::report::report_files;
use nix_cli::{
    Arguments, Command, FAILED, Start, end, find_files, find_inputs, read_arguments, refuse,
};
use std::io;
use std::io::{BufWriter, Write};
use std::process::ExitCode;

/// The command and its options.
pub const COMMAND: Command = Command {
    name: "rnix dead",
    usage: &["[OPTION..] [FILE..]"],
    help: "
Prints the names bound by let and the parameters that are never used, except those that start with _ and the entries of a pattern
whose own name is used, as in args@{ a }: args.a. Without an entry, callers may no longer pass the argument if the pattern has no `...`.
A folder stands for all files in it and below that end with .nix, except those that a .gitignore leaves out; - and no FILE mean standard input.

A comment `# deadnix: skip` leaves out the names of the next line, and so does `# nix-check: ignore unused-name`.

    --edit     remove the names, and those that then are unused, and print on standard error what is left: from the files, each of which goes to FILE.new,
               which is then renamed, or from the text of standard input to standard output. Plain arguments are called _, and the entries of a
               pattern stay unless it has `...`. A text stays as it is if some name would mean something else
    --diff     with --edit, print what would change as a unified diff, on standard output, and write no file
    --underscore  with --edit, write a _ before the names instead of removing them, but not before inherited names and entries of patterns
    -_         the same
    --json     print each name as a line of JSON
    --no-lambda-arg            leave out arguments that are a plain name, as in x: 1
    -L         the same
    --no-lambda-pattern-names  leave out the entries of patterns, as in { a }: 1
    -l         the same
    --exclude GLOB  leave out what GLOB names in a folder, as a line of a .gitignore there does; may be given several times
",
    statuses: "
Ends with 0 if all names are used, 1 if some are not, 2 if a file has a syntax error, or something could not be read or written.
",
    flags: &[
        "--edit",
        "--diff",
        "--underscore",
        "-_",
        "--json",
        "-L",
        "--no-lambda-arg",
        "-l",
        "--no-lambda-pattern-names",
    ],
    has_colors: false,
    has_excludes: true,
    min_words: 0,
    max_words: usize::MAX,
};

// Returns what the options ask for.
fn options_of(arguments: &Arguments) -> Options {
    Options {
        is_json: arguments.has("--json"),
        skips_arguments: arguments.has("-L") || arguments.has("--no-lambda-arg"),
        skips_entries: arguments.has("-l") || arguments.has("--no-lambda-pattern-names"),
        writes_underscores: arguments.has("-_") || arguments.has("--underscore"),
        prints_diff: arguments.has("--diff"),
    }
}

// Writes the unused names of the files that the command line names, and returns the highest exit status.
fn report_named(rt: &HostRuntime, arguments: &Arguments) -> io::Result<u8> {
    let mut out = BufWriter::new(rt.alloc(), rt.stdout())?;
    let inputs = find_inputs(rt, &COMMAND, arguments)?;
    let status = report_files(rt, &inputs, &inputs.files, options_of(arguments), &mut out)?;
    out.flush()?;
    Ok(status)
}

// Removes the unused names of the files that the command line names, prints those that are left, and returns the highest exit status.
fn edit_named(rt: &HostRuntime, arguments: &Arguments) -> io::Result<u8> {
    let mut out = BufWriter::new(rt.alloc(), rt.stderr())?;
    let files = find_files(rt, &COMMAND, arguments)?;
    let status = edit_files(rt, &files, &files, options_of(arguments), &mut out)?;
    out.flush()?;
    Ok(status)
}

// Returns the reason why an option is wrong, if it needs another one that is missing.
fn wrong_with(arguments: &Arguments) -> Option<&'static str> {
    let options = options_of(arguments);
    if arguments.has("--edit") {
        None
    } else if options.writes_underscores {
        Some("--underscore needs --edit")
    } else if options.prints_diff {
        Some("--diff needs --edit")
    } else {
        None
    }
}

// Reports or removes unused names, as the options say.
fn run_with(rt: &HostRuntime, arguments: &Arguments) -> io::Result<u8> {
    if let Some(reason) = wrong_with(arguments) {
        refuse(rt, &COMMAND, reason)?;
        return Ok(FAILED);
    }
    if arguments.has("--edit") {
        edit_named(rt, arguments)
    } else {
        report_named(rt, arguments)
    }
}

/// Prints the bindings that nothing uses, or removes them. Takes the arguments that follow the name of the command, and returns the exit code.
pub fn run(rt: &HostRuntime, arguments: &[String]) -> ExitCode {
    let outcome = match read_arguments(rt, &COMMAND, arguments) {
        Start::Run(arguments) => run_with(rt, &arguments),
        Start::End(outcome) => outcome,
    };
    end(rt, &COMMAND, outcome)
}
