//! The command `rnix page`.

use crate::html::write_text;
use crate::script::SCRIPT;
use crate::source::write_source;
use crate::style::{AFTER_HEADING, AFTER_TITLE, AFTER_TREE, BEFORE_TITLE};
use crate::tree::write_tree;
use nix_cli::{Arguments, Command, FAILED, Start, display_name, end, read_arguments, read_text};
use rnix::Root;
use std::io::{self, BufWriter, Write};
use std::process::ExitCode;

/// The command and its options.
pub const COMMAND: Command = Command {
    name: "rnix page",
    usage: &["[FILE] > PAGE"],
    help: "
Prints a Nix text of at most 1 MiB as an HTML page: the source in colors, its errors, and its tree. - and no FILE mean standard input.

",
    statuses: "
Ends with 0, or with 2 if something could not be read or written, or is too long.
",
    flags: &[],
    has_colors: false,
    has_excludes: false,
    min_words: 0,
    max_words: 1,
};

// Writes the page of a text with a name.
fn write_page(rt: &HostRuntime, name: &str, text: &str) -> io::Result<()> {
    let read = Root::parse(rt.alloc(), text)?;
    let mut out = BufWriter::new(rt.alloc(), rt.stdout())?;
    out.write_all(BEFORE_TITLE.as_bytes())?;
    write_text(name, &mut out)?;
    out.write_all(AFTER_TITLE.as_bytes())?;
    write_text(name, &mut out)?;
    out.write_all(AFTER_HEADING.as_bytes())?;
    write_source(rt.alloc(), &read, &mut out)?;
    write_tree(&read.syntax(), &mut out)?;
    out.write_all(AFTER_TREE.as_bytes())?;
    out.write_all(SCRIPT.as_bytes())?;
    out.flush()
}

// The greatest size of a text in bytes. Its page is about a hundred times as large.
const LONGEST: usize = 1 << 20;

// Writes the page of the file that the command line names.
fn show(rt: &HostRuntime, arguments: &Arguments) -> io::Result<u8> {
    let name = arguments.words.first().map_or("-", |name| name.as_str());
    match read_text(rt, &COMMAND, name)? {
        Some(text) if text.len() > LONGEST => {
            let shown = display_name(name);
            eprintln!(rt; "{}: {shown}: the text is longer than 1 MiB", COMMAND.name)?;
            Ok(FAILED)
        }
        Some(text) => {
            write_page(rt, display_name(name), text.as_str())?;
            Ok(0)
        }
        None => Ok(FAILED),
    }
}

/// Prints a page that shows a Nix text. Takes the arguments that follow the name of the command, and returns the exit code.
pub fn run(rt: &HostRuntime, arguments: &[String]) -> ExitCode {
    let outcome = match read_arguments(rt, &COMMAND, arguments) {
        Start::Run(arguments) => show(rt, &arguments),
        Start::End(outcome) => outcome,
    };
    end(rt, &COMMAND, outcome)
}
