//! The command `rnix rename`.

use crate::renaming::{Renaming, rename};
use nix_cli::{
    Arguments, Command, FAILED, FOUND, Start, display_name, end, location_of, read_arguments,
    read_text, refuse, write_text,
};
use rnix::{Parse, Root};
use rnix_text::{ColumnUnit, LineIndex, Position};
use std::io;
use std::process::ExitCode;

/// The command and its options.
pub const COMMAND: Command = Command {
    name: "rnix rename",
    usage: &["[-i] FILE LINE:COLUMN NAME"],
    help: "
Prints a Nix text in which the binding of the name at a place is called NAME, with all its uses, and all else is as before. It refuses
where some name would then mean something else, and names that operators, paths in <> or the old let use, as __sub. Lines and columns count from 1,
columns in characters; an offset in bytes may replace LINE:COLUMN. - stands for standard input.

    -i         write the new text to FILE instead: to FILE.new, which is then renamed
",
    statuses: "
Ends with 0, with 1 if the name cannot be renamed so, or with 2 if the text is not Nix, or cannot be read or written.
",
    flags: &["-i"],
    has_colors: false,
    has_excludes: false,
    min_words: 3,
    max_words: 3,
};

// Returns the offset of a place: a line and a column from 1, or an offset.
fn offset_of(rt: &HostRuntime, text: &str, location: &str) -> io::Result<Option<usize>> {
    let Some((line, column)) = location.split_once(':') else {
        return Ok(location.parse::<usize>().ok());
    };
    let (Ok(line), Ok(column)) = (line.parse::<usize>(), column.parse::<usize>()) else {
        return Ok(None);
    };
    if line == 0 || column == 0 {
        return Ok(None);
    }
    let index = LineIndex::new(rt.alloc(), text, ColumnUnit::Chars)?;
    Ok(index.offset(Position {
        line: line - 1,
        column: column - 1,
    }))
}

// Reports that a text has errors, and where the first one is.
fn refuse_text(rt: &HostRuntime, name: &str, text: &str, read: &Parse) -> io::Result<u8> {
    let range = read.errors().first().and_then(|error| error.range());
    let (line, column) = location_of(text, range.map_or(text.len(), |range| range.start()));
    eprintln!(rt;
        "{}: {}:{line}:{column}: this is not Nix",
        COMMAND.name,
        display_name(name)
    )?;
    Ok(FAILED)
}

// Writes the text in which the binding of the name at a place has a new name.
fn rename_at(
    rt: &HostRuntime,
    name: &str,
    text: &str,
    location: &str,
    new: &str,
    in_place: bool,
) -> io::Result<u8> {
    let read = Root::parse(rt.alloc(), text)?;
    if !read.errors().is_empty() {
        return refuse_text(rt, name, text, &read);
    }
    let Some(offset) = offset_of(rt, text, location)? else {
        eprintln!(rt;
            "{}: {}: there is no place {location}",
            COMMAND.name,
            display_name(name)
        )?;
        return Ok(FAILED);
    };
    match rename(rt.alloc(), text, &read.syntax(), offset, new) {
        Ok(Renaming::Renamed(made)) => write_text(rt, &COMMAND, name, made.as_str(), in_place),
        Ok(Renaming::Refused(reason)) => {
            eprintln!(rt;
                "{}: {}:{location}: {reason}",
                COMMAND.name,
                display_name(name)
            )?;
            Ok(FOUND)
        }
        Err(_) => {
            eprintln!(rt; "{}: {}: out of memory", COMMAND.name, display_name(name))?;
            Ok(FAILED)
        }
    }
}

// Renames in the file that the command line names.
fn rename_in_file(rt: &HostRuntime, arguments: &Arguments) -> io::Result<u8> {
    let mut words = arguments.words.iter();
    let (Some(name), Some(location), Some(new)) = (words.next(), words.next(), words.next()) else {
        return Ok(FAILED);
    };
    let (name, in_place) = (name.as_str(), arguments.has("-i"));
    if in_place && name == "-" {
        refuse(rt, &COMMAND, "-i needs a FILE")?;
        return Ok(FAILED);
    }
    match read_text(rt, &COMMAND, name)? {
        Some(text) => rename_at(
            rt,
            name,
            text.as_str(),
            location.as_str(),
            new.as_str(),
            in_place,
        ),
        None => Ok(FAILED),
    }
}

/// Prints or writes a text in which a binding and its uses have another name. Takes the arguments that follow the name of the command, and
/// returns the exit code.
pub fn run(rt: &HostRuntime, arguments: &[String]) -> ExitCode {
    let outcome = match read_arguments(rt, &COMMAND, arguments) {
        Start::Run(arguments) => rename_in_file(rt, &arguments),
        Start::End(outcome) => outcome,
    };
    end(rt, &COMMAND, outcome)
}
