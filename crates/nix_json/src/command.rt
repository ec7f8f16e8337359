//! The command `rnix json`.

use crate::report::{report_errors, report_no_data};
use nix_cli::{
    Arguments, Command, FAILED, FOUND, Start, display_name, end, location_of, read_arguments,
    read_text, refuse,
};
use nix_data::{NoData, data_at, data_in, nix_of};
use nix_values::{Data, data_of_json, json_of, names_of};
use rnix::{Root, SyntaxNode};
use std::io::{self, Write};
use std::process::ExitCode;

/// The command and its options.
pub const COMMAND: Command = Command {
    name: "rnix json",
    usage: &["[--lossy] [FILE [PATH]]", "--to-nix [FILE]"],
    help: "
Prints the data of a Nix text as JSON, or of its part at a dotted PATH: only that part has to be data. Data are sets, lists, strings, paths,
numbers, true, false and null. What Nix must evaluate, such as a call, is refused. Without FILE, or if it is -, standard input is read. In PATH,
a number selects an item of a list, and a name may be in quotes. It leads through functions, let, with, assert and operands of //.

    --lossy    write what is not data as its source, in a string
    --to-nix   print JSON as Nix
",
    statuses: "
Ends with 0, with 1 if the text is refused or has no such PATH, or with 2 if something could not be read or written.
",
    flags: &["--lossy", "--to-nix"],
    has_colors: false,
    has_excludes: false,
    min_words: 0,
    max_words: 2,
};

// Prints a converted text, or a refusal if there is none.
fn write_converted(rt: &HostRuntime, converted: Option<String>) -> io::Result<u8> {
    match converted {
        Some(text) => {
            rt.stdout().write_all(text.as_bytes())?;
            Ok(0)
        }
        None => {
            refuse(
                rt,
                &COMMAND,
                "what would be printed does not read as the same data: at most 512 values may nest",
            )?;
            Ok(FAILED)
        }
    }
}

// Says that there is no such path in a text.
fn refuse_path(rt: &HostRuntime, name: &str, path: &str) -> io::Result<u8> {
    let name = display_name(name);
    eprintln!(rt; "{}: {name}: nothing has the path {path}", COMMAND.name)?;
    Ok(FOUND)
}

// Returns the part of data at a path, if there is one.
fn part_of(
    rt: &HostRuntime,
    data: Result<Data, NoData>,
    path: &str,
) -> io::Result<Result<Data, NoData>> {
    match data {
        Ok(data) => Ok(Ok(match data.part(rt.alloc(), path)? {
            Some(part) => part,
            None => Data {
                items: Vec::new(rt.alloc()),
            },
        })),
        Err(reason) => Ok(Err(reason)),
    }
}

// Returns the data of the part of a tree that a path selects; they have no values if there is no such part. If the tree is read lossily and the path
// selects none, it is looked up in the data of the whole tree, where names may be sources.
fn data_of_part(
    rt: &HostRuntime,
    root: &SyntaxNode<'_>,
    path: &str,
    is_lossy: bool,
) -> io::Result<Result<Data, NoData>> {
    let Some(names) = names_of(rt.alloc(), path)? else {
        return Ok(Ok(Data {
            items: Vec::new(rt.alloc()),
        }));
    };
    match data_at(rt.alloc(), root, names.as_slice(), is_lossy)? {
        Ok(data) if !is_lossy || !data.items.is_empty() => Ok(Ok(data)),
        Err(reason) if !is_lossy => Ok(Err(reason)),
        _ => {
            let whole = data_in(rt.alloc(), root, true)?;
            part_of(rt, whole, path)
        }
    }
}

// Prints the data of a Nix text as JSON, or of the part at a path.
fn to_json(
    rt: &HostRuntime,
    name: &str,
    text: &str,
    path: Option<&str>,
    is_lossy: bool,
) -> io::Result<u8> {
    let parse = Root::parse(rt.alloc(), text)?;
    if !parse.errors().is_empty() {
        report_errors(rt, name, text, &parse)?;
        return Ok(FOUND);
    }
    let root = parse.syntax();
    let data = match path {
        Some(path) => data_of_part(rt, &root, path, is_lossy)?,
        None => data_in(rt.alloc(), &root, is_lossy)?,
    };
    match (data, path) {
        (Ok(data), Some(path)) if data.items.is_empty() => refuse_path(rt, name, path),
        (Ok(data), _) => write_converted(rt, json_of(rt.alloc(), &data)?),
        (Err(reason), _) => {
            report_no_data(rt, name, text, reason)?;
            Ok(FOUND)
        }
    }
}

// Prints a JSON text as Nix.
fn to_nix(rt: &HostRuntime, name: &str, text: &str) -> io::Result<u8> {
    let error = match data_of_json(rt.alloc(), text)? {
        Ok(data) => return write_converted(rt, nix_of(rt.alloc(), &data)?),
        Err(error) => error,
    };
    let name = display_name(name);
    let (line, column) = location_of(text, error.offset);
    let reason = error.reason.text();
    eprintln!(rt; "{}: {name}:{line}:{column}: {reason}", COMMAND.name)?;
    if let Some(first) = error.first {
        let (line, column) = location_of(text, first);
        eprintln!(rt; "{}: {name}:{line}:{column}: the first one", COMMAND.name)?;
    }
    Ok(FOUND)
}

// Converts the file that the command line names.
fn convert(rt: &HostRuntime, arguments: &Arguments) -> io::Result<u8> {
    let mut words = arguments.words.iter();
    let name = words.next().map_or("-", |name| name.as_str());
    let path = words.next().map(|path| path.as_str());
    let (is_lossy, is_to_nix) = (arguments.has("--lossy"), arguments.has("--to-nix"));
    if is_to_nix && (is_lossy || path.is_some()) {
        refuse(rt, &COMMAND, "--to-nix takes no --lossy and no PATH")?;
        return Ok(FAILED);
    }
    match read_text(rt, &COMMAND, name)? {
        Some(text) if is_to_nix => to_nix(rt, name, text.as_str()),
        Some(text) => to_json(rt, name, text.as_str(), path, is_lossy),
        None => Ok(FAILED),
    }
}

/// Prints the data of a Nix text as JSON, and JSON as Nix. Takes the arguments that follow the name of the command, and returns the exit code.
pub fn run(rt: &HostRuntime, arguments: &[String]) -> ExitCode {
    let outcome = match read_arguments(rt, &COMMAND, arguments) {
        Start::Run(arguments) => convert(rt, &arguments),
        Start::End(outcome) => outcome,
    };
    end(rt, &COMMAND, outcome)
}
