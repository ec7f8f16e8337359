//! Checks, formats and changes Nix files: `rnix COMMAND [OPTION..] [ARGUMENT..]`.
#![tactic(auto)]

use nix_cli::{Command, FAILED, Start, end, process_arguments, read_arguments};
use std::alloc::AllocError;
use std::io::{self, Write};
use std::process::ExitCode;

const PROGRAM: Command = Command {
    name: "rnix",
    usage: &["COMMAND [OPTION..] [ARGUMENT..]"],
    help: "
Checks, formats and changes Nix files. Each command has its own help: rnix help COMMAND, or rnix COMMAND --help.

    check      report syntax errors, what Nix refuses besides, and probable mistakes
    format     write files in the style of Nixpkgs; also called fmt
    dead       report names that nothing uses; --edit removes them
    names      list the bindings, and what each name refers to
    rename     rename a binding and its uses
    update     print, set, add or remove an attribute, or an element of a list
    json       print the data of a text as JSON, and JSON as Nix
    page       show a text and its tree as an HTML page
    tree       print the errors and the syntax tree
    help       print this, or the help of a command

",
    statuses: "",
    flags: &[],
    has_colors: false,
    has_excludes: false,
    min_words: 1,
    max_words: 0,
};

// Runs the command with a name, if there is one.
fn run_command(rt: &HostRuntime, name: &str, arguments: &[String]) -> Option<ExitCode> {
    match name {
        "check" => Some(nix_check::run(rt, arguments)),
        "format" | "fmt" => Some(nix_format::run(rt, arguments)),
        "dead" => Some(nix_dead::run(rt, arguments)),
        "names" => Some(nix_names::run(rt, arguments)),
        "rename" => Some(nix_rename::run(rt, arguments)),
        "update" => Some(nix_update::run(rt, arguments)),
        "json" => Some(nix_json::run(rt, arguments)),
        "page" => Some(nix_page::run(rt, arguments)),
        "tree" => Some(rnix_print::run(rt, &rnix_print::COMMAND, arguments)),
        _ => None,
    }
}

// Reports that there is no command with a name.
fn refuse_command(rt: &HostRuntime, name: &str) -> io::Result<u8> {
    eprintln!(rt; "rnix: unknown command {name}")?;
    eprintln!(rt; "see rnix --help")?;
    Ok(FAILED)
}

// Answers a command line without a command: prints the help or the version, or reports what is wrong.
fn answer(rt: &HostRuntime, arguments: &[String]) -> ExitCode {
    match read_arguments(rt, &PROGRAM, arguments) {
        Start::Run(_) => ExitCode::from(FAILED),
        Start::End(outcome) => end(rt, &PROGRAM, outcome),
    }
}

// Runs the command that the arguments begin with.
fn run(rt: &HostRuntime, arguments: &[String]) -> ExitCode {
    let Some((first, rest)) = arguments.split_first() else {
        return answer(rt, arguments);
    };
    let name = first.as_str();
    if name == "help" {
        return answer(rt, rest);
    }
    if name.starts_with('-') {
        return answer(rt, arguments);
    }
    match run_command(rt, name, rest) {
        Some(code) => code,
        None => end(rt, &PROGRAM, refuse_command(rt, name)),
    }
}

// Replaces `help COMMAND` by `COMMAND --help`, and `help` alone by `--help`.
fn without_help(mut arguments: Vec<String>) -> Result<Vec<String>, AllocError> {
    let is_help = match arguments.first() {
        Some(first) => first.as_str() == "help",
        None => false,
    };
    if is_help {
        let _help = arguments.remove(0);
        let option = String::from_str(*arguments.allocator(), "--help")?;
        let place = arguments.len().min(1);
        arguments.insert(place, option)?;
    }
    Ok(arguments)
}

fn main(rt: HostRuntime) -> ExitCode {
    let arguments = match process_arguments(&rt) {
        Ok(arguments) => without_help(arguments).map_err(io::Error::from),
        Err(error) => Err(error),
    };
    match arguments {
        Ok(arguments) => run(&rt, &arguments),
        Err(error) => end(&rt, &PROGRAM, Err(error)),
    }
}
