//! Prints the errors and the syntax trees of Nix texts, as `rnix tree` does: `nix-tree [OPTION..] [FILE..]`, or with no file of the text on standard input.
#![tactic(auto)]

use nix_cli::{Command, end, process_arguments};
use rnix_print::{COMMAND, run};
use std::process::ExitCode;

const PROGRAM: Command = Command {
    name: "nix-tree",
    ..COMMAND
};

fn main(rt: HostRuntime) -> ExitCode {
    match process_arguments(&rt) {
        Ok(arguments) => run(&rt, &PROGRAM, &arguments),
        Err(error) => end(&rt, &PROGRAM, Err(error)),
    }
}
