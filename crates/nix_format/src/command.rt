//! The command `rnix format`.

use crate::file::Task;
use crate::report::format_files;
use nix_cli::{Arguments, Command, Start, end, find_files, read_arguments};
use std::io;
use std::process::ExitCode;

/// The command and its options.
pub const COMMAND: Command = Command {
    name: "rnix format",
    usage: &["[OPTION..] [FILE..]"],
    help: "
Writes Nix files in the style of Nixpkgs. Only white space, the commas of patterns and the marks of comments change: the tokens of each new text,
comments included, are compared with the old ones, and the tree is the same. Strings in '' are indented with the code, and their values, as Nix makes
them, are compared. A file with errors stays as it is. A folder means all regular files in it and below that end with .nix, except those that a
.gitignore leaves out; - and no FILE mean standard input, whose new text is printed. Files are replaced: the new text goes to FILE.new, which is then
renamed. A symbolic link stays as it is: if it is a FILE, the file that it leads to is replaced, and in a folder it is passed over. Lines end as they
did, with CR LF if the first one does.

    --check    change nothing, and print the names of the files that would change
    --diff     change nothing, and print how the files would change, as a unified diff for `patch -p1` and `git apply` in the same folder, if each
               FILE is a path below it: no absolute path, and none with ..
    --print    change nothing, and print the new texts, each after the name of its file if there are several
    --exclude GLOB  leave out what GLOB names in a folder, as a line of a .gitignore there does; may be given several times
",
    statuses: "
Ends with 0; with 1 if a file would change and --check or --diff is given; with 2 if a text has errors, or something could not be read or written.
",
    flags: &["--check", "--diff", "--print"],
    has_colors: false,
    has_excludes: true,
    min_words: 0,
    max_words: usize::MAX,
};

// Returns the task that the options ask for. `--diff` takes precedence over `--check`, and both over `--print`.
fn task_of(arguments: &Arguments) -> Task {
    if arguments.has("--diff") {
        Task::Diff
    } else if arguments.has("--check") {
        Task::Check
    } else if arguments.has("--print") {
        Task::Print
    } else {
        Task::Write
    }
}

// Formats the files that the command line names, and returns the exit status.
fn format_named(rt: &HostRuntime, arguments: &Arguments) -> io::Result<u8> {
    let files = find_files(rt, &COMMAND, arguments)?;
    format_files(rt, &files, &files, task_of(arguments), &mut rt.stdout())
}

/// Writes Nix files in the style of Nixpkgs. Takes the arguments that follow the name of the command, and returns the exit code.
pub fn run(rt: &HostRuntime, arguments: &[String]) -> ExitCode {
    let outcome = match read_arguments(rt, &COMMAND, arguments) {
        Start::Run(arguments) => format_named(rt, &arguments),
        Start::End(outcome) => outcome,
    };
    end(rt, &COMMAND, outcome)
}
