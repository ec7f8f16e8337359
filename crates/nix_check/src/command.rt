//! The command `rnix check`.

use crate::disabled::Taken;
use crate::fixing::fix_files;
use crate::report::report_files;
use crate::style::{Format, Style};
use nix_cli::{
    Arguments, Command, FAILED, Start, end, find_files, find_inputs, is_colored, read_arguments,
    refuse,
};
use nix_diagnostics::Code;
use std::io;
use std::io::{BufWriter, Write};
use std::process::ExitCode;

// The greatest number of diagnostics of a file that are printed without `--all`.
const LIMIT: usize = 20;

// The lint that is left out without `--unused`, since `rnix dead` reports the same.
const UNUSED: Code = Code::UnusedName;

/// The command and its options.
pub const COMMAND: Command = Command {
    name: "rnix check",
    usage: &["[OPTION..] [FILE..]"],
    help: "
Prints the syntax errors of Nix files: the place, the line, what was expected there, and what may help. A mistake that leads to several errors
is reported once, unless --all is given. In files without syntax errors it prints what lints find: what Nix refuses all the same, as errors, and
what is probably a mistake or could be said in fewer words, as warnings. A folder stands for all files in it and below that end with .nix,
except those that a .gitignore leaves out; - and no FILE mean standard input. The grammar is that of rnix 0.14, which differs from Nix's in a
few places: the page nix.md lists them, and the page lints.md the lints.

    --all      print every error of a file: also those that follow from another, and more than the first 20
    --json     print each error and warning as a line of JSON
    --sarif    print all errors and warnings as one SARIF 2.1.0 file
    --strict   end with 1 if there are warnings, too
    --unused   report the names that nothing uses, too, as warnings
    --disable CODE  leave out a lint, such as needless-parentheses; may be given several times
    --fix      write what the notes on the errors propose, wherever a file then has fewer errors, and in a file without errors what the notes on
               findings propose, wherever each name then means the same: to FILE.new, which is then renamed, or the text of standard input to
               standard output. The number of fixes and the errors that are left are printed on standard error
    --diff     with --fix: print what would change as a unified diff, on standard output, and write no file
    --exclude GLOB  leave out what GLOB names in a folder, as a line of a .gitignore there does; may be given several times
    --color WHEN    use colors: auto (at a terminal, unless NO_COLOR is set), always or never
",
    statuses: "
Ends with 0 if there are no errors, or none are left, 1 if there are some, or warnings with --strict, 2 if something could not be read or written.
",
    flags: &[
        "--all", "--json", "--sarif", "--strict", "--unused", "--fix", "--diff",
    ],
    has_colors: true,
    has_excludes: true,
    min_words: 0,
    max_words: usize::MAX,
};

// Returns the format that the options ask for.
fn format_of(arguments: &Arguments) -> Format {
    if arguments.has("--json") {
        Format::Json
    } else if arguments.has("--sarif") {
        Format::Sarif
    } else {
        Format::Text
    }
}

// Returns how the options ask for diagnostics to be printed.
fn style_of<'a>(
    rt: &HostRuntime,
    arguments: &Arguments,
    disabled: &'a [String],
    format: Format,
) -> Style<'a> {
    let is_text = format == Format::Text;
    Style {
        limit: if is_text && !arguments.has("--all") {
            LIMIT
        } else {
            usize::MAX
        },
        is_each: arguments.has("--all"),
        is_strict: arguments.has("--strict"),
        prints_diff: arguments.has("--diff"),
        format,
        is_colored: is_colored(rt, arguments),
        disabled,
    }
}

// Prints the diagnostics of the files that the command line names, and returns the exit status.
fn check_all(rt: &HostRuntime, arguments: &Arguments, style: Style<'_>) -> io::Result<u8> {
    let mut out = BufWriter::new(rt.alloc(), rt.stdout())?;
    // Before anything is written, folders are read, and those that cannot be read are reported.
    let inputs = find_inputs(rt, &COMMAND, arguments)?;
    let status = report_files(rt, &inputs, &inputs.files, style, &mut out)?;
    out.flush()?;
    Ok(status)
}

// Fixes the files that the command line names, prints the remaining errors, and returns the exit status.
fn fix_all(rt: &HostRuntime, arguments: &Arguments, style: Style<'_>) -> io::Result<u8> {
    let mut out = BufWriter::new(rt.alloc(), rt.stderr())?;
    let files = find_files(rt, &COMMAND, arguments)?;
    fix_files(rt, &files, &files, style, &mut out)
}

// Returns the reason why the options exclude each other, if they do.
fn wrong_with(arguments: &Arguments) -> Option<&'static str> {
    let is_other = arguments.has("--json") || arguments.has("--sarif");
    if arguments.has("--json") && arguments.has("--sarif") {
        Some("--json and --sarif exclude each other")
    } else if arguments.has("--fix") && is_other {
        Some("--fix and --json or --sarif exclude each other")
    } else if arguments.has("--diff") && !arguments.has("--fix") {
        Some("--diff needs --fix")
    } else {
        None
    }
}

// Checks or fixes the files that the command line names, and returns the exit status.
fn run_with(rt: &HostRuntime, arguments: &Arguments, disabled: &[String]) -> io::Result<u8> {
    if let Some(reason) = wrong_with(arguments) {
        refuse(rt, &COMMAND, reason)?;
        return Ok(FAILED);
    }
    let style = style_of(rt, arguments, disabled, format_of(arguments));
    if arguments.has("--fix") {
        fix_all(rt, arguments, style)
    } else {
        check_all(rt, arguments, style)
    }
}

// Reads the command line, of which `--disable` was taken already, and does what it says.
fn run_taken(rt: &HostRuntime, taken: &mut Taken) -> io::Result<u8> {
    if let Some(reason) = taken.wrong() {
        refuse(rt, &COMMAND, reason)?;
        return Ok(FAILED);
    }
    match read_arguments(rt, &COMMAND, &taken.rest) {
        Start::Run(arguments) => {
            if !arguments.has("--unused") {
                taken.leave_out(rt.alloc(), UNUSED)?;
            }
            run_with(rt, &arguments, &taken.disabled)
        }
        Start::End(outcome) => outcome,
    }
}

// Takes `--disable` from the command line, and does what the rest says.
fn run_all(rt: &HostRuntime, arguments: &[String]) -> io::Result<u8> {
    let mut taken = Taken::of(rt.alloc(), arguments)?;
    run_taken(rt, &mut taken)
}

/// Reports the syntax errors of Nix files and, in files without any, what the lints find. Takes the arguments that follow the name of the command, and
/// returns the exit code.
pub fn run(rt: &HostRuntime, arguments: &[String]) -> ExitCode {
    let outcome = run_all(rt, arguments);
    end(rt, &COMMAND, outcome)
}
