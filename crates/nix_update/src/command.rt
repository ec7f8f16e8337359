//! The command `rnix update`.

use crate::arguments::{has_no_value, update_of, updates_of, wrong_with};
use crate::completed::fully_updated;
use crate::other_value::is_other_value;
use crate::outcome::{Outcome, Reason, Refused, refuse as refuse_reason};
use crate::request::{Action, Update};
use crate::several::{Several, all_updated};
use crate::source::{Source, value_source};
use crate::value::Form;
use nix_cli::{
    Arguments, Command, FAILED, FOUND, Start, display_name, end, location_of, read_arguments,
    read_text, refuse, write_text,
};
use std::io;
use std::process::ExitCode;

/// The command and its options.
pub const COMMAND: Command = Command {
    name: "rnix update",
    usage: &[
        "[OPTION..] PATH VALUE [FILE]",
        "[OPTION..] --remove PATH [FILE]",
        "[OPTION..] --append PATH VALUE [FILE]",
        "[OPTION..] --remove-item PATH VALUE [FILE]",
        "[OPTION..] --each FILE PATH VALUE [PATH VALUE]..",
        "--get PATH [FILE]",
    ],
    help: "
Prints a Nix text in which the attribute of the dotted PATH is the string VALUE in place of another string, and all else is as before. In
PATH, names are written as in the text, quotes included: a and \"a\" are one name. - or no FILE means standard input.

PATH begins at the outermost set of the text, which may be in brackets, in the body of a function, `let`, `with` or `assert`, in the argument of a
call, or beside names and calls of `//`; the value at each further name of PATH is searched in the same way. If the set has no such attribute,
the value of a name of a `let` around it is meant, with a line on standard error that says so.

The value is not replaced by --append and --remove-item. It must be a list that is written out, which may be in brackets, in the body of a function,
`let`, `with` or `assert`, in the argument of a call, or an operand of `++`, beside names and calls. Of several operands, the last one is meant.

    --raw      VALUE is a Nix expression, as 1, true, null or [ a ], and replaces any value
    --list     VALUE is a list of strings, separated by white space, and replaces any value
    --add      add the attribute if none has the path, after the others of its set
    --remove   remove the attribute with its line and the comments after it there
    --append   add VALUE to the list, after its other elements, in brackets where a list needs them
    --remove-item  remove each element of the list that is written as --append would write VALUE
    --get      print the value of the attribute as it is written, and change nothing
    --each     update several attributes of FILE, one after another, or if one of them is refused, none
    --force    add or remove the attribute also where another name would then refer to something else
    -i         write the new text to FILE instead: to FILE.new, which is then renamed
",
    statuses: "
The exit status is 0; 1 if no entry or more than one makes the attribute, or if it cannot be changed so; 2 if the text or VALUE is not Nix, or
if something cannot be read or written.
",
    flags: &[
        "--raw",
        "--list",
        "--add",
        "--remove",
        "--append",
        "--remove-item",
        "--get",
        "--each",
        "--force",
        "-i",
    ],
    has_colors: false,
    has_excludes: false,
    min_words: 1,
    max_words: 3,
};

// Writes a message about a file, with the line and the column of an offset if it has one.
fn report(
    rt: &HostRuntime,
    name: &str,
    text: &str,
    offset: Option<usize>,
    message: &str,
) -> io::Result<()> {
    let shown = display_name(name);
    match offset {
        Some(offset) => {
            let (line, column) = location_of(text, offset);
            eprintln!(rt; "{}: {shown}:{line}:{column}: {message}", COMMAND.name)?;
        }
        None => eprintln!(rt; "{}: {shown}: {message}", COMMAND.name)?,
    }
    Ok(())
}

// Reports why a text is not updated, and where, after the path of the attribute if it is given.
fn refuse_update(
    rt: &HostRuntime,
    name: &str,
    text: &str,
    path: Option<&str>,
    refused: Refused,
) -> io::Result<u8> {
    let own = refused.reason;
    let reason = match path {
        Some(path) => format!(in rt.alloc(); "{path}: {own}")?,
        None => format!(in rt.alloc(); "{own}")?,
    };
    let message = match refused.first {
        Some(first) => {
            let (line, column) = location_of(text, first);
            format!(in rt.alloc(); "{reason}; the first is at {line}:{column}")?
        }
        None => format!(in rt.alloc(); "{reason}")?,
    };
    report(rt, name, text, refused.offset, message.as_str())?;
    Ok(if own.is_failure() { FAILED } else { FOUND })
}

// Returns the message for the case that the value of a name of a `let` is changed.
fn message_in_let(action: Action) -> &'static str {
    match action {
        Action::Append => {
            "no attribute has this path: an element is added to the list of this name of a `let`"
        }
        Action::RemoveItem => {
            "no attribute has this path: the element is removed from the list of this name of a `let`"
        }
        Action::Set | Action::Add | Action::Remove => {
            "no attribute has this path: this name of a `let` is set"
        }
    }
}

// Reads a file, or standard input if it is not to be written, or says why it cannot.
fn read_file(rt: &HostRuntime, name: &str, in_place: bool) -> io::Result<Option<String>> {
    if in_place && name == "-" {
        refuse(rt, &COMMAND, "-i needs a FILE")?;
        return Ok(None);
    }
    read_text(rt, &COMMAND, name)
}

// Writes the updated text of a file.
fn update_file(rt: &HostRuntime, name: &str, update: Update<'_>, in_place: bool) -> io::Result<u8> {
    let Some(text) = read_file(rt, name, in_place)? else {
        return Ok(FAILED);
    };
    match fully_updated(rt.alloc(), text.as_str(), update)? {
        Outcome::Updated(made) => write_text(rt, &COMMAND, name, made.as_str(), in_place),
        Outcome::SetInLet(made, offset) => {
            let status = write_text(rt, &COMMAND, name, made.as_str(), in_place)?;
            if status == 0 {
                let message = message_in_let(update.action);
                report(rt, name, text.as_str(), Some(offset), message)?;
            }
            Ok(status)
        }
        Outcome::Refused(refused) => refuse_update(rt, name, text.as_str(), None, refused),
    }
}

// Prints the source of a value, and a line feed.
fn print_source(rt: &HostRuntime, name: &str, source: String) -> io::Result<u8> {
    let mut line = source;
    line.push('\n')?;
    write_text(rt, &COMMAND, name, line.as_str(), false)
}

// The message for the case that the value of a name of a `let` is printed.
const FOUND_IN_LET: &str = "no attribute has this path: this is the value of a name of a `let`";

// Prints the source of the value of the attribute with a path.
fn print_value(rt: &HostRuntime, name: &str, path: &str) -> io::Result<u8> {
    let Some(text) = read_text(rt, &COMMAND, name)? else {
        return Ok(FAILED);
    };
    match value_source(rt.alloc(), text.as_str(), path)? {
        Source::Attribute(source) => print_source(rt, name, source),
        Source::NameOfLet(source, offset) => {
            let status = print_source(rt, name, source)?;
            if status == 0 {
                report(rt, name, text.as_str(), Some(offset), FOUND_IN_LET)?;
            }
            Ok(status)
        }
        Source::Refused(refused) => refuse_update(rt, name, text.as_str(), None, refused),
    }
}

// Says on standard error that a new attribute or element is a string, if its text is also a number, `true`, `false` or `null`.
fn tell_of_string(rt: &HostRuntime, update: Update<'_>) -> io::Result<()> {
    let is_new = matches!(update.action, Action::Add | Action::Append);
    if !is_new || update.form != Form::Text {
        return Ok(());
    }
    if !is_other_value(rt.alloc(), update.value)? {
        return Ok(());
    }
    let value = update.value;
    eprintln!(rt;
        "{}: the value is the string \"{value}\"; with --raw it is {value}",
        COMMAND.name
    )
}

// Returns the refusal of an update of a text: that of the text itself, if it is refused for the same reason, and otherwise without an offset.
fn refusal_in(
    rt: &HostRuntime,
    text: &str,
    update: Update<'_>,
    reason: Reason,
) -> io::Result<Refused> {
    match fully_updated(rt.alloc(), text, update)? {
        Outcome::Refused(own) if own.reason == reason => Ok(own),
        _ => Ok(refuse_reason(reason)),
    }
}

// Says of which updates the attribute is a name of a `let`, and the value a string.
fn tell_of_each(
    rt: &HostRuntime,
    name: &str,
    updates: &[Update<'_>],
    in_let: &[usize],
) -> io::Result<()> {
    for number in in_let {
        if let Some(update) = updates.get(*number) {
            let path = update.path;
            let message = message_in_let(update.action);
            let line = format!(in rt.alloc(); "{path}: {message}")?;
            report(rt, name, "", None, line.as_str())?;
        }
    }
    Ok(())
}

// Writes the text of a file after several updates.
fn update_each(
    rt: &HostRuntime,
    name: &str,
    updates: &[Update<'_>],
    in_place: bool,
) -> io::Result<u8> {
    let Some(text) = read_file(rt, name, in_place)? else {
        return Ok(FAILED);
    };
    match all_updated(rt.alloc(), text.as_str(), updates)? {
        Several::Updated(made, in_let) => {
            let status = write_text(rt, &COMMAND, name, made.as_str(), in_place)?;
            if status == 0 {
                tell_of_each(rt, name, updates, in_let.as_slice())?;
            }
            Ok(status)
        }
        Several::Refused(number, refused) => match updates.get(number) {
            Some(update) => {
                let own = refusal_in(rt, text.as_str(), *update, refused.reason)?;
                refuse_update(rt, name, text.as_str(), Some(update.path), own)
            }
            None => refuse_update(rt, name, text.as_str(), None, refused),
        },
    }
}

// Updates several attributes of a file.
fn run_each(rt: &HostRuntime, arguments: &Arguments) -> io::Result<u8> {
    let updates = updates_of(rt.alloc(), arguments)?;
    let name = arguments.words.first().map_or("-", |word| word.as_str());
    let status = update_each(rt, name, updates.as_slice(), arguments.has("-i"))?;
    if status == 0 {
        for update in updates.as_slice() {
            tell_of_string(rt, *update)?;
        }
    }
    Ok(status)
}

// Updates an attribute of a file, or prints its value.
fn run_once(rt: &HostRuntime, arguments: &Arguments) -> io::Result<u8> {
    let mut words = arguments.words.iter();
    let path = words.next().map_or("", |word| word.as_str());
    let value = if has_no_value(arguments) {
        ""
    } else {
        words.next().map_or("", |word| word.as_str())
    };
    let name = words.next().map_or("-", |word| word.as_str());
    if arguments.has("--get") {
        return print_value(rt, name, path);
    }
    let update = update_of(arguments, path, value);
    let status = update_file(rt, name, update, arguments.has("-i"))?;
    if status == 0 {
        tell_of_string(rt, update)?;
    }
    Ok(status)
}

// Runs the command with some arguments.
fn run_with(rt: &HostRuntime, arguments: &Arguments) -> io::Result<u8> {
    if let Some(reason) = wrong_with(arguments) {
        refuse(rt, &COMMAND, reason)?;
        return Ok(FAILED);
    }
    if arguments.has("--each") {
        run_each(rt, arguments)
    } else {
        run_once(rt, arguments)
    }
}

// Returns the command for some arguments: with `--each`, it has any number of words.
fn command_for(arguments: &[String]) -> Command {
    let mut command = COMMAND;
    for argument in arguments {
        if argument.as_str() == "--" {
            return command;
        }
        if argument.as_str() == "--each" {
            command.max_words = usize::MAX;
        }
    }
    command
}

/// Prints or writes a text in which an attribute has another value, is added or is gone, or an element of a list is, or prints a value. Takes the arguments
/// that follow the name of the command, and returns the exit code.
pub fn run(rt: &HostRuntime, arguments: &[String]) -> ExitCode {
    let command = command_for(arguments);
    let outcome = match read_arguments(rt, &command, arguments) {
        Start::Run(arguments) => run_with(rt, &arguments),
        Start::End(outcome) => outcome,
    };
    end(rt, &COMMAND, outcome)
}
