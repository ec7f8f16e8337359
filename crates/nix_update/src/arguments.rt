//! The updates that a command line asks for.

use crate::request::{Action, Update};
use crate::value::Form;
use nix_cli::Arguments;
use std::alloc::{AllocError, Global};

// The message on a command line with too few arguments.
const MISSING: &str = "an argument is missing";

// The options that are actions, of which a command line has at most one.
const ACTIONS: [&str; 5] = ["--add", "--remove", "--append", "--remove-item", "--get"];

// Returns whether a command line has several actions.
fn has_several_actions(arguments: &Arguments) -> bool {
    let mut has_one = false;
    for action in ACTIONS {
        if arguments.has(action) {
            if has_one {
                return true;
            }
            has_one = true;
        }
    }
    false
}

/// Returns whether a command line has no VALUE.
pub fn has_no_value(arguments: &Arguments) -> bool {
    arguments.has("--remove") || arguments.has("--get")
}

// Returns the message on the options of a command line if these are wrong.
fn wrong_options(arguments: &Arguments) -> Option<&'static str> {
    let (is_raw, is_list) = (arguments.has("--raw"), arguments.has("--list"));
    let is_item = arguments.has("--append") || arguments.has("--remove-item");
    if is_raw && is_list {
        Some("--raw and --list exclude each other")
    } else if has_several_actions(arguments) {
        Some("--add, --remove, --append, --remove-item and --get exclude each other")
    } else if has_no_value(arguments) && (is_raw || is_list) {
        Some("--remove and --get have no VALUE, so no --raw or --list")
    } else if is_item && is_list {
        Some("--append and --remove-item have one element as VALUE, so no --list")
    } else if arguments.has("--force") && !arguments.has("--add") && !arguments.has("--remove") {
        Some("--force needs --add or --remove")
    } else if arguments.has("--get") && (arguments.has("-i") || arguments.has("--each")) {
        Some("--get prints one value, so it has no -i or --each")
    } else {
        None
    }
}

// Returns the message on the number of arguments besides options if it is wrong.
fn wrong_count(arguments: &Arguments) -> Option<&'static str> {
    let count = arguments.words.len();
    if has_no_value(arguments) {
        if count > 2 {
            Some("an argument is too many: --remove and --get have no VALUE")
        } else {
            None
        }
    } else if count < 2 {
        Some(MISSING)
    } else {
        None
    }
}

// Returns the message on the number of arguments besides options of several updates if it is wrong.
fn wrong_count_of_each(arguments: &Arguments) -> Option<&'static str> {
    let count = arguments.words.len();
    if count < 2 || !has_no_value(arguments) && count % 2 == 0 {
        Some(MISSING)
    } else {
        None
    }
}

/// Returns the message on a command line that is wrong, if it is.
pub fn wrong_with(arguments: &Arguments) -> Option<&'static str> {
    if let Some(reason) = wrong_options(arguments) {
        return Some(reason);
    }
    if arguments.has("--each") {
        wrong_count_of_each(arguments)
    } else {
        wrong_count(arguments)
    }
}

// Returns the action that a command line asks for, if it is not `--get`.
fn action_of(arguments: &Arguments) -> Action {
    if arguments.has("--remove") {
        Action::Remove
    } else if arguments.has("--add") {
        Action::Add
    } else if arguments.has("--append") {
        Action::Append
    } else if arguments.has("--remove-item") {
        Action::RemoveItem
    } else {
        Action::Set
    }
}

// Returns the form of VALUE.
fn form_of(arguments: &Arguments) -> Form {
    if arguments.has("--raw") {
        Form::Raw
    } else if arguments.has("--list") {
        Form::List
    } else {
        Form::Text
    }
}

/// Returns the update of the attribute with a path.
pub fn update_of<'a>(arguments: &Arguments, path: &'a str, value: &'a str) -> Update<'a> {
    Update {
        action: action_of(arguments),
        path,
        form: form_of(arguments),
        value,
        is_forced: arguments.has("--force"),
    }
}

/// Returns the updates after the name of a file: of each PATH with the VALUE after it, or of each PATH if there is no VALUE.
pub fn updates_of<'a>(
    alloc: Global,
    arguments: &'a Arguments,
) -> Result<Vec<Update<'a>>, AllocError> {
    let mut updates = Vec::new(alloc);
    let mut path = None;
    let Some(words) = arguments.words.get(1..) else {
        return Ok(updates);
    };
    for word in words {
        match path {
            Some(before) => {
                updates.push(update_of(arguments, before, word.as_str()))?;
                path = None;
            }
            None if has_no_value(arguments) => {
                updates.push(update_of(arguments, word.as_str(), ""))?;
            }
            None => path = Some(word.as_str()),
        }
    }
    Ok(updates)
}
