//! Sets, adds and removes attributes of a Nix text, and elements of lists, and changes nothing else: `rnix update [OPTION..] PATH VALUE [FILE]` prints the
//! text of FILE or of standard input in which the attribute of the dotted PATH has the VALUE. PATH has names as they are written in the text, quotes
//! included. `rnix update --get PATH [FILE]` prints the source of the value.
#![tactic(auto)]

mod adding;
mod arguments;
mod change;
mod command;
mod completed;
mod definitions;
mod elements;
mod guard;
mod inner;
mod insertion_sets;
mod lists;
mod meaning;
mod node_start;
mod other_value;
mod outcome;
mod path;
mod path_match;
mod plain;
mod removing;
mod request;
mod setting;
mod several;
mod source;
mod steps;
mod update;
mod value;

pub use command::run;
pub use completed::fully_updated;
pub use outcome::{Outcome, Reason, Refused};
pub use request::{Action, Update};
pub use several::{Several, all_updated};
pub use source::{Source, value_source};
pub use update::updated;
pub use value::Form;
