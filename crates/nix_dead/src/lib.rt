//! Prints the bindings that nothing uses, or removes them: `rnix dead [OPTION..] [FILE..]`, by default those of standard input.
#![tactic(auto)]

mod applied;
mod command;
mod comments;
mod dead;
mod edit;
mod editing;
mod meaning;
mod options;
mod place;
mod proposals;
mod removal;
mod report;
mod underscore;

pub use command::run;
pub use dead::{dead_names, reported_names, start_of};
pub use editing::{Edited, remove_unused};
pub use options::Options;
