//! Prints which names Nix files bind, and what each name in them refers to: `rnix names [OPTION..] [FILE..]`, by default of standard input.
#![tactic(auto)]

mod command;
mod lines;

pub use command::run;
