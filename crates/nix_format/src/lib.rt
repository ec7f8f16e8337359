//! Writes Nix files in the style of Nixpkgs: `rnix format [OPTION..] [FILE..]`, or with no file the text on standard input.
#![tactic(auto)]

mod command;
mod file;
mod report;

pub use command::run;
