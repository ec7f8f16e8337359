//! Prints the data of a Nix text as JSON: `rnix json [--lossy] [FILE [PATH]]`, and JSON as Nix: `rnix json --to-nix [FILE]`.
#![tactic(auto)]

mod command;
mod report;

pub use command::run;
