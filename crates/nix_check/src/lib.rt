//! Reports syntax errors of Nix files by rnix's grammar and, in files without any, what lints find:
//! `rnix check [OPTION..] [FILE..]`, by default of standard input.
#![tactic(auto)]

mod check;
mod command;
mod disabled;
mod fixing;
mod json;
mod lint_fixes;
mod report;
mod sarif;
mod style;
mod tally;
mod text;

pub use command::run;
