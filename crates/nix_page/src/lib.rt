//! Shows a Nix text as a page: `rnix page [FILE] > PAGE` writes one HTML file with the colored source, its errors, and its tree.
#![tactic(auto)]

mod command;
mod html;
mod script;
mod source;
mod style;
mod tree;

pub use command::run;
