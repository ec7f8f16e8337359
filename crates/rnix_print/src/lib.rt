//! The errors and the tree of a text, as `rnix tree` and `nix-tree` print them.
#![tactic(auto)]

mod command;
mod error_lines;
mod json;
mod printing;
mod tree_lines;

pub use command::{COMMAND, run};
pub use printing::{PrintError, print_text};
pub use rnix_tree::dump;
