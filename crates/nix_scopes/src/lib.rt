//! The names that a text binds, and the binding that each name in it refers to.
#![tactic(auto)]

mod added;
mod environment;
mod globals;
mod merged;
mod name_maps;
mod name_roles;
mod name_text;
mod names;
mod occurrences;
mod owners;
mod places;
mod renaming;
mod resolution;
mod resolving;
mod scopes;
mod symbols;
mod trie;

pub use globals::is_global;
pub use occurrences::name_at;
pub use resolution::{Binding, Reference, Resolution};
pub use resolving::resolve;
