//! The tree of a text in which what is inside a bracketed node was edited.
#![tactic(auto)]

mod law;

pub use law::reparsing;
