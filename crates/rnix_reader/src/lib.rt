//! The reader: it processes the tokens of a text step by step, and builds the tree.
#![tactic(auto)]

mod cursor;
mod document;
mod entries;
mod leaf_kind;
mod mark;
mod operands;
mod parser;
mod pattern_names;
mod reading;
mod runs;
mod steps;
mod turns;

pub use document::read_tokens;
