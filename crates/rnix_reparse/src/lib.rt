//! The parse of a text after an edit, from the tree of the text before.
#![tactic(auto)]

mod brackets;
mod comparing;
mod editable;
mod in_place;
mod nesting;
mod reparsing;
mod replacing;
mod texts;

pub use editable::{editable_range, parse_text};
pub use in_place::reparse_in_place;
pub use reparsing::reparse;
pub use texts::edited_text;
