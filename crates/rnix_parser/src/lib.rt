//! The parser: from tokens to a tree and errors, with all promises about them.
#![tactic(auto)]

mod derivation;
mod error_ranges;
mod parsing;
mod readings;

pub use derivation::{one_derivation, tree_derivation};
pub use error_ranges::ranges_of_errors;
pub use parsing::parse;
pub use readings::{
    all_follows, error_forms, has_reading, layout, one_reading, one_text, size, tree_text,
};
