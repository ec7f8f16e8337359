//! Syntax errors as diagnostics for people: one for each mistake, with a message, a range and notes.
#![tactic(auto)]

mod brackets;
mod closing_quotes;
mod closings;
mod code;
mod diagnosis;
mod diagnostic;
mod ends;
mod error_nodes;
mod folding;
mod foreign;
mod hints;
mod locations;
mod message;
mod near;
mod notes;
mod openings;
mod proposals;
mod replacement;
mod rules;
mod semicolons;
mod token_errors;
mod unexpected;
mod with_sets;
mod words;

pub use code::{Code, Severity};
pub use diagnosis::Diagnosis;
pub use diagnostic::{Diagnostic, all_diagnostics, diagnostics, first_diagnostics};
pub use notes::Note;
pub use replacement::Replacement;
pub use rules::{CODES, Rule};
