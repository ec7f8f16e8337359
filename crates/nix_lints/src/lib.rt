//! Lints: what is wrong in texts without syntax errors, or could be said in fewer words. Each lint is a file, and a line of `all_lints.rt` or `nodes.rt`.
#![tactic(auto)]

mod all_lints;
mod bare_path;
mod called_data;
mod dynamic_name;
mod empty_let;
mod finding;
mod foreign;
mod ignored;
mod large_integer;
mod manual_inherit;
mod names;
mod needless_with;
mod nodes;
mod parentheses;
mod repeated_argument;
mod reported;
mod unused;
mod words;

pub use all_lints::lints;
pub use finding::{Finding, Reason};
pub use foreign::{ForeignSpace, foreign_spaces};
pub use reported::Reported;
pub use unused::{UnusedName, unused_names};
pub use words::{diagnostic, upper_digit};
