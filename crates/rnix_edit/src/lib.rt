//! Edits of a text by its nodes. Each is refused unless the new text, parsed again, has the old tree around the edited range, and the new node there.
#![tactic(auto)]

mod alone;
mod blanks;
mod check;
mod cut;
mod edited;
mod gap;
mod insert;
mod joining;
mod line;
mod node_range;
mod parsed_edit;
mod removing;
mod replacing;
mod same_tree;
mod steps;

pub use cut::{Cut, cut_of};
pub use edited::{Edited, Refusal};
pub use insert::{insert_after, insert_inside};
pub use removing::remove;
pub use replacing::replace;
