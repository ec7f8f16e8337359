//! Renames a binding and its uses: `rnix rename [-i] FILE LINE:COLUMN NAME` prints the text of FILE in which the name at that place, its binding and its other
//! uses are replaced by NAME. It refuses to if any name would then mean something else.
#![tactic(auto)]

mod command;
mod refusal;
mod renaming;

pub use command::run;
pub use refusal::{Obstacle, Refusal};
pub use renaming::{Renaming, rename};
