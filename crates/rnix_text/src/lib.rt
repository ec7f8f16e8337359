//! Lines, columns and edits of texts. Depends on std alone.
#![tactic(auto)]

mod edit_error;
mod edits;
mod line_column;
mod line_index;
mod runs;

pub use edit_error::EditError;
pub use edits::Edits;
pub use line_column::{ColumnUnit, Position};
pub use line_index::LineIndex;
