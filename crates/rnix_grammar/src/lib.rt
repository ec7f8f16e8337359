//! The tables of the grammar, by which the reader decides, and the errors that it reports.
#![tactic(auto)]

mod action;
mod error;
mod expected_set;
mod level;
mod operand_start;
mod part_action;
mod position;
mod rules;
mod slot_table;

pub use action::{Action, action_at_slot, continue_action, is_past, may_continue};
pub use error::ParseError;
pub use expected_set::{ExpectedSet, operand_kinds, stops, wanted_kinds};
pub use level::{APPLICATION_LEVEL, EXPRESSION_LEVEL, NO_LEVEL, SELECTION_LEVEL};
pub use operand_start::{OperandStart, operand_start_of};
pub use position::Position;
pub use rules::{Part, ROWS};
pub use slot_table::{
    APPLIED, BIN_OP_END, BOUND_PATTERN, LAMBDA, LEGACY_LET, PAT_ENTRY, PATTERN, ROOT, SECOND_BIND,
    SLOTS, Slot,
};
