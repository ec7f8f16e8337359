//! How far an open node or operand is read.

/// How far a node or an operand is read.
#[derive(Clone, Copy)]
pub enum Position {
    /// In a node's row, at the index of a slot.
    InRow(u8),
    /// After an operand, which operators of the levels from the first to the second may continue.
    AfterOperand(u8, u8),
    /// Before the right operand of a binary operator, which has at least this level.
    Right(u8),
}
