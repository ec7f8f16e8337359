//! The items of an expression, read alone, are that expression.
#![tactic(auto)]

mod law;

pub use law::locality;
