//! Trees of the strict grammar are read as they are.
#![tactic(auto)]
