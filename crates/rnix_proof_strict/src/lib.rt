//! The leaves of an expression of the strict grammar are tokens, and none of its trees is an accepted extension.
#![tactic(auto)]
