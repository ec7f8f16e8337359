//! Facts about the children of a node that were read by a row.
#![tactic(auto)]
