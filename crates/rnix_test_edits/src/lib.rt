//! Tests of edits by nodes: what they make of white space and comments, and what they refuse.
#![tactic(auto)]

#[cfg(test)]
mod alone;
#[cfg(test)]
mod found;
#[cfg(test)]
mod inserted;
#[cfg(test)]
mod removed;
#[cfg(test)]
mod replaced;
