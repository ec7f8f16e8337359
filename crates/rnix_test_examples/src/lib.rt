//! Tests of the examples in README.md and `docs`: uses of typed nodes, edits, messages and fixes, recursions and loops, and an `unwrap` that never fails.
#![tactic(auto)]

#[cfg(test)]
mod again;
#[cfg(test)]
mod chains;
#[cfg(test)]
mod edits;
#[cfg(test)]
mod messages;
#[cfg(test)]
mod readme;
#[cfg(test)]
mod recursion;
#[cfg(test)]
mod uses;
#[cfg(test)]
mod whole;
