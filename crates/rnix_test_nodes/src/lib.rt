//! Tests of typed nodes and tokens, of their sums and second handles, of strings and paths, of what a program keeps of a text, and of the
//! names that a user writes.
#![tactic(auto)]

#[cfg(test)]
mod handles;
#[cfg(test)]
mod kept;
#[cfg(test)]
mod names;
#[cfg(test)]
mod paths;
#[cfg(test)]
mod strings;
#[cfg(test)]
mod sums;
#[cfg(test)]
mod typed;
