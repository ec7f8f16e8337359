//! Tests of kinds, of trees that were built by hand or read, of walks, errors, ranges, lines and edits, and of what is printed.
#![tactic(auto)]

#[cfg(test)]
mod beside;
#[cfg(test)]
mod builder_steps;
#[cfg(test)]
mod built_trees;
#[cfg(test)]
mod elements;
#[cfg(test)]
mod ends;
#[cfg(test)]
mod errors;
#[cfg(test)]
mod expected;
#[cfg(test)]
mod faults;
#[cfg(test)]
mod identity;
#[cfg(test)]
mod kinds;
#[cfg(test)]
mod parsed;
#[cfg(test)]
mod pointers;
#[cfg(test)]
mod proportion;
#[cfg(test)]
mod ranges;
#[cfg(test)]
mod skipping;
#[cfg(test)]
mod splices;
#[cfg(test)]
mod texts;
#[cfg(test)]
mod tree_printing;
#[cfg(test)]
mod trees;
#[cfg(test)]
mod walks;
