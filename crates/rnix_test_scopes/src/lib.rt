//! Tests of names: `resolve` agrees with a second implementation, which has a map for each scope, on fixed and on random texts. Tests of repeated
//! attributes, of white space that Nix refuses, and of the other lints.
#![tactic(auto)]

#[cfg(test)]
mod bound_names;
#[cfg(test)]
mod foreign;
#[cfg(test)]
mod lint_texts;
#[cfg(test)]
mod made_texts;
#[cfg(test)]
mod repetitions;
#[cfg(test)]
mod resolutions;
#[cfg(test)]
mod scope_maps;
