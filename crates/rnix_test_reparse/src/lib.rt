//! Parses after edits, compared with parses of the new texts.
#![tactic(auto)]

#[cfg(test)]
mod compared;
#[cfg(test)]
mod edits;
