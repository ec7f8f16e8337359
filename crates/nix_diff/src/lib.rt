//! Diffs of texts by lines, in the unified format.
#![tactic(auto)]

mod diff;
mod unified;

pub use unified::unified_diff;
