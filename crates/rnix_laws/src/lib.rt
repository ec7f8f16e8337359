//! Laws that hold for every text. A law is the contract of a function that does nothing at run time. A caller's proof can use its clauses.
#![tactic(auto)]

mod prefix;
mod step_count;

pub use prefix::correct_prefix;
pub use rnix::laws::{
    all_follows, error_forms, has_reading, layout, longest, nodes_have_parts, one_derivation,
    one_list, one_reading, one_text, ranges_of_errors, size, tree_derivation, tree_text,
};
pub use rnix_proof_locality::locality;
pub use rnix_proof_lookahead::lookahead;
pub use rnix_proof_reparse::reparsing;
pub use rnix_proof_replacement::replacement;
pub use rnix_proof_separation::separation;
pub use step_count::steps;
