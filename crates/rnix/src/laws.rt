//! The laws on which the parser and the programs build; the crate `rnix_laws` has more. A law is the contract of a function that does nothing at run time.
//! A caller's proof can use its clauses.

pub use crate::whole::nodes_have_parts;
pub use rnix_kinds::{longest, one_list};
pub use rnix_parser::{
    all_follows, error_forms, has_reading, layout, one_derivation, one_reading, one_text,
    ranges_of_errors, size, tree_derivation, tree_text,
};
