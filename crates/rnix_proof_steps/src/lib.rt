//! The steps of the reader on a text: at most fifteen for two items, and one more.
#![tactic(auto)]
