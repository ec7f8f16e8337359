//! The size of a tree: its nodes are at most twice the items of the text, and three more.
#![tactic(auto)]
