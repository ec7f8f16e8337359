//! The nodes that end at an item depend on what follows only through the kind of the next item.
#![tactic(auto)]

mod law;

pub use law::lookahead;
