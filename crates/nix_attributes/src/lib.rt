//! The attributes that the entries of a text define: which names define the same one, and which define one again.
#![tactic(auto)]

mod attributes;
mod definition;
mod entries;
mod homes;
mod repeated;

pub use homes::Homes;
pub use repeated::{Repeated, repeated_attributes};
