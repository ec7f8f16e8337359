//! Syntax trees as data: a builder, and the tree that it makes.
#![tactic(auto)]

mod builder;
mod elements;
mod entries;
mod green;
mod in_place;
mod packed;
mod postorder;
mod range;
mod splice;
mod text_builder;

pub use builder::{Checkpoint, GreenNodeBuilder};
pub use elements::ElementList;
pub use green::{Element, GreenNode};
pub use range::{TextRange, TextSize};
pub use text_builder::TextBuilder;
