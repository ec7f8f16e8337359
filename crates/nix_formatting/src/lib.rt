//! Nix texts with other white space, other indentation of strings, and other commas and comments, in the style of Nixpkgs.
#![tactic(auto)]

mod alike;
mod comments;
mod formatting;
pub mod laws;
mod parts;
mod retokened;
mod stabilizing;
mod values;
mod walks;

pub use formatting::{Formatting, formatted};
