//! The layout of Nix texts in the style of Nixpkgs: pieces, with white space between them, in groups that are on one line if they fit.
#![tactic(auto)]

mod absorbing;
mod collecting;
mod comments;
mod describing;
mod frame;
mod grouping;
mod indentation;
mod layout;
mod line_ends;
mod line_feed_escapes;
mod lines;
mod measuring;
mod modes;
mod piece;
mod repeating;
mod restyling;
mod spacing;
mod writing;

pub use restyling::{NewText, styled};
