//! The data of a Nix text, and data as a Nix text.
#![tactic(auto)]

mod constants;
mod definition;
mod definitions;
mod keys;
mod laws;
mod meaning;
mod misread;
mod names;
mod nix_reader;
mod nix_writer;
mod no_data;
mod scalars;
mod selected_data;
mod selection;
mod values;

pub use laws::{one_data, one_meaning};
pub use nix_reader::{data_in, data_of};
pub use nix_writer::nix_of;
pub use no_data::{NoData, Reason};
pub use selected_data::data_at;
