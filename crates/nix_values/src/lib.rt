//! Data as a flat list of values, read from JSON and written as JSON.
#![tactic(auto)]

mod attributes;
mod builder;
mod bytes;
mod data;
mod float;
mod json_content;
mod json_error;
mod json_found;
mod json_numbers;
mod json_reader;
mod json_strings;
mod json_tokens;
mod json_writer;
mod layout;
mod links;
mod nodes;
mod notation;
mod ordered;
mod path;
mod path_names;
mod slots;

pub use builder::Builder;
pub use data::{Data, Item, Value};
pub use float::{float_of, is_held};
pub use json_error::{JsonError, JsonReason};
pub use json_reader::data_of_json;
pub use json_writer::json_of;
pub use layout::push_indentation;
pub use notation::{Notation, kept};
pub use path_names::{PathName, names_of};
