//! What all commands share: options, files and folders, refusals, and exit statuses.
#![tactic(auto)]

mod arguments;
mod byte_classes;
mod colors;
mod ending;
mod excerpt;
mod file_replacement;
mod files;
mod folders;
mod globs;
mod ignores;
mod json;
mod progress;
mod reading;
mod source;

pub use arguments::{
    Arguments, Command, Start, VERSION, parse_arguments, process_arguments, read_arguments,
};
pub use colors::is_colored;
pub use ending::{FAILED, FOUND, end, file_status, refuse, refuse_after_output};
pub use excerpt::write_excerpt;
pub use file_replacement::{replace_text, replaceable};
pub use files::{Files, Inputs, display_name, find_files, find_inputs, location_of, write_text};
pub use json::{write_json_string, write_shown};
pub use progress::Progress;
pub use reading::{TextReader, read_text};
pub use source::{Source, write_source_location};
