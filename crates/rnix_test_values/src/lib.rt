//! Tests of data: the outcomes for many JSON texts and for data of many forms are those that the digests store, and paths lead to what their names say.
#![tactic(auto)]

#[cfg(test)]
mod built_data;
#[cfg(test)]
mod data_paths;
#[cfg(test)]
mod digest;
#[cfg(test)]
mod json_objects;
#[cfg(test)]
mod json_pieces;
#[cfg(test)]
mod sample_data;
#[cfg(test)]
mod written_data;
