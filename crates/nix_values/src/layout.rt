//! Lines and their indentation.

use std::alloc::AllocError;

// The spaces per level.
const LEVEL: &str = "  ";

// Deeper levels are indented like this one, so that the length of the text stays proportional to that of the data.
const DEEPEST: usize = 32;

/// Begins a line at a depth.
pub fn push_indentation(depth: usize, text: &mut String) -> Result<(), AllocError> {
    for _level in 0..depth.min(DEEPEST) {
        text.push_str(LEVEL)?;
    }
    Ok(())
}
