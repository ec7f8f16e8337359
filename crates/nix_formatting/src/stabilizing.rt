//! Texts that stay the same when they are formatted again.

use nix_layout::{NewText, styled};
use rnix::Root;
use std::alloc::{AllocError, Global};

// The greatest number of times that a text is formatted again.
const ROUNDS: usize = 4;

// Formats a new text again. Returns `None` if it has errors.
fn styled_again(alloc: Global, made: &str) -> Result<Option<NewText>, AllocError> {
    let read = Root::parse(alloc, made)?;
    if !read.errors().is_empty() {
        return Ok(None);
    }
    let again = styled(alloc, made, &read.syntax())?;
    Ok(Some(NewText {
        is_stable: again.is_stable || again.text.as_str() == made,
        text: again.text,
    }))
}

/// Returns a text that stays the same when it is formatted again: the new text, or the result of formatting it a few more times. Returns `None` if there is
/// none among these, or if the new text has errors.
pub fn stabilized(alloc: Global, made: NewText) -> Result<Option<String>, AllocError> {
    let mut made = made;
    for _ in 0..ROUNDS {
        if made.is_stable {
            break;
        }
        match styled_again(alloc, made.text.as_str())? {
            Some(again) => made = again,
            None => return Ok(None),
        }
    }
    Ok(if made.is_stable {
        Some(made.text)
    } else {
        None
    })
}
