//! Texts in a new layout.

use crate::collecting::layout_of;
use crate::repeating::is_repeated;
use crate::writing::written;
use rnix::SyntaxNode;
use std::alloc::{AllocError, Global};

/// A text in a new layout.
#[derive(Drop)]
pub struct NewText {
    /// The text.
    pub text: String,
    /// Whether it is known to stay the same if it is styled again.
    pub is_stable: bool,
}

/// Returns a text with the white space and the indentation of strings in the style of Nixpkgs, given its root. The text has no errors.
/// The contract says nothing about the result: `formatted` of `nix_formatting` compares it with the text.
pub fn styled(alloc: Global, text: &str, root: &SyntaxNode<'_>) -> Result<NewText, AllocError> {
    let mut layout = layout_of(alloc, root)?;
    let mut made = written(alloc, text, &layout)?;
    let is_stable = made.text.as_str() == text
        || is_repeated(text, made.line_end, &mut layout, &mut made.modes);
    Ok(NewText {
        text: made.text,
        is_stable,
    })
}
