//! Nodes that tests edit, and the results as texts.

use rnix::{SyntaxKind, SyntaxNode};
use rnix_edit::{Edited, Refusal};
use std::alloc::{AllocError, Global};

/// Returns the first node of a kind with a text.
pub fn node_of<'t>(root: &SyntaxNode<'t>, kind: SyntaxKind, text: &str) -> Option<SyntaxNode<'t>> {
    for node in root.descendants() {
        if node.kind() == kind && node.text() == text {
            return Some(node);
        }
    }
    None
}

// Returns the words for a refusal.
fn refusal_text(refusal: Refusal) -> &'static str {
    match refusal {
        Refusal::NotInText => "not in the text",
        Refusal::HasErrors => "errors",
        Refusal::ReadOtherwise => "read otherwise",
        Refusal::NodeReadOtherwise => "node read otherwise",
    }
}

/// Returns the new text, or the words for the refusal.
pub fn shown(alloc: Global, edited: Edited) -> Result<String, AllocError> {
    match edited {
        Edited::Done(text) => Ok(text),
        Edited::Refused(refusal) => String::from_str(alloc, refusal_text(refusal)),
    }
}
