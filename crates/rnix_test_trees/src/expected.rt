//! Whether what was found is what is wanted.

use rnix_kinds::SyntaxKind;
use rnix_tree::{SyntaxElement, SyntaxNode, SyntaxToken};

/// Whether there is a node with this text.
pub fn is_node(found: Option<SyntaxNode<'_>>, text: &str) -> bool {
    match found {
        Some(node) => node.text() == text,
        None => false,
    }
}

/// Whether there is a token with this text.
pub fn is_token(found: Option<SyntaxToken<'_>>, text: &str) -> bool {
    match found {
        Some(token) => token.text() == text,
        None => false,
    }
}

/// Whether there is a node or a token of this kind that starts at `start`.
pub fn is_element(found: Option<SyntaxElement<'_>>, kind: SyntaxKind, start: usize) -> bool {
    match found {
        Some(element) => element.kind() == kind && element.text_range().start() == start,
        None => false,
    }
}
