//! The start of a node.

use rnix::SyntaxNode;

/// Returns the start of a node.
pub fn start_of(node: &SyntaxNode<'_>) -> usize {
    node.text_range().start()
}
