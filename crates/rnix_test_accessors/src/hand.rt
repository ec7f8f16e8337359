//! Nodes that are built by hand.

use rnix::{GreenNode, GreenNodeBuilder, SyntaxKind};
use std::alloc::{AllocError, Global};

/// A node over leaves with their texts.
pub fn node_over(
    alloc: Global,
    kind: SyntaxKind,
    leaves: &[(SyntaxKind, &str)],
) -> Result<GreenNode, AllocError> {
    let mut builder = GreenNodeBuilder::new(alloc);
    builder.start_node(kind)?;
    for (leaf, text) in leaves {
        builder.token(*leaf, text)?;
    }
    if builder.open_nodes() > 0 {
        builder.finish_node()?;
    }
    if builder.is_complete() {
        return builder.finish();
    }
    Err(AllocError)
}
