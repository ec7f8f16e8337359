//! Trees that are built of steps.

use rnix_kinds::SyntaxKind;
use rnix_tree::{GreenNode, GreenNodeBuilder};
use std::alloc::{AllocError, Global};

/// A step of a builder.
#[derive(Clone, Copy)]
pub enum Step<'a> {
    /// A node begins.
    Start(SyntaxKind),
    /// A leaf with its text.
    Leaf(SyntaxKind, &'a str),
    /// A node over one leaf with its text, at once.
    LeafNode(SyntaxKind, SyntaxKind, &'a str),
    /// The innermost node ends.
    Finish,
}

// Takes a step. `Finish` does nothing if no node is open.
fn take(builder: &mut GreenNodeBuilder, step: Step<'_>) -> Result<(), AllocError> {
    match step {
        Step::Start(kind) => builder.start_node(kind),
        Step::Leaf(kind, text) => builder.token(kind, text),
        Step::LeafNode(kind, leaf, text) => builder.leaf_node(kind, leaf, text),
        Step::Finish if builder.open_nodes() > 0 => builder.finish_node(),
        Step::Finish => Ok(()),
    }
}

/// The tree that the steps build, or an error if they do not complete one.
pub fn built(alloc: Global, steps: &[Step<'_>]) -> Result<GreenNode, AllocError> {
    let mut builder = GreenNodeBuilder::new(alloc);
    for step in steps {
        take(&mut builder, *step)?;
    }
    if builder.is_complete() {
        return builder.finish();
    }
    Err(AllocError)
}
