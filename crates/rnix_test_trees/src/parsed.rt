//! Texts that are read, without typed nodes.

use rnix_grammar::ParseError;
use rnix_green::GreenNode;
use rnix_kinds::tokenize;
use rnix_parser::parse;
use rnix_tree::SyntaxNode;
use std::alloc::{AllocError, Global};

/// The tree of a text, and its errors.
#[derive(Drop)]
pub struct Parsed {
    green: GreenNode,
    errors: Vec<ParseError>,
}

impl Parsed {
    /// Reads a text.
    pub fn new(alloc: Global, text: &str) -> Result<Self, AllocError> {
        let (green, errors) = parse(alloc, tokenize(alloc, text))?;
        Ok(Parsed { green, errors })
    }

    /// The node at the root.
    pub fn syntax(&self) -> SyntaxNode<'_> {
        SyntaxNode::new_root(&self.green)
    }

    /// The tree as data.
    pub fn green(&self) -> &GreenNode {
        &self.green
    }

    /// The errors.
    pub fn errors(&self) -> &[ParseError] {
        &self.errors
    }
}
