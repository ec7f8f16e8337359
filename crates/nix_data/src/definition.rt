//! A definition of an attribute.

use rnix::ast::{AstChildren, Attr};
use rnix::{SyntaxNode, TextRange};

/// The names of a path, one or more.
#[derive(Drop)]
pub struct Names<'t> {
    /// The first one.
    pub first: Attr<'t>,
    /// The others.
    pub others: AstChildren<'t, Attr<'t>>,
}

/// A definition of an attribute or of a part of it.
#[derive(Drop)]
pub struct Definition<'t> {
    /// The range of the attribute's name, or of the value if it has no name.
    pub range: TextRange,
    /// The names that follow it in the path of its entry.
    pub names: Option<Names<'t>>,
    /// The value.
    pub value: SyntaxNode<'t>,
}

/// Where to look for an attribute of an expression.
#[derive(Drop)]
pub enum Turn<'t> {
    /// These are its definitions.
    Found(Vec<Definition<'t>>),
    /// In this expression.
    Enter(SyntaxNode<'t>),
    /// In the right operand of `//`, which is the second, and if it has no definition, in the left one.
    Update(SyntaxNode<'t>, SyntaxNode<'t>),
}
