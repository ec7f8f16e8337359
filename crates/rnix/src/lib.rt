//! A lossless parser for the Nix language: it turns any text into a tree that keeps every byte, and a list of errors.
#![tactic(auto)]

pub mod ast;
pub mod laws;
mod root;
mod whole;

pub use ast::Root;
pub use rnix_grammar::ParseError;
pub use rnix_kinds::{ParseSyntaxKindError, SyntaxKind, Token, TokenSet, Tokenizer, tokenize};
pub use rnix_text::{ColumnUnit, EditError, Edits, LineIndex, Position};
pub use rnix_tree::{
    Ancestors, Checkpoint, Descendants, DescendantsWithTokens, Direction, GreenNode,
    GreenNodeBuilder, NodeOrToken, Preorder, PreorderWithTokens, Siblings, SiblingsWithTokens,
    SyntaxElement, SyntaxElementChildren, SyntaxElementChildrenByKind, SyntaxNode,
    SyntaxNodeChildren, SyntaxNodeChildrenByKind, SyntaxNodePtr, SyntaxToken, TextRange, TextSize,
    TokenAtOffset, WalkEvent, dump,
};
pub use root::Parse;
pub use whole::nodes_have_parts;
