//! Nodes and tokens, which borrow a tree: navigation, walks, and printing.
#![tactic(auto)]

mod ancestors;
mod by_kind;
mod covering;
mod debug;
mod descendants;
mod digits;
mod element;
mod identity;
mod neighbours;
mod node;
mod nodes;
mod offset;
mod pointer;
mod printing;
mod relatives;
mod sibling_range;
mod siblings;
mod token;
mod walk;

pub use ancestors::Ancestors;
pub use by_kind::{SyntaxElementChildrenByKind, SyntaxNodeChildrenByKind};
pub use descendants::{Descendants, DescendantsWithTokens};
pub use element::{NodeOrToken, SyntaxElement, WalkEvent};
pub use node::SyntaxNode;
pub use nodes::{Preorder, SyntaxNodeChildren};
pub use offset::TokenAtOffset;
pub use pointer::SyntaxNodePtr;
pub use printing::{dump, write_element};
pub use rnix_green::{Checkpoint, GreenNode, GreenNodeBuilder, TextRange, TextSize};
pub use siblings::{Direction, Siblings, SiblingsWithTokens};
pub use token::SyntaxToken;
pub use walk::{PreorderWithTokens, SyntaxElementChildren};
