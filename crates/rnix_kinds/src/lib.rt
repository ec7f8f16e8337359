//! The kinds of Nix tokens and nodes, sets of kinds, and the tokenizer.
#![tactic(auto)]

mod kinds;
mod raw;
mod token_set;
mod tokenizer;

pub use kinds::{ParseSyntaxKindError, SyntaxKind};
pub use token_set::{TokenSet, same_sets};
pub use tokenizer::{Token, Tokenizer, longest, one_list, tokenize};
