//! The traits of typed nodes and tokens, child selection, typed tokens, operators, and the values of strings.
#![tactic(auto)]

mod accessors;
mod ast_children;
mod escapes;
mod indent;
mod literal;
mod node;
mod normalized_parts;
mod operators;
mod parts;
mod path_content;
mod pointer;
mod quoted;
mod token;
mod tokens;
mod typed_token;
mod value;

pub use accessors::{child_at, child_token, children, first_child, first_token};
pub use ast_children::AstChildren;
pub use escapes::unescape;
pub use literal::{Float, Integer, LiteralKind, Uri, first_literal};
pub use node::AstNode;
pub use normalized_parts::{indented_parts, quoted_parts};
pub use operators::{BinOpKind, UnaryOpKind, first_binary, first_unary};
pub use parts::{InterpolPart, InterpolParts, all_parts, is_indented, parts_in, text_parts};
pub use path_content::PathContent;
pub use pointer::{AstPtr, Pointee};
pub use quoted::push_quoted;
pub use token::AstToken;
pub use tokens::{Comment, StrContent, Whitespace};
pub use typed_token::{TokenType, TypedToken};
pub use value::{indented_value, quoted_value};
