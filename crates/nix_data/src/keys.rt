//! The names that attributes in paths denote.

ghost use Rattle.std.specs.Prelude.{◌≡◌, ◌==◌, length, option_map, string_bytes, IfOk};
ghost use Rattle.rnix_green.specs.Walk.{nodes_in, children_of};
ghost use Rattle.rnix.specs.Sums.{attr_node};
ghost use Rattle.nix_data.specs.Meaning.{name_source, lacks_single_node, key_of};

use crate::misread::is_altered;
use rnix::ast::{AstNode, Attr, Dynamic, without_parens};
use rnix::{SyntaxKind, SyntaxNode};
use std::alloc::{AllocError, Global};

/// Returns the node that writes the name of an attribute: of `${` and `}` the expression between them, without parentheses around it.
pub fn name_source<'t>(node: &SyntaxNode<'t>) -> SyntaxNode<'t>
    ensures { result ≡ name_source node.now }
{
    let Some(name) = Dynamic::cast(node.clone()) else {
        return node.clone();
    };
    match name.expr() {
        Some(expr) => without_parens(expr.syntax()),
        None => node.clone(),
    }
}

// Returns whether a node has exactly one child node.
fn has_one_child(node: &SyntaxNode<'_>) -> bool
    ensures { result ≡ (length (nodes_in (children_of node.now)) == 1) }
{
    let mut children = node.children();
    children.next().is_some() && children.next().is_none()
}

// Returns whether a node is `${` and `}` with not just one node between them.
fn lacks_single_node(node: &SyntaxNode<'_>) -> bool
    ensures { result ≡ lacks_single_node node.now }
{
    node.kind() == SyntaxKind::NODE_DYNAMIC && !has_one_child(node)
}

/// Returns the name that an attribute in a path denotes, unless Nix evaluates it or changes the string that writes it.
pub fn key_of(alloc: Global, attr: &Attr<'_>) -> Result<Option<String>, AllocError>
    ensures { IfOk result (λ name. option_map string_bytes name ≡ key_of (attr_node attr.now)) }
{
    let node = attr.syntax();
    if lacks_single_node(node) || is_altered(name_source(node).text()) {
        return Ok(None);
    }
    attr.static_name(alloc)
}
