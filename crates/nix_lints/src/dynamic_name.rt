//! Computed names in a `let` or an `inherit`, which Nix does not allow.

ghost use Rattle.std.specs.Prelude.{◌≡◌, option_map, is_none, true, IfOk};
ghost use Rattle.rnix.specs.{AttrName.static_name, NodeKinds.is_attr};
ghost use Rattle.rnix.specs.Sums.{attr_node};
ghost use Rattle.rnix_green.specs.Tree.{item_of};
ghost use Rattle.rnix_green.specs.Relatives.{parent_of};
ghost use Rattle.nix_lints.specs.Found.{found_of};
ghost use Rattle.nix_lints.specs.DynamicName.{is_same_node, is_kind_around, is_entry_of_let, is_path_of_let, is_let_or_inherit, dynamic_name};

use crate::finding::Finding;
use SyntaxKind::*;
use nix_diagnostics::Code;
use rnix::ast::{AstNode, Attr};
use rnix::{SyntaxKind, SyntaxNode};
use rnix_base::child_at;
use std::alloc::{AllocError, Global};

// Returns whether a node is given and is another one.
fn is_same_node(one: &Option<Attr<'_>>, other: &SyntaxNode<'_>) -> bool
    ensures { result ≡ is_same_node (option_map attr_node one.now) other.now }
{
    match one {
        Some(one) => one.syntax().number() == other.number(),
        None => false,
    }
}

// Returns whether the node around a node has a kind.
fn is_kind_around(node: &SyntaxNode<'_>, kind: SyntaxKind) -> bool
    ensures { result ≡ is_kind_around kind node.now }
{
    match node.parent() {
        Some(parent) => parent.kind() == kind,
        None => false,
    }
}

// Returns whether the node around a node is an entry of a `let`.
fn is_in_entry_of_let(node: &SyntaxNode<'_>) -> bool
    ensures { result ≡ is_entry_of_let (parent_of node.now) }
{
    match node.parent() {
        Some(entry) => entry.kind() == NODE_ATTRPATH_VALUE && is_kind_around(&entry, NODE_LET_IN),
        None => false,
    }
}

// Returns whether a node is the path of an entry of a `let`.
fn is_path_of_let(path: &SyntaxNode<'_>) -> bool
    ensures { result ≡ is_path_of_let path.now }
{
    path.kind() == NODE_ATTRPATH && is_in_entry_of_let(path)
}

// Returns whether a name is one of an `inherit`, or begins the path of an entry of a `let`.
fn is_let_or_inherit(name: &SyntaxNode<'_>) -> bool
    ensures { result ≡ is_let_or_inherit name.now }
{
    match name.parent() {
        Some(parent) if parent.kind() == NODE_INHERIT => true,
        Some(parent) => is_path_of_let(&parent)
            && is_same_node(&child_at::<Attr<'_>>(&parent, 0), name),
        None => false,
    }
}

// Returns whether the text alone does not determine a name.
fn is_computed(alloc: Global, name: SyntaxNode<'_>) -> Result<bool, AllocError>
    ensures { IfOk result (λ is. is ≡ is_none (static_name name.entry)) }
{
    match Attr::cast(name) {
        Some(attr) => Ok(attr.static_name(alloc)?.is_none()),
        None => Ok(true),
    }
}

/// Returns the finding on a name, in `${ }` or a string, if it is computed and Nix does not allow that.
pub fn dynamic_name(alloc: Global, name: &SyntaxNode<'_>) -> Result<Option<Finding>, AllocError>
    requires { is_attr (item_of name.now).kind ≡ true }
    ensures { IfOk result (λ found. option_map found_of found ≡ dynamic_name name.now) }
{
    if !is_let_or_inherit(name) {
        return Ok(None);
    }
    let is_computed = is_computed(alloc, name.clone())?;
    Ok(Finding::when(is_computed, Code::DynamicName, name, None))
}
