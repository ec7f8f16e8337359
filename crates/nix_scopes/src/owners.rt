//! The sets in which names are defined and in which the values of entries stand.

ghost use Rattle.std.specs.Prelude.{◌≡◌, ℕ, None, option_and_then};
ghost use Rattle.rnix_kinds.specs.declared.kinds.SyntaxKind.TheVariants as k;
ghost use Rattle.rnix_green.specs.Equality.{same_kind};
ghost use Rattle.rnix_green.specs.Tree.{Located};
ghost use Rattle.rnix_base.specs.Select.{nodes_of, child_of};
ghost use Rattle.rnix.specs.NodeKinds.{is_attr, is_expr};
ghost use Rattle.nix_attributes.specs.Attributes.{home_by};
ghost use Rattle.nix_attributes.specs.Repeated.{home_in};
ghost use Rattle.nix_scopes.specs.Owners.{is_recursive_value, has_recursive_value, may_merge, last_or, owner_of, last_name, is_entry, is_entry_path};
ghost use Rattle.nix_scopes.specs.Owners.{owner_below, number_around};

use crate::scopes::is_recursive;
use nix_attributes::Homes;
use rnix::ast::{AstNode, Attrpath, AttrpathValue, Expr, without_parens};
use rnix::{Direction, SyntaxKind, SyntaxNode};

// Returns whether a node is an entry whose value is a set with `rec`.
fn has_recursive_value(node: &SyntaxNode<'_>) -> bool
    ensures { result ≡ has_recursive_value node.now }
{
    let Some(entry) = AttrpathValue::cast(node.clone()) else {
        return false;
    };
    match entry.value() {
        Some(value) => is_recursive(&without_parens(value.syntax())),
        None => false,
    }
}

/// Returns whether the value of an entry inside a node is a set with `rec`. Where there is none, no entry can add to a scope.
pub fn may_merge(root: &SyntaxNode<'_>) -> bool
    ensures { result ≡ may_merge root.now }
{
    for node in root.descendants() {
        if has_recursive_value(&node) {
            return true;
        }
    }
    false
}

// Returns the owner of a name of a path: the name before it, or else the set or `let` with the entry.
fn owner_of<'t>(name: &SyntaxNode<'t>) -> Option<SyntaxNode<'t>>
    ensures { result ≡ owner_of name.now }
{
    let mut nodes = name.siblings(Direction::Prev);
    let _itself = nodes.next();
    match nodes.next() {
        Some(before) => Some(before),
        None => name.parent()?.parent()?.parent(),
    }
}

// Returns the last name of a path.
fn last_name<'t>(path: &Attrpath<'t>) -> Option<SyntaxNode<'t>>
    ensures { result ≡ last_or None (nodes_of is_attr path.now) }
{
    let mut last = None;
    for attr in path.attrs() {
        last = Some(attr.syntax().clone());
    }
    last
}

// Returns the owner of the last name of an entry's path.
fn value_owner<'t>(entry: &AttrpathValue<'t>) -> Option<SyntaxNode<'t>>
    ensures { result ≡ option_and_then owner_of (last_name (child_of (same_kind k.NODE_ATTRPATH) 0 entry.now)) }
{
    let path = entry.attrpath()?;
    owner_of(&last_name(&path)?)
}

// Returns whether a node, if there is one, is an entry with a value.
fn is_entry(node: Option<SyntaxNode<'_>>) -> bool
    ensures { result ≡ is_entry node.entry }
{
    match node {
        Some(node) => node.kind() == SyntaxKind::NODE_ATTRPATH_VALUE,
        None => false,
    }
}

// Returns whether a node is the path of an entry.
fn is_entry_path(node: &SyntaxNode<'_>) -> bool
    ensures { result ≡ is_entry_path node.now }
{
    node.kind() == SyntaxKind::NODE_ATTRPATH && is_entry(node.parent())
}

// Returns the owner of a node with a parent: an entry's set, or the owner of the name of a path, which a value shares with the last name of its path.
fn owner_below<'t>(parent: &SyntaxNode<'t>, node: &SyntaxNode<'t>) -> Option<SyntaxNode<'t>>
    ensures { result ≡ owner_below parent.now node.now }
{
    if parent.kind() == SyntaxKind::NODE_ATTR_SET {
        return Some(parent.clone());
    }
    if is_entry_path(parent) {
        return owner_of(node);
    }
    if node.kind() == SyntaxKind::NODE_ATTRPATH {
        return None;
    }
    value_owner(&AttrpathValue::cast(parent.clone())?)
}

/// Returns the number of the node around a node with a parent: that of the set to which it belongs, or else that of its parent.
pub fn number_around(homes: &Homes, parent: &SyntaxNode<'_>, node: &SyntaxNode<'_>) -> usize
    ensures { (root : Located) → ((owner : ℕ) → home_by homes.now owner ≡ home_in root owner) →
        result ≡ number_around root parent.now node.now }
{
    match owner_below(parent, node) {
        Some(owner) => homes.home(owner.number()),
        None => parent.number(),
    }
}
