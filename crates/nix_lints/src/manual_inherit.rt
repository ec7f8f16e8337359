//! Entries that an `inherit` says in fewer words: `x = x;` in a set, and `x = a.x;`.

ghost use Rattle.std.specs.Prelude.{◌≡◌, option_map};
ghost use Rattle.rnix_kinds.specs.declared.kinds.SyntaxKind.TheVariants as k;
ghost use Rattle.rnix_green.specs.Equality.{same_kind};
ghost use Rattle.rnix_base.specs.Select.{nodes_of};
ghost use Rattle.rnix.specs.NodeKinds.{is_attr};
ghost use Rattle.nix_lints.specs.Found.{found_of};
ghost use Rattle.nix_lints.specs.ManualInherit.{single, only_name, are_same_word, are_same_if, begins_with_brace, is_plain_set, is_own_name, selects, is_selected_name, manual_inherit};

use crate::finding::Finding;
use crate::nodes::expression;
use SyntaxKind::*;
use nix_diagnostics::{Code, Replacement};
use rnix::ast::{AstNode, Attrpath};
use rnix::{SyntaxKind, SyntaxNode};
use rnix_base::first_child;

// Returns the only name of a path.
fn single<'t>(path: &Attrpath<'t>) -> Option<SyntaxNode<'t>>
    ensures { result ≡ single (nodes_of is_attr path.now) }
{
    let mut attrs = path.attrs();
    let first = attrs.next()?;
    match attrs.next() {
        Some(_) => None,
        None => Some(first.syntax().clone()),
    }
}

// Returns the only name of the path right below a node.
fn only_name<'t>(node: &SyntaxNode<'t>) -> Option<SyntaxNode<'t>>
    ensures { result ≡ only_name node.now }
{
    match first_child::<Attrpath<'t>>(node) {
        Some(path) => single(&path),
        None => None,
    }
}

// Returns whether two nodes are the same identifier.
fn are_same_word(one: &SyntaxNode<'_>, other: &SyntaxNode<'_>) -> bool
    ensures { result ≡ are_same_word one.now other.now }
{
    one.kind() == NODE_IDENT && other.kind() == NODE_IDENT && one.text() == other.text()
}

// Returns whether two nodes are given and are the same identifier.
fn are_same_if(one: &Option<SyntaxNode<'_>>, other: &Option<SyntaxNode<'_>>) -> bool
    ensures { result ≡ are_same_if one.now other.now }
{
    match (one, other) {
        (Some(one), Some(other)) => are_same_word(one, other),
        _ => false,
    }
}

// Returns whether a text begins with a brace.
fn begins_with_brace(text: &[u8]) -> bool
    ensures { result ≡ begins_with_brace text.now }
{
    match text.first() {
        Some(byte) => *byte == b'{',
        None => false,
    }
}

// Returns whether a node is a set without `rec`, which then begins with its brace. Takes the same time for a set with many entries.
fn is_plain_set(node: &Option<SyntaxNode<'_>>) -> bool
    ensures { result ≡ is_plain_set node.now }
{
    match node {
        Some(set) => set.kind() == NODE_ATTR_SET && begins_with_brace(set.text().as_bytes()),
        None => false,
    }
}

// Returns whether the value of an entry is its own name, outside of `rec` and `let`.
fn is_own_name(entry: &SyntaxNode<'_>) -> bool
    ensures { result ≡ is_own_name entry.now }
{
    is_plain_set(&entry.parent()) && are_same_if(&only_name(entry), &expression(entry, 0))
}

// Returns whether a value selects a name from an expression, without a default.
fn selects(name: &Option<SyntaxNode<'_>>, value: &Option<SyntaxNode<'_>>) -> bool
    ensures { result ≡ selects name.now value.now }
{
    match value {
        Some(value) => value.kind() == NODE_SELECT
            && expression(value, 1).is_none()
            && are_same_if(name, &only_name(value)),
        None => false,
    }
}

// Returns whether the value of an entry selects its own name.
fn is_selected_name(entry: &SyntaxNode<'_>) -> bool
    ensures { result ≡ is_selected_name entry.now }
{
    selects(&only_name(entry), &expression(entry, 0))
}

// Returns `inherit` and the name, in place of an entry.
fn inherited(entry: &SyntaxNode<'_>) -> Option<Replacement> {
    Some(Replacement {
        range: entry.text_range(),
        before: "inherit ",
        kept: only_name(entry)?.text_range(),
        after: ";",
    })
}

/// Returns the finding on an entry with a value, if an `inherit` says the same.
pub fn manual_inherit(entry: &SyntaxNode<'_>) -> Option<Finding>
    ensures { option_map found_of result ≡ manual_inherit entry.now }
{
    let is_own = is_own_name(entry);
    let replacement = if is_own { inherited(entry) } else { None };
    let is_found = is_own || is_selected_name(entry);
    Finding::when(is_found, Code::ManualInherit, entry, replacement)
}
