//! A `_` before an unused name, in place of its removal.

ghost use Rattle.std.specs.Prelude.{◌≡◌, option_map};
ghost use Rattle.std.specs.List.{list_any};
ghost use Rattle.nix_dead.specs.Removal.{change_of};
ghost use Rattle.nix_dead.specs.Underscore.{is_underscored, is_bound_so, refers_so, takes_underscore_below, takes_underscore, insertion, is_taken, underscored};

use crate::dead::start_of;
use crate::removal::Removal;
use SyntaxKind::*;
use nix_lints::UnusedName;
use nix_scopes::{Binding, Reference, Resolution};
use rnix::{SyntaxKind, SyntaxNode};

// Returns whether a name is `_` and another name.
fn is_underscored(name: &[u8], other: &[u8]) -> bool
    ensures { result ≡ is_underscored name.now other.now }
{
    match name.split_first() {
        Some((first, rest)) => *first == b'_' && rest == other,
        None => false,
    }
}

// Returns whether one of some bindings binds `_` and a name.
fn are_bound_so(bindings: &[Binding<'_>], other: &str) -> bool
    ensures { result ≡ list_any (is_bound_so other.now) bindings.now }
{
    for binding in bindings {
        if is_underscored(binding.text.as_str().as_bytes(), other.as_bytes()) {
            return true;
        }
    }
    false
}

// Returns whether one of some references refers to `_` and a name.
fn refer_so(references: &[Reference<'_>], other: &str) -> bool
    ensures { result ≡ list_any (refers_so other.now) references.now }
{
    for reference in references {
        if is_underscored(reference.text.as_str().as_bytes(), other.as_bytes()) {
            return true;
        }
    }
    false
}

// Returns whether a `_` may precede a name right below a node of a kind: one of a `let`, an argument that is a plain name, or the name of a whole pattern.
fn takes_underscore_below(kind: SyntaxKind) -> bool
    ensures { result ≡ takes_underscore_below kind }
{
    matches!(kind, NODE_ATTRPATH | NODE_IDENT_PARAM | NODE_PAT_BIND)
}

// Returns whether a `_` may precede the name at a node.
fn takes_underscore(name: &SyntaxNode<'_>) -> bool
    ensures { result ≡ takes_underscore name.now }
{
    if name.kind() != NODE_IDENT {
        return false;
    }
    match name.parent() {
        Some(parent) => takes_underscore_below(parent.kind()),
        None => false,
    }
}

// Returns whether the text binds `_` and a name, or refers to it.
fn is_taken(names: &Resolution<'_>, other: &str) -> bool
    ensures { result ≡ is_taken names.now other.now }
{
    are_bound_so(names.bindings(), other) || refer_so(names.references(), other)
}

// Returns the insertion of `_` before a name.
fn insertion(name: &UnusedName<'_>) -> Removal
    ensures { change_of result ≡ insertion name.now }
{
    let start = start_of(name);
    Removal {
        start,
        end: start,
        new: "_",
    }
}

/// Returns the insertion of `_` before an unused name, if it may precede it, and the name with `_` is neither bound in the text nor referred to.
pub fn underscored(names: &Resolution<'_>, name: &UnusedName<'_>) -> Option<Removal>
    ensures { option_map change_of result ≡ underscored names.now name.now }
{
    if takes_underscore(&name.node) && !is_taken(names, name.text.as_str()) {
        Some(insertion(name))
    } else {
        None
    }
}
