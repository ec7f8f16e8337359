//! The lints that look at one node: a line for each kind of node.

ghost use Rattle.std.specs.Prelude.{◌≡◌, ◌==◌, ◌||◌, ◌++◌, List, map, option_map, IfOk, OnOk};
ghost use Rattle.rnix_base.specs.Select.{child_of};
ghost use Rattle.rnix.specs.NodeKinds.{is_expr};
ghost use Rattle.nix_lints.specs.Found.{found_of};
ghost use Rattle.nix_scopes.specs.{Scopes.Resolved, Resolved.resolved_in};
ghost use Rattle.nix_lints.specs.NeedlessWith.{ArePlaces};
ghost use Rattle.nix_lints.specs.Nodes.{lint_at, found_by_lint, found_at_nodes};

use crate::bare_path::bare_path;
use crate::called_data::called_data;
use crate::dynamic_name::dynamic_name;
use crate::empty_let::empty_let;
use crate::finding::Finding;
use crate::large_integer::large_integer;
use crate::manual_inherit::manual_inherit;
use crate::needless_with::needless_with;
use crate::parentheses::needless_parentheses;
use crate::repeated_argument::repeated_argument;
use SyntaxKind::*;
use nix_diagnostics::Replacement;
use rnix::ast::{AstNode, Expr};
use rnix::{SyntaxKind, SyntaxNode, TextRange};
use rnix_base::child_at;
use std::alloc::{AllocError, Global};
use std::collections::BTreeSet;

/// Returns the expression with a number among those right below a node.
pub fn expression<'t>(node: &SyntaxNode<'t>, number: usize) -> Option<SyntaxNode<'t>>
    ensures { result ≡ child_of is_expr number node.now }
{
    Some(child_at::<Expr<'t>>(node, number)?.syntax().clone())
}

// Returns whether a text may hold a comment: it has a byte that each comment has.
fn may_hold_comment(text: &str) -> bool {
    text.bytes().any(
        |byte: u8| -> bool
            ensures { result ≡ (byte == 35 || byte == 42) }
        { byte == b'#' || byte == b'*' },
    )
}

/// Returns the removal of all that precedes a part of a node, unless a comment might go with it.
pub fn removal(node: &SyntaxNode<'_>, part: &Option<SyntaxNode<'_>>) -> Option<Replacement> {
    let Some(part) = part else {
        return None;
    };
    let start = node.text_range().start();
    let end = part.text_range().start().max(start);
    let removed = node.text().get(..end - start)?;
    if may_hold_comment(removed) {
        return None;
    }
    Some(Replacement::new(TextRange::new(start, end), ""))
}

// Returns what a lint finds at a node, given where the names are that may come from a `with`.
fn lint_at(
    alloc: Global,
    node: &SyntaxNode<'_>,
    places: &BTreeSet<usize>,
) -> Result<Option<Finding>, AllocError>
    ensures { IfOk result (λ found. (names : List Resolved) → ArePlaces names places.now → option_map found_of found ≡ lint_at names node.now) }
{
    match node.kind() {
        NODE_APPLY => Ok(called_data(node)),
        NODE_PATH_REL => Ok(bare_path(node)),
        NODE_PAREN => Ok(needless_parentheses(node)),
        NODE_ATTRPATH_VALUE => Ok(manual_inherit(node)),
        NODE_LITERAL => Ok(large_integer(node)),
        NODE_DYNAMIC => dynamic_name(alloc, node),
        NODE_STRING => dynamic_name(alloc, node),
        NODE_WITH => Ok(needless_with(places, node)),
        NODE_LET_IN => Ok(empty_let(node)),
        NODE_PAT_BIND => Ok(repeated_argument(node)),
        _ => Ok(None),
    }
}

// Adds what a lint finds at a node.
fn add_at(
    alloc: Global,
    node: &SyntaxNode<'_>,
    places: &BTreeSet<usize>,
    found: &mut Vec<Finding>,
) -> Result<(), AllocError>
    ensures { OnOk result ((names : List Resolved) → ArePlaces names places.now →
        map found_of found.new.items ≡ map found_of found.old.items ++ found_by_lint names node.now) }
{
    if let Some(finding) = lint_at(alloc, node, places)? {
        found.push(finding)?;
    }
    Ok(())
}

/// Adds what these lints find in a text, in the order of its nodes, given where the names are that may come from a `with`.
pub fn add_at_nodes(
    alloc: Global,
    root: &SyntaxNode<'_>,
    places: &BTreeSet<usize>,
    found: &mut Vec<Finding>,
) -> Result<(), AllocError>
    ensures { OnOk result (ArePlaces (resolved_in root.now) places.now →
        map found_of found.new.items ≡ map found_of found.old.items ++ found_at_nodes root.now) }
{
    for node in root.descendants() {
        add_at(alloc, &node, places, found)?;
    }
    Ok(())
}
