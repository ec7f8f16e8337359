//! Entries that end between two errors.

ghost use Rattle.std.specs.Prelude.{◌≡◌, ◌++◌, ◌∷◌, List, false, drop, OnOk};
ghost use Rattle.rnix_green.specs.Tree.{item_of};
ghost use Rattle.rnix_green.specs.Walk.{Spot};
ghost use Rattle.nix_diagnostics.specs.Independence.{is_entry_kind, is_entry, ends_entry, start_around, semicolons_in, since, ends_between};

use SyntaxKind::*;
use rnix::{SyntaxKind, SyntaxNode, SyntaxToken};
use std::alloc::AllocError;

/// The `;` of an entry or of an `inherit`.
#[derive(Clone, Copy)]
pub struct Semicolon {
    /// Its start.
    pub start: usize,
    /// The start of the set or `let` around the entry.
    pub set: usize,
}

// Returns whether a node of the kind is an entry or an `inherit`.
fn is_entry_kind(kind: SyntaxKind) -> bool
    ensures { result ≡ is_entry_kind kind }
{
    matches!(kind, NODE_ATTRPATH_VALUE | NODE_INHERIT)
}

// Returns whether a node is an entry or an `inherit`.
fn is_entry(node: &Option<SyntaxNode<'_>>) -> bool
    ensures { result ≡ is_entry node.now }
{
    match node {
        Some(node) => is_entry_kind(node.kind()),
        None => false,
    }
}

// Returns the start of the node around a node, if there is one.
fn start_around(node: &Option<SyntaxNode<'_>>) -> usize
    ensures { result ≡ start_around node.now }
{
    match node {
        Some(node) => match node.parent() {
            Some(around) => around.text_range().start(),
            None => 0,
        },
        None => 0,
    }
}

// Returns whether a token of the given kind is the `;` of an entry or of an `inherit`.
fn ends_entry(token: &SyntaxToken<'_>, kind: SyntaxKind) -> bool
    requires { kind ≡ (item_of token.now).kind }
    ensures { result ≡ ends_entry token.now }
{
    kind == TOKEN_SEMICOLON && is_entry(&token.parent())
}

/// Adds a token of the given kind, if it is the `;` of an entry or of an `inherit`.
#[inline(always)]
pub fn add_semicolon(
    token: &SyntaxToken<'_>,
    kind: SyntaxKind,
    found: &mut Vec<Semicolon>,
) -> Result<(), AllocError>
    requires { kind ≡ (item_of token.now).kind }
    ensures { OnOk result ((spots : List Spot) → found.old.items ++ semicolons_in ((false, token.now) ∷ spots)
        ≡ found.new.items ++ semicolons_in spots) }
{
    if ends_entry(token, kind) {
        found.push(Semicolon {
            start: token.text_range().start(),
            set: start_around(&token.parent()),
        })?;
    }
    Ok(())
}

/// Returns the index of the first `;`, from a given index on, that does not start before an offset.
pub fn first_since(semicolons: &[Semicolon], from: usize, offset: usize) -> usize
    ensures { drop result semicolons.now ≡ since offset (drop from semicolons.now) }
{
    for index in from..semicolons.len() {
        if offset <= semicolons[index].start {
            return index;
        }
    }
    semicolons.len()
}

/// Returns whether one of the `;`, from a given index on, ends an entry before an offset, in a set or `let` that starts before another offset.
pub fn ends_between(semicolons: &[Semicolon], from: usize, set_before: usize, offset: usize) -> bool
    ensures { result ≡ ends_between set_before offset (drop from semicolons.now) }
{
    for index in from..semicolons.len() {
        let semicolon = semicolons[index];
        if offset <= semicolon.start {
            return false;
        }
        if semicolon.set < set_before {
            return true;
        }
    }
    false
}
