//! What is removed with an unused name.

ghost use Rattle.std.specs.Prelude.{◌≡◌, option_map, slice_index};
ghost use Rattle.std.specs.List.{list_all, list_any};
ghost use Rattle.rnix_base.specs.Select.{child_of, nodes_of};
ghost use Rattle.rnix.specs.NodeKinds.{is_attr, is_entry, is_expr};
ghost use Rattle.rnix_edit.specs.Blanks.{byte_before};
ghost use Rattle.nix_dead.specs.Removal.{change_of, divides_before, divides_after, is_divided, deletion, without, is_dead, first_is_dead, is_dead_entry};
ghost use Rattle.nix_dead.specs.Removal.{is_first, is_emptied, unwrapped, entry_removal, inherit_removal, hole, begins_with_at, bind_removal, removal_of};
ghost use Rattle.nix_dead.specs.Removal.{next_entry, next_start, is_mark, may_hold_comment, argument_removal};

use SyntaxKind::*;
use rnix::ast::{AstNode, Attr, Attrpath, Entry, Expr, PatEntry};
use rnix::{SyntaxKind, SyntaxNode};
use rnix_base::{children, first_child, first_token};
use rnix_edit::cut_of;
use std::collections::BTreeSet;

/// A range of a text, and what is written in its place: nothing, a space, or the name `_`.
#[derive(Clone, Copy)]
pub struct Removal {
    /// The start of the range.
    pub start: usize,
    /// The end of the range.
    pub end: usize,
    /// What is written in its place.
    pub new: &'static str,
}

// Returns the byte at an offset, or 0 if the text ends before it.
#[tactic(auto, using(std::proofs::lemmas::List::get_or_past))]
fn byte_at(text: &str, offset: usize) -> u8
    ensures { result ≡ slice_index text.now offset }
{
    let bytes = text.as_bytes();
    if offset < bytes.len() {
        bytes[offset]
    } else {
        0
    }
}

// Returns the byte before an offset, or a line feed at the start of the text.
fn byte_before(text: &str, offset: usize) -> u8
    ensures { result ≡ byte_before text.now offset }
{
    if offset == 0 {
        b'\n'
    } else {
        byte_at(text, offset - 1)
    }
}

// Returns whether no space is needed after a byte.
fn divides_before(byte: u8) -> bool
    ensures { result ≡ divides_before byte }
{
    byte == b' '
        || byte == b'\t'
        || byte == b'\n'
        || byte == b'\r'
        || byte == b';'
        || byte == b'('
        || byte == b'['
        || byte == b'{'
}

// Returns whether no space is needed before a byte.
fn divides_after(byte: u8) -> bool
    ensures { result ≡ divides_after byte }
{
    byte == b' '
        || byte == b'\t'
        || byte == b'\n'
        || byte == b'\r'
        || byte == b';'
        || byte == b':'
        || byte == b')'
        || byte == b']'
        || byte == b'}'
}

// Returns whether no space is needed in place of a range.
fn is_divided(text: &str, start: usize, end: usize) -> bool
    ensures { result ≡ is_divided text.now start end }
{
    divides_before(byte_before(text, start)) || divides_after(byte_at(text, end))
}

// Returns the removal of a range.
fn deletion(text: &str, start: usize, end: usize) -> Removal
    ensures { change_of result ≡ deletion text.now start end }
{
    let new = if is_divided(text, start, end) {
        ""
    } else {
        " "
    };
    Removal { start, end, new }
}

// Returns the removal of a node: an entry or a name.
fn without(text: &str, node: &SyntaxNode<'_>) -> Removal
    ensures { change_of result ≡ without text.now node.now }
{
    let cut = cut_of(text, node);
    deletion(text, cut.start, cut.end)
}

// Returns whether a name is written at one of the offsets.
fn is_dead(dead: &BTreeSet<usize>, name: &SyntaxNode<'_>) -> bool
    ensures { result ≡ is_dead dead.now name.now }
{
    dead.contains(&name.text_range().start())
}

// Returns whether the first name of an entry with a value is written at one of the offsets.
fn first_is_dead(dead: &BTreeSet<usize>, entry: &SyntaxNode<'_>) -> bool
    ensures { result ≡ first_is_dead dead.now entry.now }
{
    let Some(path) = first_child::<Attrpath<'_>>(entry) else {
        return false;
    };
    match first_child::<Attr<'_>>(path.syntax()) {
        Some(name) => is_dead(dead, name.syntax()),
        None => false,
    }
}

// Returns whether all names of an `inherit` are written at some of the offsets.
fn names_are_dead(dead: &BTreeSet<usize>, inherit: &SyntaxNode<'_>) -> bool
    ensures { result ≡ list_all (is_dead dead.now) (nodes_of is_attr inherit.now) }
{
    for name in children::<Attr<'_>>(inherit) {
        if !is_dead(dead, name.syntax()) {
            return false;
        }
    }
    true
}

// Returns whether all names that an entry binds are written at some of the offsets.
fn is_dead_entry(dead: &BTreeSet<usize>, entry: &SyntaxNode<'_>) -> bool
    ensures { result ≡ is_dead_entry dead.now entry.now }
{
    if entry.kind() == NODE_INHERIT {
        names_are_dead(dead, entry)
    } else {
        first_is_dead(dead, entry)
    }
}

// Returns whether all names that the entries of a `let` bind are written at some of the offsets.
fn entries_are_dead(dead: &BTreeSet<usize>, binder: &SyntaxNode<'_>) -> bool
    ensures { result ≡ list_all (is_dead_entry dead.now) (nodes_of is_entry binder.now) }
{
    for entry in children::<Entry<'_>>(binder) {
        if !is_dead_entry(dead, entry.syntax()) {
            return false;
        }
    }
    true
}

// Returns whether a node begins where another one does, if that is given.
fn is_first(node: &SyntaxNode<'_>, first: Option<SyntaxNode<'_>>) -> bool
    ensures { result ≡ is_first node.now first.entry }
{
    match first {
        Some(first) => first.text_range().start() == node.text_range().start(),
        None => false,
    }
}

// Returns the first entry of a `let`.
fn first_entry<'t>(binder: &SyntaxNode<'t>) -> Option<SyntaxNode<'t>>
    ensures { result ≡ child_of is_entry 0 binder.now }
{
    Some(first_child::<Entry<'t>>(binder)?.syntax().clone())
}

// Returns the first name of an `inherit`.
fn first_name<'t>(inherit: &SyntaxNode<'t>) -> Option<SyntaxNode<'t>>
    ensures { result ≡ child_of is_attr 0 inherit.now }
{
    Some(first_child::<Attr<'t>>(inherit)?.syntax().clone())
}

// Returns the body of a `let`.
fn body_of<'t>(binder: &SyntaxNode<'t>) -> Option<SyntaxNode<'t>>
    ensures { result ≡ child_of is_expr 0 binder.now }
{
    Some(first_child::<Expr<'t>>(binder)?.syntax().clone())
}

// Returns whether a `let` goes with its entries: all its names are written at some of the offsets, and it has no comments of its own.
fn is_emptied(dead: &BTreeSet<usize>, binder: &SyntaxNode<'_>) -> bool
    ensures { result ≡ is_emptied dead.now binder.now }
{
    binder.kind() == NODE_LET_IN
        && first_token(binder, TOKEN_COMMENT).is_none()
        && entries_are_dead(dead, binder)
}

// Returns the removal of all of a `let` that precedes its body.
fn unwrapped(text: &str, binder: &SyntaxNode<'_>) -> Option<Removal>
    ensures { option_map change_of result ≡ unwrapped text.now binder.now }
{
    let body = body_of(binder)?;
    Some(deletion(text, binder.text_range().start(), body.text_range().start()))
}

// Returns the removal of an entry of a `let`. The first one goes with the `let`, if all other entries go, too.
fn entry_removal(text: &str, dead: &BTreeSet<usize>, entry: &SyntaxNode<'_>) -> Option<Removal>
    ensures { option_map change_of result ≡ entry_removal text.now dead.now entry.now }
{
    let binder = entry.parent()?;
    if is_first(entry, first_entry(&binder)) && is_emptied(dead, &binder) {
        unwrapped(text, &binder)
    } else {
        Some(without(text, entry))
    }
}

// Returns the removal of a name of an `inherit`. The first one goes with the `inherit`, if all other names go, too.
fn inherit_removal(
    text: &str,
    dead: &BTreeSet<usize>,
    name: &SyntaxNode<'_>,
    inherit: &SyntaxNode<'_>,
) -> Option<Removal>
    ensures { option_map change_of result ≡ inherit_removal text.now dead.now name.now inherit.now }
{
    if is_first(name, first_name(inherit)) && names_are_dead(dead, inherit) {
        entry_removal(text, dead, inherit)
    } else {
        Some(without(text, name))
    }
}

// Returns the replacement of an argument that is a plain name by `_`.
fn hole(name: &SyntaxNode<'_>) -> Removal
    ensures { change_of result ≡ hole name.now }
{
    let range = name.text_range();
    Removal {
        start: range.start(),
        end: range.end(),
        new: "_",
    }
}

// Returns whether a text begins with `@`.
fn begins_with_at(text: &[u8]) -> bool
    ensures { result ≡ begins_with_at text.now }
{
    match text.first() {
        Some(byte) => *byte == b'@',
        None => false,
    }
}

// Returns the removal of the name of a whole pattern, with its `@`.
fn bind_removal(text: &str, bind: &SyntaxNode<'_>) -> Removal
    ensures { change_of result ≡ bind_removal text.now bind.now }
{
    if begins_with_at(bind.text().as_bytes()) {
        without(text, bind)
    } else {
        let range = bind.text_range();
        deletion(text, range.start(), range.end())
    }
}

// Returns the first of some arguments that begins after another one.
fn next_entry<'t>(pattern: &SyntaxNode<'t>, entry: &SyntaxNode<'_>) -> Option<SyntaxNode<'t>>
    ensures { result ≡ next_entry pattern.now entry.now }
{
    for other in children::<PatEntry<'t>>(pattern) {
        if entry.text_range().start() < other.syntax().text_range().start() {
            return Some(other.syntax().clone());
        }
    }
    None
}

// Returns where the argument after another one begins, or `...` if it is the last one.
fn next_start(pattern: &SyntaxNode<'_>, entry: &SyntaxNode<'_>) -> Option<usize>
    ensures { result ≡ next_start pattern.now entry.now }
{
    let ellipsis = first_token(pattern, TOKEN_ELLIPSIS)?;
    match next_entry(pattern, entry) {
        Some(next) => Some(next.text_range().start()),
        None => Some(ellipsis.text_range().start()),
    }
}

// Returns whether some bytes may hold a comment: one of them is `#` or `*`, as in each comment.
fn has_mark(bytes: &[u8]) -> bool
    ensures { result ≡ list_any is_mark bytes.now }
{
    for byte in bytes {
        if *byte == b'#' || *byte == b'*' {
            return true;
        }
    }
    false
}

// Returns whether a range of a text may hold a comment, or is none.
fn may_hold_comment(text: &[u8], start: usize, end: usize) -> bool
    ensures { result ≡ may_hold_comment text.now start end }
{
    end < start || text.len() < end || has_mark(&text[start..end])
}

// Returns the removal of an argument of a pattern with `...`, unless a comment might go with it.
fn argument_removal(text: &str, pattern: &SyntaxNode<'_>, entry: &SyntaxNode<'_>) -> Option<Removal>
    ensures { option_map change_of result ≡ argument_removal text.now pattern.now entry.now }
{
    let start = entry.text_range().start();
    let end = next_start(pattern, entry)?;
    if may_hold_comment(text.as_bytes(), start, end) {
        None
    } else {
        Some(deletion(text, start, end))
    }
}

/// Returns how the unused name at a node is removed, if it is. `dead` are the offsets of all names that are to be removed, and `is_free` says that no name of
/// the text is `_`.
pub fn removal_of(
    text: &str,
    dead: &BTreeSet<usize>,
    is_free: bool,
    name: &SyntaxNode<'_>,
) -> Option<Removal>
    ensures { option_map change_of result ≡ removal_of text.now dead.now is_free name.now }
{
    let parent = name.parent()?;
    let kind = parent.kind();
    if kind == NODE_ATTRPATH {
        entry_removal(text, dead, &parent.parent()?)
    } else if kind == NODE_INHERIT {
        inherit_removal(text, dead, name, &parent)
    } else if kind == NODE_IDENT_PARAM && is_free {
        Some(hole(name))
    } else if kind == NODE_PAT_BIND {
        Some(bind_removal(text, &parent))
    } else if kind == NODE_PAT_ENTRY {
        argument_removal(text, &parent.parent()?, &parent)
    } else {
        None
    }
}
