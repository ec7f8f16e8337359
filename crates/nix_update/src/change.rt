//! Texts with one attribute set, added or removed.

ghost use Rattle.std.specs.Prelude.{◌≡◌, string_bytes, IfOk, IfSome, IfNone};
ghost use Rattle.rnix_edit.specs.Edited.{IfDone, IfRefused};
ghost use Rattle.nix_update.specs.NewValue.{IsNoValue, IsSetTo, IsNotSetTo};
ghost use Rattle.nix_update.specs.Updated.{is_member, last_member, entry_text, IsMemberInserted, IsEntryAdded};
ghost use Rattle.nix_update.specs.NotUpdated.{IsMemberNotInserted, IsEntryNotAdded};

use crate::value::{Form, value_of};
use rnix::ast::{AstNode, Entry, Expr};
use rnix::{SyntaxKind, SyntaxNode};
use rnix_edit::{Edited, insert_after, insert_inside, replace};
use std::alloc::{AllocError, Global};

/// Returns the text with a new value in place of a node, or `None` if the form is `Raw` and the value is not an expression.
pub fn set_value(
    alloc: Global,
    text: &str,
    root: &SyntaxNode<'_>,
    node: &SyntaxNode<'_>,
    form: Form,
    value: &str,
) -> Result<Option<Edited>, AllocError>
    ensures done { IfOk result (λ edited. IfSome edited (IfDone (IsSetTo form value.now text.now root.now node.now))) }
    ensures refused { IfOk result (λ edited. IfSome edited (IfRefused (λ refusal. IsNotSetTo refusal form value.now text.now root.now node.now))) }
    ensures none { IfOk result (λ edited. IfNone edited (IsNoValue form value.now)) }
{
    let Some(new) = value_of(alloc, form, value)? else {
        return Ok(None);
    };
    let edited = replace(alloc, text, root, node, new.kind, new.text.as_str())?;
    Ok(Some(edited))
}

// Returns whether a node of a kind is an entry of a set, or an element of a list.
fn is_member(kind: SyntaxKind) -> bool
    ensures { result ≡ is_member kind }
{
    Entry::can_cast(kind) || Expr::can_cast(kind)
}

/// Returns the last entry of a set, or the last element of a list.
pub fn last_member<'t>(parent: &SyntaxNode<'t>) -> Option<SyntaxNode<'t>>
    ensures { result ≡ last_member parent.now }
{
    let mut last = None;
    for node in parent.children() {
        if is_member(node.kind()) {
            last = Some(node);
        }
    }
    last
}

// Returns the text of an entry.
fn entry_text(alloc: Global, names: &str, new: &str) -> Result<String, AllocError>
    ensures { IfOk result (λ text. string_bytes text ≡ entry_text names.now new.now) }
{
    let mut text = String::from_str(alloc, names)?;
    text.push_str(" = ")?;
    text.push_str(new)?;
    text.push_str(";")?;
    Ok(text)
}

/// Returns the text in which a set or a list has one more member of a kind, after its others.
pub fn insert_member(
    alloc: Global,
    text: &str,
    root: &SyntaxNode<'_>,
    parent: &SyntaxNode<'_>,
    kind: SyntaxKind,
    new: &str,
) -> Result<Edited, AllocError>
    ensures done { IfOk result (IfDone (IsMemberInserted (last_member parent.now) text.now root.now parent.now kind new.now)) }
    ensures refused { IfOk result (IfRefused (λ refusal. IsMemberNotInserted refusal (last_member parent.now) text.now root.now parent.now kind new.now)) }
{
    match last_member(parent) {
        Some(last) => insert_after(alloc, text, root, &last, kind, new),
        None => insert_inside(alloc, text, root, parent, kind, new),
    }
}

/// Returns the text in which a set has one more attribute after its others, or `None` if there is no value.
pub fn add_value(
    alloc: Global,
    text: &str,
    root: &SyntaxNode<'_>,
    set: &SyntaxNode<'_>,
    names: &str,
    form: Form,
    value: &str,
) -> Result<Option<Edited>, AllocError>
    ensures done { IfOk result (λ edited. IfSome edited (IfDone (IsEntryAdded form value.now names.now text.now root.now set.now))) }
    ensures refused { IfOk result (λ edited. IfSome edited (IfRefused (λ refusal.
        IsEntryNotAdded refusal form value.now names.now text.now root.now set.now))) }
    ensures none { IfOk result (λ edited. IfNone edited (IsNoValue form value.now)) }
{
    let Some(new) = value_of(alloc, form, value)? else {
        return Ok(None);
    };
    let entry = entry_text(alloc, names, new.text.as_str())?;
    let kind = SyntaxKind::NODE_ATTRPATH_VALUE;
    let edited = insert_member(alloc, text, root, set, kind, entry.as_str())?;
    Ok(Some(edited))
}
