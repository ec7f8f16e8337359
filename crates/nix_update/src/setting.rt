//! Setting the value of an entry.

ghost use Rattle.std.specs.Prelude.{IfOk};
ghost use Rattle.nix_update.specs.NotUpdated.{IfRefused, IsInexact, IsValueNotSet, IsValueNotChanged, IsEntryNotChanged};
ghost use Rattle.nix_update.specs.Updated.{IfMade, IsValueSet, IsValueChanged, IsEntryChanged};

use crate::change::set_value;
use crate::definitions::Definition;
use crate::elements::change_element;
use crate::node_start::start_of;
use crate::outcome::{Attempt, Reason, refuse, refuse_at};
use crate::path_match::PathMatch;
use crate::plain::is_plain_string;
use crate::request::{Action, Update};
use crate::value::Form;
use rnix::SyntaxNode;
use rnix::ast::{AstNode, Expr};
use rnix_base::child_at;
use rnix_edit::Edited;
use std::alloc::{AllocError, Global};

// Sets the value of an entry.
fn set_entry_value(
    alloc: Global,
    text: &str,
    root: &SyntaxNode<'_>,
    update: Update<'_>,
    entry: &SyntaxNode<'_>,
) -> Result<Attempt, AllocError>
    ensures made { IfOk result (IfMade (IsValueSet update.entry.form update.entry.value.now text.now root.now entry.now)) }
    ensures refused { IfOk result (IfRefused (IsValueNotSet update.entry.form update.entry.value.now text.now root.now entry.now)) }
{
    let Some(value) = child_at::<Expr<'_>>(entry, 0) else {
        return Ok(Attempt::Refused(refuse_at(Reason::NotNix, start_of(entry))));
    };
    let node = value.syntax();
    let start = start_of(node);
    if update.form == Form::Text && !is_plain_string(node) {
        return Ok(Attempt::Refused(refuse_at(Reason::NotAString, start)));
    }
    match set_value(alloc, text, root, node, update.form, update.value)? {
        Some(Edited::Done(made)) => Ok(Attempt::Made(made)),
        Some(Edited::Refused(refusal)) => {
            Ok(Attempt::Refused(refuse_at(Reason::Edit(refusal), start)))
        }
        None => Ok(Attempt::Refused(refuse(Reason::NotAnExpression))),
    }
}

// Changes the value of an entry.
fn change_value(
    alloc: Global,
    text: &str,
    root: &SyntaxNode<'_>,
    update: Update<'_>,
    entry: &SyntaxNode<'_>,
) -> Result<Attempt, AllocError>
    ensures made { IfOk result (IfMade
        (IsValueChanged update.entry.action update.entry.form update.entry.value.now text.now root.now entry.now)) }
    ensures refused { IfOk result (IfRefused
        (IsValueNotChanged update.entry.action update.entry.form update.entry.value.now text.now root.now entry.now)) }
{
    match update.action {
        Action::Append | Action::RemoveItem => change_element(alloc, text, root, update, entry),
        Action::Set | Action::Add | Action::Remove => {
            set_entry_value(alloc, text, root, update, entry)
        }
    }
}

/// Changes the value of an entry that defines the attribute, if it defines all of it.
pub fn change_entry(
    alloc: Global,
    text: &str,
    root: &SyntaxNode<'_>,
    update: Update<'_>,
    definition: &Definition<'_>,
) -> Result<Attempt, AllocError>
    ensures made { IfOk result (IfMade (IsEntryChanged update.entry text.now root.now definition.now)) }
    ensures refused { IfOk result (IfRefused (IsEntryNotChanged update.entry text.now root.now definition.now)) }
{
    match definition.path_match {
        PathMatch::Exact => change_value(alloc, text, root, update, &definition.entry),
        other => Ok(Attempt::Refused(refuse_at(
            inexact_reason(other),
            start_of(&definition.entry),
        ))),
    }
}

/// Returns the reason for the refusal to change an entry that does not define all of an attribute.
pub fn inexact_reason(path_match: PathMatch) -> Reason
    ensures { IsInexact path_match result }
{
    match path_match {
        PathMatch::Inherited => Reason::Inherited,
        _ => Reason::PartialDefinition,
    }
}
