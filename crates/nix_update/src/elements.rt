//! Adding and removing an element of a list.

ghost use Rattle.std.specs.Prelude.{◌≡◌, string_bytes, IfOk};
ghost use Rattle.rnix_base.specs.Select.{child_of};
ghost use Rattle.rnix.specs.NodeKinds.{is_expr};
ghost use Rattle.nix_update.specs.declared.outcome.Reason.TheVariants as reason;
ghost use Rattle.nix_update.specs.Lists.{list_in_if};
ghost use Rattle.nix_update.specs.Updated.{IfMade, IsAppended, IsElementRemoved, IsListChanged, IsElementChanged};
ghost use Rattle.nix_update.specs.NotUpdated.{IfRefused, IsNotAppended, IsElementNotRemoved, IsListNotChanged, IsElementNotChanged};

use crate::change::insert_member;
use crate::guard::{difference_with, difference_without};
use crate::inner::expr_at;
use crate::lists::{element_of, element_with, list_in};
use crate::node_start::start_of;
use crate::outcome::{Attempt, Reason, Refused, refuse, refuse_at};
use crate::request::{Action, Update};
use crate::value::Value;
use rnix::SyntaxNode;
use rnix_edit::{Edited, remove};
use std::alloc::{AllocError, Global};

// Adds an element to a list, after its others.
fn append(
    alloc: Global,
    text: &str,
    root: &SyntaxNode<'_>,
    list: &SyntaxNode<'_>,
    element: &Value,
) -> Result<Attempt, AllocError>
    ensures made { IfOk result (IfMade (IsAppended text.now root.now list.now element.now.kind (string_bytes element.now.text))) }
    ensures refused { IfOk result (IfRefused (IsNotAppended text.now root.now list.now element.now.kind (string_bytes element.now.text))) }
{
    let new = element.text.as_str();
    let made = match insert_member(alloc, text, root, list, element.kind, new)? {
        Edited::Done(made) => made,
        Edited::Refused(refusal) => {
            let refused = refuse_at(Reason::Edit(refusal), start_of(list));
            return Ok(Attempt::Refused(refused));
        }
    };
    match difference_with(alloc, text, root, list, made.as_str())? {
        Some(offset) => Ok(Attempt::Refused(refuse_at(Reason::ChangedMeaning, offset))),
        None => Ok(Attempt::Made(made)),
    }
}

// Removes the first element of a list with this text.
fn remove_element(
    alloc: Global,
    text: &str,
    root: &SyntaxNode<'_>,
    list: &SyntaxNode<'_>,
    new: &str,
) -> Result<Attempt, AllocError>
    ensures made { IfOk result (IfMade (IsElementRemoved text.now root.now list.now new.now)) }
    ensures refused { IfOk result (IfRefused (IsElementNotRemoved text.now root.now list.now new.now)) }
{
    let Some(element) = element_with(list, new) else {
        return Ok(Attempt::Refused(refuse_at(Reason::NoElement, start_of(list))));
    };
    let made = match remove(alloc, text, root, &element)? {
        Edited::Done(made) => made,
        Edited::Refused(refusal) => {
            let refused = refuse_at(Reason::Edit(refusal), start_of(&element));
            return Ok(Attempt::Refused(refused));
        }
    };
    match difference_without(alloc, text, root, &element, made.as_str())? {
        Some(offset) => Ok(Attempt::Refused(refuse_at(Reason::ChangedMeaning, offset))),
        None => Ok(Attempt::Made(made)),
    }
}

// Removes the first element of a list with the text of an element, if that is the action, or else adds the element.
fn change_list(
    alloc: Global,
    text: &str,
    root: &SyntaxNode<'_>,
    action: Action,
    list: &SyntaxNode<'_>,
    element: &Value,
) -> Result<Attempt, AllocError>
    ensures made { IfOk result (IfMade (IsListChanged action text.now root.now list.now element.now.kind (string_bytes element.now.text))) }
    ensures refused { IfOk result (IfRefused (IsListNotChanged action text.now root.now list.now element.now.kind (string_bytes element.now.text))) }
{
    match action {
        Action::RemoveItem => remove_element(alloc, text, root, list, element.text.as_str()),
        _ => append(alloc, text, root, list, element),
    }
}

// Returns the list that the value of an entry writes out, if there is one.
fn list_of<'t>(alloc: Global, entry: &SyntaxNode<'t>) -> Result<Option<SyntaxNode<'t>>, AllocError>
    ensures { IfOk result (λ list. list ≡ list_in_if (child_of is_expr 0 entry.now)) }
{
    match expr_at(entry, 0) {
        Some(value) => list_in(alloc, &value),
        None => Ok(None),
    }
}

// Returns the refusal if the value of an entry writes out no list.
fn refuse_no_list(entry: &SyntaxNode<'_>) -> Refused
    ensures { result.reason ≡ reason.NotAList }
{
    let offset = match expr_at(entry, 0) {
        Some(value) => start_of(&value),
        None => start_of(entry),
    };
    refuse_at(Reason::NotAList, offset)
}

/// Adds an element to the list that the value of an entry writes out, or removes one from it.
pub fn change_element(
    alloc: Global,
    text: &str,
    root: &SyntaxNode<'_>,
    update: Update<'_>,
    entry: &SyntaxNode<'_>,
) -> Result<Attempt, AllocError>
    ensures made { IfOk result (IfMade
        (IsElementChanged update.entry.action update.entry.form update.entry.value.now text.now root.now entry.now)) }
    ensures refused { IfOk result (IfRefused
        (IsElementNotChanged update.entry.action update.entry.form update.entry.value.now text.now root.now entry.now)) }
{
    let Some(list) = list_of(alloc, entry)? else {
        return Ok(Attempt::Refused(refuse_no_list(entry)));
    };
    let Some(element) = element_of(alloc, update.form, update.value)? else {
        return Ok(Attempt::Refused(refuse(Reason::NotAnExpression)));
    };
    change_list(alloc, text, root, update.action, &list, &element)
}
