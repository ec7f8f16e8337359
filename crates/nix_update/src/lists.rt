//! The list that a value writes out, and its elements.

ghost use Rattle.std.specs.Prelude.{◌≡◌, ◌++◌, reverse, string_bytes, IfOk, OnOk, IfSome, IfNone};
ghost use Rattle.nix_update.specs.NewValue.{IsNoValue};
ghost use Rattle.nix_update.specs.Lists.{list_part_if, is_concatenation, part_inside, list_parts, is_list, list_in};
ghost use Rattle.nix_update.specs.Lists.{needs_brackets, bracketed, IsElementOf, is_element_with, element_with};

use crate::inner::{expr_at, inner};
use crate::value::{Form, Value, value_of};
use rnix::ast::{AstNode, BinOp, BinOpKind, Expr};
use rnix::{SyntaxKind, SyntaxNode};
use std::alloc::{AllocError, Global};

/// An expression in which a list is sought.
#[derive(Drop)]
pub struct ListPart<'t> {
    pub node: SyntaxNode<'t>,
    /// Whether it is an operand of `++`, or inside one.
    pub is_operand: bool,
}

// Returns whether an expression is an operation with `++`.
fn is_concatenation(node: &SyntaxNode<'_>) -> bool
    ensures { result ≡ is_concatenation node.now }
{
    match BinOp::cast(node.clone()) {
        Some(operation) => matches!(operation.operator(), Some(BinOpKind::Concat)),
        None => false,
    }
}

// Returns the expression in which the list is sought inside one that is no operation with `++`: not the argument of a call that is an operand.
fn part_inside<'t>(part: &ListPart<'t>) -> Option<SyntaxNode<'t>>
    ensures { result ≡ part_inside part.now }
{
    if part.is_operand && part.node.kind() == SyntaxKind::NODE_APPLY {
        None
    } else {
        inner(&part.node)
    }
}

// Adds an expression, if there is one, as the next one in which the list is sought.
fn add_part_if<'t>(
    node: Option<SyntaxNode<'t>>,
    is_operand: bool,
    parts: &mut Vec<ListPart<'t>>,
) -> Result<(), AllocError>
    ensures { OnOk result (reverse parts.new.items ≡ list_part_if node.entry is_operand ++ reverse parts.old.items) }
{
    if let Some(node) = node {
        parts.push(ListPart { node, is_operand })?;
    }
    Ok(())
}

// Adds the expressions inside another one in which the list is sought. The last one that is added is the next one.
fn add_parts<'t>(part: &ListPart<'t>, parts: &mut Vec<ListPart<'t>>) -> Result<(), AllocError>
    ensures { OnOk result (reverse parts.new.items ≡ list_parts part.now ++ reverse parts.old.items) }
{
    if is_concatenation(&part.node) {
        add_part_if(expr_at(&part.node, 0), true, parts)?;
        add_part_if(expr_at(&part.node, 1), true, parts)
    } else {
        add_part_if(part_inside(part), part.is_operand, parts)
    }
}

// Returns whether an expression is a list.
fn is_list(node: &SyntaxNode<'_>) -> bool
    ensures { result ≡ is_list node.now }
{
    node.kind() == SyntaxKind::NODE_LIST
}

/// Returns the list that a value writes out: the value itself, or the list that is in brackets, in the body of a function, a `let`, a `with` or an `assert`, in
/// the argument of a call, or is an operand of `++`, the last one of these. Of a call that is an operand, no argument is searched.
pub fn list_in<'t>(
    alloc: Global,
    value: &SyntaxNode<'t>,
) -> Result<Option<SyntaxNode<'t>>, AllocError>
    ensures { IfOk result (λ list. list ≡ list_in value.now) }
{
    let mut parts = Vec::new(alloc);
    add_part_if(Some(value.clone()), false, &mut parts)?;
    let mut count = value.inside_count();
    while count > 0 {
        let Some(part) = parts.pop() else {
            return Ok(None);
        };
        if is_list(&part.node) {
            return Ok(Some(part.node));
        }
        add_parts(&part, &mut parts)?;
        count -= 1;
    }
    Ok(None)
}

// Returns whether an expression of a kind is in brackets where it is an element of a list.
fn needs_brackets(kind: SyntaxKind) -> bool
    ensures { result ≡ needs_brackets kind }
{
    matches!(
        kind,
        SyntaxKind::NODE_APPLY
            | SyntaxKind::NODE_ASSERT
            | SyntaxKind::NODE_BIN_OP
            | SyntaxKind::NODE_HAS_ATTR
            | SyntaxKind::NODE_IF_ELSE
            | SyntaxKind::NODE_LAMBDA
            | SyntaxKind::NODE_LEGACY_LET
            | SyntaxKind::NODE_LET_IN
            | SyntaxKind::NODE_UNARY_OP
            | SyntaxKind::NODE_WITH
    )
}

// Returns a text in brackets.
fn bracketed(alloc: Global, inside: &str) -> Result<String, AllocError>
    ensures { IfOk result (λ text. string_bytes text ≡ bracketed inside.now) }
{
    let mut text = String::from_str(alloc, "(")?;
    text.push_str(inside)?;
    text.push_str(")")?;
    Ok(text)
}

/// Returns the element that a text means in a form, in brackets where a list needs these, or `None` if the form is `Raw` and the text is not an expression.
pub fn element_of(alloc: Global, form: Form, text: &str) -> Result<Option<Value>, AllocError>
    ensures some { IfOk result (λ element. IfSome element (λ element. IsElementOf form text.now element.kind (string_bytes element.text))) }
    ensures none { IfOk result (λ element. IfNone element (IsNoValue form text.now)) }
{
    let Some(value) = value_of(alloc, form, text)? else {
        return Ok(None);
    };
    if needs_brackets(value.kind) {
        Ok(Some(Value {
            kind: SyntaxKind::NODE_PAREN,
            text: bracketed(alloc, value.text.as_str())?,
        }))
    } else {
        Ok(Some(value))
    }
}

// Returns whether a node is an expression with this text.
fn is_element_with(node: &SyntaxNode<'_>, text: &str) -> bool
    ensures { result ≡ is_element_with text.now node.now }
{
    Expr::can_cast(node.kind()) && node.text() == text
}

/// Returns the first element of a list with this text.
pub fn element_with<'t>(list: &SyntaxNode<'t>, text: &str) -> Option<SyntaxNode<'t>>
    ensures { result ≡ element_with text.now list.now }
{
    for node in list.children() {
        if is_element_with(&node, text) {
            return Some(node);
        }
    }
    None
}
