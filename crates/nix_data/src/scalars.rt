//! Values other than lists and sets, and the names of attributes.

ghost use Rattle.std.specs.Prelude.{◌≡◌, Some, None, IfOk, string_bytes};
ghost use Rattle.rnix_kinds.specs.declared.kinds.SyntaxKind.TheVariants as k;
ghost use Rattle.rnix_green.specs.Tree.{item_of, text_at};
ghost use Rattle.rnix_green.specs.Walk.{nodes_in, children_of};
ghost use Rattle.rnix_base.specs.declared.literal.LiteralKind.TheVariants as literal;
ghost use Rattle.rnix_base.specs.Literal.{first_literal};
ghost use Rattle.rnix_base.specs.Select.{HasKind};
ghost use Rattle.rnix.specs.Sums.{attr_node};
ghost use Rattle.nix_values.specs.Contents.{plain_of};
ghost use Rattle.nix_data.specs.Meaning.{expression_text, key_of};
ghost use Rattle.nix_data.specs.Scalars.{named, integer_of, literal_value, negated_of_kind, operation_of, path_value, scalar_of};
ghost use Rattle.nix_data.specs.Refusals.{Refuses, Reads};
ghost use Rattle.nix_data.specs.declared.scalars.Stop.TheVariants.{Memory};

use crate::keys::{key_of, name_source};
use crate::misread::{is_altered, is_quoted};
use crate::no_data::{NoData, Reason};
use nix_values::{Value, float_of};
use rnix::ast::{
    AstNode, AstToken, Attr, Float, Integer, InterpolPart, Literal, LiteralKind, Str, UnaryOp,
    UnaryOpKind, Uri,
};
use rnix::{SyntaxKind, SyntaxNode, TextRange};
use std::alloc::{AllocError, Global};

/// Why reading stops.
#[derive(Drop)]
pub enum Stop {
    /// An allocation failed.
    Memory,
    /// A part of the text is not data.
    NoData(NoData),
}

impl From<AllocError> for Stop {
    ghost from_gives = { λ error stop. stop ≡ Memory };

    fn from(_error: AllocError) -> Stop {
        Stop::Memory
    }
}

impl<T: Drop> From<std::alloc::AllocFailed<T>> for Stop {
    ghost from_gives = { λ error stop. stop ≡ Memory };

    fn from(_error: std::alloc::AllocFailed<T>) -> Stop {
        Stop::Memory
    }
}

/// Returns the error for a part of a text that is not data.
pub fn no_data(reason: Reason, range: TextRange) -> Stop {
    Stop::NoData(NoData {
        reason,
        range,
        first: None,
    })
}

/// Returns the error for a node that Nix must evaluate.
pub fn evaluated(node: &SyntaxNode<'_>) -> Stop {
    no_data(Reason::Evaluated(node.kind()), node.text_range())
}

// Returns the range of the first interpolation of a string, or else of the string.
fn interpolation(string: &Str<'_>) -> TextRange {
    for part in string.parts() {
        if let InterpolPart::Interpolation(found) = part {
            return found.syntax().text_range();
        }
    }
    string.syntax().text_range()
}

// Returns the error for a string that Nix changes.
fn altered(node: &SyntaxNode<'_>) -> Stop {
    let reason = if node.text().contains('\0') {
        Reason::HasNul
    } else {
        Reason::HasReturn
    };
    no_data(reason, node.text_range())
}

// Returns the value of a string.
fn string_value(alloc: Global, node: &SyntaxNode<'_>) -> Result<String, Stop>
    ensures { Reads result (expression_text node.now) (λ text. string_bytes text) }
{
    let Some(string) = Str::cast(node.clone()) else {
        return Err(evaluated(node));
    };
    let Some(text) = string.plain_value(alloc)? else {
        return Err(no_data(
            Reason::Evaluated(SyntaxKind::NODE_INTERPOL),
            interpolation(&string),
        ));
    };
    if is_altered(node.text()) {
        return Err(altered(node));
    }
    Ok(text)
}

// Returns the value of an integer, negated if `is_negative`.
fn integer(number: &Integer<'_>, is_negative: bool) -> Result<Value, Stop>
    ensures { Reads result (integer_of is_negative (text_at number.now)) plain_of }
{
    let too_large = no_data(Reason::TooLarge, number.syntax().text_range());
    let Ok(value) = number.value() else {
        return Err(too_large);
    };
    if !is_negative {
        return Ok(Value::Integer(value));
    }
    match value.checked_neg() {
        Some(negated) => Ok(Value::Integer(negated)),
        None => Err(too_large),
    }
}

// Returns the value of a float, negated if `is_negative`.
fn float(alloc: Global, number: &Float<'_>, is_negative: bool) -> Result<Value, Stop>
    ensures { Reads result (literal_value is_negative (Some (literal.Float number.now))) plain_of }
{
    let sign = if is_negative { "-" } else { "" };
    let digits = number.syntax().text();
    let signed = format!(in alloc; "{sign}{digits}")?;
    match float_of(alloc, signed.as_str())? {
        Some(float) => Ok(Value::Float(float)),
        None => Err(no_data(Reason::NoFloat, number.syntax().text_range())),
    }
}

// Returns the value of a URI: its text. It cannot be negated.
fn uri(alloc: Global, address: &Uri<'_>, is_negative: bool) -> Result<Value, Stop>
    ensures { Reads result (literal_value is_negative (Some (literal.Uri address.now))) plain_of }
{
    if is_negative {
        return Err(no_data(
            Reason::Evaluated(SyntaxKind::NODE_UNARY_OP),
            address.syntax().text_range(),
        ));
    }
    Ok(Value::Text(String::from_str(alloc, address.syntax().text())?))
}

// Returns the value of a number or a URI, negated if `is_negative`.
fn literal(alloc: Global, node: &SyntaxNode<'_>, is_negative: bool) -> Result<Value, Stop>
    ensures value { IfOk result (λ value. literal_value is_negative (first_literal node.now) ≡ Some (plain_of value)) }
    ensures refused { Refuses result (HasKind k.NODE_LITERAL node.now → literal_value is_negative (first_literal node.now) ≡ None) }
{
    let Some(literal) = Literal::cast(node.clone()) else {
        return Err(evaluated(node));
    };
    match literal.kind() {
        Some(LiteralKind::Integer(number)) => integer(&number, is_negative),
        Some(LiteralKind::Float(number)) => float(alloc, &number, is_negative),
        Some(LiteralKind::Uri(address)) => uri(alloc, &address, is_negative),
        None => Err(evaluated(node)),
    }
}

// Returns the value of an operand that is negated: a number.
fn negated(
    alloc: Global,
    operation: &SyntaxNode<'_>,
    operand: &SyntaxNode<'_>,
) -> Result<Value, Stop>
    ensures { Reads result (negated_of_kind (item_of operand.now).kind operand.now) plain_of }
{
    match operand.kind() {
        SyntaxKind::NODE_LITERAL => literal(alloc, operand, true),
        _ => Err(evaluated(operation)),
    }
}

// Returns the value of a prefix operation: a negative number.
fn negative(alloc: Global, node: &SyntaxNode<'_>) -> Result<Value, Stop>
    ensures value { IfOk result (λ value. operation_of node.now ≡ Some (plain_of value)) }
    ensures refused { Refuses result (HasKind k.NODE_UNARY_OP node.now → operation_of node.now ≡ None) }
{
    let Some(operation) = UnaryOp::cast(node.clone()) else {
        return Err(evaluated(node));
    };
    match (operation.operator(), operation.expr()) {
        (Some(UnaryOpKind::Negate), Some(operand)) => negated(alloc, node, operand.syntax()),
        _ => Err(evaluated(node)),
    }
}

// Returns the value of an identifier: `null`, `true` or `false`.
fn named(node: &SyntaxNode<'_>) -> Result<Value, Stop>
    ensures { Reads result (named (text_at node.now)) plain_of }
{
    match node.text() {
        "null" => Ok(Value::Null),
        "true" => Ok(Value::Bool(true)),
        "false" => Ok(Value::Bool(false)),
        _ => Err(evaluated(node)),
    }
}

// Returns the value of a path: its text, if it has no interpolation.
fn path(alloc: Global, node: &SyntaxNode<'_>) -> Result<Value, Stop>
    ensures { Reads result (path_value (nodes_in (children_of node.now)) (text_at node.now)) plain_of }
{
    match node.children().next() {
        Some(inside) => Err(evaluated(&inside)),
        None => Ok(Value::Text(String::from_str(alloc, node.text())?)),
    }
}

/// Returns the value of an expression that is neither a list nor a set.
pub fn scalar(alloc: Global, node: &SyntaxNode<'_>) -> Result<Value, Stop>
    ensures { Reads result (scalar_of node.now) plain_of }
{
    match node.kind() {
        SyntaxKind::NODE_STRING => Ok(Value::Text(string_value(alloc, node)?)),
        SyntaxKind::NODE_LITERAL => literal(alloc, node, false),
        SyntaxKind::NODE_UNARY_OP => negative(alloc, node),
        SyntaxKind::NODE_IDENT => named(node),
        SyntaxKind::NODE_PATH_ABS | SyntaxKind::NODE_PATH_REL | SyntaxKind::NODE_PATH_HOME => {
            path(alloc, node)
        }
        _ => Err(evaluated(node)),
    }
}

// Returns why an attribute has no name that can be read.
fn no_key(attr: &Attr<'_>) -> Stop {
    let source = name_source(attr.syntax());
    if is_altered(source.text()) {
        return altered(&source);
    }
    match attr {
        Attr::Str(string) if is_quoted(source.text()) => no_data(
            Reason::Evaluated(SyntaxKind::NODE_INTERPOL),
            interpolation(string),
        ),
        Attr::Str(_) => no_data(Reason::IndentedName, source.text_range()),
        Attr::Ident(_) | Attr::Dynamic(_) => evaluated(attr.syntax()),
    }
}

/// Returns the name that an attribute in a path denotes.
pub fn key(alloc: Global, attr: &Attr<'_>) -> Result<String, Stop>
    ensures { Reads result (key_of (attr_node attr.now)) (λ text. string_bytes text) }
{
    match key_of(alloc, attr)? {
        Some(name) => Ok(name),
        None => Err(no_key(attr)),
    }
}
