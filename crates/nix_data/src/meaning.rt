//! Whether an expression means given data.

ghost use Rattle.std.specs.Prelude.{◌≡◌, Some, None, option_map, string_bytes, IfOk, IfSome, IsTrue};
ghost use Rattle.rnix_kinds.specs.declared.kinds.SyntaxKind.TheVariants as k;
ghost use Rattle.rnix_green.specs.Equality.{same_kind};
ghost use Rattle.rnix_green.specs.Tree.{text_at};
ghost use Rattle.rnix_base.specs.Literal.{first_literal};
ghost use Rattle.rnix_base.specs.Select.{HasKind, token_of};
ghost use Rattle.nix_values.specs.Contents.{set, plain_of, entry_of};
ghost use Rattle.nix_data.specs.Meaning.{expression_text, unsigned, is_integer, is_float, IsNumber, word_of, HasValue, path_name, IsPart, unwrapped, IsHead, MeansItems};
ghost use Rattle.nix_data.specs.NewNames.{IsNewName};

use crate::keys::key_of;
use crate::misread::is_altered;
use nix_values::{Item, Value, is_held};
use rnix::ast::{
    AstNode, AttrSet, Attrpath, AttrpathValue, Ident, List, Literal, LiteralKind, Paren, Str,
    UnaryOp,
};
use rnix::{SyntaxKind, SyntaxNode};
use std::alloc::{AllocError, Global};
use std::collections::BTreeSet;

// The smallest number above the integers that Nix can write.
const INTEGERS_END: u64 = 1 << 63;

// Returns the value of an expression that is a string without interpolations, unless Nix changes it.
fn expression_text(alloc: Global, node: &SyntaxNode<'_>) -> Result<Option<String>, AllocError>
    ensures { IfOk result (λ found. option_map string_bytes found ≡ expression_text node.now) }
{
    if is_altered(node.text()) {
        return Ok(None);
    }
    match Str::cast(node.clone()) {
        Some(string) => string.plain_value(alloc),
        None => Ok(None),
    }
}

// Returns the operand of a prefix operation; returns any other expression itself.
fn unsigned<'t>(node: &SyntaxNode<'t>) -> SyntaxNode<'t>
    ensures { result ≡ unsigned node.now }
{
    match UnaryOp::cast(node.clone()) {
        Some(operation) => match operation.expr() {
            Some(operand) => operand.syntax().clone(),
            None => node.clone(),
        },
        None => node.clone(),
    }
}

// Returns the literal of an expression without its sign.
fn literal_of<'t>(node: &SyntaxNode<'t>) -> Option<LiteralKind<'t>>
    ensures { IfSome result (λ found. HasKind k.NODE_LITERAL (unsigned node.now) × (first_literal (unsigned node.now) ≡ Some found)) }
{
    match Literal::cast(unsigned(node)) {
        Some(literal) => literal.kind(),
        None => None,
    }
}

// Returns whether an expression is an integer, possibly with a sign.
fn is_integer(node: &SyntaxNode<'_>) -> bool
    ensures { IsTrue result → IsNumber is_integer node.now }
{
    match literal_of(node) {
        Some(LiteralKind::Integer(_)) => true,
        _ => false,
    }
}

// Returns whether an expression is a float, possibly with a sign.
fn is_float(node: &SyntaxNode<'_>) -> bool
    ensures { IsTrue result → IsNumber is_float node.now }
{
    match literal_of(node) {
        Some(LiteralKind::Float(_)) => true,
        _ => false,
    }
}

// Returns whether a node is an identifier with this text.
fn is_word(node: &SyntaxNode<'_>, word: &str) -> bool
    ensures { IsTrue result → HasKind k.NODE_IDENT node.now × (text_at node.now ≡ word.now) }
{
    Ident::can_cast(node.kind()) && node.text() == word
}

// Returns the keyword for a truth value.
fn word_of(is_true: bool) -> &'static str
    ensures { result.now ≡ word_of is_true }
{
    if is_true { "true" } else { "false" }
}

// Returns whether a node is a set without `rec`.
fn is_plain_set(node: &SyntaxNode<'_>) -> bool
    ensures { IsTrue result → HasKind k.NODE_ATTR_SET node.now × (token_of (same_kind k.TOKEN_REC) node.now ≡ None) }
{
    match AttrSet::cast(node.clone()) {
        Some(set) => set.rec_token().is_none(),
        None => false,
    }
}

// Returns whether an expression has a value that Nix can hold, not counting the values inside it.
fn has_value(alloc: Global, node: &SyntaxNode<'_>, value: &Value) -> Result<bool, AllocError>
    ensures { IfOk result (λ has_value. IsTrue has_value → HasValue node.now (plain_of value.now)) }
{
    match value {
        Value::Null => Ok(is_word(node, "null")),
        Value::Bool(is_true) => Ok(is_word(node, word_of(*is_true))),
        Value::Integer(number) => {
            let number = *number;
            let digits = format!(in alloc; "{number}")?;
            let can_be_written = number.unsigned_abs() < INTEGERS_END;
            Ok(can_be_written && is_integer(node) && node.text() == digits.as_str())
        }
        Value::Float(digits) => {
            let digits = digits.as_str();
            Ok(is_held(digits) && is_float(node) && node.text() == digits)
        }
        Value::Text(text) => match expression_text(alloc, node)? {
            Some(found) => Ok(found.as_str() == text.as_str()),
            None => Ok(false),
        },
        Value::List => Ok(List::can_cast(node.kind())),
        Value::Set => Ok(is_plain_set(node)),
    }
}

// Returns the name in a path, if the path is a single name.
fn path_name(alloc: Global, path: Option<Attrpath<'_>>) -> Result<Option<String>, AllocError>
    ensures { IfOk result (λ found. option_map string_bytes found ≡ path_name path.entry) }
{
    let Some(path) = path else {
        return Ok(None);
    };
    let mut attributes = path.attrs();
    let Some(attribute) = attributes.next() else {
        return Ok(None);
    };
    match attributes.next() {
        Some(_second) => Ok(None),
        None => key_of(alloc, &attribute),
    }
}

// A value inside another, with its name.
#[derive(Drop)]
struct Part<'t> {
    name: String,
    node: SyntaxNode<'t>,
}

// Returns the value of an entry of a set.
fn attribute<'t>(alloc: Global, child: SyntaxNode<'t>) -> Result<Option<Part<'t>>, AllocError>
    ensures { IfOk result (λ found. IfSome found (λ part. IsPart set child.entry (string_bytes part.name) part.node)) }
{
    let Some(entry) = AttrpathValue::cast(child) else {
        return Ok(None);
    };
    let name = path_name(alloc, entry.attrpath())?;
    match (name, entry.value()) {
        (Some(name), Some(value)) => Ok(Some(Part {
            name,
            node: value.syntax().clone(),
        })),
        _ => Ok(None),
    }
}

// Returns the value in a child node of a list or a set.
fn part_in<'t>(
    alloc: Global,
    around: &Value,
    child: SyntaxNode<'t>,
) -> Result<Option<Part<'t>>, AllocError>
    ensures { IfOk result (λ found. IfSome found (λ part. IsPart (plain_of around.now) child.entry (string_bytes part.name) part.node)) }
{
    match around {
        Value::Set => attribute(alloc, child),
        _ => Ok(Some(Part {
            name: String::new(alloc),
            node: child,
        })),
    }
}

// Returns an expression without the parentheses around it.
fn unwrapped<'t>(expr: &SyntaxNode<'t>) -> SyntaxNode<'t>
    ensures { result ≡ unwrapped expr.now }
{
    match Paren::cast(expr.clone()) {
        Some(paren) => match paren.expr() {
            Some(inner) => inner.syntax().clone(),
            None => expr.clone(),
        },
        None => expr.clone(),
    }
}

// Returns whether an item has a depth, a name, and the value of a node, not counting the values inside it.
fn is_head(
    alloc: Global,
    depth: usize,
    name: &str,
    node: &SyntaxNode<'_>,
    item: &Item,
) -> Result<bool, AllocError>
    ensures { IfOk result (λ is_head. IsTrue is_head → IsHead depth name.now node.now (entry_of item.now)) }
{
    if item.depth != depth || item.name.as_str() != name {
        return Ok(false);
    }
    has_value(alloc, node, &item.value)
}

// Adds a name to those of the entries of a set so far, and returns whether it is new. In a list, every name is new.
#[tactic(auto, using(crate::proofs::DifferentNames::new_name))]
fn is_new(around: &Value, names: &mut BTreeSet<String>, name: String) -> Result<bool, AllocError>
    ensures { IfOk result (λ is_new. IsTrue is_new → IsNewName (plain_of around.now) names.old (string_bytes name) names.new) }
{
    match around {
        Value::Set => Ok(names.insert(name)?),
        _ => Ok(true),
    }
}

/// Returns the items after those that an expression means: its own and those inside it. Returns `None` if the items do not begin with
/// these, if they nest at least `levels` deep, or if two entries of a set have the same name.
pub fn items_after<'a>(
    alloc: Global,
    levels: usize,
    depth: usize,
    name: &str,
    expr: &SyntaxNode<'_>,
    items: &'a [Item],
) -> Result<Option<&'a [Item]>, AllocError>
    ensures { IfOk result (λ found. IfSome found (λ rest. MeansItems levels depth name.now expr.now items.now rest.now)) }
{
    let Some((head, inside)) = items.split_first() else {
        return Ok(None);
    };
    let node = unwrapped(expr);
    if levels == 0 || depth == usize::MAX || !is_head(alloc, depth, name, &node, head)? {
        return Ok(None);
    }
    let mut rest = inside;
    if !head.value.has_parts() {
        return Ok(Some(rest));
    }
    let mut names = BTreeSet::new(alloc);
    for child in node.children() {
        let Some(part) = part_in(alloc, &head.value, child)? else {
            return Ok(None);
        };
        let part_name = part.name.as_str();
        match items_after(alloc, levels - 1, depth + 1, part_name, &part.node, rest)? {
            Some(remaining) => rest = remaining,
            None => return Ok(None),
        }
        if !is_new(&head.value, &mut names, part.name)? {
            return Ok(None);
        }
    }
    Ok(Some(rest))
}
