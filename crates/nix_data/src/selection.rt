//! The definitions of the part of a text that a path selects.

ghost use Rattle.std.specs.Prelude.{◌≡◌, [], Some, None, map, option_map, if◌then◌else◌};
ghost use Rattle.rnix_base.specs.Select.{child_of, tokens_in};
ghost use Rattle.rnix_base.specs.TokenOperators.{binary_operator, first_operator};
ghost use Rattle.rnix_green.specs.Walk.{children_of};
ghost use Rattle.rnix.specs.NodeKinds.{is_expr, is_param};
ghost use Rattle.nix_values.specs.Each.{each};
ghost use Rattle.nix_values.specs.PathNames.{name_of};
ghost use Rattle.nix_data.specs.Definitions.{names_of, definition_of, definitions_of, turn_of};
ghost use Rattle.nix_data.specs.Selection.{only, keeps_constants, binds_constant, set_definitions, entered, operands, item_at, unless_operand};
ghost use Rattle.nix_data.specs.Selection.{selected, merged_set, merged_by, merged_with, only_value, selected_in, selection};
ghost use Rattle.nix_data.specs.Selection as selection;
ghost use Rattle.nix_data.specs.Scalars.{scalar_of};
ghost use Rattle.nix_data.specs.Refusals.{Reads};

use crate::constants::{binds_constant, check_constants};
use crate::definition::{Definition, Turn};
use crate::definitions::{define, definitions_in, is_defined, only};
use crate::nix_reader::LEVELS;
use crate::no_data::{NoData, Reason};
use crate::scalars::{Stop, evaluated, no_data, scalar};
use nix_values::PathName;
use rnix::ast::{AstNode, AttrSet, BinOpKind, Expr, without_parens};
use rnix::{SyntaxKind, SyntaxNode, TextRange};
use rnix_base::{child_at, first_binary, first_token};
use std::alloc::Global;

// Returns the definitions of the attribute with a name in a set.
fn set_definitions<'t>(
    alloc: Global,
    name: &str,
    set: &SyntaxNode<'t>,
) -> Result<Vec<Definition<'t>>, Stop>
    ensures { Reads result (set_definitions name.now set.now) (λ found. definitions_of found.items) }
{
    if first_token(set, SyntaxKind::TOKEN_REC).is_some() {
        check_constants(alloc, set)?;
    }
    definitions_in(alloc, name, set)
}

// Returns the child node of an expression with a number, among those that are expressions.
fn expr_in<'t>(node: &SyntaxNode<'t>, number: usize) -> Option<SyntaxNode<'t>>
    ensures { result ≡ child_of is_expr number node.now }
{
    match child_at::<Expr<'t>>(node, number) {
        Some(expr) => Some(expr.syntax().clone()),
        None => None,
    }
}

// Enters the expression with a number in a node.
fn enter<'t>(node: &SyntaxNode<'t>, number: usize) -> Result<Turn<'t>, Stop>
    ensures { Reads result (entered (child_of is_expr number node.now)) turn_of }
{
    match expr_in(node, number) {
        Some(inner) => Ok(Turn::Enter(inner)),
        None => Err(evaluated(node)),
    }
}

// Enters the body of a `let`.
fn enter_let<'t>(alloc: Global, node: &SyntaxNode<'t>) -> Result<Turn<'t>, Stop>
    ensures { Reads result (if keeps_constants node.now then entered (child_of is_expr 0 node.now) else None) turn_of }
{
    check_constants(alloc, node)?;
    enter(node, 0)
}

// Enters the body of a function.
fn enter_function<'t>(node: &SyntaxNode<'t>, is_operand: bool) -> Result<Turn<'t>, Stop>
    ensures { Reads result
        (unless_operand is_operand (if binds_constant (child_of is_param 0 node.now) then None else entered (child_of is_expr 0 node.now))) turn_of }
{
    if is_operand {
        return Err(evaluated(node));
    }
    if binds_constant(node) {
        return Err(no_data(Reason::Redefined, node.text_range()));
    }
    enter(node, 0)
}

// Returns the operands of `//`.
fn operands<'t>(node: &SyntaxNode<'t>) -> Result<Turn<'t>, Stop>
    ensures { Reads result
        (operands (first_operator binary_operator (tokens_in (children_of node.now))) (child_of is_expr 0 node.now) (child_of is_expr 1 node.now))
        turn_of }
{
    match (first_binary(node), expr_in(node, 0), expr_in(node, 1)) {
        (Some(BinOpKind::Update), Some(left), Some(right)) => Ok(Turn::Update(left, right)),
        _ => Err(evaluated(node)),
    }
}

// Finds the definitions of an attribute in a set.
fn find<'t>(alloc: Global, name: &str, set: &SyntaxNode<'t>) -> Result<Turn<'t>, Stop>
    ensures { Reads result (option_map selection.finish (set_definitions name.now set.now)) turn_of }
{
    Ok(Turn::Found(set_definitions(alloc, name, set)?))
}

// Returns the item of a list with an index.
fn item_at<'t>(
    alloc: Global,
    list: &SyntaxNode<'t>,
    index: Option<usize>,
) -> Result<Vec<Definition<'t>>, Stop>
    ensures { Reads result (Some (item_at index list.now)) (λ found. definitions_of found.items) }
{
    let mut found = Vec::new(alloc);
    if let Some(index) = index {
        if let Some(item) = expr_in(list, index) {
            found.push(only(item))?;
        }
    }
    Ok(found)
}

// Finds the item of a list with an index.
fn find_item<'t>(
    alloc: Global,
    list: &SyntaxNode<'t>,
    index: Option<usize>,
    is_operand: bool,
) -> Result<Turn<'t>, Stop>
    ensures { Reads result (unless_operand is_operand (Some (selection.finish (item_at index list.now)))) turn_of }
{
    if is_operand {
        return Err(no_data(Reason::NoSet, list.text_range()));
    }
    Ok(Turn::Found(item_at(alloc, list, index)?))
}

// Returns why an expression that is neither a list nor a set is no operand of `//`.
fn no_operand(alloc: Global, node: &SyntaxNode<'_>) -> Stop {
    match scalar(alloc, node) {
        Ok(_value) => no_data(Reason::NoSet, node.text_range()),
        Err(stop) => stop,
    }
}

// Finds nothing in an expression that is neither a list nor a set.
fn find_nothing<'t>(
    alloc: Global,
    node: &SyntaxNode<'t>,
    is_operand: bool,
) -> Result<Turn<'t>, Stop>
    ensures { Reads result (unless_operand is_operand (option_map (λ plain. selection.finish []) (scalar_of node.now))) turn_of }
{
    if is_operand {
        return Err(no_operand(alloc, node));
    }
    let _value = scalar(alloc, node)?;
    Ok(Turn::Found(Vec::new(alloc)))
}

// Returns where to look for the attribute or the item with a name in an expression.
fn turn<'t>(
    alloc: Global,
    name: &PathName,
    is_operand: bool,
    node: &SyntaxNode<'t>,
) -> Result<Turn<'t>, Stop>
    ensures { Reads result (selection.turn_of (name_of name.now) is_operand node.now) turn_of }
{
    match node.kind() {
        SyntaxKind::NODE_ROOT | SyntaxKind::NODE_PAREN => enter(node, 0),
        SyntaxKind::NODE_WITH | SyntaxKind::NODE_ASSERT => enter(node, 1),
        SyntaxKind::NODE_LET_IN => enter_let(alloc, node),
        SyntaxKind::NODE_LAMBDA => enter_function(node, is_operand),
        SyntaxKind::NODE_BIN_OP => operands(node),
        SyntaxKind::NODE_ATTR_SET => find(alloc, name.text.as_str(), node),
        SyntaxKind::NODE_LIST => find_item(alloc, node, name.index, is_operand),
        _ => find_nothing(alloc, node, is_operand),
    }
}

// Returns the definitions of the attribute or the item with a name in an expression, which nest less than `levels` deep.
fn select<'t>(
    alloc: Global,
    levels: usize,
    name: &PathName,
    is_operand: bool,
    node: &SyntaxNode<'t>,
) -> Result<Vec<Definition<'t>>, Stop>
    ensures { Reads result (selected levels (name_of name.now) is_operand node.now) (λ found. definitions_of found.items) }
{
    if levels == 0 {
        return Err(evaluated(node));
    }
    match turn(alloc, name, is_operand, node)? {
        Turn::Found(found) => Ok(found),
        Turn::Enter(inner) => Ok(select(alloc, levels - 1, name, is_operand, &inner)?),
        Turn::Update(left, right) => {
            let found = select(alloc, levels - 1, name, true, &right)?;
            if is_defined(&found) {
                return Ok(found);
            }
            Ok(select(alloc, levels - 1, name, true, &left)?)
        }
    }
}

// Returns the error for a definition of an attribute that is already defined.
fn repeated(range: TextRange, found: &Vec<Definition<'_>>) -> Stop {
    Stop::NoData(NoData {
        reason: Reason::Repeated,
        range,
        first: found.first().map(|definition| definition.range),
    })
}

// Adds the definitions of an attribute in a set that is one definition of several. The set may only add attributes, and has no `rec`.
fn merge_set<'t>(
    alloc: Global,
    name: &str,
    set: &SyntaxNode<'t>,
    found: &mut Vec<Definition<'t>>,
) -> Result<(), Stop>
    ensures { Reads result (merged_set name.now set.now (definitions_of found.old.items)) (λ done. definitions_of found.new.items) }
{
    if !AttrSet::can_cast(set.kind()) {
        return Err(no_data(Reason::Repeated, set.text_range()));
    }
    if first_token(set, SyntaxKind::TOKEN_REC).is_some() {
        return Err(no_data(Reason::Recursive, set.text_range()));
    }
    let more = definitions_in(alloc, name, set)?;
    if !is_defined(&more) {
        return Ok(());
    }
    if is_defined(found) {
        return Err(repeated(set.text_range(), found));
    }
    *found = more;
    Ok(())
}

// Adds the definitions of an attribute in one definition of several.
fn merge<'t>(
    alloc: Global,
    name: &str,
    definition: Definition<'t>,
    found: &mut Vec<Definition<'t>>,
) -> Result<(), Stop>
    ensures { Reads result
        (merged_by name.now (names_of definition.entry.names) definition.entry.value (definitions_of found.old.items))
        (λ done. definitions_of found.new.items) }
{
    let Definition { names, value, .. } = definition;
    match names {
        Some(names) => define(alloc, name, names, value, found),
        None => merge_set(alloc, name, &without_parens(&value), found),
    }
}

// Returns the definitions of an attribute in several definitions.
fn merged<'t>(
    alloc: Global,
    name: &str,
    definitions: Vec<Definition<'t>>,
) -> Result<Vec<Definition<'t>>, Stop>
    ensures { Reads result (each (merged_with name.now) (definitions_of definitions.entry.items) []) (λ found. definitions_of found.items) }
{
    let mut found = Vec::new(alloc);
    let mut rest = definitions.into_iter();
    while let Some(definition) = rest.next() {
        merge(alloc, name, definition, &mut found)?;
    }
    Ok(found)
}

// Returns the value of the only definition, if no names lead to it.
fn only_value<'t>(definitions: &[Definition<'t>]) -> Option<SyntaxNode<'t>>
    ensures { result ≡ only_value (definitions_of definitions.now) }
{
    match definitions {
        [definition] => match &definition.names {
            Some(_names) => None,
            None => Some(definition.value.clone()),
        },
        _ => None,
    }
}

// Returns the definitions of the attribute or the item with a name in the value that some define.
fn selected_in<'t>(
    alloc: Global,
    name: &PathName,
    definitions: Vec<Definition<'t>>,
) -> Result<Vec<Definition<'t>>, Stop>
    ensures { Reads result (selected_in (name_of name.now) (definitions_of definitions.entry.items)) (λ found. definitions_of found.items) }
{
    match only_value(definitions.as_slice()) {
        Some(value) => select(alloc, LEVELS, name, false, &value),
        None => merged(alloc, name.text.as_str(), definitions),
    }
}

/// Returns the definitions that a path selects in a tree.
pub fn selection<'t>(
    alloc: Global,
    path: &[PathName],
    root: &SyntaxNode<'t>,
) -> Result<Vec<Definition<'t>>, Stop>
    ensures { Reads result (selection (map name_of path.now) root.now) (λ found. definitions_of found.items) }
{
    let mut found = Vec::new(alloc);
    found.push(only(root.clone()))?;
    let mut rest = path;
    while let Some((name, others)) = rest.split_first() {
        found = selected_in(alloc, name, found)?;
        rest = others;
    }
    Ok(found)
}
