//! Reading by the grammar's table: one step after another, until the root is complete.

ghost use Rattle.std.specs.Prelude.{◌≡◌, [], OnOk, true};
ghost use Rattle.rnix_grammar.specs.declared.operand_start.OperandStart.TheVariants.{Leaf};
ghost use Rattle.rnix_grammar.specs.declared.position.Position.TheVariants.{InRow, AfterOperand};
ghost use Rattle.rnix_proof_lemmas.specs.Machine.{initial_machine, min_bp_of};
ghost use Rattle.rnix_reader.specs.Erase.{erase};
ghost use Rattle.rnix_reader.specs.Holds.{IsReadTo};
ghost use Rattle.rnix_reader.specs.PatternNames.{entries_in, PatternOpened};
ghost use Rattle.rnix_reader.specs.Performed.{ArgumentNames, IsCheckpoint, IsReady, NamesAfter, NamesFor, PartNames, Performed, action_of, argument_read, begun_as, is_continuation, is_row_action, expression_read, opens_in, opens_on, opens_pattern, operand_read, part_read};
ghost use Rattle.rnix_reader.specs.Placed.{token_of, AreInOrder};
ghost use Rattle.rnix_reader.specs.State.{state, items_remaining, IsNextItem};
ghost use Rattle.rnix_reader.specs.FrameSteps.{bound_lambda_begun, legacy_let_begun, pattern_lambda_begun};

use crate::cursor::PlacedToken;
use crate::entries::{close_double_bind, close_entry, open_double_bind, open_entry};
use crate::mark::Mark;
use crate::parser::Parser;
use crate::pattern_names::Names;
use crate::turns::Turns;
use rnix_grammar::{
    APPLICATION_LEVEL, APPLIED, Action, BIN_OP_END, BOUND_PATTERN, ExpectedSet, LEGACY_LET,
    NO_LEVEL, OperandStart, PATTERN, Position, SELECTION_LEVEL, action_at_slot, continue_action,
    is_past, may_continue,
};
use rnix_kinds::SyntaxKind;
use std::alloc::AllocError;

// The nesting limit, which counts expressions, list items and operands of prefix operators.
const DEPTH_LIMIT: usize = 512;

// Begins an operand that is one token.
#[inline(always)]
fn start_leaf<'t>(
    p: &mut Parser<'t>,
    kind: SyntaxKind,
    level: u8,
    depth: usize,
    first: PlacedToken<'t>,
) -> Result<(), AllocError>
    ensures { OnOk result (state p.new ≡ begun_as (Leaf kind) level depth (token_of first.entry) (state p.old)) }
{
    p.leaf_operand(kind, Position::AfterOperand(level, SELECTION_LEVEL), depth)?;
    Ok(())
}

// Begins an operand that is a legacy `let`, and adds the keyword.
#[inline(always)]
fn start_let(p: &mut Parser<'_>, over: Position, depth: usize) -> Result<(), AllocError>
    ensures { OnOk result (state p.new ≡ legacy_let_begun over depth (state p.old)) }
{
    let kind = SyntaxKind::NODE_LEGACY_LET;
    p.node_operand(kind, Position::InRow(LEGACY_LET), over, depth)?;
    p.bump(kind)?;
    Ok(())
}

// Begins a function whose parameter is a pattern, and adds the name that is bound to the pattern.
#[inline(always)]
fn start_bound_lambda<'t>(
    p: &mut Parser<'t>,
    names: &mut Names<'t>,
    over: Position,
    depth: usize,
) -> Result<(), AllocError>
    ensures state { OnOk result (state p.new ≡ bound_lambda_begun over depth (state p.old)) }
    ensures names { OnOk result (PatternOpened names.old names.new) }
{
    p.lambda(over, depth)?;
    p.open_node(
        SyntaxKind::NODE_PATTERN,
        Position::InRow(BOUND_PATTERN),
        depth,
    )?;
    p.binding()?;
    names.open_pattern()?;
    Ok(())
}

// Begins a function whose parameter is a pattern, and adds its `{`.
#[inline(always)]
fn start_pattern_lambda<'t>(
    p: &mut Parser<'t>,
    names: &mut Names<'t>,
    over: Position,
    depth: usize,
) -> Result<(), AllocError>
    ensures state { OnOk result (state p.new ≡ pattern_lambda_begun over depth (state p.old)) }
    ensures names { OnOk result (PatternOpened names.old names.new) }
{
    p.lambda(over, depth)?;
    p.open_node(SyntaxKind::NODE_PATTERN, Position::InRow(PATTERN), depth)?;
    p.bump(SyntaxKind::NODE_PATTERN)?;
    names.open_pattern()?;
    Ok(())
}

// Starts an operand with its first item.
#[inline(never)]
fn start_operand<'t>(
    p: &mut Parser<'t>,
    names: &mut Names<'t>,
    how: OperandStart,
    level: u8,
    depth: usize,
    first: PlacedToken<'t>,
) -> Result<(), AllocError>
    requires { IsNextItem (token_of first) (state p.old) }
    ensures state { OnOk result (state p.new ≡ begun_as how level depth (token_of first.entry) (state p.old)) }
    ensures names { OnOk result (NamesFor (opens_pattern how) names.old names.new) }
{
    let over = Position::AfterOperand(level, SELECTION_LEVEL);
    match how {
        OperandStart::Leaf(kind) => start_leaf(p, kind, level, depth, first),
        OperandStart::Node(kind, position, max_bp) => p.node_operand(
            kind,
            Position::InRow(position),
            Position::AfterOperand(level, max_bp),
            depth,
        ),
        OperandStart::LegacyLet => start_let(p, Position::AfterOperand(level, NO_LEVEL), depth),
        OperandStart::NameLambda => {
            p.lambda(over, depth)?;
            p.parameter()
        }
        OperandStart::BoundLambda => start_bound_lambda(p, names, over, depth),
        OperandStart::PatternLambda => start_pattern_lambda(p, names, over, depth),
        OperandStart::Stray => {
            p.open_operand(over, depth)?;
            p.stray(first)
        }
    }
}

// Begins an operand of a level.
#[inline(never)]
fn operand<'t>(
    p: &mut Parser<'t>,
    names: &mut Names<'t>,
    level: u8,
    depth: usize,
) -> Result<(), AllocError>
    ensures state { OnOk result (state p.new ≡ operand_read level depth (state p.old)) }
    ensures names { OnOk result (NamesFor (opens_on level (items_remaining (state p.old))) names.old names.new) }
{
    match p.item() {
        Some(first) => match p.operand_start(level, first) {
            OperandStart::Leaf(kind) => start_leaf(p, kind, level, depth, first),
            how => start_operand(p, names, how, level, depth, first),
        },
        None => p.fail_at_end(),
    }
}

// Begins an operand that binds at least as tightly as `level`. `counted` is whether it adds one to the nesting depth.
#[inline(always)]
fn read<'t>(
    p: &mut Parser<'t>,
    names: &mut Names<'t>,
    level: u8,
    counted: bool,
    depth: usize,
) -> Result<(), AllocError>
    ensures state { OnOk result (state p.new ≡ expression_read level counted depth (state p.old)) }
    ensures names { OnOk result (NamesFor (opens_in depth counted level (state p.old)) names.old names.new) }
{
    if !counted {
        return Ok(operand(p, names, level, depth)?);
    }
    if depth >= DEPTH_LIMIT {
        return Ok(p.too_deep()?);
    }
    Ok(operand(p, names, level, depth + 1)?)
}

// Reads an operand of a node's row, and continues the row after it.
#[inline(always)]
fn read_part<'t>(
    p: &mut Parser<'t>,
    names: &mut Names<'t>,
    mark: Mark,
    level: u8,
    counted: bool,
    after: u8,
) -> Result<(), AllocError>
    ensures state { OnOk result (state p.new ≡ part_read level counted after mark (state p.old)) }
    ensures names { OnOk result (PartNames level counted after mark (state p.old) names.old names.new) }
{
    let depth = mark.depth;
    p.resume_at(mark, Position::InRow(after))?;
    read(p, names, level, counted, depth)?;
    Ok(())
}

// Applies the operand that was read to the next one.
#[inline(always)]
fn apply<'t>(
    p: &mut Parser<'t>,
    names: &mut Names<'t>,
    mark: Mark,
    min_bp: u8,
) -> Result<(), AllocError>
    requires { IsCheckpoint mark (state p.old) }
    ensures state { OnOk result (state p.new ≡ argument_read min_bp mark (state p.old)) }
    ensures names { OnOk result (ArgumentNames min_bp mark (state p.old) names.old names.new) }
{
    let depth = mark.depth;
    let over = Position::AfterOperand(min_bp, APPLICATION_LEVEL);
    p.wrap(mark, over, SyntaxKind::NODE_APPLY, Position::InRow(APPLIED))?;
    read(p, names, SELECTION_LEVEL, false, depth)?;
    Ok(())
}

// Takes one step in the innermost node.
#[inline(always)]
fn step<'t>(
    p: &mut Parser<'t>,
    names: &mut Names<'t>,
    mark: Mark,
    action: Action,
) -> Result<(), AllocError>
    requires row { is_row_action action ≡ true }
    requires ready { IsReady action mark (state p.old) names.old }
    ensures state { OnOk result (Performed action mark (state p.old) names.old (state p.new) names.new) }
    ensures names { OnOk result (NamesAfter action mark (state p.old) names.old names.new) }
{
    match action {
        Action::Close => p.finish_node(),
        Action::ClosePattern => {
            names.close_pattern();
            p.finish_node()
        }
        Action::CloseEntry => close_entry(p, names),
        Action::CloseDoubleBind => close_double_bind(p, names.second),
        Action::Extra => p.extra_run(mark),
        Action::Take(after) => p.take(mark, after),
        Action::Miss(after) => p.miss(mark, after),
        Action::MissWanted(until, after) => p.miss_wanted(mark, until, after),
        Action::Run(until, after) => p.unwanted_run(mark, until, after),
        Action::Leaf(kind, after) => p.leaf(mark, kind, after),
        Action::Open(kind, inside, after) => p.open(mark, kind, inside, after),
        Action::OpenEmpty(kind, inside, after) => p.open_empty(mark, kind, inside, after),
        Action::Entry(after) => Ok(open_entry(p, names, mark, after)?),
        Action::DoubleBind(after) => Ok(open_double_bind(p, names, mark, after)?),
        Action::Read(level, counted, after) => read_part(p, names, mark, level, counted, after),
        Action::Finish
        | Action::EndOperand
        | Action::Wrap(_, _, _)
        | Action::Apply
        | Action::ApplyOr => unreachable!(),
    }
}

// Continues the operand that was read, by an action that does so.
#[inline(always)]
fn continue_operand<'t>(
    p: &mut Parser<'t>,
    names: &mut Names<'t>,
    mark: Mark,
    min_bp: u8,
    action: Action,
) -> Result<(), AllocError>
    requires action { is_continuation action ≡ true }
    requires level { min_bp ≡ min_bp_of mark.position }
    requires ready { IsReady action mark (state p.old) names.old }
    ensures state { OnOk result (Performed action mark (state p.old) names.old (state p.new) names.new) }
    ensures names { OnOk result (NamesAfter action mark (state p.old) names.old names.new) }
{
    match action {
        Action::Wrap(kind, inside, max_bp) => {
            p.wrap_and_bump(mark, Position::AfterOperand(min_bp, max_bp), kind, inside)
        }
        Action::Apply => apply(p, names, mark, min_bp),
        Action::ApplyOr => p.apply_or(mark, Position::AfterOperand(min_bp, APPLICATION_LEVEL)),
        _ => Ok(()),
    }
}

// Continues the operand that was read, if the next item continues it. Otherwise the operand is complete.
#[tactic(auto, using(crate::proofs::LoopLemmas::continue_action_is_continuation))]
#[inline(always)]
fn after_operand<'t>(
    p: &mut Parser<'t>,
    names: &mut Names<'t>,
    mark: Mark,
    min_bp: u8,
    max_bp: u8,
) -> Result<(), AllocError>
    requires position { mark.position ≡ AfterOperand min_bp max_bp }
    requires ready { IsReady (action_of mark.position (state p.old)) mark (state p.old) names.old }
    ensures state { OnOk result (Performed (action_of mark.position (state p.old)) mark (state p.old) names.old (state p.new) names.new) }
    ensures names { OnOk result (NamesAfter (action_of mark.position (state p.old)) mark (state p.old) names.old names.new) }
{
    if let Some(kind) = p.peek() {
        if may_continue(min_bp, max_bp, kind) {
            continue_operand(p, names, mark, min_bp, continue_action(kind))?;
        }
    }
    Ok(())
}

// The action at a position of a row. If all that is left to do is to end the node, no item is looked at.
#[inline(always)]
fn action_in_row(p: &Parser<'_>, index: u8) -> Action
    ensures { result ≡ action_of (InRow index) (state p.now) }
{
    if is_past(index) {
        return Action::Close;
    }
    action_at_slot(index, p.peek(), p.touches())
}

/// Reads until the root is complete, and counts the turns: at most fifteen for every two items, plus two.
// The position is matched first: this saves a test at each step, and two table lookups after an operand or an operator.
pub(crate) fn read_all<'t, T: Turns>(
    p: &mut Parser<'t>,
    names: &mut Names<'t>,
    turns: &mut T,
) -> Result<(), AllocError>
    requires state { state p.old ≡ erase (initial_machine (state p.old).rest) }
    requires order { AreInOrder 0 (state p.old).rest }
    requires sets { names.old.sets.items ≡ [] }
    requires entries { entries_in names.old ≡ [] }
    requires none { T.counted turns.old 0 }
    ensures { OnOk result (IsReadTo (T.counted turns.new) (state p.old).rest (state p.new)) }
{
    while let Some(mark) = p.marks.pop() {
        turns.turn();
        match mark.position {
            Position::AfterOperand(min_bp, max_bp) => {
                after_operand(p, names, mark, min_bp, max_bp)?;
            }
            Position::Right(level) => {
                read_part(p, names, mark, level, false, BIN_OP_END)?;
            }
            Position::InRow(index) => {
                let action = action_in_row(p, index);
                if let Action::Finish = action {
                    p.eat_trivia()?;
                    p.finish_node()?;
                    return Ok(());
                }
                step(p, names, mark, action)?;
            }
        }
    }
    Ok(())
}
