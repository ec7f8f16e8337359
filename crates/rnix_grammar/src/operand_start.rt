//! What an operand may begin with.

ghost use Rattle.std.specs.Prelude.{◌≡◌, ◌<◌, ◌-◌};
ghost use Rattle.rnix_kinds.specs.declared.kinds.SyntaxKind.TheVariants.{TOKEN_IDENT, TOKEN_LET, NODE_UNARY_OP};
ghost use Rattle.rnix_grammar.specs.declared.operand_start.OperandStart.TheVariants.{Node};
ghost use Rattle.rnix_grammar.specs.Levels.{no_level, selection_level};
ghost use Rattle.rnix_grammar.specs.Tables.{is_cur_pos};
ghost use Rattle.rnix_grammar.specs.OperandStarts.{is_pattern, first_kind_of_name, first_kind_of_let, operand_start_for, operand_start_of};

use crate::level::{EXPRESSION_LEVEL, INVERSION_LEVEL, NEGATION_LEVEL, NO_LEVEL, SELECTION_LEVEL};
use crate::slot_table::{
    ASSERT, IF_ELSE, INVERSION, LET_IN, LIST, NEGATION, PAREN, PATH_ABS, PATH_HOME, PATH_REL,
    REC_SET, SET, STRING, WITH,
};
use SyntaxKind::*;
use rnix_kinds::{SyntaxKind, Token};

/// How an operand begins.
#[derive(Clone, Copy)]
pub enum OperandStart {
    /// A node over one token.
    Leaf(SyntaxKind),
    /// A node that begins with a token; the position after the token, and the highest level of an operator that may follow the node.
    Node(SyntaxKind, u8, u8),
    /// `let {`
    LegacyLet,
    /// `name:`
    NameLambda,
    /// `name@`
    BoundLambda,
    /// `{` of a pattern.
    PatternLambda,
    /// A token that begins no operand.
    Stray,
}

/// Returns whether `{` begins a pattern, by the next two items.
pub fn is_pattern(second: Option<SyntaxKind>, third: Option<SyntaxKind>) -> bool
    ensures { result ≡ is_pattern second third }
{
    match second {
        Some(TOKEN_IDENT) => matches!(third, Some(TOKEN_COMMA | TOKEN_QUESTION | TOKEN_R_BRACE)),
        Some(TOKEN_ELLIPSIS) => matches!(third, Some(TOKEN_R_BRACE)),
        Some(TOKEN_R_BRACE) => { matches!(third, Some(TOKEN_COLON | TOKEN_AT)) }
        _ => false,
    }
}

const CUR_POS: &str = "__curPos";

// Whether a name is read as the current position; most differ in length already.
#[inline(always)]
fn is_cur_pos(name: &str) -> bool
    ensures { result ≡ is_cur_pos name.now }
{
    name.len() == CUR_POS.len() && name == CUR_POS
}

// What a name begins.
#[inline(always)]
fn name_start(text: &str, second: Option<SyntaxKind>) -> OperandStart
    ensures { result ≡ operand_start_for (first_kind_of_name text.now second) TOKEN_IDENT }
{
    match second {
        Some(TOKEN_COLON) => OperandStart::NameLambda,
        Some(TOKEN_AT) => OperandStart::BoundLambda,
        _ => {
            if is_cur_pos(text) {
                OperandStart::Leaf(NODE_CUR_POS)
            } else {
                OperandStart::Leaf(NODE_IDENT)
            }
        }
    }
}

// What `let` begins.
fn let_start(second: Option<SyntaxKind>) -> OperandStart
    ensures { result ≡ operand_start_for (first_kind_of_let second) TOKEN_LET }
{
    match second {
        Some(TOKEN_L_BRACE) => OperandStart::LegacyLet,
        _ => OperandStart::Node(NODE_LET_IN, LET_IN, NO_LEVEL),
    }
}

// A prefix operator of a level; looser operators may follow its operand.
#[inline(always)]
fn prefix(slot: u8, level: u8) -> OperandStart
    requires { 0 < level }
    ensures { result ≡ Node NODE_UNARY_OP slot (level - 1) }
{
    OperandStart::Node(NODE_UNARY_OP, slot, level - 1)
}

// An operand that is a node of its own, which `.` may follow.
#[inline(always)]
fn atom(kind: SyntaxKind, slot: u8) -> OperandStart
    ensures { result ≡ Node kind slot selection_level }
{
    OperandStart::Node(kind, slot, SELECTION_LEVEL)
}

// An operand that is a node of its own and extends as far as possible, so no operator follows it.
#[inline(always)]
fn open_ended(kind: SyntaxKind, slot: u8) -> OperandStart
    ensures { result ≡ Node kind slot no_level }
{
    OperandStart::Node(kind, slot, NO_LEVEL)
}

/// Returns how an operand of a level begins, by the next three items.
#[inline(always)]
pub fn operand_start_of(
    level: u8,
    first: Token<'_>,
    second: Option<SyntaxKind>,
    third: Option<SyntaxKind>,
) -> OperandStart
    ensures { result ≡ operand_start_of level first.entry.0 first.entry.1.now second third }
{
    let (kind, text) = first;
    match kind {
        TOKEN_L_PAREN => atom(NODE_PAREN, PAREN),
        TOKEN_L_BRACK => atom(NODE_LIST, LIST),
        TOKEN_REC => atom(NODE_ATTR_SET, REC_SET),
        TOKEN_STRING_START => atom(NODE_STRING, STRING),
        TOKEN_PATH_ABS => atom(NODE_PATH_ABS, PATH_ABS),
        TOKEN_PATH_REL => atom(NODE_PATH_REL, PATH_REL),
        TOKEN_PATH_HOME => atom(NODE_PATH_HOME, PATH_HOME),
        TOKEN_PATH_SEARCH => OperandStart::Leaf(NODE_PATH_SEARCH),
        TOKEN_FLOAT | TOKEN_INTEGER | TOKEN_URI => OperandStart::Leaf(NODE_LITERAL),
        TOKEN_IDENT => name_start(text, second),
        TOKEN_CUR_POS => OperandStart::Leaf(NODE_CUR_POS),
        TOKEN_L_BRACE => {
            if is_pattern(second, third) {
                OperandStart::PatternLambda
            } else {
                atom(NODE_ATTR_SET, SET)
            }
        }
        TOKEN_INVERT if level <= INVERSION_LEVEL => prefix(INVERSION, INVERSION_LEVEL),
        TOKEN_SUB if level <= NEGATION_LEVEL => prefix(NEGATION, NEGATION_LEVEL),
        TOKEN_LET if level == EXPRESSION_LEVEL => let_start(second),
        TOKEN_WITH if level == EXPRESSION_LEVEL => open_ended(NODE_WITH, WITH),
        TOKEN_ASSERT if level == EXPRESSION_LEVEL => open_ended(NODE_ASSERT, ASSERT),
        TOKEN_IF if level == EXPRESSION_LEVEL => open_ended(NODE_IF_ELSE, IF_ELSE),
        _ => OperandStart::Stray,
    }
}
