//! The levels of precedence, as numbers: the binary operators have 1 to 8 and 10 to 12, from the lowest precedence to the highest.

ghost use Rattle.std.specs.Prelude.{◌≡◌, ◌≤◌, IfSome};
ghost use Rattle.rnix_grammar.specs.Levels.{concatenation_level, operator, plain_binding_power, binding_power, right_of, max_bp_of};

use rnix_kinds::SyntaxKind;

/// Any expression is allowed at this level.
pub const EXPRESSION_LEVEL: u8 = 0;

/// The level of no operator: tokens that end an expression bind with it, and it is the upper bound after an expression that extends as far as possible.
pub const NO_LEVEL: u8 = 0;

/// The prefix `!`.
pub const INVERSION_LEVEL: u8 = 9;

/// `++`, the tightest of the binary operators.
pub const CONCATENATION_LEVEL: u8 = 12;

/// `?`
pub const HAS_ATTR_LEVEL: u8 = 13;

/// The prefix `-`.
pub const NEGATION_LEVEL: u8 = 14;

/// A function and its argument.
pub const APPLICATION_LEVEL: u8 = 15;

/// A selection with `.`, and atoms.
pub const SELECTION_LEVEL: u8 = 16;

/// How operators of one level group. With `Neither`, one is an operand of another only in parentheses.
#[derive(Clone, Copy)]
pub enum Associativity {
    Left,
    Right,
    Neither,
}

/// Returns the level of a binary operator, and how it groups.
#[inline(always)]
pub fn operator(kind: SyntaxKind) -> Option<(u8, Associativity)>
    ensures table { result ≡ operator kind }
    ensures within { IfSome result (λ found. (1 ≤ found.0) × (found.0 ≤ concatenation_level)) }
{
    match kind {
        SyntaxKind::TOKEN_PIPE_LEFT => Some((1, Associativity::Right)),
        SyntaxKind::TOKEN_PIPE_RIGHT => Some((2, Associativity::Left)),
        SyntaxKind::TOKEN_IMPLICATION => Some((3, Associativity::Right)),
        SyntaxKind::TOKEN_OR_OR => Some((4, Associativity::Left)),
        SyntaxKind::TOKEN_AND_AND => Some((5, Associativity::Left)),
        SyntaxKind::TOKEN_EQUAL | SyntaxKind::TOKEN_NOT_EQUAL => Some((6, Associativity::Neither)),
        SyntaxKind::TOKEN_LESS
        | SyntaxKind::TOKEN_LESS_OR_EQ
        | SyntaxKind::TOKEN_MORE
        | SyntaxKind::TOKEN_MORE_OR_EQ => Some((7, Associativity::Neither)),
        SyntaxKind::TOKEN_UPDATE => Some((8, Associativity::Right)),
        SyntaxKind::TOKEN_ADD | SyntaxKind::TOKEN_SUB => Some((10, Associativity::Left)),
        SyntaxKind::TOKEN_MUL | SyntaxKind::TOKEN_DIV => Some((11, Associativity::Left)),
        SyntaxKind::TOKEN_CONCAT => Some((CONCATENATION_LEVEL, Associativity::Right)),
        _ => None,
    }
}

// How tightly a token other than a binary operator binds the operand before it.
#[inline(always)]
fn plain_binding_power(kind: SyntaxKind) -> u8
    ensures { result ≡ plain_binding_power kind }
{
    match kind {
        SyntaxKind::TOKEN_QUESTION => HAS_ATTR_LEVEL,
        SyntaxKind::TOKEN_DOT | SyntaxKind::TOKEN_OR => SELECTION_LEVEL,
        _ => {
            if kind.is_fn_arg() {
                APPLICATION_LEVEL
            } else {
                NO_LEVEL
            }
        }
    }
}

/// Returns how tightly a token binds the operand before it: its level, or `NO_LEVEL` if it ends an expression.
#[inline(always)]
pub fn binding_power(kind: SyntaxKind) -> u8
    ensures { result ≡ binding_power kind }
{
    match operator(kind) {
        Some((level, _)) => level,
        None => plain_binding_power(kind),
    }
}

/// Returns the lowest level of the right operand of an operator.
#[inline(never)]
pub fn right_of(kind: SyntaxKind) -> u8
    ensures { result ≡ right_of kind }
{
    match operator(kind) {
        Some((level, Associativity::Right)) => level,
        Some((level, _)) => level + 1,
        None => SELECTION_LEVEL,
    }
}

/// Returns the highest level of an operator that may follow the node of an operator.
#[inline(never)]
pub fn max_bp_of(kind: SyntaxKind) -> u8
    ensures { result ≡ max_bp_of kind }
{
    match operator(kind) {
        Some((level, Associativity::Left)) => level,
        Some((level, _)) => level - 1,
        None => APPLICATION_LEVEL,
    }
}
