//! What the reader does at each position, by the next item.

ghost use Rattle.std.specs.Prelude.{◌≡◌, Bool, Option, true};
ghost use Rattle.rnix_kinds.specs.declared.kinds.SyntaxKind.{SyntaxKind};
ghost use Rattle.rnix_grammar.specs.declared.action.Action.TheVariants.{Close};
ghost use Rattle.rnix_grammar.specs.Actions.{close_action, continue_action, may_continue, action_at_slot};

use crate::expected_set::ExpectedSet;
use crate::level::{
    APPLICATION_LEVEL, HAS_ATTR_LEVEL, NO_LEVEL, binding_power, max_bp_of, right_of,
};
use crate::part_action::part_action;
use crate::position::Position;
use crate::slot_table::{HAS_ATTR, SELECT, Slot, slot_at};
use rnix_kinds::SyntaxKind;

/// One step of the reader. The last position of a variant is where the row continues afterwards.
#[derive(Clone, Copy)]
pub enum Action {
    /// The node is complete.
    Close,
    /// An entry of a pattern is complete; it may repeat the name of another entry.
    CloseEntry,
    /// A pattern is complete.
    ClosePattern,
    /// A second name of a pattern is complete.
    CloseDoubleBind,
    /// The root is complete.
    Finish,
    /// The operand is complete.
    EndOperand,
    /// Items are left after the root's expression.
    Extra,
    /// The next token is a leaf.
    Take(u8),
    /// The text ends where more is expected.
    Miss(u8),
    /// The text ends where certain kinds are wanted.
    MissWanted(ExpectedSet, u8),
    /// The tokens before the next wanted one become an error node.
    Run(ExpectedSet, u8),
    /// The next token becomes a node of its own.
    Leaf(SyntaxKind, u8),
    /// The next token begins a node, which continues at the first position.
    Open(SyntaxKind, u8, u8),
    /// A node begins before any of its tokens is read.
    OpenEmpty(SyntaxKind, u8, u8),
    /// A name begins an entry of a pattern.
    Entry(u8),
    /// The next token begins a second name of a pattern.
    DoubleBind(u8),
    /// Starts an operand of a level; the flag says whether it adds one to the nesting depth.
    Read(u8, bool, u8),
    /// The operand and the next token begin a node, which continues at the position; operators up to the level may follow the node.
    Wrap(SyntaxKind, Position, u8),
    /// The operand and the argument after it become a node.
    Apply,
    /// The operand and the `or` after it become a node.
    ApplyOr,
}

// The end of a row of the kind.
fn close_action(kind: SyntaxKind) -> Action
    ensures { result ≡ close_action kind }
{
    match kind {
        SyntaxKind::NODE_PAT_ENTRY => Action::CloseEntry,
        SyntaxKind::NODE_PATTERN => Action::ClosePattern,
        SyntaxKind::NODE_ERROR => Action::CloseDoubleBind,
        _ => Action::Close,
    }
}

/// Returns what the reader does with a token that continues an operand.
#[inline(always)]
pub fn continue_action(kind: SyntaxKind) -> Action
    ensures { result ≡ continue_action kind }
{
    match kind {
        SyntaxKind::TOKEN_DOT => Action::Wrap(
            SyntaxKind::NODE_SELECT,
            Position::InRow(SELECT),
            APPLICATION_LEVEL,
        ),
        SyntaxKind::TOKEN_OR => Action::ApplyOr,
        SyntaxKind::TOKEN_QUESTION => {
            Action::Wrap(
                SyntaxKind::NODE_HAS_ATTR,
                Position::InRow(HAS_ATTR),
                HAS_ATTR_LEVEL,
            )
        }
        _ => {
            if kind.is_fn_arg() {
                Action::Apply
            } else {
                Action::Wrap(
                    SyntaxKind::NODE_BIN_OP,
                    Position::Right(right_of(kind)),
                    max_bp_of(kind),
                )
            }
        }
    }
}

/// Returns whether a token continues an operand after which operators of the levels from `min_bp` to `max_bp` may follow.
#[inline(always)]
pub fn may_continue(min_bp: u8, max_bp: u8, kind: SyntaxKind) -> bool
    ensures { result ≡ may_continue min_bp max_bp kind }
{
    let level = binding_power(kind);
    level != NO_LEVEL && min_bp <= level && level <= max_bp
}

/// Returns what the reader does at a position of a row, by the next item and by whether it touches the item before.
#[inline(always)]
pub fn action_at_slot(index: u8, next: Option<SyntaxKind>, touches: bool) -> Action
    ensures { result ≡ action_at_slot index next touches }
{
    match slot_at(index) {
        Some(Slot::Next(part)) => part_action(part, index, next, touches),
        Some(Slot::End(kind)) => close_action(kind),
        None => Action::Close,
    }
}

// Whether all that is left to do at the end of a row of the kind is to end the node.
#[inline(always)]
fn is_plain_end(kind: SyntaxKind) -> bool
    ensures { result ≡ true → close_action kind ≡ Close }
{
    !matches!(
        kind,
        SyntaxKind::NODE_PAT_ENTRY | SyntaxKind::NODE_PATTERN | SyntaxKind::NODE_ERROR
    )
}

/// Returns whether a row is complete at the position, and all that is left to do is to end its node.
#[inline(always)]
pub fn is_past(index: u8) -> bool
    ensures { (next : Option SyntaxKind) (touches : Bool) → result ≡ true → action_at_slot index next touches ≡ Close }
{
    match slot_at(index) {
        Some(Slot::End(kind)) => is_plain_end(kind),
        _ => false,
    }
}
