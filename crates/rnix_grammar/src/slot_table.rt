//! Positions: what is left of the row of an open node, as an index into one table.

ghost use Rattle.std.specs.Prelude.{◌≡◌, ◌<◌, IfSome};
ghost use Rattle.rnix_grammar.specs.Slots.{slot_at};

use crate::level::{
    APPLICATION_LEVEL, CONCATENATION_LEVEL, EXPRESSION_LEVEL, HAS_ATTR_LEVEL, INVERSION_LEVEL,
    NEGATION_LEVEL, SELECTION_LEVEL,
};
use crate::rules::{EXPRESSION, Part, grammar};
use Part::*;
use SyntaxKind::*;
use rnix_kinds::SyntaxKind;

/// What is at an index of the table: a part of a row, or the end of a row of the kind.
#[derive(Clone, Copy)]
pub enum Slot {
    Next(Part),
    End(SyntaxKind),
}

// The rows one after another, each with its end.
macro_rules! slots {
    ($($kind:ident = $($part:expr),+;)+) => {
        [
            $($(Slot::Next($part),)+ Slot::End($kind),)+
            // Inherited names after a run of other items.
            Slot::Next(Attr),
            Slot::Next(Names),
            Slot::Next(Wanted(TOKEN_SEMICOLON)),
            Slot::End(NODE_INHERIT),
            // A pattern after a comma, after a formal, and before its closing brace.
            Slot::Next(FormalsAfterComma),
            Slot::Next(EndOr(NODE_PAT_BIND)),
            Slot::End(NODE_PATTERN),
            Slot::Next(Comma),
            Slot::Next(EndOr(NODE_PAT_BIND)),
            Slot::End(NODE_PATTERN),
            Slot::Next(Wanted(TOKEN_R_BRACE)),
            Slot::Next(EndOr(NODE_PAT_BIND)),
            Slot::End(NODE_PATTERN),
            // The same if a name precedes the pattern.
            Slot::Next(FormalsAfterComma),
            Slot::Next(BoundAlready),
            Slot::End(NODE_PATTERN),
            Slot::Next(Comma),
            Slot::Next(BoundAlready),
            Slot::End(NODE_PATTERN),
            Slot::Next(Wanted(TOKEN_R_BRACE)),
            Slot::Next(BoundAlready),
            Slot::End(NODE_PATTERN),
            // A second name of a pattern.
            Slot::Next(Wanted(NODE_IDENT)),
            Slot::End(NODE_ERROR),
        ]
    };
}

/// The rest of a row is the part at its index, followed by the rest at the next index.
pub static SLOTS: [Slot; 169] = grammar!(slots);

// The indices where rows begin, or continue after the children that a node opens with, each as an offset from another index.
pub const ROOT: u8 = 0;

pub const PATH_ABS: u8 = ROOT + 16;

pub const PATH_REL: u8 = PATH_ABS + 4;

pub const PATH_HOME: u8 = PATH_REL + 4;

pub const STRING: u8 = PATH_HOME + 4;

pub const STRING_CLOSED: u8 = STRING + 2;

pub const INTERPOL: u8 = STRING + 4;

pub const DYNAMIC: u8 = INTERPOL + 4;

pub const PAREN: u8 = DYNAMIC + 3;

pub const LIST: u8 = PAREN + 4;

pub const SET: u8 = LIST + 3;

pub const REC_SET: u8 = SET + 3;

pub const LEGACY_LET: u8 = REC_SET + 5;

pub const LET_IN: u8 = LEGACY_LET + 3;

pub const INHERIT: u8 = LET_IN + 4;

pub const INHERIT_END: u8 = INHERIT + 2;

pub const INHERIT_CLOSED: u8 = INHERIT + 3;

pub const INHERIT_FROM: u8 = INHERIT + 5;

pub const ATTRPATH_VALUE: u8 = INHERIT_FROM + 3;

pub const ATTRPATH: u8 = ATTRPATH_VALUE + 5;

pub const WITH: u8 = ATTRPATH + 4;

pub const ASSERT: u8 = WITH + 5;

pub const IF_ELSE: u8 = ASSERT + 5;

pub const LAMBDA: u8 = IF_ELSE + 7;

pub const PATTERN: u8 = LAMBDA + 10;

pub const BOUND_PATTERN: u8 = PATTERN + 4;

pub const PAT_BIND: u8 = BOUND_PATTERN + 8;

pub const PAT_ENTRY: u8 = PAT_BIND + 3;

pub const SELECT: u8 = PAT_ENTRY + 5;

pub const HAS_ATTR: u8 = SELECT + 6;

pub const APPLIED: u8 = HAS_ATTR + 4;

pub const NEGATION: u8 = APPLIED + 2;

pub const INVERSION: u8 = NEGATION + 3;

pub const BIN_OP_END: u8 = INVERSION + 4;

pub const INHERITED_NAME: u8 = BIN_OP_END + 1;

pub const AFTER_COMMA: u8 = INHERITED_NAME + 4;

pub const AFTER_FORMAL: u8 = AFTER_COMMA + 3;

pub const PATTERN_CLOSE: u8 = AFTER_FORMAL + 3;

pub const BOUND_AFTER_COMMA: u8 = PATTERN_CLOSE + 3;

pub const BOUND_AFTER_FORMAL: u8 = BOUND_AFTER_COMMA + 3;

pub const BOUND_PATTERN_CLOSE: u8 = BOUND_AFTER_FORMAL + 3;

pub const SECOND_BIND: u8 = BOUND_PATTERN_CLOSE + 3;

/// Returns what is at an index of the table.
#[inline(always)]
pub(crate) fn slot_at(index: u8) -> Option<Slot>
    ensures slot { result ≡ slot_at index }
    ensures within { IfSome result (λ slot. index < 255) }
{
    SLOTS.get(usize::from(index)).copied()
}
