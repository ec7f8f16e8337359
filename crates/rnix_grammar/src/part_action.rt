//! What the reader does where a part of a row comes next, by the next item.

ghost use Rattle.std.specs.Prelude.{◌≡◌, ◌<◌, if◌then◌else◌};
ghost use Rattle.rnix_grammar.specs.Actions.{expected_set_of, token_action, name_action, wanted_action, many_action, entries_action, pieces_action, path_pieces_action, attr_action, names_action, source_action, formals_action, first_formals_action, comma_action, end_or_action, bound_action, more_attrs_action, end_action, child_action, part_action};

use crate::action::Action;
use crate::expected_set::ExpectedSet;
use crate::rules::Part;
use crate::slot_table::{
    AFTER_COMMA, AFTER_FORMAL, ATTRPATH, ATTRPATH_VALUE, BOUND_AFTER_COMMA, BOUND_AFTER_FORMAL,
    BOUND_PATTERN_CLOSE, DYNAMIC, INHERIT, INHERIT_CLOSED, INHERIT_END, INHERIT_FROM,
    INHERITED_NAME, INTERPOL, PAT_BIND, PATTERN, PATTERN_CLOSE, STRING, STRING_CLOSED,
};
use rnix_kinds::SyntaxKind;

// What an error lists as wanted where a child of the kind is missing.
fn expected_set_of(kind: SyntaxKind) -> ExpectedSet
    ensures { result ≡ expected_set_of kind }
{
    match kind {
        SyntaxKind::TOKEN_R_PAREN => ExpectedSet::RParen,
        SyntaxKind::TOKEN_L_BRACE => ExpectedSet::LBrace,
        SyntaxKind::TOKEN_R_BRACE => ExpectedSet::RBrace,
        SyntaxKind::TOKEN_SEMICOLON => ExpectedSet::Semicolon,
        SyntaxKind::TOKEN_ASSIGN => ExpectedSet::Assign,
        SyntaxKind::TOKEN_COLON => ExpectedSet::Colon,
        SyntaxKind::TOKEN_THEN => ExpectedSet::Then,
        SyntaxKind::TOKEN_ELSE => ExpectedSet::Else,
        SyntaxKind::TOKEN_INTERPOL_END => ExpectedSet::InterpolEnd,
        SyntaxKind::TOKEN_STRING_END => ExpectedSet::StringEnd,
        _ => ExpectedSet::Ident,
    }
}

// A token that is wanted.
#[inline(always)]
fn token_action(wanted: SyntaxKind, index: u8, after: u8, kind: SyntaxKind) -> Action
    ensures { result ≡ token_action wanted index after kind }
{
    if wanted == kind {
        Action::Take(after)
    } else {
        Action::Run(expected_set_of(wanted), index)
    }
}

// A name that is wanted.
fn name_action(index: u8, after: u8, kind: SyntaxKind) -> Action
    ensures { result ≡ name_action index after kind }
{
    match kind {
        SyntaxKind::TOKEN_IDENT => Action::Leaf(SyntaxKind::NODE_IDENT, after),
        _ => Action::Run(ExpectedSet::Ident, index),
    }
}

// A child that is wanted.
#[inline(always)]
fn wanted_action(wanted: SyntaxKind, index: u8, after: u8, next: Option<SyntaxKind>) -> Action
    ensures { result ≡ wanted_action wanted index after next }
{
    match next {
        None => Action::MissWanted(expected_set_of(wanted), after),
        Some(kind) => {
            if wanted == SyntaxKind::NODE_IDENT {
                name_action(index, after, kind)
            } else {
                token_action(wanted, index, after, kind)
            }
        }
    }
}

#[inline(always)]
fn many_action(
    level: u8,
    closer: SyntaxKind,
    index: u8,
    after: u8,
    next: Option<SyntaxKind>,
) -> Action
    ensures { result ≡ many_action level closer index after next }
{
    match next {
        None => Action::Miss(after),
        Some(kind) => {
            if closer == kind {
                Action::Take(after)
            } else {
                Action::Read(level, true, index)
            }
        }
    }
}

#[inline(always)]
fn entries_action(closer: SyntaxKind, index: u8, after: u8, next: Option<SyntaxKind>) -> Action
    ensures { result ≡ entries_action closer index after next }
{
    match next {
        None => Action::Miss(after),
        Some(SyntaxKind::TOKEN_INHERIT) => Action::Open(SyntaxKind::NODE_INHERIT, INHERIT, index),
        Some(kind) => {
            if closer == kind {
                Action::Take(after)
            } else {
                Action::OpenEmpty(SyntaxKind::NODE_ATTRPATH_VALUE, ATTRPATH_VALUE, index)
            }
        }
    }
}

fn pieces_action(index: u8, after: u8, next: Option<SyntaxKind>) -> Action
    ensures { result ≡ pieces_action index after next }
{
    match next {
        None => Action::MissWanted(ExpectedSet::Piece, after),
        Some(SyntaxKind::TOKEN_STRING_END) => Action::Take(STRING_CLOSED),
        Some(SyntaxKind::TOKEN_STRING_CONTENT) => Action::Take(index),
        Some(SyntaxKind::TOKEN_INTERPOL_START) => {
            Action::Open(SyntaxKind::NODE_INTERPOL, INTERPOL, index)
        }
        Some(_) => Action::Run(ExpectedSet::Piece, index),
    }
}

fn path_pieces_action(index: u8, touches: bool, next: Option<SyntaxKind>) -> Action
    ensures { result ≡ path_pieces_action index touches next }
{
    if !touches {
        return Action::Close;
    }
    match next {
        Some(
            SyntaxKind::TOKEN_PATH_ABS | SyntaxKind::TOKEN_PATH_REL | SyntaxKind::TOKEN_PATH_HOME,
        ) => Action::Take(index),
        Some(SyntaxKind::TOKEN_INTERPOL_START) => {
            Action::Open(SyntaxKind::NODE_INTERPOL, INTERPOL, index)
        }
        _ => Action::Close,
    }
}

// A name, a string or an interpolation; after a run of unwanted tokens, at another position.
#[inline(always)]
fn attr_action(again: u8, after: u8, next: Option<SyntaxKind>) -> Action
    ensures { result ≡ attr_action again after next }
{
    match next {
        None => Action::MissWanted(ExpectedSet::Attr, after),
        Some(SyntaxKind::TOKEN_INTERPOL_START) => {
            Action::Open(SyntaxKind::NODE_DYNAMIC, DYNAMIC, after)
        }
        Some(SyntaxKind::TOKEN_STRING_START) => {
            Action::Open(SyntaxKind::NODE_STRING, STRING, after)
        }
        Some(SyntaxKind::TOKEN_IDENT | SyntaxKind::TOKEN_OR | SyntaxKind::TOKEN_CUR_POS) => {
            Action::Leaf(SyntaxKind::NODE_IDENT, after)
        }
        Some(_) => Action::Run(ExpectedSet::Attr, again),
    }
}

fn names_action(index: u8, after: u8, next: Option<SyntaxKind>) -> Action
    ensures { result ≡ names_action index after next }
{
    match next {
        None => Action::Miss(after),
        Some(kind) => {
            if kind == SyntaxKind::TOKEN_SEMICOLON {
                Action::Take(INHERIT_CLOSED)
            } else {
                attr_action(INHERITED_NAME, index, next)
            }
        }
    }
}

fn source_action(after: u8, next: Option<SyntaxKind>) -> Action
    ensures { result ≡ source_action after next }
{
    match next {
        None => names_action(after, INHERIT_END, next),
        Some(kind) => {
            if kind == SyntaxKind::TOKEN_L_PAREN {
                Action::Open(SyntaxKind::NODE_INHERIT_FROM, INHERIT_FROM, after)
            } else {
                names_action(after, INHERIT_END, next)
            }
        }
    }
}

// One of two positions in a pattern, by whether a name precedes the pattern.
fn of_pattern(bound: bool, after_bind: u8, alone: u8) -> u8
    ensures { result ≡ (if bound then after_bind else alone) }
{
    if bound { after_bind } else { alone }
}

fn formals_action(bound: bool, after: u8, next: Option<SyntaxKind>) -> Action
    ensures { result ≡ formals_action bound after next }
{
    match next {
        None => Action::MissWanted(ExpectedSet::Entry, after),
        Some(SyntaxKind::TOKEN_R_BRACE) => Action::Take(after),
        Some(SyntaxKind::TOKEN_ELLIPSIS) => {
            Action::Take(of_pattern(bound, BOUND_PATTERN_CLOSE, PATTERN_CLOSE))
        }
        Some(SyntaxKind::TOKEN_IDENT) => {
            Action::Entry(of_pattern(bound, BOUND_AFTER_FORMAL, AFTER_FORMAL))
        }
        Some(_) => Action::Run(
            ExpectedSet::Entry,
            of_pattern(bound, BOUND_AFTER_COMMA, AFTER_COMMA),
        ),
    }
}

fn first_formals_action(bound: bool, after: u8, next: Option<SyntaxKind>) -> Action
    ensures { result ≡ first_formals_action bound after next }
{
    match next {
        None => Action::Miss(after),
        _ => formals_action(bound, after, next),
    }
}

// `,`, or the end of the braces.
fn comma_action(bound: bool, after: u8, next: Option<SyntaxKind>) -> Action
    ensures { result ≡ comma_action bound after next }
{
    let again = of_pattern(bound, BOUND_PATTERN_CLOSE, PATTERN_CLOSE);
    match next {
        None => wanted_action(SyntaxKind::TOKEN_R_BRACE, again, after, next),
        Some(kind) => {
            if kind == SyntaxKind::TOKEN_COMMA {
                Action::Take(of_pattern(bound, BOUND_AFTER_COMMA, AFTER_COMMA))
            } else {
                wanted_action(SyntaxKind::TOKEN_R_BRACE, again, after, next)
            }
        }
    }
}

// The end of the row, or a child of the kind.
fn end_or_action(kind: SyntaxKind, after: u8, next: Option<SyntaxKind>) -> Action
    ensures { result ≡ end_or_action kind after next }
{
    match (kind, next) {
        (SyntaxKind::TOKEN_OR, Some(SyntaxKind::TOKEN_OR)) => Action::Take(after),
        (SyntaxKind::TOKEN_QUESTION, Some(SyntaxKind::TOKEN_QUESTION)) => Action::Take(after),
        (SyntaxKind::TOKEN_QUESTION, _) => Action::CloseEntry,
        (SyntaxKind::NODE_INTERPOL, Some(SyntaxKind::TOKEN_INTERPOL_START)) => {
            Action::Open(SyntaxKind::NODE_INTERPOL, INTERPOL, after)
        }
        (SyntaxKind::NODE_PAT_BIND, Some(SyntaxKind::TOKEN_AT)) => {
            Action::Open(SyntaxKind::NODE_PAT_BIND, PAT_BIND, after)
        }
        (SyntaxKind::NODE_PAT_BIND, _) => Action::ClosePattern,
        _ => Action::Close,
    }
}

// The end of a pattern that has a name before it.
fn bound_action(after: u8, next: Option<SyntaxKind>) -> Action
    ensures { result ≡ bound_action after next }
{
    match next {
        Some(SyntaxKind::TOKEN_AT) => Action::DoubleBind(after),
        _ => Action::ClosePattern,
    }
}

fn more_attrs_action(next: Option<SyntaxKind>) -> Action
    ensures { result ≡ more_attrs_action next }
{
    match next {
        Some(SyntaxKind::TOKEN_DOT) => Action::Take(ATTRPATH),
        _ => Action::Close,
    }
}

fn end_action(next: Option<SyntaxKind>) -> Action
    ensures { result ≡ end_action next }
{
    match next {
        None => Action::Finish,
        Some(_) => Action::Extra,
    }
}

// A child that every such node has; no open node is at a position before one.
fn child_action(after: u8, next: Option<SyntaxKind>) -> Action
    ensures { result ≡ child_action after next }
{
    match next {
        None => Action::Miss(after),
        Some(_) => Action::Take(after),
    }
}

// What is done where a part of a row comes next.
#[inline(always)]
pub(crate) fn part_action(part: Part, index: u8, next: Option<SyntaxKind>, touches: bool) -> Action
    requires { index < 255 }
    ensures { result ≡ part_action part index next touches }
{
    let after = index + 1;
    match part {
        Part::Operand(level, counted) => Action::Read(level, counted, after),
        Part::Wanted(kind) => wanted_action(kind, index, after, next),
        Part::Many(level, closer) => many_action(level, closer, index, after, next),
        Part::Entries(closer) => entries_action(closer, index, after, next),
        Part::Attr => attr_action(index, after, next),
        Part::Attrpath => Action::OpenEmpty(SyntaxKind::NODE_ATTRPATH, ATTRPATH, after),
        Part::MoreAttrs => more_attrs_action(next),
        Part::Names => names_action(index, after, next),
        Part::Optional(_) => source_action(after, next),
        Part::Pieces => pieces_action(index, after, next),
        Part::PathPieces => path_pieces_action(index, touches, next),
        Part::Formals => first_formals_action(index != PATTERN, after, next),
        Part::FormalsAfterComma => formals_action(index != AFTER_COMMA, after, next),
        Part::Comma => comma_action(index != AFTER_FORMAL, after, next),
        Part::EndOr(kind) => end_or_action(kind, after, next),
        Part::BoundAlready => bound_action(after, next),
        Part::TextEnd => end_action(next),
        _ => child_action(after, next),
    }
}
