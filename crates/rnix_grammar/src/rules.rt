//! The grammar: the children of each kind of node, without trivia.

use crate::level::{
    APPLICATION_LEVEL, CONCATENATION_LEVEL, EXPRESSION_LEVEL, HAS_ATTR_LEVEL, INVERSION_LEVEL,
    NEGATION_LEVEL, SELECTION_LEVEL,
};
use Part::*;
use SyntaxKind::*;
use rnix_kinds::SyntaxKind;

/// A part of a row: one child, or any number of them.
#[derive(Clone, Copy)]
pub enum Part {
    /// A child of the kind, which the node always has.
    Child(SyntaxKind),
    /// The operand that the node wraps, which is read before the node begins: an atom, or an operand of a level.
    Atom,
    First(u8),
    /// After that operand: a token, a binary operator with its right operand, or an argument.
    Suffix(SyntaxKind),
    Binary,
    Argument,
    /// An operand of a level; the flag says whether it adds one to the nesting depth.
    Operand(u8, bool),
    /// Any number of operands of a level, or of bindings, up to a token.
    Many(u8, SyntaxKind),
    Entries(SyntaxKind),
    /// A child of the kind, a part of an attribute path, or an attribute path, which may be missing.
    Wanted(SyntaxKind),
    Attr,
    Attrpath,
    /// Any number of `.` and a part of an attribute path.
    MoreAttrs,
    /// Any number of inherited names; of pieces of a string; of pieces of a path, each without white space before it.
    Names,
    Pieces,
    PathPieces,
    /// Formals up to `}`: after `{`, after a comma, after a formal.
    Formals,
    FormalsAfterComma,
    Comma,
    /// An optional child of the kind.
    Optional(SyntaxKind),
    /// The end of the row, or a child of the kind and the rest of the row.
    EndOr(SyntaxKind),
    /// The end of a pattern with a name before its braces: a second name after them is an error.
    BoundAlready,
    /// The end of the text.
    TextEnd,
}

/// Any expression.
pub const EXPRESSION: Part = Operand(EXPRESSION_LEVEL, true);

// The rows of each kind of node; no two of one kind begin with the same child.
macro_rules! grammar {
    ($form:ident) => {
        $form! {
            NODE_ROOT = EXPRESSION, TextEnd;
            NODE_LITERAL = Child(TOKEN_FLOAT);
            NODE_LITERAL = Child(TOKEN_INTEGER);
            NODE_LITERAL = Child(TOKEN_URI);
            NODE_IDENT = Child(TOKEN_IDENT);
            NODE_CUR_POS = Child(TOKEN_CUR_POS);
            NODE_PATH_SEARCH = Child(TOKEN_PATH_SEARCH);
            NODE_PATH_ABS = Child(TOKEN_PATH_ABS), EndOr(NODE_INTERPOL), PathPieces;
            NODE_PATH_REL = Child(TOKEN_PATH_REL), EndOr(NODE_INTERPOL), PathPieces;
            NODE_PATH_HOME = Child(TOKEN_PATH_HOME), EndOr(NODE_INTERPOL), PathPieces;
            NODE_STRING = Child(TOKEN_STRING_START), Pieces, Wanted(TOKEN_STRING_END);
            NODE_INTERPOL = Child(TOKEN_INTERPOL_START), EXPRESSION, Wanted(TOKEN_INTERPOL_END);
            NODE_DYNAMIC = Child(TOKEN_INTERPOL_START), Many(EXPRESSION_LEVEL, TOKEN_INTERPOL_END);
            NODE_PAREN = Child(TOKEN_L_PAREN), EXPRESSION, Wanted(TOKEN_R_PAREN);
            NODE_LIST = Child(TOKEN_L_BRACK), Many(SELECTION_LEVEL, TOKEN_R_BRACK);
            NODE_ATTR_SET = Child(TOKEN_L_BRACE), Entries(TOKEN_R_BRACE);
            NODE_ATTR_SET = Child(TOKEN_REC), Wanted(TOKEN_L_BRACE), Entries(TOKEN_R_BRACE);
            NODE_LEGACY_LET = Child(TOKEN_LET), Child(TOKEN_L_BRACE), Entries(TOKEN_R_BRACE);
            NODE_LET_IN = Child(TOKEN_LET), Entries(TOKEN_IN), EXPRESSION;
            NODE_INHERIT = Child(TOKEN_INHERIT), Optional(NODE_INHERIT_FROM), Names, Wanted(TOKEN_SEMICOLON);
            NODE_INHERIT_FROM = Child(TOKEN_L_PAREN), EXPRESSION, Wanted(TOKEN_R_PAREN);
            NODE_ATTRPATH_VALUE = Attrpath, Wanted(TOKEN_ASSIGN), EXPRESSION, Wanted(TOKEN_SEMICOLON);
            NODE_ATTRPATH = Attr, MoreAttrs;
            NODE_WITH = Child(TOKEN_WITH), EXPRESSION, Wanted(TOKEN_SEMICOLON), EXPRESSION;
            NODE_ASSERT = Child(TOKEN_ASSERT), EXPRESSION, Wanted(TOKEN_SEMICOLON), EXPRESSION;
            NODE_IF_ELSE = Child(TOKEN_IF), EXPRESSION, Wanted(TOKEN_THEN), EXPRESSION, Wanted(TOKEN_ELSE), EXPRESSION;
            NODE_LAMBDA = Child(NODE_IDENT_PARAM), Wanted(TOKEN_COLON), EXPRESSION;
            NODE_LAMBDA = Child(NODE_PATTERN), Wanted(TOKEN_COLON), EXPRESSION;
            NODE_IDENT_PARAM = Child(NODE_IDENT);
            NODE_PATTERN = Child(TOKEN_L_BRACE), Formals, EndOr(NODE_PAT_BIND);
            NODE_PATTERN = Child(NODE_PAT_BIND), Wanted(TOKEN_L_BRACE), Formals, BoundAlready;
            NODE_PAT_BIND = Child(NODE_IDENT), Child(TOKEN_AT);
            NODE_PAT_BIND = Child(TOKEN_AT), Wanted(NODE_IDENT);
            NODE_PAT_ENTRY = Child(NODE_IDENT), EndOr(TOKEN_QUESTION), EXPRESSION;
            NODE_SELECT = Atom, Suffix(TOKEN_DOT), Attrpath, EndOr(TOKEN_OR), Operand(SELECTION_LEVEL, false);
            NODE_HAS_ATTR = First(HAS_ATTR_LEVEL), Suffix(TOKEN_QUESTION), Attrpath;
            NODE_APPLY = First(APPLICATION_LEVEL), Argument;
            NODE_UNARY_OP = Child(TOKEN_SUB), Operand(NEGATION_LEVEL, true);
            NODE_UNARY_OP = Child(TOKEN_INVERT), Operand(INVERSION_LEVEL, true);
            NODE_BIN_OP = First(CONCATENATION_LEVEL), Binary;
        }
    };
}

pub(crate) use grammar;

// Kinds of nodes, and the parts of each.
macro_rules! rows {
    ($($kind:ident = $($part:expr),+;)+) => { [$(($kind, &[$($part),+])),+] };
}

/// The rows of each kind of node.
pub const ROWS: [(SyntaxKind, &[Part]); 40] = grammar!(rows);

/// The row of an error node over a second name of a pattern.
pub const SECOND_NAME: [Part; 2] = [Child(TOKEN_AT), Wanted(NODE_IDENT)];
