//! The parts of nodes that were built by hand: without children, and with tokens that no text puts there.

use crate::describe::describe_node;
use crate::hand::node_over;
use rnix::{SyntaxKind, SyntaxNode};
use std::alloc::{AllocError, Global};
use std::process::Abort;
use std::test::Fail;

// What the accessors of expressions without children return.
const EXPRESSIONS: [(SyntaxKind, &str); 24] = [
    (SyntaxKind::NODE_APPLY, "lambda=-; argument=-;"),
    (
        SyntaxKind::NODE_ASSERT,
        "assert_token=-; condition=-; body=-;",
    ),
    (SyntaxKind::NODE_ERROR, "syntax=;"),
    (
        SyntaxKind::NODE_IF_ELSE,
        "if_token=-; condition=-; then_token=-; body=-; else_token=-; else_body=-;",
    ),
    (
        SyntaxKind::NODE_SELECT,
        "expr=-; dot_token=-; attrpath=-; or_token=-; default_expr=-;",
    ),
    (SyntaxKind::NODE_STRING, "parts=-;"),
    (SyntaxKind::NODE_PATH_ABS, "parts=-;"),
    (SyntaxKind::NODE_PATH_REL, "parts=-;"),
    (SyntaxKind::NODE_PATH_HOME, "parts=-;"),
    (SyntaxKind::NODE_PATH_SEARCH, "content=-;"),
    (SyntaxKind::NODE_LITERAL, "kind=-;"),
    (SyntaxKind::NODE_LAMBDA, "param=-; token_colon=-; body=-;"),
    (
        SyntaxKind::NODE_LEGACY_LET,
        "let_token=-; curly_open_token=-; entries=-; attrpath_values=-; inherits=-; curly_close_token=-;",
    ),
    (
        SyntaxKind::NODE_LET_IN,
        "let_token=-; entries=-; attrpath_values=-; inherits=-; in_token=-; body=-;",
    ),
    (
        SyntaxKind::NODE_LIST,
        "l_brack_token=-; items=-; r_brack_token=-;",
    ),
    (SyntaxKind::NODE_BIN_OP, "lhs=-; operator=-; rhs=-;"),
    (
        SyntaxKind::NODE_PAREN,
        "l_paren_token=-; expr=-; r_paren_token=-;",
    ),
    (SyntaxKind::NODE_ROOT, "expr=-;"),
    (
        SyntaxKind::NODE_ATTR_SET,
        "rec_token=-; l_curly_token=-; entries=-; attrpath_values=-; inherits=-; r_curly_token=-;",
    ),
    (SyntaxKind::NODE_UNARY_OP, "operator=-; expr=-;"),
    (SyntaxKind::NODE_IDENT, "ident_token=-;"),
    (
        SyntaxKind::NODE_WITH,
        "with_token=-; namespace=-; semicolon_token=-; body=-;",
    ),
    (
        SyntaxKind::NODE_HAS_ATTR,
        "expr=-; question_token=-; attrpath=-;",
    ),
    (SyntaxKind::NODE_CUR_POS, "cur_pos_token=-;"),
];

// What the accessors of the other nodes return, if they have no children.
const OTHERS: [(SyntaxKind, &str); 10] = [
    (SyntaxKind::NODE_ATTRPATH, "attrs=-;"),
    (
        SyntaxKind::NODE_ATTRPATH_VALUE,
        "attrpath=-; assign_token=-; value=-;",
    ),
    (
        SyntaxKind::NODE_DYNAMIC,
        "interpol_start_token=-; expr=-; interpol_end_token=-;",
    ),
    (SyntaxKind::NODE_IDENT_PARAM, "ident=-;"),
    (
        SyntaxKind::NODE_INHERIT,
        "inherit_token=-; from=-; attrs=-;",
    ),
    (
        SyntaxKind::NODE_INHERIT_FROM,
        "l_paren_token=-; expr=-; r_paren_token=-;",
    ),
    (SyntaxKind::NODE_INTERPOL, "expr=-;"),
    (SyntaxKind::NODE_PAT_BIND, "ident=-;"),
    (
        SyntaxKind::NODE_PAT_ENTRY,
        "ident=-; question_token=-; default=-;",
    ),
    (
        SyntaxKind::NODE_PATTERN,
        "at_token=-; pat_entries=-; ellipsis_token=-; pat_bind=-;",
    ),
];

// Describes what the accessors of a node over tokens return.
fn describe_built(
    alloc: Global,
    kind: SyntaxKind,
    tokens: &[(SyntaxKind, &str)],
) -> Result<String, AllocError> {
    let tree = node_over(alloc, kind, tokens)?;
    describe_node(alloc, SyntaxNode::new_root(&tree))
}

// Describes what the accessors of a node without children return.
fn describe_empty(alloc: Global, kind: SyntaxKind) -> Result<String, AllocError> {
    describe_built(alloc, kind, &[])
}

// Asserts what the accessors of nodes without children return, row by row.
fn assert_empty(rt: &impl Abort, alloc: Global, cases: &[(SyntaxKind, &str)]) -> Result<(), Fail> {
    for (kind, wanted) in cases {
        let name = kind.name();
        assert_eq!(rt;
            describe_empty(alloc, *kind)?.as_str(),
            *wanted,
            "of {name}"
        );
    }
    Ok(())
}

#[test]
fn nodes_without_children_have_no_parts(rt: HostRuntime) -> Result<(), Fail> {
    assert_empty(&rt, rt.alloc(), &EXPRESSIONS)
}

#[test]
fn parts_without_children_have_no_parts(rt: HostRuntime) -> Result<(), Fail> {
    assert_empty(&rt, rt.alloc(), &OTHERS)
}

#[test]
fn a_pattern_may_have_an_at_sign(rt: HostRuntime) -> Result<(), Fail> {
    let tokens = [
        (SyntaxKind::TOKEN_WHITESPACE, " "),
        (SyntaxKind::TOKEN_AT, "@"),
        (SyntaxKind::TOKEN_ELLIPSIS, "..."),
    ];
    assert_eq!(rt;
        describe_built(rt.alloc(), SyntaxKind::NODE_PATTERN, &tokens)?.as_str(),
        "at_token=@; pat_entries=-; ellipsis_token=...; pat_bind=-;"
    );
    Ok(())
}

#[test]
fn a_literal_of_several_tokens(rt: HostRuntime) -> Result<(), Fail> {
    let (uri, one) = (
        (SyntaxKind::TOKEN_URI, "x:y"),
        (SyntaxKind::TOKEN_INTEGER, "1"),
    );
    let cases = [
        ((SyntaxKind::TOKEN_FLOAT, "1.5"), "float=1.5;"),
        ((SyntaxKind::TOKEN_INTEGER, "2"), "integer=1;"),
    ];
    for (last, wanted) in cases {
        let found = describe_built(rt.alloc(), SyntaxKind::NODE_LITERAL, &[uri, one, last])?;
        assert_eq!(rt; found.as_str(), wanted);
    }
    Ok(())
}
