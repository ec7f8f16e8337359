//! The parts that texts have.

use crate::describe::assert_described;
use rnix::SyntaxKind;
use std::alloc::Global;
use std::process::Abort;
use std::test::Fail;

#[test]
fn conditions_and_their_values(rt: HostRuntime) -> Result<(), Fail> {
    let cases = [
        (
            SyntaxKind::NODE_IF_ELSE,
            "if a then b else c",
            "if_token=if; condition=a; then_token=then; body=b; else_token=else; else_body=c;",
        ),
        (
            SyntaxKind::NODE_ASSERT,
            "assert a; b",
            "assert_token=assert; condition=a; body=b;",
        ),
        (
            SyntaxKind::NODE_WITH,
            "with a; b",
            "with_token=with; namespace=a; semicolon_token=;; body=b;",
        ),
    ];
    assert_described(&rt, rt.alloc(), &cases)
}

#[test]
fn names_and_what_they_select(rt: HostRuntime) -> Result<(), Fail> {
    let cases = [
        (SyntaxKind::NODE_IDENT, "a", "ident_token=a;"),
        (
            SyntaxKind::NODE_SELECT,
            "a.b.c or d",
            "expr=a; dot_token=.; attrpath=b.c; or_token=or; default_expr=d;",
        ),
        (
            SyntaxKind::NODE_SELECT,
            "a.b",
            "expr=a; dot_token=.; attrpath=b; or_token=-; default_expr=-;",
        ),
        (
            SyntaxKind::NODE_SELECT,
            "a.b or c",
            "expr=a; dot_token=.; attrpath=b; or_token=or; default_expr=c;",
        ),
        (
            SyntaxKind::NODE_HAS_ATTR,
            "a ? b.c",
            "expr=a; question_token=?; attrpath=b.c;",
        ),
        (
            SyntaxKind::NODE_ATTRPATH,
            "a.b.${c}.\"d\"",
            "attrs=(b)(${c})(\"d\");",
        ),
        (
            SyntaxKind::NODE_DYNAMIC,
            "{ ${a} = b; }",
            "interpol_start_token=${; expr=a; interpol_end_token=};",
        ),
    ];
    assert_described(&rt, rt.alloc(), &cases)
}

#[test]
fn sets_and_lets_have_entries(rt: HostRuntime) -> Result<(), Fail> {
    let cases = [
        (
            SyntaxKind::NODE_ATTR_SET,
            "rec { a = 1; inherit b; }",
            "rec_token=rec; l_curly_token={; entries=(a = 1;)(inherit b;); \
             attrpath_values=(a = 1;); inherits=(inherit b;); r_curly_token=};",
        ),
        (
            SyntaxKind::NODE_ATTR_SET,
            "{ }",
            "rec_token=-; l_curly_token={; entries=-; attrpath_values=-; inherits=-; r_curly_token=};",
        ),
        (
            SyntaxKind::NODE_LET_IN,
            "let inherit a; b = 1; in c",
            "let_token=let; entries=(inherit a;)(b = 1;); attrpath_values=(b = 1;); \
             inherits=(inherit a;); in_token=in; body=c;",
        ),
        (
            SyntaxKind::NODE_LEGACY_LET,
            "let { inherit a; body = 1; }",
            "let_token=let; curly_open_token={; entries=(inherit a;)(body = 1;); \
             attrpath_values=(body = 1;); inherits=(inherit a;); curly_close_token=};",
        ),
    ];
    assert_described(&rt, rt.alloc(), &cases)
}

#[test]
fn entries_have_names_and_values(rt: HostRuntime) -> Result<(), Fail> {
    let cases = [
        (
            SyntaxKind::NODE_ATTRPATH_VALUE,
            "{ a.b = c; }",
            "attrpath=a.b; assign_token==; value=c;",
        ),
        (
            SyntaxKind::NODE_INHERIT,
            "{ inherit (a) b \"c\"; d = e; }",
            "inherit_token=inherit; from=(a); attrs=(b)(\"c\");",
        ),
        (
            SyntaxKind::NODE_INHERIT,
            "{ inherit a; }",
            "inherit_token=inherit; from=-; attrs=(a);",
        ),
        (
            SyntaxKind::NODE_INHERIT_FROM,
            "{ inherit (a) b; }",
            "l_paren_token=(; expr=a; r_paren_token=);",
        ),
    ];
    assert_described(&rt, rt.alloc(), &cases)
}

#[test]
fn functions_and_their_arguments(rt: HostRuntime) -> Result<(), Fail> {
    let cases = [
        (SyntaxKind::NODE_APPLY, "a b", "lambda=a; argument=b;"),
        (
            SyntaxKind::NODE_LAMBDA,
            "a: b",
            "param=a; token_colon=:; body=b;",
        ),
        (
            SyntaxKind::NODE_LAMBDA,
            "{ a }: b",
            "param={ a }; token_colon=:; body=b;",
        ),
        (SyntaxKind::NODE_IDENT_PARAM, "a: b", "ident=a;"),
    ];
    assert_described(&rt, rt.alloc(), &cases)
}

#[test]
fn patterns_have_entries_and_a_name(rt: HostRuntime) -> Result<(), Fail> {
    let cases = [
        (
            SyntaxKind::NODE_PATTERN,
            "{ a ? 1, b, ... }@c: d",
            "at_token=-; pat_entries=(a ? 1)(b); ellipsis_token=...; pat_bind=@c;",
        ),
        (
            SyntaxKind::NODE_PATTERN,
            "c@{ a }: d",
            "at_token=-; pat_entries=(a); ellipsis_token=-; pat_bind=c@;",
        ),
        (
            SyntaxKind::NODE_PAT_ENTRY,
            "{ a ? 1, ... }: b",
            "ident=a; question_token=?; default=1;",
        ),
        (
            SyntaxKind::NODE_PAT_ENTRY,
            "{ a }: b",
            "ident=a; question_token=-; default=-;",
        ),
        (SyntaxKind::NODE_PAT_BIND, "{ a }@b: c", "ident=b;"),
        (SyntaxKind::NODE_PAT_BIND, "b@{ a }: c", "ident=b;"),
    ];
    assert_described(&rt, rt.alloc(), &cases)
}

#[test]
fn groups_and_what_they_hold(rt: HostRuntime) -> Result<(), Fail> {
    let cases = [
        (SyntaxKind::NODE_ROOT, " a ", "expr=a;"),
        (
            SyntaxKind::NODE_PAREN,
            "(a)",
            "l_paren_token=(; expr=a; r_paren_token=);",
        ),
        (
            SyntaxKind::NODE_LIST,
            "[ a b ]",
            "l_brack_token=[; items=(a)(b); r_brack_token=];",
        ),
        (SyntaxKind::NODE_INTERPOL, "\"${a}\"", "expr=a;"),
        (
            SyntaxKind::NODE_CUR_POS,
            "__curPos",
            "cur_pos_token=__curPos;",
        ),
        (SyntaxKind::NODE_ERROR, "()", "syntax=);"),
    ];
    assert_described(&rt, rt.alloc(), &cases)
}

#[test]
fn literals_strings_and_paths(rt: HostRuntime) -> Result<(), Fail> {
    let cases = [
        (SyntaxKind::NODE_LITERAL, "1.5", "float=1.5;"),
        (SyntaxKind::NODE_LITERAL, "1", "integer=1;"),
        (SyntaxKind::NODE_LITERAL, "x:y", "uri=x:y;"),
        (SyntaxKind::NODE_STRING, "\"a${b}c\"", "parts=(a)(${b})(c);"),
        (SyntaxKind::NODE_PATH_ABS, "/a${b}", "parts=(/a)(${b});"),
        (SyntaxKind::NODE_PATH_REL, "./a${b}", "parts=(./a)(${b});"),
        (SyntaxKind::NODE_PATH_HOME, "~/a${b}", "parts=(~/a)(${b});"),
        (SyntaxKind::NODE_PATH_SEARCH, "<a>", "content=<a>;"),
    ];
    assert_described(&rt, rt.alloc(), &cases)
}

// Asserts which operator is between two names.
fn assert_operator(rt: &impl Abort, alloc: Global, sign: &str, name: &str) -> Result<(), Fail> {
    let text = format!(in alloc; "a {sign} b")?;
    let wanted = format!(in alloc; "lhs=a; operator={name}; rhs=b;")?;
    let case = (SyntaxKind::NODE_BIN_OP, text.as_str(), wanted.as_str());
    assert_described(rt, alloc, &[case])
}

#[test]
fn operators_between_two_operands(rt: HostRuntime) -> Result<(), Fail> {
    let cases = [
        ("++", "Concat"),
        ("//", "Update"),
        ("+", "Add"),
        ("-", "Sub"),
        ("*", "Mul"),
        ("/", "Div"),
        ("&&", "And"),
        ("==", "Equal"),
        ("->", "Implication"),
        ("<", "Less"),
        ("<=", "LessOrEq"),
        (">", "More"),
        (">=", "MoreOrEq"),
        ("!=", "NotEqual"),
        ("||", "Or"),
        ("|>", "PipeRight"),
        ("<|", "PipeLeft"),
    ];
    for (sign, name) in cases {
        assert_operator(&rt, rt.alloc(), sign, name)?;
    }
    Ok(())
}

#[test]
fn operators_before_their_operand(rt: HostRuntime) -> Result<(), Fail> {
    let cases = [
        (SyntaxKind::NODE_UNARY_OP, "!a", "operator=Invert; expr=a;"),
        (SyntaxKind::NODE_UNARY_OP, "-a", "operator=Negate; expr=a;"),
    ];
    assert_described(&rt, rt.alloc(), &cases)
}
