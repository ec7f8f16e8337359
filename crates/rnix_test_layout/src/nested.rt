//! Expressions of all kinds inside one another.

use crate::formatted::{check_repeated, filled};
use std::alloc::AllocError;
use std::process::Abort;
use std::test::Fail;

// Expressions in which `%` stands for another one.
const OUTER: [&str; 29] = [
    "%",
    "{a=%;b=%;}",
    "{\ta\r=  %;\t\tb\r\n=%;}",
    "f (- ./a) [ % http://a.b/c % ]",
    "{ a = %; b = %; }",
    "rec { inherit (%) a b; a.${%} = %; }",
    "{\n\n  # c\n  a =\n    %; # d\n\n\n  /* e */ b = %;\n  # f\n}",
    "[ % % ]",
    "[\n  % # c\n  /* d */ %\n]",
    "(%)",
    "f % (%) { }",
    "% + % * %",
    "a // % // { b = %; }",
    "if % then % else if % then % else %",
    "let a = %; inherit b; in %",
    "let { a = %; body = %; }",
    "with %; %",
    "assert %; %",
    "x: %",
    "x: y: %",
    "{ a, b ? %, ... }@c: %",
    "{\n  a # c\n  , b\n  , c\n}: %",
    "\"a ${%} b\"",
    "''\n  a\n    ${%}\n   b\n''",
    "''\n\n      a ${%}\n  \n    '' + %",
    "./a${%}/b",
    "a.b or %",
    "!% -> -% ? a.${%}",
    "f\n  %\n  (x: %)\n  [ % ]",
];

// Expressions into which none is put.
const INNER: [&str; 13] = [
    "1",
    "\"ä\"",
    "{ }",
    "[ ]",
    "{\n}",
    "\"a\nä\"",
    "''a''",
    "''\n  a\n  ''",
    "''\n\ta\n''",
    "a: a",
    "<a/b>",
    "/* a\n   € */ b",
    "# ä\n http://a.b/c",
];

// Checks `outer` with each of the expressions of `OUTER` inside, and inside these the next ones of `INNER`, or `a` after the last one.
fn check_inside(
    rt: &(impl Abort + AllocGlobal),
    outer: &str,
    next_inner: &mut usize,
) -> Result<(), AllocError> {
    for middle in OUTER {
        let inner = match INNER.get(*next_inner) {
            Some(inner) => {
                *next_inner = next_inner.saturating_add(1);
                *inner
            }
            None => {
                *next_inner = 0;
                "a"
            }
        };
        let inside = filled(rt.alloc(), middle, inner)?;
        let text = filled(rt.alloc(), outer, inside.as_str())?;
        check_repeated(rt, text.as_str())?;
    }
    Ok(())
}

#[test]
fn nested_expressions_stay_the_same(rt: HostRuntime) -> Result<(), Fail> {
    let mut next_inner = 0;
    for outer in OUTER {
        check_inside(&rt, outer, &mut next_inner)?;
    }
    Ok(())
}
