//! Lints on small texts: just these findings.

use nix_lints::lints;
use rnix::Root;
use std::alloc::{AllocError, Global};
use std::test::Fail;

// A text, and for each finding its code, where it begins and where it ends.
type Case = (&'static str, &'static [(&'static str, usize, usize)]);

// Whether just these findings are found in the text.
fn is_found(alloc: Global, case: &Case) -> Result<bool, AllocError> {
    let found = lints(alloc, &Root::parse(alloc, case.0)?.syntax())?;
    for (finding, (name, start, end)) in found.iter().zip(case.1) {
        let range = finding.range;
        if finding.code.name() != *name || range.start() != *start || range.end() != *end {
            return Ok(false);
        }
    }
    Ok(found.len() == case.1.len())
}

const TEXTS: [Case; 34] = [
    ("x: let a = x; in a.${x}", &[]),
    ("{ version = 1.2.3; }", &[("called-data", 12, 17)]),
    ("[ (\"a\" 1) ]", &[("called-data", 3, 8)]),
    ("f: f 1 \"a\"", &[]),
    ("{ timeZone = Europe/Berlin; }", &[("bare-path", 13, 26)]),
    ("[ ./a ../b /c ~/d <e> ]", &[]),
    (
        "{ f, x }: f (x) (f x) [ (f x) ]",
        &[("needless-parentheses", 12, 15)],
    ),
    (
        "x: { a = (x.y); b = ((x) + 1); }",
        &[
            ("needless-parentheses", 9, 14),
            ("needless-parentheses", 20, 29),
            ("needless-parentheses", 21, 24),
        ],
    ),
    (
        "x: if (x == 1) then \"${(x)}\" else (x 2)",
        &[
            ("needless-parentheses", 6, 14),
            ("needless-parentheses", 23, 26),
            ("needless-parentheses", 34, 39),
        ],
    ),
    ("x: [ (x 1) (-1) (x.y or 2) ] ++ (x: x) 1", &[]),
    ("x: { x = x; }", &[("manual-inherit", 5, 11)]),
    ("x: { y = x.y; z.w = x.w; }", &[("manual-inherit", 5, 13)]),
    ("x: { y = x.y or 1; a = x.b; }", &[]),
    ("rec { x = x; }", &[]),
    ("{ a }: { inherit a; b = c; }", &[("unbound-name", 24, 25)]),
    ("with { }; a", &[]),
    (
        "a: with a; let b = 1; in [ b c map __newBuiltin break ]",
        &[],
    ),
    ("[ map true null builtins.foo ]", &[]),
    (
        "let a = 1; in { inherit a b; }",
        &[("unbound-name", 26, 27)],
    ),
    ("x: let ${x} = 1; in 2", &[("dynamic-name", 7, 11)]),
    ("x: let a.${x} = 1; ${\"b\"} = 2; in [ a b ]", &[]),
    (
        "x: { inherit (x) ${x}; ${x} = 1; }",
        &[("dynamic-name", 17, 21)],
    ),
    (
        "[ 9223372036854775807 9223372036854775808 0009223372036854775807 ]",
        &[("large-integer", 22, 41)],
    ),
    (
        "{ a = 1; a = (2); }",
        &[
            ("repeated-attribute", 9, 10),
            ("needless-parentheses", 13, 16),
        ],
    ),
    (
        "{ a, b }: let c = a; in 1",
        &[("unused-name", 5, 6), ("unused-name", 14, 15)],
    ),
    ("args@{ a }: _b: rec { c = args; }", &[]),
    ("x: with x; { a = 1; }", &[("needless-with", 3, 21)]),
    ("x: with x; with x; y", &[]),
    (
        "x: with x; let y = 1; in [ y map ]",
        &[("needless-with", 3, 34)],
    ),
    (
        "x: y: with (with x; z); y",
        &[("needless-with", 6, 25), ("needless-parentheses", 11, 22)],
    ),
    ("a@{ a }: a", &[("repeated-argument", 0, 2)]),
    ("{ a, b ? a }@b: b", &[("repeated-argument", 12, 14)]),
    ("a@{ b }: b: a", &[("unused-name", 9, 10)]),
    (
        "x: let \"${x}\" = 1; in { \"${x}\" = 2; inherit (x) \"${x}\"; }",
        &[("dynamic-name", 7, 13), ("dynamic-name", 48, 54)],
    ),
];

#[test]
fn each_lint_finds_what_it_says(rt: HostRuntime) -> Result<(), Fail> {
    for case in &TEXTS {
        let is_found = is_found(rt.alloc(), case)?;
        assert!(rt; is_found, "in {}", case.0);
    }
    Ok(())
}
