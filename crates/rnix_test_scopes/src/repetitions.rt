//! Repetitions in small texts: just what Nix 2.8 refuses is found.

use nix_attributes::repeated_attributes;
use rnix::Root;
use std::alloc::{AllocError, Global};
use std::test::Fail;

// A text, and for each repetition of an attribute where it begins, and where the attribute's first name does.
type Case = (&'static str, &'static [(usize, usize)]);

// Whether just these repetitions are found in the text.
fn is_found(alloc: Global, case: &Case) -> Result<bool, AllocError> {
    let found = repeated_attributes(alloc, &Root::parse(alloc, case.0)?.syntax())?;
    for (repeated, (start, first)) in found.iter().zip(case.1) {
        if repeated.range.start() != *start || repeated.first.start() != *first {
            return Ok(false);
        }
    }
    Ok(found.len() == case.1.len())
}

const REFUSED: [Case; 22] = [
    ("{ a = 1; a = 2; }", &[(9, 2)]),
    ("{ a = 1; a = 2; a = 3; }", &[(9, 2), (16, 2)]),
    ("{ inherit a; a = 1; }", &[(13, 10)]),
    ("{ a = 1; inherit (b) c a; }", &[(23, 2)]),
    ("{ inherit a a; }", &[(12, 10)]),
    ("let a = 1; a = 2; in a", &[(11, 4)]),
    ("rec { a = 1; a = 2; }", &[(13, 6)]),
    ("let { a = 1; a = 2; body = a; }", &[(13, 6)]),
    ("{ a = 1; \"a\" = 2; ${\"a\"} = 3; }", &[(9, 2), (18, 2)]),
    ("{ a.b = 1; a.b = 2; }", &[(13, 4)]),
    ("{ a.b = 1; a = 2; }", &[(11, 2)]),
    ("{ a = 1; a.b = 2; }", &[(9, 2)]),
    ("{ a = { b = 1; }; a.b = 2; }", &[(20, 8)]),
    ("{ a.b = 1; a = { b = 2; }; }", &[(17, 4)]),
    ("{ a = { b.c = 1; }; a = { b.d = 2; }; }", &[(26, 8)]),
    ("{ a.b.c = 1; a = { b.d = 2; }; }", &[(19, 4)]),
    ("{ a = ({ b = 1; }); a.b = 2; }", &[(22, 9)]),
    ("{ a = rec { b = 1; }; a.b = 2; }", &[(24, 12)]),
    ("{ a = { b = 1; } // { }; a.c = 2; }", &[(25, 2)]),
    ("{ a = let { b = 1; }; a.c = 2; }", &[(22, 2)]),
    ("{ a.${b} = 1; a = 2; }", &[(14, 2)]),
    (
        "{ a = { b = 1; }; a.b = { c = 1; c = 2; }; }",
        &[(20, 8), (33, 26)],
    ),
];

const ACCEPTED: [Case; 14] = [
    ("{ }", &[]),
    ("{ a = 1; b = 1; }", &[]),
    ("{ a.b = 1; a.c = 2; }", &[]),
    ("{ a = { b = 1; }; a.c = 2; }", &[]),
    ("{ a.b = 1; a = { c = 2; }; }", &[]),
    ("{ a = { b = 1; }; a = rec { c = 2; }; }", &[]),
    ("{ a = { b.c = 1; }; a.b.d = 2; }", &[]),
    ("{ a.b.c = 1; a.b = { d = 2; }; }", &[]),
    ("{ a = { b.c = 1; b.d = 2; }; }", &[]),
    ("{ ${a} = 1; ${a} = 2; \"${a}\" = 3; }", &[]),
    ("{ ${a}.b = 1; ${a}.b = 2; }", &[]),
    ("{ a = { b = 1; }; c = { b = 2; }; }", &[]),
    ("let a = 1; in let a = 2; in { inherit a; }", &[]),
    ("{ a = [ { b = 1; } { b = 2; } ]; }", &[]),
];

#[test]
fn repetitions_that_nix_refuses_are_found(rt: HostRuntime) -> Result<(), Fail> {
    for case in &REFUSED {
        let is_found = is_found(rt.alloc(), case)?;
        assert!(rt; is_found, "in {}", case.0);
    }
    Ok(())
}

#[test]
fn definitions_that_nix_accepts_are_no_repetitions(rt: HostRuntime) -> Result<(), Fail> {
    for case in &ACCEPTED {
        let is_found = is_found(rt.alloc(), case)?;
        assert!(rt; is_found, "in {}", case.0);
    }
    Ok(())
}
