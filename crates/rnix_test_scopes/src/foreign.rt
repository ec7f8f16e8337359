//! White space in small texts: just what Nix refuses is found.

use nix_lints::foreign_spaces;
use rnix::Root;
use std::alloc::{AllocError, Global};
use std::test::Fail;

// A text, and its runs of characters that Nix does not read as white space: the start and the end of each, and its first character.
type Case = (&'static str, &'static [(usize, usize, char)]);

// Whether just these runs are found in the text.
fn is_found(alloc: Global, case: &Case) -> Result<bool, AllocError> {
    let found = foreign_spaces(alloc, &Root::parse(alloc, case.0)?.syntax())?;
    for (space, (start, end, first)) in found.iter().zip(case.1) {
        let range = space.range;
        if range.start() != *start || range.end() != *end || space.first != *first {
            return Ok(false);
        }
    }
    Ok(found.len() == case.1.len())
}

const REFUSED: [Case; 9] = [
    ("{ a =\u{a0}1; }", &[(5, 7, '\u{a0}')]),
    ("[\u{b}\u{c}]", &[(1, 3, '\u{b}')]),
    ("[ \u{c} ]", &[(2, 3, '\u{c}')]),
    ("\u{85}1\u{2028}", &[(0, 2, '\u{85}'), (3, 6, '\u{2028}')]),
    (
        "[\u{3000} \u{2003}\u{a0}\n\u{a0}]",
        &[(1, 4, '\u{3000}'), (5, 10, '\u{2003}'), (11, 13, '\u{a0}')],
    ),
    ("a # b\n\u{a0}", &[(6, 8, '\u{a0}')]),
    (
        "{\u{a0}\u{a0}a\u{a0}= b; }",
        &[(1, 5, '\u{a0}'), (6, 8, '\u{a0}')],
    ),
    ("\"${\u{a0}a}\"", &[(3, 5, '\u{a0}')]),
    ("\u{1680}\u{202f}\u{205f}a", &[(0, 9, '\u{1680}')]),
];

const ACCEPTED: [Case; 6] = [
    ("1", &[]),
    (" [\t1\r\n2 ]\n", &[]),
    ("# \u{a0}\u{c}\n1", &[]),
    ("/* \u{3000} */ 1", &[]),
    ("\"\u{a0}\"", &[]),
    ("''\n  \u{a0}\u{2003}\n''", &[]),
];

#[test]
fn characters_that_nix_does_not_read_as_white_space_are_found(rt: HostRuntime) -> Result<(), Fail> {
    for case in &REFUSED {
        let is_found = is_found(rt.alloc(), case)?;
        assert!(rt; is_found, "in {}", case.0);
    }
    Ok(())
}

#[test]
fn no_other_characters_are_found(rt: HostRuntime) -> Result<(), Fail> {
    for case in &ACCEPTED {
        let is_found = is_found(rt.alloc(), case)?;
        assert!(rt; is_found, "in {}", case.0);
    }
    Ok(())
}
