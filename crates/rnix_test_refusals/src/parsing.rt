//! Texts that are parsed, and parsed again if memory was refused. The wanted output is that of rnix 0.14.0, with the differences in
//! DIFFERENCES.md.

use crate::again::{read_again, report_refusal};
use crate::compared::{Compared, prints};
use rnix_print::{PrintError, print_text};
use std::alloc::{AllocError, Global};
use std::process::Abort;

const SUM: &str = "NODE_ROOT@0..9
  NODE_BIN_OP@0..9
    NODE_LITERAL@0..1
      TOKEN_INTEGER@0..1
    TOKEN_WHITESPACE@1..2
    TOKEN_ADD@2..3
    TOKEN_WHITESPACE@3..4
    NODE_BIN_OP@4..9
      NODE_LITERAL@4..5
        TOKEN_INTEGER@4..5
      TOKEN_WHITESPACE@5..6
      TOKEN_MUL@6..7
      TOKEN_WHITESPACE@7..8
      NODE_LITERAL@8..9
        TOKEN_INTEGER@8..9
";

const SET: &str = "NODE_ROOT@0..21
  NODE_ATTR_SET@0..21
    TOKEN_L_BRACE@0..1
    TOKEN_WHITESPACE@1..2
    NODE_ATTRPATH_VALUE@2..8
      NODE_ATTRPATH@2..3
        NODE_IDENT@2..3
          TOKEN_IDENT@2..3
      TOKEN_WHITESPACE@3..4
      TOKEN_ASSIGN@4..5
      TOKEN_WHITESPACE@5..6
      NODE_LITERAL@6..7
        TOKEN_INTEGER@6..7
      TOKEN_SEMICOLON@7..8
    TOKEN_WHITESPACE@8..9
    NODE_INHERIT@9..19
      TOKEN_INHERIT@9..16
      TOKEN_WHITESPACE@16..17
      NODE_IDENT@17..18
        TOKEN_IDENT@17..18
      TOKEN_SEMICOLON@18..19
    TOKEN_WHITESPACE@19..20
    TOKEN_R_BRACE@20..21
";

const PATH: &str = "NODE_ROOT@0..7
  NODE_PATH_REL@0..7
    TOKEN_PATH_REL@0..3
    NODE_INTERPOL@3..7
      TOKEN_INTERPOL_START@3..5
      NODE_IDENT@5..6
        TOKEN_IDENT@5..6
      TOKEN_INTERPOL_END@6..7
";

const QUOTED: &str = "NODE_ROOT@0..8
  NODE_STRING@0..8
    TOKEN_STRING_START@0..1
    TOKEN_STRING_CONTENT@1..2
    NODE_INTERPOL@2..6
      TOKEN_INTERPOL_START@2..4
      NODE_IDENT@4..5
        TOKEN_IDENT@4..5
      TOKEN_INTERPOL_END@5..6
    TOKEN_STRING_CONTENT@6..7
    TOKEN_STRING_END@7..8
";

const INDENTED: &str = "NODE_ROOT@0..10
  NODE_STRING@0..10
    TOKEN_STRING_START@0..2
    TOKEN_STRING_CONTENT@2..3
    NODE_INTERPOL@3..7
      TOKEN_INTERPOL_START@3..5
      NODE_IDENT@5..6
        TOKEN_IDENT@5..6
      TOKEN_INTERPOL_END@6..7
    TOKEN_STRING_CONTENT@7..8
    TOKEN_STRING_END@8..10
";

const DEFAULT: &str = "NODE_ROOT@0..12
  NODE_LAMBDA@0..12
    NODE_PATTERN@0..9
      TOKEN_L_BRACE@0..1
      TOKEN_WHITESPACE@1..2
      NODE_PAT_ENTRY@2..7
        NODE_IDENT@2..3
          TOKEN_IDENT@2..3
        TOKEN_WHITESPACE@3..4
        TOKEN_QUESTION@4..5
        TOKEN_WHITESPACE@5..6
        NODE_LITERAL@6..7
          TOKEN_INTEGER@6..7
      TOKEN_WHITESPACE@7..8
      TOKEN_R_BRACE@8..9
    TOKEN_COLON@9..10
    TOKEN_WHITESPACE@10..11
    NODE_IDENT@11..12
      TOKEN_IDENT@11..12
";

const REPEATED: &str = "error: argument `a` is duplicated in 5..6
NODE_ROOT@0..11
  NODE_LAMBDA@0..11
    NODE_PATTERN@0..8
      TOKEN_L_BRACE@0..1
      TOKEN_WHITESPACE@1..2
      NODE_PAT_ENTRY@2..3
        NODE_IDENT@2..3
          TOKEN_IDENT@2..3
      TOKEN_COMMA@3..4
      TOKEN_WHITESPACE@4..5
      NODE_PAT_ENTRY@5..6
        NODE_IDENT@5..6
          TOKEN_IDENT@5..6
      TOKEN_WHITESPACE@6..7
      TOKEN_R_BRACE@7..8
    TOKEN_COLON@8..9
    TOKEN_WHITESPACE@9..10
    NODE_IDENT@10..11
      TOKEN_IDENT@10..11
";

pub(crate) const EMPTY_PARENTHESIS: &str =
    "error: unexpected TOKEN_R_PAREN at 1..2, wanted any of [TOKEN_L_PAREN, TOKEN_REC, TOKEN_L_BRACE, TOKEN_L_BRACK, TOKEN_STRING_START, TOKEN_IDENT]
error: unexpected end of file, wanted any of [TOKEN_R_PAREN]
NODE_ROOT@0..2
  NODE_PAREN@0..2
    TOKEN_L_PAREN@0..1
    NODE_ERROR@1..2
      TOKEN_R_PAREN@1..2
";

// Checks that a text prints as wanted. It is parsed again if memory was refused.
fn is_read(rt: &impl Abort, alloc: Global, text: &str, wanted: &str) -> Result<(), AllocError> {
    let mut refused = false;
    let read = read_again(rt, alloc, text, &mut refused)?;
    assert!(rt; prints(&read, wanted));
    report_refusal(refused)
}

#[test]
fn a_sum_is_read_again(rt: HostRuntime) -> Result<(), AllocError> {
    is_read(&rt, rt.alloc(), "1 + 2 * 3", SUM)
}

#[test]
fn a_set_is_read_again(rt: HostRuntime) -> Result<(), AllocError> {
    is_read(&rt, rt.alloc(), "{ a = 1; inherit b; }", SET)
}

#[test]
fn a_path_is_read_again(rt: HostRuntime) -> Result<(), AllocError> {
    is_read(&rt, rt.alloc(), "./a${x}", PATH)
}

#[test]
fn a_string_is_read_again(rt: HostRuntime) -> Result<(), AllocError> {
    is_read(&rt, rt.alloc(), "\"a${b}c\"", QUOTED)
}

#[test]
fn an_indented_string_is_read_again(rt: HostRuntime) -> Result<(), AllocError> {
    is_read(&rt, rt.alloc(), "''a${b}c''", INDENTED)
}

#[test]
fn a_default_is_read_again(rt: HostRuntime) -> Result<(), AllocError> {
    is_read(&rt, rt.alloc(), "{ a ? 1 }: a", DEFAULT)
}

#[test]
fn a_repeated_argument_is_read_again(rt: HostRuntime) -> Result<(), AllocError> {
    is_read(&rt, rt.alloc(), "{ a, a }: a", REPEATED)
}

// Returns whether `()` is printed. If it is, what is wanted is written; if not, memory was refused, and nothing is written.
fn is_printed(rt: &impl Abort, alloc: Global) -> bool {
    let mut out = Compared::new(EMPTY_PARENTHESIS);
    match print_text(alloc, "()", &mut out) {
        Ok(good) => {
            assert!(rt; !good && out.is_whole());
            true
        }
        Err(error) => {
            assert!(rt; matches!(error, PrintError::Memory) && out.is_untouched());
            false
        }
    }
}

#[test]
fn a_refused_text_writes_nothing(rt: HostRuntime) -> Result<(), AllocError> {
    let refused = !is_printed(&rt, rt.alloc());
    assert!(rt; !refused || is_printed(&rt, rt.alloc()));
    report_refusal(refused)
}
