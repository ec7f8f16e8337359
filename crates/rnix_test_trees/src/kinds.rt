//! Kinds and sets of kinds.

use rnix_kinds::{SyntaxKind, TokenSet, same_sets};
use std::alloc::{AllocError, Global};
use std::test::Fail;

// The names of all kinds, a space between two.
const NAMES: &str = "\
    TOKEN_ADD TOKEN_AND_AND TOKEN_ASSIGN TOKEN_ASSERT TOKEN_AT TOKEN_COLON TOKEN_COMMA \
    TOKEN_COMMENT TOKEN_CONCAT TOKEN_CUR_POS TOKEN_DIV TOKEN_DOT TOKEN_ELLIPSIS TOKEN_ELSE \
    TOKEN_EQUAL TOKEN_ERROR TOKEN_FLOAT TOKEN_IDENT TOKEN_IF TOKEN_IMPLICATION TOKEN_IN \
    TOKEN_INHERIT TOKEN_INTEGER TOKEN_INTERPOL_END TOKEN_INTERPOL_START TOKEN_INVERT \
    TOKEN_L_BRACE TOKEN_L_BRACK TOKEN_L_PAREN TOKEN_LESS TOKEN_LESS_OR_EQ TOKEN_LET TOKEN_MORE \
    TOKEN_MORE_OR_EQ TOKEN_MUL TOKEN_NOT_EQUAL TOKEN_OR TOKEN_OR_OR TOKEN_PATH_ABS \
    TOKEN_PATH_HOME TOKEN_PATH_REL TOKEN_PATH_SEARCH TOKEN_PIPE_LEFT TOKEN_PIPE_RIGHT \
    TOKEN_QUESTION TOKEN_R_BRACE TOKEN_R_BRACK TOKEN_R_PAREN TOKEN_REC TOKEN_SEMICOLON \
    TOKEN_STRING_CONTENT TOKEN_STRING_END TOKEN_STRING_START TOKEN_SUB TOKEN_THEN TOKEN_UPDATE \
    TOKEN_URI TOKEN_WHITESPACE TOKEN_WITH NODE_APPLY NODE_ASSERT NODE_ATTR_SET NODE_ATTRPATH \
    NODE_ATTRPATH_VALUE NODE_BIN_OP NODE_CUR_POS NODE_DYNAMIC NODE_ERROR NODE_HAS_ATTR \
    NODE_IDENT NODE_IDENT_PARAM NODE_IF_ELSE NODE_INHERIT NODE_INHERIT_FROM NODE_INTERPOL \
    NODE_LAMBDA NODE_LEGACY_LET NODE_LET_IN NODE_LIST NODE_LITERAL NODE_PAREN NODE_PAT_BIND \
    NODE_PAT_ENTRY NODE_PATTERN NODE_PATH_ABS NODE_PATH_HOME NODE_PATH_REL NODE_PATH_SEARCH \
    NODE_ROOT NODE_SELECT NODE_STRING NODE_UNARY_OP NODE_WITH";

// Whether the set holds the kinds of these names and no other kind.
fn holds_only(set: TokenSet, names: &[&str]) -> bool {
    for name in NAMES.split(' ') {
        let Ok(kind) = name.parse::<SyntaxKind>() else {
            return false;
        };
        if set.contains(kind) != names.contains(&name) {
            return false;
        }
    }
    true
}

// The kind with a number, if it has this name.
fn numbered(number: usize, name: &str) -> Option<SyntaxKind> {
    let kind = SyntaxKind::from_raw(u16::try_from(number).ok()?)?;
    if kind.name() == name && name.parse() == Ok(kind) {
        return Some(kind);
    }
    None
}

#[test]
fn kinds_have_numbers_and_names(rt: HostRuntime) {
    let mut last = None;
    for (number, name) in NAMES.split(' ').enumerate() {
        last = numbered(number, name);
        assert!(rt; last.is_some(), "of {name}");
    }
    assert!(rt; last == Some(SyntaxKind::NODE_WITH));
    assert!(rt; SyntaxKind::from_raw(SyntaxKind::NODE_WITH as u16) == last);
    assert!(rt; SyntaxKind::from_raw(93).is_none());
}

// The message about a text that is not the name of a kind.
fn refusal(alloc: Global, text: &str) -> Result<Option<String>, AllocError> {
    match text.parse::<SyntaxKind>() {
        Ok(_kind) => Ok(None),
        Err(error) => Ok(Some(format!(in alloc; "{error}")?)),
    }
}

#[test]
fn what_is_no_name_says_so(rt: HostRuntime) -> Result<(), Fail> {
    for text in ["INVALID", "token_comment", ""] {
        let said = refusal(rt.alloc(), text)?;
        assert!(rt; said.is_some_and(|said| said.as_str() == "invalid SyntaxKind"));
    }
    Ok(())
}

#[test]
fn sets_hold_what_was_joined(rt: HostRuntime) {
    let (add, mul) = (SyntaxKind::TOKEN_ADD, SyntaxKind::TOKEN_MUL);
    let both = add | SyntaxKind::TOKEN_SUB;
    let three = ["TOKEN_ADD", "TOKEN_MUL", "TOKEN_SUB"];
    let cases: [(TokenSet, &[&str]); 7] = [
        (both, &["TOKEN_ADD", "TOKEN_SUB"]),
        (() | mul, &["TOKEN_MUL"]),
        (mul | (), &["TOKEN_MUL"]),
        (both | mul, &three),
        (mul | both, &three),
        (both | TokenSet::new(mul), &three),
        (TokenSet::EMPTY, &[]),
    ];
    for (set, names) in cases {
        assert!(rt; holds_only(set, names));
    }
}

// Whether the set of two kinds is the same whichever way they are joined.
fn is_same(both: TokenSet, first: SyntaxKind, last: SyntaxKind) -> bool {
    (last | first == both && both | first == both && last | both == both)
        && TokenSet::from_slice(&[last, first, last]) == both
        && TokenSet::EMPTY | both == both
        && same_sets(both, last | first)
}

// Whether the set of two kinds is no set of fewer kinds.
fn is_no_other(both: TokenSet, first: SyntaxKind, last: SyntaxKind) -> bool {
    both != TokenSet::new(first)
        && first | () != () | last
        && TokenSet::from_slice(&[]) == TokenSet::EMPTY
        && !same_sets(both, TokenSet::EMPTY)
}

#[test]
fn sets_of_the_same_kinds_are_equal(rt: HostRuntime) {
    let (first, last) = (SyntaxKind::TOKEN_ADD, SyntaxKind::NODE_WITH);
    assert!(rt; is_same(first | last, first, last));
    assert!(rt; is_no_other(first | last, first, last));
}

#[test]
fn classes_of_kinds(rt: HostRuntime) {
    assert!(rt; SyntaxKind::TOKEN_URI.is_literal() && SyntaxKind::TOKEN_URI.is_fn_arg());
    assert!(rt; SyntaxKind::TOKEN_REC.is_fn_arg() && !SyntaxKind::TOKEN_REC.is_literal());
    assert!(rt; SyntaxKind::TOKEN_COMMENT.is_trivia() && !SyntaxKind::TOKEN_OR.is_trivia());
}
