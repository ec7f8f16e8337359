//! What errors say, and which are equal.

use rnix_grammar::ParseError;
use rnix_green::TextRange;
use rnix_kinds::SyntaxKind;
use std::alloc::Global;
use std::test::Fail;

// A list of one kind.
fn only(alloc: Global, kind: SyntaxKind) -> Result<Vec<SyntaxKind>, Fail> {
    let mut kinds = Vec::new(alloc);
    kinds.push(kind)?;
    Ok(kinds)
}

#[test]
fn errors_say_what_they_are(rt: HostRuntime) -> Result<(), Fail> {
    let alloc = rt.alloc();
    let range = TextRange::new(3, 5);
    let wanted = only(alloc, SyntaxKind::TOKEN_R_PAREN)?;
    let name = String::from_str(alloc, "a")?;
    let cases = [
        (ParseError::Unexpected(range), "error node at 3..5"),
        (
            ParseError::UnexpectedExtra(range),
            "unexpected token at 3..5",
        ),
        (
            ParseError::UnexpectedWanted(SyntaxKind::TOKEN_ADD, range, wanted),
            "unexpected TOKEN_ADD at 3..5, wanted any of [TOKEN_R_PAREN]",
        ),
        (
            ParseError::UnexpectedDoubleBind(range),
            "unexpected double bind at 3..5",
        ),
        (ParseError::UnexpectedEOF, "unexpected end of file"),
        (
            ParseError::UnexpectedEOFWanted(Vec::new(alloc)),
            "unexpected end of file, wanted any of []",
        ),
        (
            ParseError::DuplicatedArgs(range, name),
            "argument `a` is duplicated in 3..5",
        ),
        (
            ParseError::RecursionLimitExceeded,
            "recursion limit exceeded",
        ),
    ];
    for (error, wanted) in &cases {
        let text = format!(in alloc; "{error}")?;
        assert_eq!(rt; text.as_str(), *wanted);
    }
    Ok(())
}

#[test]
fn errors_differ_by_variant_and_fields(rt: HostRuntime) -> Result<(), Fail> {
    let alloc = rt.alloc();
    let range = TextRange::new(3, 5);
    let error = ParseError::UnexpectedWanted(
        SyntaxKind::TOKEN_ADD,
        range,
        only(alloc, SyntaxKind::TOKEN_R_PAREN)?,
    );
    assert!(rt; error == error.try_clone()?);
    let other_list = ParseError::UnexpectedWanted(
        SyntaxKind::TOKEN_ADD,
        range,
        only(alloc, SyntaxKind::TOKEN_R_BRACK)?,
    );
    assert!(rt; error != other_list);
    assert!(rt; ParseError::Unexpected(range) != ParseError::UnexpectedExtra(range));
    assert!(rt; ParseError::Unexpected(range) != ParseError::Unexpected(TextRange::new(3, 6)));
    Ok(())
}
