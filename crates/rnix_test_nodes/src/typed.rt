//! Typed nodes and tokens.

use rnix::ast::{
    AstNode, AstToken, AttrSet, Comment, Expr, Float, Ident, Integer, List, LiteralKind,
};
use rnix::{NodeOrToken, Parse, ParseError, Root, TextRange};
use std::alloc::{AllocError, Global};
use std::test::Fail;

// The range of the first error of a text if it is `UnexpectedExtra`, or else an empty range; `None` if the text has no errors.
fn extra_in(alloc: Global, text: &str) -> Result<Option<TextRange>, AllocError> {
    let read = Root::parse(alloc, text)?;
    Ok(match read.ok() {
        Err(ParseError::UnexpectedExtra(range)) => Some(*range),
        Err(_error) => Some(TextRange::default()),
        Ok(_root) => None,
    })
}

#[test]
fn the_first_error_is_returned(rt: HostRuntime) -> Result<(), Fail> {
    assert!(rt; extra_in(rt.alloc(), "a == b == c")? == Some(TextRange::new(7, 11)));
    assert!(rt; extra_in(rt.alloc(), "a")? == None);
    Ok(())
}

// Whether an expression is a list, and whether it is a set.
fn is_list_or_set(read: &Parse) -> Option<(bool, bool)> {
    let is_list = List::try_from(read.tree().expr()?).is_ok();
    let is_set = AttrSet::try_from(read.tree().expr()?).is_ok();
    Some((is_list, is_set))
}

#[test]
fn an_expression_is_of_one_type(rt: HostRuntime) -> Result<(), Fail> {
    let read = Root::parse(rt.alloc(), "[ a ]")?;
    assert!(rt; is_list_or_set(&read) == Some((true, false)));
    Ok(())
}

// The first name of a text, as an expression.
fn first_name(read: &Parse) -> Option<Expr<'_>> {
    for node in read.syntax().descendants() {
        if let Some(name) = Ident::cast(node) {
            return Some(Expr::from(name));
        }
    }
    None
}

// What is printed of the first name.
fn first_name_printed(alloc: Global, read: &Parse) -> Result<String, AllocError> {
    match first_name(read) {
        Some(name) => format!(in alloc; "{name}"),
        None => Ok(String::new(alloc)),
    }
}

#[test]
fn a_name_is_an_expression(rt: HostRuntime) -> Result<(), Fail> {
    let read = Root::parse(rt.alloc(), "[ a ]")?;
    assert!(rt; first_name_printed(rt.alloc(), &read)?.as_str() == "a");
    Ok(())
}

// The integer of a text that is an integer.
fn number(read: &Parse) -> Option<Integer<'_>> {
    let Expr::Literal(literal) = read.tree().expr()? else {
        return None;
    };
    match literal.kind()? {
        LiteralKind::Integer(integer) => Some(integer),
        _ => None,
    }
}

// The value of a text that is an integer, if it has a value; `None` if the text is no integer.
fn value_in(alloc: Global, text: &str) -> Result<Option<Option<i64>>, AllocError> {
    let read = Root::parse(alloc, text)?;
    Ok(match number(&read) {
        Some(integer) => Some(integer.value().ok()),
        None => None,
    })
}

// The value of a text that is a number with a point or an exponent.
fn float_in(alloc: Global, text: &str) -> Result<Option<f64>, AllocError> {
    let read = Root::parse(alloc, text)?;
    Ok(match read.syntax().first_token() {
        Some(token) => Float::cast(token).and_then(|float| float.value().ok()),
        None => None,
    })
}

#[test]
fn numbers_with_a_point_are_read(rt: HostRuntime) -> Result<(), Fail> {
    let cases = [
        ("1.5e-3", Some(0.0015)),
        (".25", Some(0.25)),
        ("9.e999", Some(f64::INFINITY)),
        ("1", None),
    ];
    for (text, wanted) in cases {
        assert!(rt; float_in(rt.alloc(), text)? == wanted, "of {text}");
    }
    Ok(())
}

#[test]
fn numbers_are_read(rt: HostRuntime) -> Result<(), Fail> {
    let cases = [
        ("9223372036854775807", Some(Some(9223372036854775807))),
        ("9223372036854775808", Some(None)),
    ];
    for (text, wanted) in cases {
        assert!(rt; value_in(rt.alloc(), text)? == wanted, "of {text}");
    }
    Ok(())
}

// The comments of the children of the root, a bar between two.
fn comments_in(alloc: Global, text: &str) -> Result<String, AllocError> {
    let read = Root::parse(alloc, text)?;
    let mut said = String::new(alloc);
    for element in read.syntax().children_with_tokens() {
        if let NodeOrToken::Token(token) = element {
            if let Some(comment) = Comment::cast(token) {
                said.push_str(comment.text())?;
                said.push('|')?;
            }
        }
    }
    Ok(said)
}

#[test]
fn the_text_of_a_comment_has_no_delimiters(rt: HostRuntime) -> Result<(), Fail> {
    let text =
        "# comment bruh\n/* this is a multiline comment wow\nasdfasdf\nasdfasdf */\n1 + 1\n/* last one */\n";
    let wanted = " comment bruh| this is a multiline comment wow\nasdfasdf\nasdfasdf | last one |";
    assert_eq!(rt; comments_in(rt.alloc(), text)?.as_str(), wanted);
    Ok(())
}

// What is printed of the expression of a text for debugging.
fn expression_debugged(alloc: Global, text: &str) -> Result<String, AllocError> {
    let read = Root::parse(alloc, text)?;
    match read.tree().expr() {
        Some(expr) => format!(in alloc; "{expr:?}"),
        None => Ok(String::new(alloc)),
    }
}

#[test]
fn a_debug_print_names_the_type(rt: HostRuntime) -> Result<(), Fail> {
    let printed = expression_debugged(rt.alloc(), "let in a")?;
    assert!(rt; printed.as_str() == "LetIn(LetIn { syntax: NODE_LET_IN@0..8 })");
    Ok(())
}
