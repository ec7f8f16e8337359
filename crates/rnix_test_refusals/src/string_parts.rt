//! Parts of strings and paths, and values of texts, that are requested again after memory was refused.

use crate::again::{read_again, report_refusal};
use rnix::Parse;
use rnix::ast::{AstNode, Expr, InterpolPart, PathContent, unescape};
use std::alloc::{AllocError, Global};

// Whether the parts of a string are the wanted ones, interpolations as they are written.
fn are_texts(parts: &[InterpolPart<'_, String>], wanted: &[&str]) -> bool {
    let same = parts.iter().zip(wanted).all(|(part, text)| match part {
        InterpolPart::Literal(literal) => literal.as_str() == *text,
        InterpolPart::Interpolation(node) => node.syntax().text() == *text,
    });
    same && parts.len() == wanted.len()
}

// Whether the parts of a path are the wanted ones, interpolations as they are written.
fn are_pieces(parts: &[InterpolPart<'_, PathContent<'_>>], wanted: &[&str]) -> bool {
    let same = parts.iter().zip(wanted).all(|(part, text)| match part {
        InterpolPart::Literal(literal) => literal.text() == *text,
        InterpolPart::Interpolation(node) => node.syntax().text() == *text,
    });
    same && parts.len() == wanted.len()
}

// Whether the normalized parts of a parsed string are the wanted ones; `None` if memory is refused.
fn has_texts(alloc: Global, read: &Parse, wanted: &[&str]) -> Option<bool> {
    let Some(Expr::Str(string)) = read.tree().expr() else {
        return Some(false);
    };
    let parts = string.normalized_parts(alloc).ok()?;
    Some(are_texts(&parts, wanted))
}

// Whether the parts of a parsed path are the wanted ones; `None` if memory is refused.
fn has_pieces(alloc: Global, read: &Parse, wanted: &[&str]) -> Option<bool> {
    let Some(Expr::PathRel(path)) = read.tree().expr() else {
        return Some(false);
    };
    let parts = path.parts(alloc).ok()?;
    Some(are_pieces(&parts, wanted))
}

#[test]
fn parts_of_an_indented_string_are_asked_for_again(rt: HostRuntime) -> Result<(), AllocError> {
    let mut refused = false;
    let wanted = ["", "${x}", "\n y"];
    let read = read_again(&rt, rt.alloc(), "''\n  ${x}\n   y''", &mut refused)?;
    let mut holds = has_texts(rt.alloc(), &read, &wanted);
    if holds.is_none() {
        refused = true;
        holds = has_texts(rt.alloc(), &read, &wanted);
    }
    assert!(rt; holds == Some(true));
    report_refusal(refused)
}

#[test]
fn parts_of_a_path_are_asked_for_again(rt: HostRuntime) -> Result<(), AllocError> {
    let mut refused = false;
    let wanted = ["./a", "${x}", "~/b"];
    let read = read_again(&rt, rt.alloc(), "./a${x}~/b", &mut refused)?;
    let mut holds = has_pieces(rt.alloc(), &read, &wanted);
    if holds.is_none() {
        refused = true;
        holds = has_pieces(rt.alloc(), &read, &wanted);
    }
    assert!(rt; holds == Some(true));
    report_refusal(refused)
}

// Whether a text, unescaped, is the wanted one; `None` if memory is refused.
fn stands_for(alloc: Global, text: &str, multiline: bool, wanted: &str) -> Option<bool> {
    let value = unescape(alloc, text, multiline).ok()?;
    Some(value.as_str() == wanted)
}

#[test]
fn values_of_texts_are_asked_for_again(rt: HostRuntime) -> Result<(), AllocError> {
    let mut refused = false;
    let cases = [
        ("Hello\\n\\\"World\\\" :D", false, "Hello\n\"World\" :D"),
        ("Hello''\\n'''World''' :D", true, "Hello\n''World'' :D"),
    ];
    for (text, multiline, wanted) in cases {
        let mut holds = stands_for(rt.alloc(), text, multiline, wanted);
        if holds.is_none() {
            refused = true;
            holds = stands_for(rt.alloc(), text, multiline, wanted);
        }
        assert!(rt; holds == Some(true));
    }
    report_refusal(refused)
}
