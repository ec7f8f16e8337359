//! Tokens that are requested again after memory was refused.

use crate::again::report_refusal;
use rnix::{Token, Tokenizer, tokenize};
use std::alloc::{AllocError, Global};
use std::process::Abort;

// The next token, requested again if memory was refused. A refusal leaves the rest of the text as it was.
fn next_again<'a>(
    rt: &impl Abort,
    tokens: &mut Tokenizer<'a>,
    refused: &mut bool,
) -> Option<Token<'a>> {
    let text = tokens.rest();
    if let Ok(token) = tokens.next_token()? {
        return Some(token);
    }
    *refused = true;
    assert!(rt; tokens.rest() == text);
    tokens.next_token()?.ok()
}

// Checks that two tokenizers return the same tokens of a text. At most one of them is refused memory.
fn are_asked_for_again(rt: &impl Abort, alloc: Global, text: &str) -> Result<(), AllocError> {
    let mut refused = false;
    let mut tokens = tokenize(alloc, text);
    let mut others = tokenize(alloc, text);
    for _byte in 0..text.len() {
        let token = next_again(rt, &mut tokens, &mut refused);
        let other = next_again(rt, &mut others, &mut refused);
        assert!(rt; token == other);
    }
    assert!(rt; tokens.rest().is_empty() && others.rest().is_empty());
    report_refusal(refused)
}

#[test]
fn tokens_of_a_string_are_asked_for_again(rt: HostRuntime) -> Result<(), AllocError> {
    are_asked_for_again(&rt, rt.alloc(), "\"a${{}}b\"")
}

#[test]
fn tokens_of_an_indented_string_are_asked_for_again(rt: HostRuntime) -> Result<(), AllocError> {
    are_asked_for_again(&rt, rt.alloc(), "''a'''b''$c''\\nd''")
}
