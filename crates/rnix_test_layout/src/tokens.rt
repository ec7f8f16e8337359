//! What `formatted` says of the tokens of its texts.

use nix_formatting::{Formatting, formatted};
use std::alloc::{AllocError, Global};
use std::process::Abort;
use std::test::Fail;

// Texts whose formatted texts have the same tokens, except for white space and the contents of strings in `''`.
const KEPT: [&str; 8] = [
    "[ a ]",
    "{ a, b }: a",
    "{ a\n, b\n, ... }: a",
    "{\n  a,\n  b,\n}:\na\n",
    "{ a, b, c, }: a",
    "# a\n[ /* b */ c ]",
    "{ a = ''\nb\n''; }",
    "/** a */\nb",
];

// Texts whose formatted texts differ in commas or in the marks of comments too, and these.
const CHANGED: [(&str, &str); 8] = [
    ("{ a, b, c }: a", "{\n  a,\n  b,\n  c,\n}:\na\n"),
    ("{ a ? b }: a", "{\n  a ? b,\n}:\na\n"),
    ("{ a\n, b # c\n}: a", "{\n  a,\n  b, # c\n}:\na\n"),
    ("{ a # b\n, c }: a", "{\n  a, # b\n  c,\n}:\na\n"),
    ("{ a /* b */, c }: a", "{ a, /* b */ c }: a\n"),
    ("/* a */\nb", "# a\nb\n"),
    ("[ a /*b*/\n]", "[\n  a # b\n]\n"),
    ("/* a */\r\nb\r\n", "# a\r\nb\r\n"),
];

// Returns whether the formatted text has the same tokens.
fn has_same_tokens(alloc: Global, text: &str) -> Result<bool, AllocError> {
    Ok(match formatted(alloc, text)? {
        Formatting::Formatted(_) => true,
        _ => false,
    })
}

// Returns the formatted text if it has other tokens.
fn retokened(alloc: Global, text: &str) -> Result<Option<String>, AllocError> {
    Ok(match formatted(alloc, text)? {
        Formatting::Retokened(made) => Some(made),
        _ => None,
    })
}

// Checks that a text with other tokens is this one, and that its tokens stay when it is formatted again.
fn check_changed(
    rt: &(impl Abort + AllocGlobal),
    text: &str,
    wanted: &str,
) -> Result<(), AllocError> {
    let made = retokened(rt.alloc(), text)?;
    assert!(rt; made.is_some_and(|made| made.as_str() == wanted), "{text}");
    assert!(rt; has_same_tokens(rt.alloc(), wanted)?, "{text}");
    Ok(())
}

#[test]
fn texts_that_keep_their_tokens_are_formatted(rt: HostRuntime) -> Result<(), Fail> {
    for text in KEPT {
        assert!(&rt; has_same_tokens(rt.alloc(), text)?, "{text}");
    }
    Ok(())
}

#[test]
fn texts_with_other_commas_or_comments_are_retokened(rt: HostRuntime) -> Result<(), Fail> {
    for (text, wanted) in CHANGED {
        check_changed(&rt, text, wanted)?;
    }
    Ok(())
}
