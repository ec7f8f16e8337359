//! Texts that nest deep.

use crate::parsed::Parsed;
use rnix_grammar::ParseError;
use std::alloc::{AllocError, Global};
use std::test::Fail;

// `turns` times `part`.
fn repeat(text: &mut String, part: &str, turns: usize) -> Result<(), AllocError> {
    for _turn in 0..turns {
        text.push_str(part)?;
    }
    Ok(())
}

// `opened` opening parentheses, `1`, and `closed` closing ones.
fn nested(alloc: Global, opened: usize, closed: usize) -> Result<String, AllocError> {
    let mut text = String::new(alloc);
    repeat(&mut text, "(", opened)?;
    text.push_str("1")?;
    repeat(&mut text, ")", closed)?;
    Ok(text)
}

// How many errors a text has, and whether the first of them is that it nests too deep. A text that the tree does not hold has none.
fn errors_in(alloc: Global, text: &str) -> Result<Option<(usize, bool)>, AllocError> {
    let read = Parsed::new(alloc, text)?;
    if read.syntax().text() != text {
        return Ok(None);
    }
    let errors = read.errors();
    let is_deep = errors.first() == Some(&ParseError::RecursionLimitExceeded);
    Ok(Some((errors.len(), is_deep)))
}

#[test]
fn parentheses_nest_up_to_the_limit(rt: HostRuntime) -> Result<(), Fail> {
    let cases = [
        (511, 511, (0, false)),
        (512, 512, (513, true)),
        (512, 0, (513, true)),
    ];
    for (opened, closed, wanted) in cases {
        let text = nested(rt.alloc(), opened, closed)?;
        let found = errors_in(rt.alloc(), text.as_str())?;
        assert!(rt; found == Some(wanted), "of {opened} and {closed}");
    }
    Ok(())
}

// The size of a tree with as many elements as its tokens allow: `{${` 511 times, and where nothing more may nest `if`, whose three parts are missing.
fn largest_size(alloc: Global) -> Result<usize, AllocError> {
    let mut text = String::new(alloc);
    repeat(&mut text, "{${", 511)?;
    text.push_str("if")?;
    let read = Parsed::new(alloc, text.as_str())?;
    Ok(read.syntax().descendants_with_tokens().count())
}

#[test]
fn a_tree_has_three_elements_for_each_token_and_three_more(rt: HostRuntime) -> Result<(), Fail> {
    let tokens = 2 * 511 + 1;
    assert!(rt; largest_size(rt.alloc())? == 3 * tokens + 3);
    Ok(())
}
