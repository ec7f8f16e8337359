//! How much is printed of a text.

use rnix_print::print_text;
use std::alloc::{AllocError, Global};
use std::test::Fail;

// How many copies of a part a text has: each of them may open a level.
const COPIES: usize = 3000;

// The most bytes that are printed for each byte of a text.
const MOST: usize = 500;

// A text of many copies of a part.
fn copies(alloc: Global, part: &str) -> Result<String, AllocError> {
    let mut text = String::new(alloc);
    for _copy in 0..COPIES {
        text.push_str(part)?;
    }
    Ok(text)
}

// Whether what is printed of a text is in proportion to it.
fn is_in_proportion(alloc: Global, text: &str) -> Result<bool, AllocError> {
    let mut out = Vec::new(alloc);
    let is_printed = print_text(alloc, text, &mut out).is_ok();
    Ok(is_printed && out.len() <= text.len().saturating_mul(MOST))
}

#[test]
fn deep_trees_are_printed_in_proportion_to_their_texts(rt: HostRuntime) -> Result<(), Fail> {
    let parts = [
        "f ", "1+", "a or ", "a->", "!", "(", "[", "{a=", "\"${", "x: ",
    ];
    for part in parts {
        let text = copies(rt.alloc(), part)?;
        assert!(rt; is_in_proportion(rt.alloc(), text.as_str())?);
    }
    Ok(())
}
