//! Formatted texts, and whether they stay the same.

use nix_layout::{NewText, styled};
use rnix::Root;
use std::alloc::{AllocError, Global};
use std::process::Abort;

/// Returns an expression with another one in place of each `%`.
pub fn filled(alloc: Global, outer: &str, inner: &str) -> Result<String, AllocError> {
    let mut text = String::new(alloc);
    for letter in outer.chars() {
        if letter == '%' {
            text.push_str(inner)?;
        } else {
            text.push(letter)?;
        }
    }
    Ok(text)
}

/// Returns the text in the new layout, unless it has errors.
pub fn styled_text(alloc: Global, text: &str) -> Result<Option<NewText>, AllocError> {
    let parse = Root::parse(alloc, text)?;
    if !parse.errors().is_empty() {
        return Ok(None);
    }
    Ok(Some(styled(alloc, text, &parse.syntax())?))
}

/// Checks that a formatted text stays the same when it is formatted again, and is known to do so, unless the text has errors.
pub fn check_repeated(rt: &(impl Abort + AllocGlobal), text: &str) -> Result<(), AllocError> {
    let Some(made) = styled_text(rt.alloc(), text)? else {
        return Ok(());
    };
    let again = styled_text(rt.alloc(), made.text.as_str())?;
    assert!(rt;
        made.is_stable && again.is_some_and(|again| again.text.as_str() == made.text.as_str()),
        "{text}"
    );
    Ok(())
}
