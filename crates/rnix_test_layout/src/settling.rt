//! Texts whose first layout would change when they are formatted again.

use crate::formatted::styled_text;
use nix_formatting::{Formatting, formatted};
use std::alloc::{AllocError, Global};
use std::process::Abort;
use std::test::Fail;

// Texts whose first line end is not written, and whose other line ends follow comments with `#`, which end in another way.
const TEXTS: [&str; 6] = [
    "\n# a\r\n\n\nb # c\r\n",
    "\r\n# a\n\n\nb # c\n",
    "\n#\r\n\na# a\r\n#\r\n\n\n",
    "\r\n# a\n\n{ } #\r\n# a\r\n",
    "\n# a\r\n\n\nf # b\r\n /* c */ d # e\r\n",
    "\r\n# a\n\n\n/* b */ # c\n\n\n''\n  d\n'' # e\n",
];

// Returns the formatted text, or an empty one if there is none.
fn formatted_text(alloc: Global, text: &str) -> Result<String, AllocError> {
    match formatted(alloc, text)? {
        Formatting::Formatted(made) | Formatting::Retokened(made) => Ok(made),
        _ => Ok(String::new(alloc)),
    }
}

// Checks that a text's first layout is not the final one, and that the final one stays the same when it is formatted.
fn check(rt: &(impl Abort + AllocGlobal), text: &str) -> Result<(), AllocError> {
    let made = formatted_text(rt.alloc(), text)?;
    let again = formatted_text(rt.alloc(), made.as_str())?;
    assert!(rt; !made.as_str().is_empty(), "{text}");
    assert!(rt; again.as_str() == made.as_str(), "{text}");
    let Some(styled) = styled_text(rt.alloc(), text)? else {
        return Ok(());
    };
    assert!(rt; !styled.is_stable, "{text}");
    assert!(rt; styled.text.as_str() != made.as_str(), "{text}");
    Ok(())
}

#[test]
fn texts_are_formatted_until_they_stay_the_same(rt: HostRuntime) -> Result<(), Fail> {
    for text in TEXTS {
        check(&rt, text)?;
    }
    Ok(())
}
