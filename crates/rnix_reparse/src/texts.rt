//! Texts with an edit.

ghost use Rattle.std.specs.Prelude.{◌≡◌, string_bytes, IfOk};
ghost use Rattle.std.specs.Str.{IsCharBoundary};
ghost use Rattle.rnix_reparse.specs.EditedRange.{edited};

use std::alloc::{AllocError, Global};

/// Returns a text up to `start`, then a replacement, then the text from `end` on.
pub fn edited_text(
    alloc: Global,
    text: &str,
    start: usize,
    end: usize,
    replacement: &str,
) -> Result<String, AllocError>
    requires start { IsCharBoundary text.now start }
    requires end { IsCharBoundary text.now end }
    ensures { IfOk result (λ new. string_bytes new ≡ edited record { start = start; end = end } replacement.now text.now) }
{
    let mut new = String::new(alloc);
    new.push_str(&text[..start])?;
    new.push_str(replacement)?;
    new.push_str(&text[end..])?;
    Ok(new)
}
