//! Concatenated texts.

ghost use Rattle.std.specs.Prelude.{◌≡◌, ◌++◌, string_bytes, IfOk};

use std::alloc::{AllocError, Global};

/// Returns the concatenation of three texts.
pub fn joined(alloc: Global, before: &str, new: &str, after: &str) -> Result<String, AllocError>
    ensures { IfOk result (λ text. string_bytes text ≡ before.now ++ (new.now ++ after.now)) }
{
    let mut text = String::from_str(alloc, before)?;
    text.push_str(new)?;
    text.push_str(after)?;
    Ok(text)
}
