//! A text with one range replaced.

ghost use Rattle.std.specs.Prelude.{◌≡◌, string_bytes, IfOk, IfSome, IfNone};
ghost use Rattle.nix_fixes.specs.Fixes.{bytes_between, spliced, new_text, IsOfCharacters};

use nix_diagnostics::Replacement;
use rnix::TextRange;
use std::alloc::{AllocError, Global};

// Returns the bytes of a range, if the range is in the text and at character boundaries.
fn bytes_of(text: &str, range: TextRange) -> Option<&str>
    ensures bytes { IfSome result (λ bytes. bytes.now ≡ bytes_between range.start range.end text.now) }
    ensures none { IfNone result (¬ IsOfCharacters text.now range) }
{
    text.get(range.start()..range.end())
}

/// Returns the new text of a replacement, if the bytes that it keeps are in the text and at character boundaries.
pub fn new_text(
    alloc: Global,
    text: &str,
    replacement: &Replacement,
) -> Result<Option<String>, AllocError>
    ensures new { IfOk result (λ new. IfSome new (λ new. string_bytes new ≡ new_text text.now replacement.now)) }
    ensures none { IfOk result (λ new. IfNone new (¬ IsOfCharacters text.now replacement.now.kept)) }
{
    let Some(kept) = bytes_of(text, replacement.kept) else {
        return Ok(None);
    };
    let mut new = String::from_str(alloc, replacement.before)?;
    new.push_str(kept)?;
    new.push_str(replacement.after)?;
    Ok(Some(new))
}

/// Returns the text with new bytes in place of those of a range, if the range is in the text and at character boundaries.
pub fn spliced(
    alloc: Global,
    text: &str,
    range: TextRange,
    new: &str,
) -> Result<Option<String>, AllocError>
    ensures made { IfOk result (λ made. IfSome made (λ made. string_bytes made ≡ spliced text.now range.start range.end new.now)) }
    ensures inside { IfOk result (λ made. IfSome made (λ _. IsOfCharacters text.now range)) }
    ensures none { IfOk result (λ made. IfNone made (¬ IsOfCharacters text.now range)) }
{
    let (start, end) = (range.start(), range.end());
    if !text.is_char_boundary(start) || !text.is_char_boundary(end) {
        return Ok(None);
    }
    let mut made = String::from_str(alloc, &text[..start])?;
    made.push_str(new)?;
    made.push_str(&text[end..])?;
    Ok(Some(made))
}
