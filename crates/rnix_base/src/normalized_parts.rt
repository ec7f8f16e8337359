//! The parts of a string, normalized.

ghost use Rattle.std.specs.Prelude.{◌≡◌, IfOk};
ghost use Rattle.rnix_base.specs.Normal.{opened, indented_parts, quoted_parts, borrowed, owned};

use crate::escapes::unescape;
use crate::indent::{behind_blank, least_indentation, unindented, without_last_spaces};
use crate::parts::InterpolPart;
use std::alloc::{AllocError, Global};

/// Returns the parts without the spaces and the line feed at the start of the first.
pub(crate) fn opened<'t, I: Drop>(
    parts: Vec<InterpolPart<&'t str, I>>,
) -> Vec<InterpolPart<&'t str, I>>
    ensures { borrowed result.items ≡ opened (borrowed parts.entry.items) }
{
    let mut parts = parts;
    let Some(InterpolPart::Literal(text)) = parts.first() else {
        return parts;
    };
    let Some(rest) = behind_blank(text) else {
        return parts;
    };
    if rest.is_empty() {
        parts.remove(0);
        return parts;
    }
    parts[0] = InterpolPart::Literal(rest);
    parts
}

/// Returns the parts of a string in `''` without indentation and with their escapes replaced.
pub fn indented_parts<'t, I: Drop>(
    alloc: Global,
    parts: Vec<InterpolPart<&'t str, I>>,
) -> Result<Vec<InterpolPart<String, I>>, AllocError>
    ensures { IfOk result (λ normal. owned normal.items ≡ indented_parts (borrowed parts.entry.items)) }
{
    let parts = opened(parts);
    let least = least_indentation(&parts);
    let mut remaining = least;
    let mut rest = parts.into_iter();
    let mut normal = Vec::new(alloc);
    while let Some(part) = rest.next() {
        match part {
            InterpolPart::Literal(text) => {
                let (text, after) = unindented(alloc, text, least, remaining)?;
                remaining = after;
                let text = if rest.len() == 0 {
                    without_last_spaces(text.as_str())
                } else {
                    text.as_str()
                };
                normal.push(InterpolPart::Literal(unescape(alloc, text, true)?))?;
            }
            InterpolPart::Interpolation(interpolation) => {
                remaining = 0;
                normal.push(InterpolPart::Interpolation(interpolation))?;
            }
        }
    }
    Ok(normal)
}

/// Returns the parts of a string in `"` with their escapes replaced.
pub fn quoted_parts<'t, I: Drop>(
    alloc: Global,
    parts: Vec<InterpolPart<&'t str, I>>,
) -> Result<Vec<InterpolPart<String, I>>, AllocError>
    ensures { IfOk result (λ normal. owned normal.items ≡ quoted_parts (borrowed parts.entry.items)) }
{
    let mut rest = parts.into_iter();
    let mut normal = Vec::new(alloc);
    while let Some(part) = rest.next() {
        match part {
            InterpolPart::Literal(text) => {
                normal.push(InterpolPart::Literal(unescape(alloc, text, false)?))?;
            }
            InterpolPart::Interpolation(interpolation) => {
                normal.push(InterpolPart::Interpolation(interpolation))?;
            }
        }
    }
    Ok(normal)
}
