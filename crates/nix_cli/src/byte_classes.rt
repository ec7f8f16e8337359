//! Classes of bytes in patterns, as `[a-z]`.

use std::alloc::{AllocError, Global};

// The classes that have names, as in `[[:alpha:]]`, each with its ranges, which include their ends.
const NAMED: &[(&str, &[(u8, u8)])] = &[
    ("alnum", &[(b'0', b'9'), (b'A', b'Z'), (b'a', b'z')]),
    ("alpha", &[(b'A', b'Z'), (b'a', b'z')]),
    ("blank", &[(b'\t', b'\t'), (b' ', b' ')]),
    ("cntrl", &[(0, 31), (127, 127)]),
    ("digit", &[(b'0', b'9')]),
    ("graph", &[(33, 126)]),
    ("lower", &[(b'a', b'z')]),
    ("print", &[(32, 126)]),
    ("punct", &[(33, 47), (58, 64), (91, 96), (123, 126)]),
    ("space", &[(9, 13), (b' ', b' ')]),
    ("upper", &[(b'A', b'Z')]),
    ("xdigit", &[(b'0', b'9'), (b'A', b'F'), (b'a', b'f')]),
];

/// A class: the bytes in some ranges, or those outside of them.
#[derive(Drop)]
pub struct ByteClass {
    ranges: Vec<(u8, u8)>,
    is_negated: bool,
}

// Returns the ranges of the class with a name.
fn named(name: &[u8]) -> Option<&'static [(u8, u8)]> {
    for (own, ranges) in NAMED {
        if own.as_bytes() == name {
            return Some(*ranges);
        }
    }
    None
}

// Returns the offset of the first `]` from an offset on.
fn closing_from(text: &[u8], from: usize) -> Option<usize> {
    let inside = text.get(from..)?.iter().position(|byte| *byte == b']')?;
    from.checked_add(inside)
}

// Returns the name of a class that begins at an offset with `[:` and ends with `:` before the next `]`, which has the offset `closing`.
fn name_at(text: &[u8], at: usize, closing: usize) -> Option<&[u8]> {
    let inside = text.get(at..closing)?.strip_prefix(b"[:")?;
    inside.strip_suffix(b":")
}

// Returns the byte at an offset, and the offset after it. A backslash quotes the byte after it.
fn byte_at(text: &[u8], at: usize) -> Option<(u8, usize)> {
    let first = *text.get(at)?;
    let next = at.checked_add(1)?;
    if first != b'\\' {
        return Some((first, next));
    }
    Some((*text.get(next)?, next.checked_add(1)?))
}

// Returns the range that begins at an offset, and the offset after it: a byte, or two with `-` between them. The first byte is in the range in any case.
fn range_at(text: &[u8], at: usize) -> Option<((u8, u8), usize)> {
    let (first, next) = byte_at(text, at)?;
    let after = next.checked_add(1)?;
    if text.get(next) != Some(&b'-') || text.get(after).is_none_or(|byte| *byte == b']') {
        return Some(((first, first), next));
    }
    let (last, end) = byte_at(text, after)?;
    Some(((first, last.max(first)), end))
}

impl ByteClass {
    // Adds what begins at an offset, and returns the offset after it, or None if the class is broken there. The next `]` has the offset `closing`.
    fn add(&mut self, text: &[u8], at: usize, closing: usize) -> Result<Option<usize>, AllocError> {
        if let Some(name) = name_at(text, at, closing) {
            let Some(ranges) = named(name) else {
                return Ok(None);
            };
            self.ranges.extend_from_slice(ranges)?;
            return Ok(closing.checked_add(1));
        }
        let Some((range, end)) = range_at(text, at) else {
            return Ok(None);
        };
        self.ranges.push(range)?;
        Ok(Some(end))
    }

    /// Returns the class whose first byte after `[` has an offset, and the offset after its `]`. Returns None if it is not closed, or has a name that no class
    /// has.
    pub fn read(
        alloc: Global,
        text: &[u8],
        at: usize,
    ) -> Result<Option<(ByteClass, usize)>, AllocError> {
        let is_negated = matches!(text.get(at), Some(b'!' | b'^'));
        let first = if is_negated { at.saturating_add(1) } else { at };
        let mut class = ByteClass {
            ranges: Vec::new(alloc),
            is_negated,
        };
        let mut end = first;
        // It is looked for again only when it was passed, so that each byte is looked at once.
        let mut closing = closing_from(text, first);
        for _range in first..text.len() {
            if end > first && text.get(end) == Some(&b']') {
                return Ok(Some((class, end.saturating_add(1))));
            }
            if closing.is_some_and(|at| at < end) {
                closing = closing_from(text, end);
            }
            let Some(at) = closing else {
                return Ok(None);
            };
            let Some(next) = class.add(text, end, at)? else {
                return Ok(None);
            };
            end = next;
        }
        Ok(None)
    }

    /// Returns whether a byte is in the class.
    pub fn contains(&self, byte: u8) -> bool {
        let mut is_in = false;
        for (first, last) in &self.ranges {
            is_in = is_in || (*first <= byte && byte <= *last);
        }
        is_in != self.is_negated
    }
}
