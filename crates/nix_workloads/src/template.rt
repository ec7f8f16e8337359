//! Templates of texts.

use std::alloc::{AllocError, Global};

/// What is in a text for a sign of its template.
#[derive(Clone, Copy)]
pub enum Sign {
    /// A word, the same one for the same letter in one use of the template.
    Word(u8),
    /// A number below 1000, the same one for the same digit in one use of the template.
    Number(u8),
    /// The number of templates before this one in the text.
    Count,
}

/// A text, and the sign after it.
#[derive(Clone, Copy)]
pub struct Part {
    /// The text.
    pub text: &'static str,
    /// The sign.
    pub sign: Sign,
}

/// A template. In its text, `%` and a small letter stand for a word, `%` and a digit for a number, and `%%` for the number of templates before it.
#[derive(Drop)]
pub struct Template {
    parts: Vec<Part>,
    end: &'static str,
}

// Returns the sign of the byte after a `%`.
fn sign_of(byte: u8) -> Sign {
    match byte {
        b'0'..=b'9' => Sign::Number(byte),
        b'%' => Sign::Count,
        _ => Sign::Word(byte),
    }
}

impl Template {
    /// Reads a template.
    pub fn new(alloc: Global, text: &'static str) -> Result<Template, AllocError> {
        let mut parts = Vec::new(alloc);
        let (mut from, mut at) = (0usize, 0usize);
        for byte in text.bytes() {
            if byte == b'%' && from <= at {
                let behind = text.as_bytes().get(at.saturating_add(1)).copied();
                parts.push(Part {
                    text: text.get(from..at).unwrap_or(""),
                    sign: sign_of(behind.unwrap_or(b'a')),
                })?;
                from = at.saturating_add(2);
            }
            at = at.saturating_add(1);
        }
        let end = text.get(from..).unwrap_or("");
        Ok(Template { parts, end })
    }

    /// Reads some templates.
    pub fn all(alloc: Global, texts: &[&'static str]) -> Result<Vec<Template>, AllocError> {
        let mut templates = Vec::new(alloc);
        for text in texts {
            templates.push(Template::new(alloc, text)?)?;
        }
        Ok(templates)
    }

    /// Its texts except for the last one, each with the sign after it.
    pub fn parts(&self) -> &[Part] {
        &self.parts
    }

    /// Its last text.
    pub fn end(&self) -> &'static str {
        self.end
    }
}
