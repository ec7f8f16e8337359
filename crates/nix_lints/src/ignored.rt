//! Findings that the comment `# nix-check: ignore CODE` on the line before leaves out.

ghost use Rattle.std.specs.Prelude.{◌≡◌, ◌+◌, ◌≤◌, ◌<◌, List, ℕ, length, min, IfOk};
ghost use Rattle.nix_lints.specs.Ignored.{is_blank, is_separator, ends_before, begins_with_name, has_name, without_blanks, names_of};
ghost use Rattle.nix_lints.specs.Ignored.{AreMarks, IsAt, is_marked};

use nix_diagnostics::{CODES, Code};
use std::alloc::{AllocError, Global};

// How a comment that leaves out findings begins; the names follow.
const MARKER: &[u8] = b"# nix-check: ignore";

// Returns whether a byte is a space, a tab or a carriage return.
fn is_blank(byte: u8) -> bool
    ensures { result ≡ is_blank byte }
{
    byte == b' ' || byte == b'\t' || byte == b'\r'
}

// Returns whether a byte separates names.
fn is_separator(byte: u8) -> bool
    ensures { result ≡ is_separator byte }
{
    is_blank(byte) || byte == b','
}

// Returns whether a name ends before a text.
fn ends_before(text: &[u8]) -> bool
    ensures { result ≡ ends_before text.now }
{
    match text.first() {
        Some(byte) => is_separator(*byte),
        None => true,
    }
}

// Returns whether a text begins with a whole name.
fn begins_with_name(text: &[u8], name: &[u8]) -> bool
    ensures { result ≡ begins_with_name text.now name.now }
{
    text.starts_with(name) && ends_before(&text[name.len()..])
}

// Returns whether a name is among those in a text, each of which follows a separator.
fn has_name(text: &[u8], name: &[u8]) -> bool
    ensures { result ≡ has_name text.now name.now }
{
    for number in 0..text.len() {
        if is_separator(text[number]) && begins_with_name(&text[number + 1..], name) {
            return true;
        }
    }
    false
}

// Returns a line without the blanks before it.
fn without_blanks(line: &[u8]) -> &[u8]
    ensures { result.now ≡ without_blanks line.now }
{
    for number in 0..line.len() {
        if !is_blank(line[number]) {
            return &line[number..];
        }
    }
    &[]
}

// Returns the names in a line, if it is such a comment.
fn names_of(line: &[u8]) -> &[u8]
    ensures { result.now ≡ names_of line.now }
{
    let comment = without_blanks(line);
    if comment.starts_with(MARKER) {
        &comment[MARKER.len()..]
    } else {
        &[]
    }
}

// Returns, for each code by its number, whether its name is among those in a text; nothing for an empty text, which has no names.
fn marks_of(alloc: Global, names: &[u8]) -> Result<Vec<bool>, AllocError>
    ensures { IfOk result (λ marks. AreMarks names.now marks.items) }
{
    let mut marks = Vec::new(alloc);
    if names.is_empty() {
        return Ok(marks);
    }
    for code in &CODES {
        marks.push(has_name(names, code.name().as_bytes()))?;
    }
    Ok(marks)
}

/// A place in a text, and the lints that the line before that of the place leaves out.
#[derive(Drop)]
pub struct Place<'t> {
    text: &'t [u8],
    // The place.
    offset: usize,
    // Where its line starts.
    start: usize,
    // For each code by its number, whether the line before leaves it out.
    marks: Vec<bool>,
}

impl<'t> Place<'t> {
    /// Returns the start of a text.
    pub fn new(alloc: Global, text: &'t [u8]) -> Place<'t>
        ensures start { IsAt text.now 0 result }
        ensures order { result.start ≤ result.offset }
    {
        Place {
            text,
            offset: 0,
            start: 0,
            marks: Vec::new(alloc),
        }
    }

    // Returns the place after the next byte.
    fn after_byte(self, alloc: Global) -> Result<Place<'t>, AllocError>
        requires within { self.offset < length self.text.now }
        requires order { self.start ≤ self.offset }
        ensures text { IfOk result (λ place. place.text.now ≡ self.entry.text.now) }
        ensures moved { IfOk result (λ place. place.offset ≡ self.entry.offset + 1) }
        ensures order { IfOk result (λ place. place.start ≤ place.offset) }
        ensures lines { IfOk result (λ place. (text : List ℕ) (offset : ℕ) → IsAt text offset self.entry → IsAt text (offset + 1) place) }
    {
        let offset = self.offset + 1;
        if self.text[self.offset] == b'\n' {
            let marks = marks_of(alloc, names_of(&self.text[self.start..self.offset]))?;
            return Ok(Place {
                text: self.text,
                offset,
                start: offset,
                marks,
            });
        }
        Ok(Place {
            text: self.text,
            offset,
            start: self.start,
            marks: self.marks,
        })
    }

    /// Returns the place at an offset that is not before it, or at the end of the text. Looks at each byte between once.
    pub fn advance(self, alloc: Global, offset: usize) -> Result<Place<'t>, AllocError>
        requires { self.start ≤ self.offset }
        ensures order { IfOk result (λ place. place.start ≤ place.offset) }
        ensures lines { IfOk result (λ place. (text : List ℕ) (old : ℕ) → IsAt text old self.entry → old ≤ offset →
            IsAt text (min offset (length text)) place) }
    {
        let end = offset.min(self.text.len());
        let mut place = self;
        while place.offset < end {
            place = place.after_byte(alloc)?;
        }
        Ok(place)
    }

    /// Returns whether the line before leaves out a lint.
    pub fn leaves_out(&self, code: Code) -> bool
        ensures { result ≡ is_marked self.now code }
    {
        match self.marks.get(code as usize) {
            Some(mark) => *mark,
            None => false,
        }
    }
}
