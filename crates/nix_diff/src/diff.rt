//! The difference of two texts, line by line.

ghost use Rattle.std.specs.Prelude.{◌≡◌, ◌++◌, ◌∷◌, [], ◌≤◌, length, true, Some, IfOk, OnOk};
ghost use Rattle.nix_diff.specs.Diff.{lines_of, old_lines, new_lines, texts_of, AddsLines, IsDiff};
ghost use Rattle.nix_diff.specs.Applied.{applied, reversed};
ghost use Rattle.nix_diff.specs.Hunks.{is_common, is_old, is_new};

use std::alloc::{AllocError, Global};

/// A line of a diff, with the line feed that ends it.
#[derive(Clone, Copy, PartialEq, Eq)]
pub enum DiffLine<'t> {
    /// A line of both texts.
    Common(&'t str),
    /// A line of the old text only.
    Removed(&'t str),
    /// A line of the new text only.
    Added(&'t str),
}

impl<'t> DiffLine<'t> {
    /// Returns whether it is a line of both texts.
    pub fn is_common(&self) -> bool
        ensures { result ≡ is_common self.now }
    {
        matches!(self, DiffLine::Common(_))
    }

    /// Returns whether it is a line of the old text.
    pub fn is_old(&self) -> bool
        ensures { result ≡ is_old self.now }
    {
        !matches!(self, DiffLine::Added(_))
    }

    /// Returns whether it is a line of the new text.
    pub fn is_new(&self) -> bool
        ensures { result ≡ is_new self.now }
    {
        !matches!(self, DiffLine::Removed(_))
    }
}

// A line of a text, and the numbers of bytes before it and up to its end, leaving out white space, commas and the bytes that mark comments. A text and its
// formatted text have the same other bytes, so lines correspond if these numbers are equal.
#[derive(Clone, Copy)]
struct Line<'t> {
    text: &'t str,
    start: usize,
    end: usize,
}

// Returns whether a formatted text may have more or less of a byte: white space, commas, and the bytes that mark comments.
fn may_differ(byte: u8) -> bool {
    byte.is_ascii_whitespace() || matches!(byte, b',' | b'#' | b'/' | b'*')
}

// Returns the number of the other bytes of a line.
fn weight(line: &str) -> usize {
    line.bytes().filter(|byte| !may_differ(*byte)).count()
}

// Returns the lines of a text.
fn lines_of<'t>(alloc: Global, text: &'t str) -> Result<Vec<Line<'t>>, AllocError>
    ensures { IfOk result (λ lines. texts_of lines.items ≡ lines_of text.now) }
{
    let mut lines = Vec::new(alloc);
    let mut end = 0usize;
    for line in text.split_inclusive('\n') {
        let start = end;
        end = end.saturating_add(weight(line));
        lines.push(Line {
            text: line,
            start,
            end,
        })?;
    }
    Ok(lines)
}

impl<'t> Line<'t> {
    // Returns whether the line comes before a line of the other text.
    fn precedes(&self, other: &Line<'_>) -> bool {
        self.start < other.start || (self.start == other.start && self.end < other.end)
    }

    // Returns whether the line equals a line of the other text, with the same number of such bytes before it.
    fn is_same(&self, other: &Line<'_>) -> bool
        ensures { result ≡ true → self.now.text.now ≡ other.now.text.now }
    {
        self.start == other.start && self.text == other.text
    }
}

// Returns the number of lines that come before a line of the other text.
fn count_before(lines: &[Line<'_>], other: &Line<'_>) -> usize
    ensures { result ≤ length lines.now }
{
    lines.partition_point(|line: &Line<'_>| -> bool { line.precedes(other) })
}

// Adds lines of the new text to a diff.
#[tactic(auto, using(crate::proofs::DiffLemmas::old_more, crate::proofs::DiffLemmas::new_more))]
fn add_new<'t>(diff: &mut Vec<DiffLine<'t>>, news: &[Line<'t>]) -> Result<(), AllocError>
    ensures olds { OnOk result (old_lines diff.new.items ≡ old_lines diff.old.items) }
    ensures news { OnOk result (new_lines diff.new.items ≡ new_lines diff.old.items ++ texts_of news.now) }
{
    for line in news {
        diff.push(DiffLine::Added(line.text))?;
    }
    Ok(())
}

// Adds a line of the old text to a diff: as a common line, after the lines of the new text before it, or as a removed one. Returns the number of lines of
// the new text that were added.
fn add_old<'t>(
    diff: &mut Vec<DiffLine<'t>>,
    line: &Line<'t>,
    news: &[Line<'t>],
) -> Result<usize, AllocError>
    ensures olds { OnOk result (old_lines diff.new.items ≡ old_lines diff.old.items ++ line.now.text.now ∷ []) }
    ensures within { IfOk result (λ count. count ≤ length news.now) }
    ensures news { IfOk result (AddsLines diff.old.items diff.new.items news.now) }
{
    let before = count_before(news, line);
    if before < news.len() && news[before].is_same(line) {
        add_new(diff, &news[..before])?;
        diff.push(DiffLine::Common(line.text))?;
        return Ok(before + 1);
    }
    diff.push(DiffLine::Removed(line.text))?;
    Ok(0)
}

// Returns the difference of two texts, as `line_diff` does.
fn diff_of<'t>(alloc: Global, old: &'t str, new: &'t str) -> Result<Vec<DiffLine<'t>>, AllocError>
    ensures { IfOk result (λ diff. IsDiff old.now new.now diff.items) }
{
    let olds = lines_of(alloc, old)?;
    let news = lines_of(alloc, new)?;
    let mut diff = Vec::new(alloc);
    let mut done = 0usize;
    for line in &olds {
        done += add_old(&mut diff, line, &news[done..])?;
    }
    add_new(&mut diff, &news[done..])?;
    Ok(diff)
}

/// Returns the difference of two texts. In each run of lines that differ, the removed ones come before the added ones.
///
/// Lines are common if they are equal and the same number of bytes precedes them, leaving out white space, commas and the bytes that mark comments. The
/// difference is right for any two texts, and short if they differ only in these.
#[tactic(auto, using(crate::proofs::AppliedDiffs::diff_applies, crate::proofs::AppliedDiffs::diff_reverses))]
pub fn line_diff<'t>(
    alloc: Global,
    old: &'t str,
    new: &'t str,
) -> Result<Vec<DiffLine<'t>>, AllocError>
    // The common and the removed lines are those of the old text, the common and the added ones those of the new text.
    ensures lines { IfOk result (λ diff. IsDiff old.now new.now diff.items) }
    // Applied to the old text, it makes the new one.
    ensures applies { IfOk result (λ diff. applied diff.items old.now ≡ Some new.now) }
    // Applied backwards to the new text, it makes the old one.
    ensures reverses { IfOk result (λ diff. applied (reversed diff.items) new.now ≡ Some old.now) }
{
    let diff = diff_of(alloc, old, new)?;
    Ok(diff)
}
