//! A diff as text, in the unified format.

ghost use Rattle.std.specs.Prelude.{◌≡◌, ◌++◌, ◌∷◌, ◌+◌, ◌^◌, ◌<◌, ◌≤◌, ℕ, length, take, drop, IfOk, OnOk, MatchOption, string_bytes, codes, decimal};
ghost use Rattle.std.specs.List.{flat_map, prefix_len};
ghost use Rattle.nix_diff.specs.Hunks.{is_common, AreCommon, AreCounts, IsNextHunk, AreHunks};
ghost use Rattle.nix_diff.specs.Diff.{HasNoLineFeed};
ghost use Rattle.nix_diff.specs.Unified.{AreHeaderLinesOf, with_end, line_text, range_text, header_text, hunk_text, IsUnified};

use crate::diff::{DiffLine, line_diff};
use std::alloc::{AllocError, Global};

// The number of common lines that are printed before and after each change.
const CONTEXT: usize = 3;

// Numbers of lines of the old text and of the new one.
#[derive(Clone, Copy)]
struct Counts {
    olds: usize,
    news: usize,
}

// Lines of a diff that are printed together.
#[derive(Clone, Copy)]
struct Hunk {
    // The indices in the diff of its first line and of the line after its last one.
    first: usize,
    end: usize,
    // The number of lines of each text before it, and in it.
    before: Counts,
    counts: Counts,
}

// Returns the number of lines of each text in a part of a diff.
fn counts_of(lines: &[DiffLine<'_>]) -> Counts
    ensures { AreCounts lines.now result }
{
    Counts {
        olds: lines.iter().filter(|line| line.is_old()).count(),
        news: lines.iter().filter(|line| line.is_new()).count(),
    }
}

// Returns the number of common lines at the start of a part of a diff.
fn count_common(lines: &[DiffLine<'_>]) -> usize
    ensures count { result ≡ prefix_len is_common lines.now }
    ensures within { result ≤ length lines.now }
{
    lines.iter().take_while(|line| line.is_common()).count()
}

// Returns the number of lines up to the last change of a hunk, in a part of a diff that begins with a change. Two changes are in one hunk if at most
// `2 * CONTEXT` common lines are between them.
fn count_changed(lines: &[DiffLine<'_>]) -> usize
    requires { 0 < length lines.now }
    ensures some { 0 < result }
    ensures within { result ≤ length lines.now }
{
    let mut end = 1usize;
    for number in 0..lines.len() {
        if !lines[number].is_common() {
            end = number + 1;
        } else if number.saturating_sub(end) >= 2 * CONTEXT {
            break;
        }
    }
    end
}

// Returns the sum of two counts.
fn counts_with(before: Counts, more: Counts) -> Counts
    requires olds { before.olds + more.olds < 2 ^ 64 }
    requires news { before.news + more.news < 2 ^ 64 }
    ensures olds { result.olds ≡ before.olds + more.olds }
    ensures news { result.news ≡ before.news + more.news }
{
    Counts {
        olds: before.olds + more.olds,
        news: before.news + more.news,
    }
}

// Returns the first hunk from a line of the diff on, given the number of lines of each text before that line.
fn next_hunk(diff: &[DiffLine<'_>], index: usize, before: Counts) -> Option<Hunk>
    requires within { index ≤ length diff.now }
    requires before { AreCounts (take index diff.now) before }
    ensures { MatchOption result (AreCommon (drop index diff.now)) (IsNextHunk diff.now index) }
{
    let passed = count_common(&diff[index..]);
    if index + passed == diff.len() {
        return None;
    }
    let change = index + passed;
    let first = change - passed.min(CONTEXT);
    let last = change + count_changed(&diff[change..]);
    let end = last.saturating_add(CONTEXT).min(diff.len());
    Some(Hunk {
        first,
        end,
        before: counts_with(before, counts_of(&diff[index..first])),
        counts: counts_of(&diff[first..end]),
    })
}

// Returns the hunks of a diff.
fn hunks_of(alloc: Global, diff: &[DiffLine<'_>]) -> Result<Vec<Hunk>, AllocError>
    ensures { IfOk result (λ hunks. AreHunks diff.now 0 hunks.items) }
{
    let mut hunks = Vec::new(alloc);
    let mut index = 0usize;
    let mut before = Counts { olds: 0, news: 0 };
    while let Some(hunk) = next_hunk(diff, index, before) {
        hunks.push(hunk)?;
        index = hunk.end;
        before = counts_with(hunk.before, hunk.counts);
    }
    Ok(hunks)
}

// Returns whether a character of a file's name is written as an escape.
fn is_escaped(letter: char) -> bool {
    letter < ' ' || letter == '\u{7f}' || letter == '"' || letter == '\\'
}

// Returns a file's name with octal escapes, in quotes.
fn quoted_name(alloc: Global, name: &str) -> Result<String, AllocError> {
    let mut quoted = format!(in alloc; "\"")?;
    for letter in name.chars() {
        if is_escaped(letter) {
            let escape = format!(in alloc; "\\{:03o}", u32::from(letter))?;
            quoted.push_str(escape.as_str())?;
        } else {
            quoted.push(letter)?;
        }
    }
    quoted.push('"')?;
    Ok(quoted)
}

// Adds the components of a path to a text, each after a `/`. Leaves out empty ones and `.`, which `git apply` refuses.
fn push_path(path: &str, text: &mut String) -> Result<(), AllocError> {
    for part in path.split('/') {
        if !part.is_empty() && part != "." {
            text.push('/')?;
            text.push_str(part)?;
        }
    }
    Ok(())
}

// Returns the name of one of the texts. As in the output of `git`, a name with unusual characters is quoted, and a tab follows one with spaces.
fn name_of(alloc: Global, side: char, name: &str) -> Result<String, AllocError> {
    let end = if name.contains(' ') { "\t" } else { "" };
    let mut whole = format!(in alloc; "{side}")?;
    push_path(name, &mut whole)?;
    if name.chars().any(is_escaped) {
        quoted_name(alloc, whole.as_str())
    } else {
        format!(in alloc; "{whole}{end}")
    }
}

// Returns a text up to its first line feed.
fn first_line(text: &str) -> &str
    ensures { HasNoLineFeed result.now }
{
    match text.find('\n') {
        Some(end) => &text[..end],
        None => text,
    }
}

// Returns the header lines of a diff, with the names of the two texts, or nothing if it has no hunks. A line feed in a name is written as an escape, so each
// name is one line.
fn header_lines(alloc: Global, name: &str, hunks: &[Hunk]) -> Result<String, AllocError>
    ensures { IfOk result (λ text. AreHeaderLinesOf hunks.now (string_bytes text)) }
{
    if hunks.is_empty() {
        return Ok(String::new(alloc));
    }
    let old = name_of(alloc, 'a', name)?;
    let new = name_of(alloc, 'b', name)?;
    let (old, new) = (first_line(old.as_str()), first_line(new.as_str()));
    let lines = format!(in alloc; "--- {old}\n+++ {new}\n")?;
    Ok(lines)
}

// Returns two numbers with a comma between them.
fn pair_text(alloc: Global, first: usize, second: usize) -> Result<String, AllocError>
    ensures { IfOk result (λ text. string_bytes text ≡ decimal first ++ codes "," ++ decimal second) }
{
    let mut text = format!(in alloc; "{first}")?;
    let number = format!(in alloc; "{second}")?;
    text.push_str(",")?;
    text.push_str(number.as_str())?;
    Ok(text)
}

// Returns the lines of one text as the header of a hunk gives them: the number of the first line, and how many there are. If there are none, the first number
// is that of the line before.
fn range_text(alloc: Global, before: usize, count: usize) -> Result<String, AllocError>
    requires { before + 1 < 2 ^ 64 }
    ensures { IfOk result (λ text. string_bytes text ≡ range_text before count) }
{
    let first = before + 1;
    if count == 0 {
        format!(in alloc; "{before},0")
    } else if count == 1 {
        format!(in alloc; "{first}")
    } else {
        pair_text(alloc, first, count)
    }
}

// Writes the header of a hunk.
fn write_header(alloc: Global, hunk: &Hunk, out: &mut String) -> Result<(), AllocError>
    requires olds { hunk.now.before.olds + 1 < 2 ^ 64 }
    requires news { hunk.now.before.news + 1 < 2 ^ 64 }
    ensures { OnOk result (string_bytes out.new ≡ string_bytes out.old ++ header_text hunk.now) }
{
    let olds = range_text(alloc, hunk.before.olds, hunk.counts.olds)?;
    let news = range_text(alloc, hunk.before.news, hunk.counts.news)?;
    let header = format!(in alloc; "@@ -{olds} +{news} @@\n")?;
    out.push_str(header.as_str())
}

// Writes a line with its end.
fn write_ended(text: &str, out: &mut String) -> Result<(), AllocError>
    ensures { OnOk result (string_bytes out.new ≡ string_bytes out.old ++ with_end text.now) }
{
    out.push_str(text)?;
    if text.ends_with('\n') {
        return Ok(());
    }
    out.push_str("\n\\ No newline at end of file\n")
}

// Writes a line after a sign.
fn write_signed(sign: char, text: &str, out: &mut String) -> Result<(), AllocError>
    requires { sign < 128 }
    ensures { OnOk result (string_bytes out.new ≡ string_bytes out.old ++ sign ∷ with_end text.now) }
{
    out.push(sign)?;
    write_ended(text, out)
}

// Writes a line of a hunk.
fn write_line(line: &DiffLine<'_>, out: &mut String) -> Result<(), AllocError>
    ensures { OnOk result (string_bytes out.new ≡ string_bytes out.old ++ line_text line.now) }
{
    match line {
        DiffLine::Common(text) => write_signed(' ', text, out),
        DiffLine::Removed(text) => write_signed('-', text, out),
        DiffLine::Added(text) => write_signed('+', text, out),
    }
}

// Writes the lines of a hunk.
fn write_lines(lines: &[DiffLine<'_>], out: &mut String) -> Result<(), AllocError>
    ensures { OnOk result (string_bytes out.new ≡ string_bytes out.old ++ flat_map line_text lines.now) }
{
    for line in lines {
        write_line(line, out)?;
    }
    Ok(())
}

// Writes a hunk.
fn write_hunk(
    alloc: Global,
    diff: &[DiffLine<'_>],
    hunk: &Hunk,
    out: &mut String,
) -> Result<(), AllocError>
    requires { (index : ℕ) × IsNextHunk diff.now index hunk.now }
    ensures { OnOk result (string_bytes out.new ≡ string_bytes out.old ++ hunk_text diff.now hunk.now) }
{
    let lines = &diff[hunk.first..hunk.end];
    write_header(alloc, hunk, out)?;
    write_lines(lines, out)
}

// Writes hunks.
fn write_hunks(
    alloc: Global,
    diff: &[DiffLine<'_>],
    hunks: &[Hunk],
    out: &mut String,
) -> Result<(), AllocError>
    requires { AreHunks diff.now 0 hunks.now }
    ensures { OnOk result (string_bytes out.new ≡ string_bytes out.old ++ flat_map (hunk_text diff.now) hunks.now) }
{
    for hunk in hunks {
        write_hunk(alloc, diff, hunk, out)?;
    }
    Ok(())
}

/// Returns the unified diff of two texts with three lines of context, as `diff` and `git` print it. It is empty if the diff has no changed lines.
pub fn unified_diff(alloc: Global, name: &str, old: &str, new: &str) -> Result<String, AllocError>
    ensures { IfOk result (λ text. IsUnified old.now new.now (string_bytes text)) }
{
    let diff = line_diff(alloc, old, new)?;
    let hunks = hunks_of(alloc, &diff)?;
    let mut out = header_lines(alloc, name, &hunks)?;
    write_hunks(alloc, &diff, &hunks, &mut out)?;
    Ok(out)
}
