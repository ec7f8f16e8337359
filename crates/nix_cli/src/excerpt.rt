//! An excerpt: one line of a text, with carets under a range in it.

ghost use Rattle.std.specs.Prelude.{◌≡◌, ℕ, List, IsTrue, OnOk, length};
ghost use Rattle.std.specs.Str.{chars};
ghost use Rattle.std.specs.List.{flat_map, prefix_len};
ghost use Rattle.std.specs.Io.KnownBytes.{Appends};
ghost use Rattle.nix_cli.specs.Excerpt.{is_simple, printed, shown, columns_of, spaces, carets, carets_below};

use std::io::{self, Write};
use std::ops::Range;

// The greatest number of columns that are printed before the first caret.
const COLUMNS_BEFORE: usize = 60;
// The greatest number of columns that are printed from the first caret on.
const COLUMNS_AFTER: usize = 60;
// Printed where a line is cut.
const CUT: &str = "…";
// Printed in place of characters that a terminal would act on.
const REPLACEMENT: char = '\u{fffd}';
// Spaces and carets that are printed below simple characters.
static SPACES: [u8; 60] = [b' '; 60];

static CARETS: [u8; 60] = [b'^'; 60];

// Returns the width of a character in columns of a terminal. A tab counts as one, because both lines contain it.
#[tactic(auto, unfolding(crate::specs::Excerpt::columns_of))]
fn columns_of(letter: char) -> usize
    ensures { result ≡ columns_of letter }
{
    match letter {
        '\u{300}'..='\u{36f}' | '\u{200b}'..='\u{200d}' | '\u{fe00}'..='\u{fe0f}' => 0,
        '\u{1100}'..='\u{115f}'
        | '\u{2e80}'..='\u{303e}'
        | '\u{3041}'..='\u{a4cf}'
        | '\u{ac00}'..='\u{d7a3}'
        | '\u{f900}'..='\u{faff}'
        | '\u{fe30}'..='\u{fe6f}'
        | '\u{ff00}'..='\u{ff60}'
        | '\u{ffe0}'..='\u{ffe6}'
        | '\u{1f300}'..='\u{1f64f}'
        | '\u{1f900}'..='\u{1f9ff}'
        | '\u{20000}'..='\u{3fffd}' => 2,
        _ => 1,
    }
}

// Returns the character to print in place of another: a visible one for control characters and for those that change the direction of text.
fn printed(letter: char) -> char
    ensures { result ≡ printed letter }
{
    match letter {
        '\t' => letter,
        '\0'..='\u{1f}' => char::from_u32(0x2400 + u32::from(letter)).unwrap_or(REPLACEMENT),
        '\u{7f}'..='\u{9f}' | '\u{202a}'..='\u{202e}' | '\u{2066}'..='\u{2069}' => REPLACEMENT,
        _ => letter,
    }
}

// Returns the start of the part of a line that is printed before an offset.
fn start_of_part(text: &str, offset: usize) -> usize {
    let mut start = offset;
    let mut columns: usize = 0;
    for (at, letter) in text.get(..offset).unwrap_or("").char_indices().rev() {
        columns = columns.saturating_add(columns_of(letter).max(1));
        if letter == '\n' || columns > COLUMNS_BEFORE {
            break;
        }
        start = at;
    }
    start
}

// Returns the end of the part of a line that is printed from an offset on.
fn end_of_part(text: &str, offset: usize) -> usize {
    let mut end = offset;
    let mut columns: usize = 0;
    for letter in text.get(offset..).unwrap_or("").chars() {
        columns = columns.saturating_add(columns_of(letter).max(1));
        if letter == '\n' || columns > COLUMNS_AFTER {
            break;
        }
        end = end.saturating_add(letter.len_utf8());
    }
    end
}

// Returns whether a byte is a simple character: an ASCII character that is not a control character.
#[inline(always)]
fn is_simple(byte: u8) -> bool
    ensures { result ≡ is_simple byte }
{
    byte >= b' ' && byte < b'\x7f'
}

// Returns the number of simple characters at the start.
fn simple_len(bytes: &[u8]) -> usize
    ensures { result ≡ prefix_len is_simple bytes.now }
{
    bytes.iter().take_while(|byte| is_simple(**byte)).count()
}

// Returns whether all characters of a text are simple.
fn are_simple(part: &str) -> bool
    ensures { IsTrue result → prefix_len is_simple part.now ≡ length part.now }
{
    simple_len(part.as_bytes()) == part.len()
}

// Writes a text with its control characters replaced.
fn write_letters<W: Write>(part: &str, out: &mut W) -> io::Result<()>
    ensures { OnOk result (Appends (W.contents out.old) (W.contents out.new) (flat_map shown (chars part.now))) }
{
    if are_simple(part) {
        return out.write_all(part.as_bytes());
    }
    for letter in part.chars() {
        write!(out, "{}", printed(letter))?;
    }
    Ok(())
}

// Writes the spaces below a character. A tab stays a tab.
fn write_space<W: Write>(letter: char, out: &mut W) -> io::Result<()>
    ensures { OnOk result (Appends (W.contents out.old) (W.contents out.new) (spaces letter)) }
{
    out.write_all(match (letter, columns_of(letter)) {
        ('\t', _) => b"\t",
        (_, 0) => b"",
        (_, 1) => b" ",
        _ => b"  ",
    })
}

// Writes spaces of the width of a text. A tab stays a tab.
fn write_spaces<W: Write>(part: &str, out: &mut W) -> io::Result<()>
    ensures { OnOk result (Appends (W.contents out.old) (W.contents out.new) (flat_map spaces (chars part.now))) }
{
    if part.len() <= SPACES.len() && are_simple(part) {
        return out.write_all(&SPACES[..part.len()]);
    }
    for letter in part.chars() {
        write_space(letter, out)?;
    }
    Ok(())
}

// Writes the carets below a character.
fn write_caret<W: Write>(letter: char, out: &mut W) -> io::Result<()>
    ensures { OnOk result (Appends (W.contents out.old) (W.contents out.new) (carets letter)) }
{
    out.write_all(if columns_of(letter) == 2 { b"^^" } else { b"^" })
}

// Writes carets of the width of a text, at least one.
fn write_carets<W: Write>(part: &str, out: &mut W) -> io::Result<()>
    ensures { OnOk result (Appends (W.contents out.old) (W.contents out.new) (carets_below part.now)) }
{
    if part.is_empty() {
        return out.write_all(b"^");
    }
    if part.len() <= CARETS.len() && are_simple(part) {
        return out.write_all(&CARETS[..part.len()]);
    }
    for letter in part.chars() {
        write_caret(letter, out)?;
    }
    Ok(())
}

/// Writes the line where a range of bytes starts, at most 120 columns of it, and carets below the part of the range in it.
pub fn write_excerpt<W: Write>(text: &str, range: Range<usize>, out: &mut W) -> io::Result<()>
    ensures { OnOk result ((lines : List ℕ) × Appends (W.contents out.old) (W.contents out.new) lines) }
{
    let (start, end) = (
        start_of_part(text, range.start),
        end_of_part(text, range.start),
    );
    let before = text.get(start..range.start).unwrap_or("");
    let marked_end = end.min(range.end);
    let marked = text
        .get(range.start..marked_end)
        .unwrap_or("")
        .trim_end_matches('\r');
    let after = text.get(end..).unwrap_or("");
    let is_cut_before = !text.get(..start).unwrap_or("").ends_with('\n') && start > 0;
    let is_cut_after = !after.is_empty() && !after.starts_with('\n');
    let line = text.get(start..end).unwrap_or("").trim_end_matches('\r');
    out.write_all(b"  ")?;
    out.write_all(if is_cut_before { CUT.as_bytes() } else { b"" })?;
    write_letters(line, out)?;
    out.write_all(if is_cut_after { CUT.as_bytes() } else { b"" })?;
    out.write_all(if is_cut_before { b"\n   " } else { b"\n  " })?;
    write_spaces(before, out)?;
    write_carets(marked, out)?;
    out.write_all(b"\n")
}
