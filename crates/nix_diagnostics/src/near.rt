//! Offsets that are near each other in a text.

ghost use Rattle.std.specs.Prelude.{◌≡◌, false, nat_lt};
ghost use Rattle.nix_diagnostics.specs.Following.{is_blank, words, are_close};

use rnix::TextRange;

// The number of characters that are searched for another one.
const MAX_SEARCHED: usize = 200;
// The greatest number of bytes that are searched line by line.
const MAX_BYTES: usize = 20_000;

// Returns whether a byte is white space.
fn is_blank(byte: u8) -> bool
    ensures { result ≡ is_blank byte }
{
    byte == b' ' || byte == b'\n' || byte == b'\t' || byte == b'\r'
}

// Returns whether a text has at most two words.
fn has_few_words(text: &[u8]) -> bool
    ensures { result ≡ nat_lt (words false text.now) 3 }
{
    let mut count: usize = 0;
    let mut inside = false;
    for byte in text {
        let is_blank = is_blank(*byte);
        if !is_blank && !inside {
            if count == 2 {
                return false;
            }
            count += 1;
        }
        inside = !is_blank;
    }
    true
}

/// Returns whether there is no line feed, or at most two words, between two offsets.
pub fn are_close(text: &[u8], from: usize, to: usize) -> bool
    ensures { result ≡ are_close text.now from to }
{
    let rest = text.get(from..).unwrap_or(&[]);
    let between = rest.get(..to.saturating_sub(from)).unwrap_or(rest);
    !between.contains(&b'\n') || has_few_words(between)
}

// Returns whether a character may be part of a word without quotes, such as an address.
fn is_of_word(character: char) -> bool {
    matches!(
        character,
        'a'..='z' | 'A'..='Z' | '0'..='9' | '.' | '_' | '+' | '-' | '@' | ':' | '/' | '%'
    )
}

// Returns the number of bytes of the word with which a text ends, up to 200 characters.
fn last_word(text: &str) -> usize {
    let mut len: usize = 0;
    for character in text.chars().rev().take(MAX_SEARCHED) {
        if !is_of_word(character) {
            break;
        }
        len = len.saturating_add(character.len_utf8());
    }
    len
}

// Returns the number of bytes of the word with which a text begins, up to 200 characters.
fn first_word(text: &str) -> usize {
    let mut len: usize = 0;
    for character in text.chars().take(MAX_SEARCHED) {
        if !is_of_word(character) {
            break;
        }
        len = len.saturating_add(character.len_utf8());
    }
    len
}

/// Returns the range of the word around an offset, up to 200 characters on each side.
pub fn word_around(text: &str, offset: usize) -> Option<TextRange> {
    let start = offset.saturating_sub(last_word(text.get(..offset)?));
    let end = offset.saturating_add(first_word(text.get(offset..)?));
    Some(TextRange::empty(start).cover_offset(end))
}

/// Returns the text from an offset up to a character, if it is one of the next 200.
pub fn text_before(text: &str, start: usize, character: char) -> Option<&str> {
    let rest = text.get(start..)?;
    let (end, _) = rest
        .char_indices()
        .take(MAX_SEARCHED)
        .find(|(_, next)| *next == character)?;
    rest.get(..end)
}

/// Returns the start of the line around an offset, if that is among the previous 200 characters.
pub fn line_start(text: &str, offset: usize) -> Option<usize> {
    let before = text.get(..offset)?;
    let mut start = offset;
    for character in before.chars().rev().take(MAX_SEARCHED) {
        if character == '\n' {
            return Some(start);
        }
        start = start.saturating_sub(character.len_utf8());
    }
    if start == 0 { Some(0) } else { None }
}

/// Returns the number of bytes of white space at the start of a line.
pub fn indentation(line: &str) -> usize {
    line.len().saturating_sub(line.trim_start().len())
}

/// Returns the first 20,000 bytes of a text, or up to three less, so that they end between characters.
pub fn first_part(text: &str) -> &str {
    for fewer in 0..4 {
        if let Some(part) = text.get(..MAX_BYTES - fewer) {
            return part;
        }
    }
    text
}
