//! Short expressions of many forms, and what edits write into them.

use crate::numbers::Numbers;
use std::alloc::{AllocError, Global};

// What an expression may be: `E` stands for an expression, and `N` for a name. Each can be an item of a list.
const RULES: [&str; 48] = [
    "N",
    "1",
    "2.5",
    "\"N\"",
    "\"a${E}\\nb\"",
    "''\n  a\n   ${E} ''$ N\n  ''",
    "./N",
    "./${E}/b",
    "<N>",
    "(E)",
    "[ E E ]",
    "[ E ]",
    "{ N = E; }",
    "{ N.N = E; inherit N; }",
    "rec { N = E; \"N\" = E; ${E} = E; }",
    "(N: E)",
    "({ N, N ? E, ... }: E)",
    "({ N }@i: E)",
    "(i@{ }: E)",
    "(let N = E; inherit (E) N; in E)",
    "let { body = E; }",
    "(if E then E else E)",
    "(assert E; E)",
    "(with E; E)",
    "(E E)",
    "(E).N",
    "((E).N or E)",
    "(E ? N)",
    "(E + E)",
    "(E - E)",
    "(E // E)",
    "(E ++ E)",
    "(E == E)",
    "(E < E)",
    "(E && E)",
    "(E || E)",
    "(E -> E)",
    "(-E)",
    "(!E)",
    "# c\nE",
    "/* c */ E",
    "https://a.b/c",
    "{ N = { N = E; }; }",
    "[ (E) { N = E; } ]",
    "\"${E}${E}\"",
    "{ a = ''${E}''; b = \"\\${E}\"; }",
    "(N: { inherit (E) N; })",
    "(E \"é\")",
];

// What an edit writes.
const WRITTEN: [&str; 48] = [
    "{", "}", "[", "]", "(", ")", "\"", "''", "${", "#", "/*", "*/", "\n", "\r\n", " ", ";", ":",
    "@", "=", ",", ".", "...", "?", "or", "in", "let ", "rec ", "with ", "a", "b c", "1", "d = 1;",
    "{ }", "[ ]", "( e )", "\"f\"", "''g''", "${h}", "# i\n", "/* j */", "k: ", "./l", "~/m",
    "<n>", "-", "//", "é", "$",
];

// Letters in place of names.
const LETTERS: [&str; 8] = ["a", "b", "c", "d", "e", "f", "g", "g-h"];

/// Returns one of the pieces that edits write.
pub fn written(numbers: &mut Numbers) -> &'static str {
    WRITTEN[numbers.below(48) % 48]
}

// Returns the offset of the letter `E` that follows `number` others, or of the last one.
fn place_of(text: &[u8], number: usize) -> Option<usize> {
    let (mut left, mut found) = (number, None);
    for offset in 0..text.len() {
        if text[offset] == b'E' {
            found = Some(offset);
            if left == 0 {
                return found;
            }
            left = left.saturating_sub(1);
        }
    }
    found
}

// Replaces an expression by a rule. A text without expressions stays as it is.
fn grown(alloc: Global, text: String, numbers: &mut Numbers) -> Result<String, AllocError> {
    let Some(offset) = place_of(text.as_bytes(), numbers.below(6)) else {
        return Ok(text);
    };
    let rule = RULES[numbers.below(48) % 48];
    let mut made = String::from_str(alloc, text.as_str().get(..offset).unwrap_or(""))?;
    made.push_str(rule)?;
    let behind = offset.saturating_add(1);
    made.push_str(text.as_str().get(behind..).unwrap_or(""))?;
    Ok(made)
}

// Returns the text with letters in place of expressions and names.
fn named(alloc: Global, text: &str, numbers: &mut Numbers) -> Result<String, AllocError> {
    let mut made = String::with_capacity(alloc, text.len())?;
    for letter in text.chars() {
        if letter == 'E' || letter == 'N' {
            made.push_str(LETTERS[numbers.below(8) % 8])?;
        } else {
            made.push(letter)?;
        }
    }
    Ok(made)
}

/// A random expression, mostly of 50 to 400 bytes.
pub fn expression(alloc: Global, numbers: &mut Numbers) -> Result<String, AllocError> {
    let mut text = String::from_str(alloc, "{ N = E; N = [ E E (E) ]; N = { N = E; }; }")?;
    for _turn in 0..numbers.below(28) {
        text = grown(alloc, text, numbers)?;
    }
    named(alloc, text.as_str(), numbers)
}
