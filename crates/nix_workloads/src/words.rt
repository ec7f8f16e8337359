//! Words and numbers as texts. They are made once, so that a template takes one copy for each of them.

use crate::numbers::mixed;
use std::alloc::{AllocError, Global};

// Parts of words. No sequence of them is a keyword of Nix.
const SYLLABLES: [&str; 32] = [
    "ba", "ce", "di", "fo", "gu", "ha", "ki", "lo", "mu", "na", "pe", "ri", "so", "tu", "va", "wo",
    "xi", "ya", "ze", "bo", "da", "fe", "go", "hu", "ja", "ko", "la", "mi", "no", "po", "ru", "sa",
];

// How many sequences of two syllables there are.
const PAIRS: u64 = 32 * 32;

// How many words there are: each two syllables, alone and with one or two more.
const WORDS: u64 = 3 * PAIRS;

// The limit of the numbers.
const NUMBERS: u64 = 1000;

/// Words of 2 to 4 syllables, no two alike, and the numbers below 1000.
#[derive(Drop)]
pub struct Words {
    words: Vec<String>,
    numbers: Vec<String>,
    // The numbers, with zeros before them: each of three digits.
    padded: Vec<String>,
}

// Makes the word with a number: the first two syllables depend on the number modulo PAIRS, and there is one more for each multiple of PAIRS in it.
fn word(alloc: Global, number: u64) -> Result<String, AllocError> {
    let mut text = String::new(alloc);
    let mut left = number % PAIRS | mixed(number) << 10;
    for _syllable in 0..2 + number / PAIRS {
        text.push_str(SYLLABLES[(left % 32) as usize])?;
        left >>= 5;
    }
    Ok(text)
}

// Makes all words.
fn all_words(alloc: Global) -> Result<Vec<String>, AllocError> {
    let mut words = Vec::new(alloc);
    for number in 0..WORDS {
        words.push(word(alloc, number)?)?;
    }
    Ok(words)
}

impl Words {
    /// Makes all words and numbers.
    pub fn new(alloc: Global) -> Result<Words, AllocError> {
        let (mut numbers, mut padded) = (Vec::new(alloc), Vec::new(alloc));
        for number in 0..NUMBERS {
            numbers.push(format!(in alloc; "{number}")?)?;
            padded.push(format!(in alloc; "{number:03}")?)?;
        }
        Ok(Words {
            words: all_words(alloc)?,
            numbers,
            padded,
        })
    }

    /// A word that a number stands for.
    pub fn word(&self, number: u64) -> &str {
        text_at(&self.words, number % WORDS)
    }

    /// A number below 1000 that another one stands for.
    pub fn number(&self, number: u64) -> &str {
        text_at(&self.numbers, number % NUMBERS)
    }

    /// The last three digits of a number.
    pub fn last_digits(&self, number: u64) -> &str {
        text_at(&self.padded, number % NUMBERS)
    }
}

// Returns the text of a number.
fn text_at(texts: &[String], number: u64) -> &str {
    texts.get(number as usize).map_or("", |text| text.as_str())
}
