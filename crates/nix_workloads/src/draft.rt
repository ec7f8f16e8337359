//! Texts that are written by templates.

use crate::numbers::{Numbers, mixed};
use crate::template::{Sign, Template};
use crate::words::Words;
use std::alloc::{AllocError, Global};

/// A text that grows by templates.
#[derive(Drop)]
pub struct Draft<'w> {
    words: &'w Words,
    numbers: Numbers,
    text: String,
    count: u64,
}

impl<'w> Draft<'w> {
    /// An empty text, whose words and numbers a seed will determine.
    pub fn new(alloc: Global, words: &'w Words, seed: u64) -> Draft<'w> {
        Draft {
            words,
            numbers: Numbers::new(seed),
            text: String::new(alloc),
            count: 0,
        }
    }

    // Adds the number of templates so far.
    fn push_count(&mut self) -> Result<(), AllocError> {
        if self.count >= 1000 {
            self.text.push_str(self.words.number(self.count / 1000))?;
            self.text.push_str(self.words.last_digits(self.count))
        } else {
            self.text.push_str(self.words.number(self.count))
        }
    }

    // Adds what a sign stands for in the use of a template with the number `base`.
    fn push_sign(&mut self, sign: Sign, base: u64) -> Result<(), AllocError> {
        match sign {
            Sign::Word(letter) => {
                let number = mixed(base.wrapping_add(u64::from(letter) << 40));
                self.text.push_str(self.words.word(number))
            }
            Sign::Number(digit) => {
                let number = mixed(base ^ u64::from(digit));
                self.text.push_str(self.words.number(number))
            }
            Sign::Count => self.push_count(),
        }
    }

    /// Adds a template whose words and numbers `base` determines.
    pub fn fill_by(&mut self, template: &Template, base: u64) -> Result<(), AllocError> {
        for part in template.parts() {
            self.text.push_str(part.text)?;
            self.push_sign(part.sign, base)?;
        }
        self.count = self.count.saturating_add(1);
        self.text.push_str(template.end())
    }

    /// Adds a template with new words and numbers.
    pub fn fill(&mut self, template: &Template) -> Result<(), AllocError> {
        let base = self.numbers.next();
        self.fill_by(template, base)
    }

    /// Adds one of some templates, chosen at random.
    pub fn fill_one(&mut self, templates: &[Template]) -> Result<(), AllocError> {
        let at = self.numbers.below(templates.len());
        match templates.get(at) {
            Some(template) => self.fill(template),
            None => Ok(()),
        }
    }

    /// Adds a template `times` times.
    pub fn repeat(&mut self, template: &Template, times: usize) -> Result<(), AllocError> {
        for _turn in 0..times {
            self.fill(template)?;
        }
        Ok(())
    }

    /// Adds a text as it is.
    pub fn push(&mut self, text: &str) -> Result<(), AllocError> {
        self.text.push_str(text)
    }

    /// The generator of its random numbers.
    pub fn numbers(&mut self) -> &mut Numbers {
        &mut self.numbers
    }

    /// The text.
    pub fn into_text(self) -> String {
        let Draft { text, .. } = self;
        text
    }
}
