//! Random texts, of scopes in scopes and after each other.

use std::alloc::{AllocError, Global};

// Names of the same length. All but the first four have hashes with the same last bits.
const NAMES: [&str; 16] = [
    "aaaaaaaa", "aaaaaaab", "baaaaaaa", "zzzzzzzz", "zszaaaaa", "pgifaaaa", "bjypaaaa", "tkilbaaa",
    "ofivbaaa", "dklybaaa", "ljcacaaa", "ufnjcaaa", "eayadaaa", "kpjedaaa", "fteldaaa", "ozlvdaaa",
];

// Forms: the strings before, between and after the three names that begin one, and the string that ends it.
const FORMS: [[&str; 5]; 8] = [
    ["(let ", " = ", "; ", " = 1; in [ ", " ]) "],
    ["(let inherit ", "; ", " = ", "; in [ ", " ]) "],
    ["rec { ", " = ", "; inherit ", "; body = [ ", " ]; } "],
    ["let { ", ".a = ", "; inherit ", "; body = [ ", " ]; } "],
    ["({ ", " ? ", ", ... }@", ": [ ", " ]) "],
    ["(", ": ", ": ", ": [ ", " ]) "],
    ["(with ", "; let ", ".a = ", "; in [ ", " ]) "],
    ["{ inherit ", "; inherit (", ") ", "; body = [ ", " ]; } "],
];

// How many steps make a text: each begins a form, ends one, or adds a name.
const STEPS: usize = 80;

// Random numbers, and how many of the names are used.
#[derive(Drop)]
struct Choices {
    state: u64,
    names: usize,
}

impl Choices {
    // The next number below a limit.
    fn below(&mut self, limit: usize) -> usize {
        self.state = self
            .state
            .wrapping_mul(6_364_136_223_846_793_005)
            .wrapping_add(1_442_695_040_888_963_407);
        (self.state >> 33) as usize % limit.max(1)
    }

    // Adds a name.
    fn add_name(&mut self, text: &mut String) -> Result<(), AllocError> {
        let number = self.below(self.names);
        text.push_str(NAMES.get(number).copied().unwrap_or("a"))?;
        Ok(())
    }

    // Begins a form. Returns what ends it.
    fn begin_form(&mut self, text: &mut String) -> Result<&'static str, AllocError> {
        let number = self.below(FORMS.len());
        let [first, second, third, last, end] = FORMS.get(number).copied().unwrap_or([""; 5]);
        text.push_str(first)?;
        self.add_name(text)?;
        text.push_str(second)?;
        self.add_name(text)?;
        text.push_str(third)?;
        self.add_name(text)?;
        text.push_str(last)?;
        Ok(end)
    }

    // Adds a name, begins a form, or ends the innermost one.
    fn step(&mut self, text: &mut String, ends: &mut Vec<&'static str>) -> Result<(), AllocError> {
        match self.below(4) {
            0 => ends.push(self.begin_form(text)?)?,
            1 => text.push_str(ends.pop().unwrap_or(""))?,
            _ => {
                self.add_name(text)?;
                text.push_str(" ")?;
            }
        }
        Ok(())
    }
}

/// The text of a seed, with the first `names` names.
pub fn made_text(alloc: Global, seed: u64, names: usize) -> Result<String, AllocError> {
    let mut choices = Choices { state: seed, names };
    let mut ends = Vec::new(alloc);
    let mut text = String::new(alloc);
    text.push_str("[ ")?;
    for _ in 0..STEPS {
        choices.step(&mut text, &mut ends)?;
    }
    for end in ends.iter().rev() {
        text.push_str(*end)?;
    }
    text.push_str("]")?;
    Ok(text)
}
