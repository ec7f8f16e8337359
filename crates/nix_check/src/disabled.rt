//! The option `--disable CODE`, which may be given several times.

use nix_diagnostics::{CODES, Code};
use std::alloc::{AllocError, Global};

// The codes before these are of syntax errors.
const FIRST_LINT: usize = 2;

/// A command line without this option.
#[derive(Drop)]
pub struct Taken {
    /// The other arguments.
    pub rest: Vec<String>,
    /// The codes that the option names.
    pub disabled: Vec<String>,
    // Whether the last argument was the option without its value.
    is_awaited: bool,
    // Whether `--` precedes, after which no argument is an option.
    are_words: bool,
}

// Returns whether a code is that of a lint with a name.
fn is_named(code: Code, name: &str) -> bool {
    code.name() == name
}

// Returns whether a name is that of a lint.
fn is_lint(name: &str) -> bool {
    CODES
        .iter()
        .skip(FIRST_LINT)
        .any(|code| is_named(*code, name))
}

impl Taken {
    /// Takes the option from a command line.
    pub fn of(alloc: Global, arguments: &[String]) -> Result<Taken, AllocError> {
        let mut taken = Taken {
            rest: Vec::new(alloc),
            disabled: Vec::new(alloc),
            is_awaited: false,
            are_words: false,
        };
        for argument in arguments {
            taken.add(alloc, argument.as_str())?;
        }
        Ok(taken)
    }

    // Adds an argument.
    fn add(&mut self, alloc: Global, argument: &str) -> Result<(), AllocError> {
        if self.is_awaited {
            self.is_awaited = false;
            self.disabled.push(String::from_str(alloc, argument)?)?;
            return Ok(());
        }
        if !self.are_words && argument == "--disable" {
            self.is_awaited = true;
            return Ok(());
        }
        if let Some(code) = argument
            .strip_prefix("--disable=")
            .filter(|_| !self.are_words)
        {
            self.disabled.push(String::from_str(alloc, code)?)?;
            return Ok(());
        }
        self.are_words = self.are_words || argument == "--";
        self.rest.push(String::from_str(alloc, argument)?)?;
        Ok(())
    }

    /// Leaves out a lint, as the option does.
    pub fn leave_out(&mut self, alloc: Global, code: Code) -> Result<(), AllocError> {
        self.disabled.push(String::from_str(alloc, code.name())?)?;
        Ok(())
    }

    /// Returns the reason why the option is wrong, if it is.
    pub fn wrong(&self) -> Option<&'static str> {
        if self.is_awaited {
            return Some("--disable needs a value");
        }
        let is_unknown = self.disabled.iter().any(|name| !is_lint(name.as_str()));
        is_unknown.then_some("--disable needs the code of a lint")
    }
}
