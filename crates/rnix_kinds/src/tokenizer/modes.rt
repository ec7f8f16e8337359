//! The stack of modes.

ghost use Rattle.std.specs.Prelude.{◌≡◌, [], List, drop, reverse, true, OnOk, OnErr};
ghost use Rattle.rnix_kinds.specs.Lexical.Tokens.{top, without_ended_paths, changed, opens};
ghost use Rattle.rnix_kinds.specs.declared.tokenizer.rule.Mode.{Mode};

use super::path::path_goes_on;
use super::rule::{Change, Mode};
use std::alloc::{AllocError, Global};
use std::marker::Model;

/// The stack of open modes. In clauses it is a list, the innermost first.
#[derive(Drop)]
pub struct Modes {
    items: Vec<Mode>,
}

impl Model for Modes {
    ghost Value = { List Mode };

    ghost view = { λ m. reverse m.items.items };
}

impl Modes {
    /// Returns an empty stack.
    pub fn new(alloc: Global) -> Self
        ensures { result ≡ [] }
    {
        Modes {
            items: Vec::new(alloc),
        }
    }

    /// Returns the innermost mode.
    pub fn top(&self) -> Option<Mode>
        ensures { result ≡ top self.now }
    {
        self.items.last().copied()
    }

    /// Leaves the innermost mode.
    pub fn close(&mut self)
        ensures { self.new ≡ drop 1 self.old }
    {
        self.items.pop();
    }

    /// Leaves the innermost modes that are paths, unless the path continues.
    pub fn leave_ended_paths(&mut self, text: &str)
        ensures { self.new ≡ without_ended_paths self.old text.now }
    {
        while let Some(Mode::Path(_)) = self.top() {
            if path_goes_on(text) {
                return;
            }
            self.close();
        }
    }

    /// Applies a token's change to the modes. If an allocation fails, they stay as they were.
    #[inline(always)]
    pub fn change(&mut self, change: Change) -> Result<(), AllocError>
        ensures ok { OnOk result (self.new ≡ changed change self.old) }
        ensures err { OnErr result (self.new ≡ self.old) }
        ensures memory { OnErr result (opens change ≡ true) }
    {
        match change {
            Change::Stay => {}
            Change::Open(mode) => self.items.push(mode)?,
            Change::Close => self.close(),
            Change::Count(braces) => {
                let n = self.items.len();
                if n > 0 {
                    self.items[n - 1] = Mode::Interpolation(braces);
                }
            }
        }
        Ok(())
    }
}
