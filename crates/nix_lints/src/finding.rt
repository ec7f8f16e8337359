//! What a lint found.

ghost use Rattle.std.specs.Prelude.{◌≡◌, option_map};
ghost use Rattle.rnix_green.specs.Range.{bounds_of};
ghost use Rattle.rnix_green.specs.Tree.{extent_of};
ghost use Rattle.nix_lints.specs.Found.{found_of, found_at, found_if};

use nix_diagnostics::{Code, Replacement};
use rnix::{SyntaxNode, TextRange};

/// What the message or the note on a finding names besides its code.
#[derive(Clone, Copy)]
pub enum Reason {
    /// Nothing.
    Code,
    /// A character.
    Character(char),
    /// Another place in the text.
    Place(TextRange),
}

/// What a lint found.
#[derive(Clone, Copy)]
pub struct Finding {
    /// The lint.
    pub code: Code,
    /// The bytes to underline.
    pub range: TextRange,
    /// What else it is about.
    pub reason: Reason,
    /// What to write instead, where that keeps the meaning.
    pub replacement: Option<Replacement>,
}

impl Finding {
    /// Returns the finding of a lint about a node.
    pub fn at(code: Code, node: &SyntaxNode<'_>, replacement: Option<Replacement>) -> Finding
        ensures { found_of result ≡ found_at code node.now }
    {
        Finding {
            code,
            range: node.text_range(),
            reason: Reason::Code,
            replacement,
        }
    }

    /// Returns the finding of a lint about a node, if a condition holds.
    pub fn when(
        is_found: bool,
        code: Code,
        node: &SyntaxNode<'_>,
        replacement: Option<Replacement>,
    ) -> Option<Finding>
        ensures { option_map found_of result ≡ found_if is_found code node.now }
    {
        if is_found {
            Some(Finding::at(code, node, replacement))
        } else {
            None
        }
    }
}
