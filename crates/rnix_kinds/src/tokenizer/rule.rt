//! The result of a rule of the tokenizer.

ghost use Rattle.std.specs.Prelude.{◌≡◌};

use crate::kinds::SyntaxKind;

/// How a path begins.
#[derive(Clone, Copy, Debug, PartialEq, Eq)]
pub enum PathStart {
    Root,
    Relative,
    Home,
}

impl PathStart {
    ghost use Rattle.rnix_kinds.specs.Lexical.PathKinds.{kind_of_path};

    /// Returns the kind of the path's tokens.
    pub fn kind(self) -> SyntaxKind
        ensures { result ≡ kind_of_path self }
    {
        match self {
            PathStart::Root => SyntaxKind::TOKEN_PATH_ABS,
            PathStart::Relative => SyntaxKind::TOKEN_PATH_REL,
            PathStart::Home => SyntaxKind::TOKEN_PATH_HOME,
        }
    }
}

/// A mode of the tokenizer, in which other rules than the normal ones apply too.
#[derive(Clone, Copy, Debug, PartialEq, Eq)]
pub enum Mode {
    /// A string, and whether it is a multiline one.
    Quoted(bool),
    /// An interpolation, with the number of its open braces.
    Interpolation(usize),
    /// A path after an interpolation.
    Path(PathStart),
}

/// How a token changes the stack of modes.
#[derive(Clone, Copy, Debug, PartialEq, Eq)]
pub enum Change {
    Stay,
    Open(Mode),
    Close,
    /// The brace count of the interpolation on top.
    Count(usize),
}

/// The kind and the length of a token, and how it changes the modes.
#[derive(Clone, Copy, Debug, PartialEq, Eq)]
pub struct Cut {
    pub kind: SyntaxKind,
    pub len: usize,
    pub change: Change,
}

/// Returns a token that does not change the modes.
pub fn plain(kind: SyntaxKind, len: usize) -> Cut
    ensures { result ≡ record { kind = kind; len = len; change = Change.Stay } }
{
    Cut {
        kind,
        len,
        change: Change::Stay,
    }
}
