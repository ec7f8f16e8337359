//! The reason why an edit is refused.

ghost use Rattle.std.specs.Prelude.{◌≡◌};
ghost use Rattle.rnix_text.specs.declared.edit_error.EditError.TheVariants.{Memory};

use std::alloc::{AllocError, AllocFailed};
use std::error::Error;
use std::fmt;

/// The reason why an edit is refused.
#[derive(Clone, Copy, PartialEq, Eq, Debug)]
pub enum EditError {
    /// The range ends before it begins, or beyond the text.
    OutOfText,
    /// The range begins or ends inside a character.
    InsideCharacter,
    /// The range overlaps that of another edit, or an empty range is inside another one.
    Overlap,
    /// Memory for the edit was refused.
    Memory,
}

impl From<AllocError> for EditError {
    ghost from_gives = { λ _ e. e ≡ Memory };

    fn from(_error: AllocError) -> EditError {
        EditError::Memory
    }
}

impl<T: Drop> From<AllocFailed<T>> for EditError {
    ghost from_gives = { λ _ e. e ≡ Memory };

    fn from(_error: AllocFailed<T>) -> EditError {
        EditError::Memory
    }
}

impl fmt::Display for EditError {
    ghost use Rattle.std.specs.Prelude.{Some};
    ghost use Rattle.rnix_text.specs.Causes.{cause_text};

    ghost output = { λ error. Some (cause_text error) };

    fn fmt<W: fmt::Write>(&self, f: &mut fmt::Formatter<W>) -> fmt::Result {
        f.write_str(match self {
            EditError::OutOfText => "the range does not lie in the text",
            EditError::InsideCharacter => "the range begins or ends inside a character",
            EditError::Overlap => "the range overlaps that of another edit",
            EditError::Memory => "there is no memory for the edit",
        })
    }
}

impl Error for EditError {}
