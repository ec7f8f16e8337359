//! Why a text is not JSON that Nix can hold.

ghost use Rattle.std.specs.Prelude.{◌≡◌, None};
ghost use Rattle.nix_values.specs.declared.json_error.JsonStop.TheVariants.{Memory, Refused};

use std::alloc::{AllocError, AllocFailed};

/// Why a text is refused.
#[derive(Clone, Copy, PartialEq, Eq, Debug)]
pub enum JsonReason {
    /// A value is missing.
    NoValue,
    /// A name is missing.
    NoName,
    /// A `:` is missing.
    NoColon,
    /// A comma or the end of a list is missing.
    NoCommaInList,
    /// A comma or the end of an object is missing.
    NoCommaInObject,
    /// Something follows the outermost value.
    AfterValue,
    /// A string has no closing quote.
    OpenString,
    /// A control character in a string is not escaped.
    ControlCharacter,
    /// A `\` that begins no escape.
    NoEscape,
    /// Half of a surrogate pair.
    LoneSurrogate,
    /// The character 0 in a string.
    HasNul,
    /// A malformed number.
    NoNumber,
    /// An integer that Nix cannot hold.
    TooLarge,
    /// A float that Nix cannot hold.
    NoFloat,
    /// More lists and objects inside one another than are allowed.
    TooDeep,
    /// A name that an object repeats.
    Repeated,
}

impl JsonReason {
    /// Returns the reason in words.
    pub fn text(self) -> &'static str {
        match self {
            JsonReason::NoValue => "a value is expected here",
            JsonReason::NoName => "a name in quotes is expected here",
            JsonReason::NoColon => "`:` is expected here",
            JsonReason::NoCommaInList => "`,` or `]` is expected here",
            JsonReason::NoCommaInObject => "`,` or `}` is expected here",
            JsonReason::AfterValue => "nothing may follow the value",
            JsonReason::OpenString => "the string does not end",
            JsonReason::ControlCharacter => "this character must be escaped in a string",
            JsonReason::NoEscape => "this is not an escape",
            JsonReason::LoneSurrogate => "this is half of a surrogate pair",
            JsonReason::HasNul => "a string of Nix cannot hold the character 0",
            JsonReason::NoNumber => "this is not a number",
            JsonReason::TooLarge => "Nix cannot write this integer: it has 64 bits",
            JsonReason::NoFloat => "Nix cannot hold this number: it is too large or too small",
            JsonReason::TooDeep => "lists and objects nest more than 512 deep here",
            JsonReason::Repeated => "the object has this name twice",
        }
    }
}

/// Why and where a text is refused.
#[derive(Clone, Copy, PartialEq, Eq, Debug)]
pub struct JsonError {
    /// Why it is refused.
    pub reason: JsonReason,
    /// The offset of the error, in bytes.
    pub offset: usize,
    /// The offset of the first of two equal names, in bytes.
    pub first: Option<usize>,
}

/// Why reading stops.
#[derive(Drop)]
pub enum JsonStop {
    /// An allocation failed.
    Memory,
    /// The text is refused.
    Refused(JsonError),
}

impl From<AllocError> for JsonStop {
    ghost from_gives = { λ error stop. stop ≡ Memory };

    fn from(_error: AllocError) -> JsonStop {
        JsonStop::Memory
    }
}

impl<T: Drop> From<AllocFailed<T>> for JsonStop {
    ghost from_gives = { λ error stop. stop ≡ Memory };

    fn from(_error: AllocFailed<T>) -> JsonStop {
        JsonStop::Memory
    }
}

/// Returns the refusal of a text at an offset.
pub fn refused(reason: JsonReason, offset: usize) -> JsonStop
    ensures { result ≡ Refused (record { reason = reason; offset = offset; first = None }) }
{
    JsonStop::Refused(JsonError {
        reason,
        offset,
        first: None,
    })
}
