//! The result of an update.

ghost use Rattle.std.specs.Prelude.{◌≡◌};

use rnix_edit::Refusal;
use std::fmt;

/// The reason why a text is not updated.
#[derive(Clone, Copy, PartialEq, Eq, Debug)]
pub enum Reason {
    /// The path is not a path of plain names.
    NotAPath,
    /// The text has errors.
    NotNix,
    /// The text for the value must be an expression and is not.
    NotAnExpression,
    /// No attribute has the path.
    NoAttribute,
    /// Several entries define the attribute.
    SeveralEntries,
    /// An entry defines only a part of the attribute.
    PartialDefinition,
    /// An `inherit` defines the attribute.
    Inherited,
    /// The value is not a string without interpolations.
    NotAString,
    /// The value writes out no list.
    NotAList,
    /// No element of the list has the text of the value.
    NoElement,
    /// There is no set for the new attribute.
    NoSet,
    /// There are several sets for the new attribute.
    SeveralSets,
    /// With the change, a name would refer to something else.
    ChangedMeaning,
    /// An operator refers to the name, or the set treats it specially.
    SpecialName,
    /// The new text would define an attribute again that cannot be defined again.
    Repeated,
    /// The edit is refused.
    Edit(Refusal),
}

/// The reason why a text is not updated, the offset of its cause, and, if the cause is a second one, the offset of the first.
#[derive(Clone, Copy, PartialEq, Eq, Debug)]
pub struct Refused {
    pub reason: Reason,
    pub offset: Option<usize>,
    pub first: Option<usize>,
}

/// The result of an update.
#[derive(Drop)]
pub enum Outcome {
    /// The new text.
    Updated(String),
    /// The new text, in which the value of a name of a `let` is changed, and the offset of its entry.
    SetInLet(String, usize),
    Refused(Refused),
}

/// The result of an attempt to change a text.
#[derive(Drop)]
pub enum Attempt {
    /// The new text.
    Made(String),
    Refused(Refused),
}

/// Returns the refusal for a reason that has one offset.
pub fn refuse_at(reason: Reason, offset: usize) -> Refused
    ensures { result.reason ≡ reason }
{
    Refused {
        reason,
        offset: Some(offset),
        first: None,
    }
}

/// Returns the refusal for a reason that has two offsets.
pub fn refuse_with_first(reason: Reason, first: usize, second: usize) -> Refused
    ensures { result.reason ≡ reason }
{
    Refused {
        reason,
        offset: Some(second),
        first: Some(first),
    }
}

/// Returns the refusal for a reason that has no offset in the text.
pub fn refuse(reason: Reason) -> Refused
    ensures { result.reason ≡ reason }
{
    Refused {
        reason,
        offset: None,
        first: None,
    }
}

impl Reason {
    // Returns the message.
    fn text(self) -> &'static str {
        match self {
            Reason::NotAPath => "PATH is not a path of names that are written out, as a.b.\"c\"",
            Reason::NotNix => "this is not Nix",
            Reason::NotAnExpression => "VALUE is not one Nix expression",
            Reason::NoAttribute => "no attribute has this path",
            Reason::SeveralEntries => "more than one entry makes the attribute: this is the second",
            Reason::PartialDefinition => "this entry makes only a part of the attribute",
            Reason::Inherited => "an `inherit` makes the attribute",
            Reason::NotAString => {
                "its value is not a plain string: --raw or --list replaces any value"
            }
            Reason::NotAList => "its value is not a list that is written out",
            Reason::NoElement => "no element of this list is VALUE",
            Reason::NoSet => "there is no set for the attribute: this is not one",
            Reason::SeveralSets => "there are several sets for the attribute: this is the second",
            Reason::ChangedMeaning => {
                "with the change, this name would refer to something else: --force changes the text all the same"
            }
            Reason::SpecialName => {
                "in this set, the name has a meaning of its own for others: --force changes the text all the same"
            }
            Reason::Repeated => "with the change, an attribute would be defined twice",
            Reason::Edit(Refusal::NotInText) => "this is not in the text",
            Reason::Edit(Refusal::HasErrors) => "the new text would not be Nix",
            Reason::Edit(Refusal::ReadOtherwise) => {
                "with the change, what is around it would be read in another way"
            }
            Reason::Edit(Refusal::NodeReadOtherwise) => {
                "with the change, the new text would be read in another way than alone"
            }
        }
    }

    /// Returns whether the text or the value is not Nix.
    pub fn is_failure(self) -> bool {
        matches!(&self, Reason::NotNix | Reason::NotAnExpression)
    }
}

impl fmt::Display for Reason {
    fn fmt<W: fmt::Write>(&self, f: &mut fmt::Formatter<W>) -> fmt::Result {
        f.write_str(self.text())
    }
}
