//! Refusals to rename.

ghost use Rattle.std.specs.Prelude.{◌≡◌};
ghost use Rattle.std.specs.List.{list_any};
ghost use Rattle.nix_scopes.specs.Bound.{bound_of};
ghost use Rattle.nix_rename.specs.Refused.{is_special_name, obstacle_text, refusal_text, obstacle_in, obstacle_of_part, obstacle_among, inherits, obstacle_of_binding};

use nix_scopes::{Binding, Reference, Resolution};
use rnix::SyntaxKind;
use std::fmt;

/// The reason why a binding cannot be renamed.
#[derive(Clone, Copy, PartialEq, Eq, Debug)]
pub enum Obstacle {
    /// An `inherit` binds it.
    Inherited,
    /// It is an argument that callers pass by name.
    Argument,
    /// It is an attribute of a set with `rec`.
    Attribute,
    /// It is written in quotes.
    Quoted,
    /// It is the `body` of an old `let`.
    Body,
    /// Operators or paths in `<>` refer to the name.
    Special,
    /// An `inherit` of a set or a `let` refers to it.
    InheritedBySet,
}

/// The reason why a name is not renamed.
#[derive(Clone, Copy, PartialEq, Eq, Debug)]
pub enum Refusal {
    /// The new name is not a name.
    NotAName,
    /// Operators or paths in `<>` refer to the new name.
    SpecialName,
    /// There is no name at the offset.
    NoName,
    /// Nothing in the text binds the name.
    Unbound,
    /// The binding cannot be renamed.
    Obstacle(Obstacle),
    /// The text does not contain the old name at one of the occurrences.
    OtherSpelling,
    /// With the new name, the text does not resolve as before.
    ChangedMeaning,
}

/// Returns whether a text can refer to a name without writing it: operators call `__sub`, `__mul`, `__div` and `__lessThan`, paths in
/// `<>` use `__findFile` and `__nixPath`, and the old `let` takes the values of its names from `__overrides`.
pub fn is_special_name(name: &str) -> bool
    ensures { result ≡ is_special_name name.now }
{
    name == "__sub"
        || name == "__mul"
        || name == "__div"
        || name == "__lessThan"
        || name == "__findFile"
        || name == "__nixPath"
        || name == "__overrides"
}

impl Obstacle {
    // Returns the message.
    fn text(self) -> &'static str
        ensures { result.now ≡ obstacle_text self }
    {
        match self {
            Obstacle::Inherited => "the name is inherited: give it its own entry first",
            Obstacle::Argument => "callers give this argument by its name",
            Obstacle::Attribute => "the name is an attribute of a set",
            Obstacle::Quoted => "the name is written in quotes",
            Obstacle::Body => "the old `let` needs its `body`",
            Obstacle::Special => "operators, paths in `<>` or the old `let` refer to the name",
            Obstacle::InheritedBySet => "a set inherits the name: give it its own entry first",
        }
    }
}

impl Refusal {
    // Returns the message.
    fn text(self) -> &'static str
        ensures { result.now ≡ refusal_text self }
    {
        match self {
            Refusal::NotAName => "NAME is not a name",
            Refusal::SpecialName => "operators, paths in `<>` or the old `let` refer to NAME",
            Refusal::NoName => "there is no name here",
            Refusal::Unbound => "nothing in the text binds the name",
            Refusal::Obstacle(obstacle) => obstacle.text(),
            Refusal::OtherSpelling => "the name is written in another way at some place",
            Refusal::ChangedMeaning => "with the new name, some name would refer to something else",
        }
    }
}

impl fmt::Display for Refusal {
    ghost use Rattle.std.specs.Prelude.{Some};
    ghost use Rattle.nix_rename.specs.Refused.{refusal_text};

    ghost output = { λ refusal. Some (refusal_text refusal) };

    fn fmt<W: fmt::Write>(&self, f: &mut fmt::Formatter<W>) -> fmt::Result {
        f.write_str(self.text())
    }
}

// Returns the reason why a part of a binding cannot be renamed, if there is one. `parent` is the kind of its node's parent.
fn obstacle_in(parent: SyntaxKind, part: &Binding<'_>) -> Option<Obstacle>
    ensures { result ≡ obstacle_in parent (bound_of part.now) }
{
    let scope = part.scope.kind();
    if parent == SyntaxKind::NODE_INHERIT {
        Some(Obstacle::Inherited)
    } else if parent == SyntaxKind::NODE_PAT_ENTRY {
        Some(Obstacle::Argument)
    } else if scope == SyntaxKind::NODE_ATTR_SET {
        Some(Obstacle::Attribute)
    } else if part.node.kind() != SyntaxKind::NODE_IDENT {
        Some(Obstacle::Quoted)
    } else if scope == SyntaxKind::NODE_LEGACY_LET && part.text.as_str() == "body" {
        Some(Obstacle::Body)
    } else if is_special_name(part.text.as_str()) {
        Some(Obstacle::Special)
    } else {
        None
    }
}

// Returns the reason why a part cannot be renamed, if it is a part of the binding with this number and there is a reason.
fn obstacle_of_part(part: &Binding<'_>, number: usize) -> Option<Obstacle>
    ensures { result ≡ obstacle_of_part number part.now }
{
    if part.first == number {
        obstacle_in(part.node.parent()?.kind(), part)
    } else {
        None
    }
}

// Returns the reason of the first of these parts that cannot be renamed, among those of the binding with this number.
fn obstacle_among(parts: &[Binding<'_>], number: usize) -> Option<Obstacle>
    ensures { result ≡ obstacle_among number parts.now }
{
    for part in parts {
        if let Some(obstacle) = obstacle_of_part(part, number) {
            return Some(obstacle);
        }
    }
    None
}

// Returns whether one of these references inherits the binding with this number.
fn is_inherited(references: &[Reference<'_>], number: usize) -> bool
    ensures { result ≡ list_any (inherits number) references.now }
{
    for reference in references {
        if reference.is_inherited && reference.binding == Some(number) {
            return true;
        }
    }
    false
}

/// Returns the reason why the binding with this number cannot be renamed, if there is one.
pub fn obstacle_of_binding(names: &Resolution<'_>, number: usize) -> Option<Obstacle>
    ensures { result ≡ obstacle_of_binding number names.now }
{
    if let Some(obstacle) = obstacle_among(names.bindings(), number) {
        return Some(obstacle);
    }
    if is_inherited(names.references(), number) {
        return Some(Obstacle::InheritedBySet);
    }
    None
}
