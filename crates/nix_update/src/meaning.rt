//! Checks that names mean the same in a text with one more entry.

ghost use Rattle.std.specs.Prelude.{◌≡◌, option_map, IfSome, IfNone};
ghost use Rattle.std.specs.Bool.{Decides};
ghost use Rattle.nix_update.specs.SameNames.{shifted, start_of, is_outside, binding_at, AreInSameScope, IsSameReference, HaveSameMeaning};

use nix_scopes::{Binding, Reference, Resolution};
use rnix::SyntaxNode;

/// The difference of two texts of which one has one more entry.
#[derive(Clone, Copy)]
pub struct Change {
    /// The start and the end of the entry in the longer text.
    pub start: usize,
    pub end: usize,
    /// The lengths of the texts in bytes. Where blanks are replaced, the text with the entry may be the shorter one all the same.
    pub longer: usize,
    pub shorter: usize,
}

/// Two names that do not mean the same, or one that is missing: their offsets in the longer and in the shorter text.
#[derive(Clone, Copy, PartialEq, Eq, Debug)]
pub struct Difference {
    pub longer: Option<usize>,
    pub shorter: Option<usize>,
}

// Returns the offset in the shorter text for an offset in the longer one that is not in the entry.
fn shifted(change: Change, offset: usize) -> Option<u128>
    ensures { result ≡ shifted change offset }
{
    let moved = offset as u128 + change.shorter as u128;
    let longer = change.longer as u128;
    if offset < change.start {
        Some(offset as u128)
    } else if offset < change.end {
        None
    } else if longer <= moved {
        Some(moved - longer)
    } else {
        None
    }
}

// Returns the start of a node.
fn start_of(node: &SyntaxNode<'_>) -> usize
    ensures { result ≡ start_of node.now }
{
    node.text_range().start()
}

// Returns whether a reference is outside the entry.
fn is_outside(change: Change, reference: &Reference<'_>) -> bool
    ensures { result ≡ is_outside change reference.now }
{
    let start = start_of(&reference.node);
    start < change.start || change.end <= start
}

// Returns whether two bindings are in the same scope, or both are missing.
fn are_in_same_scope(
    change: Change,
    longer: Option<&Binding<'_>>,
    shorter: Option<&Binding<'_>>,
) -> bool
    ensures { Decides result (AreInSameScope change (option_map (λ binding. binding.now) longer.entry)
        (option_map (λ binding. binding.now) shorter.entry)) }
{
    match (longer, shorter) {
        (Some(longer), Some(shorter)) => {
            shifted(change, start_of(&longer.scope)) == Some(start_of(&shorter.scope) as u128)
        }
        (None, None) => true,
        _ => false,
    }
}

// Returns the binding with a number, if there is one.
fn binding_at<'r, 't>(names: &'r Resolution<'t>, number: Option<usize>) -> Option<&'r Binding<'t>>
    ensures { option_map (λ binding. binding.now) result ≡ binding_at names.now number }
{
    names.bindings().get(number?)
}

// Returns whether two references of the texts correspond: they have the same name, which is bound in the same scope, or by nothing in the text.
fn is_same_reference(
    change: Change,
    longer: &Resolution<'_>,
    shorter: &Resolution<'_>,
    reference: &Reference<'_>,
    other: &Reference<'_>,
) -> bool
    ensures { Decides result (IsSameReference change longer.now shorter.now reference.now other.now) }
{
    reference.text.as_str() == other.text.as_str()
        && reference.is_inherited == other.is_inherited
        && reference.is_open == other.is_open
        && are_in_same_scope(
            change,
            binding_at(longer, reference.binding),
            binding_at(shorter, other.binding),
        )
}

// Returns the start of a reference, if it is given.
fn offset_of(reference: Option<&Reference<'_>>) -> Option<usize> {
    match reference {
        Some(reference) => Some(start_of(&reference.node)),
        None => None,
    }
}

// Returns two names that do not mean the same, of which one may be missing.
fn difference_at(longer: Option<&Reference<'_>>, shorter: Option<&Reference<'_>>) -> Difference {
    Difference {
        longer: offset_of(longer),
        shorter: offset_of(shorter),
    }
}

/// Returns the first names outside the entry that do not mean the same in the two texts.
pub fn first_difference(
    change: Change,
    longer: &Resolution<'_>,
    shorter: &Resolution<'_>,
) -> Option<Difference>
    ensures none { IfNone result (HaveSameMeaning change longer.now shorter.now) }
    ensures some { IfSome result (λ names. ¬ HaveSameMeaning change longer.now shorter.now) }
{
    let others = shorter.references();
    let mut next = 0;
    for reference in longer.references() {
        if is_outside(change, reference) {
            let Some(other) = others.get(next) else {
                return Some(difference_at(Some(reference), None));
            };
            if !is_same_reference(change, longer, shorter, reference, other) {
                return Some(difference_at(Some(reference), Some(other)));
            }
            next += 1;
        }
    }
    let other = others.get(next)?;
    Some(difference_at(None, Some(other)))
}
