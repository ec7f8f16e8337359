//! Checks that other names keep their meaning when an attribute is added or removed.

ghost use Rattle.std.specs.Prelude.{◌≡◌, ◌&&◌, not, None, drop, map, option_map, slice_get, string_bytes, bytes_eq, IsSome, IfOk, IfSome, IfNone};
ghost use Rattle.std.specs.List.{list_any};
ghost use Rattle.std.specs.Cow.{cow_str_bytes};
ghost use Rattle.rnix_green.specs.Range.{bounds_of};
ghost use Rattle.rnix_green.specs.Tree.{extent_of};
ghost use Rattle.nix_update.specs.SameNames.{begins_outside, is_open_among, HasNoOpenName, no_range};
ghost use Rattle.nix_scopes.specs.Binders.{is_recursive};
ghost use Rattle.nix_update.specs.declared.outcome.Reason.TheVariants as reason;
ghost use Rattle.nix_update.specs.SpecialNames.{is_special, is_special_if, is_special_step, HasSpecialName, HasNoSpecialName};
ghost use Rattle.nix_update.specs.NotUpdated.{HasOpenName, IsMeaningChangedWith, IsMeaningChangedWithout, IsAdditionRefused, IsRemovalRefused};
ghost use Rattle.nix_update.specs.Updated.{parent_at, member_at, change_of, IsMeaningKeptWith, IsMeaningKeptWithout};

use crate::change::last_member;
use crate::meaning::{Change, first_difference};
use crate::outcome::{Reason, Refused, refuse_at};
use crate::steps::PathStep;
use nix_scopes::{Reference, resolve};
use rnix::ast::{AstNode, AttrSet};
use rnix::{Root, SyntaxKind, SyntaxNode, TextRange};
use std::alloc::{AllocError, Global};

/// The set in which an attribute is added or removed.
#[derive(Clone, Copy)]
pub struct Site<'s, 't> {
    pub text: &'s str,
    pub root: &'s SyntaxNode<'t>,
    pub set: &'s SyntaxNode<'t>,
    /// The names of the path of the attribute, and the expressions along it.
    pub names: &'s [String],
    pub steps: &'s [PathStep<'t>],
    /// The number of names that lead to the set.
    pub at: usize,
}

// Returns whether operators refer to a name, or `rec` sets treat it specially.
fn is_special(name: &str) -> bool
    ensures { result ≡ is_special name.now }
{
    name == "__sub"
        || name == "__mul"
        || name == "__div"
        || name == "__lessThan"
        || name == "__findFile"
        || name == "__nixPath"
        || name == "__overrides"
}

// Returns whether the name with index `at` is special in this sense.
fn is_special_at(names: &[String], at: usize) -> bool
    ensures { result ≡ is_special_if (slice_get (map string_bytes names.now) at) }
{
    match names.get(at) {
        Some(name) => is_special(name.as_str()),
        None => false,
    }
}

// Returns whether a node is a set with `rec`.
fn is_recursive(node: &SyntaxNode<'_>) -> bool
    ensures { result ≡ is_recursive node.now }
{
    match AttrSet::cast(node.clone()) {
        Some(set) => set.rec_token().is_some(),
        None => false,
    }
}

// Returns whether an expression along the path is a `rec` set, to which no name of a `let` leads, and the next name of the path is special.
fn is_special_step(names: &[String], step: &PathStep<'_>) -> bool
    ensures { result ≡ is_special_step (map string_bytes names.now) step.now }
{
    !step.in_let && is_special_at(names, step.at) && is_recursive(&step.node)
}

// Returns the first `rec` set along the path in which the next name of the path is special.
fn special_set<'s, 't>(site: Site<'s, 't>) -> Option<&'s SyntaxNode<'t>>
    ensures some { IfSome result (λ set. HasSpecialName (map string_bytes site.entry.names.now) site.entry.steps.now) }
    ensures none { IfNone result (HasNoSpecialName (map string_bytes site.entry.names.now) site.entry.steps.now) }
{
    for step in site.steps {
        if is_special_step(site.names, step) {
            return Some(&step.node);
        }
    }
    None
}

// Returns the reason, if there is one, why no attribute can be added to a set or removed from it, whatever names refer to.
fn set_refusal(site: Site<'_, '_>) -> Option<Refused>
    ensures some { IfSome result (λ refused. (refused.reason ≡ reason.SpecialName)
        × HasSpecialName (map string_bytes site.entry.names.now) site.entry.steps.now) }
    ensures none { IfNone result (HasNoSpecialName (map string_bytes site.entry.names.now) site.entry.steps.now) }
{
    let set = special_set(site)?;
    Some(refuse_at(Reason::SpecialName, set.text_range().start()))
}

// Returns the first node of a kind inside a node that begins at an offset.
fn parent_at<'t>(root: &SyntaxNode<'t>, kind: SyntaxKind, start: usize) -> Option<SyntaxNode<'t>>
    ensures { result ≡ parent_at kind start root.now }
{
    for node in root.descendants() {
        if node.kind() == kind && node.text_range().start() == start {
            return Some(node);
        }
    }
    None
}

// Returns the last entry or element of that node.
fn member_at<'t>(root: &SyntaxNode<'t>, kind: SyntaxKind, start: usize) -> Option<SyntaxNode<'t>>
    ensures { result ≡ member_at (parent_at kind start root.now) }
{
    last_member(&parent_at(root, kind, start)?)
}

// Returns the entry that a longer text has in addition to a shorter one.
fn change_of(entry: &SyntaxNode<'_>, longer: &str, shorter: &str) -> Change
    ensures { result ≡ change_of entry.now longer.now shorter.now }
{
    let range = entry.text_range();
    Change {
        start: range.start(),
        end: range.end(),
        longer: longer.len(),
        shorter: shorter.len(),
    }
}

/// Returns the offset of the first name that means something else in the text with a new last entry of a set or element of a list, or `None` if all names mean
/// the same.
pub fn difference_with(
    alloc: Global,
    text: &str,
    root: &SyntaxNode<'_>,
    set: &SyntaxNode<'_>,
    made: &str,
) -> Result<Option<usize>, AllocError>
    ensures none { IfOk result (λ offset. IfNone offset (IsMeaningKeptWith text.now root.now set.now made.now)) }
    ensures some { IfOk result (λ offset. IfSome offset (λ at. IsMeaningChangedWith text.now root.now set.now made.now)) }
{
    let start = set.text_range().start();
    let read = Root::parse(alloc, made)?;
    let new = read.syntax();
    let names = resolve(alloc, root)?;
    let others = resolve(alloc, &new)?;
    let Some(entry) = member_at(&new, set.kind(), start) else {
        return Ok(Some(start));
    };
    match first_difference(change_of(&entry, made, text), &others, &names) {
        Some(difference) => Ok(Some(difference.shorter.unwrap_or(start))),
        None => Ok(None),
    }
}

/// Returns the offset of the first name that means something else in the text without an entry or element, or `None` if all names mean the same.
pub fn difference_without(
    alloc: Global,
    text: &str,
    root: &SyntaxNode<'_>,
    entry: &SyntaxNode<'_>,
    made: &str,
) -> Result<Option<usize>, AllocError>
    ensures none { IfOk result (λ offset. IfNone offset (IsMeaningKeptWithout text.now root.now entry.now made.now)) }
    ensures some { IfOk result (λ offset. IfSome offset (λ at. IsMeaningChangedWithout text.now root.now entry.now made.now)) }
{
    let start = entry.text_range().start();
    let read = Root::parse(alloc, made)?;
    let names = resolve(alloc, root)?;
    let others = resolve(alloc, &read.syntax())?;
    match first_difference(change_of(entry, text, made), &names, &others) {
        Some(difference) => Ok(Some(difference.longer.unwrap_or(start))),
        None => Ok(None),
    }
}

// Returns whether a text is one of some names.
fn is_among(names: &[String], text: &str) -> bool
    ensures { result ≡ list_any (λ name. bytes_eq name text.now) (map string_bytes names.now) }
{
    for name in names {
        if name.as_str() == text {
            return true;
        }
    }
    false
}

// Returns whether a reference begins outside a range.
fn begins_outside(range: TextRange, reference: &Reference<'_>) -> bool
    ensures { result ≡ begins_outside (bounds_of range) reference.now }
{
    let start = reference.node.text_range().start();
    start < range.start() || range.end() <= start
}

// Returns whether a reference outside a range may come from a `with`, and has one of some names.
fn is_open_among(range: TextRange, names: &[String], reference: &Reference<'_>) -> bool
    ensures { result ≡ is_open_among (bounds_of range) (map string_bytes names.now) reference.now }
{
    begins_outside(range, reference)
        && reference.is_open
        && is_among(names, reference.text.as_str())
}

// Returns the offset of the first name outside a range that may come from a `with` and is one of some names.
fn open_name(
    alloc: Global,
    root: &SyntaxNode<'_>,
    range: TextRange,
    names: &[String],
) -> Result<Option<usize>, AllocError>
    ensures none { IfOk result (λ offset. IfNone offset (HasNoOpenName root.now (bounds_of range) (map string_bytes names.now))) }
    ensures some { IfOk result (λ offset. IfSome offset (λ at. HasOpenName root.now (bounds_of range) (map string_bytes names.now))) }
{
    let found = resolve(alloc, root)?;
    for reference in found.references() {
        if is_open_among(range, names, reference) {
            return Ok(Some(reference.node.text_range().start()));
        }
    }
    Ok(None)
}

// Returns the names from an index on.
fn rest_of(names: &[String], at: usize) -> &[String]
    ensures { result.now ≡ drop at names.now }
{
    match names.get(at..) {
        Some(rest) => rest,
        None => &[],
    }
}

// Returns the refusal of a change if a name outside a range that may come from a `with` is one of those of the attribute in the set of the change.
fn open_name_refusal(
    alloc: Global,
    site: Site<'_, '_>,
    range: TextRange,
) -> Result<Option<Refused>, AllocError>
    ensures none { IfOk result (λ refused. IfNone refused
        (HasNoOpenName site.entry.root.now (bounds_of range) (drop site.entry.at (map string_bytes site.entry.names.now)))) }
    ensures some { IfOk result (λ refused. IfSome refused (λ refused. (refused.reason ≡ reason.ChangedMeaning)
        × HasOpenName site.entry.root.now (bounds_of range) (drop site.entry.at (map string_bytes site.entry.names.now)))) }
{
    let names = rest_of(site.names, site.at);
    let offset = open_name(alloc, site.root, range, names)?;
    Ok(meaning_refusal(offset))
}

// Returns the refusal for a name that would mean something else, if there is one.
fn meaning_refusal(offset: Option<usize>) -> Option<Refused>
    ensures none { IfNone result (offset ≡ None) }
    ensures some { IfSome result (λ refused. (refused.reason ≡ reason.ChangedMeaning) × IsSome offset) }
{
    match offset {
        Some(offset) => Some(refuse_at(Reason::ChangedMeaning, offset)),
        None => None,
    }
}

/// Returns the refusal of a text with a new last entry of a set, if a name refers to something else in it.
pub fn addition_refusal(
    alloc: Global,
    site: Site<'_, '_>,
    made: &str,
) -> Result<Option<Refused>, AllocError>
    ensures kept { IfOk result (λ refused. IfNone refused (IsMeaningKeptWith site.entry.text.now site.entry.root.now site.entry.set.now made.now)) }
    ensures unopened { IfOk result (λ refused. IfNone refused
        (HasNoOpenName site.entry.root.now no_range (drop site.entry.at (map string_bytes site.entry.names.now)))) }
    ensures plain { IfOk result (λ refused. IfNone refused (HasNoSpecialName (map string_bytes site.entry.names.now) site.entry.steps.now)) }
    ensures refused { IfOk result (λ refused. IfSome refused (λ refused. IsAdditionRefused (map string_bytes site.entry.names.now)
        site.entry.steps.now site.entry.at site.entry.text.now site.entry.root.now site.entry.set.now made.now refused.reason)) }
{
    if let Some(refused) = set_refusal(site) {
        return Ok(Some(refused));
    }
    if let Some(refused) = open_name_refusal(alloc, site, TextRange::empty(0))? {
        return Ok(Some(refused));
    }
    let offset = difference_with(alloc, site.text, site.root, site.set, made)?;
    Ok(meaning_refusal(offset))
}

/// Returns the refusal of a text without an entry, if a name refers to something else in it.
pub fn removal_refusal(
    alloc: Global,
    site: Site<'_, '_>,
    entry: &SyntaxNode<'_>,
    made: &str,
) -> Result<Option<Refused>, AllocError>
    ensures kept { IfOk result (λ refused. IfNone refused (IsMeaningKeptWithout site.entry.text.now site.entry.root.now entry.now made.now)) }
    ensures unopened { IfOk result (λ refused. IfNone refused
        (HasNoOpenName site.entry.root.now (extent_of entry.now) (drop site.entry.at (map string_bytes site.entry.names.now)))) }
    ensures plain { IfOk result (λ refused. IfNone refused (HasNoSpecialName (map string_bytes site.entry.names.now) site.entry.steps.now)) }
    ensures refused { IfOk result (λ refused. IfSome refused (λ refused. IsRemovalRefused (map string_bytes site.entry.names.now)
        site.entry.steps.now site.entry.at site.entry.text.now site.entry.root.now entry.now made.now refused.reason)) }
{
    if let Some(refused) = set_refusal(site) {
        return Ok(Some(refused));
    }
    if let Some(refused) = open_name_refusal(alloc, site, entry.text_range())? {
        return Ok(Some(refused));
    }
    let offset = difference_without(alloc, site.text, site.root, entry, made)?;
    Ok(meaning_refusal(offset))
}
