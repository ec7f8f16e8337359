//! Renames a binding and its uses.

ghost use Rattle.std.specs.Prelude.{◌≡◌, map, string_bytes, IfOk, IfSome, IfNone};
ghost use Rattle.std.specs.Bool.{MatchBool};
ghost use Rattle.rnix_green.specs.Range.{bounds_of};
ghost use Rattle.rnix_base.specs.Select.{child_of};
ghost use Rattle.rnix.specs.NodeKinds.{is_expr};
ghost use Rattle.nix_rename.specs.Changed.{IsChanged, IsUnchangeable, IsOccurrenceTested};
ghost use Rattle.nix_rename.specs.Renamed.{is_whole_name, is_name_whole, IsName, IsNoName, ResolvesTheSame, ResolvesDifferently};
ghost use Rattle.nix_rename.specs.Renamed.{IsNamed, IsReason, IsRenamed, IsCause, IfRenamed, IfRefused};

use crate::refusal::{Refusal, is_special_name, obstacle_of_binding};
use nix_scopes::{Binding, Resolution, name_at, resolve};
use rnix::ast::AstNode;
use rnix::{Root, SyntaxKind, SyntaxNode, TextRange};
use rnix_text::{EditError, Edits};
use std::alloc::{AllocError, Global};

/// The result of a renaming: the new text, or the refusal.
#[derive(Drop)]
pub enum Renaming {
    Renamed(String),
    Refused(Refusal),
}

// Returns whether a node is a name with this text.
fn is_whole_name(node: &SyntaxNode<'_>, text: &str) -> bool
    ensures { result ≡ is_whole_name node.now text.now }
{
    node.kind() == SyntaxKind::NODE_IDENT && node.text() == text
}

// Returns whether the expression of a tree is a name with this text.
fn is_name_whole(root: &Root<'_>, text: &str) -> bool
    ensures { result ≡ is_name_whole (child_of is_expr 0 root.now) text.now }
{
    match root.expr() {
        Some(expr) => is_whole_name(expr.syntax(), text),
        None => false,
    }
}

// Returns whether a text is a name and nothing else.
fn is_name(alloc: Global, text: &str) -> Result<bool, AllocError>
    ensures { IfOk result (λ passes. MatchBool passes (IsName text.now) (IsNoName text.now)) }
{
    let read = Root::parse(alloc, text)?;
    let is_whole = is_name_whole(&read.tree(), text);
    Ok(is_whole && read.errors().is_empty())
}

// Adds the edit of an occurrence, if the text contains the old name there and no earlier edit overlaps it. Returns whether it was added.
fn add_change(
    edits: &mut Edits<'_>,
    text: &str,
    occurrence: TextRange,
    old: &str,
    new: &str,
) -> Result<bool, AllocError>
    requires { edits.old.text ≡ text.now }
    ensures text { edits.new.text ≡ edits.old.text }
    ensures tested { IfOk result (IsOccurrenceTested (bounds_of occurrence) old.now new.now edits.old edits.new) }
{
    let (start, end) = (occurrence.start(), occurrence.end());
    match text.get(start..end) {
        Some(found) if found == old => match edits.replace(start..end, new) {
            Ok(()) => Ok(true),
            Err(EditError::Memory) => Err(AllocError),
            Err(_) => Ok(false),
        },
        _ => Ok(false),
    }
}

// Returns the text with a new name at these occurrences, if each of them is the old name.
fn changed(
    alloc: Global,
    text: &str,
    occurrences: &[TextRange],
    old: &str,
    new: &str,
) -> Result<Option<String>, AllocError>
    ensures changed { IfOk result (λ made. IfSome made (λ made.
        IsChanged text.now (map bounds_of occurrences.now) old.now new.now (string_bytes made))) }
    ensures unchanged { IfOk result (λ made. IfNone made (IsUnchangeable text.now (map bounds_of occurrences.now) old.now)) }
{
    let mut edits = Edits::new(alloc, text);
    for occurrence in occurrences {
        if !add_change(&mut edits, text, *occurrence, old, new)? {
            return Ok(None);
        }
    }
    Ok(Some(edits.apply(alloc)?))
}

// Returns whether a text has no errors, and has the same bindings and references as `names` but for the new name of one binding.
fn resolves_the_same(
    alloc: Global,
    names: &Resolution<'_>,
    binding: &Binding<'_>,
    new: &str,
    text: &str,
) -> Result<bool, AllocError>
    ensures { IfOk result (λ passes. MatchBool passes (ResolvesTheSame names.now binding.now new.now text.now)
        (ResolvesDifferently names.now binding.now new.now text.now)) }
{
    let read = Root::parse(alloc, text)?;
    let others = resolve(alloc, &read.syntax())?;
    let is_like = names.is_like(alloc, &others, binding.first, binding.text.len(), new)?;
    Ok(is_like && read.errors().is_empty())
}

// Returns the text in which a binding has a new name.
fn named(
    alloc: Global,
    text: &str,
    names: &Resolution<'_>,
    binding: &Binding<'_>,
    new: &str,
) -> Result<Renaming, AllocError>
    ensures named { IfOk result (IfRenamed (IsNamed text.now names.now binding.now new.now)) }
    ensures refused { IfOk result (IfRefused (λ refusal. IsReason refusal text.now names.now binding.now new.now)) }
{
    if let Some(obstacle) = obstacle_of_binding(names, binding.first) {
        return Ok(Renaming::Refused(Refusal::Obstacle(obstacle)));
    }
    let occurrences = names.occurrences(alloc, binding.first)?;
    let Some(made) = changed(alloc, text, &occurrences, binding.text.as_str(), new)? else {
        return Ok(Renaming::Refused(Refusal::OtherSpelling));
    };
    if resolves_the_same(alloc, names, binding, new, made.as_str())? {
        Ok(Renaming::Renamed(made))
    } else {
        Ok(Renaming::Refused(Refusal::ChangedMeaning))
    }
}

/// Renames the binding of the name at an offset, and all its uses. Refuses if the text does not bind the name, if others see it (inherited names, attributes
/// of sets, arguments passed by name), if operators use the old or the new name, and if a name would then mean something else.
pub fn rename(
    alloc: Global,
    text: &str,
    root: &SyntaxNode<'_>,
    offset: usize,
    new: &str,
) -> Result<Renaming, AllocError>
    ensures renamed { IfOk result (IfRenamed (IsRenamed text.now root.now offset new.now)) }
    ensures refused { IfOk result (IfRefused (λ refusal. IsCause refusal text.now root.now offset new.now)) }
{
    if !is_name(alloc, new)? {
        return Ok(Renaming::Refused(Refusal::NotAName));
    }
    if is_special_name(new) {
        return Ok(Renaming::Refused(Refusal::SpecialName));
    }
    let Some(node) = name_at(root, offset) else {
        return Ok(Renaming::Refused(Refusal::NoName));
    };
    let names = resolve(alloc, root)?;
    let Some(binding) = names.binding_at(&node) else {
        return Ok(Renaming::Refused(Refusal::Unbound));
    };
    named(alloc, text, &names, binding, new)
}
