//! Checks that a text with a new name for one binding resolves like the old text.

ghost use Rattle.std.specs.Prelude.{◌≡◌, length, map, nat_le, IfOk};
ghost use Rattle.std.specs.Bool.{Decides};
ghost use Rattle.std.specs.List.{AllZip};
ghost use Rattle.std.specs.List.Sorted.{IsNonDecreasing, IsPermutation};
ghost use Rattle.nix_scopes.specs.Occurrences.{occurrences_of};
ghost use Rattle.nix_scopes.specs.Alike.{rename_by, rename_in, ended_by, IsMovedBy, IsMoved, IsNodeMoved, IsBoundAlike, RefersAlike, AreAlike};

use crate::resolution::{Binding, Reference, Resolution};
use rnix::SyntaxNode;
use std::alloc::{AllocError, Global};

// A new name for the binding with a number, the length of the old name, and the ends of its occurrences, in ascending order.
#[derive(Drop)]
struct NewName<'n> {
    number: usize,
    text: &'n str,
    old: usize,
    ends: Vec<usize>,
}

// Returns the number of these ends that are at an offset or before it.
fn ended_by(ends: &[usize], offset: usize) -> usize
    requires { IsNonDecreasing ends.now }
    ensures { result ≡ ended_by ends.now offset }
{
    ends.partition_point(
        |end: &usize| -> bool
            ensures { result ≡ nat_le end.now offset }
        { *end <= offset },
    )
}

// Returns whether the offset `from` becomes `to` if `ended` occurrences before it change their length from `old` to `new`.
fn is_moved_by(ended: usize, old: usize, new: usize, from: usize, to: usize) -> bool
    ensures { Decides result (IsMovedBy ended old new from to) }
{
    let ended = ended as u128;
    to as u128 + ended * old as u128 == from as u128 + ended * new as u128
}

impl NewName<'_> {
    // Returns whether an offset moves to another one in the text with the new name.
    fn moves(&self, from: usize, to: usize) -> bool
        requires { IsNonDecreasing self.now.ends.items }
        ensures { Decides result (IsMoved (rename_by self.now) from to) }
    {
        let ended = ended_by(&self.ends, from);
        is_moved_by(ended, self.old, self.text.len(), from, to)
    }

    // Returns whether a node moves to another one in the text with the new name.
    fn moves_node(&self, from: &SyntaxNode<'_>, to: &SyntaxNode<'_>) -> bool
        requires { IsNonDecreasing self.now.ends.items }
        ensures { Decides result (IsNodeMoved (rename_by self.now) from.now to.now) }
    {
        let (from, to) = (from.text_range(), to.text_range());
        self.moves(from.start(), to.start()) && self.moves(from.end(), to.end())
    }

    // Returns whether another binding is the same one in the text with the new name.
    fn binds(&self, binding: &Binding<'_>, other: &Binding<'_>) -> bool
        requires { IsNonDecreasing self.now.ends.items }
        ensures { Decides result (IsBoundAlike (rename_by self.now) binding.now other.now) }
    {
        let text = if binding.first == self.number {
            self.text
        } else {
            binding.text.as_str()
        };
        other.text.as_str() == text
            && other.first == binding.first
            && self.moves_node(&binding.node, &other.node)
            && self.moves_node(&binding.scope, &other.scope)
    }

    // Returns whether another reference is the same one in the text with the new name.
    fn refers(&self, reference: &Reference<'_>, other: &Reference<'_>) -> bool
        requires { IsNonDecreasing self.now.ends.items }
        ensures { Decides result (RefersAlike (rename_by self.now) reference.now other.now) }
    {
        let text = if reference.binding == Some(self.number) {
            self.text
        } else {
            reference.text.as_str()
        };
        other.text.as_str() == text
            && other.binding == reference.binding
            && other.is_inherited == reference.is_inherited
            && other.is_open == reference.is_open
            && self.moves_node(&reference.node, &other.node)
    }
}

// Returns whether another text has as many bindings, each the same one with the new name.
fn are_bound_alike(bindings: &[Binding<'_>], others: &[Binding<'_>], name: &NewName<'_>) -> bool
    requires { IsNonDecreasing name.now.ends.items }
    ensures { Decides result (AllZip (IsBoundAlike (rename_by name.now)) bindings.now others.now) }
{
    if bindings.len() != others.len() {
        return false;
    }
    for index in 0..bindings.len() {
        if !name.binds(&bindings[index], &others[index]) {
            return false;
        }
    }
    true
}

// Returns whether another text has as many references, each the same one with the new name.
fn refer_alike(references: &[Reference<'_>], others: &[Reference<'_>], name: &NewName<'_>) -> bool
    requires { IsNonDecreasing name.now.ends.items }
    ensures { Decides result (AllZip (RefersAlike (rename_by name.now)) references.now others.now) }
{
    if references.len() != others.len() {
        return false;
    }
    for index in 0..references.len() {
        if !name.refers(&references[index], &others[index]) {
            return false;
        }
    }
    true
}

// Returns whether another text has the same bindings and references with the new name.
fn are_alike(names: &Resolution<'_>, others: &Resolution<'_>, name: &NewName<'_>) -> bool
    requires { IsNonDecreasing name.now.ends.items }
    ensures { Decides result (AreAlike (rename_by name.now) names.now others.now) }
{
    are_bound_alike(names.bindings(), others.bindings(), name)
        && refer_alike(names.references(), others.references(), name)
}

impl Resolution<'_> {
    // Returns the ends of the occurrences of the binding with a number, in ascending order.
    fn ends(&self, alloc: Global, number: usize) -> Result<Vec<usize>, AllocError>
        ensures exactly { IfOk result (λ ends. IsPermutation (map (λ extent. extent.end) (occurrences_of number self.now)) ends.items) }
        ensures order { IfOk result (λ ends. IsNonDecreasing ends.items) }
    {
        let mut ends = Vec::new(alloc);
        for extent in &self.occurrences(alloc, number)? {
            ends.push(extent.end())?;
        }
        ends.sort()?;
        Ok(ends)
    }

    /// Returns whether another text has the same bindings and references at corresponding offsets, where the binding with a number has a new name in the other
    /// text. `old` is the length of its old name.
    pub fn is_like(
        &self,
        alloc: Global,
        other: &Resolution<'_>,
        number: usize,
        old: usize,
        name: &str,
    ) -> Result<bool, AllocError>
        ensures { IfOk result (λ passes. Decides passes (AreAlike (rename_in self.now number old name.now) self.now other.now)) }
    {
        let ends = self.ends(alloc, number)?;
        let name = NewName {
            number,
            text: name,
            old,
            ends,
        };
        Ok(are_alike(self, other, &name))
    }
}
