//! The names that a text binds, and what its names refer to.

ghost use Rattle.std.specs.Prelude.{◌≡◌, length, map};
ghost use Rattle.nix_scopes.specs.Bound.{bindings_of, references_of, bound_of, resolved_of, AreFirst};
ghost use Rattle.nix_scopes.specs.Resolved.{bindings_in, resolved_in};
ghost use Rattle.rnix_c.specs.Answers.{filled, IsWritten, Answers};
ghost use Rattle.rnix_c.specs.NameCalls.{binding_of, reference_of, bindings_written, references_written, WritesNames};

use crate::answers::{NO_MEMORY, parsed};
use crate::elements::number_or_none;
use nix_scopes::{Binding, Reference, Resolution, resolve};
use rnix::SyntaxNode;
use std::alloc::Global;

/// A name that a scope binds: the ranges of the name and of the scope, and the number of the first binding of the name in the scope.
#[repr(C)]
#[derive(Clone, Copy)]
pub struct RnixBinding {
    pub start: u64,
    pub end: u64,
    pub scope_start: u64,
    pub scope_end: u64,
    pub first: u64,
    pub kind: u32,
    pub scope_kind: u32,
}

/// A name that refers to a binding: its range, and the number of the binding.
#[repr(C)]
#[derive(Clone, Copy)]
pub struct RnixReference {
    pub start: u64,
    pub end: u64,
    pub binding: u64,
    pub kind: u32,
    pub is_inherited: u32,
    pub is_open: u32,
}

// Returns a binding as numbers.
fn binding_of(binding: &Binding<'_>) -> RnixBinding
    ensures { result ≡ binding_of binding.now.first (bound_of binding.now) }
{
    let (name, scope) = (binding.node.text_range(), binding.scope.text_range());
    RnixBinding {
        start: name.start() as u64,
        end: name.end() as u64,
        scope_start: scope.start() as u64,
        scope_end: scope.end() as u64,
        first: binding.first as u64,
        kind: binding.node.kind() as u32,
        scope_kind: binding.scope.kind() as u32,
    }
}

// Returns a reference as numbers.
fn reference_of(reference: &Reference<'_>) -> RnixReference
    ensures { result ≡ reference_of (resolved_of reference.now) }
{
    let range = reference.node.text_range();
    RnixReference {
        start: range.start() as u64,
        end: range.end() as u64,
        binding: number_or_none(reference.binding),
        kind: reference.node.kind() as u32,
        is_inherited: if reference.is_inherited { 1 } else { 0 },
        is_open: if reference.is_open { 1 } else { 0 },
    }
}

// Writes the first bindings, as many as fit into the array.
fn fill_bindings(bindings: &[Binding<'_>], room: &mut [RnixBinding])
    ensures { room.new ≡ filled (map (λ binding. binding_of binding.first (bound_of binding)) bindings.now) room.old }
{
    for number in 0..bindings.len().min(room.len()) {
        room[number] = binding_of(&bindings[number]);
    }
}

// Writes the first references, as many as fit into the array.
fn fill_references(references: &[Reference<'_>], room: &mut [RnixReference])
    ensures { room.new ≡ filled (map reference_of (map resolved_of references.now)) room.old }
{
    for number in 0..references.len().min(room.len()) {
        room[number] = reference_of(&references[number]);
    }
}

/// Writes the first bindings and references, as many as fit into the arrays, and the number of references. Returns the number of bindings.
pub fn write_names(
    names: &Resolution<'_>,
    root: &SyntaxNode<'_>,
    bindings: &mut [RnixBinding],
    references: &mut [RnixReference],
    reference_count: &mut u64,
) -> i64
    requires bound { map bound_of (bindings_of names.now) ≡ bindings_in root.now }
    requires firsts { AreFirst (bindings_of names.now) }
    requires resolved { map resolved_of (references_of names.now) ≡ resolved_in root.now }
    ensures bindings { IsWritten (bindings_written root.now) result bindings.old bindings.new }
    ensures references { references.new ≡ filled (references_written root.now) references.old }
    ensures count { reference_count.new ≡ length (references_written root.now) }
{
    let bound = names.bindings();
    let referring = names.references();
    fill_bindings(bound, bindings);
    fill_references(referring, references);
    *reference_count = referring.len() as u64;
    bound.len() as i64
}

/// Writes the bindings and the references of a text, and the number of references. Returns the number of bindings.
#[unsafe(no_mangle)]
pub extern "C" fn rnix_names(
    alloc: Global,
    text: &[u8],
    bindings: &mut [RnixBinding],
    references: &mut [RnixReference],
    reference_count: &mut u64,
) -> i64
    ensures { Answers text.now result ((bindings.new ≡ bindings.old) × (references.new ≡ references.old) × (reference_count.new ≡ reference_count.old))
        (λ tree _. WritesNames tree result bindings.old bindings.new references.old references.new reference_count.new) }
{
    let (green, _errors) = match parsed(alloc, text) {
        Ok(read) => read,
        Err(answer) => return answer,
    };
    let root = SyntaxNode::new_root(&green);
    match resolve(alloc, &root) {
        Ok(names) => write_names(&names, &root, bindings, references, reference_count),
        Err(_) => NO_MEMORY,
    }
}
