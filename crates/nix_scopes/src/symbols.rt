//! The names in scope at the current node of a walk.

ghost use Rattle.std.specs.Prelude.{◌≡◌, ℕ, ◌<◌, ◌≤◌, ◌+◌, ◌++◌, [], ◌∷◌, List, Option, Some, None, length, map, get_or, slice_get};
ghost use Rattle.std.specs.Prelude.{IsSome, IfOk, OnOk, if◌then◌else◌};
ghost use Rattle.std.specs.Cow.{cow_str_bytes};
ghost use Rattle.std.specs.Str.{bytes_eq};
ghost use Rattle.rnix_green.specs.Tree.{Located};
ghost use Rattle.nix_scopes.specs.Binders.{named, names_bound};
ghost use Rattle.nix_scopes.specs.Scopes.{Bound, bound_in};
ghost use Rattle.nix_scopes.specs.Bound.{bound_of, AreFirst};
ghost use Rattle.nix_scopes.specs.Resolving.{IsKeyOf, number_by, shadowed_by, outside_of, own_of, first_of, outer_by, first_four, last_four, fingerprint_of};
ghost use Rattle.nix_scopes.specs.Resolving.{IsBinding, IsLonger, IsShadowed, IsRestored, IsSymbolTable};

use crate::name_text::NameText;
use crate::names::{Name, names_bound};
use crate::resolution::Binding;
use rnix::SyntaxNode;
use std::alloc::{AllocError, Global};
use std::borrow::CowStr;
use std::collections::BTreeMap;

/// A name, after a number made from some of its bytes. Most names differ in these numbers.
pub type Key<'t> = (u64, NameText<'t>);

/// The numbers of a scope's bindings: from the first up to, but not including, the end.
#[derive(Clone, Copy)]
pub struct Scope {
    pub first: usize,
    pub end: usize,
}

/// The names in scope at a position.
#[derive(Drop)]
pub struct SymbolTable<'t> {
    /// For each name in scope, the number of its innermost binding.
    pub numbers: BTreeMap<Key<'t>, usize>,
    /// For each binding, the number that its name has outside its scope.
    pub shadowed: Vec<Option<usize>>,
    /// The scopes around the position, innermost last.
    pub scopes: Vec<Scope>,
    // The names of the scope that was entered last. The list is reused for each scope.
    names: Vec<Name<'t>>,
}

// Returns the byte at an index, or 0 after the end.
fn byte_at(bytes: &[u8], index: usize) -> u8
    ensures { result ≡ get_or bytes.now index 0 }
{
    match bytes.get(index) {
        Some(byte) => *byte,
        None => 0,
    }
}

// Returns the number that the first four bytes of a name make. A missing byte counts as 0.
#[inline(always)]
fn first_four(bytes: &[u8]) -> u32
    ensures { result ≡ first_four bytes.now }
{
    u32::from_be_bytes([
        byte_at(bytes, 0),
        byte_at(bytes, 1),
        byte_at(bytes, 2),
        byte_at(bytes, 3),
    ])
}

// Returns the number that the last four bytes of a name make. In a shorter name, the first byte is repeated.
#[inline(always)]
fn last_four(bytes: &[u8]) -> u32
    ensures { result ≡ last_four bytes.now }
{
    let end = bytes.len();
    u32::from_be_bytes([
        byte_at(bytes, end.saturating_sub(4)),
        byte_at(bytes, end.saturating_sub(3)),
        byte_at(bytes, end.saturating_sub(2)),
        byte_at(bytes, end.saturating_sub(1)),
    ])
}

// Returns the number that the last and the first four bytes of a name make.
#[inline(always)]
fn fingerprint_in(bytes: &[u8]) -> u64
    ensures { result ≡ fingerprint_of bytes.now }
{
    u64::from(last_four(bytes)) * 4_294_967_296 + u64::from(first_four(bytes))
}

// Returns the number that some bytes of a short name make.
#[inline(never)]
fn fingerprint_of_short(bytes: &[u8]) -> u64
    ensures { result ≡ fingerprint_of bytes.now }
{
    fingerprint_in(bytes)
}

// Returns the number that some bytes of a name make. LLVM reads four bytes at once.
fn fingerprint_of(text: &str) -> u64
    ensures { result ≡ fingerprint_of text.now }
{
    let bytes = text.as_bytes();
    if bytes.len() < 4 {
        return fingerprint_of_short(bytes);
    }
    fingerprint_in(bytes)
}

/// Returns the key of a name that is a part of the text.
pub fn part_key<'t>(text: &'t str) -> Key<'t>
    ensures { IsKeyOf text.now result }
{
    (fingerprint_of(text), NameText::Borrowed(text))
}

/// Returns the key of a name.
pub fn key_of<'t>(text: &CowStr<'t>) -> Result<Key<'t>, AllocError>
    ensures { IfOk result (IsKeyOf (cow_str_bytes text.now)) }
{
    let fingerprint = fingerprint_of(text.as_str());
    Ok((fingerprint, NameText::of(text)?))
}

// Returns the number that the name of a binding has outside its scope.
fn shadowed_by(shadowed: &[Option<usize>], number: usize) -> Option<usize>
    ensures { result ≡ shadowed_by shadowed.now number }
{
    match shadowed.get(number) {
        Some(outer) => *outer,
        None => None,
    }
}

// Returns the number of a name outside a scope whose numbers begin with `first`, given its number inside.
fn outside(number: Option<usize>, first: usize, shadowed: &[Option<usize>]) -> Option<usize>
    ensures { result ≡ outside_of number first shadowed.now }
{
    match number {
        Some(own) if own >= first => shadowed_by(shadowed, own),
        _ => number,
    }
}

/// Returns a copy of a name's text. Allocates only if the text was allocated.
#[inline(always)]
pub fn copied<'t>(text: &CowStr<'t>) -> Result<CowStr<'t>, AllocError>
    ensures { IfOk result (λ copy. cow_str_bytes copy ≡ cow_str_bytes text.now) }
{
    match text {
        CowStr::Borrowed(part) => Ok(CowStr::Borrowed(*part)),
        CowStr::Owned(_) => Ok(text.clone()?),
    }
}

// Gives a name a number, unless it has one in its scope, whose numbers begin with `first`. Returns its number, and the one that it had before.
fn assign_number<'t>(
    numbers: &mut BTreeMap<Key<'t>, usize>,
    text: &CowStr<'t>,
    first: usize,
    number: usize,
) -> Result<(usize, Option<usize>), AllocError>
    ensures numbers { IfOk result (λ own. (other : List ℕ) →
        number_by numbers.new other ≡ (if bytes_eq (cow_str_bytes text.now) other then Some own.0 else number_by numbers.old other)) }
    ensures own { IfOk result (λ own. own.0 ≡ own_of (number_by numbers.old (cow_str_bytes text.now)) first number) }
    ensures old { IfOk result (λ own. own.1 ≡ number_by numbers.old (cow_str_bytes text.now)) }
{
    let old = numbers.insert(key_of(text)?, number)?;
    match old {
        Some(own) if own >= first => {
            numbers.insert(key_of(text)?, own)?;
            Ok((own, old))
        }
        _ => Ok((number, old)),
    }
}

// Binds a name in a scope whose numbers begin with `first`.
fn bind<'t>(
    name: &Name<'t>,
    scope: &SyntaxNode<'t>,
    first: usize,
    bindings: &mut Vec<Binding<'t>>,
    numbers: &mut BTreeMap<Key<'t>, usize>,
    shadowed: &mut Vec<Option<usize>>,
) -> Result<(), AllocError>
    ensures bindings { OnOk result (map bound_of bindings.new.items ≡ map bound_of bindings.old.items ++ bound_in scope.now (named name.now) ∷ []) }
    ensures binding { OnOk result ((outer : List ℕ → Option ℕ) →
        IsBinding outer (map bound_of bindings.old.items) numbers.old shadowed.old.items first scope.now →
        IsBinding outer (map bound_of bindings.new.items) numbers.new shadowed.new.items first scope.now) }
    ensures firsts { OnOk result ((outer : List ℕ → Option ℕ) →
        IsBinding outer (map bound_of bindings.old.items) numbers.old shadowed.old.items first scope.now →
        AreFirst bindings.old.items → AreFirst bindings.new.items) }
    ensures longer { OnOk result (IsLonger shadowed.old.items shadowed.new.items) }
{
    let (own, old) = assign_number(numbers, &name.text, first, bindings.len())?;
    let outer = outside(old, first, shadowed);
    shadowed.push(outer)?;
    bindings.push(Binding {
        text: copied(&name.text)?,
        node: name.node.clone(),
        scope: scope.clone(),
        first: own,
    })?;
    Ok(())
}

// Binds the names of a scope.
fn bind_names<'t>(
    names: &[Name<'t>],
    scope: &SyntaxNode<'t>,
    bindings: &mut Vec<Binding<'t>>,
    numbers: &mut BTreeMap<Key<'t>, usize>,
    shadowed: &mut Vec<Option<usize>>,
) -> Result<(), AllocError>
    ensures bindings { OnOk result (map bound_of bindings.new.items ≡ map bound_of bindings.old.items
        ++ map (bound_in scope.now) (map named names.now)) }
    ensures binding { OnOk result ((outer : List ℕ → Option ℕ) →
        IsBinding outer (map bound_of bindings.old.items) numbers.old shadowed.old.items (length bindings.old.items) scope.now →
        IsBinding outer (map bound_of bindings.new.items) numbers.new shadowed.new.items (length bindings.old.items) scope.now) }
    ensures firsts { OnOk result ((outer : List ℕ → Option ℕ) →
        IsBinding outer (map bound_of bindings.old.items) numbers.old shadowed.old.items (length bindings.old.items) scope.now →
        AreFirst bindings.old.items → AreFirst bindings.new.items) }
    ensures longer { OnOk result (IsLonger shadowed.old.items shadowed.new.items) }
{
    let first = bindings.len();
    for name in names {
        bind(name, scope, first, bindings, numbers, shadowed)?;
    }
    Ok(())
}

// Restores the number that a name had outside a scope, or removes the name if it had none.
fn restore<'t>(
    numbers: &mut BTreeMap<Key<'t>, usize>,
    text: &CowStr<'t>,
    shadowed: Option<usize>,
) -> Result<(), AllocError>
    ensures { OnOk result ((IsSome shadowed → IsSome (number_by numbers.old (cow_str_bytes text.now))) → (other : List ℕ) →
        number_by numbers.new other ≡ (if bytes_eq (cow_str_bytes text.now) other then shadowed else number_by numbers.old other)) }
{
    let key = key_of(text)?;
    match shadowed {
        Some(number) => match numbers.get_mut(&key) {
            Some(shown) => {
                *shown = number;
                Ok(())
            }
            None => Ok(()),
        },
        None => {
            let _shown = numbers.remove(&key);
            Ok(())
        }
    }
}

// Restores the number that the binding with a number shadowed.
fn restore_binding<'t>(
    number: usize,
    bindings: &[Binding<'t>],
    shadowed: &[Option<usize>],
    numbers: &mut BTreeMap<Key<'t>, usize>,
) -> Result<(), AllocError>
    ensures shown { OnOk result ((b : Bound) → slice_get (map bound_of bindings.now) number ≡ Some b →
        (IsSome (shadowed_by shadowed.now number) → IsSome (number_by numbers.old b.text)) → (text : List ℕ) →
        number_by numbers.new text ≡ (if bytes_eq b.text text then shadowed_by shadowed.now number else number_by numbers.old text)) }
    ensures same { OnOk result (slice_get (map bound_of bindings.now) number ≡ None → (text : List ℕ) →
        number_by numbers.new text ≡ number_by numbers.old text) }
{
    match bindings.get(number) {
        Some(binding) => restore(numbers, &binding.text, shadowed_by(shadowed, number)),
        None => Ok(()),
    }
}

// Restores the numbers that the bindings of a scope shadowed.
fn restore_shadowed<'t>(
    scope: Scope,
    bindings: &[Binding<'t>],
    shadowed: &[Option<usize>],
    numbers: &mut BTreeMap<Key<'t>, usize>,
) -> Result<(), AllocError>
    ensures { OnOk result ((outer : List ℕ → Option ℕ) → IsShadowed outer (map bound_of bindings.now) numbers.old shadowed.now scope →
        (text : List ℕ) → IsRestored outer (map bound_of bindings.now) scope.first scope.end numbers.old numbers.new text) }
{
    for number in scope.first..scope.end {
        restore_binding(number, bindings, shadowed, numbers)?;
    }
    Ok(())
}

impl<'t> SymbolTable<'t> {
    /// Returns the state in which no name is in scope.
    pub fn new(alloc: Global) -> Self
        ensures numbers { (text : List ℕ) → number_by result.numbers text ≡ None }
        ensures shadowed { result.shadowed.items ≡ [] }
        ensures scopes { result.scopes.items ≡ [] }
    {
        SymbolTable {
            numbers: BTreeMap::new(alloc),
            shadowed: Vec::new(alloc),
            scopes: Vec::new(alloc),
            names: Vec::new(alloc),
        }
    }

    /// Enters a scope, and binds its names.
    pub fn enter(
        &mut self,
        alloc: Global,
        scope: &SyntaxNode<'t>,
        bindings: &mut Vec<Binding<'t>>,
    ) -> Result<(), AllocError>
        ensures sees { OnOk result ((n : ℕ) → (scopes : List Located) → n ≤ scope.now.number →
            IsSymbolTable bindings.old.items self.old n scopes → IsSymbolTable bindings.new.items self.new (scope.now.number + 1) (scope.now ∷ scopes)) }
        ensures bindings { OnOk result (map bound_of bindings.new.items ≡ map bound_of bindings.old.items
            ++ map (bound_in scope.now) (names_bound scope.now)) }
    {
        let first = bindings.len();
        names_bound(alloc, scope, &mut self.names)?;
        bind_names(
            &self.names,
            scope,
            bindings,
            &mut self.numbers,
            &mut self.shadowed,
        )?;
        let end = bindings.len();
        self.scopes.push(Scope { first, end })?;
        Ok(())
    }

    /// Leaves the innermost scope, and restores what it shadowed.
    pub fn leave(&mut self, bindings: &[Binding<'t>]) -> Result<(), AllocError>
        ensures { OnOk result ((n : ℕ) → (scope : Located) → (outer : List Located) →
            IsSymbolTable bindings.now self.old n (scope ∷ outer) → IsSymbolTable bindings.now self.new n outer) }
    {
        match self.scopes.pop() {
            Some(scope) => {
                restore_shadowed(scope, bindings, &self.shadowed, &mut self.numbers)?;
                Ok(())
            }
            None => Ok(()),
        }
    }

    /// Returns the number of the innermost binding of a name that is a part of the text.
    pub fn number(&self, text: &'t str) -> Option<usize>
        ensures { result ≡ number_by self.now.numbers text.now }
    {
        self.numbers.get(&part_key(text)).copied()
    }

    /// Returns the number of the innermost binding of a name.
    pub fn number_of(&self, text: &CowStr<'t>) -> Result<Option<usize>, AllocError>
        ensures { IfOk result (λ number. number ≡ number_by self.now.numbers (cow_str_bytes text.now)) }
    {
        let key = key_of(text)?;
        Ok(self.numbers.get(&key).copied())
    }

    /// Returns the number that a name has outside the innermost scope, given its number inside.
    pub fn outer_number(&self, number: Option<usize>) -> Option<usize>
        ensures { result ≡ outer_by (first_of self.now.scopes.items) number self.now.shadowed.items }
    {
        match self.scopes.last() {
            Some(scope) => outside(number, scope.first, &self.shadowed),
            None => number,
        }
    }
}
