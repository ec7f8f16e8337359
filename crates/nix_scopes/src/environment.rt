//! The surroundings of a walk's current node: the names in scope, and where the open scopes and bodies of `with` end.

ghost use Rattle.std.specs.Prelude.{◌≡◌, ◌==◌, ◌≤◌, ◌++◌, ◌+◌, ◌-◌, [], ◌∷◌, ℕ, List, None, length, map, not, OnOk, if◌then◌else◌};
ghost use Rattle.rnix_green.specs.Tree.{Located};
ghost use Rattle.nix_scopes.specs.Binders.{is_scope};
ghost use Rattle.nix_scopes.specs.Scopes.{is_with_body, bindings_at};
ghost use Rattle.nix_scopes.specs.Bound.{bound_of};
ghost use Rattle.nix_scopes.specs.Resolving.{number_by, last_in, counts_after, has_ended, still_open, is_set, is_scope_around, HasScopes, HasSets, IsEnvironment, LeavesEnded};

use crate::name_roles::is_with_body;
use crate::resolution::Binding;
use crate::scopes::{is_binder, is_scope};
use crate::symbols::SymbolTable;
use rnix::{SyntaxKind, SyntaxNode};
use std::alloc::{AllocError, Global};

/// The surroundings of a position in a walk: the names in scope, and where the open scopes, bodies of `with` and attribute sets end, innermost last. An end
/// is given as the number of elements that the walk has after it.
#[derive(Drop)]
pub struct Environment<'t> {
    pub symbols: SymbolTable<'t>,
    pub scope_ends: Vec<usize>,
    pub body_ends: Vec<usize>,
    pub set_ends: Vec<usize>,
    /// For each open attribute set, whether it has `rec` and is therefore a scope.
    pub set_scopes: Vec<bool>,
}

// Returns whether the last of these ends comes before an element, after which the walk has `remaining` more.
fn has_ended(ends: &[usize], remaining: usize) -> bool
    ensures { result ≡ has_ended remaining ends.now }
{
    match ends.last() {
        Some(behind) => *behind > remaining,
        None => false,
    }
}

// Enters a node, after which the walk has `remaining` more elements: if it is a scope, as `binds` says, its names come into scope.
fn enter_scope<'t>(
    alloc: Global,
    node: &SyntaxNode<'t>,
    binds: bool,
    remaining: usize,
    symbols: &mut SymbolTable<'t>,
    ends: &mut Vec<usize>,
    bindings: &mut Vec<Binding<'t>>,
) -> Result<(), AllocError>
    requires { binds ≡ is_scope node.now }
    ensures sees { OnOk result ((root : Located) → (n : ℕ) → (scopes : List Located) → n ≤ node.now.number → remaining ≡ last_in root - node.now.number →
        HasScopes root bindings.old.items symbols.old ends.old.items n scopes →
        HasScopes root bindings.new.items symbols.new ends.new.items (node.now.number + 1)
        (if is_scope node.now then node.now ∷ scopes else scopes)) }
    ensures bindings { OnOk result (map bound_of bindings.new.items ≡ map bound_of bindings.old.items ++ bindings_at node.now) }
{
    if binds {
        symbols.enter(alloc, node, bindings)?;
        ends.push(remaining.saturating_sub(node.inside_count()))?;
    }
    Ok(())
}

// Enters a node, after which the walk has `remaining` more elements: it may be the body of a `with`.
fn enter_body(
    node: &SyntaxNode<'_>,
    remaining: usize,
    ends: &mut Vec<usize>,
) -> Result<(), AllocError>
    ensures { OnOk result ((root : Located) → (bodies : List Located) → remaining ≡ last_in root - node.now.number →
        ends.old.items ≡ counts_after root bodies →
        ends.new.items ≡ counts_after root (if is_with_body node.now then node.now ∷ bodies else bodies)) }
{
    if is_with_body(node) {
        ends.push(remaining.saturating_sub(node.inside_count()))?;
    }
    Ok(())
}

// Enters a node, after which the walk has `remaining` more elements: it may be an attribute set, which is a scope if `binds`.
fn enter_set(
    node: &SyntaxNode<'_>,
    binds: bool,
    remaining: usize,
    ends: &mut Vec<usize>,
    scopes: &mut Vec<bool>,
) -> Result<(), AllocError>
    requires { binds ≡ is_scope node.now }
    ensures { OnOk result ((root : Located) → (sets : List Located) → remaining ≡ last_in root - node.now.number →
        HasSets root ends.old.items scopes.old.items sets →
        HasSets root ends.new.items scopes.new.items (if is_set node.now then node.now ∷ sets else sets)) }
{
    if node.kind() == SyntaxKind::NODE_ATTR_SET {
        ends.push(remaining.saturating_sub(node.inside_count()))?;
        scopes.push(binds)?;
    }
    Ok(())
}

// Leaves the scopes that end before an element, after which the walk has `remaining` more.
fn leave_scopes<'t>(
    remaining: usize,
    symbols: &mut SymbolTable<'t>,
    ends: &mut Vec<usize>,
    bindings: &[Binding<'t>],
) -> Result<(), AllocError>
    ensures { OnOk result ((root : Located) → (n : ℕ) → (scopes : List Located) →
        HasScopes root bindings.now symbols.old ends.old.items n scopes →
        HasScopes root bindings.now symbols.new ends.new.items n (still_open root remaining scopes)) }
{
    while has_ended(ends, remaining) {
        let _end = ends.pop();
        symbols.leave(bindings)?;
    }
    Ok(())
}

// Leaves the bodies of `with` that end before an element, after which the walk has `remaining` more.
fn leave_bodies(remaining: usize, ends: &mut Vec<usize>)
    ensures { (root : Located) → (bodies : List Located) → ends.old.items ≡ counts_after root bodies →
        ends.new.items ≡ counts_after root (still_open root remaining bodies) }
{
    while has_ended(ends, remaining) {
        let _end = ends.pop();
    }
}

// Leaves the attribute sets that end before an element, after which the walk has `remaining` more.
fn leave_sets(remaining: usize, ends: &mut Vec<usize>, scopes: &mut Vec<bool>)
    ensures { (root : Located) → (sets : List Located) → HasSets root ends.old.items scopes.old.items sets →
        HasSets root ends.new.items scopes.new.items (still_open root remaining sets) }
{
    while has_ended(ends, remaining) {
        let _end = ends.pop();
        let _scope = scopes.pop();
    }
}

impl<'t> Environment<'t> {
    /// Returns the surroundings of a root.
    pub fn new(alloc: Global) -> Self
        ensures numbers { (text : List ℕ) → number_by result.symbols.numbers text ≡ None }
        ensures shadowed { result.symbols.shadowed.items ≡ [] }
        ensures scopes { result.symbols.scopes.items ≡ [] }
        ensures scope_ends { result.scope_ends.items ≡ [] }
        ensures body_ends { result.body_ends.items ≡ [] }
        ensures set_ends { result.set_ends.items ≡ [] }
        ensures set_scopes { result.set_scopes.items ≡ [] }
    {
        Environment {
            symbols: SymbolTable::new(alloc),
            scope_ends: Vec::new(alloc),
            body_ends: Vec::new(alloc),
            set_ends: Vec::new(alloc),
            set_scopes: Vec::new(alloc),
        }
    }

    /// Enters a node, after which the walk has `remaining` more elements. Its names are bound, if it is a scope.
    pub fn enter(
        &mut self,
        alloc: Global,
        node: &SyntaxNode<'t>,
        remaining: usize,
        bindings: &mut Vec<Binding<'t>>,
    ) -> Result<(), AllocError>
        ensures sees { OnOk result ((root : Located) → (n : ℕ) → (scopes bodies sets : List Located) → n ≤ node.now.number →
            remaining ≡ last_in root - node.now.number → IsEnvironment root bindings.old.items self.old n scopes bodies sets →
            IsEnvironment root bindings.new.items self.new (node.now.number + 1) (if is_scope node.now then node.now ∷ scopes else scopes)
            (if is_with_body node.now then node.now ∷ bodies else bodies) (if is_set node.now then node.now ∷ sets else sets)) }
        ensures bindings { OnOk result (map bound_of bindings.new.items ≡ map bound_of bindings.old.items ++ bindings_at node.now) }
    {
        let binds = is_scope(node);
        enter_scope(
            alloc,
            node,
            binds,
            remaining,
            &mut self.symbols,
            &mut self.scope_ends,
            bindings,
        )?;
        enter_body(node, remaining, &mut self.body_ends)?;
        enter_set(
            node,
            binds,
            remaining,
            &mut self.set_ends,
            &mut self.set_scopes,
        )?;
        Ok(())
    }

    /// Leaves the scopes, the bodies of `with` and the attribute sets that end before an element, after which the walk has `remaining` more.
    pub fn leave_ended(
        &mut self,
        remaining: usize,
        bindings: &[Binding<'t>],
    ) -> Result<(), AllocError>
        ensures { OnOk result (LeavesEnded remaining bindings.now self.old self.new) }
    {
        leave_scopes(remaining, &mut self.symbols, &mut self.scope_ends, bindings)?;
        leave_bodies(remaining, &mut self.body_ends);
        leave_sets(remaining, &mut self.set_ends, &mut self.set_scopes);
        Ok(())
    }

    /// Returns whether a node, the parent of the current one, is a scope.
    pub fn is_scope_around(&self, parent: &SyntaxNode<'_>) -> bool
        ensures { result ≡ is_scope_around self.now.set_scopes.items parent.now }
    {
        match parent.kind() {
            SyntaxKind::NODE_ATTR_SET => self.set_scopes.last().copied().unwrap_or(false),
            kind => is_binder(kind),
        }
    }

    /// Returns whether the position is in the body of a `with`.
    pub fn is_below_with(&self) -> bool
        ensures { result ≡ not (length self.now.body_ends.items == 0) }
    {
        !self.body_ends.is_empty()
    }
}
