//! What is known about the nodes of a walk, where entries may add to scopes.

ghost use Rattle.std.specs.Prelude.{◌≡◌, ◌++◌, ◌∷◌, [], ℕ, List, Option, Some, map, length, IfOk};
ghost use Rattle.rnix_green.specs.Tree.{Located};
ghost use Rattle.nix_scopes.specs.AddedNames.{AreHomes, names_for};
ghost use Rattle.nix_scopes.specs.Binders.{named, names_bound};
ghost use Rattle.nix_scopes.specs.Bound.{bound_of, AreFirst};
ghost use Rattle.nix_scopes.specs.Merged.{is_merged_scope, added_to};
ghost use Rattle.nix_scopes.specs.NameMaps.{number_in_map};
ghost use Rattle.std.specs.Cow.{cow_str_bytes};
ghost use Rattle.nix_scopes.specs.NodePlaces.{nowhere, place_at, place_before, place_around, place_inside, own_if, KeepsOpening, KeepsFirsts, KeepsMaps, EntersScope};
ghost use Rattle.nix_scopes.specs.Scopes.{bound_in};

use crate::added::Added;
use crate::name_maps::NameMaps;
use crate::name_roles::is_with_body;
use crate::names::{Name, names_bound};
use crate::owners::number_around;
use crate::resolution::Binding;
use crate::scopes::is_scope;
use crate::symbols::copied;
use nix_attributes::Homes;
use rnix::SyntaxNode;
use std::alloc::{AllocError, Global};

/// The place of a node: the maps of the names in scope inside it and around it, and whether it is in the body of a `with`.
#[derive(Clone, Copy)]
pub struct Place {
    pub inside: usize,
    pub outside: usize,
    pub is_below_with: bool,
}

// The place outside all nodes.
fn nowhere() -> Place
    ensures { result ≡ nowhere }
{
    Place {
        inside: 0,
        outside: 0,
        is_below_with: false,
    }
}

// Returns the place of the node with a number, where the first has another number.
fn place_at(places: &[Option<Place>], first: usize, number: usize) -> Option<Place>
    ensures { result ≡ place_at places.now first number }
{
    let index = number.checked_sub(first)?;
    *places.get(index)?
}

// Returns the place of the node with a number below a limit.
fn place_before(
    places: &[Option<Place>],
    first: usize,
    limit: usize,
    number: usize,
) -> Option<Place>
    ensures { result ≡ place_before places.now first limit number }
{
    if number < limit {
        place_at(places, first, number)
    } else {
        None
    }
}

/// Returns the place of the node around a node: the set to which it belongs, or else its parent.
pub fn place_around(
    homes: &Homes,
    places: &[Option<Place>],
    first: usize,
    node: &SyntaxNode<'_>,
) -> Place
    ensures { (root : Located) → AreHomes homes.now root → result ≡ place_around places.now first root node.now }
{
    let Some(parent) = node.parent() else {
        return nowhere();
    };
    let around = number_around(homes, &parent, node);
    match place_before(places, first, node.number(), around) {
        Some(place) => place,
        None => nowhere(),
    }
}

/// Returns the place of a node, given that around it and the map inside it.
pub fn place_inside(node: &SyntaxNode<'_>, around: Place, inside: usize) -> Place
    ensures { result ≡ place_inside node.now around inside }
{
    Place {
        inside,
        outside: around.inside,
        is_below_with: is_with_body(node) || around.is_below_with,
    }
}

/// Returns whether a node is a scope: a set that adds to another one is none.
pub fn is_merged_scope(homes: &Homes, node: &SyntaxNode<'_>) -> bool
    ensures { (root : Located) → AreHomes homes.now root → result ≡ is_merged_scope root node.now }
{
    is_scope(node) && homes.home(node.number()) == node.number()
}

// Returns the number that a name already has in a scope whose numbers begin with `first`.
fn own_number<'t>(
    maps: &NameMaps<'t>,
    scope_map: usize,
    name: &Name<'t>,
    first: usize,
) -> Result<Option<usize>, AllocError>
    ensures { IfOk result (λ own. own ≡ own_if first (number_in_map maps.now scope_map (cow_str_bytes name.now.text))) }
{
    match maps.number_of(scope_map, &name.text)? {
        Some(own) if own >= first => Ok(Some(own)),
        _ => Ok(None),
    }
}

// Binds a name in a scope whose numbers begin with `first`. Returns the map with it.
fn bind_name<'t>(
    name: &Name<'t>,
    scope: &SyntaxNode<'t>,
    first: usize,
    scope_map: usize,
    maps: &mut NameMaps<'t>,
    bindings: &mut Vec<Binding<'t>>,
) -> Result<usize, AllocError>
    ensures bindings { IfOk result (λ made. map bound_of bindings.new.items ≡ map bound_of bindings.old.items
        ++ bound_in scope.now (named name.now) ∷ []) }
    ensures opening { IfOk result (λ made.
        KeepsOpening bindings.old.items bindings.new.items maps.old maps.new scope_map made first scope.now) }
    ensures firsts { IfOk result (λ made. KeepsFirsts bindings.old.items bindings.new.items maps.old scope_map first scope.now) }
    ensures kept { IfOk result (λ made. KeepsMaps maps.old maps.new) }
{
    let number = bindings.len();
    let own = own_number(maps, scope_map, name, first)?;
    bindings.push(Binding {
        text: copied(&name.text)?,
        node: name.node.clone(),
        scope: scope.clone(),
        first: own.unwrap_or(number),
    })?;
    match own {
        Some(_) => Ok(scope_map),
        None => Ok(maps.bind(scope_map, &name.text, number)?),
    }
}

// Binds names in a scope whose numbers begin with `first`. Returns the map with them.
fn bind_names<'t>(
    names: &[Name<'t>],
    scope: &SyntaxNode<'t>,
    first: usize,
    scope_map: usize,
    maps: &mut NameMaps<'t>,
    bindings: &mut Vec<Binding<'t>>,
) -> Result<usize, AllocError>
    ensures bindings { IfOk result (λ made. map bound_of bindings.new.items ≡ map bound_of bindings.old.items
        ++ map (bound_in scope.now) (map named names.now)) }
    ensures opening { IfOk result (λ made.
        KeepsOpening bindings.old.items bindings.new.items maps.old maps.new scope_map made first scope.now) }
    ensures firsts { IfOk result (λ made. KeepsFirsts bindings.old.items bindings.new.items maps.old scope_map first scope.now) }
    ensures kept { IfOk result (λ made. KeepsMaps maps.old maps.new) }
{
    let mut made = scope_map;
    for name in names {
        made = bind_name(name, scope, first, made, maps, bindings)?;
    }
    Ok(made)
}

/// Enters a node, around which names are in scope as a map has them. If it is a scope, its names are bound. Returns the map inside it.
pub fn enter_scope<'t>(
    alloc: Global,
    homes: &Homes,
    added: &Added<'t>,
    node: &SyntaxNode<'t>,
    scope_map: usize,
    maps: &mut NameMaps<'t>,
    bindings: &mut Vec<Binding<'t>>,
) -> Result<usize, AllocError>
    ensures { IfOk result (λ made. (root : Located) → AreHomes homes.now root → ((set : ℕ) → names_for added.now set ≡ added_to root set) →
        EntersScope root node.now scope_map made maps.old maps.new bindings.old.items bindings.new.items) }
{
    if !is_merged_scope(homes, node) {
        return Ok(scope_map);
    }
    let first = bindings.len();
    let mut names = Vec::new(alloc);
    names_bound(alloc, node, &mut names)?;
    let own = bind_names(&names, node, first, scope_map, maps, bindings)?;
    let Some(more) = added.names(node.number()) else {
        return Ok(own);
    };
    let made = bind_names(more, node, first, own, maps, bindings)?;
    Ok(made)
}
