//! Resolving the names of a text in which entries may add to scopes.

ghost use Rattle.std.specs.Prelude.{◌≡◌, ◌++◌, ◌∷◌, [], map, Option, IfOk, OnOk, true};
ghost use Rattle.rnix.specs.AttrName.{static_name};
ghost use Rattle.rnix.specs.Sums.{attr_node};
ghost use Rattle.nix_scopes.specs.Binders.{named};
ghost use Rattle.nix_scopes.specs.Bound.{bindings_of, references_of, bound_of, resolved_of, AreFirst};
ghost use Rattle.nix_scopes.specs.Merged.{merged_bindings, merged_references};
ghost use Rattle.nix_scopes.specs.Names.{named_if};
ghost use Rattle.nix_scopes.specs.NodePlaces.{referring_at, referring_of};
ghost use Rattle.nix_scopes.specs.References.{inherited_at, references_at};
ghost use Rattle.nix_scopes.specs.Scopes.{resolved};

use crate::added::Added;
use crate::globals::is_global;
use crate::name_maps::NameMaps;
use crate::name_roles::is_expression;
use crate::names::{Name, attr_name};
use crate::places::{Place, enter_scope, place_around, place_inside};
use crate::resolution::{Binding, Reference, Resolution};
use nix_attributes::Homes;
use rnix::ast::{AstNode, Attr, Inherit};
use rnix::{NodeOrToken, SyntaxNode};
use std::alloc::{AllocError, Global};
use std::borrow::CowStr;

// Adds a reference to the binding with a number, or to none.
fn add_reference<'t>(
    is_below_with: bool,
    binding: Option<usize>,
    is_inherited: bool,
    name: Name<'t>,
    references: &mut Vec<Reference<'t>>,
) -> Result<(), AllocError>
    ensures { OnOk result (map resolved_of references.new.items ≡ map resolved_of references.old.items
        ++ resolved is_inherited is_below_with binding (named name.entry) ∷ []) }
{
    let may_be_open = is_below_with && !is_global(name.text.as_str());
    references.push(Reference {
        text: name.text,
        node: name.node,
        is_inherited,
        binding,
        is_open: binding.is_none() && may_be_open,
    })?;
    Ok(())
}

// Adds a reference for an inherited name, if the text alone determines the name. A map has the names in scope outside its set or `let`.
fn add_inherited<'t>(
    alloc: Global,
    is_below_with: bool,
    scope_map: usize,
    maps: &NameMaps<'t>,
    attr: &Attr<'t>,
    references: &mut Vec<Reference<'t>>,
) -> Result<(), AllocError>
    ensures { OnOk result (map resolved_of references.new.items ≡ map resolved_of references.old.items
        ++ map (referring_at maps.now scope_map is_below_with true) (named_if (attr_node attr.now) (static_name (attr_node attr.now)))) }
{
    match attr_name(alloc, attr)? {
        Some(text) => {
            let binding = maps.number_of(scope_map, &text)?;
            let node = attr.syntax().clone();
            add_reference(
                is_below_with,
                binding,
                true,
                Name { text, node },
                references,
            )
        }
        None => Ok(()),
    }
}

// Adds the names that are inherited from around a `let` or a set.
fn add_all_inherited<'t>(
    alloc: Global,
    is_below_with: bool,
    scope_map: usize,
    maps: &NameMaps<'t>,
    inherit: &Inherit<'t>,
    references: &mut Vec<Reference<'t>>,
) -> Result<(), AllocError>
    ensures { OnOk result (map resolved_of references.new.items ≡ map resolved_of references.old.items
        ++ map (referring_at maps.now scope_map is_below_with true) (inherited_at inherit.now)) }
{
    if inherit.from().is_some() {
        return Ok(());
    }
    for attr in inherit.attrs() {
        add_inherited(alloc, is_below_with, scope_map, maps, &attr, references)?;
    }
    Ok(())
}

// Adds the references of a node with a place, around which is another place: the node itself, or its inherited names.
fn add_references<'t>(
    alloc: Global,
    around: Place,
    place: Place,
    maps: &NameMaps<'t>,
    node: SyntaxNode<'t>,
    references: &mut Vec<Reference<'t>>,
) -> Result<(), AllocError>
    ensures { OnOk result (map resolved_of references.new.items ≡ map resolved_of references.old.items
        ++ map (referring_of maps.now around place node.entry) (references_at node.entry)) }
{
    if is_expression(&node) {
        let text = node.text();
        let binding = maps.number(place.inside, text);
        let text = CowStr::Borrowed(text);
        return add_reference(
            place.is_below_with,
            binding,
            false,
            Name { text, node },
            references,
        );
    }
    match Inherit::cast(node) {
        Some(inherit) => add_all_inherited(
            alloc,
            place.is_below_with,
            around.outside,
            maps,
            &inherit,
            references,
        ),
        None => Ok(()),
    }
}

/// Resolves the names inside a node, where entries may add to scopes: an entry belongs to the set of the first definition.
pub fn resolve_merged<'t>(
    alloc: Global,
    root: &SyntaxNode<'t>,
) -> Result<Resolution<'t>, AllocError>
    ensures bindings { IfOk result (λ names. map bound_of (bindings_of names) ≡ merged_bindings root.now) }
    ensures firsts { IfOk result (λ names. AreFirst (bindings_of names)) }
    ensures resolved { IfOk result (λ names. map resolved_of (references_of names) ≡ merged_references root.now) }
{
    let homes = Homes::of(alloc, root)?;
    let added = Added::of(alloc, &homes, root)?;
    let first = root.number();
    let mut maps = NameMaps::new(alloc)?;
    let mut bindings = Vec::new(alloc);
    let mut references = Vec::new(alloc);
    let mut places = Vec::new(alloc);
    for element in root.descendants_with_tokens() {
        let mut place = None;
        if let NodeOrToken::Node(node) = element {
            let around = place_around(&homes, &places, first, &node);
            let inside = enter_scope(
                alloc,
                &homes,
                &added,
                &node,
                around.inside,
                &mut maps,
                &mut bindings,
            )?;
            let own = place_inside(&node, around, inside);
            add_references(alloc, around, own, &maps, node, &mut references)?;
            place = Some(own);
        }
        places.push(place)?;
    }
    Ok(Resolution {
        bindings,
        references,
    })
}
