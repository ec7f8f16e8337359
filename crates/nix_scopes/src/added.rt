//! The names that entries add to sets which other entries define.

ghost use Rattle.std.specs.Prelude.{◌≡◌, ◌==◌, ◌++◌, [], ◌∷◌, ℕ, map, flat_map, option_map, IfOk, OnOk, if◌then◌else◌};
ghost use Rattle.rnix_kinds.specs.declared.kinds.SyntaxKind.TheVariants as k;
ghost use Rattle.rnix_green.specs.Equality.{same_kind};
ghost use Rattle.rnix_green.specs.Tree.{Located};
ghost use Rattle.rnix_base.specs.Select.{nodes_of, child_of};
ghost use Rattle.rnix.specs.NodeKinds.{is_attr};
ghost use Rattle.rnix.specs.Sums.{attr_node};
ghost use Rattle.nix_scopes.specs.Binders.{named};
ghost use Rattle.nix_scopes.specs.AddedNames.{names_in_list, names_for, AreHomes, AddsOwned};
ghost use Rattle.nix_scopes.specs.Merged.{owned_by, owned_names, owned_in, owned_at, added_to};

use crate::names::{Name, attr_name};
use nix_attributes::Homes;
use rnix::SyntaxNode;
use rnix::ast::{AstNode, Attr, Attrpath, AttrpathValue, Inherit};
use std::alloc::{AllocError, Global};
use std::collections::BTreeMap;

/// The names that entries add to sets which other entries define, by the numbers of these sets.
#[derive(Drop)]
pub struct Added<'t> {
    names: BTreeMap<usize, Vec<Name<'t>>>,
}

// Adds a name to those for the set with a number.
fn add<'t>(
    alloc: Global,
    set: usize,
    name: Name<'t>,
    added: &mut Added<'t>,
) -> Result<(), AllocError>
    ensures { OnOk result ((other : ℕ) → names_for added.new other ≡ names_for added.old other ++ (if set == other then named name.entry ∷ [] else [])) }
{
    let mut names = match added.names.remove(&set) {
        Some(names) => names,
        None => Vec::new(alloc),
    };
    names.push(name)?;
    added.names.insert(set, names)?;
    Ok(())
}

// Adds an attribute's name, if it belongs to another set than its owner.
fn add_attr<'t>(
    alloc: Global,
    homes: &Homes,
    owner: usize,
    attr: &Attr<'t>,
    added: &mut Added<'t>,
) -> Result<(), AllocError>
    ensures { OnOk result ((root : Located) → AreHomes homes.now root → AddsOwned root added.old added.new (owned_by owner (attr_node attr.now))) }
{
    let home = homes.home(owner);
    if home == owner {
        return Ok(());
    }
    match attr_name(alloc, attr)? {
        Some(text) => {
            let node = attr.syntax().clone();
            add(alloc, home, Name { text, node }, added)
        }
        None => Ok(()),
    }
}

// Adds the names of a path, whose first name has an owner.
fn add_path<'t>(
    alloc: Global,
    homes: &Homes,
    owner: usize,
    path: &Attrpath<'t>,
    added: &mut Added<'t>,
) -> Result<(), AllocError>
    ensures { OnOk result ((root : Located) → AreHomes homes.now root →
        AddsOwned root added.old added.new (owned_names owner (nodes_of is_attr path.now))) }
{
    let mut before = owner;
    for attr in path.attrs() {
        add_attr(alloc, homes, before, &attr, added)?;
        before = attr.syntax().number();
    }
    Ok(())
}

// Adds the names that are inherited.
fn add_inherited<'t>(
    alloc: Global,
    homes: &Homes,
    owner: usize,
    inherit: &Inherit<'t>,
    added: &mut Added<'t>,
) -> Result<(), AllocError>
    ensures { OnOk result ((root : Located) → AreHomes homes.now root →
        AddsOwned root added.old added.new (flat_map (owned_by owner) (nodes_of is_attr inherit.now))) }
{
    for attr in inherit.attrs() {
        add_attr(alloc, homes, owner, &attr, added)?;
    }
    Ok(())
}

// Adds the names of a node, if it is an entry.
fn add_entry<'t>(
    alloc: Global,
    homes: &Homes,
    node: SyntaxNode<'t>,
    added: &mut Added<'t>,
) -> Result<(), AllocError>
    ensures { OnOk result ((root : Located) → AreHomes homes.now root → AddsOwned root added.old added.new (owned_at node.entry)) }
{
    let Some(set) = node.parent() else {
        return Ok(());
    };
    if let Some(inherit) = Inherit::cast(node.clone()) {
        return add_inherited(alloc, homes, set.number(), &inherit, added);
    }
    let Some(entry) = AttrpathValue::cast(node) else {
        return Ok(());
    };
    match entry.attrpath() {
        Some(path) => add_path(alloc, homes, set.number(), &path, added),
        None => Ok(()),
    }
}

impl<'t> Added<'t> {
    /// Returns the names that entries inside a node add to sets.
    pub fn of(alloc: Global, homes: &Homes, root: &SyntaxNode<'t>) -> Result<Added<'t>, AllocError>
        ensures { IfOk result (λ added. AreHomes homes.now root.now → (set : ℕ) → names_for added set ≡ added_to root.now set) }
    {
        let mut added = Added {
            names: BTreeMap::new(alloc),
        };
        for node in root.descendants() {
            add_entry(alloc, homes, node, &mut added)?;
        }
        Ok(added)
    }

    /// Returns the names that are added to the set with a number, in order, if there are any.
    pub fn names(&self, set: usize) -> Option<&Vec<Name<'t>>>
        ensures { names_in_list (option_map (λ names. names.now) result) ≡ names_for self.now set }
    {
        self.names.get(&set)
    }
}
