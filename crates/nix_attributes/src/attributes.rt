//! The attributes that the names of a text have defined so far.

ghost use Rattle.std.specs.Prelude.{◌≡◌, ◌==◌, ◌&&◌, ◌∷◌, ℕ, [], Some, IfOk, OnOk, map, if◌then◌else◌};
ghost use Rattle.std.specs.Cow.{cow_str_bytes};
ghost use Rattle.std.specs.Option.{option_to_list};
ghost use Rattle.nix_attributes.specs.DefinedNames.{site_of, named, name_from};
ghost use Rattle.nix_attributes.specs.Attributes.{FirstNames, attribute_by, IsTable, IsEmpty, AddsNames};
ghost use Rattle.nix_attributes.specs.Repeated.{Known, with_name, extends, earlier, repetition, repetition_of};

use crate::definition::{Definition, NameSite};
use crate::repeated::Repeated;
use std::alloc::{AllocError, Global};
use std::borrow::CowStr;
use std::collections::BTreeMap;

/// Maps the owner and the name of each attribute to the site of the first name that defines it.
type Firsts<'t> = BTreeMap<(usize, CowStr<'t>), NameSite>;

/// The attributes that the names so far define.
#[derive(Drop)]
pub struct Attributes<'t> {
    /// Maps the number of a set or a name to that of its attribute, if an earlier name defines the attribute.
    pub attributes: BTreeMap<usize, usize>,
    firsts: Firsts<'t>,
    /// The names that define an attribute again that cannot be defined again, in order.
    pub repeated: Vec<Repeated>,
}

/// Returns the attribute of the set or name with a number, or the number itself if the map has no entry for it.
pub fn attribute_of(attributes: &BTreeMap<usize, usize>, owner: usize) -> usize
    ensures { result ≡ attribute_by attributes.now owner }
{
    match attributes.get(&owner) {
        Some(attribute) => *attribute,
        None => owner,
    }
}

// Returns whether a name adds to the attribute that another one defines first.
fn extends(first: NameSite, own: NameSite) -> bool
    ensures { result ≡ extends (site_of first) (site_of own) }
{
    first.is_open && own.is_open && (own.continues || first.owner == own.owner)
}

// Returns the repetition that a name makes, if there is one, given the first name of its attribute.
fn repetition(first: NameSite, own: NameSite) -> Option<Repeated>
    ensures { map repetition_of (option_to_list result) ≡ repetition (Some (site_of first)) (site_of own) }
{
    if extends(first, own) {
        return None;
    }
    Some(Repeated {
        range: own.range,
        first: first.range,
    })
}

// Records that the names inside an attribute belong to the one that another name defines first, if other entries may add names to it.
fn add_inner(
    first: NameSite,
    own: NameSite,
    attributes: &mut BTreeMap<usize, usize>,
) -> Result<(), AllocError>
    ensures { OnOk result ((owner : ℕ) →
        attribute_by attributes.new owner ≡ (if own.is_open && (own.inner == owner) then first.inner else attribute_by attributes.old owner)) }
{
    if !own.is_open {
        return Ok(());
    }
    attributes.insert(own.inner, first.inner)?;
    Ok(())
}

// Adds a name whose text is known, and returns the repetition that it makes, if there is one.
fn add_text<'t>(
    text: CowStr<'t>,
    own: NameSite,
    attributes: &mut BTreeMap<usize, usize>,
    firsts: &mut Firsts<'t>,
) -> Result<Option<Repeated>, AllocError>
    ensures table { OnOk result ((known : Known) → IsTable known attributes.old firsts.old →
        IsTable (with_name known (named (Some (cow_str_bytes text.entry)) (site_of own))) attributes.new firsts.new) }
    ensures found { IfOk result (λ found. (known : Known) → IsTable known attributes.old firsts.old →
        map repetition_of (option_to_list found)
        ≡ repetition (earlier known (named (Some (cow_str_bytes text.entry)) (site_of own))) (site_of own)) }
{
    let key = (attribute_of(attributes, own.owner), text);
    match firsts.get(&key).copied() {
        Some(first) => {
            add_inner(first, own, attributes)?;
            Ok(repetition(first, own))
        }
        None => {
            firsts.insert(key, own)?;
            Ok(None)
        }
    }
}

// Adds a name, and returns the repetition that it makes, if there is one.
fn add_name<'t>(
    definition: Definition<'t>,
    attributes: &mut BTreeMap<usize, usize>,
    firsts: &mut Firsts<'t>,
) -> Result<Option<Repeated>, AllocError>
    ensures table { OnOk result ((known : Known) → IsTable known attributes.old firsts.old →
        IsTable (with_name known (name_from definition.entry)) attributes.new firsts.new) }
    ensures found { IfOk result (λ found. (known : Known) → IsTable known attributes.old firsts.old →
        map repetition_of (option_to_list found) ≡ repetition (earlier known (name_from definition.entry)) (site_of definition.entry.name_site)) }
{
    let Definition { text, name_site } = definition;
    match text {
        Some(text) => add_text(text, name_site, attributes, firsts),
        None => Ok(None),
    }
}

impl<'t> Attributes<'t> {
    /// Returns the state before the first name.
    pub fn new(alloc: Global) -> Attributes<'t>
        ensures { IsEmpty result }
    {
        Attributes {
            attributes: BTreeMap::new(alloc),
            firsts: BTreeMap::new(alloc),
            repeated: Vec::new(alloc),
        }
    }

    /// Adds a name.
    pub fn add(&mut self, definition: Definition<'t>) -> Result<(), AllocError>
        ensures { OnOk result (AddsNames self.old self.new (name_from definition.entry ∷ [])) }
    {
        if let Some(repeated) = add_name(definition, &mut self.attributes, &mut self.firsts)? {
            self.repeated.push(repeated)?;
        }
        Ok(())
    }
}
