//! The attributes of sets by name. Each is found by its hash, or in an ordered map of names if another one has its hash or all slots of the hash are taken.

ghost use Rattle.std.specs.Prelude.{◌≡◌, ◌≢◌, ℕ, List, Option, Some, option_map, IsTrue, false, OnOk, OnErr};
ghost use Rattle.nix_values.specs.Keys.{Keys, is_key};
ghost use Rattle.nix_values.specs.AttributeHash.{attribute_hash};

use crate::ordered::OrderedAttributes;
use crate::slots::{Slots, Spot, hash_of};
use std::alloc::{AllocError, Global};
use std::collections::BTreeMap;

/// Values with numbers, some of which are attributes.
pub trait Values {
    // For each value, the set and the name of the attribute that it is, if it is one.
    ghost keys: { Self → Keys };

    /// Returns the set whose attribute a value is, and its name.
    fn attribute(&self, number: usize) -> Option<(usize, &str)>
        ensures { option_map (λ p. (p.0, p.1.now)) result ≡ keys self.now number };
}

// Where a search for an attribute ends.
enum Probe {
    // At this slot, which contains this number.
    Taken(usize, usize),
    // At this slot, which is free: there is no such attribute.
    Free(usize),
    // At no slot: the attribute is among the crowded ones, if anywhere.
    Crowded,
}

/// The attributes of some values.
#[derive(Drop)]
pub struct Attributes {
    slots: Slots,
    // The crowded ones: attributes whose slots were all taken, or whose hash another one had.
    crowded: OrderedAttributes,
}

// Returns whether a value is the attribute with a name in a set.
fn is_attribute(found: Option<(usize, &str)>, set: usize, name: &str) -> bool
    ensures { result ≡ is_key (option_map (λ p. (p.0, p.1.now)) found.entry) set name.now }
{
    match found {
        Some((other, text)) => other == set && text == name,
        None => false,
    }
}

impl Attributes {
    ghost use Rattle.nix_values.specs.IndexedAttributes.{probe_in, found_in, HasHash, IsConsistent, FindsNone, IsWithin, IsSame, IsInserted, IsNew, IsAddedTo};
    ghost use Rattle.nix_values.specs.IndexedAttributes.{IsFoundAdded, AreSlotsAdded, AreSetsAdded, AreCrowdedAdded};

    /// Returns no attributes.
    pub fn new(alloc: Global) -> Attributes
        ensures { (keys : Keys) → IsConsistent keys result × FindsNone keys result }
    {
        Attributes {
            slots: Slots::new(alloc),
            crowded: OrderedAttributes::new(alloc),
        }
    }

    // Returns where the search for the attribute with a name in a set ends, given the hash. At most one name is compared.
    fn probe<V: Values>(&self, values: &V, hash: u64, set: usize, name: &str) -> Probe
        requires { hash ≡ attribute_hash set name.now }
        ensures { result ≡ probe_in self.now (V.keys values.now) set name.now }
    {
        match self.slots.spot(hash) {
            Spot::Free(at) => Probe::Free(at),
            Spot::Taken(at, number) => {
                if is_attribute(values.attribute(number), set, name) {
                    Probe::Taken(at, number)
                } else {
                    Probe::Crowded
                }
            }
            Spot::Full => Probe::Crowded,
        }
    }

    /// Returns the attribute with a name in a set.
    pub fn get<V: Values>(&self, values: &V, set: usize, name: &str) -> Option<usize>
        ensures { result ≡ found_in self.now (V.keys values.now) set name.now }
    {
        match self.probe(values, hash_of(set, name), set, name) {
            Probe::Taken(_, number) => Some(number),
            Probe::Free(_) => None,
            Probe::Crowded => self.crowded.get(set, name),
        }
    }

    // Adds a value as an attribute. No other value may be found for its set and name.
    fn add<V: Values>(
        &mut self,
        alloc: Global,
        values: &V,
        hash: u64,
        number: usize,
    ) -> Result<(), AllocError>
        requires sound { IsConsistent (V.keys values.now) self.old }
        requires hash { HasHash (V.keys values.now) number hash }
        requires number { number ≢ usize.MAX }
        requires other { IsNew (V.keys values.now) self.old number }
        ensures { OnOk result (IsAddedTo (V.keys values.now) self.old number self.new) }
    {
        if !self.slots.add(hash, number) {
            if let Some((set, name)) = values.attribute(number) {
                self.crowded.insert(alloc, set, name, number)?;
            }
        }
        Ok(())
    }

    // Adds the attributes in the slots of another index.
    fn add_slots<V: Values>(
        &mut self,
        alloc: Global,
        values: &V,
        from: &Attributes,
    ) -> Result<(), AllocError>
        requires sound { IsConsistent (V.keys values.now) self.old }
        requires others { IsConsistent (V.keys values.now) from.now }
        requires within { IsWithin (V.keys values.now) self.old from.now }
        ensures { OnOk result (AreSlotsAdded (V.keys values.now) from.now self.new) }
    {
        for slot in from.slots.slots() {
            if let Some((hash, number)) = slot.entry() {
                self.add(alloc, values, hash, number)?;
            }
        }
        Ok(())
    }

    // Returns whether a value is found as the attribute with a name in a set.
    fn finds<V: Values>(&self, values: &V, set: usize, name: &str, number: usize) -> bool
        ensures found { IsTrue result → found_in self.now (V.keys values.now) set name.now ≡ Some number }
        ensures other { result ≡ false → found_in self.now (V.keys values.now) set name.now ≡ Some number → ⊥ }
    {
        match self.get(values, set, name) {
            Some(found) => found == number,
            None => false,
        }
    }

    // Adds an attribute, if the other index finds it.
    fn add_found<V: Values>(
        &mut self,
        alloc: Global,
        values: &V,
        from: &Attributes,
        number: usize,
    ) -> Result<(), AllocError>
        requires sound { IsConsistent (V.keys values.now) self.old }
        requires others { IsConsistent (V.keys values.now) from.now }
        requires within { IsWithin (V.keys values.now) self.old from.now }
        ensures { OnOk result (IsFoundAdded (V.keys values.now) from.now number self.old self.new) }
    {
        if let Some((set, name)) = values.attribute(number) {
            if from.finds(values, set, name, number) {
                self.add(alloc, values, hash_of(set, name), number)?;
            }
        }
        Ok(())
    }

    // Adds the crowded attributes with a name of another index.
    fn add_sets<V: Values>(
        &mut self,
        alloc: Global,
        values: &V,
        from: &Attributes,
        sets: &BTreeMap<usize, usize>,
    ) -> Result<(), AllocError>
        requires sound { IsConsistent (V.keys values.now) self.old }
        requires others { IsConsistent (V.keys values.now) from.now }
        requires within { IsWithin (V.keys values.now) self.old from.now }
        ensures { OnOk result (AreSetsAdded (V.keys values.now) from.now sets.now self.old self.new) }
    {
        for number in sets.values() {
            self.add_found(alloc, values, from, *number)?;
        }
        Ok(())
    }

    // Adds the crowded attributes of another index.
    fn add_crowded<V: Values>(
        &mut self,
        alloc: Global,
        values: &V,
        from: &Attributes,
    ) -> Result<(), AllocError>
        requires sound { IsConsistent (V.keys values.now) self.old }
        requires others { IsConsistent (V.keys values.now) from.now }
        requires within { IsWithin (V.keys values.now) self.old from.now }
        ensures { OnOk result (AreCrowdedAdded (V.keys values.now) from.now self.old self.new) }
    {
        for sets in from.crowded.names.values() {
            self.add_sets(alloc, values, from, sets)?;
        }
        Ok(())
    }

    // Doubles the number of slots that may be taken.
    fn grow<V: Values>(&mut self, alloc: Global, values: &V) -> Result<(), AllocError>
        requires { IsConsistent (V.keys values.now) self.old }
        ensures grown { OnOk result (IsSame (V.keys values.now) self.old self.new) }
        ensures kept { OnErr result (self.new ≡ self.old) }
    {
        let room = self.slots.count().saturating_mul(2);
        let mut grown = Attributes {
            slots: Slots::with_room(alloc, room)?,
            crowded: OrderedAttributes::new(alloc),
        };
        grown.add_slots(alloc, values, self)?;
        grown.add_crowded(alloc, values, self)?;
        *self = grown;
        Ok(())
    }

    // Makes a value the attribute with a name in a set, without adding slots.
    fn put<V: Values>(
        &mut self,
        alloc: Global,
        values: &V,
        set: usize,
        name: &str,
        number: usize,
    ) -> Result<(), AllocError>
        requires sound { IsConsistent (V.keys values.now) self.old }
        requires number { number ≢ usize.MAX }
        ensures inserted { OnOk result (IsInserted (V.keys values.now) self.old set name.now number self.new) }
        ensures kept { OnErr result (IsSame (V.keys values.now) self.old self.new) }
    {
        let hash = hash_of(set, name);
        match self.probe(values, hash, set, name) {
            Probe::Taken(at, _) => self.slots.put(at, hash, number),
            Probe::Free(at) => self.slots.put(at, hash, number),
            Probe::Crowded => self.crowded.insert(alloc, set, name, number)?,
        }
        Ok(())
    }

    /// Makes a value the attribute with a name in a set. The values contain all attributes so far, but need not contain this one.
    pub fn insert<V: Values>(
        &mut self,
        alloc: Global,
        values: &V,
        set: usize,
        name: &str,
        number: usize,
    ) -> Result<(), AllocError>
        requires sound { IsConsistent (V.keys values.now) self.old }
        requires number { number ≢ usize.MAX }
        ensures inserted { OnOk result (IsInserted (V.keys values.now) self.old set name.now number self.new) }
        ensures kept { OnErr result (IsSame (V.keys values.now) self.old self.new) }
    {
        if !self.slots.has_room() {
            self.grow(alloc, values)?;
        }
        self.put(alloc, values, set, name, number)
    }
}
