//! Attributes ordered by name.

ghost use Rattle.std.specs.Prelude.{◌≡◌, ℕ, List, OnOk, OnErr};
ghost use Rattle.nix_values.specs.OrderedNames.{crowded_in, IsWithCrowded, IsSameCrowded, HasNoCrowded};

use std::alloc::{AllocError, Global};
use std::collections::BTreeMap;

/// The attributes of sets, ordered by name.
#[derive(Drop)]
pub struct OrderedAttributes {
    /// For each name, the attribute of each set that has one.
    pub names: BTreeMap<String, BTreeMap<usize, usize>>,
}

impl OrderedAttributes {
    /// Returns no attributes.
    pub fn new(alloc: Global) -> OrderedAttributes
        ensures { HasNoCrowded result }
    {
        OrderedAttributes {
            names: BTreeMap::new(alloc),
        }
    }

    /// Returns the attribute with a name in a set.
    pub fn get(&self, set: usize, name: &str) -> Option<usize>
        ensures { result ≡ crowded_in self.now set name.now }
    {
        match self.names.get(name) {
            Some(sets) => sets.get(&set).copied(),
            None => None,
        }
    }

    /// Makes a value the attribute with a name in a set.
    pub fn insert(
        &mut self,
        alloc: Global,
        set: usize,
        name: &str,
        value: usize,
    ) -> Result<(), AllocError>
        ensures inserted { OnOk result (IsWithCrowded self.old set name.now value self.new) }
        ensures kept { OnErr result (IsSameCrowded self.old self.new) }
    {
        if let Some(sets) = self.names.get_mut(name) {
            sets.insert(set, value)?;
            return Ok(());
        }
        let mut sets = BTreeMap::new(alloc);
        sets.insert(set, value)?;
        self.names.insert(String::from_str(alloc, name)?, sets)?;
        Ok(())
    }
}
