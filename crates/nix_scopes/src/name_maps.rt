//! Maps from names to bindings that share what they have in common.

ghost use Rattle.std.specs.Prelude.{◌≡◌, ◌<◌, ◌≤◌, ℕ, List, Some, IfOk, if◌then◌else◌};
ghost use Rattle.std.specs.Cow.{cow_str_bytes};
ghost use Rattle.std.specs.Str.{bytes_eq};
ghost use Rattle.nix_scopes.specs.Resolving.{number_by};
ghost use Rattle.nix_scopes.specs.NameMaps.{number_stored, number_in_map, AreEmpty, IsKeyed, IsBound};

use crate::symbols::{Key, key_of, part_key};
use crate::trie::Tries;
use std::alloc::{AllocError, Global};
use std::borrow::CowStr;
use std::collections::BTreeMap;

// No text has as many names.
const MOST_KEYS: usize = 4_294_967_296;

/// Maps from names to the numbers of bindings. A map stays as it is when names are bound in others; 0 is the map without names.
#[derive(Drop)]
pub struct NameMaps<'t> {
    // A key for each name that some map binds: the numbers from 0.
    keys: BTreeMap<Key<'t>, usize>,
    count: usize,
    tries: Tries,
}

// Returns the number that is stored as a value: one less, since 0 means that there is none.
fn number_stored(value: usize) -> Option<usize>
    ensures { result ≡ number_stored value }
{
    value.checked_sub(1)
}

impl<'t> NameMaps<'t> {
    /// Returns the map without names, which has the number 0.
    pub fn new(alloc: Global) -> Result<Self, AllocError>
        ensures { IfOk result (λ maps. AreEmpty maps) }
    {
        Ok(NameMaps {
            keys: BTreeMap::new(alloc),
            count: 0,
            tries: Tries::new(alloc)?,
        })
    }

    // Returns the key of a name, a new one if it has none.
    fn key(&mut self, text: &CowStr<'t>) -> Result<usize, AllocError>
        ensures { IfOk result (λ key. IsKeyed self.old self.new (cow_str_bytes text.now) key) }
    {
        let known = self.keys.get(&key_of(text)?).copied();
        if let Some(key) = known {
            return Ok(key);
        }
        let key = self.count;
        if key >= MOST_KEYS {
            return Err(AllocError);
        }
        self.keys.insert(key_of(text)?, key)?;
        self.count = key + 1;
        Ok(key)
    }

    /// Returns a map that binds a name to a binding with a number, and is otherwise like another map.
    pub fn bind(
        &mut self,
        map: usize,
        text: &CowStr<'t>,
        number: usize,
    ) -> Result<usize, AllocError>
        ensures { IfOk result (λ made. IsBound self.old self.new map (cow_str_bytes text.now) number made) }
    {
        let key = self.key(text)?;
        match number.checked_add(1) {
            Some(value) => Ok(self.tries.with(map, key, value)?),
            None => Err(AllocError),
        }
    }

    /// Returns the number of the binding of a name that is a part of the text.
    pub fn number(&self, map: usize, text: &'t str) -> Option<usize>
        ensures { result ≡ number_in_map self.now map text.now }
    {
        let key = self.keys.get(&part_key(text))?;
        number_stored(self.tries.get(map, *key))
    }

    /// Returns the number of the binding of a name.
    pub fn number_of(&self, map: usize, text: &CowStr<'t>) -> Result<Option<usize>, AllocError>
        ensures { IfOk result (λ number. number ≡ number_in_map self.now map (cow_str_bytes text.now)) }
    {
        let key = key_of(text)?;
        match self.keys.get(&key) {
            Some(key) => Ok(number_stored(self.tries.get(map, *key))),
            None => Ok(None),
        }
    }
}
