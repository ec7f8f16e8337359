//! The values of a JSON text so far.

ghost use Rattle.std.specs.Prelude.{◌≡◌, [], length, string_bytes, OnOk};
ghost use Rattle.nix_values.specs.IndexedAttributes.{IsConsistent};
ghost use Rattle.nix_values.specs.FoundKeys.{found_keys, offset_of};
ghost use Rattle.nix_values.specs.Attached.{IsAttached};
ghost use Rattle.nix_values.specs.JsonReading.{name_of, next_offset};

use crate::attributes::{Attributes, Values};
use crate::data::Item;
use std::alloc::{AllocError, Global};

/// Where a value was found.
#[derive(Clone, Copy)]
pub struct Location {
    /// The offset of its name, or of the value if it has no name.
    pub offset: usize,
    /// The set whose attribute it is.
    pub set: Option<usize>,
}

/// Values in the order of the text.
#[derive(Drop)]
pub struct Found {
    /// The values.
    pub items: Vec<Item>,
    /// The location of each value.
    pub locations: Vec<Location>,
}

/// Returns a name with its offset, or no name at an offset.
pub fn named_or(alloc: Global, name: Option<(String, usize)>, at: usize) -> (String, usize)
    ensures name { string_bytes result.0 ≡ name_of name }
    ensures offset { result.1 ≡ next_offset name at }
{
    match name {
        Some(named) => named,
        None => (String::new(alloc), at),
    }
}

impl Found {
    /// Returns no values.
    pub fn new(alloc: Global) -> Found
        ensures items { result.items.items ≡ [] }
        ensures locations { result.locations.items ≡ [] }
    {
        Found {
            items: Vec::new(alloc),
            locations: Vec::new(alloc),
        }
    }

    /// Makes the next value an attribute, if it is inside a set.
    pub fn attach(
        &self,
        alloc: Global,
        attributes: &mut Attributes,
        set: Option<usize>,
        name: &str,
    ) -> Result<(), AllocError>
        requires { IsConsistent (found_keys self.now) attributes.old }
        ensures { OnOk result (IsAttached (found_keys self.now) attributes.old set name.now (length self.now.items.items) attributes.new) }
    {
        match set {
            Some(set) => attributes.insert(alloc, self, set, name, self.items.len()),
            None => Ok(()),
        }
    }

    /// Returns the offset of a value's name, or of the value if it has no name.
    pub fn offset(&self, number: usize) -> Option<usize>
        ensures { result ≡ offset_of self.now number }
    {
        self.locations.get(number).map(|location| location.offset)
    }
}

impl Values for Found {
    ghost keys = { found_keys };

    fn attribute(&self, number: usize) -> Option<(usize, &str)> {
        let location = self.locations.get(number)?;
        let item = self.items.get(number)?;
        match location.set {
            Some(set) => Some((set, item.name.as_str())),
            None => None,
        }
    }
}
