//! A hash table of numbers. A hash with too many others near it gets no slot.

ghost use Rattle.std.specs.Prelude.{◌≡◌, ◌<◌, ◌+◌, ◌^◌, IsTrue, IfOk, true, false};
ghost use Rattle.nix_values.specs.AttributeHash.{attribute_hash};

use std::alloc::{AllocError, Global};
use std::hash::{FoldHasher, Hasher};

// The largest number of slots that a hash may have, from its first one on.
const WINDOW: usize = 16;

// The smallest number of first slots of a table that is not empty.
const LEAST: usize = 16;

// What a free slot contains in place of a number.
const FREE: usize = usize::MAX;

/// A number with its hash, or a free slot.
#[derive(Clone, Copy)]
pub struct Slot {
    hash: u64,
    number: usize,
}

/// Where a search for a hash ends.
#[derive(Clone, Copy)]
pub enum Spot {
    /// At a free slot: no number has the hash.
    Free(usize),
    /// At the slot with the number for this hash.
    Taken(usize, usize),
    /// Nowhere: all slots of the hash contain numbers with other hashes.
    Full,
}

impl Slot {
    ghost use Rattle.nix_values.specs.HashSlots.{is_free, slot_entry};

    /// Returns whether the slot is free.
    pub fn is_free(self) -> bool
        ensures { result ≡ is_free self }
    {
        self.number == FREE
    }

    /// Returns the number in the slot, and its hash.
    pub fn entry(self) -> Option<(u64, usize)>
        ensures { result ≡ slot_entry self }
    {
        if self.is_free() {
            None
        } else {
            Some((self.hash, self.number))
        }
    }
}

/// Numbers by hash: each is in the first slot of its hash, or in one of those after it.
#[derive(Drop)]
pub struct Slots {
    slots: Vec<Slot>,
    // The number of first slots, minus one. Its binary digits are all ones.
    mask: usize,
    // The number of taken slots.
    count: usize,
    ghost small: { mask < 2 ^ 63 },
}

impl Slots {
    ghost use Rattle.nix_values.specs.HashSlots.{first_of, spot_of, slot_at, HasNone, IsPut, IsStored, IsNotStored};

    /// Returns a table without slots.
    pub fn new(alloc: Global) -> Slots
        ensures { HasNone result }
    {
        Slots {
            slots: Vec::new(alloc),
            mask: 0,
            count: 0,
        }
    }

    /// Returns a table of free slots for a count of numbers: at least twice as many.
    pub fn with_room(alloc: Global, count: usize) -> Result<Slots, AllocError>
        ensures { IfOk result (λ slots. HasNone slots) }
    {
        let least = count.saturating_mul(2).max(LEAST);
        let firsts = least.checked_next_power_of_two().ok_or(AllocError)?;
        let free = Slot {
            hash: 0,
            number: FREE,
        };
        Ok(Slots {
            slots: Vec::from_elem(alloc, free, firsts.saturating_add(WINDOW))?,
            mask: firsts - 1,
            count: 0,
        })
    }

    /// Returns the number of taken slots.
    pub fn count(&self) -> usize
        ensures { result ≡ self.now.count }
    {
        self.count
    }

    /// Returns whether one more slot may be taken: at most half as many as there are first slots.
    pub fn has_room(&self) -> bool {
        self.count < self.mask / 2
    }

    /// Returns all slots.
    pub fn slots(&self) -> &[Slot]
        ensures { result.now ≡ self.now.slots.items }
    {
        self.slots.as_slice()
    }

    // Returns the first slot of a hash.
    fn first(&self, hash: u64) -> usize
        ensures is { result ≡ first_of self.now hash }
        ensures small { result < 2 ^ 63 }
    {
        hash as usize & self.mask
    }

    /// Searches the slots of a hash.
    pub fn spot(&self, hash: u64) -> Spot
        ensures { result ≡ spot_of self.now hash }
    {
        let first = self.first(hash);
        let Some(window) = self.slots.get(first..first + WINDOW) else {
            return Spot::Full;
        };
        for (step, slot) in window.iter().enumerate() {
            if slot.is_free() {
                return Spot::Free(first + step);
            }
            if slot.hash == hash {
                return Spot::Taken(first + step, slot.number);
            }
        }
        Spot::Full
    }

    /// Puts a number into a slot.
    pub fn put(&mut self, at: usize, hash: u64, number: usize)
        ensures { IsPut self.old at hash number self.new }
    {
        if let Some(slot) = self.slots.get_mut(at) {
            if slot.is_free() {
                self.count = self.count.saturating_add(1);
            }
            *slot = Slot { hash, number };
        }
    }

    /// Puts a number into the first free slot of its hash, if there is one and no number has this hash. Returns whether it was put there.
    pub fn add(&mut self, hash: u64, number: usize) -> bool
        ensures added { IsTrue result → IsStored self.old hash number self.new }
        ensures kept { result ≡ false → IsNotStored self.old hash self.new }
    {
        match self.spot(hash) {
            Spot::Free(at) => {
                self.put(at, hash, number);
                true
            }
            Spot::Taken(_, _) | Spot::Full => false,
        }
    }
}

/// Returns the hash of an attribute.
#[tactic(auto, unfolding(crate::specs::AttributeHash::attribute_hash))]
pub fn hash_of(set: usize, name: &str) -> u64
    ensures { result ≡ attribute_hash set name.now }
{
    let mut hasher = FoldHasher::default();
    hasher.write_usize(set);
    hasher.write(name.as_bytes());
    hasher.finish()
}
