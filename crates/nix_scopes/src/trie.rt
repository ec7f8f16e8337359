//! Maps from numbers to numbers that share what they have in common.

ghost use Rattle.std.specs.Prelude.{◌≡◌, ◌<◌, ◌⊎◌, ◌==◌, ℕ, IfOk};
ghost use Rattle.nix_scopes.specs.BitTries.{key_bits, branch_at, side, value_at, IsMap, IsUpdated};

use std::alloc::{AllocError, Global};

/// The number of bits of a key.
pub const KEY_BITS: usize = 32;

/// What a map has at the even and at the odd keys, or rather at the keys of which so many lower bits are known.
#[derive(Clone, Copy)]
pub struct Branch {
    pub even: u32,
    pub odd: u32,
}

/// Maps from keys below 2^32 to numbers. Each is a binary tree, whose branches other maps share; it is known by the number of its first branch. Where a map
/// has 0, nothing is there.
#[derive(Drop)]
pub struct Tries {
    pub branches: Vec<Branch>,
}

// Returns the branch with a number, or an empty one if it is not there.
fn branch_at(branches: &[Branch], number: usize) -> Branch
    ensures { result ≡ branch_at branches.now number }
{
    match branches.get(number) {
        Some(branch) => *branch,
        None => Branch { even: 0, odd: 0 },
    }
}

// Returns what is at one side of a branch.
fn side(branch: Branch, bit: usize) -> usize
    ensures { result ≡ side branch bit }
{
    if bit == 0 {
        branch.even as usize
    } else {
        branch.odd as usize
    }
}

// Returns a number as a branch stores it, in half of the memory. What does not fit is refused as if memory had run out.
fn stored(number: usize) -> Result<u32, AllocError>
    ensures { IfOk result (λ stored. stored ≡ number) }
{
    match u32::try_from(number) {
        Ok(stored) => Ok(stored),
        Err(_) => Err(AllocError),
    }
}

// Returns a branch with another number at one side.
fn with_side(branch: Branch, bit: usize, number: u32) -> Branch
    ensures own { side result bit ≡ number }
    ensures other { (b : ℕ) → ((b == 0) ≡ (bit == 0)) ⊎ (side result b ≡ side branch b) }
{
    if bit == 0 {
        Branch {
            even: number,
            odd: branch.odd,
        }
    } else {
        Branch {
            even: branch.even,
            odd: number,
        }
    }
}

impl Tries {
    /// Returns the map with nothing, which has the number 0.
    pub fn new(alloc: Global) -> Result<Tries, AllocError>
        ensures { IfOk result (λ tries. IsMap tries.branches.items 0 × ((key : ℕ) → value_at key_bits tries.branches.items 0 key ≡ 0)) }
    {
        let mut branches = Vec::new(alloc);
        branches.push(Branch { even: 0, odd: 0 })?;
        Ok(Tries { branches })
    }

    /// Returns what a map has at a key.
    pub fn get(&self, root: usize, key: usize) -> usize
        ensures { result ≡ value_at key_bits self.now.branches.items root key }
    {
        let mut at = root;
        let mut bits = key;
        for _bit in 0..KEY_BITS {
            at = side(branch_at(&self.branches, at), bits % 2);
            bits /= 2;
        }
        at
    }

    /// Returns a map that has a number at a key, and is otherwise like another one, which stays as it is.
    pub fn with(&mut self, root: usize, key: usize, number: usize) -> Result<usize, AllocError>
        ensures { IfOk result (λ made. IsUpdated self.old.branches.items self.new.branches.items root key number made) }
    {
        let first = self.branches.len();
        // The number of the next branch, and in the end what is at the key.
        let mut next = first;
        let mut at = root;
        let mut bits = key;
        for bit in 0..KEY_BITS {
            let old = branch_at(&self.branches, at);
            next = if bit + 1 < KEY_BITS {
                self.branches.len() + 1
            } else {
                number
            };
            self.branches.push(with_side(old, bits % 2, stored(next)?))?;
            at = side(old, bits % 2);
            bits /= 2;
        }
        Ok(first)
    }
}
