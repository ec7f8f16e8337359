//! Elements as a tree stores them, in 16 bytes.

ghost use Rattle.std.specs.Prelude.{◌≡◌, ◌+◌, ◌<◌, ◌≤◌, nat_lt, OnOk, OnErr};
ghost use Rattle.rnix_green.specs.Equality.{same_kind};
ghost use Rattle.rnix_green.specs.SameElements.{same_numbers};
ghost use Rattle.rnix_green.specs.Packed.{limit, word_of, packed, len_or_start_in, parent_in, size_in};
ghost use Rattle.rnix_green.specs.SplicedElements.{with_size, shifted, restarted};

use rnix_kinds::SyntaxKind;
use std::alloc::AllocError;

/// The limit on bytes of a text and elements of a tree. What reaches it is refused as if memory had run out.
const LIMIT: usize = 1 << 32;

/// Three numbers below the limit, and a kind.
#[derive(Clone, Copy)]
pub(crate) struct Packed {
    len_or_start: u32,
    parent: u32,
    size: u32,
    kind: SyntaxKind,
}

const _: () = prove!(size_of::<Packed>() == 16);

/// A move of elements: the one at the offset `start` and with the number `number` has a new offset and a new number. Parents with a smaller number stay.
#[derive(Clone, Copy)]
pub(crate) struct Shift {
    pub(crate) start: usize,
    pub(crate) new_start: usize,
    pub(crate) number: usize,
    pub(crate) new_number: usize,
}

fn word(number: usize) -> u32
    ensures { result ≡ word_of number }
{
    (number % LIMIT) as u32
}

/// Refuses sizes that reach the limit.
pub(crate) fn room(held: usize, more: usize) -> Result<(), AllocError>
    ensures ok { OnOk result (held + more < limit) }
    ensures err { OnErr result (limit ≤ held + more) }
{
    if held < LIMIT && more < LIMIT - held {
        Ok(())
    } else {
        Err(AllocError)
    }
}

impl Packed {
    /// Returns an element with a count: the size of a node's subtree with the node itself, or 0 for a token.
    pub(crate) fn new(kind: SyntaxKind, len_or_start: usize, parent: usize, size: usize) -> Packed
        ensures { result ≡ packed kind len_or_start parent size }
    {
        Packed {
            len_or_start: word(len_or_start),
            parent: word(parent),
            size: word(size),
            kind,
        }
    }

    pub(crate) fn kind(&self) -> SyntaxKind
        ensures { result ≡ self.now.kind }
    {
        self.kind
    }

    /// Returns the length of a token's text until the element is placed; then the offset at which it starts.
    pub(crate) fn len_or_start(&self) -> usize
        ensures { result ≡ len_or_start_in self.now }
    {
        self.len_or_start as usize
    }

    /// Returns the number of the parent; 0 for the root.
    pub(crate) fn parent(&self) -> usize
        ensures { result ≡ parent_in self.now }
    {
        self.parent as usize
    }

    /// Returns the size of a node's subtree with the node itself; 0 for a token.
    pub(crate) fn size(&self) -> usize
        ensures { result ≡ size_in self.now }
    {
        self.size as usize
    }

    /// Returns whether the element with this number contains the one with a later number.
    pub(crate) fn holds(&self, number: usize, later: usize) -> bool
        requires { number < limit }
        ensures { result ≡ nat_lt later (number + size_in self.now) }
    {
        later < number + self.size as usize
    }

    /// Returns the node with `new` elements in place of `old` ones inside.
    pub(crate) fn with_size(&self, old: usize, new: usize) -> Packed
        requires { new < limit }
        ensures { result ≡ with_size old new self.now }
    {
        let size = (self.size as usize + new).saturating_sub(old);
        Packed::new(
            self.kind,
            self.len_or_start as usize,
            self.parent as usize,
            size,
        )
    }

    /// Returns a placed element at its new place.
    pub(crate) fn shifted(&self, shift: &Shift) -> Packed
        requires start { shift.now.new_start < limit }
        requires number { shift.now.new_number < limit }
        ensures { result ≡ shifted shift.now self.now }
    {
        let start = (self.len_or_start as usize + shift.new_start).saturating_sub(shift.start);
        let parent = self.parent as usize;
        let parent = if parent < shift.number {
            parent
        } else {
            parent + shift.new_number - shift.number
        };
        Packed::new(self.kind, start, parent, self.size as usize)
    }

    /// Returns a placed element at another offset: what starts at `start` then starts at `new_start`.
    pub(crate) fn restarted(&self, start: usize, new_start: usize) -> Packed
        requires { new_start < limit }
        ensures { result ≡ restarted start new_start self.now }
    {
        let moved = (self.len_or_start as usize + new_start).saturating_sub(start);
        Packed {
            len_or_start: word(moved),
            parent: self.parent,
            size: self.size,
            kind: self.kind,
        }
    }
}

// Returns whether the kinds are equal.
fn same_kind(a: SyntaxKind, b: SyntaxKind) -> bool
    ensures { result ≡ same_kind a b }
{
    a == b
}

// Returns whether the numbers are equal.
fn same_numbers(a: &Packed, b: &Packed) -> bool
    ensures { result ≡ same_numbers a.now b.now }
{
    a.len_or_start == b.len_or_start && a.parent == b.parent && a.size == b.size
}

impl PartialEq for Packed {
    ghost use Rattle.std.specs.Cmp.{partial_equiv_from_equiv};
    ghost use Rattle.rnix_green.specs.SameElements.{same_element, elements_equal};

    ghost eq = { same_element };

    ghost laws = { partial_equiv_from_equiv elements_equal };

    fn eq(&self, other: &Packed) -> bool {
        same_kind(self.kind, other.kind) && same_numbers(self, other)
    }
}
