//! The elements and the open nodes of a builder, without its text.

ghost use Rattle.std.specs.Prelude.{◌≡◌, ◌<◌, List, [], ℕ, length, OnOk, OnErr, slice_index_or};

use crate::packed::{Packed, room};
use rnix_kinds::SyntaxKind;
use std::alloc::{AllocError, Global};

// An open node, and the number of finished trees before its first child.
#[derive(Clone, Copy)]
pub(crate) struct OpenNode {
    pub(crate) kind: SyntaxKind,
    pub(crate) first_child: usize,
}

#[derive(Drop)]
pub(crate) struct Entries {
    // The elements of the finished trees, each node after its children.
    pub(crate) elements: Vec<Packed>,
    pub(crate) pending: Vec<OpenNode>,
    // The entry at which each finished tree begins.
    pub(crate) starts: Vec<u32>,
}

// Returns the entry at which a finished tree begins, or the end if there is no such tree.
fn start_at(starts: &[u32], first_child: usize, end: u32) -> u32
    ensures { result ≡ slice_index_or starts.now first_child end }
{
    starts.get(first_child).copied().unwrap_or(end)
}

impl Entries {
    ghost use Rattle.rnix_green.specs.Draft.{Draft, leaf_added, leaf_node_added, node_closed};
    ghost use Rattle.rnix_green.specs.Entries.{AreSame, HasRoom, IsAdded, Holds};

    pub(crate) fn new(alloc: Global) -> Self
        ensures { (result.elements.items ≡ []) × (result.pending.items ≡ []) × (result.starts.items ≡ []) }
    {
        Entries {
            elements: Vec::new(alloc),
            pending: Vec::new(alloc),
            starts: Vec::new(alloc),
        }
    }

    /// Reserves room for one tree with a number of elements.
    #[inline(always)]
    pub(crate) fn reserve(&mut self, elements: usize) -> Result<(), AllocError>
        ensures same { AreSame self.old self.new }
        ensures ok { OnOk result (HasRoom elements self.new) }
    {
        room(self.elements.len(), elements)?;
        self.elements.reserve(elements)?;
        self.starts.reserve(1)
    }

    /// Adds a leaf with a text of `len` bytes.
    #[inline(always)]
    pub(crate) fn push_token(&mut self, kind: SyntaxKind, len: usize)
        requires { HasRoom 1 self.old }
        ensures { IsAdded self.old self.new len (leaf_added kind) }
    {
        let start = self.elements.len();
        self.elements.push_reserved(Packed::new(kind, len, 0, 0));
        self.starts.push_reserved(start as u32);
    }

    /// Adds a node over a leaf with a text of `len` bytes.
    #[inline(always)]
    pub(crate) fn push_leaf_node(&mut self, node: SyntaxKind, kind: SyntaxKind, len: usize)
        requires { HasRoom 2 self.old }
        ensures { IsAdded self.old self.new len (leaf_node_added node kind) }
    {
        let start = self.elements.len();
        self.elements.push_reserved(Packed::new(kind, len, 0, 0));
        self.elements.push_reserved(Packed::new(node, 0, 0, 2));
        self.starts.push_reserved(start as u32);
    }

    /// Closes the innermost open node.
    #[inline(always)]
    pub(crate) fn finish_node(&mut self) -> Result<(), AllocError>
        requires held { (text : List ℕ) × (d : Draft) × Holds text self.old d }
        requires some { 0 < length self.old.pending.items }
        ensures ok { OnOk result ((text : List ℕ) (d : Draft) → Holds text self.old d → Holds text self.new (node_closed d)) }
        ensures err { OnErr result (AreSame self.old self.new) }
    {
        let OpenNode { kind, first_child } = self.pending[self.pending.len() - 1];
        let end = self.elements.len();
        room(end, 1)?;
        let first = start_at(&self.starts, first_child, end as u32);
        self.starts.reserve(1)?;
        self.elements
            .push(Packed::new(kind, 0, 0, end - first as usize + 1))?;
        self.pending.truncate(self.pending.len() - 1);
        self.starts.truncate(first_child);
        self.starts.push_reserved(first);
        Ok(())
    }

    /// Returns the elements.
    pub(crate) fn into_elements(self) -> Vec<Packed>
        ensures { result ≡ self.elements }
    {
        self.elements
    }
}
