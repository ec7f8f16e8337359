//! The builder of trees, from left to right.

ghost use Rattle.std.specs.Prelude.{◌≡◌, ◌<◌, length, map, IsTrue, IfOk, OnOk, OnErr};
ghost use Rattle.rnix_green.specs.Forest.{tree_count};
ghost use Rattle.rnix_green.specs.Draft.{blank, leaf_added, leaf_node_added, node_opened, node_closed, is_checkpoint_of, is_complete_of};
ghost use Rattle.rnix_green.specs.Tree.{forest_of};
ghost use Rattle.rnix_green.specs.Entries.{is_node_last};
ghost use Rattle.rnix_green.specs.Postorder.{entry_of};

use crate::entries::{Entries, OpenNode};
use crate::green::GreenNode;
use crate::packed::{Packed, room};
use crate::postorder::in_preorder;
use rnix_kinds::SyntaxKind;
use std::alloc::{AllocError, Global};
use std::marker::Model;

/// A point in the children built so far, before which a node can be opened later.
#[derive(Clone, Copy, Debug)]
pub struct Checkpoint {
    pub(crate) first_child: usize,
}

impl Model for Checkpoint {
    ghost use Rattle.std.specs.Prelude.{ℕ};

    ghost Value = { ℕ };

    ghost view = { λ c. c.first_child };

    ghost inverse = { λ n. record { first_child = n } };
}

/// Builds a tree. A call that is refused memory leaves the builder unchanged. A text of 2^32 bytes, or that many elements, is refused in the same way.
#[derive(Drop)]
pub struct GreenNodeBuilder {
    text: String,
    entries: Entries,
}

impl Model for GreenNodeBuilder {
    ghost use Rattle.std.specs.Prelude.{string_bytes};
    ghost use Rattle.rnix_green.specs.Draft.{Draft, draft_code};

    ghost Value = { Draft };

    ghost coded = { draft_code };

    ghost use Rattle.rnix_green.specs.Entries.{draft_in, Holds};

    ghost view = { λ b. draft_in (string_bytes b.text) b.entries };

    ghost invariant = { λ b. Holds (string_bytes b.text) b.entries (draft_in (string_bytes b.text) b.entries) };
}

// Returns whether the last tree is a node.
fn ends_with_node(entries: &[Packed]) -> bool
    ensures { result ≡ is_node_last (map entry_of entries.now) }
{
    match entries.last() {
        Some(entry) => entry.size() > 0,
        None => false,
    }
}

impl GreenNodeBuilder {
    /// Returns a builder without trees.
    pub fn new(alloc: Global) -> Self
        ensures { result ≡ blank }
    {
        GreenNodeBuilder {
            text: String::new(alloc),
            entries: Entries::new(alloc),
        }
    }

    /// Reserves room for more elements and more bytes of text.
    pub fn reserve(&mut self, elements: usize, bytes: usize) -> Result<(), AllocError>
        ensures { self.new ≡ self.old }
    {
        self.entries.elements.reserve_exact(elements)?;
        self.text.reserve_exact(bytes)
    }

    /// Opens a node after the finished trees.
    #[inline(always)]
    pub fn start_node(&mut self, kind: SyntaxKind) -> Result<(), AllocError>
        ensures ok { OnOk result (self.new ≡ node_opened kind (tree_count self.old.finished) self.old) }
        ensures err { OnErr result (self.new ≡ self.old) }
    {
        let first_child = self.entries.starts.len();
        self.entries.pending.push(OpenNode { kind, first_child })?;
        Ok(())
    }

    /// Adds a leaf. Its text may be empty.
    #[inline(always)]
    pub fn token(&mut self, kind: SyntaxKind, text: &str) -> Result<(), AllocError>
        ensures ok { OnOk result (self.new ≡ leaf_added kind text.now self.old) }
        ensures err { OnErr result (self.new ≡ self.old) }
    {
        room(self.text.len(), text.len())?;
        self.entries.reserve(1)?;
        self.text.push_str(text)?;
        self.entries.push_token(kind, text.len());
        Ok(())
    }

    /// Returns the point after the finished trees.
    pub fn checkpoint(&self) -> Checkpoint
        ensures first_child { result ≡ tree_count self.now.finished }
        ensures inside { IsTrue (is_checkpoint_of self.now result) }
    {
        Checkpoint {
            first_child: self.entries.starts.len(),
        }
    }

    /// Opens a node whose first child is the first tree after the checkpoint.
    pub fn start_node_at(
        &mut self,
        checkpoint: Checkpoint,
        kind: SyntaxKind,
    ) -> Result<(), AllocError>
        requires { IsTrue (is_checkpoint_of self.old checkpoint) }
        ensures ok { OnOk result (self.new ≡ node_opened kind checkpoint self.old) }
        ensures err { OnErr result (self.new ≡ self.old) }
    {
        let first_child = checkpoint.first_child;
        self.entries.pending.push(OpenNode { kind, first_child })?;
        Ok(())
    }

    /// Closes the innermost open node: its children are the finished trees after the point at which it was opened.
    #[inline(always)]
    pub fn finish_node(&mut self) -> Result<(), AllocError>
        requires { 0 < length self.old.open_nodes }
        ensures ok { OnOk result (self.new ≡ node_closed self.old) }
        ensures err { OnErr result (self.new ≡ self.old) }
    {
        self.entries.finish_node()?;
        Ok(())
    }

    /// Adds a node with one leaf, like `start_node`, `token` and `finish_node` together.
    #[inline(always)]
    pub fn leaf_node(
        &mut self,
        node: SyntaxKind,
        kind: SyntaxKind,
        text: &str,
    ) -> Result<(), AllocError>
        ensures ok { OnOk result (self.new ≡ leaf_node_added node kind text.now self.old) }
        ensures err { OnErr result (self.new ≡ self.old) }
    {
        room(self.text.len(), text.len())?;
        self.entries.reserve(2)?;
        self.text.push_str(text)?;
        self.entries.push_leaf_node(node, kind, text.len());
        Ok(())
    }

    /// Returns the number of open nodes.
    pub fn open_nodes(&self) -> usize
        ensures { result ≡ length self.now.open_nodes }
    {
        self.entries.pending.len()
    }

    /// Returns whether a node may be opened at the checkpoint, which must not precede the first child of an open node.
    pub fn is_valid_checkpoint(&self, checkpoint: Checkpoint) -> bool
        ensures { result ≡ is_checkpoint_of self.now checkpoint }
    {
        checkpoint.first_child <= self.entries.starts.len()
            && match self.entries.pending.last() {
                None => true,
                Some(innermost) => innermost.first_child <= checkpoint.first_child,
            }
    }

    /// Returns whether no node is open and the only finished tree is a node.
    pub fn is_complete(&self) -> bool
        ensures { result ≡ is_complete_of self.now }
    {
        if self.entries.pending.len() > 0 {
            return false;
        }
        if self.entries.starts.len() != 1 {
            return false;
        }
        ends_with_node(&self.entries.elements)
    }

    /// Returns the finished tree. It consumes the builder, also if memory is refused.
    pub fn finish(self) -> Result<GreenNode, AllocError>
        requires { IsTrue (is_complete_of self) }
        ensures { IfOk result (λ tree. forest_of tree ≡ self.finished) }
    {
        let GreenNodeBuilder { text, entries } = self;
        let elements = in_preorder(entries.into_elements(), text.as_str())?;
        Ok(GreenNode::from_parts(elements, text))
    }
}
