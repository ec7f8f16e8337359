//! The builder of the tree of a given text: its leaves take the text from left to right.

ghost use Rattle.std.specs.Prelude.{◌≡◌, ◌<◌, length, IsTrue, IfOk, OnOk, OnErr};
ghost use Rattle.rnix_green.specs.Forest.{tree_count};
ghost use Rattle.rnix_green.specs.Draft.{blank_of, with_draft, taken, leaf_added, leaf_node_added, node_opened, node_closed, is_checkpoint_of, is_complete_of, IsNext};
ghost use Rattle.rnix_green.specs.Tree.{forest_of};

use crate::builder::Checkpoint;
use crate::entries::{Entries, OpenNode};
use crate::green::GreenNode;
use crate::packed::room;
use crate::postorder::in_preorder;
use rnix_kinds::SyntaxKind;
use std::alloc::{AllocError, Global};
use std::marker::Model;

/// Builds the tree of a text, which is copied once, at the end. A call that is refused memory leaves the builder unchanged. A text of
/// 2^32 bytes, or that many elements, is refused as if memory had run out.
#[derive(Drop)]
pub struct TextBuilder<'t> {
    text: &'t str,
    // The number of bytes of the text that have leaves.
    taken: usize,
    entries: Entries,
}

impl<'t> Model for TextBuilder<'t> {
    ghost use Rattle.rnix_green.specs.Draft.{TextDraft, text_draft_code};

    ghost Value = { TextDraft };

    ghost coded = { text_draft_code };

    ghost use Rattle.rnix_green.specs.Entries.{text_draft_of, IsTextBuilder};

    ghost view = { λ b. text_draft_of b.text.now b.taken b.entries };

    ghost invariant = { λ b. IsTextBuilder b.text.now b.taken b.entries };
}

impl<'t> TextBuilder<'t> {
    /// Returns a builder without trees.
    pub fn new(alloc: Global, text: &'t str) -> Result<Self, AllocError>
        ensures { IfOk result (λ builder. builder ≡ blank_of text.now) }
    {
        room(text.len(), 0)?;
        Ok(TextBuilder {
            text,
            taken: 0,
            entries: Entries::new(alloc),
        })
    }

    /// Reserves room for more elements.
    pub fn reserve(&mut self, elements: usize) -> Result<(), AllocError>
        ensures { self.new ≡ self.old }
    {
        self.entries.elements.reserve_exact(elements)
    }

    /// Opens a node after the finished trees.
    #[inline(always)]
    pub fn start_node(&mut self, kind: SyntaxKind) -> Result<(), AllocError>
        ensures ok { OnOk result (self.new ≡ with_draft (node_opened kind (tree_count self.old.draft.finished) self.old.draft) self.old) }
        ensures err { OnErr result (self.new ≡ self.old) }
    {
        let first_child = self.entries.starts.len();
        self.entries.pending.reserve(1)?;
        self.entries
            .pending
            .push_reserved(OpenNode { kind, first_child });
        Ok(())
    }

    /// Adds a leaf that takes the next part of the text.
    #[inline(always)]
    pub fn token(&mut self, kind: SyntaxKind, part: &str) -> Result<(), AllocError>
        requires { IsNext part.now self.old }
        ensures ok { OnOk result (self.new ≡ taken (leaf_added kind part.now self.old.draft) part.now self.old) }
        ensures err { OnErr result (self.new ≡ self.old) }
    {
        self.entries.reserve(1)?;
        self.entries.push_token(kind, part.len());
        self.taken += part.len();
        Ok(())
    }

    /// Returns the point after the finished trees.
    pub fn checkpoint(&self) -> Checkpoint
        ensures first_child { result ≡ tree_count self.now.draft.finished }
        ensures inside { IsTrue (is_checkpoint_of self.now.draft result) }
    {
        Checkpoint {
            first_child: self.entries.starts.len(),
        }
    }

    /// Opens a node whose first child is the first tree after the checkpoint.
    pub fn start_node_at(
        &mut self,
        checkpoint: Checkpoint,
        kind: SyntaxKind,
    ) -> Result<(), AllocError>
        requires { IsTrue (is_checkpoint_of self.old.draft checkpoint) }
        ensures ok { OnOk result (self.new ≡ with_draft (node_opened kind checkpoint self.old.draft) self.old) }
        ensures err { OnErr result (self.new ≡ self.old) }
    {
        let first_child = checkpoint.first_child;
        self.entries.pending.reserve(1)?;
        self.entries
            .pending
            .push_reserved(OpenNode { kind, first_child });
        Ok(())
    }

    /// Closes the innermost open node: its children are the trees finished since it was opened.
    #[inline(always)]
    pub fn finish_node(&mut self) -> Result<(), AllocError>
        requires { 0 < length self.old.draft.open_nodes }
        ensures ok { OnOk result (self.new ≡ with_draft (node_closed self.old.draft) self.old) }
        ensures err { OnErr result (self.new ≡ self.old) }
    {
        self.entries.finish_node()?;
        Ok(())
    }

    /// Adds a node with one leaf, like `start_node`, `token` and `finish_node` together.
    #[inline(always)]
    pub fn leaf_node(
        &mut self,
        node: SyntaxKind,
        kind: SyntaxKind,
        part: &str,
    ) -> Result<(), AllocError>
        requires { IsNext part.now self.old }
        ensures ok { OnOk result (self.new ≡ taken (leaf_node_added node kind part.now self.old.draft) part.now self.old) }
        ensures err { OnErr result (self.new ≡ self.old) }
    {
        self.entries.reserve(2)?;
        self.entries.push_leaf_node(node, kind, part.len());
        self.taken += part.len();
        Ok(())
    }

    /// Returns the finished tree, with the text that its leaves took. It consumes the builder, also if memory is refused.
    pub fn finish(self) -> Result<GreenNode, AllocError>
        requires { IsTrue (is_complete_of self.draft) }
        ensures { IfOk result (λ tree. forest_of tree ≡ self.entry.draft.finished) }
    {
        let TextBuilder {
            text,
            taken,
            entries,
        } = self;
        let entries = entries.into_elements();
        let alloc = *entries.allocator();
        let text = &text[..taken];
        let elements = in_preorder(entries, text)?;
        let copy = String::from_str(alloc, text)?;
        Ok(GreenNode::from_parts(elements, copy))
    }
}
