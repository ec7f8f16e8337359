//! The reader's state: each step moves a cursor over the tokens and builds the tree.

ghost use Rattle.std.specs.Prelude.{◌≡◌};
ghost use Rattle.rnix_reader.specs.Placed.{texts_in};

use crate::cursor::{Cursor, PlacedToken};
use crate::leaf_kind::leaf_kind_as;
use crate::mark::Mark;
use rnix_grammar::{ParseError, Position};
use rnix_green::{Checkpoint, TextBuilder};
use rnix_kinds::SyntaxKind;
use std::alloc::AllocError;

/// Reads tokens, builds the tree, and keeps the errors and the open nodes and operands.
#[derive(Drop)]
pub(crate) struct Parser<'t> {
    pub(crate) cursor: Cursor<'t>,
    pub(crate) builder: TextBuilder<'t>,
    pub(crate) errors: Vec<ParseError>,
    /// Where the last item ended, in bytes.
    pub(crate) prev_end: usize,
    pub(crate) marks: Vec<Mark>,
    ghost remaining: { builder.remaining ≡ texts_in cursor },
}

impl<'t> Parser<'t> {
    ghost use Rattle.std.specs.Prelude.{◌<◌, length, IfOk, OnOk, IsTrue, option_map};
    ghost use Rattle.rnix_green.specs.Forest.{tree_count};
    ghost use Rattle.rnix_green.specs.Draft.{is_checkpoint_of};
    ghost use Rattle.rnix_grammar.specs.Fault.{fault_of, unexpected_eof as ended_fault};
    ghost use Rattle.rnix_grammar.specs.AnnotatedForest.{head_of, head_kind, touches};
    ghost use Rattle.rnix_reader.specs.Placed.{token_of, AreInOrder};
    ghost use Rattle.rnix_reader.specs.State.{state, items_remaining, eaten, bumped, started, started_at, ended, failed, pushed};
    ghost use Rattle.rnix_reader.specs.Erase.{mark_at};

    /// Returns the next item.
    #[tactic(auto, using(crate::proofs::CursorLemmas::head_items))]
    #[inline(always)]
    pub(crate) fn item(&self) -> Option<PlacedToken<'t>>
        ensures { option_map token_of result ≡ head_of (items_remaining (state self.now)) }
    {
        self.cursor.item()
    }

    /// Returns the kind of the next item.
    pub(crate) fn peek(&self) -> Option<SyntaxKind>
        ensures { result ≡ head_kind (items_remaining (state self.now)) }
    {
        self.cursor.first()
    }

    /// Returns whether the next item touches the last one.
    pub(crate) fn touches(&self) -> bool
        ensures { result ≡ touches (state self.now).prev_end (items_remaining (state self.now)) }
    {
        match self.item() {
            Some(item) => item.start == self.prev_end,
            None => false,
        }
    }

    /// Reads the trivia before the next item.
    #[inline(always)]
    pub(crate) fn eat_trivia(&mut self) -> Result<(), AllocError>
        ensures state { OnOk result (state self.new ≡ eaten (state self.old)) }
        ensures nodes { OnOk result (self.new.builder.draft.open_nodes ≡ self.old.builder.draft.open_nodes) }
    {
        while let Some(token) = self.cursor.trivia() {
            self.builder.token(token.kind, token.text)?;
            self.cursor.advance();
        }
        Ok(())
    }

    /// Opens a node at the next item.
    #[tactic(auto, unfolding(crate::specs::State::started_at, crate::specs::State::eaten))]
    #[inline(always)]
    pub(crate) fn start_node(&mut self, kind: SyntaxKind) -> Result<Checkpoint, AllocError>
        ensures state { OnOk result (state self.new ≡ started kind (state self.old)) }
        ensures position { IfOk result (λ position. position ≡ tree_count (eaten (state self.old)).trees) }
        ensures open { OnOk result (0 < length self.new.builder.draft.open_nodes) }
    {
        self.eat_trivia()?;
        let position = self.builder.checkpoint();
        self.builder.start_node(kind)?;
        Ok(position)
    }

    /// Opens a node before the trees that were read since a checkpoint.
    #[tactic(auto, unfolding(crate::specs::State::started_at))]
    #[inline(always)]
    pub(crate) fn start_node_at(
        &mut self,
        position: Checkpoint,
        kind: SyntaxKind,
    ) -> Result<(), AllocError>
        requires { IsTrue (is_checkpoint_of self.old.builder.draft position) }
        ensures state { OnOk result (state self.new ≡ started_at position kind (state self.old)) }
        ensures open { OnOk result (0 < length self.new.builder.draft.open_nodes) }
    {
        self.builder.start_node_at(position, kind)
    }

    /// Closes the innermost node.
    #[tactic(auto, unfolding(crate::specs::State::ended))]
    #[inline(always)]
    pub(crate) fn finish_node(&mut self) -> Result<(), AllocError>
        requires { 0 < length self.old.builder.draft.open_nodes }
        ensures { OnOk result (state self.new ≡ ended (state self.old)) }
    {
        self.builder.finish_node()
    }

    /// Reports an error.
    #[tactic(auto, unfolding(crate::specs::State::failed))]
    pub(crate) fn fail(&mut self, error: ParseError) -> Result<(), AllocError>
        ensures { OnOk result (state self.new ≡ failed (fault_of error) (state self.old)) }
    {
        self.errors.push(error)?;
        Ok(())
    }

    /// Reports that the text ends where more is expected.
    #[inline(never)]
    pub(crate) fn fail_at_end(&mut self) -> Result<(), AllocError>
        ensures { OnOk result (state self.new ≡ failed ended_fault (state self.old)) }
    {
        self.fail(ParseError::UnexpectedEOF)?;
        Ok(())
    }

    /// Pushes the mark of a node or an operand, to be continued at the position.
    #[tactic(auto, unfolding(crate::specs::State::pushed))]
    #[inline(always)]
    pub(crate) fn mark(
        &mut self,
        position: Position,
        depth: usize,
        at: Checkpoint,
    ) -> Result<(), AllocError>
        ensures state { OnOk result (state self.new ≡ pushed (mark_at position depth at) (state self.old)) }
        ensures builder { OnOk result (self.new.builder ≡ self.old.builder) }
    {
        self.marks.reserve(1)?;
        self.marks.push_reserved(Mark {
            position,
            depth,
            at,
        });
        Ok(())
    }

    /// Reads the next item as a leaf below a node of the kind.
    #[inline(always)]
    pub(crate) fn bump(&mut self, parent: SyntaxKind) -> Result<(), AllocError>
        ensures state { OnOk result (state self.new ≡ bumped parent (state self.old)) }
        ensures nodes { OnOk result (self.new.builder.draft.open_nodes ≡ self.old.builder.draft.open_nodes) }
    {
        self.eat_trivia()?;
        if let Some(token) = self.cursor.token() {
            self.builder
                .token(leaf_kind_as(parent, token.kind), token.text)?;
            self.cursor.advance();
            self.prev_end = token.end;
        }
        Ok(())
    }

    /// Returns the checkpoint after the trees that were read so far.
    pub(crate) fn here(&self) -> Checkpoint
        ensures position { result ≡ tree_count (state self.now).trees }
    {
        self.builder.checkpoint()
    }

    /// The tokens are in order: none ends before it begins, or begins before the previous one ends.
    pub(crate) fn ordered(&self)
        ensures { AreInOrder 0 (state self.now).rest }
    {
        self.cursor.ordered();
    }
}
