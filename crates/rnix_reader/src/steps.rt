//! The reader's steps inside a node's row. Each continues the innermost node or operand, whose mark was popped from the stack.

ghost use Rattle.std.specs.Prelude.{◌≡◌, ◌<◌, length, false, true, OnOk};
ghost use Rattle.rnix_kinds.specs.declared.kinds.SyntaxKind.TheVariants.{NODE_ROOT};
ghost use Rattle.rnix_grammar.specs.declared.position.Position.TheVariants.{InRow};
ghost use Rattle.rnix_proof_lemmas.specs.Allowed.{is_there};
ghost use Rattle.rnix_grammar.specs.AnnotatedForest.{head_kind};
ghost use Rattle.rnix_grammar.specs.Fault.{unexpected_eof as ended_fault};
ghost use Rattle.rnix_grammar.specs.Tables.{stops};
ghost use Rattle.rnix_reader.specs.State.{state, items_remaining, bumped, failed};
ghost use Rattle.rnix_reader.specs.FrameSteps.{moved_to, node_started, operand_begun, entry_begun, leaf_node_made, node_begun, or_applied, node_wrapped};
ghost use Rattle.rnix_reader.specs.Performed.{IsCheckpoint};
ghost use Rattle.rnix_reader.specs.Reported.{end_reported, extra_reported, unwanted_reported};

use crate::cursor::PlacedToken;
use crate::mark::Mark;
use crate::parser::Parser;
use rnix_grammar::{ExpectedSet, PAT_ENTRY, ParseError, Position};
use rnix_kinds::SyntaxKind;
use std::alloc::AllocError;

impl<'t> Parser<'t> {
    /// Continues the node or operand of the mark at another position.
    #[inline(always)]
    pub(crate) fn resume_at(&mut self, mark: Mark, after: Position) -> Result<(), AllocError>
        ensures state { OnOk result (state self.new ≡ moved_to after mark (state self.old)) }
        ensures builder { OnOk result (self.new.builder ≡ self.old.builder) }
    {
        self.mark(after, mark.depth, mark.at)
    }

    /// Opens a node at the next item, to be continued at the position.
    #[inline(always)]
    pub(crate) fn open_node(
        &mut self,
        kind: SyntaxKind,
        inside: Position,
        depth: usize,
    ) -> Result<(), AllocError>
        ensures state { OnOk result (state self.new ≡ node_started kind inside depth (state self.old)) }
        ensures open { OnOk result (0 < length self.new.builder.draft.open_nodes) }
    {
        let at = self.start_node(kind)?;
        self.mark(inside, depth, at)?;
        Ok(())
    }

    /// Begins an operand at the next item, to be continued at the position.
    #[inline(always)]
    pub(crate) fn open_operand(&mut self, inside: Position, depth: usize) -> Result<(), AllocError>
        ensures { OnOk result (state self.new ≡ operand_begun inside depth (state self.old)) }
    {
        self.eat_trivia()?;
        let at = self.here();
        self.mark(inside, depth, at)?;
        Ok(())
    }

    /// Takes the next item as a leaf.
    #[inline(always)]
    pub(crate) fn take(&mut self, mark: Mark, after: u8) -> Result<(), AllocError>
        ensures { OnOk result (state self.new ≡ bumped NODE_ROOT (moved_to (InRow after) mark (state self.old))) }
    {
        self.resume_at(mark, Position::InRow(after))?;
        self.bump(SyntaxKind::NODE_ROOT)?;
        Ok(())
    }

    /// Reports that the text ends where more is expected.
    pub(crate) fn miss(&mut self, mark: Mark, after: u8) -> Result<(), AllocError>
        ensures { OnOk result (state self.new ≡ failed ended_fault (moved_to (InRow after) mark (state self.old))) }
    {
        self.resume_at(mark, Position::InRow(after))?;
        self.fail_at_end()?;
        Ok(())
    }

    /// Reports that the text ends where certain kinds are expected.
    pub(crate) fn miss_wanted(
        &mut self,
        mark: Mark,
        until: ExpectedSet,
        after: u8,
    ) -> Result<(), AllocError>
        ensures { OnOk result (state self.new ≡ end_reported until (moved_to (InRow after) mark (state self.old))) }
    {
        self.resume_at(mark, Position::InRow(after))?;
        self.missing(until)?;
        Ok(())
    }

    /// Reports a run of items where certain kinds are expected.
    pub(crate) fn unwanted_run(
        &mut self,
        mark: Mark,
        until: ExpectedSet,
        after: u8,
    ) -> Result<(), AllocError>
        requires { stops until (head_kind (items_remaining (moved_to (InRow after) mark (state self.old)))) ≡ false }
        ensures { OnOk result (state self.new ≡ unwanted_reported until (moved_to (InRow after) mark (state self.old))) }
    {
        self.resume_at(mark, Position::InRow(after))?;
        self.unwanted(until)?;
        Ok(())
    }

    /// Reports what is left of the text after the root's expression.
    pub(crate) fn extra_run(&mut self, mark: Mark) -> Result<(), AllocError>
        requires { is_there (head_kind (items_remaining (moved_to mark.position mark (state self.old)))) ≡ true }
        ensures { OnOk result (state self.new ≡ extra_reported (moved_to mark.position mark (state self.old))) }
    {
        self.resume_at(mark, mark.position)?;
        self.extra()?;
        Ok(())
    }

    /// Makes a node of the next item.
    #[inline(always)]
    pub(crate) fn leaf(&mut self, mark: Mark, kind: SyntaxKind, after: u8) -> Result<(), AllocError>
        ensures { OnOk result (state self.new ≡ leaf_node_made kind (moved_to (InRow after) mark (state self.old))) }
    {
        self.resume_at(mark, Position::InRow(after))?;
        self.leaf_node(kind)?;
        Ok(())
    }

    /// Opens a node before reading anything of it.
    #[inline(always)]
    pub(crate) fn open_empty(
        &mut self,
        mark: Mark,
        kind: SyntaxKind,
        inside: u8,
        after: u8,
    ) -> Result<(), AllocError>
        ensures { OnOk result (state self.new ≡ node_started kind (InRow inside) mark.depth (moved_to (InRow after) mark (state self.old))) }
    {
        let depth = mark.depth;
        self.resume_at(mark, Position::InRow(after))?;
        self.open_node(kind, Position::InRow(inside), depth)?;
        Ok(())
    }

    /// Opens a node whose first leaf is the next item.
    #[inline(always)]
    pub(crate) fn open(
        &mut self,
        mark: Mark,
        kind: SyntaxKind,
        inside: u8,
        after: u8,
    ) -> Result<(), AllocError>
        ensures { OnOk result (state self.new ≡ node_begun kind (InRow inside) mark.depth (moved_to (InRow after) mark (state self.old))) }
    {
        self.open_empty(mark, kind, inside, after)?;
        self.bump(kind)?;
        Ok(())
    }

    /// Opens an entry of a pattern, with its name.
    pub(crate) fn entry(&mut self, mark: Mark, after: u8) -> Result<(), AllocError>
        ensures { OnOk result (state self.new ≡ entry_begun (InRow after) mark (state self.old)) }
    {
        self.open_empty(mark, SyntaxKind::NODE_PAT_ENTRY, PAT_ENTRY, after)?;
        self.leaf_node(SyntaxKind::NODE_IDENT)?;
        Ok(())
    }

    /// Opens a node that begins where the operand before it began.
    #[inline(always)]
    pub(crate) fn wrap(
        &mut self,
        mark: Mark,
        over: Position,
        kind: SyntaxKind,
        inside: Position,
    ) -> Result<(), AllocError>
        requires { IsCheckpoint mark (state self.old) }
        ensures state { OnOk result (state self.new ≡ node_wrapped kind inside over mark (state self.old)) }
    {
        let depth = mark.depth;
        let at = mark.at;
        self.resume_at(mark, over)?;
        self.start_node_at(at, kind)?;
        self.mark(inside, depth, at)?;
        Ok(())
    }

    /// Opens a node that begins where the operand before it began, and takes the next item as its leaf.
    #[inline(always)]
    pub(crate) fn wrap_and_bump(
        &mut self,
        mark: Mark,
        over: Position,
        kind: SyntaxKind,
        inside: Position,
    ) -> Result<(), AllocError>
        requires { IsCheckpoint mark (state self.old) }
        ensures { OnOk result (state self.new ≡ bumped kind (node_wrapped kind inside over mark (state self.old))) }
    {
        self.wrap(mark, over, kind, inside)?;
        self.bump(kind)?;
        Ok(())
    }

    /// Applies the operand before it to the name `or`.
    pub(crate) fn apply_or(&mut self, mark: Mark, over: Position) -> Result<(), AllocError>
        requires { IsCheckpoint mark (state self.old) }
        ensures { OnOk result (state self.new ≡ or_applied over mark (state self.old)) }
    {
        let at = mark.at;
        self.resume_at(mark, over)?;
        self.start_node_at(at, SyntaxKind::NODE_APPLY)?;
        self.leaf_node(SyntaxKind::NODE_IDENT)?;
        self.finish_node()?;
        Ok(())
    }
}
