//! Nodes that are made in one step: over one item, and over runs of unwanted items.

ghost use Rattle.std.specs.Prelude.{◌≡◌, IfOk, OnOk, false, true, Some};
ghost use Rattle.rnix_green.specs.Range.{bounds_of};
ghost use Rattle.rnix_grammar.specs.Tables.{stops};
ghost use Rattle.rnix_proof_lemmas.specs.Allowed.{is_there};
ghost use Rattle.rnix_grammar.specs.AnnotatedForest.{extent_of, head_kind};
ghost use Rattle.rnix_reader.specs.Placed.{token_of};
ghost use Rattle.rnix_reader.specs.State.{state, items_remaining, skipped, IsNextItem};
ghost use Rattle.rnix_reader.specs.Reported.{end_reported, error_over, extra_reported, limit_reported, next_run, stray_reported, unwanted_reported};
ghost use Rattle.rnix_reader.specs.FrameSteps.{leaf_node_made};

use crate::cursor::PlacedToken;
use crate::leaf_kind::leaf_kind_as;
use crate::parser::Parser;
use rnix_grammar::{ExpectedSet, ParseError, operand_kinds, stops, wanted_kinds};
use rnix_green::TextRange;
use rnix_kinds::SyntaxKind;
use std::alloc::AllocError;

impl<'t> Parser<'t> {
    /// Makes a node of the next item.
    #[inline(always)]
    pub(crate) fn leaf_node(&mut self, kind: SyntaxKind) -> Result<(), AllocError>
        ensures state { OnOk result (state self.new ≡ leaf_node_made kind (state self.old)) }
        ensures nodes { OnOk result (self.new.builder.draft.open_nodes ≡ self.old.builder.draft.open_nodes) }
    {
        self.eat_trivia()?;
        if let Some(token) = self.cursor.token() {
            let leaf_kind = leaf_kind_as(kind, token.kind);
            self.builder.leaf_node(kind, leaf_kind, token.text)?;
            self.cursor.advance();
            self.prev_end = token.end;
            return Ok(());
        }
        self.builder.start_node(kind)?;
        self.finish_node()?;
        Ok(())
    }

    // Reads items up to one that stops the run.
    fn skip(&mut self, until: ExpectedSet) -> Result<(), AllocError>
        ensures state { OnOk result (state self.new ≡ skipped (next_run until (state self.old)) (state self.old)) }
        ensures nodes { OnOk result (self.new.builder.draft.open_nodes ≡ self.old.builder.draft.open_nodes) }
    {
        while let Some(item) = self.item() {
            if stops(until, Some(item.kind)) {
                return Ok(());
            }
            self.bump(SyntaxKind::NODE_ERROR)?;
        }
        Ok(())
    }

    // Makes an error node of a run of items, the first of which is given, and returns its range.
    fn error_run(
        &mut self,
        until: ExpectedSet,
        first: PlacedToken<'_>,
    ) -> Result<TextRange, AllocError>
        requires first { IsNextItem (token_of first) (state self.old) }
        requires unwanted { stops until (Some first.kind) ≡ false }
        ensures state { OnOk result (state self.new ≡ error_over until (state self.old)) }
        ensures range { IfOk result (λ range. bounds_of range ≡ extent_of (next_run until (state self.old))) }
    {
        self.ordered();
        self.start_node(SyntaxKind::NODE_ERROR)?;
        self.skip(until)?;
        self.finish_node()?;
        Ok(TextRange::new(first.start, self.prev_end))
    }

    /// Makes an error node of a run of items where others are expected, and reports it.
    pub(crate) fn unwanted(&mut self, until: ExpectedSet) -> Result<(), AllocError>
        requires { stops until (head_kind (items_remaining (state self.old))) ≡ false }
        ensures { OnOk result (state self.new ≡ unwanted_reported until (state self.old)) }
    {
        if let Some(first) = self.item() {
            let range = self.error_run(until, first)?;
            let wanted = wanted_kinds(until).to_vec(*self.errors.allocator())?;
            self.fail(ParseError::UnexpectedWanted(first.kind, range, wanted))?;
        }
        Ok(())
    }

    /// Makes an error node of all that is left after the root's expression, and reports it.
    pub(crate) fn extra(&mut self) -> Result<(), AllocError>
        requires { is_there (head_kind (items_remaining (state self.old))) ≡ true }
        ensures { OnOk result (state self.new ≡ extra_reported (state self.old)) }
    {
        if let Some(first) = self.item() {
            let range = self.error_run(ExpectedSet::End, first)?;
            self.fail(ParseError::UnexpectedExtra(range))?;
        }
        Ok(())
    }

    /// Makes an error node of the next item, which cannot begin an operand, and reports it.
    pub(crate) fn stray(&mut self, first: PlacedToken<'_>) -> Result<(), AllocError>
        requires { IsNextItem (token_of first) (state self.old) }
        ensures { OnOk result (state self.new ≡ stray_reported (token_of first.entry) (state self.old)) }
    {
        self.ordered();
        self.leaf_node(SyntaxKind::NODE_ERROR)?;
        let wanted = operand_kinds().to_vec(*self.errors.allocator())?;
        let range = TextRange::new(first.start, first.end);
        self.fail(ParseError::UnexpectedWanted(first.kind, range, wanted))?;
        Ok(())
    }

    /// Reports that the text ends where certain kinds are expected.
    pub(crate) fn missing(&mut self, until: ExpectedSet) -> Result<(), AllocError>
        ensures { OnOk result (state self.new ≡ end_reported until (state self.old)) }
    {
        let wanted = wanted_kinds(until).to_vec(*self.errors.allocator())?;
        self.fail(ParseError::UnexpectedEOFWanted(wanted))?;
        Ok(())
    }

    /// Makes an error node of all that is left, which is nested too deep, and reports it.
    pub(crate) fn too_deep(&mut self) -> Result<(), AllocError>
        ensures { OnOk result (state self.new ≡ limit_reported (state self.old)) }
    {
        self.start_node(SyntaxKind::NODE_ERROR)?;
        self.skip(ExpectedSet::End)?;
        self.finish_node()?;
        self.eat_trivia()?;
        self.fail(ParseError::RecursionLimitExceeded)?;
        Ok(())
    }
}
