//! How operands begin.

ghost use Rattle.std.specs.Prelude.{◌≡◌, OnOk, None, if◌then◌else◌};
ghost use Rattle.rnix_grammar.specs.OperandStarts.{second_kind};
ghost use Rattle.rnix_grammar.specs.AnnotatedForest.{head_kind};
ghost use Rattle.rnix_grammar.specs.Layout.{tail_of};
ghost use Rattle.rnix_reader.specs.Placed.{token_of};
ghost use Rattle.rnix_reader.specs.State.{state, items_remaining, IsNextItem};
ghost use Rattle.rnix_reader.specs.FrameSteps.{operand_begun, looks_behind, is_brace, begins_with, binding_read, lambda_begun, leaf_node_made, node_operand_begun, parameter_read};

use crate::cursor::PlacedToken;
use crate::parser::Parser;
use rnix_grammar::{LAMBDA, OperandStart, Position, operand_start_of};
use rnix_kinds::SyntaxKind;
use std::alloc::AllocError;

// Whether the second item matters to an operand that begins with a token of the kind.
fn looks_behind(kind: SyntaxKind) -> bool
    ensures { result ≡ looks_behind kind }
{
    matches!(
        kind,
        SyntaxKind::TOKEN_IDENT | SyntaxKind::TOKEN_L_BRACE | SyntaxKind::TOKEN_LET
    )
}

// Whether the third item matters too.
fn is_brace(kind: SyntaxKind) -> bool
    ensures { result ≡ is_brace kind }
{
    matches!(kind, SyntaxKind::TOKEN_L_BRACE)
}

impl<'t> Parser<'t> {
    // The kind of the second item, where it matters to an operand that begins with a token of the kind.
    #[inline(always)]
    fn second_of(&self, kind: SyntaxKind) -> Option<SyntaxKind>
        ensures { result ≡ (if looks_behind kind then head_kind (tail_of (items_remaining (state self.now))) else None) }
    {
        if looks_behind(kind) {
            return self.cursor.second();
        }
        None
    }

    // The kind of the third item, where it matters.
    #[inline(always)]
    fn third_of(&self, kind: SyntaxKind) -> Option<SyntaxKind>
        ensures { result ≡ (if is_brace kind then second_kind (tail_of (items_remaining (state self.now))) else None) }
    {
        if is_brace(kind) {
            return self.cursor.third();
        }
        None
    }

    /// Returns how an operand begins, by the next item.
    #[tactic(auto, using(crate::proofs::OperandStartLemmas::start_alone))]
    #[inline(always)]
    pub(crate) fn operand_start(&self, level: u8, first: PlacedToken<'_>) -> OperandStart
        requires { IsNextItem (token_of first) (state self.now) }
        ensures { result ≡ begins_with level (token_of first.entry) (tail_of (items_remaining (state self.now))) }
    {
        let kind = first.kind;
        let second = self.second_of(kind);
        let third = self.third_of(kind);
        operand_start_of(level, (kind, first.text), second, third)
    }

    /// Reads the parameter of a function.
    pub(crate) fn parameter(&mut self) -> Result<(), AllocError>
        ensures { OnOk result (state self.new ≡ parameter_read (state self.old)) }
    {
        self.start_node(SyntaxKind::NODE_IDENT_PARAM)?;
        self.leaf_node(SyntaxKind::NODE_IDENT)?;
        self.finish_node()?;
        Ok(())
    }

    /// Reads a name that is bound to a pattern, and `@`.
    pub(crate) fn binding(&mut self) -> Result<(), AllocError>
        ensures { OnOk result (state self.new ≡ binding_read (state self.old)) }
    {
        self.start_node(SyntaxKind::NODE_PAT_BIND)?;
        self.leaf_node(SyntaxKind::NODE_IDENT)?;
        self.bump(SyntaxKind::NODE_PAT_BIND)?;
        self.finish_node()?;
        Ok(())
    }

    /// Reads an operand that is a node over just the next item.
    #[inline(always)]
    pub(crate) fn leaf_operand(
        &mut self,
        kind: SyntaxKind,
        over: Position,
        depth: usize,
    ) -> Result<(), AllocError>
        ensures { OnOk result (state self.new ≡ leaf_node_made kind (operand_begun over depth (state self.old))) }
    {
        self.open_operand(over, depth)?;
        self.leaf_node(kind)?;
        Ok(())
    }

    /// Begins an operand that is a node, whose first leaf is the next item.
    #[inline(always)]
    pub(crate) fn node_operand(
        &mut self,
        kind: SyntaxKind,
        inside: Position,
        over: Position,
        depth: usize,
    ) -> Result<(), AllocError>
        ensures { OnOk result (state self.new ≡ node_operand_begun kind inside over depth (state self.old)) }
    {
        self.open_operand(over, depth)?;
        self.open_node(kind, inside, depth)?;
        self.bump(kind)?;
        Ok(())
    }

    /// Begins an operand that is a function, before its parameter.
    pub(crate) fn lambda(&mut self, over: Position, depth: usize) -> Result<(), AllocError>
        ensures { OnOk result (state self.new ≡ lambda_begun over depth (state self.old)) }
    {
        self.open_operand(over, depth)?;
        self.open_node(SyntaxKind::NODE_LAMBDA, Position::InRow(LAMBDA), depth)?;
        Ok(())
    }
}
