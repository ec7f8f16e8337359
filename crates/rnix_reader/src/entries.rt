//! Entries and second names of patterns. The reader keeps the names of the entries.

ghost use Rattle.std.specs.Prelude.{◌≡◌, ◌≤◌, ◌<◌, length, OnOk};
ghost use Rattle.rnix_grammar.specs.declared.position.Position.TheVariants.{InRow};
ghost use Rattle.rnix_grammar.specs.AnnotatedForest.{Token};
ghost use Rattle.rnix_reader.specs.PatternNames.{EntryNamed};
ghost use Rattle.rnix_reader.specs.Performed.{DoubleBindOpened, EntryReported};
ghost use Rattle.rnix_reader.specs.Reported.{second_reported};
ghost use Rattle.rnix_reader.specs.State.{state, IsNextItem};
ghost use Rattle.rnix_reader.specs.FrameSteps.{entry_begun, second_begun};

use crate::mark::Mark;
use crate::parser::Parser;
use crate::pattern_names::Names;
use rnix_grammar::{ParseError, SECOND_BIND};
use rnix_green::TextRange;
use rnix_kinds::SyntaxKind;
use std::alloc::AllocError;

/// Completes an entry of a pattern.
pub(crate) fn close_entry<'t>(p: &mut Parser<'t>, names: &mut Names<'t>) -> Result<(), AllocError>
    requires { 0 < length p.old.builder.draft.open_nodes }
    ensures { OnOk result (EntryReported (state p.old) names.old (state p.new) names.new) }
{
    p.finish_node()?;
    if let Some(error) = names.close_entry()? {
        p.fail(error)?;
    }
    Ok(())
}

/// Completes the second name of a pattern.
#[tactic(auto, unfolding(crate::specs::State::ended))]
pub(crate) fn close_double_bind(p: &mut Parser<'_>, start: usize) -> Result<(), AllocError>
    requires open { 0 < length p.old.builder.draft.open_nodes }
    requires order { start ≤ (state p.old).prev_end }
    ensures { OnOk result (state p.new ≡ second_reported start (state p.old)) }
{
    p.finish_node()?;
    p.fail(ParseError::UnexpectedDoubleBind(TextRange::new(start, p.prev_end)))?;
    Ok(())
}

/// Opens an entry of a pattern, with its name.
pub(crate) fn open_entry<'t>(
    p: &mut Parser<'t>,
    names: &mut Names<'t>,
    mark: Mark,
    after: u8,
) -> Result<(), AllocError>
    ensures state { OnOk result (state p.new ≡ entry_begun (InRow after) mark (state p.old)) }
    ensures names { (t : Token) → IsNextItem t (state p.old) → OnOk result (EntryNamed t names.old names.new) }
{
    if let Some(name) = p.item() {
        p.ordered();
        names.open_entry(name.text, TextRange::new(name.start, name.end))?;
    }
    p.entry(mark, after)?;
    Ok(())
}

/// Opens the second name of a pattern, with its first token.
pub(crate) fn open_double_bind<'t>(
    p: &mut Parser<'t>,
    names: &mut Names<'t>,
    mark: Mark,
    after: u8,
) -> Result<(), AllocError>
    ensures state { OnOk result (state p.new ≡ second_begun (InRow after) mark (state p.old)) }
    ensures names { (t : Token) → IsNextItem t (state p.old) → OnOk result (DoubleBindOpened t.start names.old names.new) }
{
    if let Some(first) = p.item() {
        names.second = first.start;
    }
    p.open(mark, SyntaxKind::NODE_ERROR, SECOND_BIND, after)?;
    Ok(())
}
