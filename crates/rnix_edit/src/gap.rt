//! Places for new nodes.

ghost use Rattle.std.specs.Prelude.{◌≡◌, IfOk};
ghost use Rattle.rnix_edit.specs.EditRanges.{gap_in_line, gap_on_next_line, gap_after_range, gap_after, gap_above, gap_before, gap_at_closing, gap_inside};
ghost use Rattle.rnix_edit.specs.ParsedEdit.{gap_of};

use crate::blanks::{begins_line, blanks_before, blanks_start, line_break_before};
use crate::line::{RestOfLine, closing_start, rest_of_line};
use rnix::SyntaxNode;
use std::alloc::{AllocError, Global};

/// A place for a new node: it replaces the blanks from `start` up to `end`, with the white space `before` and `after` around it.
#[derive(Drop)]
pub struct Gap {
    pub start: usize,
    pub end: usize,
    pub before: String,
    pub after: &'static str,
    /// The number of comments between the previous node and the gap.
    pub comments: usize,
}

// The indentation of an entry in a set that has none yet.
const INDENT: &str = "  ";

// Returns the gap directly after a node, with a space.
fn gap_in_line(alloc: Global, end: usize) -> Result<Gap, AllocError>
    ensures { IfOk result (λ gap. gap_of gap ≡ gap_in_line end) }
{
    Ok(Gap {
        start: end,
        end,
        before: String::from_str(alloc, " ")?,
        after: "",
        comments: 0,
    })
}

// Returns the gap on the line after a node that begins at `start`.
fn gap_on_next_line(
    alloc: Global,
    text: &str,
    start: usize,
    rest: RestOfLine,
) -> Result<Gap, AllocError>
    ensures { IfOk result (λ gap. gap_of gap ≡ gap_on_next_line text.now start rest) }
{
    Ok(Gap {
        start: rest.next_line,
        end: rest.next_line,
        before: String::from_str(alloc, blanks_before(text, start))?,
        after: line_break_before(text, rest.next_line),
        comments: rest.comments,
    })
}

// Returns the gap after a node, given its range and the rest of its line.
fn gap_after_range(
    alloc: Global,
    text: &str,
    start: usize,
    end: usize,
    rest: Option<RestOfLine>,
) -> Result<Gap, AllocError>
    ensures { IfOk result (λ gap. gap_of gap ≡ gap_after_range text.now start end rest) }
{
    match rest {
        Some(rest) => {
            if begins_line(text, blanks_start(text, start)) {
                gap_on_next_line(alloc, text, start, rest)
            } else {
                gap_in_line(alloc, end)
            }
        }
        None => gap_in_line(alloc, end),
    }
}

/// Returns the gap for a new node after another one: on the next line if that one is on a line of its own, otherwise after a space.
pub fn gap_after(alloc: Global, text: &str, node: &SyntaxNode<'_>) -> Result<Gap, AllocError>
    ensures { IfOk result (λ gap. gap_of gap ≡ gap_after text.now node.now) }
{
    let range = node.text_range();
    gap_after_range(alloc, text, range.start(), range.end(), rest_of_line(node))
}

// Returns the gap on a new line above that of a closing bracket.
fn gap_above(alloc: Global, text: &str, closing: usize) -> Result<Gap, AllocError>
    ensures { IfOk result (λ gap. gap_of gap ≡ gap_above text.now closing) }
{
    let line = blanks_start(text, closing);
    let mut before = String::from_str(alloc, blanks_before(text, closing))?;
    before.push_str(INDENT)?;
    Ok(Gap {
        start: line,
        end: line,
        before,
        after: line_break_before(text, line),
        comments: 0,
    })
}

// Returns the gap in place of the blanks before a closing bracket.
fn gap_before(alloc: Global, text: &str, closing: usize) -> Result<Gap, AllocError>
    ensures { IfOk result (λ gap. gap_of gap ≡ gap_before text.now closing) }
{
    Ok(Gap {
        start: blanks_start(text, closing),
        end: closing,
        before: String::from_str(alloc, " ")?,
        after: " ",
        comments: 0,
    })
}

// Returns the gap before a closing bracket, in a node that begins at `start`.
fn gap_at_closing(
    alloc: Global,
    text: &str,
    start: usize,
    closing: usize,
) -> Result<Gap, AllocError>
    ensures { IfOk result (λ gap. gap_of gap ≡ gap_at_closing text.now start closing) }
{
    let line = blanks_start(text, closing);
    if begins_line(text, line) && start < line {
        gap_above(alloc, text, closing)
    } else {
        gap_before(alloc, text, closing)
    }
}

/// Returns the gap before the closing bracket of a node: on a line of its own if the bracket has one, otherwise between spaces.
pub fn gap_inside(alloc: Global, text: &str, node: &SyntaxNode<'_>) -> Result<Gap, AllocError>
    ensures { IfOk result (λ gap. gap_of gap ≡ gap_inside text.now node.now) }
{
    let start = node.text_range().start();
    gap_at_closing(alloc, text, start, closing_start(node))
}
