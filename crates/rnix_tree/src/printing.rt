//! Printing trees.

ghost use Rattle.std.specs.Prelude.{OnOk};
ghost use Rattle.std.specs.Io.KnownBytes.{Appends};
ghost use Rattle.rnix_tree.specs.Lines.{indent, range_end, line_end, element_line, lines_of};
ghost use Rattle.rnix_green.specs.Range.{bounds_of};
ghost use Rattle.rnix_tree.specs.Spots.{located_of};

use crate::digits::write_digits;
use crate::element::{SyntaxElement, WalkEvent};
use crate::node::SyntaxNode;
use rnix_green::TextRange;
use std::io;
use std::io::Write;

// The number of levels that one write indents.
const LEVELS: usize = 32;

// Two spaces for each of them.
static SPACES: [u8; 64] = [b' '; 64];

// The length of the longest printed range, with `@` before it and a line feed after it, in bytes.
const RANGE_LEN: usize = 44;

// Prints two spaces for each level.
fn write_indent<W: Write>(depth: usize, out: &mut W) -> io::Result<()>
    ensures { OnOk result (Appends (W.contents out.old) (W.contents out.new) (indent depth)) }
{
    let mut remaining = depth;
    while remaining > LEVELS {
        out.write_all(&SPACES)?;
        remaining -= LEVELS;
    }
    out.write_all(&SPACES[..2 * remaining])?;
    Ok(())
}

// Prints a range, and ends the line.
fn write_range<W: Write>(range: TextRange, out: &mut W) -> io::Result<()>
    ensures { OnOk result (Appends (W.contents out.old) (W.contents out.new) (range_end (bounds_of range))) }
{
    let mut bytes = [b'\n'; RANGE_LEN];
    let end = write_digits(range.end() as u64, &mut bytes, RANGE_LEN - 1);
    bytes[end - 1] = b'.';
    bytes[end - 2] = b'.';
    let start = write_digits(range.start() as u64, &mut bytes, end - 2);
    bytes[start - 1] = b'@';
    out.write_all(&bytes[start - 1..])?;
    Ok(())
}

/// Prints the kind and the range of an element, and ends the line.
#[doc(hidden)]
pub fn write_element<W: Write>(element: &SyntaxElement<'_>, out: &mut W) -> io::Result<()>
    ensures { OnOk result (Appends (W.contents out.old) (W.contents out.new) (line_end (located_of element.now))) }
{
    out.write_all(element.kind().name().as_bytes())?;
    write_range(element.text_range(), out)
}

// Prints the line of an element.
fn write_line<W: Write>(element: &SyntaxElement<'_>, depth: usize, out: &mut W) -> io::Result<()>
    ensures { OnOk result (Appends (W.contents out.old) (W.contents out.new) (element_line depth (located_of element.now))) }
{
    write_indent(depth, out)?;
    write_element(element, out)
}

/// Prints the node and everything inside it, in preorder, one line for each element: `NODE_LIST@4..9`, indented by two spaces for each level.
pub fn dump<W: Write>(node: &SyntaxNode<'_>, out: &mut W) -> io::Result<()>
    ensures { OnOk result (Appends (W.contents out.old) (W.contents out.new) (lines_of node.now)) }
{
    let mut depth: usize = 0;
    for event in node.preorder_with_tokens() {
        match event {
            WalkEvent::Enter(element) => {
                write_line(&element, depth, out)?;
                depth += 1;
            }
            WalkEvent::Leave(_) => depth -= 1,
        }
    }
    Ok(())
}
