//! The lines of a tree.

ghost use Rattle.std.specs.Prelude.{OnOk};
ghost use Rattle.std.specs.Io.KnownBytes.{Appends};
ghost use Rattle.rnix_tree.specs.Spots.{located_of};
ghost use Rattle.rnix_print.specs.OutputLines.{margin, element_line, tree_lines};

use rnix_tree::{SyntaxElement, SyntaxNode, WalkEvent, write_element};
use std::io;
use std::io::Write;

// The deepest level that is indented.
const INDENTED: usize = 100;

// Two spaces for each of these levels.
static SPACES: [u8; 200] = [b' '; 200];

// Prints the start of a line.
fn write_margin<W: Write>(depth: usize, out: &mut W) -> io::Result<()>
    ensures { OnOk result (Appends (W.contents out.old) (W.contents out.new) (margin depth)) }
{
    if depth <= INDENTED {
        out.write_all(&SPACES[..2 * depth])?;
    } else {
        write!(out, "{depth} ")?;
    }
    Ok(())
}

// Prints the line of an element.
fn write_line<W: Write>(element: &SyntaxElement<'_>, depth: usize, out: &mut W) -> io::Result<()>
    ensures { OnOk result (Appends (W.contents out.old) (W.contents out.new) (element_line depth (located_of element.now))) }
{
    write_margin(depth, out)?;
    write_element(element, out)
}

/// Prints the node and everything inside it, in preorder, one line for each element, as `dump` does. Lines deeper than 100 levels begin with the number of the
/// level instead of spaces.
pub(crate) fn write_tree<W: Write>(node: &SyntaxNode<'_>, out: &mut W) -> io::Result<()>
    ensures { OnOk result (Appends (W.contents out.old) (W.contents out.new) (tree_lines node.now)) }
{
    let mut depth: usize = 0;
    for event in node.preorder_with_tokens() {
        match event {
            WalkEvent::Enter(element) => {
                write_line(&element, depth, out)?;
                depth += 1;
            }
            WalkEvent::Leave(_) => depth -= 1,
        }
    }
    Ok(())
}
