//! What `{:?}` and `{:#?}` print of nodes and tokens.

ghost use Rattle.std.specs.Prelude.{◌≡◌, ◌≤◌, length, Some, IfSome, IfOk};
ghost use Rattle.std.specs.Fmt.{DisplaysOnOk, DisplaysStyledOnOk, debug_str};
ghost use Rattle.std.specs.Fmt.InlineText.{inline_text};
ghost use Rattle.rnix_tree.specs.Lines.{element_text, shown, token_text, spot_text, text_line, text_lines_of};
ghost use Rattle.rnix_tree.specs.Spots.{spot_of};
ghost use Rattle.rnix_green.specs.Range.{bounds_of};

use crate::element::{NodeOrToken, SyntaxElement, WalkEvent};
use crate::node::SyntaxNode;
use crate::token::SyntaxToken;
use rnix_green::TextRange;
use rnix_kinds::SyntaxKind;
use std::fmt;
use std::fmt::{InlineText, Write};

// A token's text shorter than this is printed whole, in bytes.
const LONG: usize = 25;

// A longer text is cut at this byte, or at the next character boundary.
const CUT: usize = 21;

// Printed after a text that was cut.
const MORE: &str = " ...";

// The longest text that was cut, with what is printed after it, in bytes.
const START_LEN: usize = 28;

// Capacity for one printed element, in bytes. Each byte of a text is escaped to at most six.
const TEXT_LEN: usize = 256;

// Prints a kind with its range.
fn write_kind_range<W: fmt::Write>(
    kind: SyntaxKind,
    range: TextRange,
    f: &mut fmt::Formatter<W>,
) -> fmt::Result
    ensures { DisplaysOnOk W.write_str_gives f.old result (Some (element_text kind (bounds_of range))) f.new }
{
    let (name, start, end) = (kind.name(), range.start(), range.end());
    write!(f, "{name}@{start}..{end}")
}

// Prints the start of a long text, in quotes.
fn write_start<W: fmt::Write>(text: &str, f: &mut fmt::Formatter<W>) -> fmt::Result
    requires { 25 ≤ length text.now }
    ensures { DisplaysOnOk W.write_str_gives f.old result (debug_str (shown text.now)) f.new }
{
    let cut = text.ceil_char_boundary(CUT);
    let mut start = InlineText::<START_LEN>::new();
    start.write_str(&text[..cut])?;
    start.write_str(MORE)?;
    let start = start.as_str();
    write!(f, "{start:?}")
}

// Prints a token's text in quotes.
fn write_text<W: fmt::Write>(text: &str, f: &mut fmt::Formatter<W>) -> fmt::Result
    ensures { DisplaysOnOk W.write_str_gives f.old result (debug_str (shown text.now)) f.new }
{
    if text.len() < LONG {
        write!(f, "{text:?}")
    } else {
        write_start(text, f)
    }
}

// Prints a token: its kind, its range, and its text in quotes.
fn write_token<W: fmt::Write>(token: &SyntaxToken<'_>, f: &mut fmt::Formatter<W>) -> fmt::Result
    ensures { DisplaysOnOk W.write_str_gives f.old result (token_text token.now) f.new }
{
    write_kind_range(token.kind(), token.text_range(), f)?;
    f.write_str(" ")?;
    write_text(token.text(), f)
}

// Prints what `{:?}` shows of an element.
fn text_of(element: &SyntaxElement<'_>) -> Result<InlineText<TEXT_LEN>, fmt::Error>
    ensures { IfOk result (λ text. IfSome (spot_text (spot_of element.now)) (λ bs. inline_text text ≡ bs)) }
{
    let mut f = fmt::Formatter::new(InlineText::<TEXT_LEN>::new());
    match element {
        NodeOrToken::Node(node) => write_kind_range(node.kind(), node.text_range(), &mut f)?,
        NodeOrToken::Token(token) => write_token(token, &mut f)?,
    }
    Ok(f.into_inner())
}

// Prints an element on a line of its own, indented by two spaces for each level.
fn write_line<W: fmt::Write>(
    element: &SyntaxElement<'_>,
    depth: usize,
    f: &mut fmt::Formatter<W>,
) -> fmt::Result
    ensures { DisplaysStyledOnOk W.write_str_gives f.old result (text_line depth (spot_of element.now)) f.new }
{
    let text = text_of(element)?;
    f.write_repeated("  ", depth)?;
    f.write_str(text.as_str())?;
    f.write_str("\n")
}

// Prints the node and everything inside it, in preorder, one line for each element.
fn write_tree<W: fmt::Write>(node: &SyntaxNode<'_>, f: &mut fmt::Formatter<W>) -> fmt::Result
    ensures { DisplaysStyledOnOk W.write_str_gives f.old result (text_lines_of node.now) f.new }
{
    let mut depth: usize = 0;
    for event in node.preorder_with_tokens() {
        match event {
            WalkEvent::Enter(element) => {
                write_line(&element, depth, f)?;
                depth += 1;
            }
            WalkEvent::Leave(_) => depth -= 1,
        }
    }
    Ok(())
}

impl<'t> fmt::Debug for SyntaxNode<'t> {
    ghost use Rattle.std.specs.Prelude.{◌≡◌, true, Some};
    ghost use Rattle.std.specs.Fmt.{DisplaysOnOk, DisplaysStyledOnOk, spec_alternate, formatter_spec};
    ghost use Rattle.rnix_tree.specs.Lines.{element_text, text_lines_of};
    ghost use Rattle.rnix_green.specs.Tree.{item_of, extent_of};

    ghost debug_output = { λ node. Some (element_text (item_of node).kind (extent_of node)) };

    fn fmt<W: fmt::Write>(&self, f: &mut fmt::Formatter<W>) -> fmt::Result
        ensures writes { DisplaysOnOk W.write_str_gives f.old result
            (Some (element_text (item_of self.now).kind (extent_of self.now))) f.new }
        ensures tree { spec_alternate (formatter_spec f.old) ≡ true
            → DisplaysStyledOnOk W.write_str_gives f.old result (text_lines_of self.now) f.new }
    {
        if f.alternate() {
            write_tree(self, f)
        } else {
            write_kind_range(self.kind(), self.text_range(), f)
        }
    }
}

impl<'t> fmt::Debug for SyntaxToken<'t> {
    ghost use Rattle.rnix_tree.specs.Lines.{token_text};

    ghost debug_output = { token_text };

    fn fmt<W: fmt::Write>(&self, f: &mut fmt::Formatter<W>) -> fmt::Result {
        write_token(self, f)
    }
}
