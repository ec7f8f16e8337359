//! The tree, whose nodes can be folded.

use crate::html::{write_range, write_text};
use rnix::{NodeOrToken, SyntaxNode, SyntaxToken, WalkEvent};
use std::io::{self, Write};

// The most bytes of a token's text that are shown.
const SHOWN: usize = 40;

// Opens a node: its line, and the element that folds its children.
fn open_node<W: Write>(node: &SyntaxNode<'_>, out: &mut W) -> io::Result<()> {
    out.write_all(b"<details open><summary")?;
    write_range(node.text_range(), out)?;
    writeln!(out, "{}</summary>", node.kind().name())
}

// Writes the line of a token, with the beginning of its text.
fn write_token<W: Write>(token: &SyntaxToken<'_>, out: &mut W) -> io::Result<()> {
    let (kind, text) = (token.kind(), token.text());
    let class = if kind.is_trivia() { "trivia" } else { "token" };
    let (shown, rest) = text.split_at(text.floor_char_boundary(SHOWN));
    let more = if rest.is_empty() { "" } else { "…" };
    write!(out, "<div class=\"{class}\"")?;
    write_range(token.text_range(), out)?;
    write!(out, "{} <code>", kind.name())?;
    write_text(shown, out)?;
    writeln!(out, "{more}</code></div>")
}

/// Writes a node and its descendants.
pub fn write_tree<W: Write>(root: &SyntaxNode<'_>, out: &mut W) -> io::Result<()> {
    out.write_all(b"<nav>\n")?;
    for event in root.preorder_with_tokens() {
        match event {
            WalkEvent::Enter(NodeOrToken::Node(node)) => open_node(&node, out)?,
            WalkEvent::Enter(NodeOrToken::Token(token)) => write_token(&token, out)?,
            WalkEvent::Leave(NodeOrToken::Node(_)) => out.write_all(b"</details>\n")?,
            WalkEvent::Leave(NodeOrToken::Token(_)) => {}
        }
    }
    out.write_all(b"</nav>\n")
}
