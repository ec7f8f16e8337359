//! The source: each token in the color of its kind, and the errors below it.

use crate::html::{write_line_start, write_lines, write_range, write_text};
use nix_diagnostics::{Diagnostic, diagnostics};
use rnix::{NodeOrToken, Parse, TextRange};
use std::alloc::Global;
use std::io::{self, Write};

// Opens a span with the message of an error, without closing its start tag.
fn open_span<W: Write>(class: &str, error: &Diagnostic, out: &mut W) -> io::Result<()> {
    write!(out, "<span class=\"{class}\" title=\"")?;
    write_text(error.message.as_str(), out)?;
    out.write_all(b"\"")
}

// The errors of a text, in the order of their ranges, while its tokens are written.
#[derive(Drop)]
struct Errors<'a> {
    // Those that start at the next token or later.
    ahead: &'a [Diagnostic],
    // The ends of those whose spans are open, the innermost last.
    open: Vec<usize>,
}

impl<'a> Errors<'a> {
    // Closes the spans of the errors that end at an offset or before it.
    fn close<W: Write>(&mut self, offset: usize, out: &mut W) -> io::Result<()> {
        let ends = self.open.iter().rev();
        let closed = ends.take_while(|end| **end <= offset).count();
        for _span in 0..closed {
            out.write_all(b"</span>")?;
        }
        self.open.truncate(self.open.len().saturating_sub(closed));
        Ok(())
    }

    // Opens the spans of the errors that start at an offset. Of the errors with an empty range there, the first is shown.
    fn open<W: Write>(&mut self, offset: usize, out: &mut W) -> io::Result<()> {
        let begun = self
            .ahead
            .iter()
            .take_while(|error| error.range.start() <= offset)
            .count();
        let (here, ahead) = self.ahead.split_at(begun);
        self.ahead = ahead;
        if let Some(missing) = here.iter().find(|error| error.range.is_empty()) {
            open_span("missing error", missing, out)?;
            write_range(missing.range, out)?;
            out.write_all(b"</span>")?;
        }
        for error in here.iter().filter(|error| !error.range.is_empty()) {
            open_span("error", error, out)?;
            out.write_all(b">")?;
            self.open.push(error.range.end())?;
        }
        Ok(())
    }
}

// Writes the tokens, with a span around the tokens of each error.
fn write_tokens<W: Write>(read: &Parse, errors: &mut Errors<'_>, out: &mut W) -> io::Result<()> {
    let root = read.syntax();
    for element in root.descendants_with_tokens() {
        if let NodeOrToken::Token(token) = element {
            let range = token.text_range();
            errors.close(range.start(), out)?;
            errors.open(range.start(), out)?;
            let class = token.kind().name();
            write!(out, "<span class=\"{class}\"")?;
            write_range(range, out)?;
            write_lines(token.text(), out)?;
            out.write_all(b"</span>")?;
        }
    }
    errors.close(root.text_range().end(), out)?;
    errors.open(root.text_range().end(), out)
}

/// Writes the tokens of a text, and then its errors in the order of their ranges. Each message is written at most twice, whatever the number of tokens
/// in the range.
pub fn write_source<W: Write>(alloc: Global, read: &Parse, out: &mut W) -> io::Result<()> {
    let mut found = diagnostics(alloc, read)?;
    // Of two that start at the same offset, the longer one contains the other.
    found.sort_by_key(|error| (
        error.range.start(),
        usize::MAX.saturating_sub(error.range.end()),
    ))?;
    out.write_all(b"<main>\n<pre id=\"source\">")?;
    write_line_start(out)?;
    let mut errors = Errors {
        ahead: &found,
        open: Vec::new(alloc),
    };
    write_tokens(read, &mut errors, out)?;
    out.write_all(b"</pre>\n<ul id=\"errors\">\n")?;
    for Diagnostic { range, message, .. } in &found {
        out.write_all(b"<li")?;
        write_range(*range, out)?;
        write_text(message.as_str(), out)?;
        out.write_all(b"</li>\n")?;
    }
    out.write_all(b"</ul>\n</main>\n")
}
