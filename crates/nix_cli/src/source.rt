//! A text, for messages about locations in it.

ghost use Rattle.std.specs.Prelude.{◌≡◌, OnOk};
ghost use Rattle.std.specs.Io.KnownBytes.{Appends};
ghost use Rattle.nix_cli.specs.MessageLocations.{line_and_column, location_text, IsIndexed};

use rnix_text::LineIndex;
use std::io::{self, Write};

/// A text, its name in messages, and its lines.
#[derive(Clone, Copy)]
pub struct Source<'a> {
    /// The name of the text.
    pub name: &'a str,
    /// The text.
    pub text: &'a str,
    /// The lines of the text, with columns that count characters.
    pub index: &'a LineIndex<'a>,
}

impl<'a> Source<'a> {
    /// Returns the line and the column of a byte offset, both from 1. For an offset inside a character or beyond the text, these are those of the start.
    pub fn position(&self, offset: usize) -> (usize, usize)
        requires { IsIndexed self.now }
        ensures { result ≡ line_and_column self.now.text.now offset }
    {
        match self.index.position(offset) {
            Some(location) => (location.line + 1, location.column + 1),
            None => (1, 1),
        }
    }
}

/// Writes the beginning of a message about a byte offset: the name of the text, the line and the column, as in `a.nix:1:1: `.
pub fn write_source_location<W: Write>(
    source: &Source<'_>,
    offset: usize,
    out: &mut W,
) -> io::Result<()>
    requires { IsIndexed source.now }
    ensures { OnOk result (Appends (W.contents out.old) (W.contents out.new) (location_text source.now.name.now source.now.text.now offset)) }
{
    let (line, column) = source.position(offset);
    write!(out, "{}:{line}:{column}: ", source.name)
}
