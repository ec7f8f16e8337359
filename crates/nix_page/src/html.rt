//! Texts and ranges inside HTML.

use rnix::TextRange;
use std::io::{self, Write};

// Begins a line of the source: the style numbers these elements.
const LINE: &[u8] = b"<b></b>";

// Writes a byte so that a browser shows it. A carriage return would be read as a line feed.
fn write_byte<W: Write>(byte: u8, out: &mut W) -> io::Result<()> {
    match byte {
        b'&' => out.write_all(b"&amp;"),
        b'<' => out.write_all(b"&lt;"),
        b'>' => out.write_all(b"&gt;"),
        b'"' => out.write_all(b"&quot;"),
        b'\r' => out.write_all(b"&#13;"),
        other => out.write_all(&[other]),
    }
}

/// Writes a text so that a browser shows each of its characters, in an element or between quotes.
pub fn write_text<W: Write>(text: &str, out: &mut W) -> io::Result<()> {
    for byte in text.as_bytes() {
        write_byte(*byte, out)?;
    }
    Ok(())
}

/// Writes what begins a line of the source.
pub fn write_line_start<W: Write>(out: &mut W) -> io::Result<()> {
    out.write_all(LINE)
}

/// Writes a text of the source, in which each line feed begins a line.
pub fn write_lines<W: Write>(text: &str, out: &mut W) -> io::Result<()> {
    for byte in text.as_bytes() {
        write_byte(*byte, out)?;
        if *byte == b'\n' {
            write_line_start(out)?;
        }
    }
    Ok(())
}

/// Writes the range of an element as attributes, for the script, and closes its tag.
pub fn write_range<W: Write>(range: TextRange, out: &mut W) -> io::Result<()> {
    let (start, end) = (range.start(), range.end());
    write!(out, " data-start=\"{start}\" data-end=\"{end}\">")
}
