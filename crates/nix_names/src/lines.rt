//! The lines of bindings and references, as text or JSON.

use nix_cli::{write_json_string, write_shown};
use nix_scopes::{Binding, Reference, Resolution};
use rnix::{SyntaxNode, TextRange};
use rnix_text::LineIndex;
use std::io::{self, Write};

// Returns the line and the column of an offset, both from 1.
fn position(index: &LineIndex<'_>, offset: usize) -> (usize, usize) {
    let location = index.position(offset).unwrap_or_default();
    (
        location.line.saturating_add(1),
        location.column.saturating_add(1),
    )
}

// Writes the location and the bounds of a range as members of an object.
fn write_range<W: Write>(index: &LineIndex<'_>, range: TextRange, out: &mut W) -> io::Result<()> {
    let (line, column) = position(index, range.start());
    let (start, end) = (range.start(), range.end());
    write!(
        out,
        "\"line\":{line},\"column\":{column},\"start\":{start},\"end\":{end}"
    )
}

// Writes the first members of the object of a name.
fn write_head<W: Write>(
    file: &str,
    index: &LineIndex<'_>,
    node: &SyntaxNode<'_>,
    name: &str,
    out: &mut W,
) -> io::Result<()> {
    out.write_all(b"{\"file\":")?;
    write_json_string(file, out)?;
    out.write_all(b",")?;
    write_range(index, node.text_range(), out)?;
    out.write_all(b",\"name\":")?;
    write_json_string(name, out)
}

// Writes the line of a binding.
fn write_binding<W: Write>(
    file: &str,
    index: &LineIndex<'_>,
    binding: &Binding<'_>,
    is_json: bool,
    out: &mut W,
) -> io::Result<()> {
    let name = binding.text.as_str();
    if is_json {
        write_head(file, index, &binding.node, name, out)?;
        out.write_all(b",\"scope\":{")?;
        write_range(index, binding.scope.text_range(), out)?;
        return out.write_all(b"}}\n");
    }
    let (line, column) = position(index, binding.node.text_range().start());
    write!(out, "{file}:{line}:{column}: ")?;
    write_shown(name, out)?;
    out.write_all(b" is bound\n")
}

// Writes the object of a reference.
fn write_object<W: Write>(
    file: &str,
    index: &LineIndex<'_>,
    reference: &Reference<'_>,
    binding: Option<&Binding<'_>>,
    out: &mut W,
) -> io::Result<()> {
    let name = reference.text.as_str();
    write_head(file, index, &reference.node, name, out)?;
    match binding {
        Some(binding) => {
            out.write_all(b",\"binding\":{")?;
            write_range(index, binding.node.text_range(), out)?;
            out.write_all(b"}")?;
        }
        None => out.write_all(b",\"binding\":null")?,
    }
    let (is_open, is_inherited) = (reference.is_open, reference.is_inherited);
    writeln!(out, ",\"with\":{is_open},\"inherited\":{is_inherited}}}")
}

// Writes the line of a reference.
fn write_reference<W: Write>(
    file: &str,
    index: &LineIndex<'_>,
    reference: &Reference<'_>,
    binding: Option<&Binding<'_>>,
    out: &mut W,
) -> io::Result<()> {
    let (line, column) = position(index, reference.node.text_range().start());
    write!(out, "{file}:{line}:{column}: ")?;
    write_shown(reference.text.as_str(), out)?;
    match binding {
        Some(binding) => {
            let (line, column) = position(index, binding.node.text_range().start());
            writeln!(out, " refers to {line}:{column}")
        }
        None if reference.is_open => writeln!(out, " is not bound, or comes from a with"),
        None => writeln!(out, " is not bound"),
    }
}

/// Writes a line for each binding of a text, in the order of their scopes, and then for each reference, in the order of the text. Columns count
/// characters, from 1.
pub fn write_names<W: Write>(
    file: &str,
    names: &Resolution<'_>,
    index: &LineIndex<'_>,
    is_json: bool,
    out: &mut W,
) -> io::Result<()> {
    for binding in names.bindings() {
        write_binding(file, index, binding, is_json, out)?;
    }
    for reference in names.references() {
        let binding = match reference.binding {
            Some(number) => names.bindings().get(number),
            None => None,
        };
        if is_json {
            write_object(file, index, reference, binding, out)?;
        } else {
            write_reference(file, index, reference, binding, out)?;
        }
    }
    Ok(())
}
