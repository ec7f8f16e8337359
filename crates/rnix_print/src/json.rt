//! A text as a line of JSON: its errors, and the elements of its tree.

use nix_cli::write_json_string;
use rnix_grammar::ParseError;
use rnix_green::TextRange;
use rnix_kinds::tokenize;
use rnix_parser::parse;
use rnix_tree::{SyntaxElement, SyntaxNode, WalkEvent};
use std::alloc::Global;
use std::io::{self, Write};

// Writes the bounds of a range, which end an object.
fn write_range<W: Write>(range: TextRange, out: &mut W) -> io::Result<()> {
    let (start, end) = (range.start(), range.end());
    write!(out, ",\"start\":{start},\"end\":{end}}}")
}

// Returns the bytes that begin an object of a list, after `number` others.
fn opening(number: usize) -> &'static [u8] {
    if number > 0 { b",{" } else { b"{" }
}

// Writes an error: its message and, unless it is at the end of the text, its range.
fn write_error<W: Write>(alloc: Global, error: &ParseError, out: &mut W) -> io::Result<()> {
    out.write_all(b"\"message\":")?;
    let message = format!(in alloc; "{error}")?;
    write_json_string(message.as_str(), out)?;
    match error.range() {
        Some(range) => write_range(range, out),
        None => out.write_all(b",\"start\":null,\"end\":null}"),
    }
}

// Writes the errors.
fn write_errors<W: Write>(alloc: Global, errors: &[ParseError], out: &mut W) -> io::Result<()> {
    for (number, error) in errors.iter().enumerate() {
        out.write_all(opening(number))?;
        write_error(alloc, error, out)?;
    }
    Ok(())
}

// Writes an element: its depth, its kind and its range.
fn write_element<W: Write>(
    element: &SyntaxElement<'_>,
    depth: usize,
    out: &mut W,
) -> io::Result<()> {
    out.write_all(opening(depth))?;
    let kind = element.kind().name();
    write!(out, "\"depth\":{depth},\"kind\":\"{kind}\"")?;
    write_range(element.text_range(), out)
}

// Writes the elements of a tree in preorder.
fn write_elements<W: Write>(root: &SyntaxNode<'_>, out: &mut W) -> io::Result<()> {
    let mut depth: usize = 0;
    for event in root.preorder_with_tokens() {
        match event {
            WalkEvent::Enter(element) => {
                write_element(&element, depth, out)?;
                depth = depth.saturating_add(1);
            }
            WalkEvent::Leave(_) => depth = depth.saturating_sub(1),
        }
    }
    Ok(())
}

/// Writes a text as a line of JSON, and returns whether it has no errors.
pub fn write_json<W: Write>(
    alloc: Global,
    file: &str,
    text: &str,
    out: &mut W,
) -> io::Result<bool> {
    let (tree, errors) = parse(alloc, tokenize(alloc, text))?;
    out.write_all(b"{\"file\":")?;
    write_json_string(file, out)?;
    out.write_all(b",\"errors\":[")?;
    write_errors(alloc, &errors, out)?;
    out.write_all(b"],\"elements\":[")?;
    write_elements(&SyntaxNode::new_root(&tree), out)?;
    out.write_all(b"]}\n")?;
    Ok(errors.is_empty())
}
