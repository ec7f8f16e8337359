//! An index of sources: their names as JSON, what typed nodes say, and the printed trees.

use crate::digest::Digest;
use crate::numbers::mixed;
use crate::packages::generated;
use crate::results::{add_kind, add_node, add_parse, add_range};
use crate::source::{lets, module};
use crate::words::Words;
use nix_cli::write_json_string;
use nix_scopes::{Binding, Reference, resolve};
use rnix::ast::{AstNode, AttrpathValue, InterpolPart, Select, Str};
use rnix::{Root, SyntaxNode};
use rnix_print::print_text;
use rnix_text::{ColumnUnit, LineIndex};
use std::alloc::{AllocError, Global};
use std::collections::HashMap;
use std::io::{self, Write};

// Writes a name, or its number if an earlier line has the same name.
fn write_name<'t, W: Write>(
    numbers: &mut HashMap<&'t str, usize>,
    name: &'t str,
    out: &mut W,
) -> io::Result<()> {
    if let Some(number) = numbers.get(&name) {
        return write!(out, "{{\"same\":{number}");
    }
    let number = numbers.len();
    numbers.insert(name, number)?;
    out.write_all(b"{\"name\":")?;
    write_json_string(name, out)
}

// Writes where the node of a name begins, and ends the line.
fn write_place<W: Write>(
    index: &LineIndex<'_>,
    node: &SyntaxNode<'_>,
    out: &mut W,
) -> io::Result<()> {
    let start = node.text_range().start();
    let place = index.position(start).unwrap_or_default();
    let (line, column) = (place.line, place.column);
    writeln!(out, ",\"line\":{line},\"column\":{column}}}")
}

// Writes a line for each name that a text binds, with its place. Adds their scopes.
fn write_bindings<'n, W: Write>(
    index: &LineIndex<'_>,
    bindings: &'n [Binding<'_>],
    numbers: &mut HashMap<&'n str, usize>,
    out: &mut W,
    digest: &mut Digest,
) -> io::Result<()> {
    for binding in bindings {
        write_name(numbers, binding.text.as_str(), out)?;
        write_place(index, &binding.node, out)?;
        add_node(&binding.scope, digest);
        digest.add_number(binding.first);
    }
    Ok(())
}

// Writes a line for each name that a text uses: the number of its binding, or else the name, and its place. Adds how the name refers to the binding.
fn write_references<'n, W: Write>(
    index: &LineIndex<'_>,
    references: &'n [Reference<'_>],
    numbers: &mut HashMap<&'n str, usize>,
    out: &mut W,
    digest: &mut Digest,
) -> io::Result<()> {
    for reference in references {
        match reference.binding {
            Some(number) => write!(out, "{{\"binding\":{number}")?,
            None => write_name(numbers, reference.text.as_str(), out)?,
        }
        write_place(index, &reference.node, out)?;
        digest.add_number(usize::from(reference.is_inherited));
        digest.add_number(usize::from(reference.is_open));
    }
    Ok(())
}

// Adds the value of a string.
fn add_string(alloc: Global, string: &Str<'_>, digest: &mut Digest) -> Result<(), AllocError> {
    let parts = string.normalized_parts(alloc)?;
    for part in &parts {
        match part {
            InterpolPart::Literal(text) => digest.add_text(text.as_str()),
            InterpolPart::Interpolation(inner) => add_node(inner.syntax(), digest),
        }
    }
    Ok(())
}

// Adds the names of an attribute's path, and its value.
fn add_entry(entry: &AttrpathValue<'_>, digest: &mut Digest) {
    if let Some(value) = entry.value() {
        add_node(value.syntax(), digest);
    }
    if let Some(path) = entry.attrpath() {
        for name in path.attrs() {
            add_node(name.syntax(), digest);
        }
    }
}

// Adds the line and the column of an offset.
fn add_position(index: &LineIndex<'_>, offset: usize, digest: &mut Digest) {
    let place = index.position(offset).unwrap_or_default();
    digest.add_number(place.line);
    digest.add_number(place.column);
}

// Adds the nodes of a tree, and what strings, entries and selections contain. No offset is looked up twice: no two strings begin, and no two entries or
// selections end, at the same offset, and no name begins there.
fn add_nodes(
    alloc: Global,
    root: &SyntaxNode<'_>,
    index: &LineIndex<'_>,
    digest: &mut Digest,
) -> Result<(), AllocError> {
    for node in root.descendants() {
        let range = node.text_range();
        add_kind(node.kind(), digest);
        add_range(range, digest);
        if let Some(string) = Str::cast(node.clone()) {
            add_position(index, range.start(), digest);
            add_string(alloc, &string, digest)?;
        } else if let Some(entry) = AttrpathValue::cast(node.clone()) {
            add_position(index, range.end(), digest);
            add_entry(&entry, digest);
        } else if let Some(select) = Select::cast(node) {
            add_position(index, range.end(), digest);
            if let Some(default) = select.default_expr() {
                add_node(default.syntax(), digest);
            }
        }
    }
    Ok(())
}

// Indexes a text.
fn index_text(alloc: Global, text: &str, digest: &mut Digest) -> io::Result<()> {
    let read = Root::parse(alloc, text)?;
    add_parse(&read, digest);
    let root = read.syntax();
    let index = LineIndex::new(alloc, text, ColumnUnit::Chars)?;
    let names = resolve(alloc, &root)?;
    let mut out: Vec<u8> = Vec::new(alloc);
    let mut numbers = HashMap::new(alloc);
    write_bindings(&index, names.bindings(), &mut numbers, &mut out, digest)?;
    write_references(&index, names.references(), &mut numbers, &mut out, digest)?;
    digest.add_bytes(&out);
    add_nodes(alloc, &root, &index, digest)?;
    Ok(())
}

// Prints the tree of a text.
fn print(alloc: Global, text: &str, digest: &mut Digest) -> io::Result<()> {
    let mut out: Vec<u8> = Vec::new(alloc);
    let is_good = print_text(alloc, text, &mut out)?;
    digest.add_number(usize::from(is_good));
    digest.add_bytes(&out);
    Ok(())
}

/// Indexes sources with about `size` entries together, and prints the trees of some.
pub fn index(
    alloc: Global,
    words: &Words,
    seed: u64,
    size: usize,
    digest: &mut Digest,
) -> io::Result<()> {
    let seed = mixed(seed);
    let mut left = size;
    for number in 0..size {
        if left == 0 {
            return Ok(());
        }
        let options = (20 + (number % 7) * 25).min(left);
        left = left.saturating_sub(options);
        let own = mixed(seed.wrapping_add(number as u64));
        let options_text = module(alloc, words, own, options)?;
        index_text(alloc, options_text.as_str(), digest)?;
        let nested = lets(alloc, words, own, options / 10)?;
        index_text(alloc, nested.as_str(), digest)?;
        let made = generated(alloc, words, own, options)?;
        print(alloc, made.as_str(), digest)?;
    }
    Ok(())
}
