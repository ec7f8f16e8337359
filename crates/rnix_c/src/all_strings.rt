//! The values of all strings of a text.

ghost use Rattle.std.specs.Prelude.{◌≡◌, length, fold, IfOk, OnOk, string_bytes};
ghost use Rattle.rnix_base.specs.Normal.{owned, with_text};
ghost use Rattle.rnix_c.specs.Answers.{filled, IsWritten, Answers};
ghost use Rattle.rnix_c.specs.AllStrings.{found, with_part, with_node, strings_in};

use crate::answers::{NO_MEMORY, fill, parsed};
use rnix::ast::{AstNode, InterpolPart, Str};
use rnix::{GreenNode, NodeOrToken, SyntaxNode};
use std::alloc::{AllocError, Global};

/// A part of a string: the string's number among the elements, and a range of the concatenated text, or that of an interpolation.
#[repr(C)]
#[derive(Clone, Copy)]
pub struct RnixStringPart {
    pub string: u64,
    pub start: u64,
    pub end: u64,
    pub is_interpolation: u32,
}

// Adds a part of the string with this number, and its text.
fn add_part(
    string: usize,
    part: &InterpolPart<'_, String>,
    parts: &mut Vec<RnixStringPart>,
    text: &mut String,
) -> Result<(), AllocError>
    ensures { OnOk result (found parts.new.items (string_bytes text.new)
        ≡ with_part string (found parts.old.items (string_bytes text.old)) (with_text string_bytes part.now)) }
{
    match part {
        InterpolPart::Literal(literal) => {
            let start = text.len();
            text.push_str(literal.as_str())?;
            parts.push(RnixStringPart {
                string: string as u64,
                start: start as u64,
                end: text.len() as u64,
                is_interpolation: 0,
            })?;
        }
        InterpolPart::Interpolation(node) => {
            let range = node.syntax().text_range();
            parts.push(RnixStringPart {
                string: string as u64,
                start: range.start() as u64,
                end: range.end() as u64,
                is_interpolation: 1,
            })?;
        }
    }
    Ok(())
}

// Adds the parts of the string with this number.
fn add_parts(
    string: usize,
    added: &[InterpolPart<'_, String>],
    parts: &mut Vec<RnixStringPart>,
    text: &mut String,
) -> Result<(), AllocError>
    ensures { OnOk result (found parts.new.items (string_bytes text.new)
        ≡ fold (with_part string) (found parts.old.items (string_bytes text.old)) (owned added.now)) }
{
    for part in added {
        add_part(string, part, parts, text)?;
    }
    Ok(())
}

// Adds the parts of the node with this number, if it is a string.
fn add_string<'t>(
    alloc: Global,
    number: usize,
    node: &SyntaxNode<'t>,
    parts: &mut Vec<RnixStringPart>,
    text: &mut String,
) -> Result<(), AllocError>
    requires { node.now.number ≡ number }
    ensures { OnOk result (found parts.new.items (string_bytes text.new)
        ≡ with_node (found parts.old.items (string_bytes text.old)) node.now) }
{
    let Some(string) = Str::cast(node.clone()) else {
        return Ok(());
    };
    let added = string.normalized_parts(alloc)?;
    add_parts(number, &added, parts, text)
}

// Returns the parts of all strings of a tree, and their concatenated text.
fn strings_of(alloc: Global, green: &GreenNode) -> Result<(Vec<RnixStringPart>, String), AllocError>
    ensures { IfOk result (λ all. found all.0.items (string_bytes all.1) ≡ strings_in green.now) }
{
    let mut parts = Vec::new(alloc);
    let mut text = String::new(alloc);
    let mut number: usize = 0;
    for element in SyntaxNode::new_root(green).descendants_with_tokens() {
        if let NodeOrToken::Node(node) = element {
            add_string(alloc, number, &node, &mut parts, &mut text)?;
        }
        number += 1;
    }
    Ok((parts, text))
}

/// Writes the parts of all strings of a text, their text, and the length of that in bytes. Returns the number of parts.
#[unsafe(no_mangle)]
pub extern "C" fn rnix_strings(
    alloc: Global,
    text: &[u8],
    parts: &mut [RnixStringPart],
    buffer: &mut [u8],
    buffer_len: &mut u64,
) -> i64
    ensures { Answers text.now result ((parts.new ≡ parts.old) × (buffer.new ≡ buffer.old) × (buffer_len.new ≡ buffer_len.old))
        (λ tree _. IsWritten (strings_in tree).parts result parts.old parts.new
        × (buffer.new ≡ filled (strings_in tree).text buffer.old) × (buffer_len.new ≡ length (strings_in tree).text)) }
{
    let (green, _errors) = match parsed(alloc, text) {
        Ok(read) => read,
        Err(answer) => return answer,
    };
    match strings_of(alloc, &green) {
        Ok((found, joined)) => {
            fill(&found, parts);
            fill(joined.as_bytes(), buffer);
            *buffer_len = joined.len() as u64;
            found.len() as i64
        }
        Err(_) => NO_MEMORY,
    }
}
