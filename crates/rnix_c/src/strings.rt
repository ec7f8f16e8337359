//! The values of strings.

ghost use Rattle.std.specs.Prelude.{◌≡◌, IfSome, IfNone, IfOk, option_map, slice_get, string_bytes};
ghost use Rattle.std.specs.List.{flat_map};
ghost use Rattle.rnix_green.specs.Walk.{elements_of};
ghost use Rattle.rnix_tree.specs.Spots.{spot_of};
ghost use Rattle.rnix_base.specs.Normal.{owned, with_text};
ghost use Rattle.rnix.specs.StringParts.{normalized_parts};
ghost use Rattle.rnix_c.specs.Answers.{filled, IsWritten, Answers};
ghost use Rattle.rnix_c.specs.StringCalls.{located, IsString, literal_text, string_text, end_after, part_at, parts_from, parts_written, WritesString};

use crate::answers::{NO_MEMORY, NONE_SUCH, parsed, written};
use rnix::ast::{AstNode, InterpolPart, Str};
use rnix::{GreenNode, NodeOrToken, SyntaxElement, SyntaxNode};
use std::alloc::{AllocError, Global};

/// A part of a string: a range of its text, or that of an interpolation.
#[repr(C)]
#[derive(Clone, Copy)]
pub struct RnixPart {
    pub start: u64,
    pub end: u64,
    pub is_interpolation: u32,
}

// Returns the element with this number.
fn element_at<'t>(green: &'t GreenNode, number: usize) -> Option<SyntaxElement<'t>>
    ensures { option_map spot_of result ≡ slice_get (elements_of (located green.now 0)) number }
{
    let root = SyntaxNode::new_root(green);
    root.descendants_with_tokens().nth(number)
}

// Returns the string that is the element with this number.
fn string_at<'t>(green: &'t GreenNode, number: usize) -> Option<Str<'t>>
    ensures found { IfSome result (λ string. (string ≡ located green.now number) × IsString (located green.now number)) }
    ensures missing { IfNone result (¬ IsString (located green.now number)) }
{
    let NodeOrToken::Node(node) = element_at(green, number)? else {
        return None;
    };
    Str::cast(node)
}

// Returns the parts of the string that is the element with this number, if there is one.
fn parts_of<'t>(
    alloc: Global,
    green: &'t GreenNode,
    number: usize,
) -> Result<Option<Vec<InterpolPart<'t, String>>>, AllocError>
    ensures string { IfOk result (λ found. IfSome found (λ _. IsString (located green.now number))) }
    ensures parts { IfOk result (λ found. IfSome found (λ parts. owned parts.items ≡ normalized_parts (located green.now number))) }
    ensures missing { IfOk result (λ found. IfNone found (¬ IsString (located green.now number))) }
{
    let Some(string) = string_at(green, number) else {
        return Ok(None);
    };
    match string.normalized_parts(alloc) {
        Ok(parts) => Ok(Some(parts)),
        Err(error) => Err(error),
    }
}

// Returns the texts between the interpolations, concatenated.
fn text_of(alloc: Global, parts: &[InterpolPart<'_, String>]) -> Result<String, AllocError>
    ensures { IfOk result (λ text. string_bytes text ≡ flat_map literal_text (owned parts.now)) }
{
    let mut text = String::new(alloc);
    for part in parts {
        if let InterpolPart::Literal(literal) = part {
            text.push_str(literal.as_str())?;
        }
    }
    Ok(text)
}

// Returns the length of the string's text up to the end of a part, which `before` bytes precede.
fn end_after(part: &InterpolPart<'_, String>, before: usize) -> usize
    ensures { result ≡ end_after before (with_text string_bytes part.now) }
{
    match part {
        InterpolPart::Literal(literal) => before.saturating_add(literal.len()),
        InterpolPart::Interpolation(_) => before,
    }
}

// Returns a part that `before` bytes of the string's text precede.
fn part_at(part: &InterpolPart<'_, String>, before: usize) -> RnixPart
    ensures { result ≡ part_at before (with_text string_bytes part.now) }
{
    match part {
        InterpolPart::Literal(_) => RnixPart {
            start: before as u64,
            end: end_after(part, before) as u64,
            is_interpolation: 0,
        },
        InterpolPart::Interpolation(node) => {
            let range = node.syntax().text_range();
            RnixPart {
                start: range.start() as u64,
                end: range.end() as u64,
                is_interpolation: 1,
            }
        }
    }
}

// Writes the first parts, as many as fit into the array.
fn fill(parts: &[InterpolPart<'_, String>], room: &mut [RnixPart])
    ensures { room.new ≡ filled (parts_from 0 (owned parts.now)) room.old }
{
    let mut before: usize = 0;
    for number in 0..parts.len().min(room.len()) {
        let part = &parts[number];
        room[number] = part_at(part, before);
        before = end_after(part, before);
    }
}

// Writes the first parts, as many as fit into the array, and returns the number of all parts.
fn write_parts(parts: &[InterpolPart<'_, String>], room: &mut [RnixPart]) -> i64
    ensures { IsWritten (parts_from 0 (owned parts.now)) result room.old room.new }
{
    fill(parts, room);
    parts.len() as i64
}

/// Writes the concatenated texts of a string's normalized parts, and returns their length in bytes.
#[unsafe(no_mangle)]
pub extern "C" fn rnix_string_text(
    alloc: Global,
    text: &[u8],
    element: usize,
    room: &mut [u8],
) -> i64
    ensures { Answers text.now result (room.new ≡ room.old) (λ tree _. WritesString string_text tree element result room.old room.new) }
{
    let (green, _errors) = match parsed(alloc, text) {
        Ok(read) => read,
        Err(answer) => return answer,
    };
    match parts_of(alloc, &green, element) {
        Ok(Some(parts)) => match text_of(alloc, &parts) {
            Ok(joined) => written(&joined, room),
            Err(_) => NO_MEMORY,
        },
        Ok(None) => NONE_SUCH,
        Err(_) => NO_MEMORY,
    }
}

/// Writes the parts of a string, and returns their number.
#[unsafe(no_mangle)]
pub extern "C" fn rnix_string_parts(
    alloc: Global,
    text: &[u8],
    element: usize,
    room: &mut [RnixPart],
) -> i64
    ensures { Answers text.now result (room.new ≡ room.old) (λ tree _. WritesString parts_written tree element result room.old room.new) }
{
    let (green, _errors) = match parsed(alloc, text) {
        Ok(read) => read,
        Err(answer) => return answer,
    };
    match parts_of(alloc, &green, element) {
        Ok(Some(parts)) => write_parts(&parts, room),
        Ok(None) => NONE_SUCH,
        Err(_) => NO_MEMORY,
    }
}
