//! The elements of a tree in 20 bytes each: their ranges and their links.

ghost use Rattle.std.specs.Prelude.{◌≡◌, ◌<◌, ◌^◌, length, map, set, IfSome};
ghost use Rattle.rnix_green.specs.Forest.{text_of};
ghost use Rattle.rnix_green.specs.Tree.{items_of, forest_of};
ghost use Rattle.rnix_green.specs.Kept.{item_from};
ghost use Rattle.rnix_grammar.specs.Fault.{fault_of};
ghost use Rattle.rnix_c.specs.Answers.{filled, IsWritten, Answers};
ghost use Rattle.rnix_c.specs.Elements.{AreFew};
ghost use Rattle.rnix_c.specs.CompactElements.{parent_or_none, range_of, link_of, ranges_of, links_of, HaveShortNumbers};
ghost use Rattle.rnix_c.specs.Errors.{errors_of};

use crate::answers::parsed;
use crate::errors::{self, RnixError};
use rnix::{GreenNode, Parse, ParseError};
use rnix_green::Element;
use std::alloc::Global;

/// The parent of the root.
pub const NO_PARENT: u32 = u32::MAX;

/// The range of a node or a token. It is half-open, in bytes.
#[repr(C)]
#[derive(Clone, Copy)]
pub struct RnixRange {
    pub start: u32,
    pub end: u32,
}

/// A node or a token, without its range.
#[repr(C)]
#[derive(Clone, Copy)]
pub struct RnixLink {
    pub parent: u32,
    pub inside: u32,
    pub kind: u16,
    pub is_token: u16,
}

// Returns a parent's number, or the largest `u32` if there is none.
fn parent_or_none(parent: Option<usize>) -> u32
    requires { IfSome parent (λ number. number < 2 ^ 32) }
    ensures { result ≡ parent_or_none parent }
{
    match parent {
        Some(number) => number as u32,
        None => NO_PARENT,
    }
}

// Returns the range of an element as numbers.
fn range_of(element: Element) -> RnixRange
    requires start { element.start < 2 ^ 32 }
    requires end { element.end < 2 ^ 32 }
    ensures { result ≡ range_of (item_from element) }
{
    RnixRange {
        start: element.start as u32,
        end: element.end as u32,
    }
}

// Returns the rest of an element as numbers.
fn link_of(element: Element) -> RnixLink
    requires parent { IfSome element.parent (λ number. number < 2 ^ 32) }
    requires below { element.below < 2 ^ 32 }
    ensures { result ≡ link_of (item_from element) }
{
    RnixLink {
        parent: parent_or_none(element.parent),
        inside: element.below as u32,
        kind: element.kind as u16,
        is_token: if element.is_node { 0 } else { 1 },
    }
}

// Writes an item at its index, if it fits into the array.
#[tactic(auto, using(std::proofs::lemmas::List::set_past))]
fn put<T: Copy>(item: T, number: usize, room: &mut [T])
    ensures { room.new ≡ set room.old number item }
{
    if number < room.len() {
        room[number] = item;
    }
}

// Writes the first elements of a tree with this number of elements.
fn fill(green: &GreenNode, count: usize, ranges: &mut [RnixRange], links: &mut [RnixLink])
    requires count { count ≡ length (items_of green.now) }
    requires few { count < 2 ^ 32 }
    requires short { length (text_of (forest_of green.now)) < 2 ^ 32 }
    ensures ranges { ranges.new ≡ filled (ranges_of green.now) ranges.old }
    ensures links { links.new ≡ filled (links_of green.now) links.old }
{
    for number in 0..count.min(ranges.len().max(links.len())) {
        let element = green.element(number);
        put(range_of(element), number, ranges);
        put(link_of(element), number, links);
    }
}

// Writes the elements, the errors and the number of errors, and returns the number of elements.
fn write_compact(
    green: &GreenNode,
    faults: &[ParseError],
    ranges: &mut [RnixRange],
    links: &mut [RnixLink],
    errors: &mut [RnixError],
    error_count: &mut u64,
) -> i64
    requires few { HaveShortNumbers green.now }
    requires short { length (text_of (forest_of green.now)) < 2 ^ 32 }
    ensures ranges { IsWritten (ranges_of green.now) result ranges.old ranges.new }
    ensures links { links.new ≡ filled (links_of green.now) links.old }
    ensures errors { errors.new ≡ filled (errors_of (map fault_of faults.now)) errors.old }
    ensures count { error_count.new ≡ length (map fault_of faults.now) }
{
    let count = green.element_count();
    fill(green, count, ranges, links);
    errors::fill(faults, errors);
    *error_count = faults.len() as u64;
    count as i64
}

/// Writes the elements, the errors and the number of errors of a parse, and returns the number of elements.
pub fn write_parse(
    read: &Parse,
    ranges: &mut [RnixRange],
    links: &mut [RnixLink],
    errors: &mut [RnixError],
    error_count: &mut u64,
) -> i64
    requires few { HaveShortNumbers read.now.tree }
    requires short { length (text_of (forest_of read.now.tree)) < 2 ^ 32 }
    ensures ranges { IsWritten (ranges_of read.now.tree) result ranges.old ranges.new }
    ensures links { links.new ≡ filled (links_of read.now.tree) links.old }
    ensures errors { errors.new ≡ filled (errors_of read.now.faults) errors.old }
    ensures count { error_count.new ≡ length read.now.faults }
{
    write_compact(
        read.green(),
        read.errors(),
        ranges,
        links,
        errors,
        error_count,
    )
}

/// Writes the elements of a text into two arrays, its errors, and their number. Returns the number of elements: at most three for each byte and three more,
/// and less than 2^32.
#[unsafe(no_mangle)]
pub extern "C" fn rnix_parse_compact(
    alloc: Global,
    text: &[u8],
    ranges: &mut [RnixRange],
    links: &mut [RnixLink],
    errors: &mut [RnixError],
    error_count: &mut u64,
) -> i64
    ensures { Answers text.now result
        ((ranges.new ≡ ranges.old) × (links.new ≡ links.old) × (errors.new ≡ errors.old) × (error_count.new ≡ error_count.old))
        (λ tree faults. IsWritten (ranges_of tree) result ranges.old ranges.new × (links.new ≡ filled (links_of tree) links.old)
        × AreFew text.now tree × HaveShortNumbers tree
        × (errors.new ≡ filled (errors_of faults) errors.old) × (error_count.new ≡ length faults)) }
{
    match parsed(alloc, text) {
        Ok((green, faults)) => write_compact(&green, &faults, ranges, links, errors, error_count),
        Err(answer) => answer,
    }
}
