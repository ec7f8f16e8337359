//! The elements of a tree, in preorder.

ghost use Rattle.std.specs.Prelude.{◌≡◌, length};
ghost use Rattle.rnix_green.specs.Tree.{items_of};
ghost use Rattle.rnix_green.specs.Kept.{item_from};
ghost use Rattle.rnix_c.specs.Answers.{filled, IsWritten};
ghost use Rattle.rnix_c.specs.Elements.{number_or_none, element_of, elements_of};

use crate::answers::NO_NUMBER;
use rnix::GreenNode;
use rnix_green::Element;

/// A node or a token. Ranges are half-open, in bytes.
#[repr(C)]
#[derive(Clone, Copy)]
pub struct RnixElement {
    pub start: u64,
    pub end: u64,
    pub parent: u64,
    pub inside: u64,
    pub kind: u32,
    pub is_token: u32,
}

/// Returns a number, or the largest `u64` if there is none.
pub fn number_or_none(number: Option<usize>) -> u64
    ensures { result ≡ number_or_none number }
{
    match number {
        Some(number) => number as u64,
        None => NO_NUMBER,
    }
}

// Returns an element as numbers.
fn record_of(element: Element) -> RnixElement
    ensures { result ≡ element_of (item_from element) }
{
    RnixElement {
        start: element.start as u64,
        end: element.end as u64,
        parent: number_or_none(element.parent),
        inside: element.below as u64,
        kind: element.kind as u32,
        is_token: if element.is_node { 0 } else { 1 },
    }
}

// Writes the first elements of a tree with this number of elements.
fn fill(green: &GreenNode, count: usize, room: &mut [RnixElement])
    requires { count ≡ length (items_of green.now) }
    ensures { room.new ≡ filled (elements_of green.now) room.old }
{
    for number in 0..count.min(room.len()) {
        room[number] = record_of(green.element(number));
    }
}

/// Writes the first elements of the tree, as many as fit into the array, and returns the number of all elements of the tree.
pub fn written(green: &GreenNode, room: &mut [RnixElement]) -> i64
    ensures { IsWritten (elements_of green.now) result room.old room.new }
{
    let count = green.element(0).below + 1;
    fill(green, count, room);
    count as i64
}
