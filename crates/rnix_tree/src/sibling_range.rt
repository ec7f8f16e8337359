//! Comparing siblings of two trees.

ghost use Rattle.std.specs.Prelude.{◌≡◌, ◌≤◌, ◌<◌, ◌+◌, ◌-◌, ◌^◌, length};
ghost use Rattle.std.specs.Bool.{Decides};
ghost use Rattle.rnix_green.specs.Kept.{item_from};
ghost use Rattle.rnix_green.specs.Tree.{item, items_of};
ghost use Rattle.rnix_tree.specs.Cursor.{IsInside};
ghost use Rattle.rnix_tree.specs.AlikeSiblings.{holder_of, siblings_at, IsReached, text_end, same_item, alike_at, AreAlike, IsSiblingRange, IsIn, SameText, AreSiblingsAlike, after_siblings};

use crate::walk::Next;
use rnix_green::{Element, GreenNode};

/// The siblings from `first` on that a walk enters, with all that is inside them, up to the number `end`. `holder` is their parent, or the root of the
/// walk if that is `first`.
#[derive(Clone, Copy)]
pub(crate) struct SiblingRange {
    pub first: usize,
    pub holder: usize,
    pub end: usize,
}

// Returns the parent of an element in a walk, or the element if it is the root of the walk.
fn holder_of(root: usize, number: usize, parent: Option<usize>) -> usize
    ensures { result ≡ holder_of root number parent }
{
    match parent {
        Some(parent) if number != root => parent,
        _ => number,
    }
}

/// Returns the element and the siblings after it in a walk from a root.
pub(crate) fn siblings_at(green: &GreenNode, root: usize, number: usize) -> SiblingRange
    requires { IsInside green.now root number }
    ensures siblings { result ≡ siblings_at green.now root number }
    ensures fits { result.end < 2 ^ 63 }
{
    let holder = holder_of(root, number, green.element(number).parent);
    let end = holder + 1 + green.element(holder).below;
    SiblingRange {
        first: number,
        holder,
        end,
    }
}

/// Returns the number of the first sibling that does not end before an offset, or the end of the siblings.
pub(crate) fn end_before(green: &GreenNode, siblings: SiblingRange, offset: usize) -> usize
    requires { siblings.end ≤ length (items_of green.now) }
    ensures reached { IsReached green.now siblings.end offset siblings.first result }
    ensures stops { result < siblings.end → offset ≤ (item green.now result).end }
{
    let mut number = siblings.first;
    while number < siblings.end {
        let element = green.element(number);
        if element.end >= offset {
            return number;
        }
        number += 1 + element.below;
    }
    number
}

/// Returns what a walk does after the siblings before a number.
pub(crate) fn after_siblings(siblings: SiblingRange, number: usize) -> Next
    ensures { result ≡ after_siblings siblings number }
{
    if number < siblings.end {
        Next::Enter(number)
    } else if siblings.holder == siblings.first {
        Next::Done
    } else {
        Next::Leave(siblings.holder)
    }
}

// Returns where the siblings before a number end in the text.
fn text_end(green: &GreenNode, siblings: SiblingRange, number: usize) -> usize
    requires holder { siblings.holder < length (items_of green.now) }
    requires end { siblings.end ≤ length (items_of green.now) }
    ensures { result ≡ text_end green.now siblings number }
{
    if number < siblings.end {
        green.element(number).start
    } else {
        green.element(siblings.holder).end
    }
}

// An element, and the offset at which it starts.
#[derive(Clone, Copy)]
struct Origin {
    number: usize,
    start: usize,
}

// Returns whether two elements have the same kind and the same number of elements inside.
fn is_same_item(a: &Element, b: &Element) -> bool
    ensures { result ≡ same_item (item_from a.now) (item_from b.now) }
{
    a.kind == b.kind && a.is_node == b.is_node && a.below == b.below
}

// Returns whether the elements `index` positions after two others are alike, and start at the same distance from them.
fn is_alike_at(
    green: &GreenNode,
    from: Origin,
    other_green: &GreenNode,
    other: Origin,
    index: usize,
) -> bool
    requires fits { from.number + index < 2 ^ 63 }
    requires there { from.number + index < length (items_of green.now) }
    requires start { from.start ≡ (item green.now from.number).start }
    requires other_fits { other.number + index < 2 ^ 63 }
    requires other_there { other.number + index < length (items_of other_green.now) }
    requires other_start { other.start ≡ (item other_green.now other.number).start }
    ensures { result ≡ alike_at green.now other_green.now from.number from.start other.number other.start index }
{
    let element = green.element(from.number + index);
    let twin = other_green.element(other.number + index);
    is_same_item(&element, &twin) && element.start - from.start == twin.start - other.start
}

// Returns whether the first `count` elements are alike.
fn are_alike(
    green: &GreenNode,
    from: Origin,
    other_green: &GreenNode,
    other: Origin,
    count: usize,
) -> bool
    requires fits { from.number + count < 2 ^ 63 }
    requires there { from.number + count ≤ length (items_of green.now) }
    requires start { from.start ≡ (item green.now from.number).start }
    requires other_fits { other.number + count < 2 ^ 63 }
    requires other_there { other.number + count ≤ length (items_of other_green.now) }
    requires other_start { other.start ≡ (item other_green.now other.number).start }
    ensures { Decides result (AreAlike green.now other_green.now from.number from.start other.number other.start count) }
{
    for index in 0..count {
        if !is_alike_at(green, from, other_green, other, index) {
            return false;
        }
    }
    true
}

// Returns whether the texts of two trees are the same in two ranges.
fn are_texts_alike(
    green: &GreenNode,
    start: usize,
    end: usize,
    other_green: &GreenNode,
    other_start: usize,
    other_end: usize,
) -> bool
    requires within { IsIn green.now start end }
    requires other_within { IsIn other_green.now other_start other_end }
    ensures { Decides result (SameText green.now start end other_green.now other_start other_end) }
{
    let text = green.text_at(0).as_bytes();
    let other = other_green.text_at(0).as_bytes();
    text[start..end] == other[other_start..other_end]
}

/// Returns whether the siblings of two forests are alike up to the number `end` of the first one, with everything inside them, and end in the second tree
/// before an offset. Alike means the same number of elements, of the same kinds, with as many elements inside, and the same text. Takes time linear in
/// the number of elements and of bytes.
pub(crate) fn are_siblings_alike(
    green: &GreenNode,
    siblings: SiblingRange,
    end: usize,
    other_green: &GreenNode,
    other: SiblingRange,
    before: usize,
) -> bool
    requires siblings { IsSiblingRange green.now siblings }
    requires there { siblings.first < end }
    requires within { end ≤ siblings.end }
    requires other { IsSiblingRange other_green.now other }
    ensures { Decides result (AreSiblingsAlike green.now siblings end other_green.now other before) }
{
    let count = end - siblings.first;
    if count > other.end - other.first {
        return false;
    }
    let from = Origin {
        number: siblings.first,
        start: green.element(siblings.first).start,
    };
    let twin = Origin {
        number: other.first,
        start: other_green.element(other.first).start,
    };
    let text_stop = text_end(green, siblings, end);
    let other_stop = text_end(other_green, other, other.first + count);
    other_stop < before
        && are_texts_alike(
            green,
            from.start,
            text_stop,
            other_green,
            twin.start,
            other_stop,
        )
        && are_alike(green, from, other_green, twin, count)
}
