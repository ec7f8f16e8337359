//! A tree in which another node replaces a node.

ghost use Rattle.std.specs.Bool.{Decides};
ghost use Rattle.std.specs.Prelude.{◌≡◌, ◌<◌, ◌≤◌, ◌+◌, ◌-◌, ◌++◌, length, map, take, drop, suc, IfOk, vec_len, vec_capacity, string_bytes};
ghost use Rattle.std.specs.Str.{IsCharBoundary};
ghost use Rattle.rnix_green.specs.Packed.{limit};
ghost use Rattle.rnix_green.specs.Kept.{item_from};
ghost use Rattle.rnix_green.specs.SplicedElements.{resized, shifted, spliced};

use crate::green::{Element, GreenNode};
use crate::packed::{Packed, Shift, room};
use rnix_kinds::SyntaxKind;
use std::alloc::{AllocError, Global};

// Adds the elements before a node that has `new` elements in place of `old` ones.
fn push_resized(elements: &mut Vec<Packed>, before: &[Packed], old: usize, new: usize)
    requires new { new < limit }
    requires small { length before.now < limit }
    requires room { vec_len elements.old + length before.now ≤ vec_capacity elements.old }
    ensures items { elements.new.items ≡ elements.old.items ++ resized 0 (length before.now) old new before.now }
    ensures len { vec_len elements.new ≡ vec_len elements.old + length before.now }
    ensures capacity { vec_capacity elements.new ≡ vec_capacity elements.old }
{
    for index in 0..before.len() {
        let element = before[index];
        if element.holds(index, before.len()) {
            elements.push_reserved(element.with_size(old, new));
        } else {
            elements.push_reserved(element);
        }
    }
}

// Adds elements at their new places.
fn push_shifted(elements: &mut Vec<Packed>, moved: &[Packed], shift: &Shift)
    requires start { shift.now.new_start < limit }
    requires number { shift.now.new_number < limit }
    requires room { vec_len elements.old + length moved.now ≤ vec_capacity elements.old }
    ensures items { elements.new.items ≡ elements.old.items ++ map (shifted shift.now) moved.now }
    ensures len { vec_len elements.new ≡ vec_len elements.old + length moved.now }
    ensures capacity { vec_capacity elements.new ≡ vec_capacity elements.old }
{
    for element in moved {
        elements.push_reserved(element.shifted(shift));
    }
}

// Returns the elements with a node of a kind in place of the old node with this number. The new node's text has `len` bytes.
fn spliced(
    alloc: Global,
    elements: &[Packed],
    number: usize,
    old: &Element,
    kind: SyntaxKind,
    inside: &[Packed],
    len: usize,
) -> Result<Vec<Packed>, AllocError>
    requires small { length elements.now < limit }
    requires there { number + suc old.now.below ≤ length elements.now }
    requires few { length elements.now - suc old.now.below + suc (length inside.now) < limit }
    requires short { old.now.start + len < limit }
    ensures { IfOk result (λ v. v.items ≡ spliced elements.now number (item_from old.now) kind inside.now len) }
{
    let (size, count) = (old.below + 1, inside.len() + 1);
    let next = number + size;
    let mut all = Vec::with_capacity(alloc, elements.len() - size + count)?;
    push_resized(&mut all, &elements[..number], size, count);
    all.push_reserved(Packed::new(kind, old.start, old.parent.unwrap_or(0), count));
    let place = Shift {
        start: 0,
        new_start: old.start,
        number: 1,
        new_number: number,
    };
    push_shifted(&mut all, inside, &place);
    let place = Shift {
        start: old.end,
        new_start: old.start + len,
        number: next,
        new_number: number + count,
    };
    push_shifted(&mut all, &elements[next..], &place);
    Ok(all)
}

// Returns the text with another text in place of the bytes from `start` to `end`.
fn replaced(
    alloc: Global,
    text: &str,
    start: usize,
    end: usize,
    new: &str,
) -> Result<String, AllocError>
    requires ordered { start ≤ end }
    requires at_start { IsCharBoundary text.now start }
    requires at_end { IsCharBoundary text.now end }
    requires within { end ≤ length text.now }
    requires short { length text.now - (end - start) + length new.now < limit }
    ensures { IfOk result (λ t. string_bytes t ≡ take start text.now ++ (new.now ++ drop end text.now)) }
{
    let mut whole = String::with_capacity(alloc, text.len() - (end - start) + new.len())?;
    whole.push_str(&text[..start])?;
    whole.push_str(new)?;
    whole.push_str(&text[end..])?;
    Ok(whole)
}

impl GreenNode {
    ghost use Rattle.rnix_green.specs.Relatives.{IsNodeIn};
    ghost use Rattle.std.specs.Prelude.{OnOk};
    ghost use Rattle.rnix_green.specs.Forest.{text_of};
    ghost use Rattle.rnix_green.specs.Splice.{HasOnlyChild, IsSpliced, text_spliced};
    ghost use Rattle.rnix_green.specs.Tree.{items_of, item, forest_of};

    /// Returns whether the root has one child, which is a node.
    pub fn has_only_child(&self) -> bool
        ensures { Decides result (HasOnlyChild self.now) }
    {
        if self.element_count() < 2 {
            return false;
        }
        let child = self.element(1);
        child.is_node && 2 + child.below == self.element_count()
    }

    /// Returns the text with another text in place of an element's.
    pub(crate) fn text_with(&self, number: usize, text: &str) -> Result<String, AllocError>
        requires { number < length (items_of self.now) }
        ensures text { IfOk result (λ whole. string_bytes whole ≡ text_spliced self.now number text.now) }
        ensures short { OnOk result (
            length (text_of (forest_of self.now)) - ((item self.now number).end - (item self.now number).start) + length text.now < limit) }
    {
        let old = self.element(number);
        let (_, whole) = self.parts();
        room(whole.len() - (old.end - old.start), text.len())?;
        let spliced = replaced(self.allocator(), whole, old.start, old.end, text)?;
        Ok(spliced)
    }

    /// Returns the tree with the only child of the other tree's root in place of the node with a number in preorder. The time is linear in the size of both
    /// trees. A text of 2^32 bytes, or that many elements, is refused as if memory had run out.
    pub fn with_node(&self, number: usize, other: &GreenNode) -> Result<GreenNode, AllocError>
        requires there { IsNodeIn self.now number }
        requires single { HasOnlyChild other.now }
        ensures { IfOk result (λ tree. IsSpliced self.now number other.now tree) }
    {
        let old = self.element(number);
        let kind = other.element(1).kind;
        let (elements, _) = self.parts();
        let (new, new_text) = other.parts();
        room(elements.len() - (old.below + 1), new.len() - 1)?;
        let text = self.text_with(number, new_text)?;
        let elements = spliced(
            self.allocator(),
            elements,
            number,
            &old,
            kind,
            &new[2..],
            new_text.len(),
        )?;
        Ok(GreenNode::from_parts(elements, text))
    }
}
