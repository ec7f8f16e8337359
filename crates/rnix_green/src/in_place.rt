//! A node replaced in its own tree.

ghost use Rattle.std.specs.Prelude.{◌≡◌, ◌<◌, ◌≤◌, ◌+◌, ◌++◌, ◌∷◌, length, map, take, drop, suc};
ghost use Rattle.rnix_green.specs.Packed.{limit, packed};
ghost use Rattle.rnix_green.specs.Kept.{item_from, parent_or_root};
ghost use Rattle.rnix_green.specs.SplicedElements.{AreStored, restarted, shifted, shift_inside, spliced};

use crate::green::{Element, GreenNode};
use crate::packed::{Packed, Shift};
use rnix_kinds::SyntaxKind;
use std::alloc::AllocError;

// Writes elements at their new places, from a number on.
fn write_shifted(elements: &mut [Packed], from: usize, moved: &[Packed], shift: &Shift)
    requires start { shift.now.new_start < limit }
    requires number { shift.now.new_number < limit }
    requires there { from + length moved.now ≤ length elements.old }
    ensures { elements.new ≡ take from elements.old ++ (map (shifted shift.now) moved.now ++ drop (from + length moved.now) elements.old) }
{
    for index in 0..moved.len() {
        elements[from + index] = moved[index].shifted(shift);
    }
}

// Moves the elements from a number on to another offset.
fn move_starts(elements: &mut [Packed], from: usize, start: usize, new_start: usize)
    requires small { new_start < limit }
    requires there { from ≤ length elements.old }
    ensures { elements.new ≡ take from elements.old ++ map (restarted start new_start) (drop from elements.old) }
{
    for index in from..elements.len() {
        let element = elements[index];
        elements[index] = element.restarted(start, new_start);
    }
}

// Writes a node over the old one with this number, which has as many elements.
fn write_node(
    elements: &mut [Packed],
    number: usize,
    old: &Element,
    kind: SyntaxKind,
    inside: &[Packed],
)
    requires there { number + suc (length inside.now) ≤ length elements.old }
    requires few { length elements.old < limit }
    requires short { old.now.start < limit }
    ensures { elements.new ≡ take number elements.old
        ++ (packed kind old.now.start (parent_or_root old.now.parent) (suc (length inside.now))
        ∷ (map (shifted (shift_inside number old.now.start)) inside.now ++ drop (number + suc (length inside.now)) elements.old)) }
{
    let count = inside.len() + 1;
    elements[number] = Packed::new(kind, old.start, old.parent.unwrap_or(0), count);
    let place = Shift {
        start: 0,
        new_start: old.start,
        number: 1,
        new_number: number,
    };
    write_shifted(elements, number + 1, inside, &place);
}

// Puts a node in place of the old one with this number, which has as many elements. The new node's text has `len` bytes.
fn set_elements(
    elements: &mut [Packed],
    number: usize,
    old: &Element,
    kind: SyntaxKind,
    inside: &[Packed],
    len: usize,
)
    requires stored { AreStored elements.old }
    requires same_count { length inside.now ≡ old.now.below }
    requires there { number + suc old.now.below ≤ length elements.old }
    requires few { length elements.old < limit }
    requires short { old.now.start + len < limit }
    ensures { elements.new ≡ spliced elements.old number (item_from old.now) kind inside.now len }
{
    write_node(elements, number, old, kind, inside);
    let new_end = old.start + len;
    if new_end != old.end {
        move_starts(elements, number + (old.below + 1), old.end, new_end);
    }
}

impl GreenNode {
    ghost use Rattle.std.specs.Prelude.{OnOk, OnErr};
    ghost use Rattle.rnix_green.specs.Tree.{item};
    ghost use Rattle.rnix_green.specs.Relatives.{IsNodeIn};
    ghost use Rattle.rnix_green.specs.Splice.{HasOnlyChild, IsSpliced};

    // Puts the only child of the other tree's root in place of a node with as many elements. Nothing is written before the text is made.
    fn overwrite_node(&mut self, number: usize, other: &GreenNode) -> Result<(), AllocError>
        requires there { IsNodeIn self.old number }
        requires single { HasOnlyChild other.now }
        requires same_count { (item self.old number).below ≡ (item other.now 1).below }
        ensures ok { OnOk result (IsSpliced self.old number other.now self.new) }
        ensures err { OnErr result (self.new ≡ self.old) }
    {
        let old = self.element(number);
        let kind = other.element(1).kind;
        let (new, new_text) = other.parts();
        let text = self.text_with(number, new_text)?;
        set_elements(
            &mut self.elements,
            number,
            &old,
            kind,
            &new[2..],
            new_text.len(),
        );
        self.text = text;
        Ok(())
    }

    /// Puts the only child of the other tree's root in place of the node with a number in preorder. The time is linear in the size of the other tree, in the
    /// number of elements after the node, and in the length of the text, which is copied; elements after the node are left alone if its text keeps its length.
    /// A node with another number of elements takes the time and the memory of `with_node`. A tree that is refused memory, or reaches the limit of `with_node`,
    /// is unchanged.
    pub fn set_node(&mut self, number: usize, other: &GreenNode) -> Result<(), AllocError>
        requires there { IsNodeIn self.old number }
        requires single { HasOnlyChild other.now }
        ensures ok { OnOk result (IsSpliced self.old number other.now self.new) }
        ensures err { OnErr result (self.new ≡ self.old) }
    {
        if self.element(number).below == other.element(1).below {
            self.overwrite_node(number, other)?;
            return Ok(());
        }
        let tree = self.with_node(number, other)?;
        *self = tree;
        Ok(())
    }
}
