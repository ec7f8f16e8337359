//! Walks over a tree, without allocation or recursion.

ghost use Rattle.std.specs.Prelude.{◌≡◌, ◌<◌, ◌≤◌, length};
ghost use Rattle.rnix_green.specs.Tree.{items_of};
ghost use Rattle.rnix_green.specs.Walk.{preorder_of, from_leaving};
ghost use Rattle.rnix_tree.specs.WalksAlike.{PassesAlike};
ghost use Rattle.rnix_tree.specs.Cursor.{after_enter, after_leave, after_skip, IsNextWithin};

use crate::element::{SyntaxElement, WalkEvent, element_at};
use crate::sibling_range::{after_siblings, are_siblings_alike, end_before, siblings_at};
use rnix_green::GreenNode;
use std::marker::Model;

/// An iterator over the children of a node, nodes and tokens, in order.
#[derive(Drop)]
pub struct SyntaxElementChildren<'t> {
    pub(crate) green: &'t GreenNode,
    pub(crate) next: usize,
    pub(crate) end: usize,
}

impl<'t> Model for SyntaxElementChildren<'t> {
    ghost use Rattle.std.specs.Prelude.{List, ◌≤◌, length, map};
    ghost use Rattle.rnix_green.specs.Tree.{items_of};
    ghost use Rattle.rnix_green.specs.Walk.{Spot, spots_code, spot_at};
    ghost use Rattle.rnix_green.specs.PreorderNumbers.{siblings_between};

    ghost Value = { List Spot };

    ghost coded = { spots_code };

    ghost view = { λ s. map (spot_at s.green.now) (siblings_between (items_of s.green.now) s.next s.end) };

    ghost invariant = { λ s. s.end ≤ length (items_of s.green.now) };
}

impl<'t> Iterator for SyntaxElementChildren<'t> {
    type Item = SyntaxElement<'t>;

    ghost use Rattle.std.specs.Iterator.{YieldsFirstBy, item_count};
    ghost use Rattle.rnix_tree.specs.Spots.{spot_of};

    ghost next_gives = { YieldsFirstBy spot_of (λ s. s) };

    ghost remaining = { item_count (λ s. s) };

    fn next(&mut self) -> Option<SyntaxElement<'t>> {
        let green = self.green;
        let number = self.next;
        if number < self.end {
            let element = green.element(number);
            self.next = number + 1 + element.below;
            Some(element_at(green, number))
        } else {
            None
        }
    }
}

// What a walk does next, and at which element.
#[derive(Clone, Copy)]
pub(crate) enum Next {
    Enter(usize),
    Leave(usize),
    Done,
}

/// A walk that enters and leaves each node and token, in preorder.
#[derive(Drop)]
pub struct PreorderWithTokens<'t> {
    green: &'t GreenNode,
    root: usize,
    next: Next,
}

impl<'t> Model for PreorderWithTokens<'t> {
    ghost use Rattle.std.specs.Prelude.{List};
    ghost use Rattle.rnix_green.specs.Walk.{Event, events_code};

    ghost Value = { List Event };

    ghost coded = { events_code };

    ghost use Rattle.rnix_tree.specs.Cursor.{events_remaining, IsWithin};

    ghost view = { λ w. events_remaining w.green.now w.root w.next };

    ghost invariant = { λ w. IsWithin w.green.now w.root w.next };
}

impl<'t> PreorderWithTokens<'t> {
    pub(crate) fn new(green: &'t GreenNode, root: usize) -> Self
        requires { root < length (items_of green.now) }
        ensures { result ≡ preorder_of record { tree = green.now; number = root } }
    {
        PreorderWithTokens {
            green,
            root,
            next: Next::Enter(root),
        }
    }

    /// Skips the rest of the innermost open element, one that was entered and not left: the next event leaves it. If none is open, the walk ends.
    pub fn skip_subtree(&mut self)
        ensures walk { self.new ≡ from_leaving 0 self.old }
        ensures shorter { length self.new ≤ length self.old }
    {
        self.next = after_skip(self.green, self.root, self.next);
    }

    /// Passes siblings that are alike in two walks, for programs that look for differences between two trees. Compares the siblings that this walk enters
    /// next and that end before the offset `before` with as many that `other` enters next. Returns `None` if there are none, and otherwise whether they are
    /// alike: the same nodes and tokens in the same order, of the same kinds, tokens with the same texts, and those of `other` end before `other_before`.
    /// If they are alike, both walks have passed them; otherwise neither has moved. Takes time linear in the number of elements compared and the bytes of
    /// their texts.
    pub fn pass_alike(
        &mut self,
        before: usize,
        other: &mut PreorderWithTokens<'_>,
        other_before: usize,
    ) -> Option<bool>
        ensures { PassesAlike before other_before result self.old other.old self.new other.new }
    {
        let Next::Enter(number) = self.next else {
            return None;
        };
        let siblings = siblings_at(self.green, self.root, number);
        let end = end_before(self.green, siblings, before);
        if end == number {
            return None;
        }
        let Next::Enter(other_number) = other.next else {
            return Some(false);
        };
        let twin = siblings_at(other.green, other.root, other_number);
        if !are_siblings_alike(self.green, siblings, end, other.green, twin, other_before) {
            return Some(false);
        }
        self.next = after_siblings(siblings, end);
        other.next = after_siblings(twin, other_number + (end - number));
        Some(true)
    }
}

// Returns what a walk does after entering the element.
fn after_enter(green: &GreenNode, number: usize) -> Next
    requires { number < length (items_of green.now) }
    ensures { result ≡ after_enter green.now number }
{
    if green.element(number).below > 0 {
        Next::Enter(number + 1)
    } else {
        Next::Leave(number)
    }
}

// Returns what a walk from `root` does after leaving the element.
fn after_leave(green: &GreenNode, root: usize, number: usize) -> Next
    requires { number < length (items_of green.now) }
    ensures { result ≡ after_leave green.now root number }
{
    let element = green.element(number);
    match element.parent {
        Some(parent) if number != root => {
            let next = number + 1 + element.below;
            if next < parent + 1 + green.element(parent).below {
                Next::Enter(next)
            } else {
                Next::Leave(parent)
            }
        }
        _ => Next::Done,
    }
}

// Returns what a walk from `root` does after skipping the rest of the innermost open element.
fn after_skip(green: &GreenNode, root: usize, next: Next) -> Next
    requires { IsNextWithin green.now root next }
    ensures { result ≡ after_skip green.now root next }
{
    match next {
        Next::Enter(number) => match green.element(number).parent {
            Some(parent) if number != root => Next::Leave(parent),
            _ => Next::Done,
        },
        _ => next,
    }
}

impl<'t> Iterator for PreorderWithTokens<'t> {
    type Item = WalkEvent<SyntaxElement<'t>>;

    ghost use Rattle.std.specs.Iterator.{YieldsFirstBy, item_count};
    ghost use Rattle.rnix_tree.specs.Spots.{event_of};

    ghost next_gives = { YieldsFirstBy event_of (λ s. s) };

    ghost remaining = { item_count (λ s. s) };

    fn next(&mut self) -> Option<WalkEvent<SyntaxElement<'t>>> {
        let green = self.green;
        match self.next {
            Next::Enter(number) => {
                self.next = after_enter(green, number);
                Some(WalkEvent::Enter(element_at(green, number)))
            }
            Next::Leave(number) => {
                self.next = after_leave(green, self.root, number);
                Some(WalkEvent::Leave(element_at(green, number)))
            }
            Next::Done => None,
        }
    }
}
