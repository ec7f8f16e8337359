//! The elements that contain a range.

ghost use Rattle.std.specs.Prelude.{◌≡◌, ◌<◌, ◌≤◌, ◌+◌, length, option_map};
ghost use Rattle.rnix_green.specs.Range.{bounds_of};
ghost use Rattle.rnix_green.specs.Relatives.{IsNodeIn};
ghost use Rattle.rnix_green.specs.Tree.{items_of, item, extent_of};
ghost use Rattle.rnix_tree.specs.Around.{IsOnWayTo};
ghost use Rattle.rnix_tree.specs.Spots.{located_of, spot_of};
ghost use Rattle.rnix_tree.specs.Covering.{holds, child_at_range, IsCovering, IsInnermost};

use crate::element::{SyntaxElement, element_at};
use crate::node::SyntaxNode;
use crate::offset::token_before;
use rnix_green::{GreenNode, TextRange};

// Returns whether a range is inside another. An empty range must be strictly between its ends.
fn holds(range: TextRange, outer: TextRange) -> bool
    ensures { result ≡ holds (bounds_of range) (bounds_of outer) }
{
    (outer.start() <= range.start() && range.end() <= outer.end())
        && (outer.start() < range.end() && range.start() < outer.end())
}

// Returns the range of the element with a number.
fn range_of(green: &GreenNode, number: usize) -> TextRange
    requires { number < length (items_of green.now) }
    ensures { bounds_of result ≡ extent_of record { tree = green.now; number = number } }
{
    let element = green.element(number);
    TextRange::new(element.start, element.end)
}

// Returns the child of `parent` that contains the element. Alternately steps forward over the children and climbs from the element, so the shorter of
// the two ways determines the cost.
fn child_towards(green: &GreenNode, parent: usize, number: usize) -> usize
    requires there { parent < length (items_of green.now) }
    requires low { parent < number }
    requires high { number ≤ parent + (item green.now parent).below }
    ensures { IsOnWayTo green.now parent number result }
{
    let (mut child, mut above) = (parent + 1, number);
    while child != above {
        let element = green.element(child);
        let next = child + 1 + element.below;
        if number < next {
            return child;
        }
        match green.element(above).parent {
            Some(around) if around != parent => above = around,
            _ => return above,
        }
        child = next;
    }
    child
}

// Returns the innermost element that contains the range: the node itself, or an element inside it around the token at the start of the range.
fn innermost(green: &GreenNode, number: usize, range: TextRange) -> usize
    requires { IsNodeIn green.now number }
    ensures there { result < length (items_of green.now) }
    ensures is { IsInnermost (bounds_of range) record { tree = green.now; number = number } record { tree = green.now; number = result } }
{
    if !range_of(green, number).contains(range.start()) {
        return number;
    }
    let token = token_before(green, number, range.start() + 1);
    let mut reached = number;
    while reached < token {
        let child = child_towards(green, reached, token);
        if !holds(range, range_of(green, child)) {
            return reached;
        }
        reached = child;
    }
    reached
}

impl<'t> SyntaxNode<'t> {
    /// Returns the child that contains the range. Neither of two children contains an empty range between them.
    pub fn child_or_token_at_range(&self, range: TextRange) -> Option<SyntaxElement<'t>>
        ensures { option_map spot_of result ≡ child_at_range (bounds_of range) self.now }
    {
        let (green, number) = (self.green, self.number);
        if !range_of(green, number).contains(range.start()) {
            return None;
        }
        let token = token_before(green, number, range.start() + 1);
        let child = child_towards(green, number, token);
        if holds(range, range_of(green, child)) {
            Some(element_at(green, child))
        } else {
            None
        }
    }

    /// Returns the innermost element that contains the range: the node, or one inside it. Returns `None` if the node does not contain the range.
    pub fn covering_element(&self, range: TextRange) -> Option<SyntaxElement<'t>>
        ensures { IsCovering (bounds_of range) self.now (option_map located_of result) }
    {
        if self.text_range().contains_range(range) {
            let number = innermost(self.green, self.number, range);
            Some(element_at(self.green, number))
        } else {
            None
        }
    }
}
