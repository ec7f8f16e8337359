//! Siblings, children and tokens of an element, by their numbers.

ghost use Rattle.std.specs.Prelude.{◌≤◌, ◌<◌, ◌+◌, length};
ghost use Rattle.rnix_green.specs.Tree.{items_of, item};
ghost use Rattle.rnix_green.specs.Relatives.{IsFirst, IsLast, IsChild, IsSibling};
ghost use Rattle.rnix_tree.specs.Around.{IsThereIfAny, IsOnWayTo, FirstNodeFrom, LastNodeFrom, IsFirstTokenAmong, IsLastTokenAmong};

use rnix_green::GreenNode;

/// Returns the next sibling.
pub(crate) fn next_sibling(green: &GreenNode, number: usize) -> Option<usize>
    requires { number < length (items_of green.now) }
    ensures { IsFirst (IsSibling record { tree = green.now; number = number }) number result }
{
    let element = green.element(number);
    let Some(parent) = element.parent else {
        return None;
    };
    let next = number + 1 + element.below;
    if next <= parent + green.element(parent).below {
        Some(next)
    } else {
        None
    }
}

// Returns the child of `parent` that contains the element.
fn child_over(green: &GreenNode, parent: usize, number: usize) -> usize
    requires there { parent < length (items_of green.now) }
    requires low { parent < number }
    requires high { number ≤ parent + (item green.now parent).below }
    ensures { IsOnWayTo green.now parent number result }
{
    let mut child = number;
    while let Some(above) = green.element(child).parent {
        if above == parent {
            return child;
        }
        child = above;
    }
    child
}

/// Returns the previous sibling.
pub(crate) fn prev_sibling(green: &GreenNode, number: usize) -> Option<usize>
    requires { number < length (items_of green.now) }
    ensures { IsLast (IsSibling record { tree = green.now; number = number }) number result }
{
    let Some(parent) = green.element(number).parent else {
        return None;
    };
    if number - 1 == parent {
        None
    } else {
        Some(child_over(green, parent, number - 1))
    }
}

/// Returns the first child.
pub(crate) fn first_child(green: &GreenNode, number: usize) -> Option<usize>
    requires { number < length (items_of green.now) }
    ensures { IsFirst (IsChild record { tree = green.now; number = number }) number result }
{
    if green.element(number).below > 0 {
        Some(number + 1)
    } else {
        None
    }
}

/// Returns the last child.
pub(crate) fn last_child(green: &GreenNode, number: usize) -> Option<usize>
    requires { number < length (items_of green.now) }
    ensures { IsLast (IsChild record { tree = green.now; number = number }) (length (items_of green.now)) result }
{
    let below = green.element(number).below;
    if below > 0 {
        Some(child_over(green, number, number + below))
    } else {
        None
    }
}

/// Returns the first node among the element `start` and the siblings after it. Returns `None` if `start` is `None`.
pub(crate) fn first_node(green: &GreenNode, start: Option<usize>) -> Option<usize>
    requires { IsThereIfAny green.now start }
    ensures { FirstNodeFrom green.now start result }
{
    let mut next = start;
    while let Some(number) = next {
        if green.element(number).is_node {
            return Some(number);
        }
        next = next_sibling(green, number);
    }
    None
}

/// Returns the last node among the element `start` and the siblings before it. Returns `None` if `start` is `None`.
pub(crate) fn last_node(green: &GreenNode, start: Option<usize>) -> Option<usize>
    requires { IsThereIfAny green.now start }
    ensures { LastNodeFrom green.now start result }
{
    let mut next = start;
    while let Some(number) = next {
        if green.element(number).is_node {
            return Some(number);
        }
        next = prev_sibling(green, number);
    }
    None
}

/// Returns the first token among the elements from `from` to `end`, exclusive.
pub(crate) fn first_token(green: &GreenNode, from: usize, end: usize) -> Option<usize>
    requires { end ≤ length (items_of green.now) }
    ensures { IsFirstTokenAmong green.now from end result }
{
    for number in from..end {
        if !green.element(number).is_node {
            return Some(number);
        }
    }
    None
}

/// Returns the last token among the elements from `from` to `end`, exclusive.
pub(crate) fn last_token(green: &GreenNode, from: usize, end: usize) -> Option<usize>
    requires { end ≤ length (items_of green.now) }
    ensures { IsLastTokenAmong green.now from end result }
{
    let mut number = end;
    while number > from {
        number -= 1;
        if !green.element(number).is_node {
            return Some(number);
        }
    }
    None
}
