//! Values that are being read, with their parents, in the order in which they were found.

ghost use Rattle.std.specs.Prelude.{◌≡◌, ◌≤◌, ℕ, length, map, slice_get, slice_index, option_to_list, IsTrue, IfOk};
ghost use Rattle.nix_values.specs.Contents.{entry_of};
ghost use Rattle.nix_values.specs.Built.{built_of, is_set_at, keys_of};
ghost use Rattle.nix_values.specs.Preorder.{parent_before, preorder};
ghost use Rattle.nix_values.specs.Groups.{groups_of, preorder_numbers, IsPreorder, innermost, AreLinkedFrom, AreDistinct};
ghost use Rattle.nix_values.specs.ValueDepths.{HaveDepths, depth_under, entry_in, entry_at, entries_at};

use crate::attributes::Values;
use crate::data::{Item, Value};
use crate::links::{Links, push_some};
use std::alloc::{AllocError, Global};
use std::mem;

/// A value, found before the values inside it.
#[derive(Drop)]
pub struct Node {
    /// Its parent: the list or set that contains it.
    pub parent: Option<usize>,
    /// The number of values around it.
    pub depth: usize,
    /// Its name.
    pub name: String,
    /// The value.
    pub value: Value,
}

/// Values that are being read.
#[derive(Drop)]
pub struct Nodes {
    /// The values.
    pub nodes: Vec<Node>,
}

impl Values for Nodes {
    ghost keys = { λ values. keys_of (map built_of values.nodes.items) };

    fn attribute(&self, number: usize) -> Option<(usize, &str)> {
        let found = self.nodes.get(number)?;
        match found.parent {
            Some(set) if set < number && self.is_set(set) => Some((set, found.name.as_str())),
            _ => None,
        }
    }
}

// Returns whether a group is that of the values inside the last one of these, or the outermost group if there are none.
fn is_inside_last(group: usize, numbers: &[usize]) -> bool
    ensures { IsTrue result → group ≡ innermost 0 numbers.now }
{
    match numbers.last() {
        Some(number) => group > 0 && group - 1 == *number,
        None => group == 0,
    }
}

impl Nodes {
    /// Returns whether a value is a set.
    pub fn is_set(&self, node: usize) -> bool
        ensures { result ≡ is_set_at (map built_of self.now.nodes.items) node }
    {
        match self.nodes.get(node) {
            Some(found) => matches!(&found.value, Value::Set),
            None => false,
        }
    }

    /// Returns the depth of a value that is added inside another, or of one that is added as an outermost value.
    pub fn depth_inside(&self, parent: Option<usize>) -> usize
        requires { HaveDepths self.now.nodes.items }
        ensures depth { result ≡ depth_under self.now.nodes.items (parent_before (length self.now.nodes.items) parent) }
        ensures within { result ≤ length self.now.nodes.items }
    {
        let Some(number) = parent else {
            return 0;
        };
        match self.nodes.get(number) {
            Some(around) => around.depth.saturating_add(1),
            None => 0,
        }
    }

    // Returns the group of a value: 0 if it is outermost, and otherwise one more than the number of its parent.
    fn group(&self, number: usize) -> usize
        ensures { result ≡ slice_index (groups_of (map built_of self.now.nodes.items)) number }
    {
        match self.nodes.get(number) {
            Some(found) => match found.parent {
                Some(parent) if parent < number => parent + 1,
                _ => 0,
            },
            None => 0,
        }
    }

    // Returns whether the values were added in the order of the data: each one inside the last value before it, or inside one that contains that.
    fn is_in_order(&self, alloc: Global) -> Result<bool, AllocError>
        ensures { IfOk result (λ is. IsTrue is → IsPreorder (map built_of self.now.nodes.items)) }
    {
        // The last value and those that contain it, outermost first.
        let mut around = Vec::new(alloc);
        for (number, node) in self.nodes.iter().enumerate() {
            around.truncate(node.depth);
            if !is_inside_last(self.group(number), around.as_slice()) {
                return Ok(false);
            }
            around.push(number)?;
        }
        Ok(true)
    }

    // Links the values, from the last to the first: each becomes the first in its group.
    fn links(&self, alloc: Global) -> Result<Links, AllocError>
        ensures { IfOk result (λ links. AreLinkedFrom 0 (groups_of (map built_of self.now.nodes.items)) links) }
    {
        let mut links = Links::new(alloc, self.nodes.len())?;
        for number in (0..self.nodes.len()).rev() {
            links.put_first(self.group(number), number);
        }
        Ok(links)
    }

    // Returns the numbers of the values in the order of the data: each is followed by those inside it.
    fn order(&self, alloc: Global) -> Result<Vec<usize>, AllocError>
        ensures { IfOk result (λ order. order.items ≡ preorder_numbers (map built_of self.now.nodes.items)) }
    {
        let links = self.links(alloc)?;
        let mut order = Vec::with_capacity(alloc, self.nodes.len())?;
        let mut pending = Vec::new(alloc);
        push_some(&mut pending, links.first_of(0))?;
        while let Some(number) = pending.pop() {
            order.push(number)?;
            push_some(&mut pending, links.next_of(number))?;
            push_some(&mut pending, links.first_of(number + 1))?;
        }
        Ok(order)
    }

    // Returns the values in the order in which they were added.
    fn into_all(self, alloc: Global) -> Result<Vec<Item>, AllocError>
        ensures { IfOk result (λ items. map entry_of items.items ≡ map entry_in self.nodes.items) }
    {
        let mut items = Vec::with_capacity(alloc, self.nodes.len())?;
        for node in self.nodes {
            items.push(Item {
                depth: node.depth,
                name: node.name,
                value: node.value,
            })?;
        }
        Ok(items)
    }

    // Takes the value with a number, if there is one.
    fn take(&mut self, alloc: Global, number: usize) -> Option<Item>
        ensures taken { map entry_of (option_to_list result) ≡ entry_at self.old.nodes.items number }
        ensures others { (k : ℕ) → (number ≡ k → ⊥) → slice_get self.new.nodes.items k ≡ slice_get self.old.nodes.items k }
    {
        match self.nodes.get_mut(number) {
            Some(node) => Some(Item {
                depth: node.depth,
                name: mem::replace(&mut node.name, String::new(alloc)),
                value: mem::replace(&mut node.value, Value::Null),
            }),
            None => None,
        }
    }

    // Returns the values with these numbers, which are distinct.
    fn into_ordered(mut self, alloc: Global, order: &[usize]) -> Result<Vec<Item>, AllocError>
        requires { AreDistinct order.now }
        ensures { IfOk result (λ items. map entry_of items.items ≡ entries_at self.nodes.items order.now) }
    {
        let mut items = Vec::with_capacity(alloc, order.len())?;
        for number in order {
            if let Some(item) = self.take(alloc, *number) {
                items.push(item)?;
            }
        }
        Ok(items)
    }

    /// Returns the values in the order of the data.
    pub fn into_items(self, alloc: Global) -> Result<Vec<Item>, AllocError>
        requires { HaveDepths self.nodes.items }
        ensures { IfOk result (λ items. map entry_of items.items ≡ preorder (map built_of self.nodes.items)) }
    {
        let is_in_order = self.is_in_order(alloc)?;
        if is_in_order {
            return self.into_all(alloc);
        }
        let order = self.order(alloc)?;
        self.into_ordered(alloc, order.as_slice())
    }
}
