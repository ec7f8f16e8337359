//! Links between values: to the first value inside each one, and to the next value in the same group.

ghost use Rattle.std.specs.Prelude.{◌≡◌, ◌++◌, length, option_to_list, slice_index_or, slice_set, replicate, suc, IfOk, OnOk};

use std::alloc::{AllocError, Global};

/// The links between values. The values with the same parent are a group: group 0 contains the outermost values, and group `n + 1` those inside value `n`.
#[derive(Drop)]
pub struct Links {
    /// The first value of each group.
    pub first: Vec<Option<usize>>,
    /// For each value, the next one in its group.
    pub next: Vec<Option<usize>>,
}

/// Adds a number at the end, if there is one.
pub fn push_some(numbers: &mut Vec<usize>, number: Option<usize>) -> Result<(), AllocError>
    ensures { OnOk result (numbers.new.items ≡ numbers.old.items ++ option_to_list number) }
{
    if let Some(number) = number {
        numbers.push(number)?;
    }
    Ok(())
}

impl Links {
    /// Returns the links between values none of which is in a group yet.
    pub fn new(alloc: Global, count: usize) -> Result<Links, AllocError>
        ensures first { IfOk result (λ links. links.first.items ≡ replicate (suc count) None) }
        ensures next { IfOk result (λ links. links.next.items ≡ replicate count None) }
    {
        let mut first = Vec::from_elem(alloc, None, count)?;
        first.push(None)?;
        Ok(Links {
            first,
            next: Vec::from_elem(alloc, None, count)?,
        })
    }

    /// Returns the first value of a group.
    pub fn first_of(&self, group: usize) -> Option<usize>
        ensures { result ≡ slice_index_or self.now.first.items group None }
    {
        match self.first.get(group) {
            Some(found) => *found,
            None => None,
        }
    }

    /// Returns the next value in a value's group.
    pub fn next_of(&self, number: usize) -> Option<usize>
        ensures { result ≡ slice_index_or self.now.next.items number None }
    {
        match self.next.get(number) {
            Some(found) => *found,
            None => None,
        }
    }

    /// Puts a value before all others in its group.
    pub fn put_first(&mut self, group: usize, number: usize)
        ensures first { self.new.first.items ≡ slice_set self.old.first.items group (Some number) }
        ensures next { self.new.next.items ≡ slice_set self.old.next.items number (slice_index_or self.old.first.items group None) }
    {
        let following = self.first_of(group);
        if let Some(next) = self.next.get_mut(number) {
            *next = following;
        }
        if let Some(first) = self.first.get_mut(group) {
            *first = Some(number);
        }
    }
}
