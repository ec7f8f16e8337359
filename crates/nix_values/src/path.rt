//! A part of data by its path.

use crate::data::{Data, Item, Value};
use crate::path_names::{PathName, names_of};
use std::alloc::{AllocError, Global};

// Returns the number of the attribute with a name, or of the item with an index, inside the value with a number.
fn inside(items: &[Item], number: usize, name: &PathName) -> Option<usize> {
    let around = items.get(number)?;
    let is_set = matches!(&around.value, Value::Set);
    let mut index = name.index;
    let start = number.saturating_add(1);
    for (item, found) in items.get(start..)?.iter().enumerate() {
        if found.depth <= around.depth {
            return None;
        }
        if found.depth > around.depth.saturating_add(1) {
            continue;
        }
        if is_set && found.name.as_str() == name.text.as_str() || !is_set && index == Some(0) {
            return Some(start.saturating_add(item));
        }
        index = index.map(|remaining| remaining.saturating_sub(1));
    }
    None
}

// Returns the number of the part to which a dotted path leads.
fn number_at(alloc: Global, items: &[Item], path: &str) -> Result<Option<usize>, AllocError> {
    let Some(names) = names_of(alloc, path)? else {
        return Ok(None);
    };
    let mut number = 0;
    for name in &names {
        match inside(items, number, name) {
            Some(found) => number = found,
            None => return Ok(None),
        }
    }
    Ok(Some(number))
}

// Returns the part that begins with the item with a number.
fn part_at(alloc: Global, items: Vec<Item>, start: usize) -> Result<Vec<Item>, AllocError> {
    let mut part = Vec::new(alloc);
    let mut depth = 0;
    for item in items.into_iter().skip(start) {
        if part.is_empty() {
            depth = item.depth;
            part.push(Item {
                depth: 0,
                name: String::new(alloc),
                value: item.value,
            })?;
        } else if item.depth > depth {
            part.push(Item {
                depth: item.depth.saturating_sub(depth),
                name: item.name,
                value: item.value,
            })?;
        } else {
            break;
        }
    }
    Ok(part)
}

impl Data {
    /// Returns the part to which a dotted path of names leads. The items of a list are named by their indices, from 0. A name in quotes is that of an
    /// attribute, and its escapes are those of a string in Nix.
    pub fn part(self, alloc: Global, path: &str) -> Result<Option<Data>, AllocError> {
        let Data { items } = self;
        match number_at(alloc, items.as_slice(), path)? {
            Some(start) => Ok(Some(Data {
                items: part_at(alloc, items, start)?,
            })),
            None => Ok(None),
        }
    }
}
