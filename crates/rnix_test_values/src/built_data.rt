//! Data of values that are added to a builder in any order.

use crate::digest::{START, with_data};
use nix_values::{Builder, Value};
use std::alloc::{AllocError, Global};
use std::test::Fail;

// Values of several kinds.
fn value(alloc: Global, kind: usize) -> Result<Value, AllocError> {
    Ok(match kind {
        0 => Value::Null,
        1 => Value::List,
        2 => Value::Text(String::from_str(alloc, "text")?),
        _ => Value::Set,
    })
}

// Random numbers.
#[derive(Drop)]
struct Numbers {
    last: u64,
}

impl Numbers {
    // The next number below `end`.
    fn below(&mut self, end: usize) -> usize {
        self.last = self
            .last
            .wrapping_mul(6_364_136_223_846_793_005)
            .wrapping_add(1_442_695_040_888_963_407);
        (self.last >> 33) as usize % end.max(1)
    }

    // A parent for the next of `count` values: one of the first four, any of them, a number without a value yet, or none.
    fn parent(&mut self, count: usize) -> Option<usize> {
        match self.below(9) {
            0 => None,
            1 => Some(count.saturating_add(self.below(3))),
            2..=4 => Some(self.below(4)),
            _ => Some(self.below(count)),
        }
    }
}

// Adds to a digest the data of `count` values, chosen by the seed `first`.
fn with_built(alloc: Global, digest: u64, first: u64, count: usize) -> Result<u64, AllocError> {
    let mut builder = Builder::new(alloc);
    let mut numbers = Numbers { last: first };
    for node in 0..count {
        let parent = numbers.parent(node);
        let name = format!(in alloc; "name-{}", numbers.below(20))?;
        let value = value(alloc, numbers.below(6))?;
        let _node = builder.add(alloc, parent, name, value)?;
    }
    Ok(with_data(digest, &builder.finish(alloc)?))
}

#[test]
fn values_in_any_order_are_put_in_the_stored_one(rt: HostRuntime) -> Result<(), Fail> {
    let mut digest = START;
    for (repeats, count) in [(60, 12), (20, 40), (2, 80)] {
        for first in 0..repeats {
            digest = with_built(rt.alloc(), digest, first, count)?;
        }
    }
    assert!(rt; digest == 0x62c0_773d_2f27_bfde, "{digest}");
    Ok(())
}

#[test]
fn values_follow_the_list_or_set_that_they_are_inside(rt: HostRuntime) -> Result<(), Fail> {
    let alloc = rt.alloc();
    let mut builder = Builder::new(alloc);
    let parents = [
        None,
        Some(0),
        Some(0),
        Some(1),
        Some(2),
        Some(1),
        Some(0),
        Some(3),
    ];
    for (node, parent) in parents.iter().enumerate() {
        let name = format!(in alloc; "{node}")?;
        let _node = builder.add(alloc, *parent, name, Value::Set)?;
    }
    let data = builder.finish(alloc)?;
    for (item, (name, depth)) in data.items.iter().zip([
        ("0", 0),
        ("1", 1),
        ("3", 2),
        ("7", 3),
        ("5", 2),
        ("2", 1),
        ("4", 2),
        ("6", 1),
    ]) {
        assert!(rt; item.name.as_str() == name && item.depth == depth, "{name}");
    }
    assert!(rt; data.items.len() == parents.len());
    Ok(())
}
