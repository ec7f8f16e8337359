//! Ranges as values.

use rnix_tree::TextRange;
use std::alloc::{AllocError, Global};
use std::cmp::Ordering;
use std::collections::HashMap;
use std::ops::Range;
use std::test::Fail;

// A name and its range.
#[derive(Clone, Copy)]
struct Name<'t> {
    text: &'t str,
    range: TextRange,
}

// The last of the names that comes after an offset.
fn last_behind<'t>(names: &[Name<'t>], offset: usize) -> Option<Name<'t>> {
    let mut last = None;
    for name in names {
        if offset <= name.range.start() {
            last = Some(*name);
        }
    }
    last
}

// The text of a name, if it has this range.
fn text_there<'t>(name: Option<Name<'t>>, range: TextRange) -> Option<&'t str> {
    let name = name?;
    if name.range == range {
        return Some(name.text);
    }
    None
}

#[test]
fn ranges_stand_beside_references(rt: HostRuntime) {
    let (a, b) = (TextRange::at(0, 1), TextRange::new(4, 5));
    let names = [
        Name {
            text: "a",
            range: a,
        },
        Name {
            text: "b",
            range: b,
        },
    ];
    assert!(rt; text_there(last_behind(&names, 2), b) == Some("b"));
}

// The text for a range in a map that has the range of `ab` and the empty range after it.
fn kept(alloc: Global, range: TextRange) -> Result<Option<&'static str>, AllocError> {
    let mut texts = HashMap::new(alloc);
    texts.insert(TextRange::up_to(2), "ab")?;
    texts.insert(TextRange::empty(2), "")?;
    Ok(texts.get(&range).copied())
}

#[test]
fn ranges_are_keys(rt: HostRuntime) -> Result<(), Fail> {
    assert!(rt; kept(rt.alloc(), TextRange::new(0, 2))? == Some("ab"));
    assert!(rt; kept(rt.alloc(), TextRange::default())? == None);
    Ok(())
}

// Whether the intersections, covers and orderings of the ranges from 1 to 4, from 3 to 6 and from 4 to 6 are right.
fn meet(left: TextRange, right: TextRange) -> bool {
    let touched = TextRange::new(4, 6);
    left.intersect(right) == Some(TextRange::new(3, 4))
        && left.intersect(touched) == Some(TextRange::empty(4))
        && left.intersect(TextRange::new(5, 6)) == None
        && left.cover(right) == TextRange::new(1, 6)
        && left.cover_offset(9) == TextRange::new(1, 9)
        && left.ordering(right) == Ordering::Equal
        && left.ordering(touched) == Ordering::Less
}

// Whether the left range can be moved to the right one, but not to before the start of the text.
fn are_moved(left: TextRange, right: TextRange) -> bool {
    left.checked_sub(2) == None && left.checked_add(2) == Some(right) && Range::from(left) == (1..4)
}

#[test]
fn ranges_meet(rt: HostRuntime) {
    let (left, right) = (TextRange::new(1, 4), TextRange::new(3, 6));
    assert!(rt; meet(left, right));
    assert!(rt; are_moved(left, right));
}
