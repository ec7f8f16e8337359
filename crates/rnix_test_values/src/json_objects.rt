//! JSON objects with few and many names, which are repeated or not: the data that are read, or the first name that an object has twice.

use crate::digest::{START, with_json};
use std::alloc::{AllocError, Global};
use std::test::Fail;

// How many attributes the objects have: few, and numbers around those at which a table of them grows.
const COUNTS: [usize; 20] = [
    0, 1, 2, 3, 7, 8, 9, 15, 16, 17, 23, 24, 25, 31, 32, 33, 63, 64, 65, 70,
];

// The number in the name of an attribute: the numbers of 71 attributes differ, and have no order.
fn name_of(attribute: usize) -> usize {
    attribute % 71 * 37 % 71
}

// An object of `count` attributes, and then `last`.
fn object(alloc: Global, prefix: &str, count: usize, last: &str) -> Result<String, AllocError> {
    let mut text = String::from_str(alloc, "{")?;
    for attribute in 0..count {
        let name = name_of(attribute);
        write!(text, "\"{prefix}{name}\":{attribute},")?;
    }
    text.push_str(last)?;
    text.push('}')?;
    Ok(text)
}

// Adds an object to a digest, alone and among others.
fn with_object(alloc: Global, digest: u64, text: &str, other: &str) -> Result<u64, AllocError> {
    let list = format!(in alloc; "[{other},{text},{text}]")?;
    let set = format!(in alloc; "{{\"k0\":{other},\"k1\":{{\"k0\":{text}}},\"k2\":0}}")?;
    let digest = with_json(alloc, digest, text)?;
    let digest = with_json(alloc, digest, list.as_str())?;
    with_json(alloc, digest, set.as_str())
}

#[test]
fn objects_are_read_as_stored(rt: HostRuntime) -> Result<(), Fail> {
    let mut digest = START;
    for prefix in ["k", "a-name-of-more-than-thirty-two-bytes-"] {
        for count in COUNTS {
            let other = object(rt.alloc(), prefix, count, "\"k\":[]")?;
            for last in ["\"k\":{}", "\"k\":{\"k0\":{}},\"k\":0", ""] {
                let text = object(rt.alloc(), prefix, count, last)?;
                digest = with_object(rt.alloc(), digest, text.as_str(), other.as_str())?;
            }
        }
    }
    assert!(rt; digest == 0x831d_9a7a_bf9c_39a5, "{digest}");
    Ok(())
}

#[test]
fn repeated_names_are_refused_as_stored(rt: HostRuntime) -> Result<(), Fail> {
    let mut digest = START;
    for (prefix, names) in [("k", "k"), ("\\u006b", "k"), ("\\u00e9", "\u{e9}")] {
        for count in COUNTS {
            let other = object(rt.alloc(), "k", count, "\"k\":1.5")?;
            for attribute in [0, count / 2, count.saturating_sub(1), count] {
                let name = name_of(attribute);
                let last = format!(in rt.alloc(); "\"{prefix}{name}\":null,\"k\":[]")?;
                let text = object(rt.alloc(), names, count, last.as_str())?;
                digest = with_object(rt.alloc(), digest, text.as_str(), other.as_str())?;
            }
        }
    }
    assert!(rt; digest == 0xdfa9_47b0_d1ef_8a9d, "{digest}");
    Ok(())
}
