//! Data written as JSON and as Nix, or refused.

use crate::digest::{START, with_written};
use crate::sample_data::{NAMES, WORDS, nested, pair, text_alone, word};
use nix_data::nix_of;
use nix_values::{Data, Value, json_of};
use std::alloc::{AllocError, Global};
use std::test::Fail;

// Adds data to a digest, as JSON and as Nix.
fn with_texts(alloc: Global, digest: u64, data: &Data) -> Result<u64, AllocError> {
    let digest = with_written(digest, &json_of(alloc, data)?);
    Ok(with_written(digest, &nix_of(alloc, data)?))
}

#[test]
fn words_are_written_as_stored(rt: HostRuntime) -> Result<(), Fail> {
    let mut digest = START;
    for one in WORDS {
        for (other, is_float) in [("2.5", false), ("", false), ("2.5", true), ("", true)] {
            for depths in [(0, 1), (1, 1), (1, 0), (1, 2), (2, 1)] {
                let alloc = rt.alloc();
                let values = (word(alloc, is_float, one)?, word(alloc, is_float, other)?);
                let data = pair(alloc, Value::List, ("", ""), values, depths)?;
                digest = with_texts(alloc, digest, &data)?;
            }
        }
    }
    assert!(rt; digest == 0x867e_2f64_0802_fce3, "{digest}");
    Ok(())
}

#[test]
fn names_are_written_as_stored(rt: HostRuntime) -> Result<(), Fail> {
    let mut digest = START;
    for one in NAMES {
        for other in ["", "a", "\0", "\\", "null"] {
            for (first, depth) in [
                (Value::Set, 1),
                (Value::Set, 2),
                (Value::Null, 1),
                (Value::List, 2),
                (Value::Bool(false), 2),
            ] {
                let alloc = rt.alloc();
                let values = (first, Value::Set);
                let data = pair(alloc, Value::Set, (one, other), values, (1, depth))?;
                digest = with_texts(alloc, digest, &data)?;
            }
        }
    }
    assert!(rt; digest == 0x1ed1_4a08_c704_e9fd, "{digest}");
    Ok(())
}

#[test]
fn integers_and_lists_are_written_as_stored(rt: HostRuntime) -> Result<(), Fail> {
    let mut digest = START;
    for number in [i64::MIN, i64::MIN + 1, -1, 0, 1, i64::MAX] {
        for other in [0, i64::MIN] {
            for around in [Value::Set, Value::List] {
                let alloc = rt.alloc();
                let values = (Value::Integer(number), Value::Integer(other));
                let data = pair(alloc, around, ("a", "b"), values, (1, 1))?;
                digest = with_texts(alloc, digest, &data)?;
            }
        }
    }
    for levels in [
        0, 1, 2, 31, 32, 33, 250, 511, 512, 513, 514, 1023, 1024, 1025,
    ] {
        let data = nested(rt.alloc(), levels)?;
        digest = with_texts(rt.alloc(), digest, &data)?;
    }
    assert!(rt; digest == 0xfc7c_dda2_ebe9_e261, "{digest}");
    Ok(())
}

// Letters that have escapes, that begin or end those, and that have none.
const LETTERS: [&str; 13] = [
    "\"", "\\", "\n", "\r", "\t", "$", "{", "${", "a", "\u{e9}", "\u{8a9e}", "\0", "",
];

#[test]
fn letters_are_quoted_as_stored(rt: HostRuntime) -> Result<(), Fail> {
    let mut digest = START;
    for first in LETTERS {
        for second in LETTERS {
            for third in LETTERS {
                let value = format!(in rt.alloc(); "{first}{second}{third}{second}")?;
                let data = text_alone(rt.alloc(), value.as_str())?;
                digest = with_texts(rt.alloc(), digest, &data)?;
            }
        }
    }
    assert!(rt; digest == 0x3424_c71e_f90d_59fb, "{digest}");
    Ok(())
}
