//! JSON texts of all pieces, alone and in one another: the data that are read, or the error that is reported and where.

use crate::digest::{START, with_json};
use std::alloc::{AllocError, Global};
use std::test::Fail;

// How many pieces there are.
const COUNT: usize = 32;

// The pieces. The first half of them are also combined in longer sequences.
const PIECES: [&str; COUNT] = [
    "{",
    "}",
    "[",
    "]",
    ",",
    ":",
    "\"a\"",
    "\"a\\u0062\"",
    "1",
    "1.",
    "-",
    "true",
    " ",
    "\u{a0}",
    "\u{1}",
    "\"a",
    "\"b\"",
    "\"\\u0000\"",
    "\"\\ud83d\\ude00\"",
    "\"\\ud83d\"",
    "-0",
    "0",
    "01",
    "1.5e3",
    "1e400",
    "9223372036854775807",
    "9223372036854775808",
    "-9223372036854775808",
    "-9223372036854775809",
    "nul",
    "\t\r\n",
    "\u{e9}",
];

// Returns the pieces that the digits of a number choose.
fn joined(alloc: Global, number: usize, digits: usize) -> Result<String, AllocError> {
    let mut text = String::new(alloc);
    let mut remaining = number;
    for _digit in 0..digits {
        text.push_str(PIECES[remaining % COUNT])?;
        remaining /= COUNT;
    }
    Ok(text)
}

#[test]
fn rows_of_pieces_are_read_as_stored(rt: HostRuntime) -> Result<(), Fail> {
    let mut digest = START;
    for (digits, count) in [(0, 1), (1, 32), (2, 1024), (3, 32_768)] {
        for number in 0..count {
            let text = joined(rt.alloc(), number, digits)?;
            digest = with_json(rt.alloc(), digest, text.as_str())?;
        }
    }
    assert!(rt; digest == 0x5258_e9c5_2483_c220, "{digest}");
    Ok(())
}

#[test]
fn longer_rows_of_pieces_are_read_as_stored(rt: HostRuntime) -> Result<(), Fail> {
    let mut digest = START;
    for ones in 0..256 {
        for others in 0..256 {
            let (alloc, half) = (rt.alloc(), COUNT / 2);
            let one = joined(alloc, ones / half * COUNT + ones % half, 2)?;
            let other = joined(alloc, others / half * COUNT + others % half, 2)?;
            let text = format!(in alloc; "{one}{other}")?;
            digest = with_json(alloc, digest, text.as_str())?;
        }
    }
    assert!(rt; digest == 0x8f27_a762_7be8_0c97, "{digest}");
    Ok(())
}

#[test]
fn pieces_in_lists_and_objects_are_read_as_stored(rt: HostRuntime) -> Result<(), Fail> {
    let mut digest = START;
    for (digits, count) in [(1, 1024), (2, 8192)] {
        for number in 0..count {
            let alloc = rt.alloc();
            let one = joined(alloc, number, digits)?;
            let other = joined(alloc, number / COUNT, 1)?;
            let (one, other) = (one.as_str(), other.as_str());
            for text in [
                format!(in alloc; "{{\"a\":{one},\"b\":[{other}]}}")?,
                format!(in alloc; "[{one},{other}]")?,
                format!(in alloc; "{{\"a\":1,\"a\":{one}}}")?,
                format!(in alloc; "{{{other}:{one}}}")?,
            ] {
                digest = with_json(alloc, digest, text.as_str())?;
            }
        }
    }
    assert!(rt; digest == 0x8d3a_1fcb_feb6_c4ed, "{digest}");
    Ok(())
}

// Characters and escapes that end, begin or are parts of strings.
const PARTS: [&str; 17] = [
    "",
    "a",
    "\"",
    "\\",
    "/",
    "u",
    "\u{e9}",
    "\u{1f600}",
    "\n",
    "\0",
    "\u{8}",
    "\u{1f}",
    " ",
    "\u{7f}",
    "\\u00e9",
    "\\ud83d",
    "\\ude00",
];

#[test]
fn strings_are_read_as_stored(rt: HostRuntime) -> Result<(), Fail> {
    let mut digest = START;
    for one in PARTS {
        for two in PARTS {
            for three in PARTS {
                let text = format!(in rt.alloc(); "\"{one}{two}{three}\"")?;
                digest = with_json(rt.alloc(), digest, text.as_str())?;
            }
        }
    }
    assert!(rt; digest == 0xa560_b730_0021_f8e8, "{digest}");
    Ok(())
}

// Adds a piece, `times` times.
fn push_times(text: &mut String, piece: &str, times: usize) -> Result<(), AllocError> {
    for _time in 0..times {
        text.push_str(piece)?;
    }
    Ok(())
}

// A text with `before` and `after` around it, `times` times.
fn nested(
    alloc: Global,
    times: usize,
    (before, after): (&str, &str),
    inside: &str,
) -> Result<String, AllocError> {
    let mut text = String::new(alloc);
    push_times(&mut text, before, times)?;
    text.push_str(inside)?;
    push_times(&mut text, after, times)?;
    Ok(text)
}

const AROUND: [(&str, &str); 7] = [
    ("[", "]"),
    ("[", ""),
    ("[1,", ",2]"),
    ("[[", "]]"),
    ("{\"a\":", "}"),
    ("{\"a\":", "]"),
    ("{\"a\":1,\"b\":[", "],\"c\":{}}"),
];

#[test]
fn nested_texts_are_read_as_stored(rt: HostRuntime) -> Result<(), Fail> {
    let mut digest = START;
    for times in [0, 1, 2, 256, 511, 512, 513] {
        for around in AROUND {
            for inside in ["", "1", "{\"a\":[]}", "\""] {
                let text = nested(rt.alloc(), times, around, inside)?;
                digest = with_json(rt.alloc(), digest, text.as_str())?;
            }
        }
    }
    assert!(rt; digest == 0x934e_a88e_7e01_c8a1, "{digest}");
    Ok(())
}
