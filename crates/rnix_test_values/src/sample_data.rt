//! Small data to be written.

use nix_values::{Data, Item, Value};
use std::alloc::{AllocError, Global};

/// Returns an item with a name.
pub fn item(alloc: Global, depth: usize, name: &str, value: Value) -> Result<Item, AllocError> {
    Ok(Item {
        depth,
        name: String::from_str(alloc, name)?,
        value,
    })
}

/// Returns a float with these digits if `is_float` is true, otherwise a text.
pub fn word(alloc: Global, is_float: bool, word: &str) -> Result<Value, AllocError> {
    let word = String::from_str(alloc, word)?;
    Ok(if is_float {
        Value::Float(word)
    } else {
        Value::Text(word)
    })
}

/// Returns data of a value and two named values after it, with the given depths.
pub fn pair(
    alloc: Global,
    around: Value,
    names: (&str, &str),
    values: (Value, Value),
    depths: (usize, usize),
) -> Result<Data, AllocError> {
    let mut items = Vec::new(alloc);
    items.push(item(alloc, 0, "", around)?)?;
    items.push(item(alloc, depths.0, names.0, values.0)?)?;
    items.push(item(alloc, depths.1, names.1, values.1)?)?;
    Ok(Data { items })
}

/// Returns `levels` lists in one another.
pub fn nested(alloc: Global, levels: usize) -> Result<Data, AllocError> {
    let mut items = Vec::new(alloc);
    for depth in 0..levels {
        items.push(item(alloc, depth, "", Value::List)?)?;
    }
    Ok(Data { items })
}

/// Returns data of a text alone.
pub fn text_alone(alloc: Global, text: &str) -> Result<Data, AllocError> {
    let mut items = Vec::new(alloc);
    items.push(item(alloc, 0, "", word(alloc, false, text)?)?)?;
    Ok(Data { items })
}

/// Texts and digits of floats, also such as are floats neither in JSON nor in Nix.
pub const WORDS: [&str; 34] = [
    "",
    "0",
    "a",
    "1.5",
    "-1.5",
    "- 1.5",
    ".5",
    "1.",
    "1e5",
    "1.5e3",
    "1.5E+3",
    "1.5e400",
    "0.0",
    "-0.0",
    "0.0e-400",
    "1.0e-400",
    "5.0e-324",
    "01.5",
    "NaN",
    "1.5 ",
    "(1.5)",
    "1.5,2.5",
    "1.5;b=1.5",
    "\0",
    "a\0b",
    "\r\n\t",
    "\r\n\t\u{8}\u{c}\u{1f}",
    "\"\\",
    "\"\\/",
    "${x}",
    "$${''",
    "\u{e9}\u{20ac}",
    "null",
    "true",
];

/// Names of attributes.
pub const NAMES: [&str; 15] = [
    "", "a", "b", "or", "rec", "__curPos", "a.b", "${x}", "\0", "a\r", "\"", "\\", "\u{e9}",
    "null", "1",
];
