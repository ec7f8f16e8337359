//! Data as JSON.

ghost use Rattle.std.specs.Prelude.{IfOk, IfSome, string_bytes};
ghost use Rattle.nix_values.specs.Contents.{contents};
ghost use Rattle.nix_values.specs.Json.{IsJson};

use crate::data::{Data, Item, Value};
use crate::json_reader::data_of_json;
use crate::json_strings::push_json_string;
use crate::layout::push_indentation;
use crate::notation::{Notation, kept};
use std::alloc::{AllocError, Global};

// A text that is being written. For each open list or set, innermost last, it records whether it is a set.
#[derive(Drop)]
struct Writing {
    text: String,
    open: Vec<bool>,
}

impl Writing {
    // Begins a line.
    fn start_line(&mut self) -> Result<(), AllocError> {
        self.text.push('\n')?;
        push_indentation(self.open.len(), &mut self.text)
    }

    // Closes the lists and sets that are at least as deep as a depth.
    fn close(&mut self, depth: usize) -> Result<(), AllocError> {
        for _open in depth..self.open.len() {
            if let Some(is_set) = self.open.pop() {
                self.start_line()?;
                self.text.push(if is_set { '}' } else { ']' })?;
            }
        }
        Ok(())
    }

    // Begins a list or a set.
    fn write_opening(&mut self, is_set: bool, is_empty: bool) -> Result<(), AllocError> {
        self.text.push(if is_set { '{' } else { '[' })?;
        if is_empty {
            return self.text.push(if is_set { '}' } else { ']' });
        }
        self.open.push(is_set)?;
        Ok(())
    }

    // Writes a value.
    fn write_value(&mut self, value: &Value, is_empty: bool) -> Result<(), AllocError> {
        match value {
            Value::Null => self.text.push_str("null"),
            Value::Bool(is_true) => self.text.push_str(if *is_true { "true" } else { "false" }),
            Value::Integer(number) => write!(self.text, "{number}"),
            Value::Float(digits) => self.text.push_str(digits.as_str()),
            Value::Text(value) => push_json_string(value.as_str(), &mut self.text),
            Value::List => self.write_opening(false, is_empty),
            Value::Set => self.write_opening(true, is_empty),
        }
    }

    // Writes an item, given whether it is empty and whether it is the first one in its list or set.
    fn write(&mut self, item: &Item, is_first: bool, is_empty: bool) -> Result<(), AllocError> {
        self.close(item.depth)?;
        if !self.open.is_empty() {
            self.text.push_str(if is_first { "" } else { "," })?;
            self.start_line()?;
        }
        if self.open.last() == Some(&true) {
            push_json_string(item.name.as_str(), &mut self.text)?;
            self.text.push_str(": ")?;
        }
        self.write_value(&item.value, is_empty)
    }
}

// Returns data as JSON.
fn written(alloc: Global, data: &Data) -> Result<String, AllocError> {
    let mut writing = Writing {
        text: String::new(alloc),
        open: Vec::new(alloc),
    };
    let mut depth_before = 0;
    for (number, item) in data.items.iter().enumerate() {
        let next = data.items.get(number.saturating_add(1));
        let is_empty = next.is_none_or(|next| next.depth <= item.depth);
        writing.write(item, depth_before < item.depth, is_empty)?;
        depth_before = item.depth;
    }
    writing.close(0)?;
    writing.text.push('\n')?;
    Ok(writing.text)
}

// JSON as a notation for data.
struct Json;

impl Notation for Json {
    ghost use Rattle.nix_values.specs.Json.{IsJson};

    ghost reads = { IsJson };

    fn read(&self, alloc: Global, text: &str) -> Result<Option<Data>, AllocError> {
        match data_of_json(alloc, text)? {
            Ok(data) => Ok(Some(data)),
            Err(_error) => Ok(None),
        }
    }
}

/// Returns data as JSON, or `None` if the JSON does not read as the same data.
pub fn json_of(alloc: Global, whole: &Data) -> Result<Option<String>, AllocError>
    ensures { IfOk result (λ made. IfSome made (λ text. IsJson (string_bytes text) (contents whole.now))) }
{
    let text = written(alloc, whole)?;
    kept(alloc, &Json, text, whole)
}
