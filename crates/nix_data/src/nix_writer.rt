//! Data as a Nix text.

ghost use Rattle.std.specs.Prelude.{◌≡◌, IfOk, IfSome, IsTrue, string_bytes};
ghost use Rattle.nix_values.specs.Contents.{contents};
ghost use Rattle.nix_data.specs.Written.{IsMeant, IsWritten};

use crate::meaning::items_after;
use crate::names::push_name;
use crate::nix_reader::data_in;
use nix_values::{Data, Item, Notation, Value, kept, push_indentation};
use rnix::Root;
use rnix::ast::AstNode;
use rnix_base::push_quoted;
use std::alloc::{AllocError, Global};

// The largest number of levels of values that `nix_of` checks. The parser accepts fewer.
const LEVELS: usize = 1024;

// A text that is being written, and for each open list or set whether it is a set, innermost last.
#[derive(Drop)]
struct Writing {
    alloc: Global,
    text: String,
    open: Vec<bool>,
}

// Returns whether a value begins with a sign.
fn is_negative(value: &Value) -> bool {
    match value {
        Value::Integer(number) => *number < 0,
        Value::Float(digits) => digits.starts_with('-'),
        _ => false,
    }
}

impl Writing {
    // Ends the line of a value.
    fn end_line(&mut self) -> Result<(), AllocError> {
        match self.open.last() {
            Some(true) => self.text.push_str(";\n"),
            _ => self.text.push('\n'),
        }
    }

    // Closes the lists and sets that are deeper than a depth.
    fn close(&mut self, depth: usize) -> Result<(), AllocError> {
        for _open in depth..self.open.len() {
            if let Some(is_set) = self.open.pop() {
                push_indentation(self.open.len(), &mut self.text)?;
                self.text.push(if is_set { '}' } else { ']' })?;
                self.end_line()?;
            }
        }
        Ok(())
    }

    // Begins a list or a set.
    fn write_opening(&mut self, is_set: bool, is_empty: bool) -> Result<(), AllocError> {
        self.text.push(if is_set { '{' } else { '[' })?;
        if is_empty {
            self.text.push_str(if is_set { " }" } else { " ]" })?;
            return self.end_line();
        }
        self.open.push(is_set)?;
        self.text.push('\n')
    }

    // Writes a value other than a list or a set.
    fn write_scalar(&mut self, value: &Value) -> Result<(), AllocError> {
        match value {
            Value::Null => self.text.push_str("null"),
            Value::Bool(is_true) => self.text.push_str(if *is_true { "true" } else { "false" }),
            Value::Integer(number) => self
                .text
                .push_str(format!(in self.alloc; "{number}")?.as_str()),
            Value::Float(digits) => self.text.push_str(digits.as_str()),
            Value::Text(value) => push_quoted(value.as_str(), &mut self.text),
            Value::List | Value::Set => Ok(()),
        }
    }

    // Writes a value other than a list or a set, on a line. In a list, a negative number is put in parentheses.
    fn write_line(&mut self, value: &Value) -> Result<(), AllocError> {
        let is_wrapped = is_negative(value) && self.open.last() == Some(&false);
        self.text.push_str(if is_wrapped { "(" } else { "" })?;
        self.write_scalar(value)?;
        self.text.push_str(if is_wrapped { ")" } else { "" })?;
        self.end_line()
    }

    // Writes an item; `is_empty` tells whether no item is inside it.
    fn write(&mut self, item: &Item, is_empty: bool) -> Result<(), AllocError> {
        self.close(item.depth)?;
        push_indentation(self.open.len(), &mut self.text)?;
        if self.open.last() == Some(&true) {
            push_name(item.name.as_str(), &mut self.text)?;
            self.text.push_str(" = ")?;
        }
        match &item.value {
            Value::Set => self.write_opening(true, is_empty),
            Value::List => self.write_opening(false, is_empty),
            value => self.write_line(value),
        }
    }
}

// Writes data as a Nix text.
fn written(alloc: Global, data: &Data) -> Result<String, AllocError> {
    let mut writing = Writing {
        alloc,
        text: String::new(alloc),
        open: Vec::new(alloc),
    };
    for (number, item) in data.items.iter().enumerate() {
        let next = data.items.get(number.saturating_add(1));
        let is_empty = next.is_none_or(|next| next.depth <= item.depth);
        writing.write(item, is_empty)?;
    }
    writing.close(0)?;
    Ok(writing.text)
}

// Returns whether the expression of a tree means the data.
#[tactic(auto, using(crate::proofs::WrittenLemmas::meant))]
fn is_meant(alloc: Global, root: &Root<'_>, whole: &Data) -> Result<bool, AllocError>
    ensures { IfOk result (λ is_meant. IsTrue is_meant → IsMeant root.now (contents whole.now)) }
{
    let Some(expr) = root.expr() else {
        return Ok(false);
    };
    match items_after(alloc, LEVELS, 0, "", expr.syntax(), whole.items.as_slice())? {
        Some(rest) => Ok(rest.is_empty()),
        None => Ok(false),
    }
}

// Nix as a notation for data.
struct Nix;

impl Notation for Nix {
    ghost use Rattle.nix_data.specs.Written.{IsWritten};

    ghost reads = { IsWritten };

    #[tactic(auto, using(crate::proofs::WrittenLemmas::written))]
    fn read(&self, alloc: Global, text: &str) -> Result<Option<Data>, AllocError> {
        let parse = Root::parse(alloc, text)?;
        let Ok(root) = parse.ok() else {
            return Ok(None);
        };
        let Ok(data) = data_in(alloc, root.syntax(), false)? else {
            return Ok(None);
        };
        if is_meant(alloc, &root, &data)? {
            Ok(Some(data))
        } else {
            Ok(None)
        }
    }
}

/// Returns data as a Nix text, or `None` if the text would be read as other data. The text has no errors, and its expression means the data.
pub fn nix_of(alloc: Global, whole: &Data) -> Result<Option<String>, AllocError>
    ensures { IfOk result (λ made. IfSome made (λ text. IsWritten (string_bytes text) (contents whole.now))) }
{
    kept(alloc, &Nix, written(alloc, whole)?, whole)
}
