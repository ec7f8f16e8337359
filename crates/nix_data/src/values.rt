//! The values of a text that is being read, and where the next one is added.

ghost use Rattle.std.specs.Prelude.{◌≡◌, [], length, IfOk, string_bytes};
ghost use Rattle.rnix_green.specs.Tree.{item_of};
ghost use Rattle.nix_values.specs.Contents.{contents, plain_of};
ghost use Rattle.nix_values.specs.Preorder.{preorder};
ghost use Rattle.nix_values.specs.Building.{IsAddedLast};
ghost use Rattle.nix_data.specs.Added.{outermost, attribute, value_added, set_from, set_at, attribute_at, place_for, place_after};

use crate::no_data::{NoData, Reason};
use crate::scalars::{Stop, no_data};
use nix_values::{Builder, Data, Value};
use rnix::{SyntaxKind, SyntaxNode, TextRange};
use std::alloc::{AllocError, Global};
use std::mem;

/// A list or a set whose values are being read.
#[derive(Clone, Copy)]
pub struct Frame {
    /// The number of its value.
    pub node: usize,
    /// The number of values before its text. Values inside it with smaller numbers come from elsewhere in the text.
    pub first: usize,
}

/// A name with its range.
#[derive(Drop)]
pub struct Name {
    /// The name.
    pub text: String,
    /// Its range.
    pub range: TextRange,
}

/// An attribute of a set.
#[derive(Drop)]
pub struct Entry {
    /// The number of the set.
    pub set: usize,
    /// Its name.
    pub name: Name,
}

/// Where the next value is added.
#[derive(Drop)]
pub enum Target {
    /// As the outermost value, which is the first one.
    Outermost,
    /// Inside a list, or among the entries of a set.
    Inside(Frame),
    /// As an attribute.
    Attribute(Entry),
    /// Nowhere: this place was for one value, which has been added.
    Nowhere,
}

impl Target {
    ghost use Rattle.nix_data.specs.Places.{place_of};

    /// Returns the place of the next node. The path of an entry has none, and only lists and sets have places for several nodes.
    pub fn for_node(&mut self, node: &SyntaxNode<'_>) -> Target
        ensures next { place_of result ≡ place_for (item_of node.now).kind (place_of self.old) }
        ensures left { place_of self.new ≡ place_after (item_of node.now).kind (place_of self.old) }
    {
        if node.kind() == SyntaxKind::NODE_ATTRPATH {
            return Target::Nowhere;
        }
        match self {
            Target::Inside(frame) => Target::Inside(*frame),
            _ => mem::replace(self, Target::Nowhere),
        }
    }
}

/// The values of a text that is being read.
#[derive(Drop)]
pub struct Values {
    builder: Builder,
    // The range of each value's name, or of the value if it has no name.
    name_ranges: Vec<TextRange>,
}

impl Values {
    ghost use Rattle.nix_data.specs.Places.{place_of, values_read};
    ghost use Rattle.nix_data.specs.Refusals.{Reads, Refuses};

    /// Returns an empty list of values.
    pub fn new(alloc: Global) -> Values
        ensures { values_read result ≡ [] }
    {
        Values {
            builder: Builder::new(alloc),
            name_ranges: Vec::new(alloc),
        }
    }

    /// Returns the list or set with a number, whose text begins here.
    pub fn frame(&self, node: usize) -> Frame
        ensures node { result.node ≡ node }
        ensures first { result.first ≡ length (values_read self.now) }
    {
        Frame {
            node,
            first: self.builder.len(),
        }
    }

    // Returns the error for an attribute that is defined twice.
    fn repeated(&self, range: TextRange, first: usize) -> Stop {
        Stop::NoData(NoData {
            reason: Reason::Repeated,
            range,
            first: self.name_ranges.get(first).copied(),
        })
    }

    // Adds a value to a list or a set, or as the outermost value.
    fn push(
        &mut self,
        alloc: Global,
        parent: Option<usize>,
        name: String,
        value: Value,
        range: TextRange,
    ) -> Result<usize, Stop>
        ensures added { IfOk result (λ number. IsAddedLast self.old.builder number parent (string_bytes name) (plain_of value) self.new.builder) }
        ensures accepted { Refuses result ⊥ }
    {
        self.name_ranges.push(range)?;
        Ok(self.builder.add(alloc, parent, name, value)?)
    }

    /// Adds an attribute, which the set may not have yet.
    pub fn add_attribute(
        &mut self,
        alloc: Global,
        entry: Entry,
        value: Value,
    ) -> Result<usize, Stop>
        ensures number { IfOk result (λ number. number ≡ length (values_read self.old)) }
        ensures added { Reads result
            (value_added (attribute entry.set (string_bytes entry.name.text)) (plain_of value) (values_read self.old))
            (λ number. values_read self.new) }
    {
        let Entry { set, name } = entry;
        match self.builder.attribute(set, name.text.as_str()) {
            Some(found) => Err(self.repeated(name.range, found)),
            None => self.push(alloc, Some(set), name.text, value, name.range),
        }
    }

    // Adds the outermost value, unless there is one already.
    fn add_outermost(
        &mut self,
        alloc: Global,
        value: Value,
        range: TextRange,
    ) -> Result<usize, Stop>
        ensures number { IfOk result (λ number. number ≡ length (values_read self.old)) }
        ensures added { Reads result (value_added outermost (plain_of value) (values_read self.old)) (λ number. values_read self.new) }
    {
        if self.builder.len() == 0 {
            self.push(alloc, None, String::new(alloc), value, range)
        } else {
            Err(self.repeated(range, 0))
        }
    }

    // Returns the outermost value if it is a set, adding the set if there is no value.
    fn outermost_set(&mut self, alloc: Global, range: TextRange) -> Result<usize, Stop>
        ensures { Reads result (set_at outermost (values_read self.old)) (λ number. (number, values_read self.new)) }
    {
        if self.builder.len() == 0 {
            self.push(alloc, None, String::new(alloc), Value::Set, range)
        } else if self.builder.is_set(0) {
            Ok(0)
        } else {
            Err(self.repeated(range, 0))
        }
    }

    /// Adds a value at a place; one without a name has this range.
    pub fn add(
        &mut self,
        alloc: Global,
        target: Target,
        value: Value,
        range: TextRange,
    ) -> Result<usize, Stop>
        ensures number { IfOk result (λ number. number ≡ length (values_read self.old)) }
        ensures added { Reads result (value_added (place_of target) (plain_of value) (values_read self.old)) (λ number. values_read self.new) }
    {
        match target {
            Target::Outermost => self.add_outermost(alloc, value, range),
            Target::Inside(frame) => {
                self.push(alloc, Some(frame.node), String::new(alloc), value, range)
            }
            Target::Attribute(entry) => self.add_attribute(alloc, entry, value),
            Target::Nowhere => Err(no_data(Reason::Repeated, range)),
        }
    }

    /// Returns the set that is an attribute, adding it if there is none. A set with a number below `first` is defined elsewhere in the text.
    pub fn set_of(&mut self, alloc: Global, entry: Entry, first: usize) -> Result<usize, Stop>
        ensures { Reads result
            (set_from first (attribute entry.set (string_bytes entry.name.text)) (values_read self.old)) (λ number. (number, values_read self.new)) }
    {
        let Entry { set, name } = entry;
        match self.builder.attribute(set, name.text.as_str()) {
            Some(found) if found >= first && self.builder.is_set(found) => Ok(found),
            Some(found) => Err(self.repeated(name.range, found)),
            None => self.push(alloc, Some(set), name.text, Value::Set, name.range),
        }
    }

    /// Returns the set at a place, adding it if there is none.
    pub fn set_at(&mut self, alloc: Global, target: Target, range: TextRange) -> Result<usize, Stop>
        ensures { Reads result (set_at (place_of target) (values_read self.old)) (λ number. (number, values_read self.new)) }
    {
        match target {
            Target::Attribute(entry) => self.set_of(alloc, entry, 0),
            Target::Outermost => self.outermost_set(alloc, range),
            other => self.add(alloc, other, Value::Set, range),
        }
    }

    /// Returns the place of an attribute that does not exist yet, or is a set. A set with a number below `first` is defined elsewhere in the text.
    pub fn attribute(&self, entry: Entry, first: usize) -> Result<Target, Stop>
        ensures { Reads result (attribute_at first entry.set (string_bytes entry.name.text) (values_read self.now)) place_of }
    {
        if let Some(found) = self.builder.attribute(entry.set, entry.name.text.as_str()) {
            if found < first || !self.builder.is_set(found) {
                return Err(self.repeated(entry.name.range, found));
            }
        }
        Ok(Target::Attribute(entry))
    }

    /// Returns the values as data.
    pub fn finish(self, alloc: Global) -> Result<Data, AllocError>
        ensures { IfOk result (λ found. contents found ≡ preorder (values_read self)) }
    {
        let Values { builder, .. } = self;
        builder.finish(alloc)
    }
}
