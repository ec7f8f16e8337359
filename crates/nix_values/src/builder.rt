//! Data that is being read: values with their parents, in the order in which they were found.

ghost use Rattle.std.specs.Prelude.{◌≡◌, ℕ, ◌<◌, [], ◌∷◌, ◌++◌, length, map, false, IsTrue, IfOk, OnOk, OnErr, string_bytes};
ghost use Rattle.std.proofs.Props.{props};
ghost use Rattle.nix_values.specs.Contents.{Plain, plain_of, contents};
ghost use Rattle.nix_values.specs.Built.{built_of, is_set_at, attribute_of};
ghost use Rattle.nix_values.specs.Index.{IsIndex, IsIndexWith};
ghost use Rattle.nix_values.specs.Preorder.{preorder};
ghost use Rattle.nix_values.specs.ValueDepths.{HaveDepths};

use crate::attributes::Attributes;
use crate::data::{Data, Value};
use crate::nodes::{Node, Nodes};
use std::alloc::{AllocError, Global};

/// Data that is being read.
#[derive(Drop)]
pub struct Builder {
    values: Nodes,
    attributes: Attributes,
    ghost index: { IsIndex (map built_of values.nodes.items) attributes } by { Prim.hlevel props },
    ghost depths: { HaveDepths values.nodes.items } by { Prim.hlevel props },
}

// Makes the next value an attribute, if it is inside a set.
fn attach(
    alloc: Global,
    values: &Nodes,
    attributes: &mut Attributes,
    parent: Option<usize>,
    name: &str,
) -> Result<(), AllocError>
    requires index { IsIndex (map built_of values.now.nodes.items) attributes.old }
    requires room { length values.now.nodes.items < usize.MAX }
    ensures attached { OnOk result (IsIndexWith (map built_of values.now.nodes.items) parent name.now attributes.new) }
    ensures kept { OnErr result (IsIndex (map built_of values.now.nodes.items) attributes.new) }
{
    let Some(set) = parent else {
        return Ok(());
    };
    if !values.is_set(set) {
        return Ok(());
    }
    attributes.insert(alloc, values, set, name, values.nodes.len())
}

impl Builder {
    ghost use Rattle.nix_values.specs.Building.{values_in, IsAddedLast};

    /// Returns an empty builder.
    pub fn new(alloc: Global) -> Builder
        ensures { values_in result ≡ [] }
    {
        Builder {
            values: Nodes {
                nodes: Vec::new(alloc),
            },
            attributes: Attributes::new(alloc),
        }
    }

    /// Returns the number of values so far.
    pub fn len(&self) -> usize
        ensures { result ≡ length (values_in self.now) }
    {
        self.values.nodes.len()
    }

    /// Returns whether a value is a set.
    pub fn is_set(&self, node: usize) -> bool
        ensures { result ≡ is_set_at (values_in self.now) node }
    {
        self.values.is_set(node)
    }

    /// Returns the attribute with a name in a set.
    pub fn attribute(&self, set: usize, name: &str) -> Option<usize>
        ensures { result ≡ attribute_of (values_in self.now) set name.now }
    {
        self.attributes.get(&self.values, set, name)
    }

    /// Adds a value to a list or a set, or as an outermost value.
    pub fn add(
        &mut self,
        alloc: Global,
        parent: Option<usize>,
        name: String,
        value: Value,
    ) -> Result<usize, AllocError>
        ensures added { IfOk result (λ number. IsAddedLast self.old number parent (string_bytes name) (plain_of value) self.new) }
        ensures kept { OnErr result (values_in self.new ≡ values_in self.old) }
    {
        let node = self.values.nodes.len();
        let depth = self.values.depth_inside(parent);
        self.values.nodes.reserve(1)?;
        attach(
            alloc,
            &self.values,
            &mut self.attributes,
            parent,
            name.as_str(),
        )?;
        self.values.nodes.push(Node {
            parent,
            depth,
            name,
            value,
        })?;
        Ok(node)
    }

    /// Returns the data: each value is followed by those inside it, in the order in which they were added.
    pub fn finish(self, alloc: Global) -> Result<Data, AllocError>
        ensures { IfOk result (λ found. contents found ≡ preorder (values_in self)) }
    {
        let Builder { values, .. } = self;
        Ok(Data {
            items: values.into_items(alloc)?,
        })
    }
}
