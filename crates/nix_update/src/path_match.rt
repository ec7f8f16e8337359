//! Comparing entries with a path.

ghost use Rattle.std.specs.Prelude.{◌≡◌, map, string_bytes, IfOk};
ghost use Rattle.rnix_base.specs.Select.{nodes_of};
ghost use Rattle.rnix.specs.NodeKinds.{is_attr};
ghost use Rattle.rnix.specs.Sums.{attr_node};
ghost use Rattle.nix_update.specs.PathMatches.{is_defining, is_removable, is_named, attrpath_match, inherit_match, path_match};

use rnix::SyntaxNode;
use rnix::ast::{AstNode, Attr, Attrpath, AttrpathValue, Inherit};
use std::alloc::{AllocError, Global};

/// How the names of an entry compare with the rest of a path.
#[derive(Clone, Copy, PartialEq, Eq, Debug)]
pub enum PathMatch {
    /// It binds something else.
    Mismatch,
    /// Its names are the first ones of the rest. The path continues at the name with this index.
    Prefix(usize),
    /// Its names are all of the rest.
    Exact,
    /// Its names continue after the rest: it defines a part of the attribute.
    Longer,
    /// It inherits the first name of the rest.
    Inherited,
}

impl PathMatch {
    /// Returns whether the entry defines the attribute of the path, or a part of it.
    pub fn is_defining(self) -> bool
        ensures { result ≡ is_defining self }
    {
        match self {
            PathMatch::Mismatch | PathMatch::Prefix(_) => false,
            PathMatch::Exact | PathMatch::Longer | PathMatch::Inherited => true,
        }
    }

    /// Returns whether the whole entry can be removed. An `inherit` cannot, because it may have names of other attributes.
    pub fn is_removable(self) -> bool
        ensures { result ≡ is_removable self }
    {
        match self {
            PathMatch::Exact | PathMatch::Longer => true,
            PathMatch::Mismatch | PathMatch::Prefix(_) | PathMatch::Inherited => false,
        }
    }
}

// Returns whether an attribute has this name.
fn is_named(alloc: Global, attr: &Attr<'_>, name: &str) -> Result<bool, AllocError>
    ensures { IfOk result (λ passes. passes ≡ is_named name.now (attr_node attr.now)) }
{
    match attr.static_name(alloc)? {
        Some(own) => Ok(own.as_str() == name),
        None => Ok(false),
    }
}

// Compares the path of an entry with the names of a path from the index `start` on.
fn attrpath_match(
    alloc: Global,
    names: &[String],
    start: usize,
    attrpath: &Attrpath<'_>,
) -> Result<PathMatch, AllocError>
    ensures { IfOk result (λ matched. matched ≡ attrpath_match (map string_bytes names.now) start (nodes_of is_attr attrpath.now)) }
{
    let mut at = start;
    for attr in attrpath.attrs() {
        match names.get(at) {
            Some(name) => {
                if !is_named(alloc, &attr, name.as_str())? {
                    return Ok(PathMatch::Mismatch);
                }
            }
            None => return Ok(PathMatch::Longer),
        }
        at += 1;
    }
    if at == names.len() {
        Ok(PathMatch::Exact)
    } else {
        Ok(PathMatch::Prefix(at))
    }
}

// Compares an `inherit` with a path whose next name is `name`.
fn inherit_match(alloc: Global, name: &str, inherit: &Inherit<'_>) -> Result<PathMatch, AllocError>
    ensures { IfOk result (λ matched. matched ≡ inherit_match name.now inherit.now) }
{
    for attr in inherit.attrs() {
        if is_named(alloc, &attr, name)? {
            return Ok(PathMatch::Inherited);
        }
    }
    Ok(PathMatch::Mismatch)
}

/// Compares a node in a set with the names of a path from the index `at` on.
pub fn match_entry(
    alloc: Global,
    names: &[String],
    at: usize,
    node: &SyntaxNode<'_>,
) -> Result<PathMatch, AllocError>
    ensures { IfOk result (λ matched. matched ≡ path_match (map string_bytes names.now) at node.now) }
{
    let Some(name) = names.get(at) else {
        return Ok(PathMatch::Mismatch);
    };
    if let Some(inherit) = Inherit::cast(node.clone()) {
        return inherit_match(alloc, name.as_str(), &inherit);
    }
    let Some(entry) = AttrpathValue::cast(node.clone()) else {
        return Ok(PathMatch::Mismatch);
    };
    match entry.attrpath() {
        Some(attrpath) => attrpath_match(alloc, names, at, &attrpath),
        None => Ok(PathMatch::Mismatch),
    }
}
