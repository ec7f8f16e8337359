//! The dotted path of an attribute.

ghost use Rattle.std.specs.Prelude.{◌≡◌, ◌++◌, ◌-◌, ℕ, List, Some, map, option_map, string_bytes, IfOk, IfSome, IfNone, OnOk};
ghost use Rattle.rnix_green.specs.Tree.{item_of};
ghost use Rattle.rnix_green.specs.Walk.{nodes_in, children_of};
ghost use Rattle.rnix_base.specs.Select.{child_of, nodes_of};
ghost use Rattle.rnix.specs.NodeKinds.{is_attr, is_expr};
ghost use Rattle.rnix.specs.AttrName.{static_name};
ghost use Rattle.nix_update.specs.Path.{path_by, path_inside, entry_with, IsPath, IsNoPath};

use rnix::ast::{AstNode, AttrSet, Attrpath, AttrpathValue};
use rnix::{Root, SyntaxNode};
use std::alloc::{AllocError, Global};

/// A path: its names as Nix reads them, and the start of each in its text.
#[derive(Drop)]
pub struct Path<'p> {
    pub text: &'p str,
    pub names: Vec<String>,
    pub starts: Vec<usize>,
}

// Returns the path of a node, if it is an entry with a value.
fn path_by<'t>(node: SyntaxNode<'t>) -> Option<Attrpath<'t>>
    ensures { result ≡ path_by (item_of node.entry).kind node.entry }
{
    AttrpathValue::cast(node)?.attrpath()
}

// Returns the path of the only entry of a text.
fn only_path<'t>(root: &Root<'t>) -> Option<Attrpath<'t>>
    ensures { result ≡ path_inside (child_of is_expr 0 root.now) }
{
    let expr = root.expr()?;
    let set = AttrSet::cast(expr.syntax().clone())?;
    let mut entries = set.syntax().children();
    match (entries.next(), entries.next()) {
        (Some(entry), None) => path_by(entry),
        _ => None,
    }
}

// Returns the names of a path, and the offset of each after the first byte, or `None` if a name is computed.
fn path_in<'p>(
    alloc: Global,
    text: &'p str,
    attrpath: &Attrpath<'_>,
) -> Result<Option<Path<'p>>, AllocError>
    ensures text { IfOk result (λ path. IfSome path (λ path. path.text.now ≡ text.now)) }
    ensures names { IfOk result (λ path. IfSome path (λ path. map static_name (nodes_of is_attr attrpath.now)
        ≡ map Some (map string_bytes path.names.items))) }
    ensures starts { IfOk result (λ path. IfSome path (λ path. map (λ attr. (item_of attr).start - 1) (nodes_of is_attr attrpath.now)
        ≡ path.starts.items)) }
    ensures none { IfOk result (λ path. IfNone path ((names : List (List ℕ)) →
        ¬ (map static_name (nodes_of is_attr attrpath.now) ≡ map Some names))) }
{
    let mut names = Vec::new(alloc);
    let mut starts = Vec::new(alloc);
    for attr in attrpath.attrs() {
        let Some(name) = attr.static_name(alloc)? else {
            return Ok(None);
        };
        names.push(name)?;
        let start = attr.syntax().text_range().start();
        starts.push(start.saturating_sub(1))?;
    }
    Ok(Some(Path {
        text,
        names,
        starts,
    }))
}

/// Returns the path of a text, or `None` if the text is not a path or a name in it is computed.
#[tactic(auto, using(crate::proofs::PathLemmas::whole_path))]
pub fn path_of<'p>(alloc: Global, text: &'p str) -> Result<Option<Path<'p>>, AllocError>
    ensures text { IfOk result (λ path. IfSome path (λ path. path.text.now ≡ text.now)) }
    ensures is_path { IfOk result (λ path. IfSome path (λ path. IsPath text.now (map string_bytes path.names.items) path.starts.items)) }
    ensures none { IfOk result (λ path. IfNone path (IsNoPath text.now)) }
{
    let entry = entry_with(alloc, text)?;
    let read = Root::parse(alloc, entry.as_str())?;
    if !read.errors().is_empty() {
        return Ok(None);
    }
    match only_path(&read.tree()) {
        Some(attrpath) => {
            if attrpath.syntax().text() == text {
                path_in(alloc, text, &attrpath)
            } else {
                Ok(None)
            }
        }
        None => Ok(None),
    }
}

// Returns a set of one entry with this path.
fn entry_with(alloc: Global, path: &str) -> Result<String, AllocError>
    ensures { IfOk result (λ text. string_bytes text ≡ entry_with path.now) }
{
    let mut text = String::from_str(alloc, "{")?;
    text.push_str(path)?;
    text.push_str("=0;}")?;
    Ok(text)
}
