//! The source of the value of an attribute.

ghost use Rattle.std.specs.Prelude.{map, string_bytes, IfOk};
ghost use Rattle.nix_update.specs.Sources.{IsEntrySought, IsSought, IsSourceAlong, IsSourceOf};

use crate::definitions::{Definition, definitions_of};
use crate::inner::expr_at;
use crate::node_start::start_of;
use crate::outcome::{Reason, Refused, refuse, refuse_at};
use crate::path::path_of;
use crate::path_match::PathMatch;
use crate::setting::inexact_reason;
use crate::steps::{PathStep, path_steps};
use crate::update::{refuse_none, refuse_several};
use rnix::{Root, SyntaxNode};
use std::alloc::{AllocError, Global};

/// The source of a value, or the reason why there is none.
#[derive(Drop)]
pub enum Source {
    /// The text of the value of an attribute.
    Attribute(String),
    /// The text of the value of a name of a `let`, and the offset of its entry.
    NameOfLet(String, usize),
    Refused(Refused),
}

// What is found among the entries of sets or of a `let`.
#[derive(Drop)]
pub enum Sought {
    // The text of the value, and the offset of its entry.
    Found(String, usize),
    // No entry defines the attribute.
    Missing,
    Refused(Refused),
}

// Returns the text of the value of an entry that defines the attribute, if it defines all of it.
fn entry_source(alloc: Global, definition: &Definition<'_>) -> Result<Sought, AllocError>
    ensures { IfOk result (IsEntrySought definition.now) }
{
    let start = start_of(&definition.entry);
    match definition.path_match {
        PathMatch::Exact => match expr_at(&definition.entry, 0) {
            Some(value) => Ok(Sought::Found(String::from_str(alloc, value.text())?, start)),
            None => Ok(Sought::Refused(refuse_at(Reason::NotNix, start))),
        },
        other => Ok(Sought::Refused(refuse_at(inexact_reason(other), start))),
    }
}

// Returns the text of the value of the only entry along a path that defines the attribute: among those of sets, or those of a `let` if `of_let`.
fn source_among(
    alloc: Global,
    names: &[String],
    steps: &[PathStep<'_>],
    of_let: bool,
) -> Result<Sought, AllocError>
    ensures { IfOk result (IsSought of_let (map string_bytes names.now) steps.now) }
{
    let definitions = definitions_of(alloc, names, steps, of_let)?;
    let Some(definition) = definitions.first() else {
        return Ok(Sought::Missing);
    };
    match definitions.get(1) {
        Some(second) => Ok(Sought::Refused(refuse_several(definition, second))),
        None => entry_source(alloc, definition),
    }
}

// Returns the source of the value of an attribute, or if no attribute has the path, that of a name of a `let`.
fn source_along(
    alloc: Global,
    root: &SyntaxNode<'_>,
    names: &[String],
    steps: &[PathStep<'_>],
) -> Result<Source, AllocError>
    ensures { IfOk result (IsSourceAlong (map string_bytes names.now) steps.now) }
{
    match source_among(alloc, names, steps, false)? {
        Sought::Found(text, _) => return Ok(Source::Attribute(text)),
        Sought::Refused(refused) => return Ok(Source::Refused(refused)),
        Sought::Missing => {}
    }
    match source_among(alloc, names, steps, true)? {
        Sought::Found(text, offset) => Ok(Source::NameOfLet(text, offset)),
        Sought::Refused(refused) => Ok(Source::Refused(refused)),
        Sought::Missing => Ok(Source::Refused(refuse_none(steps, root))),
    }
}

/// Returns the source of the value of the attribute with a path: the text of the expression, byte for byte.
pub fn value_source(alloc: Global, text: &str, path: &str) -> Result<Source, AllocError>
    ensures { IfOk result (IsSourceOf path.now text.now) }
{
    let Some(path) = path_of(alloc, path)? else {
        return Ok(Source::Refused(refuse(Reason::NotAPath)));
    };
    let read = Root::parse(alloc, text)?;
    if let Some(error) = read.errors().first() {
        let offset = error.range().map_or(text.len(), |range| range.start());
        return Ok(Source::Refused(refuse_at(Reason::NotNix, offset)));
    }
    let root = read.syntax();
    let steps = path_steps(alloc, &root, &path.names)?;
    source_along(alloc, &root, &path.names, &steps)
}
