//! The data of the part of a text that a path selects.

ghost use Rattle.std.specs.Prelude.{◌≡◌, Some, false, map, option_map, option_and_then, IfOk, OnOk, OnErr};
ghost use Rattle.nix_values.specs.Contents.{contents};
ghost use Rattle.nix_values.specs.PathNames.{name_of};
ghost use Rattle.nix_data.specs.Definitions.{names_of, definition_of, definitions_of};
ghost use Rattle.nix_data.specs.Misread.{IsReadAlike};
ghost use Rattle.nix_data.specs.Places.{place_of, values_read};
ghost use Rattle.nix_data.specs.Refusals.{Refuses, ReadsUnless};
ghost use Rattle.nix_data.specs.Selection.{selection};
ghost use Rattle.nix_data.specs.SelectedData.{definition_place, definition_added, definitions_added, HasDataAt, HasNoDataAt};

use crate::definition::{Definition, Names};
use crate::nix_reader::{LEVELS, Reader, first_misread, first_stop};
use crate::no_data::NoData;
use crate::scalars::Stop;
use crate::selection::selection;
use crate::values::{Frame, Target, Values};
use nix_values::{Data, PathName};
use rnix::SyntaxNode;
use rnix::ast::AstNode;
use std::alloc::{AllocError, Global};

// Returns the place of the value of a definition with these names, and adds the sets on the way.
fn place(
    reader: Reader,
    values: &mut Values,
    names: Option<Names<'_>>,
    value: &SyntaxNode<'_>,
) -> Result<Target, Stop>
    ensures { ReadsUnless reader.is_lossy result
        (definition_place (names_of names.entry) (values_read values.old)) (λ target. (place_of target, values_read values.new)) }
{
    let Some(Names { first, others }) = names else {
        return Ok(Target::Outermost);
    };
    let range = first.syntax().text_range();
    let node = values.set_at(reader.alloc, Target::Outermost, range)?;
    let name = reader.name(&first)?;
    reader.follow(values, Frame { node, first: 0 }, Some(name), others, value)
}

// Adds the values of a definition.
fn add_definition(
    reader: Reader,
    values: &mut Values,
    definition: Definition<'_>,
) -> Result<(), Stop>
    ensures { ReadsUnless reader.is_lossy result
        (definition_added (definition_of definition.entry) (values_read values.old)) (λ done. values_read values.new) }
{
    let Definition { names, value, .. } = definition;
    let target = place(reader, values, names, &value)?;
    Ok(reader.read(values, LEVELS, target, &value)?)
}

// Adds the values of several definitions.
fn add_definitions(
    reader: Reader,
    values: &mut Values,
    definitions: Vec<Definition<'_>>,
) -> Result<(), Stop>
    ensures { ReadsUnless reader.is_lossy result
        (definitions_added (definitions_of definitions.entry.items) (values_read values.old)) (λ done. values_read values.new) }
{
    let mut rest = definitions.into_iter();
    while let Some(definition) = rest.next() {
        add_definition(reader, values, definition)?;
    }
    Ok(())
}

// Adds the values of the part of a tree that a path selects.
fn add_selected(
    reader: Reader,
    values: &mut Values,
    path: &[PathName],
    root: &SyntaxNode<'_>,
) -> Result<(), Stop>
    ensures { ReadsUnless reader.is_lossy result
        (option_and_then (λ definitions. definitions_added definitions (values_read values.old)) (selection (map name_of path.now) root.now))
        (λ done. values_read values.new) }
{
    let definitions = selection(reader.alloc, path, root)?;
    Ok(add_definitions(reader, values, definitions)?)
}

// Reads the data of the part of a tree without errors that a path selects. There are none if there is no such part.
fn read(
    alloc: Global,
    root: &SyntaxNode<'_>,
    path: &[PathName],
    is_lossy: bool,
) -> Result<Data, Stop>
    ensures alike { OnOk result (IsReadAlike root.now) }
    ensures data { IfOk result (λ found. is_lossy ≡ false → HasDataAt (map name_of path.now) root.now (contents found)) }
    ensures refused { Refuses result (is_lossy ≡ false → HasNoDataAt (map name_of path.now) root.now) }
{
    let mut values = Values::new(alloc);
    let outcome = add_selected(Reader { alloc, is_lossy }, &mut values, path, root);
    if let Some(token) = first_misread(root) {
        return Err(first_stop(outcome, token));
    }
    outcome?;
    Ok(values.finish(alloc)?)
}

/// Returns the data of the part of a tree without errors that a path selects, or a part of the text that it needs and that is not data. What is elsewhere
/// in the text need not be data. There are no values if there is no such part. If `is_lossy`, a value that is not data becomes a string with its source.
pub fn data_at(
    alloc: Global,
    root: &SyntaxNode<'_>,
    path: &[PathName],
    is_lossy: bool,
) -> Result<Result<Data, NoData>, AllocError>
    ensures alike { IfOk result (λ outcome. OnOk outcome (IsReadAlike root.now)) }
    ensures data { IfOk result (λ outcome. IfOk outcome (λ found. is_lossy ≡ false → HasDataAt (map name_of path.now) root.now (contents found))) }
    ensures refused { IfOk result (λ outcome. OnErr outcome (is_lossy ≡ false → HasNoDataAt (map name_of path.now) root.now)) }
{
    match read(alloc, root, path, is_lossy) {
        Ok(found) => Ok(Ok(found)),
        Err(Stop::NoData(reason)) => Ok(Err(reason)),
        Err(Stop::Memory) => Err(AllocError),
    }
}
