//! A text without its unused names.

ghost use Rattle.std.specs.Prelude.{IfOk};
ghost use Rattle.nix_dead.specs.Editing.{IsReadWell, IsTurn, IsChecked, IsEdited};

use crate::applied::{Applied, apply_removals};
use crate::meaning::is_kept;
use crate::options::Options;
use crate::proposals::proposals;
use nix_scopes::{Resolution, resolve};
use rnix::{Parse, Root, SyntaxNode};
use std::alloc::{AllocError, Global};

// The greatest number of turns for a text. Each takes a few times as long as parsing it, and names that only removed names used need another one.
const MAX_TURNS: usize = 1000;

/// The result of one turn.
#[derive(Drop)]
pub enum Turn {
    /// No name that is reported can be removed.
    Done,
    /// The new text, and its tree.
    Changed(String, Parse),
    /// The new text has errors, or some name means something else there.
    Refused,
}

/// The result for a text.
#[derive(Drop)]
pub enum Edited {
    /// The new text.
    Done(String),
    /// The text has errors.
    HasErrors,
    /// Without its unused names, the text would have errors, or some name would mean something else.
    Refused,
}

// Parses the new text, and refuses it unless all names that are left mean the same.
fn checked(alloc: Global, names: &Resolution<'_>, made: Applied) -> Result<Turn, AllocError>
    ensures { IfOk result (IsChecked names.now made) }
{
    let read = Root::parse(alloc, made.made.as_str())?;
    if !read.errors().is_empty() {
        return Ok(Turn::Refused);
    }
    if is_kept(alloc, names, &made.removals, &read.syntax())? {
        Ok(Turn::Changed(made.made, read))
    } else {
        Ok(Turn::Refused)
    }
}

// Removes the unused names of a text that are reported, as far as the removals don't overlap.
fn take_turn(
    alloc: Global,
    text: &str,
    root: &SyntaxNode<'_>,
    options: Options,
) -> Result<Turn, AllocError>
    ensures { IfOk result (IsTurn text.now options root.now) }
{
    let names = resolve(alloc, root)?;
    let removals = proposals(alloc, text, root, &names, options)?;
    if removals.is_empty() {
        return Ok(Turn::Done);
    }
    let made = apply_removals(alloc, text, &removals)?;
    checked(alloc, &names, made)
}

// Removes the unused names of a parsed text, and those that then are unused, until none of them can be removed.
fn edited_from(
    alloc: Global,
    text: &str,
    read: Parse,
    options: Options,
) -> Result<Edited, AllocError>
    ensures { IfOk result (λ edited. IsReadWell text.now read → IsEdited text.now options edited) }
{
    let mut made = String::from_str(alloc, text)?;
    let mut own = read;
    for count in 0..MAX_TURNS {
        match take_turn(alloc, made.as_str(), &own.syntax(), options)? {
            Turn::Done => return Ok(Edited::Done(made)),
            Turn::Changed(new, read) => {
                made = new;
                own = read;
            }
            Turn::Refused => return Ok(Edited::Refused),
        }
    }
    Ok(Edited::Done(made))
}

/// Removes the unused names of a text that are reported, and those that then are unused, until none of them can be removed.
pub fn remove_unused(alloc: Global, text: &str, options: Options) -> Result<Edited, AllocError>
    ensures { IfOk result (IsEdited text.now options) }
{
    let read = Root::parse(alloc, text)?;
    if !read.errors().is_empty() {
        return Ok(Edited::HasErrors);
    }
    edited_from(alloc, text, read, options)
}
