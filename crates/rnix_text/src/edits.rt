//! Edits of a text.

ghost use Rattle.std.specs.Prelude.{◌≡◌, [], string_bytes, IfOk, OnOk, IfErr, OnErr};
ghost use Rattle.rnix_text.specs.Changes.{changed_from, replacing, IsAdded, IsCause};

use crate::edit_error::EditError;
use crate::runs::{add, changed, insertion_point};
use std::alloc::{AllocError, Global};
use std::marker::Model;
use std::ops::Range;

// A range of a text, and its replacement.
#[derive(Drop)]
pub(crate) struct Edit {
    pub(crate) start: usize,
    pub(crate) end: usize,
    pub(crate) new: String,
}

/// Edits of a text: replacements for ranges of bytes that do not overlap.
#[derive(Drop)]
pub struct Edits<'t> {
    text: &'t str,
    runs: Vec<Vec<Edit>>,
}

impl<'t> Model for Edits<'t> {
    ghost use Rattle.std.specs.Prelude.{map};
    ghost use Rattle.rnix_text.specs.Changes.{Draft, AreInOrder};
    ghost use Rattle.rnix_text.specs.Edit.{change_of};
    ghost use Rattle.rnix_text.specs.Runs.{edits_of, AreFilled};

    ghost Value = { Draft };

    ghost view = { λ e. record { text = e.text.now; changes = map change_of (edits_of e.runs.items) } };

    ghost invariant = { λ e. AreInOrder e.text.now 0 (map change_of (edits_of e.runs.items)) × AreFilled e.runs.items };
}

impl<'t> Edits<'t> {
    /// Returns an empty list of edits of a text.
    pub fn new(alloc: Global, text: &'t str) -> Self
        ensures { result ≡ record { text = text.now; changes = [] } }
    {
        Edits {
            text,
            runs: Vec::new(alloc),
        }
    }

    /// Adds an edit that replaces a range of bytes. If it is refused, the edits are unchanged.
    /// Insertions at one offset keep the order in which they were added.
    pub fn replace(&mut self, range: Range<usize>, new: &str) -> Result<(), EditError>
        ensures text { self.new.text ≡ self.old.text }
        ensures added { OnOk result (IsAdded (replacing range.start range.end new.now) self.old.changes self.new.changes) }
        ensures refused { IfErr result (λ error. IsCause error self.old range.start range.end) }
        ensures stays { OnErr result (self.new ≡ self.old) }
    {
        let Range { start, end } = range;
        if end < start || self.text.len() < end {
            return Err(EditError::OutOfText);
        }
        if !self.text.is_char_boundary(start) || !self.text.is_char_boundary(end) {
            return Err(EditError::InsideCharacter);
        }
        let Some(insertion) = insertion_point(&self.runs, start, end) else {
            return Err(EditError::Overlap);
        };
        let new = String::from_str(*self.runs.allocator(), new)?;
        add(&mut self.runs, insertion, Edit { start, end, new })?;
        Ok(())
    }

    /// Returns the text with each range replaced and all other bytes unchanged.
    pub fn apply(&self, alloc: Global) -> Result<String, AllocError>
        ensures { IfOk result (λ text. string_bytes text ≡ changed_from 0 self.now.changes self.now.text) }
    {
        changed(alloc, self.text, &self.runs)
    }
}
