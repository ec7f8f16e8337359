//! The names of the patterns that are being read.

ghost use Rattle.std.specs.Prelude.{◌≡◌, [], ℕ, List, IfOk, OnOk, option_map, false};
ghost use Rattle.rnix_green.specs.Range.{bounds_of};
ghost use Rattle.rnix_grammar.specs.Fault.{fault_of};
ghost use Rattle.rnix_reader.specs.PatternNames.{has_name, has_with, PatternOpened, PatternClosed, EntryOpened, EntryClosed};

use rnix_grammar::ParseError;
use rnix_green::TextRange;
use std::alloc::{AllocError, Global};
use std::collections::BTreeSet;

/// The names of a pattern's entries.
#[derive(Drop)]
pub(crate) struct NameSet<'t> {
    pub(crate) names: BTreeSet<&'t str>,
}

impl<'t> NameSet<'t> {
    /// Returns an empty set.
    pub(crate) fn new(alloc: Global) -> Self
        ensures { (name : List ℕ) → has_name name result ≡ false }
    {
        NameSet {
            names: BTreeSet::new(alloc),
        }
    }

    /// Adds a name. Returns whether the set contained it before.
    #[tactic(auto, using(crate::proofs::NameLemmas::names_updated, crate::proofs::NameLemmas::contained))]
    pub(crate) fn insert(&mut self, name: &'t str) -> Result<bool, AllocError>
        ensures contained { IfOk result (λ contained. contained ≡ has_name name.now self.old) }
        ensures names { (other : List ℕ) → OnOk result (has_name other self.new ≡ has_with other name.now self.old) }
    {
        let is_new = self.names.insert(name)?;
        Ok(!is_new)
    }
}

/// The name of an open entry of a pattern, and its range.
#[derive(Clone, Copy)]
pub(crate) struct Entry<'t> {
    pub(crate) text: &'t str,
    pub(crate) range: TextRange,
}

/// The names of open patterns and entries.
#[derive(Drop)]
pub(crate) struct Names<'t> {
    /// The names of each open pattern so far.
    pub(crate) sets: Vec<NameSet<'t>>,
    pub(crate) entries: Vec<Entry<'t>>,
    /// Where the second name of a pattern begins, while it is open.
    pub(crate) second: usize,
}

impl<'t> Names<'t> {
    /// Returns the state in which no pattern and no entry is open.
    pub(crate) fn new(alloc: Global) -> Self
        ensures sets { result.sets.items ≡ [] }
        ensures entries { result.entries.items ≡ [] }
    {
        Names {
            sets: Vec::new(alloc),
            entries: Vec::new(alloc),
            second: 0,
        }
    }

    /// Opens a pattern.
    pub(crate) fn open_pattern(&mut self) -> Result<(), AllocError>
        ensures { OnOk result (PatternOpened self.old self.new) }
    {
        let set = NameSet::new(*self.sets.allocator());
        self.sets.push(set)?;
        Ok(())
    }

    /// Closes the innermost pattern.
    pub(crate) fn close_pattern(&mut self)
        ensures { PatternClosed self.old self.new }
    {
        self.sets.pop();
    }

    /// Opens an entry.
    pub(crate) fn open_entry(&mut self, text: &'t str, range: TextRange) -> Result<(), AllocError>
        ensures { OnOk result (EntryOpened (text.now, bounds_of range) self.old self.new) }
    {
        self.entries.push(Entry { text, range })?;
        Ok(())
    }

    /// Closes the innermost entry. Returns an error if an earlier entry has its name.
    pub(crate) fn close_entry(&mut self) -> Result<Option<ParseError>, AllocError>
        ensures { IfOk result (λ again. EntryClosed (option_map fault_of again) self.old self.new) }
    {
        let Some(Entry { text, range }) = self.entries.pop() else {
            return Ok(None);
        };
        let Some(mut set) = self.sets.pop() else {
            return Ok(None);
        };
        let repeats = set.insert(text)?;
        self.sets.push(set)?;
        if repeats {
            let name = String::from_str(*self.sets.allocator(), text)?;
            return Ok(Some(ParseError::DuplicatedArgs(range, name)));
        }
        Ok(None)
    }
}
