//! The mistakes of a text, before they are put into words.

ghost use Rattle.std.specs.Prelude.{◌≡◌, ◌<◌, ◌+◌, ◌++◌, ◌∷◌, [], if◌then◌else◌, length, map, drop, slice_get, option_map, true, false, IfOk, OnOk};
ghost use Rattle.std.specs.List.{list_all, range_with_len};
ghost use Rattle.rnix_grammar.specs.Fault.{fault_of};
ghost use Rattle.rnix.specs.ParseResult.{root_of};
ghost use Rattle.nix_diagnostics.specs.Following.{firsts, next_or};
ghost use Rattle.nix_diagnostics.specs.Independence.{semicolons_of};
ghost use Rattle.nix_diagnostics.specs.Known.{IsMatching};
ghost use Rattle.nix_diagnostics.specs.Locations.{end_of_items};
ghost use Rattle.nix_diagnostics.specs.TokenErrors.{is_repeated_name};
ghost use Rattle.nix_diagnostics.specs.Mistakes.{mistake_of, mistake_at, HasMessage, starts};
ghost use Rattle.nix_diagnostics.specs.Described.{Describes, GivesDiagnostic};

use crate::brackets::{Matching, match_brackets};
use crate::code::Code;
use crate::diagnostic::Diagnostic;
use crate::error_nodes::error_node;
use crate::folding::Folding;
use crate::locations::location_of;
use crate::message::message;
use crate::notes::NoteFinder;
use crate::semicolons::Semicolon;
use crate::token_errors::are_repeated_names;
use rnix::{Parse, ParseError, SyntaxNode};
use std::alloc::{AllocError, Global};

/// The mistakes of a text: runs of errors, of which the first is shown and the others follow from it. Takes a number for each, and makes no message before it
/// is asked for.
#[derive(Drop)]
pub struct Diagnosis<'p> {
    read: &'p Parse,
    // The numbers of the errors at which the runs begin.
    starts: Vec<usize>,
    // The end of the last token other than trivia, unless all errors are about repeated names.
    end: usize,
    finder: NoteFinder,
}

// Returns the numbers of all errors.
fn all_numbers(alloc: Global, count: usize) -> Result<Vec<usize>, AllocError>
    ensures { IfOk result (λ found. found.items ≡ range_with_len 0 count) }
{
    let mut found = Vec::with_capacity(alloc, count)?;
    for number in 0..count {
        found.push(number)?;
    }
    Ok(found)
}

// Adds the number of an error, if it does not follow from earlier ones.
fn add_first(number: usize, follows: bool, found: &mut Vec<usize>) -> Result<(), AllocError>
    ensures { OnOk result (found.new.items ≡ found.old.items ++ (if follows then [] else number ∷ [])) }
{
    if follows {
        return Ok(());
    }
    found.push(number)?;
    Ok(())
}

// Returns the numbers of the errors that follow from no earlier one.
fn first_numbers(
    alloc: Global,
    root: &SyntaxNode<'_>,
    errors: &[ParseError],
    matching: &Matching,
    semicolons: Vec<Semicolon>,
) -> Result<Vec<usize>, AllocError>
    requires top { root.now.number ≡ 0 }
    requires matching { IsMatching root.now matching.now }
    requires semicolons { semicolons.items ≡ semicolons_of root.now }
    ensures { IfOk result (λ found. found.items ≡ firsts root.now (map fault_of errors.now)) }
{
    let mut found = Vec::new(alloc);
    let mut folding = Folding::new(root, errors, matching, semicolons);
    let mut earlier = root.clone();
    for number in 0..errors.len() {
        let error = &errors[number];
        let range = location_of(error, root, matching.end);
        let node = error_node(root, &mut earlier, error);
        let follows = folding.folds(root, error, &node, range);
        add_first(number, follows, &mut found)?;
    }
    Ok(found)
}

// Returns the numbers of the errors at which runs begin, or of all errors.
fn starts_of(
    alloc: Global,
    root: &SyntaxNode<'_>,
    errors: &[ParseError],
    is_each: bool,
    matching: &Matching,
    semicolons: Vec<Semicolon>,
) -> Result<Vec<usize>, AllocError>
    requires top { root.now.number ≡ 0 }
    requires matching { IsMatching root.now matching.now }
    requires semicolons { semicolons.items ≡ semicolons_of root.now }
    ensures { IfOk result (λ found. found.items ≡ starts is_each root.now (map fault_of errors.now)) }
{
    if is_each {
        return all_numbers(alloc, errors.len());
    }
    first_numbers(alloc, root, errors, matching, semicolons)
}

// Returns the number at an index.
fn number_at(numbers: &[usize], index: usize) -> Option<usize>
    ensures { result ≡ slice_get numbers.now index }
{
    numbers.get(index).copied()
}

// Returns the error at an index.
fn error_at(errors: &[ParseError], index: usize) -> Option<&ParseError>
    ensures { option_map (λ error. error.now) result ≡ slice_get errors.now index }
{
    errors.get(index)
}

// Returns the diagnostic of the run of errors that begins at an error, and ends before another one.
fn explained(
    alloc: Global,
    read: &Parse,
    error: &ParseError,
    text_end: usize,
    finder: &mut NoteFinder,
    first_error: usize,
    end_error: usize,
) -> Result<Diagnostic, AllocError>
    ensures mistake { IfOk result (λ d. (is_repeated_name (fault_of error.now) ≡ false → text_end ≡ end_of_items (root_of read.now)) →
        mistake_of d ≡ mistake_at (root_of read.now) (fault_of error.now) first_error end_error) }
    ensures message { IfOk result HasMessage }
{
    let root = read.syntax();
    let mut earlier = root.clone();
    let range = location_of(error, &root, text_end);
    let node = error_node(&root, &mut earlier, error);
    Ok(Diagnostic {
        code: Code::of(error),
        range,
        message: message(alloc, error, node.as_ref(), finder.missing(range))?,
        first_error,
        end_error,
        notes: finder.notes(alloc, error, &root, node, range)?,
    })
}

impl<'p> Diagnosis<'p> {
    // Returns the mistakes of a text whose errors are all about repeated names. None of them follows from another, and no note on them needs the brackets of
    // the text. Not matching brackets saves `rnix check` a sixth of the instructions on a pattern of a million names.
    fn of_names(alloc: Global, read: &'p Parse) -> Result<Diagnosis<'p>, AllocError>
        requires { list_all (λ fault. is_repeated_name fault) read.now.faults ≡ true }
        ensures { IfOk result (Describes (root_of read.now) read.now.faults (range_with_len 0 (length read.now.faults))) }
    {
        let starts = all_numbers(alloc, read.errors().len())?;
        Ok(Diagnosis {
            read,
            starts,
            end: 0,
            finder: NoteFinder::of_names(alloc),
        })
    }

    /// Returns the mistakes of a text, or each of its errors as one.
    pub fn new(alloc: Global, read: &'p Parse, is_each: bool) -> Result<Diagnosis<'p>, AllocError>
        ensures { IfOk result (Describes (root_of read.now) read.now.faults (starts is_each (root_of read.now) read.now.faults)) }
    {
        let errors = read.errors();
        if are_repeated_names(errors) {
            let found = Diagnosis::of_names(alloc, read)?;
            return Ok(found);
        }
        let root = read.syntax();
        let (matching, semicolons) = match_brackets(alloc, &root)?;
        let starts = starts_of(alloc, &root, errors, is_each, &matching, semicolons)?;
        Ok(Diagnosis {
            read,
            starts,
            end: matching.end,
            finder: NoteFinder::new(matching, is_each),
        })
    }

    /// Returns their number.
    pub fn len(&self) -> usize
        ensures { result ≡ length self.now.starts.items }
    {
        self.starts.len()
    }

    // Returns the number after that of the last error of a run.
    fn end_of_run(&self, number: usize) -> usize
        requires { number < length self.now.starts.items }
        ensures { result ≡ next_or (length self.now.read.now.faults) (drop (number + 1) self.now.starts.items) }
    {
        number_at(&self.starts, number + 1).unwrap_or(self.read.errors().len())
    }

    /// Returns the diagnostic of a mistake by its number, if there are more: with its message and notes.
    pub fn diagnostic(
        &mut self,
        alloc: Global,
        number: usize,
    ) -> Result<Option<Diagnostic>, AllocError>
        ensures { IfOk result (GivesDiagnostic self.old self.new number) }
    {
        let Some(first) = number_at(&self.starts, number) else {
            return Ok(None);
        };
        let (read, end) = (self.read, self.end_of_run(number));
        let Some(error) = error_at(read.errors(), first) else {
            return Ok(None);
        };
        let finder = &mut self.finder;
        let found = explained(alloc, read, error, self.end, finder, first, end)?;
        Ok(Some(found))
    }
}
