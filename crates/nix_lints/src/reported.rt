//! What is reported of a text: its mistakes, or what the lints find in a text without any.

ghost use Rattle.std.specs.Prelude.{◌≡◌, ◌++◌, ◌∷◌, [], if◌then◌else◌, ℕ, List, min, length, map, slice_get, string_bytes, IfOk, OnOk};
ghost use Rattle.std.specs.List.{filter};
ghost use Rattle.std.specs.Option.{option_to_list};
ghost use Rattle.rnix.specs.ParseResult.{root_of};
ghost use Rattle.nix_diagnostics.specs.Codes.{severity_of};
ghost use Rattle.std.specs.List.Sorted.{IsNonDecreasingBy};
ghost use Rattle.nix_lints.specs.Found.{Found, found_of};
ghost use Rattle.nix_lints.specs.Ignored.{IsAt};
ghost use Rattle.nix_lints.specs.Items.{Item, finding, is_error, is_serious, is_disabled, is_enabled, IsReported, AreItems, IsWordedAt, AreAllWorded};

use crate::all_lints::lints;
use crate::finding::Finding;
use crate::ignored::Place;
use crate::words::diagnostic;
use nix_diagnostics::{Code, Diagnosis, Diagnostic, Severity};
use rnix::Parse;
use std::alloc::{AllocError, Global};

/// What is reported of a text.
#[derive(Drop)]
pub enum Reported<'p> {
    /// The mistakes.
    Mistakes(Diagnosis<'p>),
    /// What the lints find, in a text without mistakes.
    Findings(Vec<Finding>),
}

// Returns whether a lint is left out.
fn is_disabled(disabled: &[String], code: Code) -> bool
    ensures { result ≡ is_disabled (map string_bytes disabled.now) code }
{
    for name in disabled {
        if name.as_str() == code.name() {
            return true;
        }
    }
    false
}

// Adds a finding, if its lint is not left out, neither everywhere nor by the line before.
fn add_enabled(
    finding: Finding,
    disabled: &[String],
    place: &Place<'_>,
    found: &mut Vec<Finding>,
) -> Result<(), AllocError>
    ensures { OnOk result ((text : List ℕ) → IsAt text (min finding.range.start (length text)) place.now → map found_of found.new.items
        ≡ map found_of found.old.items ++ filter (is_enabled text (map string_bytes disabled.now)) (found_of finding ∷ [])) }
{
    if is_disabled(disabled, finding.code) || place.leaves_out(finding.code) {
        return Ok(());
    }
    found.push(finding)?;
    Ok(())
}

// Returns the findings whose lints are not left out, of a list in the order of where they begin.
fn enabled(
    alloc: Global,
    text: &[u8],
    all: &[Finding],
    disabled: &[String],
) -> Result<Vec<Finding>, AllocError>
    ensures { IfOk result (λ found. IsNonDecreasingBy (λ (f : Found). f.extent.start) (map found_of all.now) →
        map found_of found.items ≡ filter (is_enabled text.now (map string_bytes disabled.now)) (map found_of all.now)) }
{
    let mut place = Place::new(alloc, text);
    let mut found = Vec::new(alloc);
    for finding in all {
        place = place.advance(alloc, finding.range.start())?;
        add_enabled(*finding, disabled, &place, &mut found)?;
    }
    Ok(found)
}

// Returns 1 for an error, and 0 for a warning.
fn one_if_error(code: Code) -> usize
    ensures { result ≡ (if is_serious (severity_of code) then 1 else 0) }
{
    match code.severity() {
        Severity::Error => 1,
        Severity::Warning => 0,
    }
}

// Returns the number of errors among findings.
fn count_errors(found: &[Finding]) -> usize
    ensures { result ≡ length (filter is_error (map finding (map found_of found.now))) }
{
    let mut count = 0;
    for finding in found {
        count += one_if_error(finding.code);
    }
    count
}

// Returns the finding with a number, if there are more.
fn finding_at(found: &[Finding], number: usize) -> Option<Finding>
    ensures { result ≡ slice_get found.now number }
{
    found.get(number).copied()
}

// Adds a diagnostic, if there is one.
fn add(diagnostic: Option<Diagnostic>, found: &mut Vec<Diagnostic>) -> Result<(), AllocError>
    ensures { OnOk result (found.new.items ≡ found.old.items ++ option_to_list diagnostic) }
{
    if let Some(diagnostic) = diagnostic {
        found.push(diagnostic)?;
    }
    Ok(())
}

// Returns the finding with a number in words, if there are more.
fn worded(alloc: Global, found: &[Finding], number: usize) -> Result<Option<Diagnostic>, AllocError>
    ensures { IfOk result (IsWordedAt (map finding (map found_of found.now)) number) }
{
    match finding_at(found, number) {
        Some(finding) => {
            let said = diagnostic(alloc, &finding)?;
            Ok(Some(said))
        }
        None => Ok(None),
    }
}

impl<'p> Reported<'p> {
    /// Returns what is reported of a parsed text.
    pub fn new(
        alloc: Global,
        read: &'p Parse,
        is_each: bool,
        disabled: &[String],
    ) -> Result<Reported<'p>, AllocError>
        ensures { IfOk result (λ reported. (items : List Item) × AreItems is_each (map string_bytes disabled.now) (root_of read.now) read.now.faults items
            × IsReported items reported) }
    {
        if !read.errors().is_empty() {
            let diagnosis = Diagnosis::new(alloc, read, is_each)?;
            return Ok(Reported::Mistakes(diagnosis));
        }
        let root = read.syntax();
        let all = lints(alloc, &root)?;
        let found = enabled(alloc, root.text().as_bytes(), &all, disabled)?;
        Ok(Reported::Findings(found))
    }

    /// Returns the number of diagnostics.
    pub fn len(&self) -> usize
        ensures { (items : List Item) → IsReported items self.now → result ≡ length items }
    {
        match self {
            Reported::Mistakes(diagnosis) => diagnosis.len(),
            Reported::Findings(found) => found.len(),
        }
    }

    /// Returns the number of errors among them.
    pub fn errors(&self) -> usize
        ensures { (items : List Item) → IsReported items self.now → result ≡ length (filter is_error items) }
    {
        match self {
            Reported::Mistakes(diagnosis) => diagnosis.len(),
            Reported::Findings(found) => count_errors(found),
        }
    }

    /// Returns the diagnostic with a number, if there are more.
    pub fn diagnostic(
        &mut self,
        alloc: Global,
        number: usize,
    ) -> Result<Option<Diagnostic>, AllocError>
        ensures { IfOk result (λ found. (items : List Item) → IsReported items self.old →
            IsReported items self.new × IsWordedAt items number found) }
    {
        match self {
            Reported::Mistakes(diagnosis) => diagnosis.diagnostic(alloc, number),
            Reported::Findings(found) => worded(alloc, found, number),
        }
    }

    /// Returns all diagnostics. Takes more memory than those of one number after another.
    pub fn diagnostics(&mut self, alloc: Global) -> Result<Vec<Diagnostic>, AllocError>
        ensures { IfOk result (λ found. (items : List Item) → IsReported items self.old → AreAllWorded items found.items) }
    {
        let mut found = Vec::new(alloc);
        for number in 0..self.len() {
            let diagnostic = self.diagnostic(alloc, number)?;
            add(diagnostic, &mut found)?;
        }
        Ok(found)
    }
}
