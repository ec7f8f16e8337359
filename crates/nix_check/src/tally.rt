//! The counts over all files, and the exit status.

ghost use Rattle.std.specs.Prelude.{◌≡◌, if◌then◌else◌};
ghost use Rattle.nix_check.specs.Tallies.{is_clean, with_counts, with_unread, found_by, status_of};

use nix_cli::{FAILED, FOUND};

/// The counts of a text.
#[derive(Clone, Copy)]
pub struct Counts {
    /// Errors.
    pub errors: usize,
    /// Warnings.
    pub warnings: usize,
}

impl Counts {
    // Returns the number of files in which something was found: this one, or none.
    fn faulty(self) -> usize
        ensures { result ≡ (if is_clean self then 0 else 1) }
    {
        if self.errors == 0 && self.warnings == 0 {
            0
        } else {
            1
        }
    }
}

/// The counts over all files.
#[derive(Clone, Copy)]
pub struct Tally {
    /// Errors that were found.
    pub errors: usize,
    /// Warnings that were found.
    pub warnings: usize,
    /// Files in which something was found.
    pub faulty: usize,
    /// Files and folders that could not be read or written.
    pub unread: usize,
}

impl Tally {
    /// Returns the counts with those of a text.
    pub fn with_counts(self, counts: Counts) -> Tally
        ensures { result ≡ with_counts self counts }
    {
        Tally {
            errors: self.errors.saturating_add(counts.errors),
            warnings: self.warnings.saturating_add(counts.warnings),
            faulty: self.faulty.saturating_add(counts.faulty()),
            unread: self.unread,
        }
    }

    /// Returns the counts with one more file that could not be read.
    pub fn with_unread(self) -> Tally
        ensures { result ≡ with_unread self }
    {
        Tally {
            errors: self.errors,
            warnings: self.warnings,
            faulty: self.faulty,
            unread: self.unread.saturating_add(1),
        }
    }

    /// Returns the number of diagnostics that were found.
    pub fn found(self) -> usize
        ensures { result ≡ found_by self }
    {
        self.errors.saturating_add(self.warnings)
    }

    /// Returns the exit status. If `is_strict`, warnings count as errors do.
    pub fn status(self, is_strict: bool) -> u8
        ensures { result ≡ status_of is_strict self }
    {
        if self.unread > 0 {
            FAILED
        } else if self.errors == 0 && (!is_strict || self.warnings == 0) {
            0
        } else {
            FOUND
        }
    }
}
