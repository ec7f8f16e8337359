//! Options for finding and printing diagnostics.

/// The form in which a diagnostic is printed.
#[derive(Clone, Copy, PartialEq, Eq)]
pub enum Format {
    /// Its message, the line with carets, and the notes.
    Text,
    /// A line of JSON.
    Json,
    /// A result of SARIF.
    Sarif,
}

/// Options for finding, printing and fixing what diagnostics report.
#[derive(Clone, Copy)]
pub struct Style<'a> {
    /// The greatest number of diagnostics of a file that are printed.
    pub limit: usize,
    /// Whether each error has its own diagnostic. Otherwise errors that follow from the same mistake share one.
    pub is_each: bool,
    /// Whether warnings count for the exit status as errors do.
    pub is_strict: bool,
    /// Whether fixes are printed as a diff, and files are left as they are.
    pub prints_diff: bool,
    /// Their form.
    pub format: Format,
    /// Whether the text is colored.
    pub is_colored: bool,
    /// The names of the lints that are left out.
    pub disabled: &'a [String],
}
