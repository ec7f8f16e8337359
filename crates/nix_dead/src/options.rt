//! What is reported.

/// How names are printed or removed, and which of them are left out.
#[derive(Clone, Copy)]
pub struct Options {
    /// Print each name as a line of JSON.
    pub is_json: bool,
    /// Leave out arguments that are a plain name, as `x` in `x: 1`.
    pub skips_arguments: bool,
    /// Leave out the entries of patterns, as `a` in `{ a }: 1`.
    pub skips_entries: bool,
    /// Where names are removed, write a `_` before them instead.
    pub writes_underscores: bool,
    /// Where names are removed, print what changes as a diff, and leave the files as they are.
    pub prints_diff: bool,
}
