//! The errors of a text.

ghost use Rattle.std.specs.Prelude.{◌≡◌, ◌&&◌, IfOk, Some, option_map};
ghost use Rattle.std.specs.Bool.{Decides};
ghost use Rattle.std.specs.Cmp.Lexicographic.{pointwise};
ghost use Rattle.std.specs.Fmt.{DisplaysOnOk};
ghost use Rattle.rnix_green.specs.Equality.{same_kind};
ghost use Rattle.rnix_green.specs.Range.{bounds_of};
ghost use Rattle.rnix_green.specs.Range.{extent_text};
ghost use Rattle.rnix_grammar.specs.Fault.{fault_of, more_kinds_text, kinds_text, wanted_text, again_text, range_text, fault_text, unwanted, duplicated_args, same_extent};
ghost use Rattle.rnix_grammar.specs.Ranges.{range_in};

use rnix_green::TextRange;
use rnix_kinds::SyntaxKind;
use std::alloc::AllocError;
use std::error::Error;
use std::fmt;

/// An error of a text. Its range, in bytes, is that of its error node in the tree, or of the repeated name.
#[derive(Debug, Drop)]
pub enum ParseError {
    /// An error without a cause. The parser never produces it.
    Unexpected(TextRange),
    /// Tokens follow the expression.
    UnexpectedExtra(TextRange),
    /// A token of the first kind is where one of the listed kinds is expected.
    UnexpectedWanted(SyntaxKind, TextRange, Vec<SyntaxKind>),
    /// A pattern is bound to two names.
    UnexpectedDoubleBind(TextRange),
    /// The text ends where more is expected.
    UnexpectedEOF,
    /// The text ends where one of the listed kinds is expected.
    UnexpectedEOFWanted(Vec<SyntaxKind>),
    /// Two entries of a pattern have the same name.
    DuplicatedArgs(TextRange, String),
    /// Expressions are nested too deep.
    RecursionLimitExceeded,
}

impl ParseError {
    /// Returns a copy of the error.
    pub fn try_clone(&self) -> Result<ParseError, AllocError>
        ensures { IfOk result (λ error. fault_of error ≡ fault_of self.now) }
    {
        let error = match self {
            ParseError::Unexpected(range) => ParseError::Unexpected(*range),
            ParseError::UnexpectedExtra(range) => ParseError::UnexpectedExtra(*range),
            ParseError::UnexpectedWanted(kind, range, wanted) => {
                ParseError::UnexpectedWanted(*kind, *range, wanted.clone()?)
            }
            ParseError::UnexpectedDoubleBind(range) => ParseError::UnexpectedDoubleBind(*range),
            ParseError::UnexpectedEOF => ParseError::UnexpectedEOF,
            ParseError::UnexpectedEOFWanted(wanted) => {
                ParseError::UnexpectedEOFWanted(wanted.clone()?)
            }
            ParseError::DuplicatedArgs(range, name) => {
                ParseError::DuplicatedArgs(*range, name.clone()?)
            }
            ParseError::RecursionLimitExceeded => ParseError::RecursionLimitExceeded,
        };
        Ok(error)
    }

    /// Returns the error's range, in bytes. The errors at the end of the text have none, and neither has `RecursionLimitExceeded`.
    pub fn range(&self) -> Option<TextRange>
        ensures { option_map bounds_of result ≡ range_in (fault_of self.now) }
    {
        match self {
            ParseError::Unexpected(range)
            | ParseError::UnexpectedExtra(range)
            | ParseError::UnexpectedWanted(_, range, _)
            | ParseError::UnexpectedDoubleBind(range)
            | ParseError::DuplicatedArgs(range, _) => Some(*range),
            ParseError::UnexpectedEOF
            | ParseError::UnexpectedEOFWanted(_)
            | ParseError::RecursionLimitExceeded => None,
        }
    }
}

// Whether two lists hold the same kinds.
fn same_kinds(a: &[SyntaxKind], b: &[SyntaxKind]) -> bool
    ensures { result ≡ pointwise same_kind a.now b.now }
{
    a == b
}

// Whether two tokens have the same kind and the same range.
fn same_token(kind: SyntaxKind, range: TextRange, other: SyntaxKind, position: TextRange) -> bool
    ensures { result ≡ (same_kind kind other && same_extent (bounds_of range) (bounds_of position)) }
{
    kind == other && range == position
}

impl PartialEq for ParseError {
    ghost use Rattle.rnix_grammar.specs.Fault.{fault_of, same_fault};
    ghost use Rattle.rnix_grammar.specs.SameFaults.{same_faults};

    ghost eq = { λ a b. same_fault (fault_of a) (fault_of b) };

    ghost laws = { same_faults };

    fn eq(&self, other: &ParseError) -> bool {
        match (self, other) {
            (ParseError::Unexpected(a), ParseError::Unexpected(b)) => a == b,
            (ParseError::UnexpectedExtra(a), ParseError::UnexpectedExtra(b)) => a == b,
            (
                ParseError::UnexpectedWanted(kind, a, wanted),
                ParseError::UnexpectedWanted(other_kind, b, others),
            ) => same_kinds(wanted, others) && same_token(*kind, *a, *other_kind, *b),
            (ParseError::UnexpectedDoubleBind(a), ParseError::UnexpectedDoubleBind(b)) => a == b,
            (ParseError::UnexpectedEOF, ParseError::UnexpectedEOF) => true,
            (ParseError::UnexpectedEOFWanted(wanted), ParseError::UnexpectedEOFWanted(others)) => {
                same_kinds(wanted, others)
            }
            (ParseError::DuplicatedArgs(a, name), ParseError::DuplicatedArgs(b, other_name)) => {
                a == b && name == other_name
            }
            (ParseError::RecursionLimitExceeded, ParseError::RecursionLimitExceeded) => true,
            _ => false,
        }
    }
}

/// Returns whether two errors are the same variant with the same fields.
pub fn same_errors(a: &ParseError, b: &ParseError) -> bool
    ensures { Decides result (fault_of a.now ≡ fault_of b.now) }
{
    a == b
}

// Each further kind of a list, after a comma.
fn write_more_kinds<W: fmt::Write>(kinds: &[SyntaxKind], f: &mut fmt::Formatter<W>) -> fmt::Result
    ensures { DisplaysOnOk W.write_str_gives f.old result (Some (more_kinds_text kinds.now)) f.new }
{
    for kind in kinds {
        write!(f, ", ")?;
        f.write_str(kind.name())?;
    }
    Ok(())
}

// A list of kinds in brackets.
fn write_kinds<W: fmt::Write>(kinds: &[SyntaxKind], f: &mut fmt::Formatter<W>) -> fmt::Result
    ensures { DisplaysOnOk W.write_str_gives f.old result (Some (kinds_text kinds.now)) f.new }
{
    f.write_str("[")?;
    if let Some((first, more)) = kinds.split_first() {
        f.write_str(first.name())?;
        write_more_kinds(more, f)?;
    }
    f.write_str("]")
}

// Which kinds were wanted instead.
fn write_wanted<W: fmt::Write>(kinds: &[SyntaxKind], f: &mut fmt::Formatter<W>) -> fmt::Result
    ensures { DisplaysOnOk W.write_str_gives f.old result (Some (wanted_text kinds.now)) f.new }
{
    f.write_str(", wanted any of ")?;
    write_kinds(kinds, f)
}

// A range in decimal.
fn write_extent<W: fmt::Write>(range: TextRange, f: &mut fmt::Formatter<W>) -> fmt::Result
    ensures { DisplaysOnOk W.write_str_gives f.old result (Some (extent_text (bounds_of range))) f.new }
{
    let (start, end) = (range.start(), range.end());
    write!(f, "{start}..{end}")
}

// A word and a range.
fn write_range<W: fmt::Write>(
    what: &str,
    range: TextRange,
    f: &mut fmt::Formatter<W>,
) -> fmt::Result
    ensures { DisplaysOnOk W.write_str_gives f.old result (Some (range_text what.now (bounds_of range))) f.new }
{
    f.write_str(what)?;
    f.write_str(" at ")?;
    write_extent(range, f)
}

// A token that is not wanted.
fn write_unwanted<W: fmt::Write>(
    kind: SyntaxKind,
    range: TextRange,
    wanted: &[SyntaxKind],
    f: &mut fmt::Formatter<W>,
) -> fmt::Result
    ensures { DisplaysOnOk W.write_str_gives f.old result
        (Some (fault_text (unwanted kind (bounds_of range) wanted.now))) f.new }
{
    f.write_str("unexpected ")?;
    write_range(kind.name(), range, f)?;
    write_wanted(wanted, f)
}

// The range of a repeated name.
fn write_again<W: fmt::Write>(range: TextRange, f: &mut fmt::Formatter<W>) -> fmt::Result
    ensures { DisplaysOnOk W.write_str_gives f.old result (Some (again_text (bounds_of range))) f.new }
{
    f.write_str("` is duplicated in ")?;
    write_extent(range, f)
}

// An argument that is named twice.
fn write_duplicate<W: fmt::Write>(
    range: TextRange,
    name: &str,
    f: &mut fmt::Formatter<W>,
) -> fmt::Result
    ensures { DisplaysOnOk W.write_str_gives f.old result
        (Some (fault_text (duplicated_args (bounds_of range) name.now))) f.new }
{
    f.write_str("argument `")?;
    f.write_str(name)?;
    write_again(range, f)
}

impl fmt::Display for ParseError {
    ghost use Rattle.std.specs.Prelude.{Some};
    ghost use Rattle.rnix_grammar.specs.Fault.{fault_of, fault_text};

    ghost output = { λ error. Some (fault_text (fault_of error)) };

    fn fmt<W: fmt::Write>(&self, f: &mut fmt::Formatter<W>) -> fmt::Result {
        match self {
            ParseError::Unexpected(range) => write_range("error node", *range, f),
            ParseError::UnexpectedExtra(range) => write_range("unexpected token", *range, f),
            ParseError::UnexpectedWanted(kind, range, wanted) => {
                write_unwanted(*kind, *range, wanted, f)
            }
            ParseError::UnexpectedDoubleBind(range) => {
                write_range("unexpected double bind", *range, f)
            }
            ParseError::UnexpectedEOF => f.write_str("unexpected end of file"),
            ParseError::UnexpectedEOFWanted(wanted) => {
                f.write_str("unexpected end of file")?;
                write_wanted(wanted, f)
            }
            ParseError::DuplicatedArgs(range, name) => write_duplicate(*range, name.as_str(), f),
            ParseError::RecursionLimitExceeded => f.write_str("recursion limit exceeded"),
        }
    }
}

impl Error for ParseError {}
