//! Finding and printing the diagnostics of one text.

ghost use Rattle.std.specs.Prelude.{◌≡◌, ◌+◌, ◌==◌, List, Some, take, IfOk, OnOk};
ghost use Rattle.nix_diagnostics.specs.declared.diagnostic.Diagnostic.{Diagnostic};
ghost use Rattle.std.specs.Io.KnownBytes.{Appends};
ghost use Rattle.nix_cli.specs.MessageLocations.{IsIndexed};
ghost use Rattle.nix_lints.specs.Items.{Item, IsReported};
ghost use Rattle.nix_check.specs.Listed.{Prints};
ghost use Rattle.nix_check.specs.PrintedFindings.{more_errors, more_of_both, more_line, counts_of, IsPrinted, AreFormed, ArePrinted, IsChecked};

use crate::json::write_json;
use crate::sarif::write_separated;
use crate::style::{Format, Style};
use crate::tally::Counts;
use crate::text::write_text;
use nix_cli::Source;
use nix_diagnostics::Diagnostic;
use nix_lints::Reported;
use rnix::Root;
use rnix_text::{ColumnUnit, LineIndex};
use std::alloc::Global;
use std::io::{self, Write};

// Writes a diagnostic in the format of the style.
fn write_diagnostic<W: Write>(
    source: &Source<'_>,
    diagnostic: &Diagnostic,
    style: Style<'_>,
    is_first: bool,
    out: &mut W,
) -> io::Result<()>
    requires { IsIndexed source.now }
    ensures { OnOk result
        (Prints (IsPrinted style.entry source.now.name.now source.now.text.now is_first diagnostic.now) (W.contents out.old) (W.contents out.new)) }
{
    match style.format {
        Format::Text => write_text(source, diagnostic, style.is_colored, out),
        Format::Json => write_json(source, diagnostic, out),
        Format::Sarif => write_separated(source, diagnostic, is_first, out),
    }
}

// Writes a diagnostic, if there is one.
fn write_if<W: Write>(
    source: &Source<'_>,
    diagnostic: &Option<Diagnostic>,
    style: Style<'_>,
    is_first: bool,
    out: &mut W,
) -> io::Result<()>
    requires { IsIndexed source.now }
    ensures { OnOk result ((d : Diagnostic) → diagnostic.now ≡ Some d →
        Prints (IsPrinted style.entry source.now.name.now source.now.text.now is_first d) (W.contents out.old) (W.contents out.new)) }
{
    match diagnostic {
        Some(diagnostic) => write_diagnostic(source, diagnostic, style, is_first, out),
        None => Ok(()),
    }
}

// Returns whether a diagnostic is the first one of all: none precede it in its text or in others.
fn is_first_of_all(earlier: usize, number: usize) -> bool
    ensures { result ≡ (earlier + number == 0) }
{
    if earlier == 0 {
        return number == 0;
    }
    false
}

// Writes the first diagnostics, after `earlier` diagnostics of other texts.
fn write_first<W: Write>(
    alloc: Global,
    source: &Source<'_>,
    reported: &mut Reported<'_>,
    style: Style<'_>,
    earlier: usize,
    out: &mut W,
) -> io::Result<()>
    requires { IsIndexed source.now }
    ensures { OnOk result ((items : List Item) → IsReported items reported.old →
        Prints (AreFormed style.entry source.now.name.now source.now.text.now earlier (take style.entry.limit items))
        (W.contents out.old) (W.contents out.new)) }
{
    for number in 0..reported.len().min(style.limit) {
        let diagnostic = reported.diagnostic(alloc, number)?;
        let is_first = is_first_of_all(earlier, number);
        write_if(source, &diagnostic, style, is_first, out)?;
    }
    Ok(())
}

// Writes a line on errors that are not shown.
fn write_more_errors<W: Write>(name: &str, more: usize, out: &mut W) -> io::Result<()>
    ensures { OnOk result (Appends (W.contents out.old) (W.contents out.new) (more_errors name.now more)) }
{
    if more == 0 {
        Ok(())
    } else if more == 1 {
        writeln!(out, "{name}: 1 more error (shown with --all)")
    } else {
        writeln!(out, "{name}: {more} more errors (shown with --all)")
    }
}

// Writes a line on errors and warnings that are not shown.
fn write_more_of_both<W: Write>(name: &str, more: usize, out: &mut W) -> io::Result<()>
    ensures { OnOk result (Appends (W.contents out.old) (W.contents out.new) (more_of_both name.now more)) }
{
    if more == 0 {
        Ok(())
    } else if more == 1 {
        writeln!(out, "{name}: 1 more error or warning (shown with --all)")
    } else {
        writeln!(
            out,
            "{name}: {more} more errors and warnings (shown with --all)"
        )
    }
}

// Writes a line on diagnostics that are not shown.
fn write_more<W: Write>(name: &str, has_warnings: bool, more: usize, out: &mut W) -> io::Result<()>
    ensures { OnOk result (Appends (W.contents out.old) (W.contents out.new) (more_line name.now has_warnings more)) }
{
    if has_warnings {
        write_more_of_both(name, more, out)
    } else {
        write_more_errors(name, more, out)
    }
}

// Returns the numbers of errors and warnings.
fn counts_of(reported: &Reported<'_>) -> Counts
    ensures { (items : List Item) → IsReported items reported.now → result ≡ counts_of items }
{
    let errors = reported.errors();
    Counts {
        errors,
        warnings: reported.len().saturating_sub(errors),
    }
}

// Writes the first diagnostics up to the limit, and a line on the others.
fn write_reported<W: Write>(
    alloc: Global,
    source: &Source<'_>,
    reported: &mut Reported<'_>,
    style: Style<'_>,
    earlier: usize,
    out: &mut W,
) -> io::Result<Counts>
    requires { IsIndexed source.now }
    ensures printed { OnOk result ((items : List Item) → IsReported items reported.old →
        Prints (ArePrinted style.entry source.now.name.now source.now.text.now earlier items) (W.contents out.old) (W.contents out.new)) }
    ensures counted { IfOk result (λ counts. (items : List Item) → IsReported items reported.old → counts ≡ counts_of items) }
{
    let counts = counts_of(reported);
    let more = reported.len().saturating_sub(style.limit);
    write_first(alloc, source, reported, style, earlier, out)?;
    write_more(source.name, counts.warnings > 0, more, out)?;
    Ok(counts)
}

/// Writes the diagnostics of a text, up to the limit, after `earlier` diagnostics of other texts, and returns their numbers. Columns count characters, from 1.
pub fn check_text<W: Write>(
    alloc: Global,
    name: &str,
    text: &str,
    style: Style<'_>,
    earlier: usize,
    out: &mut W,
) -> io::Result<Counts>
    ensures { IfOk result (IsChecked style.entry name.now text.now earlier (W.contents out.old) (W.contents out.new)) }
{
    let read = Root::parse(alloc, text)?;
    let mut reported = Reported::new(alloc, &read, style.is_each, style.disabled)?;
    if reported.len() == 0 {
        return Ok(Counts {
            errors: 0,
            warnings: 0,
        });
    }
    let index = LineIndex::new(alloc, text, ColumnUnit::Chars)?;
    let source = Source {
        name,
        text,
        index: &index,
    };
    let counts = write_reported(alloc, &source, &mut reported, style, earlier, out)?;
    Ok(counts)
}
