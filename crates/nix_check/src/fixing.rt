//! Fixing files.

ghost use Rattle.std.specs.Prelude.{◌≡◌, ℕ, List, false, codes, map, string_bytes, IfOk, OnOk, IsFalse};
ghost use Rattle.std.specs.{Str.bytes_eq, Io.KnownBytes.Appends};
ghost use Rattle.nix_check.specs.Tallies.{AreTallied};
ghost use Rattle.nix_check.specs.Fixing.{fixes_line, remaining_line, disabled_by, IsFixOf, IsTextFixed, IsFileFixed, AreFixed};

use crate::check::check_text;
use crate::command::COMMAND;
use crate::lint_fixes::{LintFixed, lint_fixed};
use crate::style::Style;
use crate::tally::{Counts, Tally};
use nix_cli::{Files, TextReader, display_name, replace_text};
use nix_diff::unified_diff;
use nix_fixes::fixed;
use std::alloc::{AllocError, Global};
use std::io::{self, Write};

// The greatest number of diagnostics of a file for which fixes are tried. Each attempt takes about as long as checking the file.
const MAX_TRIED: usize = 1000;

// Returns a text with fixes: of its errors, and if none are left, of what lints find.
fn fixed_text(alloc: Global, text: &str, disabled: &[String]) -> Result<LintFixed, AllocError>
    ensures { IfOk result (λ made. IsFixOf (map string_bytes disabled.now) text.now made.fixes (string_bytes made.text)) }
{
    let first = fixed(alloc, text, MAX_TRIED)?;
    let then = lint_fixed(alloc, first.text.as_str(), disabled, MAX_TRIED)?;
    Ok(LintFixed {
        text: then.text,
        fixes: first.fixes.saturating_add(then.fixes),
    })
}

// Prints the diff of a text and its fixed text.
fn write_diff(rt: &HostRuntime, name: &str, text: &str, made: &str) -> io::Result<()> {
    let diff = unified_diff(rt.alloc(), display_name(name), text, made)?;
    rt.stdout().write_all(diff.as_bytes())
}

// Writes a fixed text: to its file if it has fixes, or to standard output if it was read from standard input. Reports what fails. Or prints only what changed.
fn write_fixed(
    rt: &HostRuntime,
    name: &str,
    text: &str,
    made: &LintFixed,
    prints_diff: bool,
) -> io::Result<bool>
    ensures { IfOk result (λ is_written. IsFalse is_written → (bytes_eq name.now (codes "-") ≡ false) × ¬ (made.now.fixes ≡ 0)) }
{
    if prints_diff {
        write_diff(rt, name, text, made.text.as_str())?;
        return Ok(true);
    }
    if name == "-" {
        rt.stdout().write_all(made.text.as_bytes())?;
        return Ok(true);
    }
    if made.fixes == 0 {
        return Ok(true);
    }
    match replace_text(rt, name, made.text.as_str()) {
        Ok(()) => Ok(true),
        Err(error) => {
            eprintln!(rt; "{}: {name}: {error}", COMMAND.name)?;
            Ok(false)
        }
    }
}

// Writes the number of fixes of a text, if it has some.
fn write_fixes<W: Write>(name: &str, fixes: usize, out: &mut W) -> io::Result<()>
    ensures { OnOk result (Appends (W.contents out.old) (W.contents out.new) (fixes_line name.now fixes)) }
{
    match fixes {
        0 => Ok(()),
        1 => writeln!(out, "{name}: 1 fix"),
        more => writeln!(out, "{name}: {more} fixes"),
    }
}

// Writes the number of fixes of a text and the remaining errors, and returns the number of these.
fn write_result<W: Write>(
    alloc: Global,
    name: &str,
    made: &LintFixed,
    style: Style<'_>,
    out: &mut W,
) -> io::Result<Counts>
    ensures { IfOk result (λ remaining. (text : List ℕ) → IsFixOf (disabled_by style.entry) text made.now.fixes (string_bytes made.now.text) →
        IsTextFixed style.entry name.now text (W.contents out.old) (W.contents out.new) remaining) }
{
    write_fixes(name, made.fixes, out)?;
    let remaining = check_text(alloc, name, made.text.as_str(), style, 0, out)?;
    out.flush()?;
    Ok(remaining)
}

// Fixes a file, or for `-` prints the fixed text of standard input. Writes the number of fixes and the remaining errors, and returns the counts with these,
// or with the file if it could not be read or written.
fn fix_file<R: TextReader, W: Write>(
    rt: &HostRuntime,
    reader: &R,
    name: &str,
    style: Style<'_>,
    tally: Tally,
    out: &mut W,
) -> io::Result<Tally>
    ensures { IfOk result (IsFileFixed style.entry (R.texts reader.now) name.now tally (W.contents out.old) (W.contents out.new)) }
{
    let Some(text) = reader.read_text(rt, &COMMAND, name, out)? else {
        return Ok(tally.with_unread());
    };
    let made = fixed_text(rt.alloc(), text.as_str(), style.disabled)?;
    if !write_fixed(rt, name, text.as_str(), &made, style.prints_diff)? {
        return Ok(tally.with_unread());
    }
    let remaining = write_result(rt.alloc(), display_name(name), &made, style, out)?;
    Ok(tally.with_counts(remaining))
}

// Fixes the files in order.
fn fix_each<R: TextReader, W: Write>(
    rt: &HostRuntime,
    reader: &R,
    files: &Files,
    style: Style<'_>,
    out: &mut W,
) -> io::Result<Tally>
    ensures { IfOk result (AreTallied (IsFileFixed style.entry (R.texts reader.now)) files.now.failed (W.contents out.old)
        (map string_bytes files.now.names.items) (W.contents out.new)) }
{
    let mut tally = Tally {
        errors: 0,
        warnings: 0,
        faulty: 0,
        unread: files.failed,
    };
    for number in 0..files.names.len() {
        let name = files.names[number].as_str();
        tally = fix_file(rt, reader, name, style, tally, out)?;
    }
    Ok(tally)
}

// Writes the last line, the number of remaining errors. There is no such line if no errors remain but some files could not be read or written.
fn write_remaining<W: Write>(tally: Tally, out: &mut W) -> io::Result<()>
    ensures { OnOk result (Appends (W.contents out.old) (W.contents out.new) (remaining_line tally)) }
{
    let Tally { errors, unread, .. } = tally;
    if errors == 0 {
        out.write_all(if unread == 0 {
            b"no errors are left\n"
        } else {
            b""
        })
    } else if errors == 1 {
        out.write_all(b"1 error is left\n")
    } else {
        writeln!(out, "{errors} errors are left")
    }
}

/// Fixes files, writes the numbers of fixes and the remaining errors, and returns the exit status.
pub fn fix_files<R: TextReader, W: Write>(
    rt: &HostRuntime,
    reader: &R,
    files: &Files,
    style: Style<'_>,
    out: &mut W,
) -> io::Result<u8>
    ensures { IfOk result (AreFixed style.entry (R.texts reader.now) files.now.failed (map string_bytes files.now.names.items)
        (W.contents out.old) (W.contents out.new)) }
{
    let tally = fix_each(rt, reader, files, style, out)?;
    write_remaining(tally, out)?;
    out.flush()?;
    Ok(tally.status(style.is_strict))
}
