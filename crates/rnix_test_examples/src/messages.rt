//! Messages for people and fixes, as docs/uses.md shows them.

use nix_diagnostics::diagnostics;
use nix_fixes::fixed;
use rnix::Root;
use std::alloc::Global;
use std::io;
use std::io::Write;
use std::test::Fail;

// Prints the diagnostics of a text, with offsets in bytes.
fn print_errors<W: Write>(alloc: Global, text: &str, out: &mut W) -> io::Result<()> {
    for found in &diagnostics(alloc, &Root::parse(alloc, text)?)? {
        writeln!(out, "{}: {}", found.range.start(), found.message)?;
        for note in &found.notes {
            let range = note.range.unwrap_or(found.range);
            writeln!(out, "{}: {}", range.start(), note.message)?;
        }
    }
    Ok(())
}

// Prints a text with its fixes; at most 100 diagnostics are tried.
fn print_fixed<W: Write>(alloc: Global, text: &str, out: &mut W) -> io::Result<()> {
    out.write_all(fixed(alloc, text, 100)?.text.as_bytes())
}

#[test]
fn a_missing_semicolon_is_explained(rt: HostRuntime) -> Result<(), Fail> {
    let mut printed = Vec::new(rt.alloc());
    print_errors(rt.alloc(), "{ a = \"x\" b = 2; }", &mut printed)?;
    let wanted =
        "12: expected \";\" after the value of \"a\", found \"=\"\n9: \";\" is missing here\n";
    assert_eq!(rt; printed.as_slice(), wanted.as_bytes());
    Ok(())
}

#[test]
fn a_missing_semicolon_is_added(rt: HostRuntime) -> Result<(), Fail> {
    let mut printed = Vec::new(rt.alloc());
    print_fixed(rt.alloc(), "{ a = \"x\" b = 2; }", &mut printed)?;
    assert_eq!(rt; printed.as_slice(), "{ a = \"x\"; b = 2; }".as_bytes());
    Ok(())
}
