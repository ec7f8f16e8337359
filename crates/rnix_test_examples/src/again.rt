//! A parse after an edit, as docs/uses.md shows it.

ghost use Rattle.std.specs.Prelude.{OnOk};
ghost use Rattle.rnix_reparse.specs.ParsedText.{IsParsedText};

use rnix::Parse;
use rnix_reparse::{editable_range, parse_text, reparse_in_place};
use std::alloc::{AllocError, Global};
use std::test::Fail;

// Writes a text in place of some bytes, and updates the parse. Returns false, and changes nothing, if the text has no such range.
fn edit(
    alloc: Global,
    parse: &mut Parse,
    start: usize,
    end: usize,
    new: &str,
) -> Result<bool, AllocError>
    requires { IsParsedText parse.old }
    ensures { OnOk result (IsParsedText parse.new) }
{
    let Some(range) = editable_range(parse.text(), start, end) else {
        return Ok(false);
    };
    reparse_in_place(alloc, parse, range, new)?;
    Ok(true)
}

#[test]
fn a_parse_follows_two_edits(rt: HostRuntime) -> Result<(), Fail> {
    let mut parse = parse_text(rt.alloc(), "{ a = [ 1 2 ]; }")?;
    assert!(rt; edit(rt.alloc(), &mut parse, 10, 11, "f x")?);
    assert_eq!(rt; parse.text(), "{ a = [ 1 f x ]; }");
    assert!(rt; parse.errors().is_empty());
    assert!(rt; edit(rt.alloc(), &mut parse, 14, 15, "")?);
    assert!(rt; !parse.errors().is_empty());
    Ok(())
}

#[test]
fn a_range_after_the_end_changes_nothing(rt: HostRuntime) -> Result<(), Fail> {
    let mut parse = parse_text(rt.alloc(), "[ 1 ]")?;
    assert!(rt; !edit(rt.alloc(), &mut parse, 5, 6, "2")?);
    assert_eq!(rt; parse.text(), "[ 1 ]");
    Ok(())
}
