//! The lines of errors.

ghost use Rattle.std.specs.Prelude.{OnOk, map};
ghost use Rattle.std.specs.Io.KnownBytes.{Appends};
ghost use Rattle.rnix_grammar.specs.Fault.{fault_of};
ghost use Rattle.rnix_print.specs.OutputLines.{error_lines};

use rnix_grammar::ParseError;
use std::io;
use std::io::Write;

/// Prints the errors, one line for each.
pub(crate) fn write_errors<W: Write>(errors: &[ParseError], out: &mut W) -> io::Result<()>
    ensures { OnOk result (Appends (W.contents out.old) (W.contents out.new) (error_lines (map fault_of errors.now))) }
{
    for error in errors {
        write!(out, "error: {error}\n")?;
    }
    Ok(())
}
