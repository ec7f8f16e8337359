//! Exit statuses and refusals.

ghost use Rattle.std.specs.Prelude.{◌≡◌};
ghost use Rattle.std.specs.Io.KnownBytes.{Keeps};
ghost use Rattle.nix_cli.specs.Statuses.{file_status};

use crate::arguments::Command;
use std::io::{self, Write};
use std::process::ExitCode;

/// The exit status if something was found.
pub const FOUND: u8 = 1;
/// The exit status if something could not be done.
pub const FAILED: u8 = 2;

/// Returns the exit status for a file: 0 if it is good, and otherwise [`FOUND`].
pub fn file_status(is_good: bool) -> u8
    ensures { result ≡ file_status is_good }
{
    if is_good { 0 } else { FOUND }
}

/// Reports on standard error why something was refused.
pub fn refuse(rt: &HostRuntime, command: &Command, reason: &str) -> io::Result<()> {
    eprintln!(rt; "{}: {reason}", command.name)
}

/// Flushes `out`, and then reports on standard error what is wrong at a line and column of a file. The message is written even if the flush fails.
pub fn refuse_after_output<W: Write>(
    rt: &HostRuntime,
    command: &Command,
    file: &str,
    location: (usize, usize),
    reason: &str,
    out: &mut W,
) -> io::Result<()>
    ensures { Keeps (W.contents out.old) (W.contents out.new) }
{
    let flushed = out.flush();
    let (line, column) = location;
    eprintln!(rt; "{}: {file}:{line}:{column}: {reason}", command.name)?;
    flushed
}

/// Returns the exit code of a command: its status, or [`FAILED`] after an error, which is reported on standard error.
pub fn end(rt: &HostRuntime, command: &Command, outcome: io::Result<u8>) -> ExitCode {
    match outcome {
        Ok(status) => ExitCode::from(status),
        Err(error) => {
            // If writing this fails too, there is nothing else to do.
            let _said = eprintln!(rt; "{}: {error}", command.name);
            ExitCode::from(FAILED)
        }
    }
}
