//! Reading the texts of files.

ghost use Rattle.std.specs.Prelude.{None, option_map, string_bytes, IfOk};
ghost use Rattle.std.specs.Io.KnownBytes.{Keeps};
ghost use Rattle.nix_cli.specs.KnownTexts.{KnownTexts, Agrees};

use crate::arguments::Command;
use crate::files::{Files, Inputs, display_name, end_location};
use std::io::{Read, Write};
use std::{fmt, fs, io};

/// Reads the texts of files.
pub trait TextReader {
    // What is known of the texts of the files.
    ghost texts: { Self → KnownTexts };

    /// Reads the text of a file, or of standard input for `-`. Returns None if it cannot be read or is not UTF-8, which is reported.
    fn read_text<W: Write>(
        &self,
        rt: &HostRuntime,
        command: &Command,
        name: &str,
        out: &mut W,
    ) -> io::Result<Option<String>>
        ensures kept { Keeps (W.contents out.old) (W.contents out.new) }
        ensures text { IfOk result (λ text. Agrees (texts self.now name.now) (option_map string_bytes text)) };
}

// The reason why a text could not be read, as messages print it after the name of the file.
#[derive(Drop)]
enum ReadError {
    // The file or standard input could not be read.
    Failed(io::Error),
    // The bytes at this line and column are not UTF-8.
    NotUtf8(usize, usize),
}

impl fmt::Display for ReadError {
    fn fmt<W: fmt::Write>(&self, f: &mut fmt::Formatter<W>) -> fmt::Result {
        match self {
            ReadError::Failed(error) => write!(f, ": {error}"),
            ReadError::NotUtf8(line, column) => write!(f, ":{line}:{column}: not UTF-8"),
        }
    }
}

// Reads the text of a file, or of standard input for `-`.
fn text_of(rt: &HostRuntime, name: &str) -> Result<String, ReadError> {
    let mut bytes = Vec::new(rt.alloc());
    let outcome = if name == "-" {
        rt.stdin().read_to_end(&mut bytes).map(|_count| ())
    } else {
        fs::read(rt, name).map(|read| bytes = read)
    };
    if let Err(error) = outcome {
        return Err(ReadError::Failed(error));
    }
    match String::from_utf8(bytes) {
        Ok(text) => Ok(text),
        Err(error) => {
            let valid = error.utf8_error().valid_up_to();
            let (line, column) = match std::str::from_utf8(
                error.as_bytes().get(..valid).unwrap_or(b""),
            ) {
                Ok(text) => end_location(text),
                Err(_) => (1, 1),
            };
            Err(ReadError::NotUtf8(line, column))
        }
    }
}

/// Reads the text of a file, or of standard input for `-`. Returns None if it cannot be read or is not UTF-8, which is reported.
pub fn read_text(rt: &HostRuntime, command: &Command, name: &str) -> io::Result<Option<String>> {
    match text_of(rt, name) {
        Ok(text) => Ok(Some(text)),
        Err(unread) => {
            eprintln!(rt; "{}: {}{unread}", command.name, display_name(name))?;
            Ok(None)
        }
    }
}

// Nothing is known of the texts of the host's files.
impl TextReader for Inputs {
    ghost texts = { λ inputs name. None };

    /// Flushes `out` before it reads standard input or anything but a regular file, and before a message. The message is written even if the flush fails.
    fn read_text<W: Write>(
        &self,
        rt: &HostRuntime,
        command: &Command,
        name: &str,
        out: &mut W,
    ) -> io::Result<Option<String>> {
        if self.may_block(rt, name) {
            out.flush()?;
        }
        match text_of(rt, name) {
            Ok(text) => Ok(Some(text)),
            Err(unread) => {
                let flushed = out.flush();
                eprintln!(rt; "{}: {}{unread}", command.name, display_name(name))?;
                flushed?;
                Ok(None)
            }
        }
    }
}

impl TextReader for Files {
    ghost texts = { λ files name. None };

    fn read_text<W: Write>(
        &self,
        rt: &HostRuntime,
        command: &Command,
        name: &str,
        _out: &mut W,
    ) -> io::Result<Option<String>> {
        read_text(rt, command, name)
    }
}
