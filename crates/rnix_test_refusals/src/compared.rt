//! Compares output as it is written, so that only the tested calls request memory.

use rnix::Parse;
use rnix_print::dump;
use std::io;
use std::io::Write;

/// A writer that compares what is written with the wanted bytes.
#[derive(Drop)]
pub(crate) struct Compared<'a> {
    rest: &'a [u8],
    differs: bool,
    writes: u64,
}

impl<'a> Compared<'a> {
    /// A writer that expects these bytes.
    pub(crate) fn new(wanted: &'a str) -> Compared<'a> {
        Compared {
            rest: wanted.as_bytes(),
            differs: false,
            writes: 0,
        }
    }

    /// Whether just the wanted bytes were written.
    pub(crate) fn is_whole(&self) -> bool {
        !self.differs && self.rest.is_empty()
    }

    /// Whether no write was made.
    pub(crate) fn is_untouched(&self) -> bool {
        self.writes == 0
    }
}

impl Write for Compared<'_> {
    fn write(&mut self, buf: &[u8]) -> io::Result<usize> {
        self.writes = self.writes.saturating_add(1);
        match self.rest.strip_prefix(buf) {
            Some(rest) => self.rest = rest,
            None => self.differs = true,
        }
        Ok(buf.len())
    }

    fn flush(&mut self) -> io::Result<()> {
        Ok(())
    }
}

/// Whether the errors of a parse, and then its tree, print as wanted.
pub(crate) fn prints(read: &Parse, wanted: &str) -> bool {
    let mut out = Compared::new(wanted);
    for error in read.errors() {
        if write!(out, "error: {error}\n").is_err() {
            return false;
        }
    }
    dump(&read.syntax(), &mut out).is_ok() && out.is_whole()
}
