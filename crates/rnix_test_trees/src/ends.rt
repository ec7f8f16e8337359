//! A writer to memory that takes one byte a call, and fails at one of its calls.

use std::alloc::Global;
use std::io;
use std::io::{ErrorKind, Write};

/// No call has this number.
pub(crate) const NEVER: u64 = u64::MAX;

/// A writer that fails at the write with a number, from 0 on: with an error of a kind, or, if there is no kind, by accepting no byte.
#[derive(Drop)]
pub(crate) struct Output {
    /// What was written.
    pub(crate) bytes: Vec<u8>,
    /// How many writes were made.
    pub(crate) writes: u64,
    fails_at: u64,
    kind: Option<ErrorKind>,
}

impl Output {
    /// A writer to which nothing has been written.
    pub(crate) fn new(alloc: Global, fails_at: u64, kind: Option<ErrorKind>) -> Output {
        Output {
            bytes: Vec::new(alloc),
            writes: 0,
            fails_at,
            kind,
        }
    }

    /// Whether the write that failed was the last one, and the bytes written before it are the first of the wanted ones.
    pub(crate) fn stopped(&self, wanted: &[u8]) -> bool {
        self.writes == self.fails_at.saturating_add(1) && wanted.starts_with(self.bytes.as_slice())
    }
}

impl Write for Output {
    fn write(&mut self, buf: &[u8]) -> io::Result<usize> {
        let write = self.writes;
        self.writes = write.saturating_add(1);
        if write == self.fails_at {
            return match self.kind {
                Some(kind) => Err(io::Error::from(kind)),
                None => Ok(0),
            };
        }
        let Some(byte) = buf.first() else {
            return Ok(0);
        };
        self.bytes.push(*byte)?;
        Ok(1)
    }

    fn flush(&mut self) -> io::Result<()> {
        Ok(())
    }
}
