//! Readers and writers of std as sources and outputs.
ghost use Rattle.std.specs.Prelude.{◌≡◌, ◌==◌, [], None, if◌then◌else◌};

use super::{Broken, ByteSource, Outputs};
use std::io::{Error, ErrorKind, Read, Write};

/// A reader of std as a source. A read that a signal interrupts is tried again, up to 2^64 - 1 times, and doesn't count
/// as a failure.
#[derive(Drop)]
pub struct FromReader<R> {
    reader: R,
    failed: u64,
}

impl<R> FromReader<R> {
    /// Makes a source of the reader, with no failure so far.
    pub fn new(reader: R) -> FromReader<R>
        ensures { result ≡ record { reader = reader; failed = 0 } }
    {
        FromReader { reader, failed: 0 }
    }

    /// The reader.
    pub fn reader(&self) -> &R
        ensures { result.now ≡ self.now.reader }
    {
        &self.reader
    }

    /// How often it failed.
    pub fn failures(&self) -> u64
        ensures { result ≡ self.now.failed }
    {
        self.failed
    }
}

impl<R: Read> ByteSource for FromReader<R> {
    ghost remaining = { λ s. R.remaining s.reader };

    ghost failures = { λ s. s.failed };

    ghost reads = { λ _. None };

    ghost reference = { λ _. [] };

    fn read(&mut self, buf: &mut [u8]) -> Result<usize, Broken> {
        'tries: for _ in 0..u64::MAX {
            match self.reader.read(buf) {
                Ok(count) => return Ok(count),
                Err(error) if is_interrupted(&error) => {}
                Err(_) => break,
            }
        }
        self.failed = self.failed.saturating_add(1);
        Err(Broken)
    }
}

/// A writer of std as outputs of one sink, sink 0. A write that a signal interrupts is tried again, up to 2^64 - 1
/// times, and doesn't count as a failure; a write that takes none of some bytes does.
#[derive(Drop)]
pub struct ToWriter<W> {
    writer: W,
    failed: u64,
}

impl<W> ToWriter<W> {
    /// Makes a sink of the writer, with no failure so far.
    pub fn new(writer: W) -> ToWriter<W>
        ensures { result ≡ record { writer = writer; failed = 0 } }
    {
        ToWriter { writer, failed: 0 }
    }

    /// The writer.
    pub fn writer(&self) -> &W
        ensures { result.now ≡ self.now.writer }
    {
        &self.writer
    }

    /// How often it failed.
    pub fn failures(&self) -> u64
        ensures { result ≡ self.now.failed }
    {
        self.failed
    }

    /// Gives the writer back.
    pub fn into_writer(self) -> W
        ensures { result ≡ self.writer }
    {
        self.writer
    }
}

impl<W: Write> Outputs for ToWriter<W> {
    ghost count = { λ o. 1 };

    ghost contents = { λ o k. if k == 0 then W.contents o.writer else None };

    ghost failures = { λ o k. if k == 0 then o.failed else 0 };

    ghost names = { λ _. [] };

    fn sinks(&self) -> usize {
        1
    }

    fn write(&mut self, sink: usize, bytes: &[u8]) -> Result<usize, Broken> {
        'tries: for _ in 0..u64::MAX {
            match self.writer.write(bytes) {
                Ok(count) if count > 0 || bytes.is_empty() => return Ok(count),
                Err(error) if is_interrupted(&error) => {}
                _ => break,
            }
        }
        self.failed = self.failed.saturating_add(1);
        Err(Broken)
    }
}

// Whether a signal came before anything was read or written.
fn is_interrupted(error: &Error) -> bool {
    error.kind() == ErrorKind::Interrupted
}
