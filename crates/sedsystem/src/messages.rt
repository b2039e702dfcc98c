//! The standard error, to which each message goes in one write.

use std::alloc::Global;
use std::io::{self, BufWriter, Write};
use std::rt::Stderr;

/// How many bytes of a message go in one write: one with the longest name that a file can have.
const MESSAGE_ROOM: usize = 8192;

/// The standard error. What is written to it is gathered until it ends with a newline, as each message does.
#[derive(Drop)]
pub struct Messages {
    gathered: BufWriter<Stderr>,
}

impl Messages {
    /// No message yet. An error is that there was no memory.
    pub fn new(alloc: Global, errors: Stderr) -> io::Result<Messages> {
        Ok(Messages {
            gathered: BufWriter::with_capacity(alloc, MESSAGE_ROOM, errors)?,
        })
    }
}

impl Write for Messages {
    fn write(&mut self, bytes: &[u8]) -> io::Result<usize> {
        let count = self.gathered.write(bytes)?;
        if bytes.ends_with(b"\n") {
            self.gathered.flush()?;
        }
        Ok(count)
    }

    fn flush(&mut self) -> io::Result<()> {
        self.gathered.flush()
    }
}
