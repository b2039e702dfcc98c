//! A file or the standard output as a sink, to which bytes are written in larger pieces.
ghost use Rattle.std.specs.Prelude.{◌<◌, length, IfOk};
ghost use Rattle.std.specs.Io.{WritesAtMost};

use sedspace::Broken;
use std::alloc::Global;
use std::fs::{File, Metadata};
use std::io::{self, BufWriter, IsTerminal, Write};
use std::os::unix::fs::MetadataExt;
use std::rt::Stdout;

/// Where a sink's bytes go.
#[derive(Drop)]
pub(crate) enum Device {
    /// The standard output.
    Standard(Stdout),
    /// A file that the script writes.
    File(File),
}

impl Device {
    fn is_terminal(&self) -> bool {
        match self {
            Device::Standard(output) => output.is_terminal(),
            Device::File(file) => file.is_terminal(),
        }
    }
}

impl Write for Device {
    fn write(&mut self, bytes: &[u8]) -> io::Result<usize> {
        match self {
            Device::Standard(output) => output.write(bytes),
            Device::File(file) => file.write(bytes),
        }
    }

    fn flush(&mut self) -> io::Result<()> {
        match self {
            Device::Standard(output) => output.flush(),
            Device::File(file) => file.flush(),
        }
    }
}

/// A device whose bytes are gathered, up to a number, before they are written. A terminal gets them with each newline.
#[derive(Drop)]
pub(crate) struct BufferedDevice {
    writer: BufWriter<Device>,
    is_terminal: bool,
    // What it is, where that is known.
    metadata: Option<Metadata>,
    // Whether it failed, which each later call answers.
    is_broken: bool,
}

impl BufferedDevice {
    /// Gathers up to `room` bytes for a device, which is what its metadata say.
    pub(crate) fn new(
        alloc: Global,
        device: Device,
        metadata: Option<Metadata>,
        room: usize,
    ) -> io::Result<BufferedDevice> {
        let is_terminal = device.is_terminal();
        Ok(BufferedDevice {
            writer: BufWriter::with_capacity(alloc, room, device)?,
            is_terminal,
            metadata,
            is_broken: false,
        })
    }

    /// Whether it is the ordinary file of this metadata.
    pub(crate) fn is_file(&self, other: &Metadata) -> bool {
        match &self.metadata {
            Some(own) => own.is_file() && own.dev() == other.dev() && own.ino() == other.ino(),
            None => false,
        }
    }

    /// Whether taking the bytes writes to a device that may wait, as any but an ordinary file does.
    pub(crate) fn may_wait_to_take(&self, bytes: &[u8]) -> bool {
        let room = self
            .writer
            .capacity()
            .saturating_sub(self.writer.buffer().len());
        if bytes.len() <= room && !self.is_terminal {
            return false;
        }
        match &self.metadata {
            Some(own) => !own.is_file(),
            None => true,
        }
    }

    /// Whether there are bytes that aren't written yet.
    pub(crate) fn has_gathered(&self) -> bool {
        !self.writer.buffer().is_empty()
    }

    /// Takes the bytes, and says how many they are. No call after a failure takes any.
    pub(crate) fn write(&mut self, bytes: &[u8]) -> Result<usize, Broken>
        ensures bound { WritesAtMost result bytes.now }
        ensures progress { IfOk result (λ n. 0 < length bytes.now → 0 < n) }
    {
        if self.is_broken {
            return Err(Broken);
        }
        if self.writer.write_all(bytes).is_err() {
            self.is_broken = true;
            return Err(Broken);
        }
        if self.is_terminal && bytes.ends_with(b"\n") {
            self.flush()?;
        }
        Ok(bytes.len())
    }

    /// Writes out what is gathered, unless it failed before. A failure is answered by each later call, too.
    pub(crate) fn flush(&mut self) -> Result<(), Broken> {
        if self.is_broken || self.writer.flush().is_err() {
            self.is_broken = true;
            return Err(Broken);
        }
        Ok(())
    }
}
