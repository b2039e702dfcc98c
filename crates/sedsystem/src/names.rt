//! The files that a script reads, as texts.
ghost use Rattle.std.specs.Prelude.{◌≡◌, ◌≤◌, [], None, length};

use crate::devices::SinkDevices;
use sedfiles::Names;
use sedspace::{ByteSource, FromReader, Texts};
use std::alloc::AllocError;
use std::fs::{self, File};
use std::io::{Seek, SeekFrom};
use std::marker::Model;
use std::str;

/// A file that is being read: its number, how far it has been read, and whether a read of it may wait.
#[derive(Drop)]
struct OpenText {
    file: File,
    number: usize,
    offset: u64,
    may_wait: bool,
}

impl OpenText {
    /// Opens the file of this name, to be read from the place on.
    fn new(
        rt: &HostRuntime,
        name: &str,
        number: usize,
        offset: u64,
        may_wait: bool,
    ) -> Option<OpenText> {
        let mut file = File::open(rt, name).ok()?;
        if offset > 0 {
            file.seek(SeekFrom::Start(offset)).ok()?;
        }
        Some(OpenText {
            file,
            number,
            offset,
            may_wait,
        })
    }

    /// Reads on. A failure is the end.
    fn read(&mut self, buf: &mut [u8]) -> usize
        ensures { result ≤ length buf.new }
    {
        let count = FromReader::new(&self.file).read(buf).unwrap_or(0);
        self.offset = self.offset.saturating_add(count as u64);
        count
    }
}

/// The files that the script reads. Each is opened where it is read from its start, and stays open to its end, so that a
/// pipe is read on too. No definition gives their bytes.
#[derive(Drop)]
pub struct FileNames<'a> {
    rt: &'a HostRuntime,
    devices: &'a SinkDevices,
    names: Vec<Vec<u8>>,
    reading: Option<OpenText>,
}

impl<'a> Model for FileNames<'a> {
    ghost use Rattle.std.specs.Prelude.{List, ℕ, map};

    ghost Value = { List (List ℕ) };

    ghost view = { λ s. map (λ name. name.items) s.names.items };
}

impl<'a> FileNames<'a> {
    /// Files of which none is named. What the devices have gathered for files is written out before one is read, so that
    /// it may be one of those; and what they have gathered for all, where opening it or a read may wait.
    pub fn new(rt: &'a HostRuntime, devices: &'a SinkDevices) -> FileNames<'a>
        ensures { result ≡ [] }
    {
        FileNames {
            rt,
            devices,
            names: Vec::new(rt.alloc()),
            reading: None,
        }
    }

    // Whether the file of this number was read up to this place, so that the next read goes on there.
    fn is_at(&self, number: usize, offset: u64) -> bool {
        match &self.reading {
            Some(reading) => reading.number == number && reading.offset == offset && offset > 0,
            None => false,
        }
    }

    // The name of the file of this number.
    fn name_of(&self, number: usize) -> Option<&str> {
        str::from_utf8(self.names.get(number)?.as_slice()).ok()
    }

    // Opens the file of this number, to be read from the place on.
    fn opened(&self, number: usize, offset: u64) -> Option<OpenText> {
        let name = self.name_of(number)?;
        let may_wait = !fs::metadata(self.rt, name).ok()?.is_file();
        self.devices.write_out(if may_wait { 0 } else { 1 });
        OpenText::new(self.rt, name, number, offset, may_wait)
    }
}

impl<'a> Texts for FileNames<'a> {
    ghost text = { λ _ _. None };

    fn read_at(&mut self, number: usize, offset: u64, buf: &mut [u8]) -> usize {
        if !self.is_at(number, offset) {
            self.reading = self.opened(number, offset);
        }
        let Some(reading) = &mut self.reading else {
            return 0;
        };
        if reading.may_wait {
            self.devices.write_out(0);
        }
        let count = reading.read(buf);
        if count == 0 {
            self.reading = None;
        }
        count
    }
}

impl<'a> Names for FileNames<'a> {
    ghost named = { λ s. length s };

    ghost file = { λ _ _. None };

    fn name(&mut self, _number: usize, name: &[u8]) -> Result<(), AllocError> {
        let name = name.to_vec(self.rt.alloc())?;
        self.names.push(name)?;
        Ok(())
    }
}
