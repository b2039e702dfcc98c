//! The standard input and the files of the system, as inputs.
ghost use Rattle.std.specs.Prelude.{◌≡◌, [], None};
ghost use Rattle.std.specs.Io.{ReadsAtMost};

use crate::devices::SinkDevices;
use crate::standard_input::StandardInput;
use sedfiles::Inputs;
use sedspace::{Broken, ByteSource, FromReader};
use std::alloc::{AllocError, Global};
use std::fs::{self, File, Metadata};
use std::io::{self, ErrorKind};

/// Which file is current.
#[derive(Drop)]
enum CurrentFile {
    /// None: none was opened, or the last couldn't be or is written by the script.
    Nothing,
    /// The standard input.
    Standard,
    /// A file of the system.
    File(File),
}

/// The standard input and the files of the system. A file that is opened takes the place of the one before, which is closed first. No
/// definition gives their bytes.
#[derive(Drop)]
pub struct FileInputs<'a> {
    rt: &'a HostRuntime,
    devices: &'a SinkDevices,
    current: CurrentFile,
    standard: StandardInput,
    // Whether a read of the current file may wait, once that was asked.
    may_wait: Option<bool>,
    failures: u64,
    refusals: u64,
}

/// Whether a read of the file of this name may wait, as one of a pipe, a terminal or a device does.
fn may_wait(rt: &HostRuntime, name: &str) -> bool {
    !is_file(&fs::metadata(rt, name))
}

// Whether this is the metadata of an ordinary file.
fn is_file(metadata: &io::Result<Metadata>) -> bool {
    match metadata {
        Ok(metadata) => metadata.is_file(),
        Err(_) => false,
    }
}

impl<'a> FileInputs<'a> {
    /// Inputs of which none is open. What the devices have gathered is written out before a read that may wait.
    /// An error is that there was no memory.
    pub fn new(
        rt: &'a HostRuntime,
        devices: &'a SinkDevices,
    ) -> Result<FileInputs<'a>, AllocError> {
        Ok(FileInputs {
            rt,
            devices,
            current: CurrentFile::Nothing,
            standard: StandardInput::new(rt.alloc(), rt.stdin())?,
            may_wait: None,
            failures: 0,
            refusals: 0,
        })
    }

    // Whether a read of the current file may wait. The system is asked once for each file.
    fn may_wait(&mut self) -> bool
        ensures failures { self.new.failures ≡ self.old.failures }
        ensures refusals { self.new.refusals ≡ self.old.refusals }
    {
        if let Some(known) = self.may_wait {
            return known;
        }
        let may_wait = match &self.current {
            CurrentFile::Nothing => false,
            CurrentFile::Standard => may_wait(self.rt, "/dev/stdin"),
            CurrentFile::File(file) => !is_file(&file.metadata()),
        };
        self.may_wait = Some(may_wait);
        may_wait
    }

    // Writes out what is gathered where the next read may wait.
    fn prepare_to_read(&mut self)
        ensures failures { self.new.failures ≡ self.old.failures }
        ensures refusals { self.new.refusals ≡ self.old.refusals }
    {
        if self.devices.have_gathered() && self.may_wait() {
            self.devices.write_out(0);
        }
    }

    // Writes out what is gathered where the file of this name may wait for its other end as it is opened.
    fn prepare_to_open(&self, name: &str) {
        if self.devices.have_gathered() && may_wait(self.rt, name) {
            self.devices.write_out(0);
        }
    }

    // What is to be read: nothing where the script writes this file, since it was emptied then and what it gets is output.
    fn unless_written(&self, file: CurrentFile, metadata: io::Result<Metadata>) -> CurrentFile {
        match metadata {
            Ok(metadata) if self.devices.has_file(&metadata) => CurrentFile::Nothing,
            _ => file,
        }
    }

    // The file of this name, where it can be opened.
    fn opened(&mut self, name: &str) -> Option<CurrentFile>
        ensures failures { self.new.failures ≡ self.old.failures }
        ensures refusals { self.new.refusals ≡ self.old.refusals }
    {
        if name == "-" {
            let metadata = fs::metadata(self.rt, "/dev/stdin");
            self.standard.set_file(is_file(&metadata));
            return Some(self.unless_written(CurrentFile::Standard, metadata));
        }
        self.prepare_to_open(name);
        let file = File::open(self.rt, name).ok()?;
        let metadata = file.metadata();
        Some(self.unless_written(CurrentFile::File(file), metadata))
    }

    // Reads on in the current file.
    fn read_current(&mut self, buf: &mut [u8]) -> Result<usize, Broken>
        ensures bound { ReadsAtMost result buf.new }
        ensures failures { self.new.failures ≡ self.old.failures }
        ensures refusals { self.new.refusals ≡ self.old.refusals }
    {
        self.prepare_to_read();
        match &self.current {
            CurrentFile::Nothing => Ok(0),
            CurrentFile::Standard => self.standard.read_on(buf),
            CurrentFile::File(file) => FromReader::new(file).read(buf),
        }
    }
}

impl<'a> Inputs for FileInputs<'a> {
    ghost current = { λ _. None };

    ghost ahead = { λ _ _. None };

    ghost text = { λ _ _. None };

    ghost failures = { λ s. s.failures };

    ghost refusals = { λ s. s.refusals };

    ghost reference = { λ _. [] };

    ghost none_ahead = { λ _. tt };

    fn refused(&self) -> u64 {
        self.refusals
    }

    fn open(&mut self, name: &str) -> bool {
        self.current = CurrentFile::Nothing;
        self.may_wait = None;
        match self.opened(name) {
            Some(current) => {
                self.current = current;
                true
            }
            None => {
                self.refusals = self.refusals.saturating_add(1);
                false
            }
        }
    }

    fn read(&mut self, buf: &mut [u8]) -> Result<usize, Broken> {
        match self.read_current(buf) {
            Ok(count) => Ok(count),
            Err(Broken) => {
                self.failures = self.failures.saturating_add(1);
                Err(Broken)
            }
        }
    }

    fn give_back(&self, count: usize) {
        if let CurrentFile::Standard = self.current {
            self.standard.give_back(count);
        }
    }

    fn whole(&mut self, _alloc: Global, name: &str) -> Result<Option<Vec<u8>>, AllocError> {
        match fs::read(self.rt, name) {
            Ok(bytes) => Ok(Some(bytes)),
            Err(error) if error.kind() == ErrorKind::OutOfMemory => Err(AllocError),
            Err(_) => Ok(None),
        }
    }
}
