//! The devices of all sinks. Those that read share them, since what is gathered is written out before a read that may
//! wait, and before a write that may.
ghost use Rattle.std.specs.Prelude.{◌<◌, length, IfOk};
ghost use Rattle.std.specs.Io.{WritesAtMost};

use crate::output::{BufferedDevice, Device};
use sedspace::Broken;
use std::alloc::Global;
use std::cell::RefCell;
use std::fs::{self, File, Metadata};
use std::io;
use std::rt::Stdout;

/// How many bytes are gathered before they are written to the standard output.
const OUTPUT_ROOM: usize = 65536;

/// How many bytes are gathered before they are written to a file.
const FILE_ROOM: usize = 8192;

/// The devices of the sinks, by number. `FileSinks` writes to them, and `FileInputs` and `FileNames` have them written out.
#[derive(Drop)]
pub struct SinkDevices {
    all: RefCell<Vec<BufferedDevice>>,
}

impl SinkDevices {
    /// The standard output alone, as sink 0. An error is that there was no memory.
    pub fn new(rt: &HostRuntime, output: Stdout) -> io::Result<SinkDevices> {
        let alloc = rt.alloc();
        let metadata = fs::metadata(rt, "/dev/stdout").ok();
        let standard = BufferedDevice::new(alloc, Device::Standard(output), metadata, OUTPUT_ROOM)?;
        let all = vec![in alloc; standard]?;
        Ok(SinkDevices {
            all: RefCell::new(all),
        })
    }

    /// Adds a file as the last sink.
    pub(crate) fn add(&self, alloc: Global, file: File) -> io::Result<()> {
        let metadata = file.metadata().ok();
        let file = BufferedDevice::new(alloc, Device::File(file), metadata, FILE_ROOM)?;
        match self.all.try_borrow_mut() {
            Ok(mut all) => Ok(all.push(file)?),
            Err(_) => Err(io::Error::from(io::ErrorKind::ResourceBusy)),
        }
    }

    /// Takes the first of the bytes for a sink, and says how many: at least one where there are some.
    pub(crate) fn write(&self, sink: usize, bytes: &[u8]) -> Result<usize, Broken>
        ensures bound { WritesAtMost result bytes.now }
        ensures progress { IfOk result (λ n. 0 < length bytes.now → 0 < n) }
    {
        let Ok(mut all) = self.all.try_borrow_mut() else {
            return Err(Broken);
        };
        prepare_to_write(&mut all, sink, bytes);
        match all.get_mut(sink) {
            Some(device) => device.write(bytes),
            None => Err(Broken),
        }
    }

    /// Whether an ordinary file that is written is the one of this metadata.
    pub(crate) fn has_file(&self, metadata: &Metadata) -> bool {
        match self.all.try_borrow() {
            Ok(all) => all.iter().skip(1).any(|device| device.is_file(metadata)),
            Err(_) => false,
        }
    }

    /// Writes out what is gathered for a sink.
    pub(crate) fn flush(&self, sink: usize) -> Result<(), Broken> {
        let Ok(mut all) = self.all.try_borrow_mut() else {
            return Err(Broken);
        };
        match all.get_mut(sink) {
            Some(device) => device.flush(),
            None => Err(Broken),
        }
    }

    /// Whether something is gathered for a sink.
    pub(crate) fn have_gathered(&self) -> bool {
        match self.all.try_borrow() {
            Ok(all) => all.iter().any(|device| device.has_gathered()),
            Err(_) => true,
        }
    }

    /// Writes out what is gathered for the sinks from this number on. The sink's next call reports a failure.
    pub(crate) fn write_out(&self, first: usize) {
        if let Ok(mut all) = self.all.try_borrow_mut() {
            for device in all.iter_mut().skip(first) {
                let _ = device.flush();
            }
        }
    }
}

// Writes out what is gathered for the other sinks where a write to this one may wait: who reads both may need it first.
fn prepare_to_write(all: &mut Vec<BufferedDevice>, sink: usize, bytes: &[u8]) {
    match all.get(sink) {
        Some(device) if device.may_wait_to_take(bytes) => {}
        _ => return,
    }
    for (number, device) in all.iter_mut().enumerate() {
        if number != sink {
            let _ = device.flush();
        }
    }
}
