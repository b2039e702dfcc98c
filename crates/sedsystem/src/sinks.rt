//! The standard output and the files that a script writes, as sinks.
ghost use Rattle.std.specs.Prelude.{◌≡◌, ◌<◌, [], ◌∷◌, None, length, unwrap_or, slice_get, slice_set, IfOk, IfSome};
ghost use Rattle.sedspace.specs.FailureCounts.{raised};

use crate::devices::SinkDevices;
use sedfiles::Sinks;
use sedspace::{Broken, Outputs};
use std::alloc::AllocError;
use std::fs::File;
use std::marker::Model;
use std::str;

/// The standard output, and the files that were created, by number. No definition gives their bytes.
#[derive(Drop)]
pub struct FileSinks<'a> {
    rt: &'a HostRuntime,
    devices: &'a SinkDevices,
    failures: Vec<u64>,
    names: Vec<Vec<u8>>,
}

impl<'a> Model for FileSinks<'a> {
    ghost use Rattle.std.specs.Prelude.{List, ℕ, map};

    // How often each sink failed, and the names of the files.
    ghost Value = { List ℕ × List (List ℕ) };

    ghost view = { λ s. (s.failures.items, map (λ name. name.items) s.names.items) };
}

impl<'a> FileSinks<'a> {
    /// The standard output alone, which is the device of sink 0. An error is that there was no memory.
    pub fn new(rt: &'a HostRuntime, devices: &'a SinkDevices) -> Result<FileSinks<'a>, AllocError>
        ensures { IfOk result (λ sinks. sinks ≡ (0 ∷ [], [])) }
    {
        Ok(FileSinks {
            rt,
            devices,
            failures: vec![in rt.alloc(); 0]?,
            names: Vec::new(rt.alloc()),
        })
    }

    /// Creates the file of this name, and adds it to the devices.
    fn add(&self, name: &[u8]) -> bool {
        let Ok(name) = str::from_utf8(name) else {
            return false;
        };
        match File::create(self.rt, name) {
            Ok(file) => self.devices.add(self.rt.alloc(), file).is_ok(),
            Err(_) => false,
        }
    }

    /// Writes out what is gathered for all sinks, and answers the first one where that failed.
    fn first_broken(&self) -> Option<usize>
        ensures { IfSome result (λ k. k < length self.now.0) }
    {
        let count = self.failures.len();
        let mut first = count;
        for sink in 0..count {
            if self.devices.flush(sink).is_err() {
                first = first.min(sink);
            }
        }
        if first < count { Some(first) } else { None }
    }

    /// Counts a failure of a sink.
    fn count_failure(&mut self, sink: usize)
        requires { sink < length self.old.0 }
        ensures { self.new ≡ (slice_set self.old.0 sink (raised (unwrap_or (slice_get self.old.0 sink) 0)), self.old.1) }
    {
        self.failures[sink] = self.failures[sink].saturating_add(1);
    }
}

impl<'a> Outputs for FileSinks<'a> {
    ghost count = { λ s. length s.0 };

    ghost contents = { λ _ _. None };

    ghost failures = { λ s k. unwrap_or (slice_get s.0 k) 0 };

    ghost names = { λ s. s.1 };

    fn sinks(&self) -> usize {
        self.failures.len()
    }

    fn write(&mut self, sink: usize, bytes: &[u8]) -> Result<usize, Broken> {
        let taken = self.devices.write(sink, bytes);
        if taken.is_err() {
            self.count_failure(sink);
        }
        taken
    }
}

impl<'a> Sinks for FileSinks<'a> {
    ghost absent_is_empty = { λ _ _ _. tt };

    fn create(&mut self, name: &[u8]) -> bool {
        let Ok(kept) = name.to_vec(self.rt.alloc()) else {
            return false;
        };
        if self.names.reserve(1).is_err() || self.failures.reserve(1).is_err() || !self.add(name) {
            return false;
        }
        self.names.push_reserved(kept);
        self.failures.push_reserved(0);
        true
    }

    fn flush(&mut self) -> Result<(), usize> {
        match self.first_broken() {
            Some(sink) => {
                self.count_failure(sink);
                Err(sink)
            }
            None => Ok(()),
        }
    }
}
