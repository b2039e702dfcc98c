//! The standard input, which is left where `q` ended the run: just past the last line that was taken, where it is a file
//! (XCU 1.4, "INPUT FILES").
ghost use Rattle.std.specs.Prelude.{◌<◌, vec_len, vec_capacity};
ghost use Rattle.std.specs.Io.{ReadsAtMost};

use sedspace::{Broken, ByteSource, FromReader};
use std::alloc::{AllocError, Global};
use std::cell::Cell;
use std::io::{self, BufRead, Lock, Read, StdinLock};
use std::rt::Stdin;

/// How many locks there may be. Each keeps 4,096 bytes, so all together as many as the program reads at once.
const MOST_LOCKS: usize = 16;

/// A lock of the standard input, and how many bytes it keeps: it has read them, and none of them is consumed.
#[derive(Drop)]
struct Keeper {
    lock: StdinLock<'static>,
    kept: usize,
}

/// The standard input. Of a file at most as many bytes are read at once as locks keep.
///
/// A lock that is dropped moves the place in the file back by as many bytes as it keeps, wherever that place is by then. So
/// any part of the last read can be given back by locks, though what they have read are other bytes, near the beginning.
pub(crate) struct StandardInput {
    stdin: Stdin,
    is_file: bool,
    is_ended: bool,
    keepers: Vec<Keeper>,
    kept: usize,
    // How many bytes of those read last are to be given back.
    unused: Cell<usize>,
}

impl StandardInput {
    /// The standard input, of which nothing is read yet.
    pub(crate) fn new(alloc: Global, stdin: Stdin) -> Result<StandardInput, AllocError> {
        Ok(StandardInput {
            stdin,
            is_file: false,
            is_ended: false,
            keepers: Vec::with_capacity(alloc, MOST_LOCKS)?,
            kept: 0,
            unused: Cell::new(0),
        })
    }

    /// Notes whether it is an ordinary file.
    pub(crate) fn set_file(&mut self, is_file: bool) {
        self.is_file = is_file;
    }

    /// Reads on, unless the end was met before.
    pub(crate) fn read_on(&mut self, buf: &mut [u8]) -> Result<usize, Broken>
        ensures bound { ReadsAtMost result buf.new }
    {
        if self.is_ended {
            return Ok(0);
        }
        let count = FromReader::new(&mut *self).read(buf)?;
        self.is_ended = count == 0 && !buf.is_empty();
        Ok(count)
    }

    /// Says that of the bytes read last so many are to be given back.
    pub(crate) fn give_back(&self, count: usize) {
        if count <= self.kept {
            self.unused.set(count);
        }
    }

    // Reads by a new lock, which keeps what it read where all of that goes into the buffer.
    fn read_kept(&mut self, buf: &mut [u8]) -> io::Result<usize>
        requires room { vec_len self.old.keepers < vec_capacity self.old.keepers }
        ensures bound { ReadsAtMost result buf.new }
    {
        let mut lock = self.stdin.lock();
        let bytes = lock.fill_buf()?;
        let kept = bytes.len();
        let count = kept.min(buf.len());
        buf[..count].copy_from_slice(&bytes[..count]);
        if count < kept || count == 0 {
            lock.consume(count);
            return Ok(count);
        }
        self.keepers.push_reserved(Keeper { lock, kept });
        self.kept = self.kept.saturating_add(kept);
        Ok(count)
    }
}

impl Read for StandardInput {
    fn read(&mut self, buf: &mut [u8]) -> io::Result<usize> {
        if !self.is_file {
            return self.stdin.read(buf);
        }
        if buf.len() > self.kept && self.keepers.len() < self.keepers.capacity() {
            return self.read_kept(buf);
        }
        let most = self.kept.min(buf.len());
        self.stdin.read(&mut buf[..most])
    }
}

impl Drop for StandardInput {
    fn drop(self) {
        let StandardInput {
            stdin: _,
            is_file: _,
            is_ended: _,
            keepers,
            kept,
            unused,
        } = self;
        let mut used = kept.saturating_sub(unused.get());
        for mut keeper in keepers {
            let part = used.min(keeper.kept);
            keeper.lock.consume(part);
            used -= part;
        }
    }
}
