//! A source over memory.
ghost use Rattle.std.specs.Prelude.{◌≡◌, ◌↔◌, ◌+◌, ◌-◌, ◌<◌, ◌≤◌, [], Option, Some, None, length, drop, min, IfOk, IsErr, vec_len};
ghost use Rattle.std.specs.Io.{ReadsAtMost};
ghost use Rattle.std.specs.Io.KnownBytes.{ReadConsumes};
ghost use Rattle.sedspace.specs.FailureCounts.{FailsAtErr, raised};
ghost use Rattle.sedspace.specs.Memory.{piece_end};

use crate::{Broken, ByteSource};
use std::marker::Model;

/// Bytes in memory, read in pieces. One read can be set to fail.
#[derive(Drop)]
pub struct MemorySource {
    bytes: Vec<u8>,
    cuts: Vec<usize>,
    most: usize,
    taken: usize,
    calls: u64,
    fails_at: Option<u64>,
    failures: u64,
}

impl Model for MemorySource {
    ghost use Rattle.std.specs.Prelude.{◌≤◌, ◌<◌, vec_len};
    ghost use Rattle.sedspace.specs.Memory.{Feed};

    ghost Value = { Feed };

    ghost view = { λ s. record {
      bytes = s.bytes.items;
      cuts = s.cuts.items;
      most = s.most;
      taken = s.taken;
      calls = s.calls;
      fails_at = s.fails_at;
      failures = s.failures;
    } };

    ghost invariant = { λ s. (s.taken ≤ vec_len s.bytes) × (0 < s.most) };
}

impl MemorySource {
    /// Makes a source of the bytes. No read goes past a cut; the cuts are places in rising order.
    pub fn new(bytes: Vec<u8>, cuts: Vec<usize>) -> MemorySource
        ensures { result ≡ record {
          bytes = bytes.items;
          cuts = cuts.items;
          most = usize.MAX;
          taken = 0;
          calls = 0;
          fails_at = None;
          failures = 0;
        } }
    {
        MemorySource {
            bytes,
            cuts,
            most: usize::MAX,
            taken: 0,
            calls: 0,
            fails_at: None,
            failures: 0,
        }
    }

    /// Lets no read give more than `most` bytes.
    pub fn give_at_most(&mut self, most: usize)
        requires { 0 < most }
        ensures { self.new ≡ record self.old { most = most } }
    {
        self.most = most;
    }

    /// Makes one read fail, the one of this number, counted from 1. The reads after it work again.
    pub fn fail_at(&mut self, call: u64)
        ensures { self.new ≡ record self.old { fails_at = Some call } }
    {
        self.fails_at = Some(call);
    }

    /// How many bytes were read.
    pub fn taken(&self) -> usize
        ensures { result ≡ self.now.taken }
    {
        self.taken
    }

    /// How often `read` was called.
    pub fn calls(&self) -> u64
        ensures { result ≡ self.now.calls }
    {
        self.calls
    }

    /// How many of these calls failed.
    pub fn failures(&self) -> u64
        ensures { result ≡ self.now.failures }
    {
        self.failures
    }

    // Where the piece that comes next ends.
    fn next_end(&self) -> usize
        ensures place { result ≡ piece_end self.now.cuts self.now.taken (length self.now.bytes) }
        ensures past { min (self.now.taken + 1) (length self.now.bytes) ≤ result }
        ensures within { result ≤ length self.now.bytes }
        ensures start { self.now.taken ≤ result }
    {
        for cut in &self.cuts {
            if *cut > self.taken && *cut < self.bytes.len() {
                return *cut;
            }
        }
        self.bytes.len()
    }
}

impl ByteSource for MemorySource {
    ghost remaining = { λ s. Some (drop s.taken s.bytes) };

    ghost failures = { λ s. s.failures };

    ghost reads = { λ s. Some s.calls };

    ghost reference = { λ _. [] };

    fn read(&mut self, buf: &mut [u8]) -> Result<usize, Broken>
        ensures bound { ReadsAtMost result buf.new }
        ensures bytes { ReadConsumes (Some (drop self.old.taken self.old.bytes))
            (Some (drop self.new.taken self.new.bytes)) result buf.new }
        ensures failed { FailsAtErr result self.old.failures self.new.failures }
        ensures calls { self.new.calls ≡ raised self.old.calls }
        ensures taken { IfOk result (λ n. self.new.taken ≡ self.old.taken + n) }
        ensures count { IfOk result (λ n. n ≡ min
            (piece_end self.old.cuts self.old.taken (length self.old.bytes) - self.old.taken)
            (min (length buf.new) self.old.most)) }
        ensures answered { IsErr result ↔ (self.old.fails_at ≡ Some self.new.calls) }
        ensures rest { self.new
            ≡ record self.old { taken = self.new.taken; calls = self.new.calls; failures = self.new.failures } }
    {
        self.calls = self.calls.saturating_add(1);
        if self.fails_at == Some(self.calls) {
            self.failures = self.failures.saturating_add(1);
            return Err(Broken);
        }
        let start = self.taken;
        let count = (self.next_end() - start).min(buf.len().min(self.most));
        buf[..count].copy_from_slice(&self.bytes[start..start + count]);
        self.taken += count;
        Ok(count)
    }
}
