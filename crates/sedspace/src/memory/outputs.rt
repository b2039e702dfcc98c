//! Outputs over memory.
ghost use Rattle.std.specs.Prelude.{◌≡◌, ◌≢◌, ◌<◌, ℕ, [], Some, length, replicate, true, false, IfOk, IfSome, slice_get, slice_set};
ghost use Rattle.std.specs.Option.{option_map};
ghost use Rattle.std.specs.Io.{WritesAtMost};
ghost use Rattle.std.specs.Io.KnownBytes.{WriteAppends};
ghost use Rattle.sedspace.specs.FailureCounts.{FailsAtErr};
ghost use Rattle.sedspace.specs.Memory.{new_sink, sink_bytes, sink_failures, TakesBytes};

use crate::{Broken, Outputs};
use std::alloc::{AllocError, Global};
use std::marker::Model;

// A sink over memory, with room for some more bytes.
#[derive(Drop)]
struct MemorySink {
    bytes: Vec<u8>,
    room: usize,
    is_reserved: bool,
    writes: u64,
    fails_at: Option<u64>,
    failures: u64,
}

impl Model for MemorySink {
    ghost use Rattle.std.specs.Prelude.{◌≡◌, ◌≤◌, ◌+◌, IsTrue, vec_len, vec_capacity};
    ghost use Rattle.sedspace.specs.Memory.{Sink};

    ghost Value = { Sink };

    ghost view = { λ s. record {
      bytes = s.bytes.items;
      room = s.room;
      reserved = s.is_reserved;
      writes = s.writes;
      fails_at = s.fails_at;
      failures = s.failures;
    } };

    ghost invariant = { λ s. IsTrue s.is_reserved → vec_len s.bytes + s.room ≤ vec_capacity s.bytes };
}

impl MemorySink {
    fn new(alloc: Global) -> MemorySink
        ensures { result ≡ new_sink usize.MAX false }
    {
        MemorySink {
            bytes: Vec::new(alloc),
            room: usize::MAX,
            is_reserved: false,
            writes: 0,
            fails_at: None,
            failures: 0,
        }
    }

    fn with_room(alloc: Global, room: usize) -> Result<MemorySink, AllocError>
        ensures { IfOk result (λ s. s ≡ new_sink room true) }
    {
        let bytes = Vec::with_capacity(alloc, room)?;
        Ok(MemorySink {
            bytes,
            room,
            is_reserved: true,
            writes: 0,
            fails_at: None,
            failures: 0,
        })
    }

    // Appends what has room, at most `most` bytes.
    fn take(&mut self, bytes: &[u8], most: usize) -> Result<usize, Broken>
        requires { 0 < most }
        ensures { TakesBytes self.old self.new most bytes.now result }
    {
        self.writes = self.writes.saturating_add(1);
        let count = bytes.len().min(most).min(self.room);
        let is_due = self.fails_at == Some(self.writes);
        let is_refused = count == 0 && !bytes.is_empty();
        if !is_due && !is_refused && self.bytes.extend_from_slice(&bytes[..count]).is_ok() {
            self.room -= count;
            return Ok(count);
        }
        self.failures = self.failures.saturating_add(1);
        Err(Broken)
    }
}

/// Sinks in memory, which keep what is written to them. They can be set to take only part of each write, and to fail
/// one write.
#[derive(Drop)]
pub struct MemoryOutputs {
    held: Vec<MemorySink>,
    most: usize,
}

impl Model for MemoryOutputs {
    ghost use Rattle.std.specs.Prelude.{◌<◌};
    ghost use Rattle.sedspace.specs.Memory.{HeldSinks};

    ghost Value = { HeldSinks };

    ghost view = { λ o. record { held = o.held.items; most = o.most } };

    ghost invariant = { λ o. 0 < o.most };
}

impl MemoryOutputs {
    /// Makes this many sinks, with as much room as memory gives. They ask for memory as they grow, and a write for which
    /// it is refused fails.
    pub fn new(alloc: Global, sinks: usize) -> Result<MemoryOutputs, AllocError>
        ensures { IfOk result (λ o. o
            ≡ record { held = replicate sinks (new_sink usize.MAX false); most = usize.MAX }) }
    {
        let mut held = Vec::with_capacity(alloc, sinks)?;
        for _ in 0..sinks {
            held.push_reserved(MemorySink::new(alloc));
        }
        Ok(MemoryOutputs {
            held,
            most: usize::MAX,
        })
    }

    /// Makes this many sinks, and reserves memory for this many bytes in each. A write to a sink that is full fails, as on
    /// a full device.
    pub fn with_room(alloc: Global, sinks: usize, bytes: usize) -> Result<MemoryOutputs, AllocError>
        ensures { IfOk result (λ o. o
            ≡ record { held = replicate sinks (new_sink bytes true); most = usize.MAX }) }
    {
        let mut held = Vec::with_capacity(alloc, sinks)?;
        for _ in 0..sinks {
            held.push_reserved(MemorySink::with_room(alloc, bytes)?);
        }
        Ok(MemoryOutputs {
            held,
            most: usize::MAX,
        })
    }

    /// Lets no write take more than `most` bytes.
    pub fn take_at_most(&mut self, most: usize)
        requires { 0 < most }
        ensures { self.new ≡ record self.old { most = most } }
    {
        self.most = most;
    }

    /// Makes one write to the sink fail, the one of this number, counted from 1. The writes after it work again.
    pub fn fail_at(&mut self, sink: usize, write: u64)
        requires { sink < length self.old.held }
        ensures { IfSome (slice_get self.old.held sink) (λ s. self.new
            ≡ record self.old { held = slice_set self.old.held sink (record s { fails_at = Some write }) }) }
    {
        let target = &mut self.held[sink];
        target.fails_at = Some(write);
    }

    /// What the sink contains.
    pub fn bytes(&self, sink: usize) -> &[u8]
        requires { sink < length self.now.held }
        ensures { Some result.now ≡ sink_bytes self.now sink }
    {
        let target = &self.held[sink];
        target.bytes.as_slice()
    }

    /// How often the sink was written to, failed writes included.
    pub fn writes(&self, sink: usize) -> u64
        requires { sink < length self.now.held }
        ensures { Some result ≡ option_map (λ s. s.writes) (slice_get self.now.held sink) }
    {
        let target = &self.held[sink];
        target.writes
    }

    /// How many of these writes failed.
    pub fn failures(&self, sink: usize) -> u64
        requires { sink < length self.now.held }
        ensures { result ≡ sink_failures self.now sink }
    {
        let target = &self.held[sink];
        target.failures
    }
}

impl Outputs for MemoryOutputs {
    ghost count = { λ o. length o.held };

    ghost contents = { sink_bytes };

    ghost failures = { sink_failures };

    ghost names = { λ _. [] };

    fn sinks(&self) -> usize {
        self.held.len()
    }

    fn write(&mut self, sink: usize, bytes: &[u8]) -> Result<usize, Broken>
        requires { sink < length self.old.held }
        ensures bound { WritesAtMost result bytes.now }
        ensures progress { IfOk result (λ n. 0 < length bytes.now → 0 < n) }
        ensures appends { WriteAppends (sink_bytes self.old sink) (sink_bytes self.new sink) result bytes.now }
        ensures failed { FailsAtErr result (sink_failures self.old sink) (sink_failures self.new sink) }
        ensures others { (k : ℕ) → k ≢ sink → slice_get self.new.held k ≡ slice_get self.old.held k }
        ensures sinks { length self.new.held ≡ length self.old.held }
        ensures most { self.new.most ≡ self.old.most }
        ensures takes { IfSome (slice_get self.old.held sink) (λ s. IfSome (slice_get self.new.held sink)
            (λ t. TakesBytes s t self.old.most bytes.now result)) }
    {
        let most = self.most;
        let target = &mut self.held[sink];
        target.take(bytes, most)
    }
}
