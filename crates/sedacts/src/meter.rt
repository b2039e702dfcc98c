//! Sinks of which each takes no more than a limit.
//!
//! The machine's calls write to `MeteredSinks`. In a run these are the outputs with a meter, which counts what each sink has
//! gained since the engine was opened; where no limit is set nothing is counted.
ghost use Rattle.std.specs.Prelude.{◌≡◌, ◌≢◌, ◌<◌, ◌≤◌, ℕ, IfOk, length, min, replicate};
ghost use Rattle.sedacts.specs.Move.{to_sink};
ghost use Rattle.sedacts.specs.Calls.{WritesAll, WritesPart};
ghost use Rattle.sedacts.specs.Meters.{GrowsBy, Fills, FitsIn, InLimit, Meter, SinkView, counted_bytes};

use crate::ends::Ended;
use sedspace::{Outputs, write_all};
use std::alloc::{AllocError, Global};
use std::marker::Model;

/// How many bytes each sink has gained, and the most that it may gain, where a limit is set.
#[derive(Drop)]
pub struct Meter {
    limit: Option<u64>,
    counts: Vec<u64>,
}

impl Model for Meter {
    ghost use Rattle.sedacts.specs.Meters.{Meter, InLimit};

    ghost Value = { Meter };

    ghost view = { λ s. record { most = s.limit; sent = s.counts.items } };

    ghost invariant = { λ s. InLimit s.limit s.counts.items };
}

impl Meter {
    /// A meter for `sinks` sinks that have gained nothing yet. The counts are reserved here.
    pub fn new(alloc: Global, limit: Option<u64>, sinks: usize) -> Result<Meter, AllocError>
        ensures { IfOk result (λ m. m ≡ record { most = limit; sent = replicate sinks 0 }) }
    {
        let counts = vec![in alloc; 0; sinks]?;
        Ok(Meter { limit, counts })
    }

    /// For proofs: no sink has gained more than the limit.
    #[inline(always)]
    pub fn is_within_limit(&self)
        ensures { InLimit self.now.most self.now.sent }
    {
        let _limit = self.limit;
    }

    /// How many of `bytes` bytes the sink may still take.
    #[inline(always)]
    fn room(&self, sink: usize, bytes: usize) -> usize
        requires { sink < length self.now.sent }
        ensures most { result ≤ bytes }
        ensures fits { FitsIn self.now.most self.now.sent sink result }
        ensures fills { result < bytes → Fills self.now.most self.now.sent sink result }
    {
        match self.limit {
            None => bytes,
            Some(most) => (most - self.counts[sink]).min(bytes as u64) as usize,
        }
    }

    /// Counts bytes that the sink took.
    #[inline(always)]
    fn add(&mut self, sink: usize, bytes: usize)
        requires sink { sink < length self.old.sent }
        requires fits { FitsIn self.old.most self.old.sent sink bytes }
        ensures counts { GrowsBy (counted_bytes self.old.most self.old.sent sink) (counted_bytes self.new.most self.new.sent sink) bytes }
        ensures others { (k : ℕ) → k ≢ sink →
            counted_bytes self.new.most self.new.sent k ≡ counted_bytes self.old.most self.old.sent k }
        ensures same_limit { self.new.most ≡ self.old.most }
        ensures same_length { length self.new.sent ≡ length self.old.sent }
    {
        if self.limit.is_some() {
            self.counts[sink] += bytes as u64;
        }
    }
}

/// Where a write was refused.
#[derive(Clone, Copy)]
pub struct CutShort {
    /// How many bytes the sink had gained by then.
    pub done: usize,
    /// The end of the run.
    pub end: Ended,
}

/// Where the machine's calls write. A write that is refused names the end of the run.
pub trait MeteredSinks {
    /// How many sinks there are.
    ghost count: { Self → ℕ };

    /// What they contain and have gained.
    ghost tally: { Self → SinkView };

    /// Appends all the bytes to this sink alone. At an `Err` it has gained those before one that was due when a write
    /// failed, or when the sink was full; a full sink isn't written to.
    fn write_all(&mut self, sink: usize, bytes: &[u8]) -> Result<(), Ended>
        requires { sink < count self.old }
        ensures { WritesAll tally count self.old self.new (to_sink sink bytes.now) result };

    /// The same, which reports at an `Err` how many bytes the sink has gained.
    fn write_part(&mut self, sink: usize, bytes: &[u8]) -> Result<(), CutShort>
        requires { sink < count self.old }
        ensures { WritesPart tally count self.old self.new sink bytes.now result };
}

/// Outputs with a meter.
#[derive(Drop)]
pub struct Metered<'a, O: Outputs> {
    /// The outputs.
    pub outputs: &'a mut O,
    /// What counts the bytes that they take.
    pub meter: &'a mut Meter,
}

impl<'a, O: Outputs> MeteredSinks for Metered<'a, O> {
    ghost count = { λ m. min (length m.meter.now.sent) (O.count m.outputs.now) };

    ghost tally = { λ m. record {
      contents = O.contents m.outputs.now;
      failures = O.failures m.outputs.now;
      sent = counted_bytes m.meter.now.most m.meter.now.sent;
      frame = record {
        sinks = O.count m.outputs.now;
        counts = length m.meter.now.sent;
        most = m.meter.now.most;
        names = O.names m.outputs.now;
        references = (m.outputs.ghost_name, m.meter.ghost_name);
      };
    } };

    // For callers that hand on the end alone, so that `?` or a tail call serves them.
    fn write_all(&mut self, sink: usize, bytes: &[u8]) -> Result<(), Ended> {
        match self.write_part(sink, bytes) {
            Ok(()) => Ok(()),
            Err(cut) => Err(cut.end),
        }
    }

    fn write_part(&mut self, sink: usize, bytes: &[u8]) -> Result<(), CutShort> {
        let room = self.meter.room(sink, bytes.len());
        if let Err(done) = write_all(&mut *self.outputs, sink, &bytes[..room]) {
            self.meter.add(sink, done);
            let end = Ended::OutputBroken(sink);
            return Err(CutShort { done, end });
        }
        self.meter.add(sink, room);
        if room < bytes.len() {
            let end = Ended::OutputFull(sink);
            return Err(CutShort { done: room, end });
        }
        Ok(())
    }
}
