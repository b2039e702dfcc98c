//! The standard output and files in memory, for tests and for callers that have all bytes at hand.
ghost use Rattle.std.specs.Prelude.{◌≡◌, ◌+◌, ◌<◌, ◌≤◌, ℕ, Some, length, map, replicate, take, true, IfOk, IfSome, if◌then◌else◌, slice_get, slice_set};
ghost use Rattle.sedspace.specs.Memory.{new_sink, sink_bytes, sink_failures};
ghost use Rattle.sedfiles.specs.AddedSinks.{AddsName, FailsFlush};
ghost use Rattle.sedfiles.specs.MemorySinks.{FlushesFirst, contents_of, is_created_next};
ghost use Rattle.sedfiles.specs.MemorySinkLaws.{absent_holds_nothing};

use crate::sinks::Sinks;
use sedspace::{Broken, MemoryOutputs, Outputs};
use std::alloc::{AllocError, Global};
use std::marker::Model;

/// The standard output, and files that can be created: those of the names that `with_room` is given, each once and in that
/// order, and no others. All have the same room, reserved at the start; a write to a sink that is full fails, as on a full
/// device. A flush is one more write to each sink, of no bytes, so that it can be set to fail as a write can.
#[derive(Drop)]
pub struct MemorySinks {
    outputs: MemoryOutputs,
    names: Vec<Vec<u8>>,
    created: usize,
}

impl Model for MemorySinks {
    ghost use Rattle.std.specs.Prelude.{◌≡◌, ◌+◌, ◌<◌, ℕ, IfSome, [], length, map, slice_get};
    ghost use Rattle.sedfiles.specs.MemorySinks.{SinkFiles};

    ghost Value = { SinkFiles };

    ghost view = { λ s. record {
      outputs = s.outputs;
      names = map (λ name. name.items) s.names.items;
      created = s.created;
    } };

    ghost invariant = { λ s. (length s.outputs.held ≡ length s.names.items + 1) × (s.created < length s.outputs.held)
        × ((k : ℕ) → s.created < k → IfSome (slice_get s.outputs.held k) (λ sink. sink.bytes ≡ [])) };
}

impl MemorySinks {
    /// Makes the standard output, and files of these names that can be created, each with room for this many bytes.
    pub fn with_room(
        alloc: Global,
        names: Vec<Vec<u8>>,
        bytes: usize,
    ) -> Result<MemorySinks, AllocError>
        ensures { IfOk result (λ s. s ≡ record {
          outputs = record { held = replicate (length names.items + 1) (new_sink bytes true); most = usize.MAX };
          names = map (λ name. name.items) names.items;
          created = 0;
        }) }
    {
        let outputs = MemoryOutputs::with_room(alloc, names.len() + 1, bytes)?;
        Ok(MemorySinks {
            outputs,
            names,
            created: 0,
        })
    }

    /// Lets no write take more than `most` bytes.
    pub fn take_at_most(&mut self, most: usize)
        requires { 0 < most }
        ensures { self.new ≡ record self.old { outputs = record self.old.outputs { most = most } } }
    {
        self.outputs.take_at_most(most);
    }

    /// Makes one write to the sink fail, the one of this number, counted from 1, where a flush counts as a write. Those
    /// after it work again.
    pub fn fail_at(&mut self, sink: usize, write: u64)
        requires { sink < length self.old.outputs.held }
        ensures answered { IfSome (slice_get self.old.outputs.held sink) (λ s. self.new ≡ record self.old {
          outputs = record self.old.outputs {
            held = slice_set self.old.outputs.held sink (record s { fails_at = Some write });
          };
        }) }
        ensures created { self.new.created ≡ self.old.created }
    {
        self.outputs.fail_at(sink, write);
    }

    // Whether the file that can be created next has this name.
    fn is_next(&self, name: &[u8]) -> bool
        ensures { result ≡ is_created_next self.now name.now }
    {
        match self.names.get(self.created) {
            Some(next) => next.as_slice() == name,
            None => false,
        }
    }

    /// What the sink contains. A sink that hasn't been created contains nothing.
    pub fn bytes(&self, sink: usize) -> &[u8]
        ensures { Some result.now ≡ contents_of self.now sink }
    {
        if sink > self.created {
            return &[];
        }
        self.outputs.bytes(sink)
    }
}

impl Outputs for MemorySinks {
    ghost count = { λ s. s.created + 1 };

    ghost contents = { contents_of };

    ghost failures = { λ s k. sink_failures s.outputs k };

    ghost names = { λ s. take s.created s.names };

    fn sinks(&self) -> usize {
        self.created + 1
    }

    fn write(&mut self, sink: usize, bytes: &[u8]) -> Result<usize, Broken> {
        self.outputs.write(sink, bytes)
    }
}

/// Writes no bytes to each of the first sinks, up to one where that fails, and answers its number.
fn flush_first(outputs: &mut MemoryOutputs, count: usize) -> Result<(), usize>
    requires { count ≤ length outputs.old.held }
    ensures kept { (k : ℕ) → sink_bytes outputs.new k ≡ sink_bytes outputs.old k }
    ensures failed { FailsFlush result (sink_failures outputs.old) (sink_failures outputs.new) }
    ensures sinks { length outputs.new.held ≡ length outputs.old.held }
    ensures answered { FlushesFirst outputs.old count result }
{
    for sink in 0..count {
        match outputs.write(sink, b"") {
            Ok(_) => {}
            Err(Broken) => return Err(sink),
        }
    }
    Ok(())
}

impl Sinks for MemorySinks {
    ghost absent_is_empty = { absent_holds_nothing };

    fn create(&mut self, name: &[u8]) -> bool
        ensures answer { result ≡ is_created_next self.old name.now }
        ensures created { self.new ≡ record self.old {
          created = if result then self.old.created + 1 else self.old.created;
        } }
        ensures names { AddsName result name.now (take self.old.created self.old.names) (take self.new.created self.new.names) }
        ensures contents { (k : ℕ) → contents_of self.new k ≡ contents_of self.old k }
    {
        if !self.is_next(name) {
            return false;
        }
        self.created += 1;
        true
    }

    fn flush(&mut self) -> Result<(), usize>
        ensures contents { (k : ℕ) → contents_of self.new k ≡ contents_of self.old k }
        ensures failed { FailsFlush result (sink_failures self.old.outputs) (sink_failures self.new.outputs) }
        ensures answered { FlushesFirst self.old.outputs (self.old.created + 1) result }
        ensures rest { self.new ≡ record self.old { outputs = self.new.outputs } }
    {
        // The loop is over the outputs alone, so that the invariant is shown here and not in each round.
        flush_first(&mut self.outputs, self.created + 1)
    }
}
