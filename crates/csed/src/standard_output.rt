//! The standard output of a call.
ghost use Rattle.std.specs.Prelude.{◌≡◌, ◌==◌, [], Some, IfOk, length, if◌then◌else◌};
ghost use Rattle.sedspace.specs.Memory.{sink_bytes, sink_failures};

use sedspace::{Broken, MemoryOutputs, Outputs};
use std::alloc::{AllocError, Global};

/// The one sink that there is, in memory. So no other ever contains a byte.
#[derive(Drop)]
pub(crate) struct StandardOutput {
    sinks: MemoryOutputs,
    ghost one: { length sinks.held ≡ 1 },
}

impl StandardOutput {
    /// A sink with room for `room` bytes.
    pub(crate) fn with_room(alloc: Global, room: usize) -> Result<StandardOutput, AllocError>
        ensures { IfOk result (λ o. sink_bytes o.sinks 0 ≡ Some []) }
    {
        let sinks = MemoryOutputs::with_room(alloc, 1, room)?;
        Ok(StandardOutput { sinks })
    }

    /// What it contains.
    pub(crate) fn bytes(&self) -> &[u8]
        ensures { Some result.now ≡ sink_bytes self.now.sinks 0 }
    {
        self.sinks.bytes(0)
    }
}

impl Outputs for StandardOutput {
    ghost count = { λ o. 1 };

    ghost contents = { λ o k. if k == 0 then sink_bytes o.sinks 0 else Some [] };

    ghost failures = { λ o k. if k == 0 then sink_failures o.sinks 0 else 0 };

    ghost names = { λ _. [] };

    fn sinks(&self) -> usize {
        1
    }

    fn write(&mut self, sink: usize, bytes: &[u8]) -> Result<usize, Broken> {
        self.sinks.write(sink, bytes)
    }
}
