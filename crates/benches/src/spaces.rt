//! Spaces, lines, and devices in memory.

use crate::marks::{answer_made, begin};
use anyhow::{Result, bail};
use sedspace::{FromReader, Lines, MemoryOutputs, Outputs, Queue, Room, Space};

/// The bytes and the entries that room is asked for.
const COUNT: usize = 100;

/// Makes the call of this name.
pub(crate) fn make(rt: &HostRuntime, name: &str) -> Result<()> {
    begin(rt);
    match name {
        "Space::new" => answer_made(rt, Space::new(rt.alloc(), COUNT)),
        "Queue::new" => answer_made(rt, Queue::new(rt.alloc(), COUNT)),
        "Lines::new" => answer_made(
            rt,
            Lines::new(rt.alloc(), FromReader::new(b"".as_slice()), COUNT),
        ),
        "Room::new" => answer_made(rt, Room::new(rt.alloc(), COUNT)),
        "MemoryOutputs::new" => answer_made(rt, MemoryOutputs::new(rt.alloc(), 2)),
        "MemoryOutputs::with_room" => answer_made(
            rt,
            MemoryOutputs::with_room(rt.alloc(), 2, COUNT),
        ),
        _ => bail!("there is no call {name}"),
    }
}
