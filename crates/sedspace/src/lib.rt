//! Bounded spaces and streams: what a stream editor holds, what it reads from and what it writes to.
//!
//! - `Space` and `Queue` hold bytes and numbers up to a limit, in memory that is reserved when they are made.
//! - `ByteSource`, `Outputs` and `Texts` are the devices, each with the laws that its callers rely on. Each is there over
//!   memory, and `FromReader` and `ToWriter` make them of the readers and writers of std. `write_all` repeats short writes.
//! - `Lines` gives the lines of a source, in whatever pieces its bytes come, and reads ahead by a fixed number of
//!   bytes.
#![tactic(auto)]

mod adapters;
mod errors;
mod lines;
mod memory;
mod outputs;
mod queue;
mod source;
mod space;
mod texts;

pub use adapters::{FromReader, ToWriter};
pub use errors::{Broken, Full, LineFault};
pub use lines::{Got, Lines, Room, whole_lines};
pub use memory::{MemoryOutputs, MemorySource, MemoryTexts};
pub use outputs::{Outputs, write_all};
pub use queue::Queue;
pub use source::ByteSource;
pub use space::Space;
pub use texts::Texts;
