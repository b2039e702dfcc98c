//! Sources, outputs and texts over memory, for tests and for callers that have all bytes at hand.

mod outputs;
mod source;
mod texts;

pub use outputs::MemoryOutputs;
pub use source::MemorySource;
pub use texts::MemoryTexts;
