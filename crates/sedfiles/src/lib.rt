//! What a call of the program is given: the words of a command line, and the files that they name, read one after another and
//! written; with devices in memory for both (XCU sed, Options, Operands, Input Files).
#![tactic(auto)]

mod asked;
mod command_line;
pub mod help;
mod inputs;
mod joined;
mod memory_inputs;
mod memory_names;
mod memory_sinks;
mod names;
mod parts;
mod sinks;

pub use asked::{Line, Part, Refused};
pub use command_line::line;
pub use inputs::Inputs;
pub use joined::Joined;
pub use memory_inputs::{MemoryFile, MemoryInputs};
pub use memory_names::MemoryNames;
pub use memory_sinks::MemorySinks;
pub use names::Names;
pub use sinks::Sinks;
