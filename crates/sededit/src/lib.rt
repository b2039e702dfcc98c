//! The editor as a library: `script` reads a script, `edit` runs it over the bytes of a stream, and `command` runs what the
//! words of a command line ask for over files that its caller gives (XCU sed).
#![tactic(auto)]

mod editing;
mod messages;
mod program;
mod reading;
mod running;

pub use editing::{edit, script};
pub use program::command;
pub use reading::kind_with;
pub use sedfiles::{
    Inputs, Joined, Line, MemoryFile, MemoryInputs, MemoryNames, MemorySinks, Names, Part, Refused,
    Sinks, line,
};
