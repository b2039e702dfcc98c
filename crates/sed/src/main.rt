//! The stream editor `sed` of POSIX.1-2024 (XCU sed) as a program.
//!
//! The public items are those of the library `sededit`, shown here again: `command` is the program over devices that its
//! caller gives. `main` gives it the standard streams and the files of the system.
#![tactic(auto)]

mod standard;

pub use sededit::{Inputs, Joined, Line, Names, Part, Refused, Sinks, command, edit, line, script};
use std::process::ExitCode;

fn main(rt: HostRuntime) -> ExitCode {
    ExitCode::from(standard::run(&rt))
}
