//! The files and the standard streams of the system, as the devices that `command` of `sededit` takes (XCU sed, "Stdin",
//! "Stdout", "Stderr", "Input Files", "Output Files").
#![tactic(auto)]

mod closed;
mod devices;
mod inputs;
mod messages;
mod names;
mod output;
mod sinks;
mod standard_input;

pub use closed::placeholders;
pub use devices::SinkDevices;
pub use inputs::FileInputs;
pub use messages::Messages;
pub use names::FileNames;
pub use sinks::FileSinks;
