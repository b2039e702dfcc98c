//! What the commands of a stream editor do to one line and to sinks (POSIX.1-2024, XCU sed), apart from the machine that runs
//! them, which is `sedengine`.
//!
//! `specs/` defines the editor: its state (`State`), the move that leads to the next state (`Move`, `Listing`, `Substitute`),
//! which pattern spaces addresses select (`Select`), and what an end of a run means (`Ends`, `Held`, `Run`). Here are the parts
//! of these moves that need no machine: [`select`] decides which lines the addresses of a command select, [`substitute`] makes
//! the text of `s`, [`listing`] that of `l`, [`flushing`] writes the queue, [`bringing`] brings further lines, and [`idle`],
//! [`block`] and [`patience`] find lines that no command touches. All of them write through [`meter`], which limits what each
//! sink gains. All that a machine has besides its script is made in [`parts`].
//!
//! The public modules are for `sedengine` alone, which passes on what a program calls.
#![tactic(auto)]

pub mod block;
pub mod bringing;
mod ends;
pub mod flushing;
pub mod idle;
pub mod laws;
mod limits;
pub mod listing;
mod matchers;
pub mod meter;
mod needs;
pub mod parts;
pub mod patience;
pub mod select;
pub mod substitute;
pub mod write;

pub use ends::{Ended, Held, Progress};
pub use limits::Limits;
