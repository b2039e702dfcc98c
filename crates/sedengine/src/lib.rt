//! The engine of a stream editor: it runs the commands of a script over the lines of a stream, in bounded memory (POSIX.1-2024,
//! XCU sed).
//!
//! What a run is to do is in `specs/` of `sedacts`, which does what needs no machine; this crate passes both on. The code here
//! makes the moves: `machine/tasks` starts and ends cycles, `machine/addresses` judges the addresses of a command,
//! `machine/commands` acts, with a file beside it for each family: `deleting` for `c`, `d` and `D`, `holding` for `g`, `G`,
//! `h`, `H` and `x`, `next` for `n` and `N`, `queueing` for `a` and `r`, `replacing` for `s`, `t` and `y`. `machine/moves` goes
//! on to the end; between cycles `machine/passing` passes over lines that no command touches. `machine/known` says for proofs
//! what is known of every machine. What is in `specs/` here, but for `Types`, is private to the proofs: what its calls promise
//! one another.
//!
//! docs/ARCHITECTURE.md says where a new command goes.
#![tactic(auto)]

mod engine;
mod machine;
mod next_step;

pub use engine::Engine;
pub use sedacts::{Ended, Held, Limits, Progress, laws};
