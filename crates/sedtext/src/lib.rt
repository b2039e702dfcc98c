//! What a text matches and how it is looked at: texts and marks that are looked at by calls that count, what is looked for in a
//! text itself, and which match of an expression of `sedre` is sought and what its groups are (XBD 9.1), as definitions and laws.
//!
//! A [`Text`], its bytes and [`Marks`] are looked at by calls that count one step for each look. They are in [`counted`], with
//! what is looked for in a text's bytes: bytes of a set, a literal. No bytes of a text are seen without a count outside of that
//! module and those below it.
//!
//! [`links`] takes an expression apart into a chain, and what follows asks chains alone. [`hints`] show from which places a match can
//! begin at all: by a literal that all contain, and by the chains of its first alternatives, which [`branches`] has. [`fixed_runs`]
//! finds out once whether all matches are as many bytes of one set. No search for a match of any expression is here.
//!
//! The public modules are for the two crates above; `sedmatch` passes on what a program calls, and decides what a matcher uses.
#![tactic(auto, using(crate::proofs::Closing::closing), unfolding(sedre::specs::Steps::TakesAtLeast, sedre::specs::Steps::IsCounted))]

mod branches;
pub mod counted;
pub mod fixed_runs;
mod found;
pub mod hints;
mod laws;
pub mod links;

pub use counted::{Marks, Text};
pub use found::Found;
pub use laws::{found_law, groups_law, spans_law};
