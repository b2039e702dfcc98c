//! The search for the match that begins earliest and of those is the longest, with its groups (XBD 9.1).
//!
//! A [`TableMatcher`] seeks an expression that is used many times. An expression whose matches a look at the text finds, as a
//! literal, is sought so ([`direct`]); any other by passes over the text, whose tables remember what was found out at one place
//! for all others and for later texts ([`passes`], over `sedpass`). Whether there is a match takes at most `64 * m * (n + 1)`
//! steps, with `m` nodes and `n` bytes. [`TableMatcher::next_occurrence`] goes over all occurrences in one text: at most
//! `416 * m * (n + 1)` steps together, and each of them `64 * m * m * (n + 1) * (n + 1)` ([`Occurrences`]).
//! [`TableMatcher::groups_of`] gives the groups of one of them, in steps in proportion to its length. A step is one look at a node,
//! a byte, a mark or a cell of a table.
//!
//! [`find`] seeks an expression that is used once, with its groups. It makes it ready for passes in the room of the scratch.
//!
//! All of them work in the room of a [`Scratch`], and take no memory.
#![tactic(auto, using(crate::proofs::Closing::closing), unfolding(sedre::specs::Steps::TakesAtLeast, sedre::specs::Steps::IsCounted))]

mod direct;
mod occurrences;
mod passes;
mod scratch;
mod stretches;
mod table_matcher;
mod table_room;
mod whole;

pub use occurrences::Occurrences;
pub use scratch::Scratch;
pub use sedtext::{Found, Marks, Text, found_law, groups_law, spans_law};
pub use table_matcher::TableMatcher;
pub use table_room::TableRoom;
pub use whole::find;

/// Where a match begins and ends.
type Span = (usize, usize);
