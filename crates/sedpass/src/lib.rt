//! A matcher of one kind of pass. `sedmatch` searches by it for expressions that no look at the text settles, and decides groups
//! by it.
//!
//! One act goes from the row of a place and the next byte to that of the next place ([`rows`]), forwards or from the text's end.
//! A table remembers what acts found out ([`table`], [`cells`]); a pass forwards for the whole expression is in [`forwards`]. Of a pass
//! backwards over a region the states of all places are kept ([`kept`]); by looks into it the groups of a match are decided from its
//! end ([`groups`]). Searches use these ([`search`]).
#![tactic(auto, unfolding(sedre::specs::Steps::TakesAtLeast, sedre::specs::Steps::IsCounted))]

pub mod cells;
pub mod classes;
pub mod forwards;
pub mod group_set;
pub mod groups;
pub mod kept;
pub mod nodes;
pub mod rows;
pub mod search;
pub mod table;
pub mod width;
