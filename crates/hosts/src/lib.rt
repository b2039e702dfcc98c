//! Two hosts of the editor: one runs scripts within limits of its own, one a cycle at a time.
#![tactic(auto)]

pub mod by_cycles;
pub mod own_limits;
