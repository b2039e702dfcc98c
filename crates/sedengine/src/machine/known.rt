//! What is known of every machine: calls for proofs alone, which say a fact by their names and do nothing when they run.
//!
//! A fact that always holds of a type's fields is known where one of them is looked at, as these calls do.
ghost use Rattle.std.specs.Prelude.{◌≡◌, ◌<◌, ◌≤◌, ◌^◌, List, ℕ, length};
ghost use Rattle.sedacts.specs.Ends.{WithinLimits};
ghost use Rattle.sedacts.specs.Run.{at_lines};

use super::Machine;
use sedspace::Space;

impl Machine {
    /// For proofs: the state is within the limits, whatever lines are left.
    #[inline(always)]
    pub(super) fn is_within_limits(&self)
        ensures { (ls : List (List ℕ)) → WithinLimits self.now.limits (at_lines self.now ls) }
    {
        let _turns = self.turns;
    }

    /// For proofs: there are no more lines than turns, and the turns stay below their limit, which fits their type.
    #[inline(always)]
    pub(super) fn turns_fit(&self)
        ensures lines { self.now.state.number ≤ self.now.state.turns }
        ensures limit { self.now.state.turns ≤ self.now.limits.turns }
        ensures fit { self.now.limits.turns < 2 ^ 64 }
    {
        let _most = self.limits.turns();
    }
}

/// For proofs: what a space holds is within its limit.
#[inline(always)]
pub(super) fn is_within(space: &Space)
    ensures { length space.now.bytes ≤ space.now.limit }
{
    let _len = space.len();
}
