//! The count of steps: of looks at nodes, and of what the matcher counts besides.
ghost use Rattle.std.specs.Prelude.{◌≡◌, ◌+◌, ◌*◌, ◌-◌, ◌^◌, ◌≤◌, min};
ghost use Rattle.sedre.specs.Steps.{TakesExactly};

use std::marker::Model;

/// How many steps were taken. A count that reaches the largest `u128` stays there.
// In two halves, a step is one addition, and a branch that is hardly ever taken.
#[derive(Drop)]
pub struct Steps {
    low: u64,
    high: u64,
}

impl Model for Steps {
    ghost use Rattle.std.specs.Prelude.{ℕ, ◌+◌, ◌*◌, ◌<◌, ◌^◌};

    ghost Value = { ℕ };

    ghost view = { λ s. s.low + 2 ^ 64 * s.high };

    ghost invariant = { λ s. s.high < 2 ^ 64 };
}

impl Steps {
    /// A count of no steps.
    pub fn new() -> Self
        ensures { result ≡ 0 }
    {
        Steps { low: 0, high: 0 }
    }

    /// The steps taken so far.
    pub fn count(&self) -> u128
        ensures { result ≡ self.now }
    {
        self.low as u128 + ((self.high as u128) << 64)
    }

    /// Counts `n` more steps.
    pub fn add(&mut self, n: usize)
        ensures cost { TakesExactly self.old self.new n }
    {
        self.low = self.low.wrapping_add(n as u64);
        if self.low < n as u64 {
            (self.low, self.high) = carried(self.low, self.high);
        }
    }
}

/// The halves of a count, where one more is to be added to the high one.
#[cold]
#[inline(never)]
fn carried(low: u64, high: u64) -> (u64, u64)
    ensures { result.0 + 2 ^ 64 * result.1 ≡ min (low + 2 ^ 64 * (high + 1)) (2 ^ 128 - 1) }
{
    if high < u64::MAX {
        (low, high + 1)
    } else {
        (u64::MAX, u64::MAX)
    }
}
