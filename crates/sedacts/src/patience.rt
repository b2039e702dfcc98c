//! When lines are worth passing over. No contract hangs on it: whatever is tried, the run is the same.

/// A block of fewer lines than this hardly pays for its search.
const FEW: u64 = 4;

/// The most cycles that are run before the next try.
const LONGEST_WAIT: u32 = 1_000;

/// The fewest bytes that a search examines.
const LEAST_WINDOW: usize = 8_192;

/// The most.
const MOST_WINDOW: usize = 1 << 30;

/// How many cycles are run before lines are tried again, and how far a search goes.
#[derive(Clone, Copy)]
pub struct Patience {
    wait: u32,
    // How many cycles the last short block made the next one wait.
    last: u32,
    /// How many bytes a search examines.
    pub window: usize,
}

impl Patience {
    /// Nothing was tried yet.
    pub fn new() -> Patience {
        Patience {
            wait: 0,
            last: 0,
            window: LEAST_WINDOW,
        }
    }

    /// Whether lines are to be tried at the start of this cycle.
    #[inline(always)]
    pub fn is_due(&mut self) -> bool {
        if self.wait == 0 {
            return true;
        }
        self.wait -= 1;
        false
    }

    /// Notes how much was passed over: after short blocks more and more cycles are run before the next try. Where several
    /// expressions are sought, what lies behind the first hit was sought in vain, so the next search examines a few times
    /// as many bytes as were passed over.
    pub fn note(&mut self, lines: u64, bytes: usize) {
        if lines < FEW {
            self.last = (self.last.min(LONGEST_WAIT) * 2 + 1).min(LONGEST_WAIT);
            self.wait = self.last;
        } else {
            self.last = 0;
        }
        self.window = bytes.min(MOST_WINDOW / 4).max(LEAST_WINDOW / 4) * 4;
    }
}
