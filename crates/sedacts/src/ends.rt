//! How a run goes on and ends, and what it holds.
ghost use Rattle.std.specs.Prelude.{◌≡◌};
ghost use Rattle.sedacts.specs.Held.{total_of};
ghost use Rattle.sedacts.specs.Run.{end_answered};

/// How a run ended. Lines are counted from 1, as the line number is.
#[derive(Clone, Copy, Debug, PartialEq, Eq)]
pub enum Ended {
    /// F0: the script ran over the whole input.
    Done,
    /// F1: the pattern space would become longer than its limit, by the next line, which has this number, or by what a
    /// command makes of this line.
    PatternFull(u64),
    /// F2: the hold space would become longer than its limit, by a command on this line.
    HoldFull(u64),
    /// F3: the queue is full, and a command on this line has a further entry for it.
    QueueFull(u64),
    /// F4: all turns were taken, and one more is due.
    TurnsSpent,
    /// F5: on this line an empty regular expression stands for the last one used, and none has been used.
    NoPrevious(u64),
    /// F6: the source failed.
    InputBroken,
    /// F7: this sink failed.
    OutputBroken(usize),
    /// F8: this sink has gained as many bytes as the limits allow, and one more is due.
    OutputFull(usize),
}

/// How the run goes on after a cycle.
#[derive(Clone, Copy, Debug, PartialEq, Eq)]
pub enum Progress {
    /// A next cycle is due.
    More,
    /// The run has ended.
    Ended(Ended),
}

impl Progress {
    /// The end, where the run has come to one.
    pub fn end(self) -> Option<Ended>
        ensures { result ≡ end_answered self }
    {
        match self {
            Progress::More => None,
            Progress::Ended(end) => Some(end),
        }
    }
}

/// How much an engine holds: the bytes in its three spaces, as many bytes as may be read ahead, whether they are or not,
/// and the entries of the queue. The counts of what sinks have gained are left out.
#[derive(Clone, Copy, Debug, PartialEq, Eq)]
pub struct Held {
    /// The bytes in the pattern space.
    pub pattern: usize,
    /// The bytes in the hold space.
    pub hold: usize,
    /// The bytes in the build space, in which a substitution makes its text.
    pub build: usize,
    /// The bytes that may be read ahead.
    pub look: usize,
    /// The entries of the queue.
    pub queue: usize,
}

impl Held {
    /// The number of bytes in all. An entry of the queue takes 8.
    pub fn total(&self) -> u128
        ensures { result ≡ total_of self.now }
    {
        let spaces = self.pattern as u128 + self.hold as u128 + self.build as u128;
        spaces + self.look as u128 + 8 * self.queue as u128
    }
}
