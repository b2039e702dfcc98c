//! The limits of a run.
ghost use Rattle.std.specs.Prelude.{◌≡◌, ◌≤◌, ◌<◌, ◌^◌, IfSome, IsNone, Some};
ghost use Rattle.sedacts.specs.LimitRanges.{limits_of, AreLimits};

use std::marker::Model;

/// How much a run may hold and do.
#[derive(Clone, Copy)]
pub struct Limits {
    most_space: usize,
    most_queue: usize,
    most_look: usize,
    most_turns: u64,
    most_nodes: usize,
    most_output: Option<u64>,
}

impl Model for Limits {
    ghost use Rattle.sedacts.specs.State.{LimitsView};
    ghost use Rattle.sedacts.specs.LimitRanges.{AreLimits, limits_of};

    ghost Value = { LimitsView };

    ghost view = { λ s. record (limits_of s.most_space s.most_queue s.most_look s.most_turns s.most_nodes) {
      output = s.most_output;
    } };

    ghost inverse = { λ l. record {
      most_space = l.space;
      most_queue = l.queue;
      most_look = l.look;
      most_turns = l.turns;
      most_nodes = l.nodes;
      most_output = l.output;
    } };

    ghost invariant = { λ s. AreLimits (limits_of s.most_space s.most_queue s.most_look s.most_turns s.most_nodes) };
}

impl Limits {
    /// Makes limits of these numbers, or answers `None` where one is out of its range. What sinks may gain isn't limited.
    ///
    /// * `space`: the bytes that each of the pattern space, the hold space and the build space may hold, 1 to 2^30
    /// * `queue`: the entries that wait for the end of a cycle, 0 to 2^24
    /// * `look`: the bytes that are read ahead, 1 to 2^30
    /// * `turns`: the turns that a run may take, one for each start of a cycle, command reached and byte of a file copied,
    ///   0 to 2^64 - 1
    /// * `nodes`: the nodes of an expression, with what it repeats written out, 1 to 65,536
    pub fn new(space: usize, queue: usize, look: usize, turns: u64, nodes: usize) -> Option<Limits>
        ensures given { IfSome result (λ l. (l ≡ limits_of space queue look turns nodes) × AreLimits l) }
        ensures refused { IsNone result → AreLimits (limits_of space queue look turns nodes) → ⊥ }
    {
        let positive = space >= 1 && look >= 1 && nodes >= 1;
        let bounded = space <= 1 << 30 && queue <= 1 << 24 && look <= 1 << 30 && nodes <= 65536;
        if positive && bounded {
            Some(Limits {
                most_space: space,
                most_queue: queue,
                most_look: look,
                most_turns: turns,
                most_nodes: nodes,
                most_output: None,
            })
        } else {
            None
        }
    }

    /// The same limits, with one more: no sink may gain more than this many bytes in the run.
    pub fn with_output(self, bytes: u64) -> Limits
        ensures { result ≡ record self { output = Some bytes } }
    {
        Limits {
            most_output: Some(bytes),
            ..self
        }
    }

    /// The most bytes that a space may hold, 1 to 2^30.
    pub fn space(&self) -> usize
        ensures value { result ≡ self.now.space }
        ensures least { 1 ≤ result }
        ensures most { result ≤ 2 ^ 30 }
    {
        self.most_space
    }

    /// The most entries that the queue may hold, 0 to 2^24.
    pub fn queue(&self) -> usize
        ensures value { result ≡ self.now.queue }
        ensures most { result ≤ 2 ^ 24 }
    {
        self.most_queue
    }

    /// The most bytes that may be read ahead, 1 to 2^30.
    pub fn look(&self) -> usize
        ensures value { result ≡ self.now.look }
        ensures least { 1 ≤ result }
        ensures most { result ≤ 2 ^ 30 }
    {
        self.most_look
    }

    /// The most turns that a run may take, 0 to 2^64 - 1.
    pub fn turns(&self) -> u64
        ensures { result ≡ self.now.turns }
    {
        self.most_turns
    }

    /// The most nodes that an expression may have, 1 to 65,536.
    pub fn nodes(&self) -> usize
        ensures value { result ≡ self.now.nodes }
        ensures least { 1 ≤ result }
        ensures most { result ≤ 65536 }
    {
        self.most_nodes
    }

    /// The most bytes that each sink may gain, where that is limited.
    pub fn output(&self) -> Option<u64>
        ensures { result ≡ self.now.output }
    {
        self.most_output
    }
}
