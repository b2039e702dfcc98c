//! A queue: numbers up to a limit, in memory that is reserved when it is made.
ghost use Rattle.std.specs.Prelude.{◌≡◌, ◌<◌, ◌≤◌, [], ◌∷◌, ◌++◌, length, IfOk, OnOk, OnErr, slice_index};

use super::Full;
use std::alloc::{AllocError, Global};
use std::marker::Model;

/// At most `limit` numbers. `new` reserves the memory for them; no later call asks for any.
#[derive(Drop)]
pub struct Queue {
    held: Vec<u64>,
    most: usize,
}

impl Model for Queue {
    ghost use Rattle.std.specs.Prelude.{◌≤◌, vec_len, vec_capacity};
    ghost use Rattle.sedspace.specs.Spaces.{QueueView};

    ghost Value = { QueueView };

    ghost view = { λ s. record { items = s.held.items; limit = s.most } };

    ghost invariant = { λ s. (vec_len s.held ≤ s.most) × (s.most ≤ vec_capacity s.held) };
}

impl Queue {
    ghost use Rattle.sedspace.specs.Spaces.{QueueView};

    /// Makes an empty queue, and reserves memory for `limit` numbers.
    pub fn new(alloc: Global, limit: usize) -> Result<Queue, AllocError>
        ensures { IfOk result (λ s. s ≡ record { items = []; limit = limit }) }
    {
        let held = Vec::with_capacity(alloc, limit)?;
        Ok(Queue { held, most: limit })
    }

    /// How many numbers it contains.
    pub fn len(&self) -> usize
        ensures value { result ≡ length self.now.items }
        ensures bound { result ≤ self.now.limit }
    {
        self.held.len()
    }

    /// The number at this place. Places count from 0, in the order in which the numbers were put in.
    pub fn entry(&self, index: usize) -> u64
        requires { index < length self.now.items }
        ensures { result ≡ slice_index self.now.items index }
    {
        self.held[index]
    }

    /// Removes all numbers.
    pub fn clear(&mut self)
        ensures { self.new ≡ record self.old { items = [] } }
    {
        self.held.clear();
    }

    /// Appends a number. Answers `Full`, and changes nothing, exactly where the queue contains as many as its limit.
    pub fn push(&mut self, entry: u64) -> Result<(), Full>
        ensures ok { OnOk result (self.new ≡ record self.old { items = self.old.items ++ entry ∷ [] }) }
        ensures fits { OnOk result (length self.old.items < self.old.limit) }
        ensures full { OnErr result (length self.old.items ≡ self.old.limit) }
        ensures err { OnErr result (self.new ≡ self.old) }
    {
        if self.held.len() == self.most {
            return Err(Full);
        }
        match self.held.push(entry) {
            Ok(()) => Ok(()),
            Err(_) => unreachable!(),
        }
    }
}
