//! Words of memory that are touched only as far as they are written.
ghost use Rattle.std.specs.Prelude.{◌≡◌, ℕ, List, ◌+◌, ◌<◌, ◌≤◌, length, replicate, slice_index_or, slice_set, vec_capacity, IfOk};
ghost use Rattle.sedtext.specs.Words.{Touched, padded};

use std::alloc::{AllocError, Global};
use std::marker::Model;

/// So many words, all of them 0 at first, of which the first ones are in memory.
#[derive(Drop)]
pub struct LazyWords {
    words: Vec<u64>,
    count: usize,
}

impl Model for LazyWords {
    ghost Value = { Touched };

    ghost view = { λ w. record { all = padded w.words.items w.count; there = length w.words.items } };

    ghost invariant = { λ w. (length w.words.items ≤ w.count) × (w.count ≤ vec_capacity w.words) };
}

impl LazyWords {
    /// So many words. Fails only where a request for memory was refused.
    pub fn new(alloc: Global, count: usize) -> Result<LazyWords, AllocError>
        ensures { IfOk result (λ w. w.all ≡ replicate count 0) }
    {
        let words = Vec::with_capacity(alloc, count)?;
        Ok(LazyWords { words, count })
    }

    /// Any word; 0 behind the last one.
    pub fn get(&self, i: usize) -> u64
        ensures { result ≡ slice_index_or self.now.all i 0 }
    {
        if i < self.words.len() {
            self.words[i]
        } else {
            0
        }
    }

    /// The words from one on, `count` of them at most: those that are in memory, behind which all are 0.
    pub fn slice(&self, from: usize, count: usize) -> &[u64]
        ensures few { length result.now ≤ count }
        ensures words { (k : ℕ) → k < count → slice_index_or result.now k 0 ≡ slice_index_or self.now.all (from + k) 0 }
    {
        let there = &self.words[self.words.len().min(from)..];
        &there[..there.len().min(count)]
    }

    /// Sees to it that the words before a place are in memory.
    pub fn reach(&mut self, end: usize)
        requires { end ≤ length self.old.all }
        ensures same { self.new.all ≡ self.old.all }
        ensures there { end ≤ self.new.there }
    {
        while self.words.len() < end {
            self.words.push_reserved(0);
        }
    }

    /// A word that is in memory.
    pub fn read(&self, i: usize) -> u64
        requires { i < self.now.there }
        ensures { result ≡ slice_index_or self.now.all i 0 }
    {
        self.words[i]
    }

    /// Writes a word that is in memory.
    pub fn set(&mut self, i: usize, word: u64)
        requires { i < self.old.there }
        ensures all { self.new.all ≡ slice_set self.old.all i word }
        ensures there { self.new.there ≡ self.old.there }
    {
        self.words[i] = word;
    }
}
