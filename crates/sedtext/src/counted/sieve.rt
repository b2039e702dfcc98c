//! Three sets of bytes at fixed distances after a place: the places after which bytes of all three come are found by vectors of
//! 32 bytes.
ghost use Rattle.std.specs.Prelude.{◌+◌, ◌≤◌, ◌↔◌, length, IfSome, IsTrue};
ghost use Rattle.sedtext.specs.Bytes.{FirstFrom};
ghost use Rattle.sedtext.specs.Sieve.{MarksPlaces, FixedAt, PassesSieve};

use super::nibbles::Nibbles;
use std::simd::prelude::*;

/// How many lanes a vector has.
const LANES: usize = 32;

/// A set of bytes, one of which is at a distance after a place.
#[derive(Clone, Copy)]
pub struct Fixed {
    /// The distance.
    pub offset: usize,
    /// The bytes.
    pub set: Nibbles,
    /// How often they occur in a thousand bytes of ordinary text.
    pub weight: usize,
}

/// Three such sets, the rarest first.
#[derive(Clone, Copy)]
pub struct Sieve {
    /// The rarest.
    pub first: Fixed,
    /// The next rarest.
    pub second: Fixed,
    /// The one after it.
    pub third: Fixed,
}

impl Fixed {
    /// Whether one of them is at the distance after the place.
    fn stands(&self, bytes: &[u8], place: usize) -> bool
        requires { place ≤ length bytes.now }
        ensures { IsTrue result ↔ FixedAt self.now bytes.now place }
    {
        self.offset < bytes.len() - place && self.set.has(bytes[place + self.offset])
    }

    /// Of the 32 places from one on those after which one of them comes, a bit each.
    fn marks(&self, bytes: &[u8], place: usize) -> u64
        requires { place + self.now.offset + 32 ≤ length bytes.now }
        ensures { MarksPlaces (FixedAt self.now bytes.now) place result }
    {
        self.set
            .marked(u8x32::from_slice(&bytes[place + self.offset..]))
    }
}

impl Sieve {
    /// Of the 32 places from one on those after which bytes of all three come, a bit each.
    fn marks(&self, bytes: &[u8], place: usize) -> u64
        requires first { place + self.now.first.offset + 32 ≤ length bytes.now }
        requires second { place + self.now.second.offset + 32 ≤ length bytes.now }
        requires third { place + self.now.third.offset + 32 ≤ length bytes.now }
        ensures { MarksPlaces (PassesSieve self.now bytes.now) place result }
    {
        let first = self.first.marks(bytes, place);
        let second = self.second.marks(bytes, place);
        first & second & self.third.marks(bytes, place)
    }

    /// Whether bytes of all three come after the place.
    fn passes(&self, bytes: &[u8], place: usize) -> bool
        requires { place ≤ length bytes.now }
        ensures { IsTrue result ↔ PassesSieve self.now bytes.now place }
    {
        self.first.stands(bytes, place)
            && self.second.stands(bytes, place)
            && self.third.stands(bytes, place)
    }

    /// The first place from one on after which bytes of all three come, byte by byte.
    fn find_slowly(&self, bytes: &[u8], from: usize) -> Option<usize>
        requires { from ≤ length bytes.now }
        ensures first { FirstFrom (PassesSieve self.now bytes.now) from result }
        ensures inside { IfSome result (λ k. k ≤ length bytes.now) }
    {
        for place in from..bytes.len() {
            if self.passes(bytes, place) {
                return Some(place);
            }
        }
        None
    }

    /// The first place from one on after which bytes of all three come.
    pub(super) fn find(&self, bytes: &[u8], from: usize) -> Option<usize>
        requires { from ≤ length bytes.now }
        ensures first { FirstFrom (PassesSieve self.now bytes.now) from result }
        ensures inside { IfSome result (λ k. k ≤ length bytes.now) }
    {
        let nearer = self.first.offset.max(self.second.offset);
        let reach = nearer.max(self.third.offset);
        if reach >= bytes.len() || bytes.len() - reach < LANES {
            return self.find_slowly(bytes, from);
        }
        let last = bytes.len() - reach - LANES;
        let mut place = from;
        while place < last {
            let marks = self.marks(bytes, place);
            if marks != 0 {
                return Some(place + marks.trailing_zeros() as usize);
            }
            place += LANES;
        }
        if place >= last + LANES {
            return None;
        }
        let marks = self.marks(bytes, last) >> (place - last);
        if marks == 0 {
            return None;
        }
        Some(place + marks.trailing_zeros() as usize)
    }
}
