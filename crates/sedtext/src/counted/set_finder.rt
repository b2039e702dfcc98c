//! Bytes of a set, and how one of them is found in a text.
ghost use Rattle.std.specs.Prelude.{◌≡◌, ℕ, ◌≤◌, ◌↔◌, ◌⊎◌, Bool, IfSome, IsTrue, List, length, Some};
ghost use Rattle.memchr.specs.Find.{IsFirstByte};
ghost use Rattle.sedre.specs.Sets.{has};
ghost use Rattle.sedre.specs.Steps.{TakesExactly};
ghost use Rattle.sedtext.specs.Bytes.{FirstFrom, MemberAt, passed_to};
ghost use Rattle.sedtext.specs.Few.{AreMembers, HasFew};

use super::members::first_member;
use super::{Text, found_behind, uncounted};
use memchr::{memchr, memchr2, memchr3};
use sedre::{ByteSet, Steps};
use std::marker::Model;

/// Up to three bytes.
#[derive(Clone, Copy)]
pub(crate) enum Few {
    /// One.
    One(u8),
    /// Two.
    Two(u8, u8),
    /// Three.
    Three(u8, u8, u8),
}

/// The bytes gathered before and one more, if they are still few.
fn with_byte(few: Option<Few>, byte: u8) -> Option<Few>
    ensures { IfSome result (λ f. (c : ℕ) → HasFew (Some f) c ↔ (HasFew few c ⊎ (c ≡ byte))) }
{
    match few {
        None => Some(Few::One(byte)),
        Some(Few::One(first)) => Some(Few::Two(first, byte)),
        Some(Few::Two(first, second)) => Some(Few::Three(first, second, byte)),
        Some(Few::Three(_, _, _)) => None,
    }
}

/// The members of the set, if it has one to three.
pub(crate) fn members_of(set: &ByteSet) -> Option<Few>
    ensures { IfSome result (AreMembers set.now) }
{
    // For proofs: each member of a set is below 256.
    let _both = set.union(set);
    let mut few = None;
    for byte in 0..256usize {
        if set.has(byte as u8) {
            few = Some(with_byte(few, byte as u8)?);
        }
    }
    few
}

/// A set of bytes of which one is sought: as one of a few where it has one to three, else by a look at each byte.
#[derive(Drop)]
pub struct SetFinder {
    set: ByteSet,
    few: Option<Few>,
}

impl Model for SetFinder {
    ghost Value = { List Bool };

    ghost view = { λ s. s.set };

    ghost invariant = { λ s. IfSome s.few (AreMembers s.set) };
}

impl SetFinder {
    /// The set, to be sought.
    pub fn of(set: &ByteSet) -> SetFinder
        ensures { result ≡ set.now }
    {
        SetFinder {
            set: *set,
            few: members_of(set),
        }
    }

    /// Whether it is the same set that is sought.
    pub fn same(&self, other: &SetFinder) -> bool
        ensures { IsTrue result ↔ (self.now ≡ other.now) }
    {
        self.set.same(&other.set)
    }

    /// Whether the byte is in the set.
    pub fn has(&self, byte: u8) -> bool
        ensures { result ≡ has self.now byte }
    {
        self.set.has(byte)
    }

    /// The first place whose byte is in the set, if there is one.
    #[inline(always)]
    fn first_in(&self, bytes: &[u8]) -> Option<usize>
        ensures { IsFirstByte (has self.now) bytes.now result }
    {
        match &self.few {
            Some(Few::One(first)) => memchr(*first, bytes),
            Some(Few::Two(first, second)) => memchr2(*first, *second, bytes),
            Some(Few::Three(first, second, third)) => memchr3(*first, *second, *third, bytes),
            None => first_member(&self.set, bytes),
        }
    }

    /// The first place from `from` on whose byte is in the set, if there is one.
    /// Counts a look for each byte from `from` to that place, or to the end where there is none.
    #[inline(always)]
    pub fn find(&self, text: &Text, from: usize, steps: &mut Steps) -> Option<usize>
        requires from { from ≤ length text.now }
        ensures first { FirstFrom (MemberAt self.now text.now) from result }
        ensures cost { TakesExactly steps.old steps.new (passed_to (length text.now) from 1 result) }
    {
        let found = self.first_in(&uncounted(text)[from..]);
        found_behind(text, from, 1, found, steps)
    }
}
