//! Some of the groups 1 to 9.
ghost use Rattle.std.specs.Prelude.{◌≡◌, ℕ, ◌&&◌, ◌||◌, ◌↔◌, not, eqb, false, IsTrue};
ghost use Rattle.sedpass.specs.Prepared.{holds, reported};

/// Some of the groups 1 to 9: those that an expression reports. A group with a greater number is in no set.
#[derive(Clone, Copy)]
pub struct GroupSet {
    bits: u16,
}

impl GroupSet {
    /// No group.
    pub fn none() -> GroupSet
        ensures { (k : ℕ) → holds result k ≡ false }
    {
        GroupSet { bits: 0 }
    }

    /// Group `k` alone, none where `k` is 0 or above 9.
    #[tactic(auto, using(crate::proofs::GroupSetLemmas::holds_one))]
    pub fn one(k: usize) -> GroupSet
        ensures { (n : ℕ) → holds result n ≡ (reported n && eqb k n) }
    {
        if 1 <= k && k <= 9 {
            GroupSet { bits: 1u16 << k }
        } else {
            GroupSet { bits: 0 }
        }
    }

    /// The groups of both.
    #[tactic(auto, using(crate::proofs::GroupSetLemmas::holds_union))]
    pub fn union(self, other: GroupSet) -> GroupSet
        ensures { (k : ℕ) → holds result k ≡ (holds self k || holds other k) }
    {
        let bits = self.bits | other.bits;
        GroupSet { bits }
    }

    /// The groups of this one that aren't in the other.
    #[tactic(auto, using(crate::proofs::GroupSetLemmas::holds_without))]
    pub fn without(self, other: GroupSet) -> GroupSet
        ensures { (k : ℕ) → holds result k ≡ (holds self k && not (holds other k)) }
    {
        let bits = self.bits & !other.bits;
        GroupSet { bits }
    }

    /// Whether a group is in both.
    #[tactic(auto, using(crate::proofs::GroupSetLemmas::meet_in, crate::proofs::GroupSetLemmas::in_both))]
    pub fn meets(self, other: GroupSet) -> bool
        ensures { IsTrue result ↔ ((k : ℕ) × IsTrue (holds self k) × IsTrue (holds other k)) }
    {
        self.bits & other.bits & 1023 != 0
    }

    /// Whether group `k` is in it.
    pub fn has(self, k: usize) -> bool
        ensures { result ≡ holds self k }
    {
        k <= 9 && (self.bits >> k) & 1 == 1
    }
}
