//! Sets of bytes, as a node of an expression has them.
ghost use Rattle.std.specs.Prelude.{◌≡◌, ◌≢◌, ◌||◌, ℕ, ◌<◌, ◌-◌, ◌+◌, ◌*◌, ◌/◌, ◌%◌, ◌↔◌, eqb, max, false, slice_get};
ghost use Rattle.std.specs.Prelude.{slice_index_or, IfSome, MatchOption, IsTrue};
ghost use Rattle.std.specs.Int.{bit_at};
ghost use Rattle.sedre.specs.Sets.{set_of, has, only, any_but_zero, no_byte, is_between, union, complement, other_case, folded_set, matching, in_class};
ghost use Rattle.sedre.specs.Words.{words_of};

use crate::class::Class;
use std::marker::Model;

/// A set of bytes: four words of 64 bits. Contracts see it as a list of 256 truth values.
#[derive(Clone, Copy)]
pub struct ByteSet {
    words: [u64; 4],
}

impl Model for ByteSet {
    ghost use Rattle.std.specs.Prelude.{List, Bool};

    ghost Value = { List Bool };

    ghost use Rattle.sedre.specs.Words.{set_of_words, words_of, AreWords};

    ghost view = { λ s. set_of_words s.words };

    ghost invariant = { λ s. AreWords s.words };

    ghost inverse = { λ v. record { words = words_of v } };

    ghost use Rattle.std.proofs.Common.{ap};
    ghost use Rattle.sedre.specs.WordLaws.{words_of-set_of_words};

    ghost inverse_ok = { λ s h. ap (λ w. record { words = w }) (words_of-set_of_words s.words h) };
}

impl ByteSet {
    /// The set of no byte.
    pub fn none() -> Self
        ensures { result ≡ no_byte }
    {
        ByteSet { words: [0; 4] }
    }

    /// The set of one byte.
    pub(crate) fn only(b: u8) -> Self
        ensures { result ≡ only b }
    {
        let mut set = ByteSet::none();
        set.insert(b);
        set
    }

    /// Each byte but 0, as `.` matches them (XBD 9.3.4).
    pub(crate) fn any() -> Self
        ensures { result ≡ any_but_zero }
    {
        ByteSet::only(0).complement()
    }

    /// The bytes from `first` to `last`, both included; none where `last` is below `first`.
    pub(crate) fn range(first: u8, last: u8) -> Self
        ensures { result ≡ set_of (is_between first last) }
    {
        let mut set = ByteSet::none();
        for b in first..=last {
            set.insert(b);
        }
        set
    }

    /// The bytes of a class.
    pub(crate) fn of_class(class: Class) -> Self
        ensures { result ≡ set_of (in_class class) }
    {
        let mut set = ByteSet::none();
        for b in 0..=127 {
            if class.has(b) {
                set.insert(b);
            }
        }
        set
    }

    /// Whether the byte is in the set.
    pub fn has(&self, b: u8) -> bool
        ensures is { result ≡ has self.now b }
        ensures listed { slice_get self.now b ≡ Some result }
    {
        has_bit(self.words[usize::from(b / 64)], b % 64)
    }

    /// Adds a byte.
    pub(crate) fn insert(&mut self, b: u8)
        ensures { self.new ≡ union self.old (only b) }
    {
        let at = usize::from(b / 64);
        self.words[at] = set_bit(self.words[at], b % 64);
    }

    /// The set's only member; `None` unless it has exactly one.
    pub fn sole(&self) -> Option<u8>
        ensures member { IfSome result (λ b. (c : ℕ) → IsTrue (slice_index_or self.now c false) → c ≡ b) }
        ensures is { MatchOption result ((b : ℕ) → b < 256 → self.now ≡ only b → ⊥) (λ b. self.now ≡ only b) }
    {
        let b = first_member(&self.words)?;
        if self.same(&ByteSet::only(b)) {
            Some(b)
        } else {
            None
        }
    }

    /// The words, by which sets can be put in an order.
    pub(crate) fn words(&self) -> [u64; 4]
        ensures { result ≡ words_of self.now }
    {
        self.words
    }

    /// Whether the sets have the same members.
    pub fn same(&self, other: &ByteSet) -> bool
        ensures { IsTrue result ↔ (self.now ≡ other.now) }
    {
        self.words == other.words
    }

    /// The bytes of either set.
    pub fn union(&self, other: &ByteSet) -> Self
        ensures is { result ≡ union self.now other.now }
        ensures members { (b : ℕ) → has result b ≡ (has self.now b || has other.now b) }
    {
        let [a, b, c, d] = self.words;
        let [e, f, g, h] = other.words;
        ByteSet {
            words: [either(a, e), either(b, f), either(c, g), either(d, h)],
        }
    }

    /// The bytes that are not in the set.
    pub(crate) fn complement(&self) -> Self
        ensures { result ≡ complement self.now }
    {
        let [a, b, c, d] = self.words;
        ByteSet {
            words: [!a, !b, !c, !d],
        }
    }

    /// Whether the byte, or the letter that differs from it in its case alone, is in the set.
    fn has_in_either_case(&self, b: u8) -> bool
        ensures { result ≡ (has self.now b || has self.now (other_case b)) }
    {
        self.has(b) || self.has(other_case(b))
    }

    /// The set with both cases of each of its ASCII letters.
    fn folded(&self) -> Self
        ensures { result ≡ folded_set self.now }
    {
        let mut set = ByteSet::none();
        for b in 0..=255 {
            if self.has_in_either_case(b) {
                set.insert(b);
            }
        }
        set
    }

    /// The set of a byte and the letter that differs from it in its case alone, if there is one.
    fn in_either_case(b: u8) -> Self
        ensures { result ≡ folded_set (only b) }
    {
        let mut set = ByteSet::only(b);
        set.insert(other_case(b));
        set
    }

    /// The bytes that match a literal one: both cases of a letter where it is `folded`, and otherwise that byte.
    pub(crate) fn literal(b: u8, folded: bool) -> Self
        ensures { result ≡ matching folded (only b) }
    {
        if folded {
            ByteSet::in_either_case(b)
        } else {
            ByteSet::only(b)
        }
    }

    /// The bytes that match those of the set: both cases of its letters where it is `folded`, and otherwise the set.
    pub(crate) fn matching(&self, folded: bool) -> Self
        ensures { result ≡ matching folded self.now }
    {
        if folded { self.folded() } else { *self }
    }
}

/// The letter that differs from a byte in its case alone, or the byte itself where there is none.
fn other_case(b: u8) -> u8
    ensures { result ≡ other_case b }
{
    match b {
        b'A'..=b'Z' => b + 32,
        b'a'..=b'z' => b - 32,
        _ => b,
    }
}

/// Whether the bit `k` of a word is set.
fn has_bit(word: u64, k: u8) -> bool
    requires { k < 64 }
    ensures { result ≡ eqb (bit_at word k) 1 }
{
    (word >> k) & 1 == 1
}

/// The word with its bit `k` set.
fn set_bit(word: u64, k: u8) -> u64
    requires { k < 64 }
    ensures same { bit_at result k ≡ 1 }
    ensures other { (i : ℕ) → i < 64 → i ≢ k → bit_at result i ≡ bit_at word i }
{
    word | (1u64 << k)
}

/// The bits that are set in either word.
fn either(a: u64, b: u64) -> u64
    ensures { (k : ℕ) → bit_at result k ≡ max (bit_at a k) (bit_at b k) }
{
    a | b
}

/// The lowest bit of a word that is set.
fn lowest_bit(word: u64) -> u8
    requires { 0 < word }
    ensures within { result < 64 }
    ensures set { bit_at word result ≡ 1 }
{
    word.trailing_zeros() as u8
}

/// The least byte whose bit is set, if any is.
fn first_member(words: &[u64; 4]) -> Option<u8>
    ensures { MatchOption result ((k : ℕ) → k < 4 → slice_index_or words.now k 0 ≡ 0)
        (λ b. bit_at (slice_index_or words.now (b / 64) 0) (b % 64) ≡ 1) }
{
    for k in 0..4u8 {
        let word = words[usize::from(k)];
        if word != 0 {
            return Some(64 * k + lowest_bit(word));
        }
    }
    None
}
