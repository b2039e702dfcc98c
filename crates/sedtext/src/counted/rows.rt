//! Marks, and rows of them: one for each of several states.
ghost use Rattle.std.specs.Prelude.{◌≡◌, ◌≢◌, ℕ, Bool, List, ◌+◌, ◌-◌, ◌*◌, ◌^◌, ◌<◌, ◌≤◌, length, min, slice_index_or, slice_set, replicate, IfOk, IsTrue, ◌↔◌, false, eqb};
ghost use Rattle.sedtext.specs.Places.{Ascending};
ghost use Rattle.std.specs.Int.{bit_at};
ghost use Rattle.sedtext.specs.Words.{AgreeBelow, KeepsRows, blended, rows_of, row_of};
ghost use Rattle.sedre.specs.Steps.{CostsWithin, TakesExactly};

use crate::counted::lazy_words::LazyWords;
use sedre::Steps;
use std::alloc::{AllocError, Global};
use std::marker::Model;

/// A list of marks, each set or not: one row of them.
#[derive(Drop)]
pub struct Marks {
    row: Rows,
    count: usize,
}

impl Model for Marks {
    ghost Value = { List Bool };

    ghost view = { λ m. row_of m.row 0 };

    ghost invariant = { λ m. (length m.row ≡ 1) × (length (row_of m.row 0) ≡ m.count) };
}

impl Marks {
    /// `len` marks, none of them set. Fails only where a request for memory was refused.
    pub fn new(alloc: Global, len: usize) -> Result<Marks, AllocError>
        ensures { IfOk result (λ m. m ≡ replicate len false) }
    {
        let width = len / 64 + 1;
        let row = Rows {
            words: LazyWords::new(alloc, width)?,
            width,
            marks: len,
            count: 1,
        };
        Ok(Marks { row, count: len })
    }

    /// How many marks there are.
    pub fn len(&self) -> usize
        ensures { result ≡ length self.now }
    {
        self.count
    }

    /// Whether the mark is set. Counts one look.
    pub fn get(&self, i: usize, steps: &mut Steps) -> bool
        requires inside { i < length self.now }
        ensures mark { result ≡ slice_index_or self.now i false }
        ensures cost { TakesExactly steps.old steps.new 1 }
    {
        self.row.get(0, i, steps)
    }

    /// Sets the mark, or takes it away. Counts one look.
    pub fn set(&mut self, i: usize, mark: bool, steps: &mut Steps)
        requires inside { i < length self.old }
        ensures marks { self.new ≡ slice_set self.old i mark }
        ensures cost { TakesExactly steps.old steps.new 1 }
    {
        self.row.set(0, i, mark, steps);
    }
}

/// How marks are made of those of two rows.
#[derive(Clone, Copy)]
pub enum Blend {
    /// Those of both.
    Both,
    /// Those of either.
    Either,
    /// Those of the first that the second hasn't.
    Without,
    /// Those of the first.
    First,
}

impl Blend {
    /// The bits that are so of two words.
    fn word(self, one: u64, other: u64) -> u64
        ensures { (k : ℕ) → k < 64 → eqb (bit_at result k) 1 ≡ blended self (eqb (bit_at one k) 1) (eqb (bit_at other k) 1) }
    {
        match self {
            Blend::Both => one & other,
            Blend::Either => one | other,
            Blend::Without => one & !other,
            Blend::First => one,
        }
    }
}

/// What the factors of a digest are made of: a number whose bits follow no rule.
const FACTOR: u64 = 0x9E37_79B9_7F4A_7C15;

/// Rows of marks, all of them in one piece of memory, which is touched up to the last row that was written. A word contains 64 marks of
/// a row.
#[derive(Drop)]
pub struct Rows {
    words: LazyWords,
    width: usize,
    marks: usize,
    count: usize,
}

impl Model for Rows {
    ghost Value = { List (List Bool) };

    ghost view = { λ r. rows_of r.words.all r.width r.marks r.count };

    ghost invariant = { λ r. (r.marks ≤ 64 * r.width) × (r.width * r.count ≤ length r.words.all) × (length r.words.all < 2 ^ 63) };
}

impl Rows {
    /// `count` rows of `marks` marks.
    pub fn new(alloc: Global, count: usize, marks: usize) -> Result<Rows, AllocError>
        requires few { count ≤ 2 ^ 20 }
        requires short { marks ≤ 65536 }
        ensures count { IfOk result (λ v. length v ≡ count) }
        ensures marks { IfOk result (λ v. (q : ℕ) → q < count → length (row_of v q) ≡ marks) }
    {
        let width = marks / 64 + 1;
        Ok(Rows {
            words: LazyWords::new(alloc, width * count)?,
            width,
            marks,
            count,
        })
    }

    /// How many rows there are.
    pub fn len(&self) -> usize
        ensures { result ≡ length self.now }
    {
        self.count
    }

    /// Whether a mark of a row is set. Counts one look.
    pub fn get(&self, row: usize, i: usize, steps: &mut Steps) -> bool
        requires row { row < length self.now }
        requires inside { i < length (row_of self.now row) }
        ensures mark { result ≡ slice_index_or (row_of self.now row) i false }
        ensures cost { TakesExactly steps.old steps.new 1 }
    {
        steps.add(1);
        has_bit(self.words.get(self.width * row + i / 64), i % 64)
    }

    /// Sets a mark of a row, or takes it away. Counts one look.
    pub fn set(&mut self, row: usize, i: usize, mark: bool, steps: &mut Steps)
        requires row { row < length self.old }
        requires inside { i < length (row_of self.old row) }
        ensures keeps { KeepsRows (λ q. q ≢ row) self.old self.new }
        ensures marks { row_of self.new row ≡ slice_set (row_of self.old row) i mark }
        ensures cost { TakesExactly steps.old steps.new 1 }
    {
        steps.add(1);
        let at = self.width * row + i / 64;
        self.words.reach(at + 1);
        let word = put_bit(self.words.read(at), i % 64, mark);
        self.words.set(at, word);
    }

    /// Takes the first `count` marks of a row away, a word at a time; those after them in the row may go too.
    /// Counts a look for each of the `count`.
    pub fn clear(&mut self, row: usize, count: usize, steps: &mut Steps)
        requires row { row < length self.old }
        requires inside { count ≤ length (row_of self.old row) }
        ensures keeps { KeepsRows (λ q. q ≢ row) self.old self.new }
        ensures clear { (c : ℕ) → c < count → slice_index_or (row_of self.new row) c false ≡ false }
        ensures cost { TakesExactly steps.old steps.new count }
    {
        self.blend(Blend::Without, row, row, row, count, steps);
    }

    /// Copies the first `count` marks of a row of others into a row, a word at a time; those after them in the row may change too.
    /// Counts a look for each of the `count`.
    pub fn copy(
        &mut self,
        row: usize,
        other: &Rows,
        other_row: usize,
        count: usize,
        steps: &mut Steps,
    )
        requires row { row < length self.old }
        requires other_row { other_row < length other.now }
        requires inside { count ≤ length (row_of self.old row) }
        requires there { count ≤ length (row_of other.now other_row) }
        ensures keeps { KeepsRows (λ q. q ≢ row) self.old self.new }
        ensures same { AgreeBelow count (row_of self.new row) (row_of other.now other_row) }
        ensures cost { TakesExactly steps.old steps.new count }
    {
        steps.add(count);
        let (to, from) = (self.width * row, other.width * other_row);
        let words = &mut self.words;
        words.reach(to + self.width);
        for x in 0..count.div_ceil(64) {
            words.set(to + x, other.words.get(from + x));
        }
    }

    /// Whether the first `count` marks of a row are those of another, and the rest of their last word too.
    /// Counts a look for each of the `count`.
    pub fn same(&self, row: usize, other_row: usize, count: usize, steps: &mut Steps) -> bool
        requires row { row < length self.now }
        requires other_row { other_row < length self.now }
        requires inside { count ≤ length (row_of self.now row) }
        requires there { count ≤ length (row_of self.now other_row) }
        ensures same { IsTrue result → AgreeBelow count (row_of self.now row) (row_of self.now other_row) }
        ensures cost { TakesExactly steps.old steps.new count }
    {
        steps.add(count);
        let words = count.div_ceil(64);
        self.words.slice(self.width * row, words) == self.words.slice(self.width * other_row, words)
    }

    /// Makes the first `count` marks of a row of those of two others, a word at a time; those after them in the row may change too.
    /// Counts a look for each of the `count`.
    pub fn blend(
        &mut self,
        how: Blend,
        row: usize,
        one: usize,
        other: usize,
        count: usize,
        steps: &mut Steps,
    )
        requires row { row < length self.old }
        requires one { one < length self.old }
        requires other { other < length self.old }
        requires inside { count ≤ length (row_of self.old row) }
        requires in_one { count ≤ length (row_of self.old one) }
        requires in_other { count ≤ length (row_of self.old other) }
        ensures keeps { KeepsRows (λ q. q ≢ row) self.old self.new }
        ensures marks { (c : ℕ) → c < count → slice_index_or (row_of self.new row) c false ≡ blended how (slice_index_or (row_of self.old one) c false) (slice_index_or (row_of self.old other) c false) }
        ensures cost { TakesExactly steps.old steps.new count }
    {
        steps.add(count);
        let (to, first, second) = (self.width * row, self.width * one, self.width * other);
        let words = &mut self.words;
        words.reach(to.max(first).max(second) + self.width);
        for x in 0..count.div_ceil(64) {
            let word = how.word(words.read(first + x), words.read(second + x));
            words.set(to + x, word);
        }
    }

    /// The first mark of a row that is set, from one on; `to` where none before it is. Counts a look for each that it passes.
    pub fn next_set(&self, row: usize, from: usize, to: usize, steps: &mut Steps) -> usize
        requires row { row < length self.now }
        requires order { from ≤ to }
        requires inside { to ≤ length (row_of self.now row) }
        requires short { to ≤ 65536 }
        ensures order { Ascending from result to }
        ensures clear { (c : ℕ) → from ≤ c → c < result → slice_index_or (row_of self.now row) c false ≡ false }
        ensures set { result < to → IsTrue (slice_index_or (row_of self.now row) result false) }
        ensures cost { CostsWithin steps.old steps.new (min (result + 1) to) from }
    {
        let at = self.width * row;
        let mut x = from;
        while x < to {
            let next = x / 64 * 64 + lowest_from(self.words.get(at + x / 64), x % 64);
            if next < x / 64 * 64 + 64 {
                let found = next.min(to);
                steps.add(to.min(found + 1) - from);
                return found;
            }
            x = next;
        }
        steps.add(to - from);
        to
    }

    /// The place after the last mark of a row that is set, of those from `from` on and below `to`; `from` where none is. Counts a look
    /// for each that it passes.
    pub fn last_set(&self, row: usize, from: usize, to: usize, steps: &mut Steps) -> usize
        requires row { row < length self.now }
        requires order { from ≤ to }
        requires inside { to ≤ length (row_of self.now row) }
        requires short { to ≤ 65536 }
        ensures order { Ascending from result to }
        ensures clear { (c : ℕ) → result ≤ c → c < to → slice_index_or (row_of self.now row) c false ≡ false }
        ensures set { from < result → IsTrue (slice_index_or (row_of self.now row) (result - 1) false) }
        ensures cost { CostsWithin steps.old steps.new (to + 1) result }
    {
        let at = self.width * row;
        let mut x = to;
        while x > from {
            let base = (x - 1) / 64 * 64;
            let end = base + highest_below(self.words.get(at + (x - 1) / 64), x - base);
            if end > base {
                let found = from.max(end);
                steps.add(to + 1 - found);
                return found;
            }
            x = base;
        }
        steps.add(to + 1 - from);
        from
    }

    /// Whether none of the first `count` marks of a row is set, a word at a time. Counts a look for each of the `count`.
    pub fn is_clear(&self, row: usize, count: usize, steps: &mut Steps) -> bool
        requires row { row < length self.now }
        requires inside { count ≤ length (row_of self.now row) }
        ensures clear { IsTrue result ↔ ((c : ℕ) → c < count → slice_index_or (row_of self.now row) c false ≡ false) }
        ensures cost { TakesExactly steps.old steps.new count }
    {
        !self.meets(row, self, row, count, steps)
    }

    /// A number made of the first `count` marks of a row and the rest of their last word.
    /// Counts a look for each of the `count`.
    pub fn digest(&self, row: usize, count: usize, steps: &mut Steps) -> u64
        requires row { row < length self.now }
        requires inside { count ≤ length (row_of self.now row) }
        ensures cost { TakesExactly steps.old steps.new count }
    {
        steps.add(count);
        // Each word by a factor of its own: so no product waits for the one before it.
        let (mut digest, mut factor) = (0u64, FACTOR);
        for &word in self.words.slice(self.width * row, count.div_ceil(64)) {
            digest = digest.wrapping_add((word ^ (word >> 32)).wrapping_mul(factor));
            factor = factor.rotate_left(7).wrapping_add(FACTOR);
        }
        digest ^ (digest >> 32)
    }

    /// Whether some of the first `count` marks is set in a row and in one of others, a word at a time.
    /// Counts a look for each of the `count`.
    pub fn meets(
        &self,
        row: usize,
        other: &Rows,
        other_row: usize,
        count: usize,
        steps: &mut Steps,
    ) -> bool
        requires row { row < length self.now }
        requires other_row { other_row < length other.now }
        requires inside { count ≤ length (row_of self.now row) }
        requires there { count ≤ length (row_of other.now other_row) }
        ensures meets { IsTrue result ↔ ((c : ℕ) × (c < count) × IsTrue (slice_index_or (row_of self.now row) c false) × IsTrue (slice_index_or (row_of other.now other_row) c false)) }
        ensures cost { TakesExactly steps.old steps.new count }
    {
        steps.add(count);
        let words = count.div_ceil(64);
        let one = self.words.slice(self.width * row, words);
        let two = other.words.slice(other.width * other_row, words);
        for x in 0..one.len().min(two.len()) {
            if lowest(one[x] & two[x], count - 64 * x) != 0 {
                return true;
            }
        }
        false
    }
}

/// Whether the bit is set.
pub(super) fn has_bit(word: u64, k: usize) -> bool
    requires { k < 64 }
    ensures { result ≡ eqb (bit_at word k) 1 }
{
    (word >> k) & 1 == 1
}

/// The word with the bit set, or with it taken away.
fn put_bit(word: u64, k: usize, mark: bool) -> u64
    requires { k < 64 }
    ensures same { eqb (bit_at result k) 1 ≡ mark }
    ensures other { (i : ℕ) → i < 64 → i ≢ k → bit_at result i ≡ bit_at word i }
{
    if mark {
        word | (1u64 << k)
    } else {
        word & !(1u64 << k)
    }
}

/// The lowest bits of a word, at most `count` of them.
fn lowest(word: u64, count: usize) -> u64
    ensures inside { (k : ℕ) → k < count → bit_at result k ≡ bit_at word k }
    ensures none { (k : ℕ) → count ≤ k → bit_at result k ≡ 0 }
{
    if count < 64 {
        word & ((1u64 << count) - 1)
    } else {
        word
    }
}

/// The place of the lowest bit that is set, from the k-th on; 64 where none is.
fn lowest_from(word: u64, k: usize) -> usize
    requires { k < 64 }
    ensures order { Ascending k result 64 }
    ensures clear { (i : ℕ) → k ≤ i → i < result → bit_at word i ≡ 0 }
    ensures set { result < 64 → bit_at word result ≡ 1 }
{
    let high = word & !((1u64 << k) - 1);
    if high == 0 {
        64
    } else {
        high.trailing_zeros() as usize
    }
}

/// The place after the highest bit that is set, of those below the k-th; 0 where none is.
fn highest_below(word: u64, k: usize) -> usize
    requires { k ≤ 64 }
    ensures within { result ≤ k }
    ensures clear { (i : ℕ) → result ≤ i → i < k → bit_at word i ≡ 0 }
    ensures set { 0 < result → bit_at word (result - 1) ≡ 1 }
{
    let low = lowest(word, k);
    if low == 0 {
        0
    } else {
        low.ilog2() as usize + 1
    }
}
