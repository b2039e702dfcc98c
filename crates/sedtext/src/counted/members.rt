//! The first byte that is in a set, and how far a run of bytes of a set goes in a text, forwards and backwards, by calls that count.
ghost use Rattle.std.specs.Prelude.{◌≡◌, ◌+◌, ◌-◌, ◌≤◌, length, min};
ghost use Rattle.memchr.specs.Find.{IsFirstByte};
ghost use Rattle.sedre.specs.Sets.{has};
ghost use Rattle.sedtext.specs.Runs.{IsRun, RunBegins};
ghost use Rattle.sedre.specs.Steps.{TakesExactly};

use super::{Text, uncounted};
use sedre::{ByteSet, Steps};

/// The first place whose byte is in the set, if there is one.
// As a part of a large function it would be slower by the byte.
#[inline(never)]
pub(super) fn first_member(set: &ByteSet, bytes: &[u8]) -> Option<usize>
    ensures { IsFirstByte (has set.now) bytes.now result }
{
    for place in 0..bytes.len() {
        if set.has(bytes[place]) {
            return Some(place);
        }
    }
    None
}

/// The end of the run of bytes of the set that begins at the place.
/// Counts a look for each byte from `from` to the one that ends the run, or to the end where none does.
// As a part of a large function it would be slower by the byte.
#[inline(never)]
pub fn run_end(text: &Text, set: &ByteSet, from: usize, steps: &mut Steps) -> usize
    requires from { from ≤ length text.now }
    ensures run { IsRun set.now text.now from result }
    ensures cost { TakesExactly steps.old steps.new (min (result + 1) (length text.now) - from) }
{
    let bytes = uncounted(text);
    for place in from..bytes.len() {
        if !set.has(bytes[place]) {
            steps.add(place + 1 - from);
            return place;
        }
    }
    steps.add(bytes.len() - from);
    bytes.len()
}

/// The beginning of the run of bytes of the set that ends before `to`, or `from` if the run reaches further back.
/// Counts a look for each byte from `to` down to the one that ends the run, or to `from` where none does.
// As a part of a large function it would be slower by the byte.
#[inline(never)]
pub fn run_begin(text: &Text, set: &ByteSet, from: usize, to: usize, steps: &mut Steps) -> usize
    requires from { from ≤ to }
    requires to { to ≤ length text.now }
    ensures begins { RunBegins set.now text.now from to result }
    ensures cost { TakesExactly steps.old steps.new (min (to + 1 - result) (to - from)) }
{
    let bytes = uncounted(text);
    for place in (from..to).rev() {
        if !set.has(bytes[place]) {
            steps.add(to - place);
            return place + 1;
        }
    }
    steps.add(to - from);
    from
}
