//! A set repeated a fixed number of times, as in `[0-9]\{6\}`: a match begins where that number of bytes in a row are
//! in the set.
//!
//! The last of these bytes is looked at first. Where it isn't in the set, no match begins before it, and those before
//! it aren't looked at: where such bytes are rare, most of a text is passed over unseen.
ghost use Rattle.std.specs.Prelude.{◌+◌, ◌≤◌, ◌-◌, length, IfSome};
ghost use Rattle.sedtext.specs.Bytes.{passed_to};
ghost use Rattle.sedtext.specs.FixedRuns.{AllFixedRuns, FirstFixedRun};
ghost use Rattle.sedre.specs.Steps.{Takes, TakesAtLeast};

use crate::counted::Text;
use crate::counted::members::run_begin;
use crate::counted::set_finder::members_of;
use crate::links::Link;
use sedre::{ByteSet, Steps};

/// The set and the number such that the chain leads over all strings of that many bytes of the set and over no others, if there
/// are such. Sets of few bytes are left out: these are sought faster one by one.
pub fn fixed_run_of(chain: &[Link]) -> Option<(ByteSet, usize)>
    ensures { IfSome result (λ t. AllFixedRuns chain.now t.0 t.1) }
{
    let Some(Link::Byte(set)) = chain.first() else {
        return None;
    };
    if members_of(set).is_some() {
        return None;
    }
    for x in 0..chain.len() {
        match &chain[x] {
            Link::Byte(other) if other.same(set) => {}
            _ => return None,
        }
    }
    Some((*set, chain.len()))
}

/// The first place from `from` on at which `count` bytes in a row begin that are in the set, if there is one.
/// Counts a look for each byte from `from` to their end.
#[inline(never)]
#[tactic(auto, using(crate::proofs::FixedRunLemmas::repeating), unfolding(sedre::specs::Steps::TakesAtLeast, sedre::specs::Steps::IsCounted))]
pub fn find_fixed_run(
    set: &ByteSet,
    count: usize,
    text: &Text,
    from: usize,
    steps: &mut Steps,
) -> Option<usize>
    requires from { from ≤ length text.now }
    ensures first { FirstFixedRun set.now count text.now from result }
    ensures cost { Takes steps.old steps.new (passed_to (length text.now) from count result) }
    ensures counts { IfSome result (λ k. TakesAtLeast steps.old steps.new (k + count - from)) }
{
    let mut start = from;
    let mut seen = from;
    while count <= text.len() - start {
        let end = start + count;
        let run = run_begin(text, set, seen, end, steps);
        if run == seen {
            return Some(start);
        }
        // The bytes before the one that ends the run count as looked at, since they are passed over.
        steps.add(run - 1 - seen);
        start = run;
        seen = end;
    }
    None
}
