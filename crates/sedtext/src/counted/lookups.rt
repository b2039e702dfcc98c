//! Where literals and bytes of three sets are in a text, by calls that count.
ghost use Rattle.std.specs.Prelude.{◌*◌, ◌≤◌, length, IfSome};
ghost use Rattle.memchr.specs.Find.{OccursAt};
ghost use Rattle.sedtext.specs.Bytes.{FirstFrom, passed_to};
ghost use Rattle.sedtext.specs.Sieve.{PassesSieve};
ghost use Rattle.sedre.specs.Steps.{Takes, TakesAtLeast, TakesExactly};

use super::sieve::Sieve;
use super::{Text, found_behind, uncounted};
use memchr::memmem::Finder;
use sedre::Steps;

/// The first place from `from` on at which the literal begins, if there is one.
/// Counts a look for each byte from `from` to the literal's end, or to the end where there is none.
pub fn find_literal(text: &Text, finder: &Finder, from: usize, steps: &mut Steps) -> Option<usize>
    requires from { from ≤ length text.now }
    ensures first { FirstFrom (OccursAt text.now finder.now) from result }
    ensures cost { TakesExactly steps.old steps.new (passed_to (length text.now) from (length finder.now) result) }
{
    let found = finder.find(&uncounted(text)[from..]);
    found_behind(text, from, finder.needle().len(), found, steps)
}

/// The first place from `from` on after which bytes of all three sets of the sieve come, if there is one.
/// Counts three looks for each place from `from` to that one, or to the end where there is none.
#[inline(always)]
pub fn sift(text: &Text, sieve: &Sieve, from: usize, steps: &mut Steps) -> Option<usize>
    requires from { from ≤ length text.now }
    ensures first { FirstFrom (PassesSieve sieve.now text.now) from result }
    ensures inside { IfSome result (λ k. k ≤ length text.now) }
    ensures cost { Takes steps.old steps.new (3 * passed_to (length text.now) from 1 result) }
    ensures counts { TakesAtLeast steps.old steps.new (passed_to (length text.now) from 1 result) }
{
    let bytes = uncounted(text);
    match sieve.find(bytes, from) {
        None => {
            steps.add((bytes.len() - from).saturating_mul(3));
            None
        }
        Some(place) => {
            steps.add((place - from + 1).saturating_mul(3));
            Some(place)
        }
    }
}
