//! What can be looked at only by calls that count.
//!
//! The bytes of a text without a count are seen here alone and in the modules below: in [`lookups`], [`members`] and
//! [`set_finder`], which count what they look at, and in what works for these on bare bytes. A text gives them out nowhere.
ghost use Rattle.std.specs.Prelude.{◌≡◌, ℕ, List, ◌+◌, ◌^◌, ◌<◌, ◌≤◌, length, slice_get, IfSome, Some, option_map};
ghost use Rattle.sedtext.specs.Bytes.{FirstFrom, passed_to};
ghost use Rattle.sedre.specs.Steps.{TakesExactly};

mod lazy_words;
pub mod lookups;
pub mod members;
pub mod nibbles;
mod rows;
pub mod set_finder;
pub mod sieve;

use memchr::memchr;
pub use rows::{Blend, Marks, Rows};
use sedre::Steps;
use std::marker::Model;

/// A text whose bytes are looked at by calls that count.
#[derive(Drop)]
pub struct Text<'a> {
    bytes: &'a [u8],
}

impl<'a> Model for Text<'a> {
    ghost Value = { List ℕ };

    ghost view = { λ t. t.bytes.now };
}

impl<'a> Text<'a> {
    /// The text of these bytes.
    pub fn new(bytes: &'a [u8]) -> Text<'a>
        ensures { result ≡ bytes.now }
    {
        Text { bytes }
    }

    /// How many bytes it has.
    pub fn len(&self) -> usize
        ensures is { result ≡ length self.now }
        ensures short { result < 2 ^ 63 }
    {
        self.bytes.len()
    }

    /// The place `count` bytes after `place`, at most one past the text's end.
    pub fn after(&self, place: usize, count: usize) -> usize
        requires { place + count ≤ length self.now + 1 }
        ensures { result ≡ place + count }
    {
        // A text has fewer than 2^63 bytes.
        let _len = self.len();
        place + count
    }

    /// The byte at a place. Counts one look.
    pub fn byte(&self, i: usize, steps: &mut Steps) -> u8
        requires inside { i < length self.now }
        ensures byte { slice_get self.now i ≡ Some result }
        ensures cost { TakesExactly steps.old steps.new 1 }
    {
        steps.add(1);
        self.bytes[i]
    }

    /// The first place from `from` on that has the byte.
    /// Counts a look for each byte from `from` to that place, or to the end where there is none.
    pub fn find_byte(&self, value: u8, from: usize, steps: &mut Steps) -> Option<usize>
        requires from { from ≤ length self.now }
        ensures first { FirstFrom (λ k. slice_get self.now k ≡ Some value) from result }
        ensures cost { TakesExactly steps.old steps.new (passed_to (length self.now) from 1 result) }
    {
        let found = memchr(value, &uncounted(self)[from..]);
        found_behind(self, from, 1, found, steps)
    }
}

/// The bytes of a text, for a lookup of a module below, which counts its looks itself.
fn uncounted<'a>(text: &Text<'a>) -> &'a [u8]
    ensures { result.now ≡ text.now }
{
    text.bytes
}

/// Where something of `width` bytes is in a text that was found so far behind a place. Counts a look for each byte from that place to
/// its end, or to the text's end where nothing was found.
#[inline(always)]
fn found_behind(
    text: &Text,
    from: usize,
    width: usize,
    found: Option<usize>,
    steps: &mut Steps,
) -> Option<usize>
    requires from { from ≤ length text.now }
    requires found { IfSome found (λ k. from + k + width ≤ length text.now) }
    ensures place { result ≡ option_map (λ k. from + k) found }
    ensures cost { TakesExactly steps.old steps.new (passed_to (length text.now) from width result) }
{
    let length = text.len();
    let Some(place) = found else {
        steps.add(length - from);
        return None;
    };
    steps.add(place + width);
    Some(from + place)
}
