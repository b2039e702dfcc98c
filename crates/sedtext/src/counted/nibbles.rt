//! Sets of bytes that vectors decide, by the two nibbles of a byte.
ghost use Rattle.std.specs.Prelude.{◌≡◌, ℕ, ◌/◌, ◌%◌, ◌<◌, ◌^◌, ◌↔◌, slice_index, IsTrue};
ghost use Rattle.std.specs.Int.{bit_at};
ghost use Rattle.sedtext.specs.Sieve.{HasLanes, IsMarked};
ghost use Rattle.sedtext.specs.Spans.{IsIn};

use super::rows::has_bit;
use sedre::ByteSet;
use std::simd::prelude::*;

/// The bit that each upper nibble has in a row.
const UPPER: [u8; 16] = [1, 2, 4, 8, 16, 32, 64, 128, 1, 2, 4, 8, 16, 32, 64, 128];

/// Bytes that are marked, a row for each lower nibble. The bit for an upper nibble is also that for the one 8 above it, so a few
/// bytes besides the members of a set may be marked.
#[derive(Clone, Copy)]
pub struct Nibbles {
    rows: [u8; 16],
}

/// What the table contains for each lane.
fn look_up(table: &[u8; 16], lanes: u8x32) -> u8x32
    requires { (k : ℕ) → k < 32 → slice_index lanes k < 16 }
    ensures { HasLanes result (λ k. slice_index table.now (slice_index lanes k)) }
{
    let twice = u8x16::from_slice(table).swizzle([
        0, 1, 2, 3, 4, 5, 6, 7, 8, 9, 10, 11, 12, 13, 14, 15, 0, 1, 2, 3, 4, 5, 6, 7, 8, 9, 10, 11,
        12, 13, 14, 15,
    ]);
    twice.swizzle_dyn_within::<16>(lanes)
}

impl Nibbles {
    /// Rows in which the members of the set are marked.
    pub fn of(set: &ByteSet) -> Nibbles
        ensures { (c : ℕ) → IsIn c set.now → IsMarked result.rows c }
    {
        let mut rows = [0u8; 16];
        for byte in 0..256usize {
            if set.has(byte as u8) {
                rows[byte % 16] |= 1u8 << (byte / 16 % 8);
            }
        }
        Nibbles { rows }
    }

    /// Whether the byte is marked.
    pub fn has(&self, byte: u8) -> bool
        ensures { IsTrue result ↔ IsMarked self.now.rows byte }
    {
        let row = self.rows[(byte % 16) as usize];
        has_bit(row as u64, (byte / 16 % 8) as usize)
    }

    /// Of 32 lanes those whose byte is marked, a bit each.
    pub(super) fn marked(&self, lanes: u8x32) -> u64
        ensures few { result < 2 ^ 32 }
        ensures marked { (k : ℕ) → k < 32 → (bit_at result k ≡ 1) ↔ IsMarked self.now.rows (slice_index lanes k) }
    {
        let rows = look_up(&self.rows, lanes & u8x32::splat(15));
        let bits = look_up(&UPPER, lanes >> u8x32::splat(4));
        (rows & bits).simd_ne(u8x32::splat(0)).to_bitmask()
    }
}
