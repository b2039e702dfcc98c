//! How long the blocks of a kept pass are.
ghost use Rattle.std.specs.Prelude.{◌+◌, ◌*◌, ◌/◌, ◌^◌, ◌<◌, ◌≤◌};

/// How many places a block has, for texts of at most `max_text` bytes: 16 in short ones, since tables of few states take little
/// memory, 512 from a megabyte on, from 16 megabytes on so many that there are 32,768 blocks at most, and 65,534 at most.
///
/// So up to there a table of 513 states serves each text.
pub fn width_for(max_text: usize) -> usize
    ensures least { 16 ≤ result }
    ensures most { result ≤ 65534 }
    ensures no_wider { 16 < result → result < 1024 → 4 * result * result ≤ max_text }
    ensures no_wider_long { 1024 ≤ result → 16384 * result ≤ max_text }
    ensures blocks { max_text ≤ 2 ^ 30 → max_text / result + 1 ≤ 32768 }
{
    let mut width = 16;
    while width < 512 && 16 * width * width <= max_text {
        width *= 2;
    }
    width.max(max_text / 32768 + 1).min(65534)
}
