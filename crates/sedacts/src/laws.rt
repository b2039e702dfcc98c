//! Laws of the definitions, for readers and for callers' proofs. The calls do nothing.
ghost use Rattle.std.specs.Prelude.{◌≡◌, ◌<◌, ◌≤◌, ℕ, List, length};
ghost use Rattle.std.specs.List.{All, slice_split};
ghost use Rattle.sedspace.specs.Lines.{is_newline};
ghost use Rattle.sedacts.specs.Listing.{listed};

/// No line of a listing is longer than 70 bytes: a piece of at most 69, and the `\` of a fold or the `$` after it.
pub fn short_lines()
    ensures { (bytes : List ℕ) → All (λ line. length line ≤ 70) (slice_split is_newline (listed bytes)) }
{}

/// A listing is unambiguous: no two texts have the same.
pub fn one_text()
    ensures { (v w : List ℕ) → All (λ b. b < 256) v → All (λ b. b < 256) w → listed v ≡ listed w → v ≡ w }
{}
