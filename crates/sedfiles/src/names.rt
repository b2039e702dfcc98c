//! The files that a script reads, as texts that are given their names.
ghost use Rattle.std.specs.Prelude.{◌≡◌, ◌≢◌, ◌+◌, ℕ, List, Option, OnErr, OnOk};

use sedspace::Texts;
use std::alloc::AllocError;

/// Texts that are files: each number is given its file's name before the text is read.
pub trait Names: Texts {
    /// How many names were given.
    ghost named: { Self → ℕ };

    /// The bytes of the file of this name, read as a text, where contracts may see them; none where it can't be read.
    ghost file: { Self → List ℕ → Option (List ℕ) };

    /// Makes the file of this name the next text. Names are given in the order of their numbers, from 0 on.
    ///
    /// # Errors
    /// `AllocError` where a request for memory was refused. Nothing was changed then.
    fn name(&mut self, number: usize, name: &[u8]) -> Result<(), AllocError>
        requires next { number ≡ named self.old }
        ensures named { OnOk result (named self.new ≡ named self.old + 1) }
        ensures text { OnOk result (Self.text self.new number ≡ file self.old name.now) }
        ensures others { OnOk result ((k : ℕ) → k ≢ number → Self.text self.new k ≡ Self.text self.old k) }
        ensures files { OnOk result ((other : List ℕ) → file self.new other ≡ file self.old other) }
        ensures refused { OnErr result (self.new ≡ self.old) };
}
