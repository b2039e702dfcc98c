//! Texts that are read from any place on.
ghost use Rattle.std.specs.Prelude.{◌≤◌, ℕ, List, Option, length};
ghost use Rattle.std.specs.Io.KnownBytes.{Keeps};
ghost use Rattle.sedspace.specs.Reading.{ReadsAt};

/// Texts, numbered from 0, such as the files that the command `r` names (XCU sed). They may let contracts see their
/// bytes; of texts that don't, clauses on bytes claim nothing.
pub trait Texts {
    /// A text's bytes, where contracts may see them. A text that isn't there, or can't be read, has none; one whose
    /// reading fails midway ends there (this project's own).
    ghost text: { Self → ℕ → Option (List ℕ) };

    /// Reads bytes of the text, from the offset on, into the front of the buffer, and answers how many: at least one,
    /// unless the buffer is empty or the text ends there. No text is changed.
    fn read_at(&mut self, number: usize, offset: u64, buf: &mut [u8]) -> usize
        ensures bound { result ≤ length buf.new }
        ensures bytes { ReadsAt (text self.old number) offset result buf.new }
        ensures kept { (j : ℕ) → Keeps (text self.old j) (text self.new j) };
}
