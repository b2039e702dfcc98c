//! Where bytes come from.
ghost use Rattle.std.specs.Prelude.{◌≡◌, ◌∷◌, ℕ, List, Option};
ghost use Rattle.std.specs.Borrow.{GName};
ghost use Rattle.std.specs.Io.{ReadsAtMost};
ghost use Rattle.std.specs.Io.KnownBytes.{ReadConsumes};
ghost use Rattle.std.specs.Option.{option_map};
ghost use Rattle.sedspace.specs.FailureCounts.{FailsAtErr, raised};

use super::Broken;

/// A source of bytes. It may let contracts see its bytes; of a source that doesn't, clauses on bytes claim nothing.
pub trait ByteSource {
    /// The bytes that are still to be read, where contracts may see them.
    ghost remaining: { Self → Option (List ℕ) };

    /// How often it failed. The count stops at 2^64 - 1.
    ghost failures: { Self → ℕ };

    /// How often it was read, where contracts may see it. The count stops at 2^64 - 1.
    ghost reads: { Self → Option ℕ };

    /// What no read changes: the references that it holds, the outermost first, by which their lenders learn what became
    /// of them, and numbers that it was made with.
    ghost reference: { Self → List GName };

    /// Reads the next bytes into the front of the buffer, and answers how many, which may be fewer than there is room
    /// for. 0, for a buffer that isn't empty, means the end. An `Err` reads none and raises the number of failures by
    /// one; nothing else raises it.
    fn read(&mut self, buf: &mut [u8]) -> Result<usize, Broken>
        ensures bound { ReadsAtMost result buf.new }
        ensures bytes { ReadConsumes (remaining self.old) (remaining self.new) result buf.new }
        ensures failed { FailsAtErr result (failures self.old) (failures self.new) }
        ensures counted { reads self.new ≡ option_map raised (reads self.old) }
        ensures same_reference { reference self.new ≡ reference self.old };
}

/// A source that is lent reads the lender's bytes.
impl<R: ByteSource> ByteSource for &mut R {
    ghost remaining = { λ r. R.remaining r.now };

    ghost failures = { λ r. R.failures r.now };

    ghost reads = { λ r. R.reads r.now };

    ghost reference = { λ r. r.ghost_name ∷ R.reference r.now };

    fn read(&mut self, buf: &mut [u8]) -> Result<usize, Broken> {
        ByteSource::read(&mut **self, buf)
    }
}
