//! Where bytes go.
ghost use Rattle.std.specs.Prelude.{◌≡◌, ◌≢◌, ◌<◌, ℕ, List, Option, length, take, IfErr, IfOk, MatchResult};
ghost use Rattle.std.specs.Io.{WritesAtMost};
ghost use Rattle.std.specs.Io.KnownBytes.{Appends, Keeps, WriteAppends};
ghost use Rattle.sedspace.specs.FailureCounts.{FailsAtErr};

use super::Broken;

/// Sinks that bytes are written to, numbered from 0. They may let contracts see what they contain; of sinks that don't,
/// clauses on it claim nothing.
pub trait Outputs {
    /// How many sinks there are.
    ghost count: { Self → ℕ };

    /// What a sink contains, where contracts may see it.
    ghost contents: { Self → ℕ → Option (List ℕ) };

    /// How often a sink failed. The count stops at 2^64 - 1.
    ghost failures: { Self → ℕ → ℕ };

    /// The names of the files among the sinks, which are all but the first sink, where there are any. No write changes
    /// them.
    ghost names: { Self → List (List ℕ) };

    /// How many sinks there are.
    fn sinks(&self) -> usize
        ensures { result ≡ count self.now };

    /// Appends bytes to this sink, from the first on, and answers how many: at least one where there are any. No other
    /// sink changes. An `Err` appends none and raises the sink's number of failures by one; nothing else raises it.
    fn write(&mut self, sink: usize, bytes: &[u8]) -> Result<usize, Broken>
        requires { sink < count self.old }
        ensures bound { WritesAtMost result bytes.now }
        ensures progress { IfOk result (λ n. 0 < length bytes.now → 0 < n) }
        ensures appends { WriteAppends (contents self.old sink) (contents self.new sink) result bytes.now }
        ensures failed { FailsAtErr result (failures self.old sink) (failures self.new sink) }
        ensures others { (k : ℕ) → k ≢ sink → Keeps (contents self.old k) (contents self.new k) }
        ensures others_failed { (k : ℕ) → k ≢ sink → failures self.new k ≡ failures self.old k }
        ensures sinks { count self.new ≡ count self.old }
        ensures same_names { names self.new ≡ names self.old };
}

/// Appends all the bytes to this sink, however few of them each write takes. An `Err` answers how many were appended
/// before a write failed, and raises the sink's number of failures by one. No other sink changes.
pub fn write_all<O: Outputs>(outputs: &mut O, sink: usize, bytes: &[u8]) -> Result<(), usize>
    requires { sink < O.count outputs.old }
    ensures part { IfErr result (λ n. n < length bytes.now) }
    ensures appends { MatchResult result
        (λ _. Appends (O.contents outputs.old sink) (O.contents outputs.new sink) bytes.now)
        (λ n. Appends (O.contents outputs.old sink) (O.contents outputs.new sink) (take n bytes.now)) }
    ensures failed { FailsAtErr result (O.failures outputs.old sink) (O.failures outputs.new sink) }
    ensures others { (k : ℕ) → k ≢ sink → Keeps (O.contents outputs.old k) (O.contents outputs.new k) }
    ensures others_failed { (k : ℕ) → k ≢ sink → O.failures outputs.new k ≡ O.failures outputs.old k }
    ensures sinks { O.count outputs.new ≡ O.count outputs.old }
    ensures same_names { O.names outputs.new ≡ O.names outputs.old }
{
    let mut done = 0;
    while done < bytes.len() {
        match outputs.write(sink, &bytes[done..]) {
            Ok(count) => done += count,
            Err(Broken) => return Err(done),
        }
    }
    Ok(())
}
