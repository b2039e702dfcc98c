//! The files that a script writes, as sinks that are added to the standard output.
ghost use Rattle.std.specs.Prelude.{◌≡◌, ◌≤◌, ℕ, [], IfSome};
ghost use Rattle.sedfiles.specs.AddedSinks.{AddsName, AddsSink, FailsFlush};

use sedspace::Outputs;

/// Sinks to which files can be added, and which can be flushed.
pub trait Sinks: Outputs {
    /// Creates the file of this name, empty, and adds it as the last sink. Answers whether it could; `false` adds none.
    fn create(&mut self, name: &[u8]) -> bool
        ensures count { AddsSink result (Self.count self.old) (Self.count self.new) }
        ensures names { AddsName result name.now (Self.names self.old) (Self.names self.new) }
        ensures contents { (k : ℕ) → Self.contents self.new k ≡ Self.contents self.old k }
        ensures failed { (k : ℕ) → Self.failures self.new k ≡ Self.failures self.old k };

    /// Writes out all bytes that were taken and are still held back. An `Err` is the number of a sink where that failed,
    /// whose number of failures it raises. No number of failures falls, and at an `Ok` none rises.
    fn flush(&mut self) -> Result<(), usize>
        ensures count { Self.count self.new ≡ Self.count self.old }
        ensures same_names { Self.names self.new ≡ Self.names self.old }
        ensures contents { (k : ℕ) → Self.contents self.new k ≡ Self.contents self.old k }
        ensures failed { FailsFlush result (Self.failures self.old) (Self.failures self.new) };

    /// A sink that hasn't been created counts as empty.
    ghost absent_is_empty: { (sinks : Self) → (k : ℕ) → Self.count sinks ≤ k
        → IfSome (Self.contents sinks k) (λ bytes. bytes ≡ []) };
}
