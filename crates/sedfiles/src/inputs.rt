//! Where the files of a command line are read from.
ghost use Rattle.std.specs.Prelude.{◌≡◌, ℕ, List, [], ◌∷◌, Option, IfOk, IfSome};
ghost use Rattle.std.specs.Option.{option_map};
ghost use Rattle.std.specs.Borrow.{GName};
ghost use Rattle.std.specs.Io.{ReadsAtMost};
ghost use Rattle.std.specs.Io.KnownBytes.{Keeps, ReadConsumes};
ghost use Rattle.sedspace.specs.FailureCounts.{FailsAtErr};
ghost use Rattle.sedfiles.specs.Opening.{CountsRefusal, OpensKnown};
ghost use Rattle.sedfiles.specs.Files.{KeepsFiles, GivesWhole};

use sedspace::Broken;
use std::alloc::{AllocError, Global};

/// Files by name, of which one at a time is current. They may let contracts see their bytes; of files that don't, clauses
/// on bytes claim nothing. The name `-` is the standard input; opened again after its end, it has nothing more to give.
pub trait Inputs {
    /// The bytes of the current file that are still to be read, where contracts may see them.
    ghost current: { Self → Option (List ℕ) };

    /// What the files of these names, as bytes of UTF-8, will give, opened one after another from now on and each read
    /// to its end before the next is opened; None for one that can't be opened.
    ghost ahead: { Self → List (List ℕ) → Option (List (Option (List ℕ))) };

    /// What reading the file of this name as a whole will give; None where it can't be read.
    ghost text: { Self → List ℕ → Option (Option (List ℕ)) };

    /// How often a read failed. The count stops at 2^64 - 1.
    ghost failures: { Self → ℕ };

    /// How often a file couldn't be opened. The count stops at 2^64 - 1.
    ghost refusals: { Self → ℕ };

    /// What no call changes: the references that it holds, the outermost first, by which their lenders learn what became
    /// of them.
    ghost reference: { Self → List GName };

    /// How often a file couldn't be opened. The count stops at 2^64 - 1.
    fn refused(&self) -> u64
        ensures { result ≡ refusals self.now };

    /// Makes the file of this name the current one, and answers whether it could be opened: a file that couldn't gives
    /// nothing. What wasn't read of the file before it can't be read any more.
    fn open(&mut self, name: &str) -> bool
        ensures opens { (names : List (List ℕ)) → OpensKnown (ahead self.old (name.now ∷ names)) result
            (current self.new) (ahead self.new names) }
        ensures refused { CountsRefusal result (refusals self.old) (refusals self.new) }
        ensures failed { failures self.new ≡ failures self.old }
        ensures same_reference { reference self.new ≡ reference self.old };

    /// Reads the next bytes of the current file into the front of the buffer, and answers how many, which may be fewer
    /// than there is room for. 0, for a buffer that isn't empty, means the end of the file. An `Err` reads none and
    /// raises the number of failures by one; nothing else raises it.
    fn read(&mut self, buf: &mut [u8]) -> Result<usize, Broken>
        ensures bound { ReadsAtMost result buf.new }
        ensures bytes { ReadConsumes (current self.old) (current self.new) result buf.new }
        ensures ahead { (names : List (List ℕ)) → KeepsFiles (ahead self.old names) (ahead self.new names) }
        ensures refused { refusals self.new ≡ refusals self.old }
        ensures failed { FailsAtErr result (failures self.old) (failures self.new) }
        ensures same_reference { reference self.new ≡ reference self.old };

    /// Says that of the bytes that the current file gave last so many weren't used, in a run that ended well before the end of
    /// the input. What others share of it, as the place up to which the standard input is read, is then as if they hadn't
    /// been read (XCU 1.4, "INPUT FILES"); what contracts see stays.
    fn give_back(&self, count: usize);

    /// Reads the whole file of this name, as a script of -f is read. Answers `None` where it can't be read. Here the name
    /// `-` is a file's own. The current file and those still to be opened stay as they are.
    fn whole(&mut self, alloc: Global, name: &str) -> Result<Option<Vec<u8>>, AllocError>
        ensures given { IfOk result (λ file. GivesWhole (text self.old name.now) (option_map (λ bytes. bytes.items) file)) }
        ensures kept { Keeps (current self.old) (current self.new) }
        ensures ahead { (names : List (List ℕ)) → KeepsFiles (ahead self.old names) (ahead self.new names) }
        ensures texts { (other : List ℕ) → text self.new other ≡ text self.old other }
        ensures refused { refusals self.new ≡ refusals self.old }
        ensures failed { failures self.new ≡ failures self.old }
        ensures same_reference { reference self.new ≡ reference self.old };

    /// Where there are no names, there are no files.
    ghost none_ahead: { (inputs : Self) → IfSome (ahead inputs []) (λ files. files ≡ []) };
}

/// Inputs that are lent open and read the lender's files.
impl<I: Inputs> Inputs for &mut I {
    ghost current = { λ r. I.current r.now };

    ghost ahead = { λ r names. I.ahead r.now names };

    ghost text = { λ r name. I.text r.now name };

    ghost failures = { λ r. I.failures r.now };

    ghost refusals = { λ r. I.refusals r.now };

    ghost reference = { λ r. r.ghost_name ∷ I.reference r.now };

    ghost none_ahead = { λ r. I.none_ahead r.now };

    fn refused(&self) -> u64 {
        Inputs::refused(&**self)
    }

    fn open(&mut self, name: &str) -> bool {
        Inputs::open(&mut **self, name)
    }

    fn read(&mut self, buf: &mut [u8]) -> Result<usize, Broken> {
        Inputs::read(&mut **self, buf)
    }

    fn give_back(&self, count: usize) {
        Inputs::give_back(&**self, count);
    }

    fn whole(&mut self, alloc: Global, name: &str) -> Result<Option<Vec<u8>>, AllocError> {
        Inputs::whole(&mut **self, alloc, name)
    }
}
