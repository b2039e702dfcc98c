//! The files of a command line as one source.
//!
//! A file is opened by the read that finds no byte left of the files before it, so no two are open at once. A file that
//! can't be opened counts as empty, and is noted as missed.
ghost use Rattle.std.specs.Prelude.{◌≡◌, ◌<◌, ◌⊎◌, [], ◌∷◌, ℕ, List, Ok, true, false, length, map, string_bytes, slice_get, unwrap_or, IfOk, None, vec_len};
ghost use Rattle.std.specs.Io.{ReadsAtMost};
ghost use Rattle.std.specs.Io.KnownBytes.{IsAtEnd, ReadConsumes};
ghost use Rattle.sedspace.specs.FailureCounts.{FailsAtErr};
ghost use Rattle.sedfiles.specs.Opening.{WereRefused};
ghost use Rattle.sedfiles.specs.Files.{KeepsFiles};

use super::Inputs;
use sedspace::{Broken, ByteSource};
use std::alloc::{AllocError, Global};
use std::marker::Model;

/// Files of inputs, read as one stream: their bytes one after another, a newline added to each file that isn't empty
/// and doesn't end with one (XCU sed, Input Files).
#[derive(Drop)]
pub struct Joined<'a, I: Inputs> {
    inputs: I,
    names: &'a [String],
    next: usize,
    is_reading: bool,
    is_due: bool,
    missed: Vec<bool>,
    has_missed: bool,
    start: u64,
}

impl<'a, I: Inputs> Model for Joined<'a, I> {
    ghost use Rattle.std.specs.Prelude.{◌≡◌, ◌≤◌, false, map, take, drop, length, string_bytes, vec_len};
    ghost use Rattle.sedfiles.specs.Joining.{Joining};
    ghost use Rattle.sedfiles.specs.Opening.{WereRefused};

    ghost Value = { Joining I };

    ghost view = { λ s. record {
      inputs = s.inputs;
      names = drop s.next (map string_bytes s.names.now);
      is_reading = s.is_reading;
      due = s.is_due;
      missed = take s.next s.missed.items;
      start = s.start;
    } };

    ghost invariant = { λ s. (s.next ≤ length s.names.now) × (vec_len s.missed ≡ length s.names.now)
        × WereRefused s.has_missed s.start (I.refusals s.inputs) };
}

impl<'a, I: Inputs> Joined<'a, I> {
    ghost use Rattle.sedfiles.specs.Files.{joined_files};
    ghost use Rattle.sedfiles.specs.Joining.{Joining, left_joined, left_of_current};
    ghost use Rattle.sedfiles.specs.Opening.{OpensNext};

    /// Makes a source of the files of these names, of which none is opened yet. Where a request for memory is refused,
    /// the inputs are dropped: lend them to keep them.
    pub fn new(alloc: Global, inputs: I, names: &'a [String]) -> Result<Joined<'a, I>, AllocError>
    where
        I: Drop,
        ensures value { IfOk result (λ j. j ≡ record {
          inputs = inputs;
          names = map string_bytes names.now;
          is_reading = false;
          due = false;
          missed = [];
          start = I.refusals inputs;
        }) }
        ensures joined { IfOk result (λ j. left_joined I.current I.ahead j
            ≡ joined_files (I.ahead inputs) (map string_bytes names.now)) }
    {
        let missed = vec![in alloc; false; names.len()]?;
        Ok(Joined::over(inputs, names, missed))
    }

    /// Makes the source with room to note of each file whether it was missed: so inputs are lent once it is reserved.
    pub fn over(inputs: I, names: &'a [String], missed: Vec<bool>) -> Joined<'a, I>
        requires { vec_len missed ≡ length names.now }
        ensures value { result ≡ record {
          inputs = inputs;
          names = map string_bytes names.now;
          is_reading = false;
          due = false;
          missed = [];
          start = I.refusals inputs;
        } }
        ensures joined { left_joined I.current I.ahead result ≡ joined_files (I.ahead inputs) (map string_bytes names.now) }
    {
        let start = inputs.refused();
        Joined {
            inputs,
            names,
            next: 0,
            is_reading: false,
            is_due: false,
            missed,
            has_missed: false,
            start,
        }
    }

    /// Whether the file of this number, counted from 0, couldn't be opened when its turn came. A file whose turn is still
    /// to come isn't missed.
    pub fn missed(&self, number: usize) -> bool
        ensures { result ≡ unwrap_or (slice_get self.now.missed number) false }
    {
        number < self.next && self.missed[number]
    }

    /// Whether any file was missed since `new`.
    pub fn has_missed(&self) -> bool
        ensures { WereRefused result self.now.start (I.refusals self.now.inputs) }
    {
        self.has_missed
    }

    /// Says that of the bytes given last so many weren't used. They are all of the file being read, since nothing is read
    /// on while any are left.
    pub fn give_back(&self, count: usize) {
        self.inputs.give_back(count);
    }

    /// Gives the inputs back.
    pub fn into_inputs(self) -> I
        ensures { result ≡ self.entry.inputs }
    {
        let Joined {
            inputs,
            names: _,
            next: _,
            is_reading: _,
            is_due: _,
            missed: _,
            has_missed: _,
            start: _,
        } = self;
        inputs
    }

    // Reads what is left of the file being read, with the newline that is due. 0 at its end.
    fn read_file(&mut self, buf: &mut [u8]) -> Result<usize, Broken>
        requires { 0 < length buf.old }
        ensures bound { ReadsAtMost result buf.new }
        ensures bytes { ReadConsumes (left_of_current I.current self.old) (left_of_current I.current self.new) result buf.new }
        ensures ended { result ≡ Ok 0 → self.new.is_reading ≡ false }
        ensures ahead { (names : List (List ℕ)) →
            KeepsFiles (I.ahead self.old.inputs names) (I.ahead self.new.inputs names) }
        ensures failed { FailsAtErr result (I.failures self.old.inputs) (I.failures self.new.inputs) }
        ensures same_reference { I.reference self.new.inputs ≡ I.reference self.old.inputs }
        ensures rest { self.new
            ≡ record self.old { inputs = self.new.inputs; is_reading = self.new.is_reading; due = self.new.due } }
    {
        if !self.is_reading {
            return Ok(0);
        }
        let count = self.inputs.read(buf)?;
        if count > 0 {
            self.is_due = buf[count - 1] != b'\n';
            return Ok(count);
        }
        self.is_reading = false;
        if !self.is_due {
            return Ok(0);
        }
        buf[0] = b'\n';
        Ok(1)
    }

    // Opens the next file, where one is left, and notes whether it was missed.
    fn open_next(&mut self) -> bool
        requires { self.old.is_reading ≡ false }
        ensures none { result ≡ false → (self.new ≡ self.old) × (self.old.names ≡ []) }
        ensures opened { result ≡ true → OpensNext I.current I.ahead self.old self.new }
        ensures failed { I.failures self.new.inputs ≡ I.failures self.old.inputs }
        ensures same_reference { I.reference self.new.inputs ≡ I.reference self.old.inputs }
        ensures same_start { self.new.start ≡ self.old.start }
    {
        if self.next >= self.names.len() {
            return false;
        }
        let name = self.names[self.next].as_str();
        let is_open = self.inputs.open(name);
        self.missed[self.next] = !is_open;
        self.has_missed = self.has_missed || !is_open;
        self.next += 1;
        self.is_reading = true;
        self.is_due = false;
        true
    }
}

impl<'a, I: Inputs> ByteSource for Joined<'a, I> {
    ghost use Rattle.sedfiles.specs.Joining.{Joining, left_joined, left_of_current};
    ghost use Rattle.sedfiles.specs.Opening.{OpensFirstFiles};

    ghost remaining = { λ j. left_joined I.current I.ahead j };

    ghost failures = { λ j. I.failures j.inputs };

    ghost reads = { λ _. None };

    ghost reference = { λ j. j.start ∷ I.reference j.inputs };

    fn read(&mut self, buf: &mut [u8]) -> Result<usize, Broken>
        ensures bound { ReadsAtMost result buf.new }
        ensures bytes { ReadConsumes (left_joined I.current I.ahead self.old) (left_joined I.current I.ahead self.new) result buf.new }
        ensures failed { FailsAtErr result (I.failures self.old.inputs) (I.failures self.new.inputs) }
        ensures same_reference { self.new.start ∷ I.reference self.new.inputs
            ≡ self.old.start ∷ I.reference self.old.inputs }
        // A file is opened where those before it have no byte left to give, and no sooner.
        ensures opened { OpensFirstFiles I.ahead self.old self.new }
        ensures waits { (self.new.names ≡ self.old.names) ⊎ IsAtEnd (left_of_current I.current self.old) }
    {
        if buf.is_empty() {
            return Ok(0);
        }
        loop {
            let count = self.read_file(buf)?;
            if count > 0 {
                return Ok(count);
            }
            if !self.open_next() {
                return Ok(0);
            }
        }
    }
}
