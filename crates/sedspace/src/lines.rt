//! The lines of a source, read ahead by a fixed number of bytes.
//!
//! XCU sed reads its input a line at a time, each without its newline; a last line without one is a line too. What is
//! read ahead is in a buffer and begins at a front that moves: no byte that is left is moved, and the source is read
//! only when the buffer is used up. The first read asks for few bytes, and after each read that gave all that it asked for
//! the next asks for twice as many. So of an input of which little is wanted, little is read, and the rest of the buffer's
//! memory stays untouched.
ghost use Rattle.std.specs.Prelude.{◌≡◌, ◌↔◌, ◌+◌, ◌-◌, ◌<◌, ◌≤◌, ◌^◌, ℕ, List, [], ◌∷◌, ◌++◌, length, take, drop, true, false, IsTrue, is_ok, if◌then◌else◌, None, Some, IfOk, OnOk, OnErr, Contains, vec_len, vec_capacity};
ghost use Rattle.std.specs.List.{position, before_first};
ghost use Rattle.std.specs.Io.KnownBytes.{Consumes, Keeps, IsAtEnd};
ghost use Rattle.sedspace.specs.FailureCounts.{FailsAtErr};
ghost use Rattle.sedspace.specs.Lines.{is_newline, HasNoNewline};
ghost use Rattle.sedspace.specs.Stream.{AreWholeLines};

use super::{Broken, ByteSource, Full, LineFault, Space};
use std::alloc::{AllocError, Global};
use std::marker::Model;

// How many bytes the first read asks for, where there is room for them.
const FIRST: usize = 4096;

/// Whether there was a next line.
#[derive(Clone, Copy, Debug, PartialEq, Eq)]
pub enum Got {
    /// There was; it was appended to the space.
    Line,
    /// There was none: all lines were given before.
    End,
}

/// Memory for the bytes that are read ahead. Contracts see how many bytes it is for.
#[derive(Drop)]
pub struct Room {
    // As long as the next read may be; more is reserved.
    buffer: Vec<u8>,
    read_ahead: usize,
}

impl Model for Room {
    ghost use Rattle.std.specs.Prelude.{ℕ, ◌<◌, ◌≤◌, vec_len, vec_capacity};

    ghost Value = { ℕ };

    ghost view = { λ r. r.read_ahead };

    ghost invariant = { λ r. (0 < vec_len r.buffer) × (vec_len r.buffer ≤ r.read_ahead) × (r.read_ahead ≤ vec_capacity r.buffer) };
}

impl Room {
    /// Reserves memory for `read_ahead` bytes, from 1 to 2^30. Little of it is touched before the reads ask for more.
    pub fn new(alloc: Global, read_ahead: usize) -> Result<Room, AllocError>
        requires positive { 0 < read_ahead }
        requires bound { read_ahead ≤ 2 ^ 30 }
        ensures { IfOk result (λ room. room ≡ read_ahead) }
    {
        let mut buffer = Vec::with_capacity(alloc, read_ahead)?;
        buffer.resize(read_ahead.min(FIRST), 0)?;
        Ok(Room { buffer, read_ahead })
    }
}

/// The lines of a source, which is read ahead by at most `read_ahead` bytes. Once made, it asks for no memory.
///
/// The first read asks for 4096 bytes, or for `read_ahead` where that is less. Each read that gives all that it asked for makes
/// the next one ask for twice as many, up to `read_ahead`.
///
/// A fault is kept: each later call answers it again, without reading.
#[derive(Drop)]
pub struct Lines<R: ByteSource> {
    from: R,
    // As long as the next read may be; more is reserved.
    buffer: Vec<u8>,
    read_ahead: usize,
    front: usize,
    filled: usize,
    is_ended: bool,
    answered: Option<LineFault>,
}

impl<R: ByteSource> Model for Lines<R> {
    ghost use Rattle.std.specs.Prelude.{◌≤◌, ◌<◌, IsTrue, take, drop, vec_len, vec_capacity};
    ghost use Rattle.std.specs.Io.KnownBytes.{IsAtEnd};
    ghost use Rattle.sedspace.specs.Stream.{Stream};

    ghost Value = { Stream R };

    ghost view = { λ s. record {
      source = s.from;
      ahead = drop s.front (take s.filled s.buffer.items);
      read_ahead = s.read_ahead;
      ended = s.is_ended;
      fault = s.answered;
    } };

    ghost invariant = { λ s. (s.front ≤ s.filled) × (s.filled ≤ vec_len s.buffer) × (0 < vec_len s.buffer)
        × (vec_len s.buffer ≤ s.read_ahead) × (s.read_ahead ≤ vec_capacity s.buffer)
        × (IsTrue s.is_ended → IsAtEnd (R.remaining s.from)) };
}

impl<R: ByteSource> Lines<R> {
    ghost use Rattle.sedspace.specs.Stream.{Stream, left, lines_left, GivesLine, GivesLines, TakesLine, FirstIsLonger, NoLineLeft, SeesEnd, LosesPart, FailsIfBroken, AnswersLast, KeepsLines, KeepsFault, ReadsForBytes, ReadsOn, RisesAtMost};
    ghost use Rattle.sedspace.specs.Reading.{TakesAtMost};
    ghost use Rattle.sedspace.specs.Gathering.{Gathers};

    /// Makes the lines of the source, and reserves memory to read ahead by at most `read_ahead` bytes, from 1 to 2^30. Nothing
    /// is read yet. Where the memory is refused, the source is dropped: to keep it, make the `Room` first and call
    /// `over`.
    pub fn new(alloc: Global, source: R, read_ahead: usize) -> Result<Lines<R>, AllocError>
    where
        R: Drop,
        requires positive { 0 < read_ahead }
        requires bound { read_ahead ≤ 2 ^ 30 }
        ensures { IfOk result (λ s. s
            ≡ record { source = source; ahead = []; read_ahead = read_ahead; ended = false; fault = None }) }
    {
        let room = Room::new(alloc, read_ahead)?;
        Ok(Lines::over(source, room))
    }

    /// Makes the lines of the source, read ahead into this room. Nothing is read yet.
    pub fn over(source: R, room: Room) -> Lines<R>
        ensures { result ≡ record { source = source; ahead = []; read_ahead = room; ended = false; fault = None } }
    {
        let Room { buffer, read_ahead } = room;
        Lines {
            from: source,
            buffer,
            read_ahead,
            front: 0,
            filled: 0,
            is_ended: false,
            answered: None,
        }
    }

    /// Gives the source back. What was read ahead is lost.
    pub fn into_source(self) -> R
        ensures { result ≡ self.source }
    {
        let Lines {
            from,
            buffer: _,
            read_ahead: _,
            front: _,
            filled: _,
            is_ended: _,
            answered: _,
        } = self;
        from
    }

    /// The source.
    pub fn source(&self) -> &R
        ensures { result.now ≡ self.now.source }
    {
        &self.from
    }

    /// How many bytes have been read ahead and not given yet: never more than `read_ahead`.
    pub fn ahead_len(&self) -> usize
        ensures value { result ≡ length self.now.ahead }
        ensures bound { length self.now.ahead ≤ self.now.read_ahead }
    {
        self.ahead().len()
    }

    /// The bytes that have been read ahead and not given yet.
    pub fn ahead(&self) -> &[u8]
        ensures value { result.now ≡ self.now.ahead }
        ensures bound { length self.now.ahead ≤ self.now.read_ahead }
    {
        &self.buffer[self.front..self.filled]
    }

    /// Takes the first `count` of the bytes that have been read ahead, which are whole lines. Nothing is read or copied.
    pub fn take_lines(&mut self, count: usize)
        requires within { count ≤ length self.old.ahead }
        requires whole { AreWholeLines (take count self.old.ahead) }
        ensures taken { self.new ≡ record self.old { ahead = drop count self.old.ahead } }
        ensures lines { GivesLines (lines_left R.remaining self.old) (lines_left R.remaining self.new)
            (take count self.old.ahead) }
        ensures bound { length self.new.ahead ≤ self.new.read_ahead }
    {
        self.front += count;
    }

    /// Appends the next line to the space, without its newline, and answers whether there was one. The source isn't read
    /// where a whole line has been read ahead, or its end was seen in an earlier call.
    ///
    /// Answers `TooLong` where the line doesn't fit into the space, and `Broken` where the source failed before the line's
    /// end came. The space then has what it had before, and each later call answers the same fault.
    pub fn next_into(&mut self, space: &mut Space) -> Result<Got, LineFault>
        ensures line { result ≡ Ok Got.Line → (line : List ℕ)
            × (space.new ≡ record space.old { bytes = space.old.bytes ++ line })
            × TakesLine (left R.remaining self.old) (left R.remaining self.new) line
            × GivesLine (lines_left R.remaining self.old) (lines_left R.remaining self.new) line }
        ensures last { result ≡ Ok Got.Line → SeesEnd (left R.remaining self.old) self.new.ended }
        ensures fits { OnOk result (length space.new.bytes ≤ space.new.limit) }
        ensures end { result ≡ Ok Got.End → (space.new ≡ space.old)
            × NoLineLeft (lines_left R.remaining self.old) × NoLineLeft (lines_left R.remaining self.new)
            × (self.new.ended ≡ true) }
        ensures too_long { result ≡ Err LineFault.TooLong → self.old.fault ≡ None
            → FirstIsLonger (lines_left R.remaining self.old) (space.old.limit - length space.old.bytes) }
        ensures failed { self.old.fault ≡ None
            → FailsIfBroken result (R.failures self.old.source) (R.failures self.new.source) }

        // Where the source fails, no more than a part of one line has come from it.
        ensures broken { result ≡ Err LineFault.Broken → self.old.fault ≡ None → (self.new.ahead ≡ [])
            × LosesPart (left R.remaining self.old) (left R.remaining self.new)
            (space.old.limit - length space.old.bytes) }

        // A fault loses a part of one line, of at most the space's limit, is kept, and is answered again.
        ensures err { OnErr result ((space.new ≡ space.old)
            × LosesPart (left R.remaining self.old) (left R.remaining self.new) space.old.limit) }
        ensures fault { KeepsFault result self.old self.new }

        // How much is read, and when. A read that gives no byte is the last of the call.
        ensures reads { ReadsOn R.reference self.old self.new }
        ensures taken { TakesAtMost (R.remaining self.old.source) (R.remaining self.new.source)
            (self.old.read_ahead
            + (if is_ok result then length space.new.bytes - length space.old.bytes + 1 else space.old.limit)) }
        ensures once { ReadsForBytes R.remaining R.reads self.old.source self.new.source 1 }
        ensures whole_ahead { Contains self.old.ahead 10 → self.new.source ≡ self.old.source }
        ensures ended { self.old.ended ≡ true → (self.new.source ≡ self.old.source) × (self.new.ended ≡ true) }
    {
        if let Some(fault) = self.answered {
            return Err(fault);
        }
        let start = space.len();
        let got = self.gather(space);
        if let Err(fault) = got {
            space.truncate(start);
            self.answered = Some(fault);
        }
        got
    }

    /// Whether no line is left, so that the line given last was the last of the input. The source isn't read where bytes
    /// have been read ahead, or its end was seen in an earlier call. Answers `Broken` where the source failed before a
    /// byte of it came; no byte is lost by it.
    pub fn is_last(&mut self) -> Result<bool, LineFault>
        ensures last { IfOk result (AnswersLast (lines_left R.remaining self.old)) }
        ensures end { result ≡ Ok true → self.new.ended ≡ true }
        ensures left { Keeps (left R.remaining self.old) (left R.remaining self.new) }
        ensures lines { KeepsLines (lines_left R.remaining self.old) (lines_left R.remaining self.new) }
        ensures failed { self.old.fault ≡ None
            → FailsIfBroken result (R.failures self.old.source) (R.failures self.new.source) }
        ensures too_long { result ≡ Err LineFault.TooLong → self.old.fault ≡ Some LineFault.TooLong }

        // A fault is kept, and answered again.
        ensures err { OnErr result (self.new.ahead ≡ self.old.ahead) }
        ensures broken { result ≡ Err LineFault.Broken → self.old.fault ≡ None → self.new.ahead ≡ [] }
        ensures fault { KeepsFault result self.old self.new }

        // How much is read, and when: once at most.
        ensures reads { ReadsOn R.reference self.old self.new }
        ensures taken { TakesAtMost (R.remaining self.old.source) (R.remaining self.new.source) self.old.read_ahead }
        ensures once { RisesAtMost (R.reads self.old.source) (R.reads self.new.source) 1 }
        ensures bytes_ahead { 0 < length self.old.ahead → self.new ≡ self.old }
        ensures ended { self.old.ended ≡ true → self.new ≡ self.old }
    {
        if let Some(fault) = self.answered {
            return Err(fault);
        }
        if !self.ahead().is_empty() {
            return Ok(false);
        }
        match self.refill() {
            Ok(more) => Ok(!more),
            Err(Broken) => {
                self.answered = Some(LineFault::Broken);
                Err(LineFault::Broken)
            }
        }
    }

    // Reads once into the empty buffer, unless the end is known. Says whether there are bytes ahead.
    fn refill(&mut self) -> Result<bool, Broken>
        requires { self.old.ahead ≡ [] }
        ensures given { IfOk result (λ more. IsTrue more ↔ (0 < length self.new.ahead)) }
        ensures end { result ≡ Ok false → (self.new.ended ≡ true) × IsAtEnd (left R.remaining self.new) }
        ensures err { OnErr result ((self.new.ahead ≡ []) × (self.new.ended ≡ false)) }
        ensures left { Consumes (left R.remaining self.old) (left R.remaining self.new) [] }
        ensures taken { Consumes (R.remaining self.old.source) (R.remaining self.new.source) self.new.ahead }
        ensures failed { FailsAtErr result (R.failures self.old.source) (R.failures self.new.source) }
        ensures once { RisesAtMost (R.reads self.old.source) (R.reads self.new.source) 1 }
        ensures unread { self.old.ended ≡ true → (result ≡ Ok false) × (self.new ≡ self.old) }
        ensures reads { ReadsOn R.reference self.old self.new }
        ensures fault { self.new.fault ≡ self.old.fault }
    {
        if self.is_ended {
            return Ok(false);
        }
        widen(&mut self.buffer, self.filled, self.read_ahead);
        self.front = 0;
        self.filled = 0;
        let count = self.from.read(self.buffer.as_mut_slice())?;
        self.filled = count;
        self.is_ended = count == 0;
        Ok(!self.is_ended)
    }

    // Moves bytes from ahead to the space, up to and without the first newline, which is dropped. Says whether there
    // was one.
    fn move_ahead(&mut self, space: &mut Space) -> Result<bool, Full>
        ensures line { result ≡ Ok true → (line : List ℕ) × HasNoNewline line
            × (self.old.ahead ≡ line ++ 10 ∷ self.new.ahead)
            × (space.new ≡ record space.old { bytes = space.old.bytes ++ line }) }
        ensures all { result ≡ Ok false → HasNoNewline self.old.ahead × (self.new.ahead ≡ [])
            × (space.new ≡ record space.old { bytes = space.old.bytes ++ self.old.ahead }) }
        ensures fits { OnOk result (length space.new.bytes ≤ space.new.limit) }
        ensures full { OnErr result (space.old.limit
            < length space.old.bytes + length (before_first is_newline self.old.ahead)) }
        ensures err { OnErr result ((space.new ≡ space.old) × (self.new ≡ self.old)) }
        ensures rest { self.new ≡ record self.old { ahead = self.new.ahead } }
        ensures bound { length self.new.ahead ≤ self.new.read_ahead }
    {
        let ahead = self.ahead();
        match newline_in(ahead) {
            Some(at) => {
                space.append_clear(ahead, at)?;
                self.front += at + 1;
                Ok(true)
            }
            None => {
                space.append(ahead)?;
                self.front = self.filled;
                Ok(false)
            }
        }
    }

    // Gathers the next line in the space. After an error the space may contain a part of it.
    fn gather(&mut self, space: &mut Space) -> Result<Got, LineFault>
        ensures gathers { Gathers R.remaining R.failures self.old self.new space.old space.new result }
        ensures fits { OnOk result (length space.new.bytes ≤ space.new.limit) }
        ensures bound { length self.new.ahead ≤ self.new.read_ahead }
        ensures once { ReadsForBytes R.remaining R.reads self.old.source self.new.source 1 }
        ensures same_reference { R.reference self.new.source ≡ R.reference self.old.source }
    {
        let start = space.len();
        loop {
            match self.move_ahead(space) {
                Ok(true) => return Ok(Got::Line),
                Ok(false) => {}
                Err(Full) => return Err(LineFault::TooLong),
            }
            match self.refill() {
                Ok(true) => {}
                Ok(false) if space.len() > start => return Ok(Got::Line),
                Ok(false) => return Ok(Got::End),
                Err(Broken) => return Err(LineFault::Broken),
            }
        }
    }
}

// Doubles the buffer's length, up to `read_ahead`, where the last read filled it. All of it is reserved.
fn widen(buffer: &mut Vec<u8>, filled: usize, read_ahead: usize)
    requires within { vec_len buffer.old ≤ read_ahead }
    requires reserved { read_ahead ≤ vec_capacity buffer.old }
    ensures longer { vec_len buffer.old ≤ vec_len buffer.new }
    ensures bound { vec_len buffer.new ≤ read_ahead }
    ensures capacity { read_ahead ≤ vec_capacity buffer.new }
{
    let len = buffer.len();
    if filled == len && len < read_ahead {
        match buffer.resize(len + len.min(read_ahead - len), 0) {
            Ok(()) => {}
            Err(_) => unreachable!(),
        }
    }
}

// The place of the first newline.
#[tactic(auto, using(crate::proofs::LineLemmas::position_from_first))]
pub(crate) fn newline_in(bytes: &[u8]) -> Option<usize>
    ensures { result ≡ position is_newline bytes.now }
{
    memchr::memchr(b'\n', bytes)
}

/// How many of the bytes are whole lines: those up to and with the last newline.
pub fn whole_lines(bytes: &[u8]) -> usize
    ensures within { result ≤ length bytes.now }
    ensures whole { AreWholeLines (take result bytes.now) }
    ensures rest { HasNoNewline (drop result bytes.now) }
{
    match memchr::memrchr(b'\n', bytes) {
        Some(at) => at + 1,
        None => 0,
    }
}
