//! The command `l` (XCU sed, "Editing Commands in sed"): the listing of a text.
ghost use Rattle.std.specs.Prelude.{◌≡◌, ◌+◌, ◌*◌, ◌<◌, ◌≤◌, [], ◌++◌, length, take};
ghost use Rattle.sedacts.specs.Listing.{listed_byte, listed};
ghost use Rattle.sedacts.specs.ListingParts.{AreListedPlain, Lists, plain, with_item, with_run};
ghost use Rattle.sedacts.specs.Move.{to_sink};
ghost use Rattle.sedacts.specs.Calls.{WritesAll};

use crate::ends::Ended;
use crate::meter::MeteredSinks;
use std::marker::Model;

/// The most bytes of a piece of the listing.
const MOST_LISTED: usize = 69;

/// How many bytes of a listing are gathered before they are written.
const ROOM: usize = 1024;

/// How many bytes of a text are listed before that. Each takes at most six, an item of four and a fold before it, and the
/// end takes no more.
const PART: usize = ROOM / 6 - 1;

/// Writes the listing of a text, as the command `l` does (XCU sed, "Editing Commands in sed").
pub fn write_listing<O: MeteredSinks>(outputs: &mut O, bytes: &[u8]) -> Result<(), Ended>
    requires { 0 < O.count outputs.old }
    ensures { WritesAll O.tally O.count outputs.old outputs.new (to_sink 0 (listed bytes.now)) result }
{
    let mut gathered = ListingBuffer::new();
    let mut rest = bytes;
    'parts: while rest.len() > PART {
        let (part, after) = rest.split_at(PART);
        gathered.list(part);
        outputs.write_all(0, gathered.bytes())?;
        gathered.clear();
        rest = after;
    }
    gathered.list(rest);
    gathered.append(b"$\n");
    outputs.write_all(0, gathered.bytes())
}

/// The bytes of a listing that are to be written, and how many bytes the current piece has.
#[derive(Drop)]
struct ListingBuffer {
    held: [u8; ROOM],
    end: usize,
    column: usize,
}

impl Model for ListingBuffer {
    ghost use Rattle.std.specs.Prelude.{◌≤◌, take};
    ghost use Rattle.sedacts.specs.Listing.{most_listed};
    ghost use Rattle.sedacts.specs.ListingParts.{Listing};

    ghost Value = { Listing };

    ghost view = { λ s. record { bytes = take s.end s.held; column = s.column } };

    ghost invariant = { λ s. (s.end ≤ 1024) × (s.column ≤ most_listed) };
}

impl ListingBuffer {
    /// Nothing yet.
    fn new() -> ListingBuffer
        ensures { result ≡ record { bytes = []; column = 0 } }
    {
        ListingBuffer {
            held: [0; ROOM],
            end: 0,
            column: 0,
        }
    }

    /// The bytes that are to be written.
    fn bytes(&self) -> &[u8]
        ensures { result.now ≡ self.now.bytes }
    {
        &self.held[..self.end]
    }

    /// Forgets the bytes, which were written.
    fn clear(&mut self)
        ensures { self.new ≡ record self.old { bytes = [] } }
    {
        self.end = 0;
    }

    /// Lists a part of a text.
    fn list(&mut self, part: &[u8])
        requires { length self.old.bytes + 6 * length part.now ≤ ROOM }
        ensures lists { Lists self.old part.now self.new }
        ensures room { length self.new.bytes ≤ length self.old.bytes + 6 * length part.now }
    {
        let mut rest = part;
        'items: while !rest.is_empty() {
            let count = self.list_some(rest);
            rest = &rest[count..];
        }
    }

    /// Lists the bytes before the first one that needs an escape or a fold, or that one alone where it comes first. Answers
    /// how many it listed.
    fn list_some(&mut self, part: &[u8]) -> usize
        requires some { 0 < length part.now }
        requires room { length self.old.bytes + 6 * length part.now ≤ ROOM }
        ensures some { 0 < result }
        ensures within { result ≤ length part.now }
        ensures lists { Lists self.old (take result part.now) self.new }
        ensures room { length self.new.bytes ≤ length self.old.bytes + 6 * result }
    {
        let most = (MOST_LISTED - self.column).min(part.len());
        let run = plain_run(&part[..most]);
        if run == 0 {
            self.list_byte(part[0]);
            return 1;
        }
        self.put_run(&part[..run]);
        run
    }

    /// Lists a byte: by its escape, as it is, or by its octal number.
    fn list_byte(&mut self, byte: u8)
        requires { length self.old.bytes + 6 ≤ ROOM }
        ensures { self.new ≡ with_item self.old (listed_byte byte) }
    {
        match byte {
            b'\\' => self.put_item(b"\\\\"),
            // From the alert to the carriage return.
            7..=13 => self.put_item(&[b'\\', b"abtnvfr"[byte as usize - 7]]),
            32..=126 => self.put_item(&[byte]),
            _ => self.put_item(&[
                b'\\',
                b'0' + byte / 64,
                b'0' + byte / 8 % 8,
                b'0' + byte % 8,
            ]),
        }
    }

    /// Appends bytes to the current piece.
    fn put_run(&mut self, run: &[u8])
        requires fits { self.old.column + length run.now ≤ MOST_LISTED }
        requires room { length self.old.bytes + length run.now ≤ ROOM }
        ensures { self.new ≡ with_run self.old run.now }
    {
        self.append(run);
        self.column += run.len();
    }

    /// Appends an item, to a new piece if the current one would become too long.
    fn put_item(&mut self, bytes: &[u8])
        requires short { length bytes.now ≤ 4 }
        requires room { length self.old.bytes + 6 ≤ ROOM }
        ensures { self.new ≡ with_item self.old bytes.now }
    {
        if self.column + bytes.len() > MOST_LISTED {
            self.append(b"\\\n");
            self.column = 0;
        }
        self.put_run(bytes);
    }

    /// Appends bytes that are no part of a piece.
    fn append(&mut self, bytes: &[u8])
        requires { length self.old.bytes + length bytes.now ≤ ROOM }
        ensures { self.new ≡ record self.old { bytes = self.old.bytes ++ bytes.now } }
    {
        copy_in(&mut self.held, self.end, bytes);
        self.end += bytes.len();
    }
}

/// Puts bytes after the first `end`.
fn copy_in(held: &mut [u8], end: usize, bytes: &[u8])
    requires { end + length bytes.now ≤ length held.old }
    ensures bytes { take (end + length bytes.now) held.new ≡ take end held.old ++ bytes.now }
    ensures len { length held.new ≡ length held.old }
{
    held[end..end + bytes.len()].copy_from_slice(bytes);
}

/// How many bytes are listed as they are, before one that isn't.
fn plain_run(bytes: &[u8]) -> usize
    ensures within { result ≤ length bytes.now }
    ensures plain { AreListedPlain (take result bytes.now) }
{
    'bytes: for i in 0..bytes.len() {
        if !is_plain(bytes[i]) {
            return i;
        }
    }
    bytes.len()
}

/// Whether a byte is listed as it is.
fn is_plain(byte: u8) -> bool
    ensures { result ≡ plain byte }
{
    32 <= byte && byte <= 126 && byte != b'\\'
}
