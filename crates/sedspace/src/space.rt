//! A space: bytes up to a limit, in memory that is reserved when it is made.
//!
//! The pattern space and the hold space of XCU sed are spaces. The contents begin at a front that moves, so that a line
//! is cut off without moving what follows it, and a newline is kept after them, so that they can be written with their
//! newline at once. What follows that newline is left over from longer contents, and is overwritten. A space remembers
//! how many bytes at its beginning and at its end contain no newline, so that `N`, `P` and `D` don't search a line twice.
ghost use Rattle.std.specs.Prelude.{◌≡◌, ◌==◌, ◌+◌, ◌-◌, ◌<◌, ◌≤◌, [], ◌∷◌, ◌++◌, if◌then◌else◌, length, IfOk, OnOk, OnErr, IfSome, IsTrue, Contains, ℕ, false, map, nat_lt, position, take, slice_get, slice_index_or, vec_len, vec_capacity};
ghost use Rattle.std.specs.List.{after_first, before_first};
ghost use Rattle.std.specs.Io.KnownBytes.{Keeps};
ghost use Rattle.sedspace.specs.Lines.{is_newline, HasNoNewline};
ghost use Rattle.sedspace.specs.Reading.{ReadsAt};
ghost use Rattle.sedspace.specs.NewlineAfter.{NewlineAt, held_between};

use super::lines::newline_in;
use super::{Full, Texts};
use std::alloc::{AllocError, Global};
use std::marker::Model;
use std::simd::prelude::*;

// How many bytes are copied at once where there is room for them: most lines are shorter.
const SHORT: usize = 128;

/// At most `limit` bytes. `new` reserves the memory for them; no later call asks for any.
#[derive(Drop)]
pub struct Space {
    held: Vec<u8>,
    front: usize,
    // Where the newline is that follows the contents.
    end: usize,
    most: usize,
    // How many of the first bytes are known to contain no newline,
    clear_first: usize,
    // and how many of the last.
    clear_last: usize,
}

impl Model for Space {
    ghost use Rattle.std.specs.Prelude.{◌+◌, ◌<◌, ◌≤◌, vec_len, vec_capacity};
    ghost use Rattle.sedspace.specs.Spaces.{SpaceView};
    ghost use Rattle.sedspace.specs.NewlineAfter.{NewlineAt, IsClear, held_between};

    ghost Value = { SpaceView };

    ghost view = { λ s. record { bytes = held_between s.front s.end s.held.items; limit = s.most } };

    ghost invariant = { λ s. (s.front ≤ s.end) × (s.end < vec_len s.held) × (vec_len s.held ≤ s.most + 1)
        × (s.most < vec_capacity s.held) × NewlineAt s.end s.held.items
        × IsClear s.clear_first s.clear_last (held_between s.front s.end s.held.items) };
}

impl Space {
    ghost use Rattle.sedspace.specs.Spaces.{SpaceView};

    /// Makes an empty space, and reserves memory for `limit` bytes.
    pub fn new(alloc: Global, limit: usize) -> Result<Space, AllocError>
        ensures { IfOk result (λ s. s ≡ record { bytes = []; limit = limit }) }
    {
        let mut held = Vec::with_capacity(alloc, limit.saturating_add(1))?;
        grow(&mut held, limit.min(SHORT) + 1);
        end_line(&mut held, 0);
        Ok(Space {
            held,
            front: 0,
            end: 0,
            most: limit,
            clear_first: 0,
            clear_last: 0,
        })
    }

    /// The most bytes that the space may hold.
    pub fn limit(&self) -> usize
        ensures { result ≡ self.now.limit }
    {
        self.most
    }

    /// How many bytes it contains.
    pub fn len(&self) -> usize
        ensures value { result ≡ length self.now.bytes }
        ensures bound { result ≤ self.now.limit }
    {
        self.end - self.front
    }

    /// Whether it contains no byte.
    pub fn is_empty(&self) -> bool
        ensures { result ≡ (length self.now.bytes == 0) }
    {
        self.len() == 0
    }

    /// The bytes that it contains.
    pub fn bytes(&self) -> &[u8]
        ensures value { result.now ≡ self.now.bytes }
        ensures bound { length self.now.bytes ≤ self.now.limit }
    {
        &self.held[self.front..self.end]
    }

    /// The bytes that it contains, followed by a newline, as a line is written.
    pub fn line(&self) -> &[u8]
        ensures value { result.now ≡ self.now.bytes ++ 10 ∷ [] }
        ensures bound { length self.now.bytes ≤ self.now.limit }
    {
        &self.held[self.front..self.end + 1]
    }

    /// The bytes before the first newline, or all where there is none, followed by a newline, as the command `P` writes
    /// them.
    pub fn first_line(&self) -> &[u8]
        ensures value { result.now ≡ before_first is_newline self.now.bytes ++ 10 ∷ [] }
        ensures bound { length self.now.bytes ≤ self.now.limit }
    {
        match self.newline() {
            Some(at) => &self.line()[..at + 1],
            None => self.line(),
        }
    }

    // The place of the first newline.
    fn newline(&self) -> Option<usize>
        ensures { result ≡ position is_newline self.now.bytes }
    {
        let bytes = self.bytes();
        let first = self.clear_first;
        // After `N` it is there, and no search is needed.
        if first < bytes.len() && bytes[first] == b'\n' {
            return Some(first);
        }
        let at = newline_in(&bytes[first..])?;
        Some(first + at)
    }

    /// Removes all bytes.
    pub fn clear(&mut self)
        ensures { self.new ≡ record self.old { bytes = [] } }
    {
        self.front = 0;
        self.end = 0;
        self.clear_first = 0;
        self.clear_last = 0;
        end_line(&mut self.held, 0);
    }

    /// Keeps the first `count` bytes, or all where there are fewer.
    pub fn truncate(&mut self, count: usize)
        ensures { self.new ≡ record self.old { bytes = take count self.old.bytes } }
    {
        if count < self.len() {
            self.end = self.front + count;
            self.clear_first = self.clear_first.min(count);
            self.clear_last = 0;
            end_line(&mut self.held, self.end);
        }
    }

    /// Appends the bytes. Answers `Full`, and changes nothing, exactly where they would pass the limit.
    #[inline(always)]
    pub fn append(&mut self, bytes: &[u8]) -> Result<(), Full>
        ensures ok { OnOk result (self.new ≡ record self.old { bytes = self.old.bytes ++ bytes.now }) }
        ensures fits { OnOk result (length self.old.bytes + length bytes.now ≤ self.old.limit) }
        ensures full { OnErr result (self.old.limit < length self.old.bytes + length bytes.now) }
        ensures err { OnErr result (self.new ≡ self.old) }
    {
        if self.most - self.len() < bytes.len() {
            return Err(Full);
        }
        // Before a match at a line's beginning, as after one at its end, comes nothing.
        if !bytes.is_empty() {
            self.append_fitting(bytes);
        }
        Ok(())
    }

    /// Appends bytes for which there is room.
    #[inline(never)]
    fn append_fitting(&mut self, bytes: &[u8])
        requires { length self.old.bytes + length bytes.now ≤ self.old.limit }
        ensures { self.new ≡ record self.old { bytes = self.old.bytes ++ bytes.now } }
    {
        let count = bytes.len();
        let (front, end) = append_to(
            &mut self.held,
            self.front,
            self.end,
            self.most,
            bytes,
            count,
        );
        self.front = front;
        self.end = end;
        self.clear_last = 0;
    }

    /// Appends the first `count` bytes of a text, which contain no newline.
    pub(crate) fn append_clear(&mut self, text: &[u8], count: usize) -> Result<(), Full>
        requires inside { count ≤ length text.now }
        requires clear { HasNoNewline (take count text.now) }
        ensures ok { OnOk result (self.new ≡ record self.old { bytes = self.old.bytes ++ take count text.now }) }
        ensures fits { OnOk result (length self.old.bytes + count ≤ self.old.limit) }
        ensures full { OnErr result (self.old.limit < length self.old.bytes + count) }
        ensures err { OnErr result (self.new ≡ self.old) }
    {
        let len = self.len();
        if self.most - len < count {
            return Err(Full);
        }
        let (front, end) = append_to(&mut self.held, self.front, self.end, self.most, text, count);
        self.front = front;
        self.end = end;
        self.clear_first = clear_with(self.clear_first, len, count);
        self.clear_last += count;
        Ok(())
    }

    /// Appends a newline and the bytes, as the commands `G`, `H` and `N` do. Answers `Full`, and changes nothing, exactly
    /// where they would pass the limit.
    pub fn append_line(&mut self, bytes: &[u8]) -> Result<(), Full>
        ensures ok { OnOk result (self.new ≡ record self.old { bytes = self.old.bytes ++ 10 ∷ bytes.now }) }
        ensures fits { OnOk result (length self.old.bytes + 1 + length bytes.now ≤ self.old.limit) }
        ensures full { OnErr result (self.old.limit < length self.old.bytes + 1 + length bytes.now) }
        ensures err { OnErr result (self.new ≡ self.old) }
    {
        if self.most - self.len() <= bytes.len() {
            return Err(Full);
        }
        match self.append(b"\n") {
            Ok(()) => self.append(bytes),
            Err(_) => unreachable!(),
        }
    }

    /// Replaces the contents by the bytes. Answers `Full`, and changes nothing, exactly where these are more than the
    /// limit.
    pub fn set(&mut self, bytes: &[u8]) -> Result<(), Full>
        ensures ok { OnOk result (self.new ≡ record self.old { bytes = bytes.now }) }
        ensures fits { OnOk result (length bytes.now ≤ self.old.limit) }
        ensures full { OnErr result (self.old.limit < length bytes.now) }
        ensures err { OnErr result (self.new ≡ self.old) }
    {
        if self.most < bytes.len() {
            return Err(Full);
        }
        grow(&mut self.held, bytes.len() + 1);
        self.front = 0;
        self.clear_first = 0;
        self.clear_last = 0;
        self.end = put(&mut self.held, 0, bytes, bytes.len());
        Ok(())
    }

    /// Deletes the bytes up to and including the first newline, as the command `D` does, and answers whether there was
    /// one. Without one nothing changes. No byte is moved.
    pub fn cut_line(&mut self) -> bool
        ensures cut { IsTrue result → (Contains self.old.bytes 10)
            × (self.new ≡ record self.old { bytes = after_first is_newline self.old.bytes }) }
        ensures whole { result ≡ false → HasNoNewline self.old.bytes × (self.new ≡ self.old) }
    {
        match self.newline() {
            Some(at) => {
                self.front += at + 1;
                let rest = self.end - self.front;
                self.clear_first = clear_of_rest(self.clear_last, rest);
                self.clear_last = self.clear_last.min(rest);
                true
            }
            None => false,
        }
    }

    /// Replaces the contents by at most `most` bytes of the text, read from the offset on by one `read_at`, and answers
    /// how many there were. `most` is from 1 to the limit.
    pub fn fill<T: Texts>(
        &mut self,
        texts: &mut T,
        number: usize,
        offset: u64,
        most: usize,
    ) -> usize
        requires positive { 0 < most }
        requires fits { most ≤ self.old.limit }
        ensures bytes { ReadsAt (T.text texts.old number) offset result self.new.bytes }
        ensures count { length self.new.bytes ≡ result }
        ensures bound { result ≤ most }
        ensures progress { IfSome (T.text texts.old number) (λ xs. result ≡ 0 → length xs ≤ offset) }
        ensures limit { self.new.limit ≡ self.old.limit }
        ensures kept { (j : ℕ) → Keeps (T.text texts.old j) (T.text texts.new j) }
    {
        grow(&mut self.held, most + 1);
        let count = read_in(texts, number, offset, &mut self.held, most);
        self.front = 0;
        self.end = count;
        self.clear_first = 0;
        self.clear_last = 0;
        end_line(&mut self.held, count);
        count
    }

    /// Replaces each byte by the one at its place in a table of all 256 bytes, as the command `y` does.
    pub fn translate(&mut self, table: &[u8])
        requires { length table.now ≡ 256 }
        ensures { self.new ≡ record self.old { bytes = map (λ b. slice_index_or table.now b b) self.old.bytes } }
    {
        self.clear_first = 0;
        self.clear_last = 0;
        translate_between(&mut self.held, self.front, self.end, table);
    }

    /// Exchanges the contents of two spaces of the same limit, as the command `x` does.
    pub fn swap(&mut self, other: &mut Space)
        requires { self.old.limit ≡ other.old.limit }
        ensures here { self.new ≡ other.old }
        ensures there { other.new ≡ self.old }
    {
        std::mem::swap(self, other);
    }
}

// Puts the newline at the end.
fn end_line(held: &mut Vec<u8>, end: usize)
    requires inside { end < vec_len held.old }
    ensures bytes { take end held.new.items ≡ take end held.old.items }
    ensures ended { NewlineAt end held.new.items }
    ensures len { vec_len held.new ≡ vec_len held.old }
    ensures capacity { vec_capacity held.old ≤ vec_capacity held.new }
{
    held[end] = b'\n';
}

// How many of the first bytes contain no newline, once `count` more without one are appended to `len` of them.
fn clear_with(first: usize, len: usize, count: usize) -> usize
    requires { len + count ≤ usize.MAX }
    ensures { result ≡ if first == len then len + count else first }
{
    if first == len { len + count } else { first }
}

// How many of the first bytes contain no newline, once only the last `rest` bytes are left; the last `last` contain none.
fn clear_of_rest(last: usize, rest: usize) -> usize
    ensures { result ≡ if nat_lt last rest then 0 else rest }
{
    if last < rest { 0 } else { rest }
}

// Appends the first `count` bytes of the text to the contents, and puts the newline after them. Says where the contents
// then begin and end.
#[inline(always)]
fn append_to(
    held: &mut Vec<u8>,
    front: usize,
    end: usize,
    most: usize,
    text: &[u8],
    count: usize,
) -> (usize, usize)
    requires inside_text { count ≤ length text.now }
    requires lies { (front ≤ end) × (end < vec_len held.old) }
    requires held_within { vec_len held.old ≤ most + 1 }
    requires reserved { most < vec_capacity held.old }
    requires fits { end - front + count ≤ most }
    ensures bytes { held_between result.0 result.1 held.new.items ≡ held_between front end held.old.items ++ take count text.now }
    ensures ended { NewlineAt result.1 held.new.items }
    ensures lies { (result.0 ≤ result.1) × (result.1 < vec_len held.new) }
    ensures within { vec_len held.new ≤ most + 1 }
    ensures capacity { vec_capacity held.old ≤ vec_capacity held.new }
{
    if held.len() - end > count {
        return (front, put(held, end, text, count));
    }
    let (front, end) = make_room(held, front, end, most, count);
    (front, put(held, end, text, count))
}

// Puts the first `count` bytes of the text after the first `end`, and the newline after them. Says where that is.
fn put(held: &mut Vec<u8>, end: usize, text: &[u8], count: usize) -> usize
    requires inside { count ≤ length text.now }
    requires room { end + count < vec_len held.old }
    ensures bytes { take result held.new.items ≡ take end held.old.items ++ take count text.now }
    ensures ended { NewlineAt result held.new.items }
    ensures place { result ≡ end + count }
    ensures len { vec_len held.new ≡ vec_len held.old }
    ensures capacity { vec_capacity held.old ≤ vec_capacity held.new }
{
    copy_in(held, end, text, count);
    let end = end + count;
    end_line(held, end);
    end
}

// Puts the first `count` bytes of the text after the first `end`. Where there is room for more, few bytes are copied
// with the ones after them, which takes no branch on how many they are.
fn copy_in(held: &mut [u8], end: usize, text: &[u8], count: usize)
    requires inside { count ≤ length text.now }
    requires room { end + count ≤ length held.old }
    ensures bytes { take (end + count) held.new ≡ take end held.old ++ take count text.now }
    ensures len { length held.new ≡ length held.old }
{
    if count <= SHORT && SHORT <= text.len() && SHORT <= held.len() - end {
        copy_short(held, end, text);
    } else {
        copy_exactly(held, end, &text[..count]);
    }
}

// Puts the first 128 bytes of the text after the first `end`.
fn copy_short(held: &mut [u8], end: usize, text: &[u8])
    requires inside { 128 ≤ length text.now }
    requires room { end + 128 ≤ length held.old }
    ensures bytes { take (end + 128) held.new ≡ take end held.old ++ take 128 text.now }
    ensures len { length held.new ≡ length held.old }
{
    copy_block(held, end, text);
    copy_block(held, end + 64, &text[64..]);
}

// Puts the first 64 bytes of the text after the first `end`.
fn copy_block(held: &mut [u8], end: usize, text: &[u8])
    requires inside { 64 ≤ length text.now }
    requires room { end + 64 ≤ length held.old }
    ensures bytes { take (end + 64) held.new ≡ take end held.old ++ take 64 text.now }
    ensures len { length held.new ≡ length held.old }
{
    Simd::<u8, 64>::from_slice(text).copy_to_slice(&mut held[end..]);
}

// Puts the bytes after the first `end`.
fn copy_exactly(held: &mut [u8], end: usize, bytes: &[u8])
    requires room { end + length bytes.now ≤ length held.old }
    ensures bytes { take (end + length bytes.now) held.new ≡ take end held.old ++ bytes.now }
    ensures len { length held.new ≡ length held.old }
{
    held[end..end + bytes.len()].copy_from_slice(bytes);
}

// Replaces the bytes from the front to the end by those at their places in the table.
fn translate_between(held: &mut [u8], front: usize, end: usize, table: &[u8])
    requires table { length table.now ≡ 256 }
    requires order { front ≤ end }
    requires inside { end ≤ length held.old }
    ensures bytes { held_between front end held.new ≡ map (λ b. slice_index_or table.now b b) (held_between front end held.old) }
    ensures after { slice_get held.new end ≡ slice_get held.old end }
    ensures len { length held.new ≡ length held.old }
{
    translate_all(&mut held[front..end], table);
}

// Replaces each byte by the one at its place in the table.
fn translate_all(bytes: &mut [u8], table: &[u8])
    requires { length table.now ≡ 256 }
    ensures bytes { bytes.new ≡ map (λ b. slice_index_or table.now b b) bytes.old }
{
    for byte in bytes.iter_mut() {
        *byte = table[*byte as usize];
    }
}

// Makes the list at least this long.
fn grow(held: &mut Vec<u8>, len: usize)
    requires room { len ≤ vec_capacity held.old }
    ensures kept { take (vec_len held.old) held.new.items ≡ held.old.items }
    ensures longer { vec_len held.old ≤ vec_len held.new }
    ensures long { len ≤ vec_len held.new }
    ensures within { vec_len held.new ≤ len + (vec_len held.old - len) }
    ensures capacity { vec_capacity held.old ≤ vec_capacity held.new }
{
    if held.len() < len {
        match held.resize(len, 0) {
            Ok(()) => {}
            Err(_) => unreachable!(),
        }
    }
}

// Makes room for `count` bytes and the newline after the contents, and says where these then begin and end. They are
// moved to the beginning only where the room after them is too small. Few lines need this call.
#[inline(never)]
fn make_room(
    held: &mut Vec<u8>,
    front: usize,
    end: usize,
    most: usize,
    count: usize,
) -> (usize, usize)
    requires lies { (front ≤ end) × (end < vec_len held.old) }
    requires held_within { vec_len held.old ≤ most + 1 }
    requires reserved { most < vec_capacity held.old }
    requires fits { end - front + count ≤ most }
    ensures kept { held_between result.0 result.1 held.new.items ≡ held_between front end held.old.items }
    ensures order { result.0 ≤ result.1 }
    ensures room { result.1 + count < vec_len held.new }
    ensures within { vec_len held.new ≤ most + 1 }
    ensures capacity { vec_capacity held.old ≤ vec_capacity held.new }
{
    if count <= most - end {
        grow(held, end + count + 1);
        return (front, end);
    }
    move_down(held, front, end);
    grow(held, end - front + count + 1);
    (0, end - front)
}

// Moves the contents to the beginning.
fn move_down(held: &mut Vec<u8>, front: usize, end: usize)
    requires order { front ≤ end }
    requires inside { end < vec_len held.old }
    ensures moved { take (end - front) held.new.items ≡ held_between front end held.old.items }
    ensures len { vec_len held.new ≡ vec_len held.old }
    ensures capacity { vec_capacity held.old ≤ vec_capacity held.new }
{
    held.copy_within(front..end, 0);
}

// Reads a text once into the first `most` bytes. Says how many bytes that gave.
fn read_in<T: Texts>(
    texts: &mut T,
    number: usize,
    offset: u64,
    held: &mut [u8],
    most: usize,
) -> usize
    requires positive { 0 < most }
    requires fits { most ≤ length held.old }
    ensures bytes { ReadsAt (T.text texts.old number) offset result (take result held.new) }
    ensures bound { result ≤ most }
    ensures progress { IfSome (T.text texts.old number) (λ xs. result ≡ 0 → length xs ≤ offset) }
    ensures len { length held.new ≡ length held.old }
    ensures kept { (j : ℕ) → Keeps (T.text texts.old j) (T.text texts.new j) }
{
    texts.read_at(number, offset, &mut held[..most])
}
