//! Lines in a block of bytes: how many there are, and which of them have no match.
ghost use Rattle.std.specs.Prelude.{◌≡◌, ◌<◌, ◌≤◌, ◌⊎◌, ℕ, Contains, Some, drop, false, length, slice_get, take, true};
ghost use Rattle.std.specs.List.{count_by};
ghost use Rattle.sedspace.specs.Lines.{is_newline, HasNoNewline};
ghost use Rattle.sedspace.specs.Stream.{AreWholeLines};
ghost use Rattle.sedacts.specs.Idle.{ClearTo, IsExtent};

use sedmatch::{TableMatcher, Text};
use sedre::Steps;
use sedspace::whole_lines;

/// Bytes whose newlines are counted in one byte: the count then fits, and a vector counts in each of its lanes. They are whole
/// vectors, two at a time.
const PART: usize = 224;

/// The first lines of a block.
#[derive(Clone, Copy)]
pub struct Extent {
    /// How many bytes they have, with their newlines.
    pub bytes: usize,
    /// How many there are.
    pub lines: u64,
}

/// How many newlines a few bytes contain.
#[inline(always)]
fn count_few(bytes: &[u8]) -> u8
    requires { length bytes.now ≤ 224 }
    ensures { result ≡ count_by is_newline bytes.now }
{
    let mut count = 0;
    'bytes: for byte in bytes {
        if *byte == b'\n' {
            count += 1;
        }
    }
    count
}

/// How many newlines the bytes contain.
fn count_lines(bytes: &[u8]) -> usize
    ensures { result ≡ count_by is_newline bytes.now }
{
    let mut count = 0;
    let mut place = 0;
    'parts: while bytes.len() - place > PART {
        count += count_few(&bytes[place..place + PART]) as usize;
        place += PART;
    }
    count + count_few(&bytes[place..]) as usize
}

/// How many bytes the first `most` lines have, with their newlines.
fn first_lines(bytes: &[u8], most: u64) -> usize
    requires { most ≤ count_by is_newline bytes.now }
    ensures within { result ≤ length bytes.now }
    ensures whole { AreWholeLines (take result bytes.now) }
    ensures count { count_by is_newline (take result bytes.now) ≡ most }
{
    let mut count = 0;
    'bytes: for place in 0..bytes.len() {
        if count == most {
            return place;
        }
        if bytes[place] == b'\n' {
            count += 1;
        }
    }
    bytes.len()
}

/// How many bytes come before the first newline, or in all where there is none.
pub fn line_length(bytes: &[u8]) -> usize
    ensures clear { HasNoNewline (take result bytes.now) }
    ensures ends { (result ≡ length bytes.now) ⊎ (slice_get bytes.now result ≡ Some 10) }
{
    'bytes: for place in 0..bytes.len() {
        if bytes[place] == b'\n' {
            return place;
        }
    }
    bytes.len()
}

/// As many of these lines as are allowed.
pub fn extent_of(bytes: &[u8], most: u64) -> Extent
    requires { AreWholeLines bytes.now }
    ensures { IsExtent bytes.now most result }
{
    let lines = count_lines(bytes) as u64;
    if lines <= most {
        return Extent {
            bytes: bytes.len(),
            lines,
        };
    }
    Extent {
        bytes: first_lines(bytes, most),
        lines: most,
    }
}

/// A place of the text before which no line has a match of this expression.
fn clear_for(matchers: &Vec<TableMatcher>, e: usize, text: &[u8]) -> usize
    ensures within { result ≤ length text.now }
    ensures clear { ClearTo matchers.now.items e text.now result }
{
    match matchers.get(e) {
        None => text.len(),
        Some(matcher) => {
            let mut steps = Steps::new();
            match matcher.candidate(&Text::new(text), &mut steps) {
                Some(place) => place.min(text.len()),
                None => text.len(),
            }
        }
    }
}

/// A place of the text before which no line has a match of one of these expressions.
pub fn clear_end(matchers: &Vec<TableMatcher>, expressions: &[usize], text: &[u8]) -> usize
    ensures within { result ≤ length text.now }
    ensures clear { (e : ℕ) → Contains expressions.now e → ClearTo matchers.now.items e text.now result }
{
    let mut end = text.len();
    'each: for e in expressions {
        end = clear_for(matchers, *e, &text[..end]);
    }
    end
}

/// How many bytes are whole lines that end by `end`. Where the last line of the input is asked for, one that nothing follows
/// is left out: it may be the last.
pub fn lines_before(ahead: &[u8], end: usize, asks_last: bool) -> usize
    requires { end ≤ length ahead.now }
    ensures within { result ≤ end }
    ensures whole { AreWholeLines (take result ahead.now) }
    ensures all { asks_last ≡ false → HasNoNewline (drop result (take end ahead.now)) }
    ensures last { asks_last ≡ true → (result ≡ 0) ⊎ (result < length ahead.now) }
{
    let whole = whole_lines(&ahead[..end]);
    if !asks_last || whole < ahead.len() || whole == 0 {
        return whole;
    }
    whole_lines(&ahead[..whole - 1])
}
