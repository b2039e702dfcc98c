//! What stands for the bytes of a field.
//!
//! | written | stands for |
//! |---|---|
//! | `%n`, `%t`, `%s`, `%%` | a newline, a tab, a blank, a `%` |
//! | `%x1b` | the byte of this number |
//! | `%e` | nothing: a field without bytes |
//! | `%600{ab}` | 600 copies of what is in the braces |
//! | `%+`, `%-` | within the braces, the number of the copy, from 0 upwards or down to 0 |
//!
//! Any other byte stands for itself, a backslash too, so that an expression or a script stands as it is typed.

use crate::options::parted;
use crate::shape::number_in;
use crate::sheet::Sheet;
use std::alloc::Global;

/// The most copies of one part, so that a mistake in a table doesn't take all memory.
const MAX_COPIES: usize = 10_000_000;

/// The bytes that a field stands for. None where an escape means nothing, or isn't closed, and for want of memory.
pub(crate) fn decoded(alloc: Global, written: &[u8]) -> Option<Vec<u8>> {
    let mut sheet = Sheet::new(alloc);
    put_field(&mut sheet, written)?;
    if sheet.is_whole {
        Some(sheet.bytes)
    } else {
        None
    }
}

/// Writes what a field stands for. None where an escape means nothing, or isn't closed.
fn put_field(sheet: &mut Sheet, written: &[u8]) -> Option<()> {
    let mut rest = written;
    for _ in 0..written.len() {
        rest = match rest {
            [b'%', b'0'..=b'9', ..] => put_copies(sheet, &rest[1..])?,
            _ => put_item(sheet, rest, None)?,
        };
    }
    Some(())
}

/// Writes the copies that a number asks for of what is in braces after it. Gives what follows them.
fn put_copies<'a>(sheet: &mut Sheet, written: &'a [u8]) -> Option<&'a [u8]> {
    if let Some((count, rest)) = parted(written, b'{')
        && let Some((part, rest)) = parted(rest, b'}')
        && let Some(count) = number_in(count)
        && count <= MAX_COPIES
    {
        for number in 0..count {
            let mut left = part;
            for _ in 0..part.len() {
                left = put_item(sheet, left, Some((number, count - number - 1)))?;
            }
        }
        return Some(rest);
    }
    None
}

/// Writes what the first byte or escape stands for, if there is one; in a copy where its number, and how many follow it, are
/// given. Gives what follows.
fn put_item<'a>(
    sheet: &mut Sheet,
    written: &'a [u8],
    turn: Option<(usize, usize)>,
) -> Option<&'a [u8]> {
    match written {
        [b'%', b'x', high, low, rest @ ..] => {
            let (high, low) = (digit_of(*high)?, digit_of(*low)?);
            sheet.put_byte(high.wrapping_mul(16).wrapping_add(low));
            Some(rest)
        }
        [b'%', letter, rest @ ..] => {
            put_escape(sheet, *letter, turn)?;
            Some(rest)
        }
        [b'%'] => None,
        [b, rest @ ..] => {
            sheet.put_byte(*b);
            Some(rest)
        }
        [] => Some(written),
    }
}

/// Writes what a letter after a `%` stands for.
fn put_escape(sheet: &mut Sheet, letter: u8, turn: Option<(usize, usize)>) -> Option<()> {
    match letter {
        b'n' => sheet.put_byte(b'\n'),
        b't' => sheet.put_byte(b'\t'),
        b's' => sheet.put_byte(b' '),
        b'%' => sheet.put_byte(b'%'),
        b'+' => sheet.put_text(turn?.0),
        b'-' => sheet.put_text(turn?.1),
        b'e' => {}
        _ => return None,
    }
    Some(())
}

/// What a hexadecimal digit stands for.
fn digit_of(b: u8) -> Option<u8> {
    match b {
        b'0'..=b'9' => Some(b.wrapping_sub(b'0')),
        b'a'..=b'f' => Some(b.wrapping_sub(b'a').wrapping_add(10)),
        _ => None,
    }
}
