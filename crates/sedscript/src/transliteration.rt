//! The strings of `y`.

ghost use Rattle.std.specs.Prelude.{◌≡◌, ◌≤◌, ◌<◌, ◌+◌, ℕ, List, [], ◌∷◌, true, false, length, IfOk};
ghost use Rattle.std.specs.List.{range_with_len};
ghost use Rattle.sedscript.specs.Bytes.{bytes_between};
ghost use Rattle.sedscript.specs.Strings.{escaped_byte, char_of, chars_from, bytes_of, string_fault, is_among, repeated_in, strings_fault, table_of};
ghost use Rattle.sedscript.specs.Answers.{marks_of_bytes};
ghost use Rattle.sedscript.specs.Script.{table_between};

use crate::bytes::bytes_between;
use crate::functions::fault_if;
use crate::items::Strings;
use crate::strings::{escapes, second_of};
use crate::types::{Reason, ScriptFault};
use std::alloc::{AllocError, Global};

/// A byte of a string, and the place where it or its backslash is.
#[derive(Clone, Copy)]
pub struct Char {
    pub byte: u8,
    pub place: usize,
}

/// What this byte stands for where it is escaped, if it may be.
fn escaped_byte(delimiter: u8, b: u8) -> Option<u8>
    ensures { result ≡ escaped_byte delimiter b }
{
    if b == delimiter || b == b'\\' {
        Some(b)
    } else if b == b'n' {
        Some(b'\n')
    } else if b == b't' {
        Some(b'\t')
    } else {
        None
    }
}

/// The byte that a string has where its text has `b` at `at`, `escaped` or not. None for a backslash, which begins an
/// escape, and for an escape that is refused.
fn char_of(delimiter: u8, escaped: bool, at: usize, b: u8) -> Option<Char>
    requires { escaped ≡ true → 1 ≤ at }
    ensures { result ≡ char_of delimiter escaped at b }
{
    if escaped {
        let byte = escaped_byte(delimiter, b)?;
        Some(Char {
            byte,
            place: at - 1,
        })
    } else if b == b'\\' {
        None
    } else {
        Some(Char { byte: b, place: at })
    }
}

/// The first escape that is refused in the string that begins at `from`, if there is one.
fn string_fault(bytes: &[u8], delimiter: u8, from: usize) -> Option<ScriptFault>
    requires { from + length bytes.now ≤ usize.MAX }
    ensures { result ≡ string_fault delimiter false from bytes.now }
{
    let mut escaped = false;
    let mut k = 0;
    'bytes: while k < bytes.len() {
        let b = bytes[k];
        if escaped && escaped_byte(delimiter, b).is_none() {
            return Some(Reason::BadEscape.at(from + k - 1));
        }
        escaped = escapes(escaped, b);
        k += 1;
    }
    None
}

/// Notes a byte, and says whether it was noted before.
fn note(seen: &mut [bool; 256], b: u8) -> bool
    ensures { (before : List ℕ) → seen.old ≡ marks_of_bytes before →
        (result ≡ is_among before b) × (seen.new ≡ marks_of_bytes (b ∷ before)) }
{
    let at = usize::from(b);
    let noted = seen[at];
    seen[at] = true;
    noted
}

/// The place of the first byte that occurs a second time in the string that begins at `from`, if there is one.
fn repeated(bytes: &[u8], delimiter: u8, from: usize) -> Option<usize>
    requires { from + length bytes.now ≤ usize.MAX }
    ensures { result ≡ repeated_in [] (chars_from delimiter false from bytes.now) }
{
    let mut seen = [false; 256];
    let mut escaped = false;
    let mut k = 0;
    'bytes: while k < bytes.len() {
        let b = bytes[k];
        if let Some(found) = char_of(delimiter, escaped, from + k, b) {
            if note(&mut seen, found.byte) {
                return Some(found.place);
            }
        }
        escaped = escapes(escaped, b);
        k += 1;
    }
    None
}

/// How many bytes the string has that begins at `from`.
fn count(bytes: &[u8], delimiter: u8, from: usize) -> usize
    requires { from + length bytes.now ≤ usize.MAX }
    ensures { result ≡ length (chars_from delimiter false from bytes.now) }
{
    let mut count = 0;
    let mut escaped = false;
    let mut k = 0;
    'bytes: while k < bytes.len() {
        let b = bytes[k];
        if char_of(delimiter, escaped, from + k, b).is_some() {
            count += 1;
        }
        escaped = escapes(escaped, b);
        k += 1;
    }
    count
}

/// The first fault of the strings of a `y` whose letter is at `letter`, if they have one.
pub fn strings_fault(text: &[u8], strings: Strings, letter: usize) -> Option<ScriptFault>
    requires { (strings.from ≤ strings.middle) × (strings.middle < strings.to) × (strings.to ≤ length text.now) }
    ensures { result ≡ strings_fault text.now strings.delimiter letter strings.from strings.middle strings.to }
{
    let Strings {
        delimiter,
        from,
        middle,
        to,
    } = strings;
    let string1 = bytes_between(text, from, middle);
    let string2 = bytes_between(text, middle + 1, to);
    if let Some(fault) = string_fault(string1, delimiter, from) {
        return Some(fault);
    }
    if let Some(fault) = string_fault(string2, delimiter, middle + 1) {
        return Some(fault);
    }
    if let Some(place) = repeated(string1, delimiter, from) {
        return Some(Reason::RepeatedByte.at(place));
    }
    let differ = count(string1, delimiter, from) != count(string2, delimiter, middle + 1);
    fault_if(differ, Reason::LengthsDiffer, letter)
}

/// The bytes of a string, with each escape as the byte that it stands for.
fn bytes_of(alloc: Global, bytes: &[u8], delimiter: u8) -> Result<Vec<u8>, AllocError>
    ensures { IfOk result (λ v. v.items ≡ bytes_of (chars_from delimiter false 0 bytes.now)) }
{
    let mut string = Vec::new(alloc);
    let mut escaped = false;
    let mut k = 0;
    'bytes: while k < bytes.len() {
        let b = bytes[k];
        if let Some(found) = char_of(delimiter, escaped, k, b) {
            string.push(found.byte)?;
        }
        escaped = escapes(escaped, b);
        k += 1;
    }
    Ok(string)
}

/// All bytes, each at its own place.
fn all_bytes(alloc: Global) -> Result<Vec<u8>, AllocError>
    ensures { IfOk result (λ v. v.items ≡ range_with_len 0 256) }
{
    let mut bytes = Vec::new(alloc);
    for b in 0..=255 {
        bytes.push(b)?;
    }
    Ok(bytes)
}

/// The table of a `y` with these strings: what stands for each byte.
fn table_from(alloc: Global, string1: &[u8], string2: &[u8]) -> Result<Vec<u8>, AllocError>
    ensures { IfOk result (λ v. v.items ≡ table_of string1.now string2.now) }
{
    let mut table = all_bytes(alloc)?;
    let mut k = string1.len().min(string2.len());
    'pairs: while k > 0 {
        k -= 1;
        table[usize::from(string1[k])] = string2[k];
    }
    Ok(table)
}

/// The table of a `y`, whose strings are in the text: what stands for each byte.
pub fn table_between(alloc: Global, text: &[u8], strings: Strings) -> Result<Vec<u8>, AllocError>
    ensures { IfOk result (λ v. v.items ≡ table_between text.now strings) }
{
    let delimiter = strings.delimiter;
    let string1 = bytes_of(
        alloc,
        bytes_between(text, strings.from, strings.middle),
        delimiter,
    )?;
    let string2 = bytes_of(alloc, second_of(text, strings), delimiter)?;
    table_from(alloc, &string1, &string2)
}
