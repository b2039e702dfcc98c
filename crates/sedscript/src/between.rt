//! What is between delimiters after `s` and `y`.

ghost use Rattle.std.specs.Prelude.{◌≡◌, ◌≢◌, ◌≤◌, ◌<◌, ◌+◌, false, Some, length, slice_get, if◌then◌else◌, IfOk, IfSome};
ghost use Rattle.sedscript.specs.Arguments.{own_delimiter, strings_after, substitute_strings, transliterate_strings, flags_after, folds};
ghost use Rattle.sedscript.specs.Answers.{AreStrings};

use crate::bytes::byte_at;
use crate::flags::flags_at;
use crate::items::Strings;
use crate::strings::string_end;
use crate::types::{Reason, ScriptFault};
use sedre::delimited;

/// The byte, if it may be a delimiter: neither a backslash nor a newline.
pub fn own_delimiter(b: Option<u8>) -> Option<u8>
    ensures is { result ≡ own_delimiter b }
    ensures some { IfSome result (λ d. b ≡ Some d) }
    ensures may { IfSome result (λ d. (d ≢ 92) × (d ≢ 10)) }
{
    let b = b?;
    if b == b'\\' || b == b'\n' {
        None
    } else {
        Some(b)
    }
}

/// The two strings after the delimiter at `place`. The first ends at `first`, where the next delimiter is, if there
/// is one. Where it `breaks`, the second may have a newline after a backslash.
fn strings_after(
    text: &[u8],
    breaks: bool,
    delimiter: u8,
    place: usize,
    first: Option<usize>,
) -> Result<Strings, ScriptFault>
    requires delimiter { (delimiter ≢ 92) × (delimiter ≢ 10) }
    requires first { IfSome first (λ middle. (place < middle) × (middle < length text.now)) }
    ensures is { result ≡ strings_after text.now breaks delimiter place first }
    ensures within { IfOk result (AreStrings (place + 1) (length text.now)) }
{
    let Some(middle) = first else {
        return Err(Reason::OpenDelimiter.at(place));
    };
    match string_end(text, breaks, delimiter, middle + 1) {
        None => Err(Reason::OpenDelimiter.at(middle)),
        Some(to) => Ok(Strings {
            delimiter,
            from: place + 1,
            middle,
            to,
        }),
    }
}

/// The strings whose first delimiter is at a place: a regular expression and a replacement, as `s` has them, where the
/// second `breaks`, or those of `y`.
pub fn strings_at(text: &[u8], breaks: bool, place: usize) -> Result<Strings, ScriptFault>
    requires { place ≤ length text.now }
    ensures is { result ≡ (if breaks then substitute_strings text.now place (own_delimiter (slice_get text.now place))
        else transliterate_strings text.now place (own_delimiter (slice_get text.now place))) }
    ensures within { IfOk result (AreStrings (place + 1) (length text.now)) }
{
    match own_delimiter(byte_at(text, place)) {
        None => Err(Reason::BadDelimiter.at(place)),
        Some(delimiter) => if breaks {
            let middle = delimited(text, place + 1, delimiter);
            strings_after(text, true, delimiter, place, middle)
        } else {
            let middle = string_end(text, false, delimiter, place + 1);
            strings_after(text, false, delimiter, place, middle)
        },
    }
}

/// Whether the flags of `s`, whose regular expression isn't empty, make letters match without regard to case. They
/// come after the expression but are examined before it is read; its faults are reported before theirs.
pub fn folds(text: &[u8], strings: Strings) -> bool
    requires { strings.to < length text.now }
    ensures { result ≡ folds (flags_after text.now strings false) }
{
    match flags_at(text, false, strings.to + 1) {
        Ok((flags, _)) => flags.folded,
        Err(_) => false,
    }
}
