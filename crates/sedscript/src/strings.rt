//! Strings between delimiters, as `s` and `y` have them.

ghost use Rattle.std.specs.Prelude.{◌≡◌, ◌≤◌, ◌<◌, ◌+◌, length, drop, false, IfSome};
ghost use Rattle.sedscript.specs.Bytes.{bytes_between};
ghost use Rattle.sedscript.specs.Strings.{escapes, string_end};

use crate::bytes::bytes_between;
use crate::items::Strings;

/// Whether a byte is a backslash that escapes the next one, given whether it is escaped itself.
pub fn escapes(escaped: bool, b: u8) -> bool
    ensures { result ≡ escapes escaped b }
{
    b == b'\\' && !escaped
}

/// Where the string that begins at a place ends: at a delimiter; `None` where a newline or the end comes first.
/// Where it `breaks`, a newline after a backslash belongs to it.
pub fn string_end(text: &[u8], breaks: bool, delimiter: u8, from: usize) -> Option<usize>
    requires { from ≤ length text.now }
    ensures is { result ≡ string_end breaks delimiter false from (drop from text.now) }
    ensures bounds { IfSome result (λ to. (from ≤ to) × (to < length text.now)) }
{
    let mut escaped = false;
    let mut at = from;
    'bytes: while at < text.len() {
        let b = text[at];
        if b == b'\n' && !(breaks && escaped) {
            return None;
        }
        if b == delimiter && !escaped {
            return Some(at);
        }
        escaped = escapes(escaped, b);
        at += 1;
    }
    None
}

/// The second of two strings.
pub fn second_of(text: &[u8], strings: Strings) -> &[u8]
    ensures { result.now ≡ bytes_between text.now (strings.middle + 1) strings.to }
{
    if strings.to <= strings.middle {
        return &[];
    }
    bytes_between(text, strings.middle + 1, strings.to)
}
