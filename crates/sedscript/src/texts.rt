//! The texts of `a`, `i` and `c` as they are written.

ghost use Rattle.std.specs.Prelude.{◌≡◌, ◌≤◌, ◌<◌, ◌+◌, length, drop, IfSome};
ghost use Rattle.sedscript.specs.Arguments.{text_end, ends_text, inside_after, text_from};

use crate::bytes::{byte_at, is_byte};

/// Where the next byte of a text is.
#[derive(Clone, Copy)]
pub enum Inside {
    /// Within a line.
    InLine,
    /// After a backslash that escapes the next byte.
    Escape,
    /// Where a further line has to follow.
    Due,
}

/// Whether a text ends before this byte.
fn stops(inside: Inside, b: u8) -> bool
    ensures { result ≡ ends_text inside b }
{
    match inside {
        Inside::Escape => false,
        Inside::InLine | Inside::Due => b == b'\n',
    }
}

/// Where the byte after this one is.
fn inside_after(inside: Inside, b: u8) -> Inside
    ensures { result ≡ inside_after inside b }
{
    match inside {
        Inside::Escape => if b == b'\n' {
            Inside::Due
        } else {
            Inside::InLine
        },
        Inside::InLine | Inside::Due => if b == b'\\' {
            Inside::Escape
        } else {
            Inside::InLine
        },
    }
}

/// The end of a text whose rest begins at `from`; None where a further line has to follow and doesn't.
fn text_end(text: &[u8], start: Inside, from: usize) -> Option<usize>
    requires { from ≤ length text.now }
    ensures is { result ≡ text_end start from (drop from text.now) }
    ensures bounds { IfSome result (λ to. (from ≤ to) × (to ≤ length text.now)) }
{
    let mut inside = start;
    let mut at = from;
    'bytes: while at < text.len() {
        if stops(inside, text[at]) {
            return Some(at);
        }
        inside = inside_after(inside, text[at]);
        at += 1;
    }
    match inside {
        Inside::InLine => Some(at),
        Inside::Escape | Inside::Due => None,
    }
}

/// Where the text that is expected at `from`, after the blanks that follow its letter, begins and ends; None where it is
/// missing.
#[tactic(auto, unfolding(crate::specs::Arguments::text_from))]
pub fn text_from(text: &[u8], from: usize) -> Option<(usize, usize)>
    requires { from ≤ length text.now }
    ensures is { result ≡ text_from text.now from }
    ensures bounds { IfSome result (λ span. (from ≤ span.0) × (span.0 ≤ span.1) × (span.1 ≤ length text.now)) }
{
    if is_byte(b'\\', byte_at(text, from)) && is_byte(b'\n', byte_at(text, from + 1)) {
        let to = text_end(text, Inside::Due, from + 2)?;
        Some((from + 2, to))
    } else if byte_at(text, from).unwrap_or(b'\n') == b'\n' {
        None
    } else {
        let to = text_end(text, Inside::InLine, from)?;
        Some((from, to))
    }
}
