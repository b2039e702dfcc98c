//! Where an expression between delimiters ends (XCU sed, "Regular Expressions in sed").
ghost use Rattle.std.specs.Prelude.{◌≡◌, ◌≢◌, ◌<◌, ◌≤◌, ◌+◌, ◌==◌, length, drop, IfSome};
ghost use Rattle.std.specs.List.{list_any};
ghost use Rattle.sedre.specs.Brackets.{delimiter_at, next_place};

use crate::brackets::list_end;

/// The place of the delimiter that ends the expression which begins at `at`: the first one that is neither after a
/// backslash nor in a bracket expression. None where a newline or the end of the text comes first, and where `at` is
/// past the text. Condition: the delimiter is neither a backslash nor a newline.
///
/// Bracket expressions are read by their own rules, so `[[:x]/` has no end; faults in them are not reported
/// here. A `[` that is the delimiter ends the expression.
pub fn delimited(text: &[u8], at: usize, delimiter: u8) -> Option<usize>
    requires not_backslash { delimiter ≢ 92 }
    requires not_newline { delimiter ≢ 10 }
    ensures is { result ≡ delimiter_at text.now at delimiter }
    ensures within { IfSome result (λ to. (at ≤ to) × (to < length text.now)) }
{
    let mut place = at;
    while place < text.len() {
        let b = text[place];
        if b == delimiter {
            return Some(place);
        }
        let next = next_place(text, place, delimiter)?;
        if has_newline(&text[place..next]) {
            return None;
        }
        place = next;
    }
    None
}

/// The place after what is at `at`: an escape, a bracket expression or a byte; None where the text ends before
/// that.
fn next_place(text: &[u8], at: usize, delimiter: u8) -> Option<usize>
    requires { at < length text.now }
    ensures is { result ≡ next_place delimiter at (drop at text.now) }
    ensures within { IfSome result (λ to. (at < to) × (to ≤ length text.now)) }
{
    match text[at] {
        b'\\' if at + 1 < text.len() => Some(at + 2),
        b'\\' => None,
        b'[' => list_end(Some(delimiter), text, at),
        _ => Some(at + 1),
    }
}

/// Whether a newline is in the bytes.
fn has_newline(bytes: &[u8]) -> bool
    ensures { result ≡ list_any (λ b. b == 10) bytes.now }
{
    bytes.contains(&b'\n')
}
