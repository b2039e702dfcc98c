//! Places of a text.

ghost use Rattle.std.specs.Prelude.{◌≡◌, ◌≤◌, ◌<◌, ◌+◌, Some, length, slice_get};
ghost use Rattle.sedscript.specs.Bytes.{belongs, past, bytes_between, with_digit, with_digits};

/// Bytes that are passed over together.
#[derive(Clone, Copy)]
pub enum Sort {
    /// A space or a tab.
    Blank,
    /// What may come between commands: blanks, newlines and semicolons.
    Separator,
    /// `!`, and the blanks around it.
    Bang,
    /// A decimal digit.
    Digit,
    /// A byte of a label's name.
    Name,
    /// Any byte but a newline.
    Line,
}

/// Whether the byte is a space or a tab.
pub fn is_blank(b: u8) -> bool
    ensures { result ≡ Rattle.sedscript.specs.Bytes.is_blank b }
{
    b == b' ' || b == b'\t'
}

/// Whether a byte is of the sort.
fn belongs(sort: Sort, b: u8) -> bool
    ensures { result ≡ belongs sort b }
{
    match sort {
        Sort::Blank => is_blank(b),
        Sort::Separator => is_blank(b) || b == b'\n' || b == b';',
        Sort::Bang => is_blank(b) || b == b'!',
        Sort::Digit => b.is_ascii_digit(),
        Sort::Name => !(is_blank(b) || b == b'\n' || b == b';' || b == b'}'),
        Sort::Line => b != b'\n',
    }
}

/// The byte at a place; None at the end.
pub fn byte_at(text: &[u8], at: usize) -> Option<u8>
    ensures { result ≡ slice_get text.now at }
{
    text.get(at).copied()
}

/// Whether the byte that was found is `b`.
pub fn is_byte(b: u8, found: Option<u8>) -> bool
    ensures { result ≡ Rattle.sedscript.specs.Bytes.is_byte b found }
{
    match found {
        None => false,
        Some(c) => c == b,
    }
}

/// The first place from `at` on whose byte isn't of the sort, or the end of the text.
#[tactic(auto, unfolding(crate::specs::Bytes::past))]
pub fn past(sort: Sort, text: &[u8], at: usize) -> usize
    requires { at ≤ length text.now }
    ensures is { result ≡ past sort text.now at }
    ensures within { (at ≤ result) × (result ≤ length text.now) }
{
    let mut next = at;
    'bytes: while next < text.len() {
        if !belongs(sort, text[next]) {
            return next;
        }
        next += 1;
    }
    next
}

/// The bytes from `from` up to `to`, or those of them that the text has.
pub fn bytes_between(text: &[u8], from: usize, to: usize) -> &[u8]
    ensures { result.now ≡ bytes_between text.now from to }
{
    if to <= from || text.len() <= from {
        &[]
    } else if text.len() <= to {
        &text[from..]
    } else {
        &text[from..to]
    }
}

/// The number with one digit more at its end, if it is below 2^64.
fn with_digit(n: Option<u64>, d: u8) -> Option<u64>
    ensures { result ≡ with_digit n d }
{
    let digit = d.saturating_sub(b'0') as u64;
    n?.checked_mul(10)?.checked_add(digit)
}

/// The number that these decimal digits write, if it is below 2^64.
pub fn number_of(digits: &[u8]) -> Option<u64>
    ensures { result ≡ with_digits (Some 0) digits.now }
{
    let mut n = Some(0);
    let mut at = 0;
    'digits: while at < digits.len() {
        n = with_digit(n, digits[at]);
        at += 1;
    }
    n
}
