//! Interval expressions (XBD 9.3.6, 9.4.6).
ghost use Rattle.std.specs.Prelude.{◌≡◌, ◌≤◌, ◌+◌, min, length, IfSome, Some};
ghost use Rattle.std.specs.List.{prefix_len};
ghost use Rattle.std.specs.Bool.{OnTrue};
ghost use Rattle.sedre.specs.Sets.{is_digit};
ghost use Rattle.sedre.specs.Tokens.{decimal, numeral, closes, closing_width, limit, front_interval};
ghost use Rattle.sedre.specs.Brackets.{is_at_front};

use crate::types::Kind;

/// The bounds of a repetition, and how many bytes these and the closing have.
#[derive(Clone, Copy)]
pub struct Interval {
    pub least: u8,
    pub most: Option<u8>,
    pub width: usize,
}

/// How many digits are at the front.
fn digits(front: &[u8]) -> usize
    ensures is { result ≡ prefix_len is_digit front.now }
    ensures within { result ≤ length front.now }
{
    front.iter().take_while(|b| b.is_ascii_digit()).count()
}

/// The number that the digits write, or 256 where it is greater.
fn decimal(digits: &[u8]) -> u16
    ensures { result ≡ min 256 (decimal 0 digits.now) }
{
    let mut value: u16 = 0;
    for digit in digits {
        value = (10 * value + digit.saturating_sub(b'0') as u16).min(256);
    }
    value
}

/// The number at the front and how many digits it has, if one is there that is at most 255.
fn numeral(front: &[u8]) -> Option<(u8, usize)>
    ensures is { result ≡ numeral front.now }
    ensures within { IfSome result (λ found. found.1 ≤ length front.now) }
{
    let digits = digits(front);
    let value = decimal(&front[..digits]);
    if digits == 0 || value > 255 {
        None
    } else {
        Some((value as u8, digits))
    }
}

/// Whether this byte is at the front.
fn begins(front: &[u8], b: u8) -> bool
    ensures { result ≡ is_at_front front.now b }
{
    matches!(front, [c, ..] if *c == b)
}

/// Whether the interval closes at the front.
fn closes(kind: Kind, delimiter: Option<u8>, front: &[u8]) -> bool
    ensures is { result ≡ closes kind delimiter front.now }
    ensures width { OnTrue result (closing_width kind ≤ length front.now) }
{
    match kind {
        Kind::Basic => matches!(front, [b'\\', b'}', ..]) && delimiter != Some(b'}'),
        Kind::Extended => begins(front, b'}'),
    }
}

/// How many bytes the closing has.
fn closing_width(kind: Kind) -> usize
    ensures { result ≡ closing_width kind }
{
    match kind {
        Kind::Basic => 2,
        Kind::Extended => 1,
    }
}

/// The interval with this first number of so many digits, if `front`, what follows its comma, ends it: by the closing,
/// or by a limit that is not below the first number and then the closing.
fn limit(
    kind: Kind,
    delimiter: Option<u8>,
    least: u8,
    digits: usize,
    front: &[u8],
) -> Option<Interval>
    requires { digits + 1 + length front.now ≤ usize.MAX }
    ensures is { result ≡ limit kind delimiter least digits front.now (numeral front.now) }
    ensures within { IfSome result (λ found. found.width ≤ digits + 1 + length front.now) }
{
    let Some((most, more)) = numeral(front) else {
        return if closes(kind, delimiter, front) {
            Some(Interval {
                least,
                most: None,
                width: digits + 1 + closing_width(kind),
            })
        } else {
            None
        };
    };
    if closes(kind, delimiter, &front[more..]) && least <= most {
        Some(Interval {
            least,
            most: Some(most),
            width: digits + 1 + more + closing_width(kind),
        })
    } else {
        None
    }
}

/// The interval whose opening comes before `front`, if it is one.
#[tactic(auto, unfolding(crate::specs::Tokens::front_interval))]
pub fn interval_at(kind: Kind, delimiter: Option<u8>, front: &[u8]) -> Option<Interval>
    ensures is { result ≡ front_interval kind delimiter front.now }
    ensures within { IfSome result (λ found. found.width ≤ length front.now) }
{
    let (least, digits) = numeral(front)?;
    let rest = &front[digits..];
    if closes(kind, delimiter, rest) {
        return Some(Interval {
            least,
            most: Some(least),
            width: digits + closing_width(kind),
        });
    }
    if !begins(rest, b',') {
        return None;
    }
    limit(kind, delimiter, least, digits, &rest[1..])
}
