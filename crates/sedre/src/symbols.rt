//! Which symbols are in a text.
ghost use Rattle.std.specs.Prelude.{◌≡◌, ◌<◌, ◌≤◌, ◌+◌, ℕ, List, [], ◌∷◌, None, Some, length, drop, IfSome};
ghost use Rattle.sedre.specs.Tokens.{operator, alone, alone_in_both, escaped, escaped_literal, front_symbol};

use crate::syntax::Symbol;
use crate::types::{ExprReason, Kind};

/// An operator that has no backslash in an extended expression and after one in a basic one, else `other`.
fn operator(b: u8, other: Symbol) -> Symbol
    ensures { result ≡ operator b other }
{
    match b {
        b'(' => Symbol::Opening,
        b')' => Symbol::Closing,
        b'|' => Symbol::Parting,
        b'+' => Symbol::Plus,
        b'?' => Symbol::Question,
        b'{' => Symbol::Interval,
        _ => other,
    }
}

/// The symbols that both kinds share, where no backslash comes before them; any other byte is a literal here.
fn alone_in_both(b: u8) -> Symbol
    ensures { result ≡ alone_in_both b }
{
    match b {
        b'*' => Symbol::Star,
        b'.' => Symbol::AnyByte,
        b'[' => Symbol::BracketOpening,
        b'^' => Symbol::Caret,
        b'$' => Symbol::Dollar,
        _ => Symbol::Literal(b),
    }
}

/// What a byte means with no backslash before it.
fn alone(kind: Kind, b: u8) -> Symbol
    ensures { result ≡ alone kind b }
{
    match kind {
        Kind::Basic => alone_in_both(b),
        Kind::Extended => operator(b, alone_in_both(b)),
    }
}

/// What a byte means after a backslash, if the two are no operator.
fn escaped_literal(b: u8) -> Symbol
    ensures { result ≡ escaped_literal b }
{
    match b {
        b'n' => Symbol::Literal(b'\n'),
        b't' => Symbol::Literal(b'\t'),
        b'1'..=b'9' => Symbol::Unknown(ExprReason::BackReference),
        b'A'..=b'Z' | b'a'..=b'z' | b'0' | b'<' | b'>' | b'\'' | b'`' => {
            Symbol::Unknown(ExprReason::UnknownEscape)
        }
        _ => Symbol::Literal(b),
    }
}

/// What a byte means after a backslash.
fn escaped(kind: Kind, b: u8) -> Symbol
    ensures { result ≡ escaped kind b }
{
    match kind {
        Kind::Basic if b == b'}' => Symbol::IntervalEnd,
        Kind::Basic => operator(b, escaped_literal(b)),
        Kind::Extended => escaped_literal(b),
    }
}

/// The symbol of the last byte of a text.
fn last(kind: Kind, b: u8) -> Symbol
    ensures { front_symbol kind None (b ∷ []) ≡ Some (result, 1) }
{
    if b == b'\\' {
        Symbol::Unknown(ExprReason::LastBackslash)
    } else {
        alone(kind, b)
    }
}

/// The symbol of the byte `b`, which `c` follows, and how many bytes it has.
fn before(kind: Kind, delimiter: Option<u8>, b: u8, c: u8) -> (Symbol, usize)
    ensures symbol { (rest : List ℕ) → front_symbol kind delimiter (b ∷ c ∷ rest) ≡ Some result }
    ensures width { (0 < result.1) × (result.1 ≤ 2) }
{
    if b != b'\\' {
        (alone(kind, b), 1)
    } else if delimiter == Some(c) {
        (Symbol::Literal(c), 2)
    } else {
        (escaped(kind, c), 2)
    }
}

/// The symbol at `at` and how many bytes it has; None at the end of the text.
pub fn symbol_at(
    kind: Kind,
    delimiter: Option<u8>,
    text: &[u8],
    at: usize,
) -> Option<(Symbol, usize)>
    requires { at ≤ length text.now }
    ensures symbol { result ≡ front_symbol kind delimiter (drop at text.now) }
    ensures width { IfSome result (λ found. (0 < found.1) × (at + found.1 ≤ length text.now)) }
{
    match &text[at..] {
        [] => None,
        [b] => Some((last(kind, *b), 1)),
        [b, c, ..] => Some(before(kind, delimiter, *b, *c)),
    }
}
