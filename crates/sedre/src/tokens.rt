//! Which tokens are in a text.
ghost use Rattle.std.specs.Prelude.{◌≡◌, ◌<◌, ◌≤◌, ◌+◌, length};
ghost use Rattle.std.specs.Option.{ForSome};
ghost use Rattle.sedre.specs.Sets.{only};
ghost use Rattle.sedre.specs.Tokens.{front_symbol, front_interval, is_leading, is_repeatable, is_repeat, ends_alternative, token_fault, repeats, interval_token, list_token, star_item, question_item, anchor_item, token_at};
ghost use Rattle.sedre.specs.Finished.{IsTokenAfter};

use crate::brackets::list_at;
use crate::byte_set::ByteSet;
use crate::intervals::{Interval, interval_at};
use crate::symbols::symbol_at;
use crate::syntax::{NextToken, Symbol, Token};
use crate::types::{ExprFault, ExprReason, Kind};

/// Whether a token after this one comes first in its alternative.
fn is_first(before: &Option<Token>) -> bool
    ensures { result ≡ is_leading before.now }
{
    matches!(before, None | Some(Token::Open | Token::Bar))
}

/// Whether this token can be repeated.
fn is_repeatable(before: &Option<Token>) -> bool
    ensures { result ≡ is_repeatable before.now }
{
    matches!(
        before,
        Some(Token::Byte(_) | Token::Close | Token::Repeat(..))
    )
}

/// Whether this token is a repetition.
fn is_repeat(before: &Option<Token>) -> bool
    ensures { result ≡ is_repeat before.now }
{
    matches!(before, Some(Token::Repeat(..)))
}

/// Whether an alternative ends before this symbol; None is the end of the text.
fn ends_alternative(symbol: Option<(Symbol, usize)>) -> bool
    ensures { result ≡ ends_alternative symbol }
{
    matches!(symbol, None | Some((Symbol::Closing | Symbol::Parting, _)))
}

/// A fault at `place`.
fn fault(place: usize, reason: ExprReason) -> NextToken
    ensures { result ≡ token_fault place reason }
{
    NextToken::Bad(ExprFault { place, reason })
}

/// The token of a literal byte that is no letter.
fn literal(b: u8, next: usize) -> NextToken
    ensures { result ≡ NextToken.Is (Token.Byte (only b)) next }
{
    NextToken::Is(Token::Byte(ByteSet::only(b)), next)
}

/// The repetition, if what comes before it may be repeated; otherwise a fault at `at`.
fn repeats(may: bool, at: usize, repeat: NextToken) -> NextToken
    ensures { result ≡ repeats may at repeat }
{
    if may {
        repeat
    } else {
        fault(at, ExprReason::NothingToRepeat)
    }
}

/// The token of a `*` at `at`, where what comes before it may be repeated or may not.
fn star_item(kind: Kind, may: bool, at: usize, next: usize) -> NextToken
    ensures { result ≡ star_item kind may at next }
{
    let repeat = NextToken::Is(Token::Repeat(0, None), next);
    match kind {
        Kind::Basic => if may { repeat } else { literal(b'*', next) },
        Kind::Extended => repeats(may, at, repeat),
    }
}

/// The token of a `?` or `\?` at `at`, where what comes before it may be repeated or may not, and is a repetition or
/// not.
fn question_item(kind: Kind, may: bool, repeated: bool, at: usize, next: usize) -> NextToken
    ensures { result ≡ question_item kind may repeated at next }
{
    let repeat = NextToken::Is(Token::Repeat(0, Some(1)), next);
    match kind {
        Kind::Basic => repeats(may, at, repeat),
        Kind::Extended => repeats(may && !repeated, at, repeat),
    }
}

/// The token of an interval at `at`, or a fault there.
fn interval_token(interval: Option<Interval>, at: usize, next: usize) -> NextToken
    requires { ForSome interval (λ found. next + found.width ≤ usize.MAX) }
    ensures { result ≡ interval_token interval at next }
{
    match interval {
        None => fault(at, ExprReason::BadInterval),
        Some(found) => NextToken::Is(Token::Repeat(found.least, found.most), next + found.width),
    }
}

/// The token of a bracket expression, or its fault.
fn list_token(list: Result<(ByteSet, usize), ExprFault>) -> NextToken
    ensures { result ≡ list_token list }
{
    match list {
        Ok((members, next)) => NextToken::Is(Token::Byte(members), next),
        Err(token_fault) => NextToken::Bad(token_fault),
    }
}

/// The token of a `^` or a `$`, the byte `b`: the anchor, but in a basic expression a literal where no anchor `stands`.
fn anchor_item(kind: Kind, stands: bool, b: u8, anchor: Token, next: usize) -> NextToken
    ensures { result ≡ anchor_item kind stands b anchor next }
{
    match kind {
        Kind::Basic if !stands => literal(b, next),
        _ => NextToken::Is(anchor, next),
    }
}

/// What is at `at` after the token `before`, if one comes before it. Where the text is `folded`, letters match
/// without regard to case.
#[tactic(auto, unfolding(crate::specs::Tokens::token_at))]
pub fn token_at(
    kind: Kind,
    folded: bool,
    delimiter: Option<u8>,
    text: &[u8],
    before: Option<Token>,
    at: usize,
) -> NextToken
    requires { at ≤ length text.now }
    ensures item { result ≡ token_at kind folded delimiter text.now before at }
    ensures after { IsTokenAfter at (length text.now) result }
{
    let Some((symbol, width)) = symbol_at(kind, delimiter, text, at) else {
        return NextToken::Ends;
    };
    let next = at + width;
    let may = is_repeatable(&before);
    match symbol {
        Symbol::Literal(b) => NextToken::Is(Token::Byte(ByteSet::literal(b, folded)), next),
        Symbol::AnyByte => NextToken::Is(Token::Byte(ByteSet::any()), next),
        Symbol::Opening => NextToken::Is(Token::Open, next),
        Symbol::Closing => NextToken::Is(Token::Close, next),
        Symbol::Parting => NextToken::Is(Token::Bar, next),
        Symbol::Star => star_item(kind, may, at, next),
        Symbol::Plus => repeats(may, at, NextToken::Is(Token::Repeat(1, None), next)),
        Symbol::Question => question_item(kind, may, is_repeat(&before), at, next),
        Symbol::Interval => {
            let interval = interval_at(kind, delimiter, &text[next..]);
            repeats(may, at, interval_token(interval, at, next))
        }
        Symbol::IntervalEnd => fault(at, ExprReason::BadInterval),
        Symbol::BracketOpening => list_token(list_at(folded, delimiter, text, at)),
        Symbol::Caret => anchor_item(kind, is_first(&before), b'^', Token::AtBegin, next),
        Symbol::Dollar => {
            let last = ends_alternative(symbol_at(kind, delimiter, text, next));
            anchor_item(kind, last, b'$', Token::AtEnd, next)
        }
        Symbol::Unknown(reason) => fault(at, reason),
    }
}
