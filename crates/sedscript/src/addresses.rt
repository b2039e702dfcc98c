//! Addresses and what comes before a function.

ghost use Rattle.std.specs.Prelude.{◌≡◌, ◌≢◌, ◌≤◌, ◌<◌, ◌+◌, ℕ, Option, Some, length, slice_get, IfOk};
ghost use Rattle.sedscript.specs.declared.types.Address.{Address};
ghost use Rattle.sedscript.specs.Bytes.{bytes_between, with_digits};
ghost use Rattle.sedscript.specs.Items.{folds_at, past_flag, match_at, own_match, address_at, after_first, second_at, addresses_at, with_bang, addresses_of, line_address, empty_match};
ghost use Rattle.sedscript.specs.Arguments.{own_delimiter};
ghost use Rattle.sedscript.specs.Answers.{as_addressed, as_headed, ComesFrom, Agrees};

use crate::between::own_delimiter;
use crate::bytes::{Sort, byte_at, is_byte, number_of, past};
use crate::expressions::expression_at;
use crate::items::{Addresses, Source};
use crate::types::{Address, Reason, ScriptFault};
use sedre::{Expr, delimited};

/// The address of the line whose number has its digits between two places, and the place after them.
fn line_at(text: &[u8], from: usize, to: usize) -> Result<(Option<Address>, usize), ScriptFault>
    requires { (from ≤ to) × (to ≤ length text.now) }
    ensures is { (count : ℕ) → Agrees as_addressed count result
        (line_address count from to (with_digits (Some 0) (bytes_between text.now from to))) }
    ensures to { IfOk result (λ found. found.1 ≡ to) }
{
    match number_of(&text[from..to]) {
        None | Some(0) => Err(Reason::BadAddress.at(from)),
        Some(n) => Ok((Some(Address::Line(n)), to)),
    }
}

/// Whether the flag `I` is at a place.
fn folds_at(text: &[u8], at: usize) -> bool
    ensures { result ≡ folds_at text.now at }
{
    is_byte(b'I', byte_at(text, at))
}

/// The place after the flag `I`, if that is at `at`; otherwise `at` itself.
fn past_flag(text: &[u8], at: usize) -> usize
    requires { at ≤ length text.now }
    ensures is { result ≡ past_flag text.now at }
    ensures within { (at ≤ result) × (result ≤ length text.now) }
{
    if folds_at(text, at) { at + 1 } else { at }
}

/// The address of the empty regular expression, whose last delimiter is before `at`, and the place after it.
/// The flag `I` may not be there.
fn empty_match(text: &[u8], at: usize) -> Result<(Option<Address>, usize), ScriptFault>
    ensures is { (count : ℕ) → Agrees as_addressed count result (empty_match text.now count at) }
    ensures at { IfOk result (λ found. found.1 ≡ at) }
{
    if folds_at(text, at) {
        Err(Reason::FlagOnEmpty.at(at))
    } else {
        Ok((Some(Address::Match(None)), at))
    }
}

/// The address of the regular expression after the delimiter at `place`, and the place after it and its flag `I`, if
/// it has that.
#[tactic(auto, unfolding(crate::specs::Items::match_at))]
fn match_at(
    source: &Source,
    exprs: &mut Vec<Expr>,
    delimiter: u8,
    place: usize,
) -> Result<(Option<Address>, usize), ScriptFault>
    requires delimiter { (delimiter ≢ 92) × (delimiter ≢ 10) }
    requires place { place < length source.now.text.now }
    ensures comes { ComesFrom source.now exprs.old.items exprs.new.items as_addressed result
        (match_at source.now.text.now (length exprs.old.items) delimiter place) }
    ensures within { IfOk result (λ found. (place ≤ found.1) × (found.1 ≤ length source.now.text.now)) }
{
    let from = place + 1;
    let Some(to) = delimited(source.text, from, delimiter) else {
        return Err(Reason::OpenDelimiter.at(place));
    };
    if to == from {
        return empty_match(source.text, to + 1);
    }
    let folded = folds_at(source.text, to + 1);
    let number = exprs.len();
    expression_at(source, exprs, delimiter, folded, from, to)?;
    Ok((
        Some(Address::Match(Some(number))),
        past_flag(source.text, to + 1),
    ))
}

/// The address of the regular expression whose own delimiter is at `place`, and the place after it.
fn own_match(
    source: &Source,
    exprs: &mut Vec<Expr>,
    place: usize,
) -> Result<(Option<Address>, usize), ScriptFault>
    requires place { place ≤ length source.now.text.now }
    ensures comes { ComesFrom source.now exprs.old.items exprs.new.items as_addressed result
        (own_match source.now.text.now (length exprs.old.items) place
        (own_delimiter (slice_get source.now.text.now place))) }
    ensures within { IfOk result (λ found. (place ≤ found.1) × (found.1 ≤ length source.now.text.now)) }
{
    match own_delimiter(byte_at(source.text, place)) {
        None => Err(Reason::BadDelimiter.at(place)),
        Some(delimiter) => match_at(source, exprs, delimiter, place),
    }
}

/// The address at a place, if one is there, and the place after it.
#[tactic(auto, unfolding(crate::specs::Items::address_at))]
fn address_at(
    source: &Source,
    exprs: &mut Vec<Expr>,
    at: usize,
) -> Result<(Option<Address>, usize), ScriptFault>
    requires at { at ≤ length source.now.text.now }
    ensures comes { ComesFrom source.now exprs.old.items exprs.new.items as_addressed result
        (address_at source.now.text.now (length exprs.old.items) at) }
    ensures within { IfOk result (λ found. (at ≤ found.1) × (found.1 ≤ length source.now.text.now)) }
{
    match byte_at(source.text, at) {
        None => Ok((None, at)),
        Some(b'$') => Ok((Some(Address::Last), at + 1)),
        Some(b'/') => match_at(source, exprs, b'/', at),
        Some(b'\\') => own_match(source, exprs, at + 1),
        Some(b) => {
            if b.is_ascii_digit() {
                line_at(source.text, at, past(Sort::Digit, source.text, at))
            } else {
                Ok((None, at))
            }
        }
    }
}

/// These addresses, without a `!`.
fn addresses_of(first: Option<Address>, second: Option<Address>) -> Addresses
    ensures { result ≡ addresses_of first second }
{
    Addresses {
        first,
        second,
        negate: false,
    }
}

/// Both addresses and the place after them. The second one has to be at `at`.
fn second_at(
    source: &Source,
    exprs: &mut Vec<Expr>,
    first: Address,
    at: usize,
) -> Result<(Addresses, usize), ScriptFault>
    requires at { at ≤ length source.now.text.now }
    ensures comes { ComesFrom source.now exprs.old.items exprs.new.items as_headed result
        (second_at source.now.text.now (length exprs.old.items) first at) }
    ensures within { IfOk result (λ found. (at ≤ found.1) × (found.1 ≤ length source.now.text.now)) }
{
    let (second, next) = address_at(source, exprs, at)?;
    match second {
        None => Err(Reason::BadAddress.at(at)),
        Some(_) => Ok((addresses_of(Some(first), second), next)),
    }
}

/// The addresses of a command and the place after them. The first one, if there is one, ends at `at`, where a comma and
/// a second one may follow it.
fn after_first(
    source: &Source,
    exprs: &mut Vec<Expr>,
    first: Option<Address>,
    at: usize,
) -> Result<(Addresses, usize), ScriptFault>
    requires at { at ≤ length source.now.text.now }
    ensures comes { ComesFrom source.now exprs.old.items exprs.new.items as_headed result
        (after_first source.now.text.now (length exprs.old.items) at first) }
    ensures within { IfOk result (λ found. (at ≤ found.1) × (found.1 ≤ length source.now.text.now)) }
{
    let Some(address) = first else {
        return Ok((addresses_of(None, None), at));
    };
    let comma = past(Sort::Blank, source.text, at);
    if is_byte(b',', byte_at(source.text, comma)) {
        second_at(
            source,
            exprs,
            address,
            past(Sort::Blank, source.text, comma + 1),
        )
    } else {
        Ok((addresses_of(first, None), at))
    }
}

/// The addresses at a place, and the place after them.
pub fn addresses_at(
    source: &Source,
    exprs: &mut Vec<Expr>,
    at: usize,
) -> Result<(Addresses, usize), ScriptFault>
    requires at { at ≤ length source.now.text.now }
    ensures comes { ComesFrom source.now exprs.old.items exprs.new.items as_headed result
        (addresses_at source.now.text.now (length exprs.old.items) at) }
    ensures within { IfOk result (λ found. (at ≤ found.1) × (found.1 ≤ length source.now.text.now)) }
{
    let (first, next) = address_at(source, exprs, at)?;
    after_first(source, exprs, first, next)
}

/// The addresses with the `!` that may follow them at a place, and the place after it.
pub fn with_bang(text: &[u8], addresses: Addresses, at: usize) -> (Addresses, usize)
    requires { at ≤ length text.now }
    ensures is { (count : ℕ) → as_headed result count ≡ with_bang text.now (as_headed (addresses, at) count) }
    ensures within { (at ≤ result.1) × (result.1 ≤ length text.now) }
{
    let bang = past(Sort::Blank, text, at);
    if is_byte(b'!', byte_at(text, bang)) {
        (
            Addresses {
                negate: true,
                ..addresses
            },
            past(Sort::Bang, text, bang),
        )
    } else {
        (addresses, bang)
    }
}
