//! Bracket expressions (XBD 9.3.5): the bytes that a list matches, or the first fault, in one pass.
ghost use Rattle.std.specs.Prelude.{◌≡◌, ◌<◌, ◌≤◌, ◌+◌, length, drop, IfSome, IfOk, IfErr, IsTrue};
ghost use Rattle.sedre.specs.ListReading.{is_range, members_at, elements_start, is_closing};
ghost use Rattle.sedre.specs.Brackets.{end_of_range, single, between_ends, range, is_at_front, matched_set, list_at, list_end};

use crate::byte_set::ByteSet;
use crate::elements::{Element, element_at};
use crate::types::{ExprFault, ExprReason};

/// The bytes of an element that is no end of a range, or its fault.
fn single(place: usize, element: Element) -> Result<ByteSet, ExprFault>
    ensures is { result ≡ single (place, element) }
    ensures fault { IfErr result (λ f. f.place ≡ place) }
{
    match element {
        Element::Plain(b)
        | Element::Delimiter(b)
        | Element::Equivalent(b)
        | Element::Collating(b) => Ok(ByteSet::only(b)),
        Element::OfClass(class) => Ok(ByteSet::of_class(class)),
        Element::Wrong(reason) => Err(ExprFault { place, reason }),
        Element::Unclosed => Ok(ByteSet::none()),
    }
}

/// The byte of an element that can be an end of a range.
fn end_of(element: Element) -> Option<u8>
    ensures { result ≡ end_of_range element }
{
    match element {
        Element::Plain(b) | Element::Delimiter(b) | Element::Collating(b) => Some(b),
        _ => None,
    }
}

/// The bytes of a range with these ends, which begins at `place`; a fault there where one of them is missing, they
/// come in the wrong order, or the range `goes_on` with a further `-`.
fn between_ends(
    place: usize,
    first: Option<u8>,
    last: Option<u8>,
    goes_on: bool,
) -> Result<ByteSet, ExprFault>
    ensures is { result ≡ between_ends place first last goes_on }
    ensures fault { IfErr result (λ f. f.place ≡ place) }
{
    match (first, last) {
        (Some(a), Some(b)) if a <= b && !goes_on => Ok(ByteSet::range(a, b)),
        _ => Err(ExprFault {
            place,
            reason: ExprReason::BadRange,
        }),
    }
}

/// The bytes of a range between two elements, which are at `place` and `at`, or its first fault. It `goes_on` where a
/// further `-` and an element follow.
fn range(
    place: usize,
    first: Element,
    at: usize,
    last: Element,
    goes_on: bool,
) -> Result<ByteSet, ExprFault>
    requires { place ≤ at }
    ensures is { result ≡ range (place, first) (at, last) goes_on }
    ensures fault { IfErr result (λ f. (place ≤ f.place) × (f.place ≤ at)) }
{
    match (first, last) {
        (Element::Wrong(reason), _) => Err(ExprFault { place, reason }),
        (Element::Unclosed, _) => Ok(ByteSet::none()),
        (_, Element::Wrong(reason)) => Err(ExprFault { place: at, reason }),
        (_, Element::Unclosed) => Ok(ByteSet::none()),
        _ => between_ends(place, end_of(first), end_of(last), goes_on),
    }
}

/// Whether `-` and a further element are at `at`.
fn is_range_at(text: &[u8], at: usize) -> bool
    requires { at ≤ length text.now }
    ensures is { result ≡ is_range (drop at text.now) }
    ensures inside { IsTrue result → at + 1 < length text.now }
{
    matches!(&text[at..], [b'-', b, ..] if *b != b']')
}

/// The bytes of the element or the range at a place, and the place after it, or its first fault.
#[tactic(auto, unfolding(crate::specs::ListReading::members_at))]
fn members_at(delimiter: Option<u8>, text: &[u8], at: usize) -> Result<(ByteSet, usize), ExprFault>
    requires { at < length text.now }
    ensures is { result ≡ members_at delimiter text.now at }
    ensures after { IfOk result (λ found. (at < found.1) × (found.1 ≤ length text.now)) }
    ensures fault { IfErr result (λ f. (at ≤ f.place) × (f.place < length text.now)) }
{
    let (first, width) = element_at(delimiter, text, at);
    let next = at + width;
    if !is_range_at(text, next) {
        return Ok((single(at, first)?, next));
    }
    let (last, width) = element_at(delimiter, text, next + 1);
    let end = next + 1 + width;
    let goes_on = is_range_at(text, end);
    Ok((range(at, first, next + 1, last, goes_on)?, end))
}

/// Whether the list whose `[` is before a place is a non-matching one.
fn is_negated(text: &[u8], at: usize) -> bool
    requires { at ≤ length text.now }
    ensures { result ≡ is_at_front (drop at text.now) 94 }
{
    matches!(&text[at..], [b'^', ..])
}

/// Where the elements of a list begin, from the place after its `[` on.
fn elements_start(text: &[u8], at: usize) -> usize
    requires { at ≤ length text.now }
    ensures is { result ≡ elements_start at (drop at text.now) }
    ensures within { (at ≤ result) × (result ≤ length text.now) }
{
    match &text[at..] {
        [b'^', ..] => at + 1,
        _ => at,
    }
}

/// Whether a `]` at a place closes a list whose elements begin at `start`: it does unless it is the first.
fn is_closing(text: &[u8], start: usize, at: usize) -> bool
    requires { at < length text.now }
    ensures { result ≡ is_closing text.now start at }
{
    text[at] == b']' && at != start
}

/// The bytes that a list matches, whose elements list this set. Letters of the set match without regard to case where it
/// is `folded`, and a `negated` list matches all other bytes.
fn matched(folded: bool, negated: bool, set: ByteSet) -> ByteSet
    ensures { result ≡ matched_set folded negated set }
{
    let matching = set.matching(folded);
    if negated {
        matching.complement()
    } else {
        matching
    }
}

/// The bytes that the bracket expression matches whose `[` is at `at`, and the place after its `]`.
/// With a delimiter, a backslash and the delimiter are the delimiter as a literal. Where it is `folded`, each letter
/// that is listed stands for both its cases, before `^` takes the other bytes.
///
/// # Errors
///
/// The first fault from the left: a list or a form that isn't closed, at the list's `[`; an unknown
/// class or a form of more than one byte, at the form's `[`; an invalid range, at the first byte of its
/// first element.
pub fn list_at(
    folded: bool,
    delimiter: Option<u8>,
    text: &[u8],
    at: usize,
) -> Result<(ByteSet, usize), ExprFault>
    requires { at < length text.now }
    ensures is { result ≡ list_at folded delimiter text.now at }
    ensures after { IfOk result (λ found. (at < found.1) × (found.1 ≤ length text.now)) }
    ensures fault { IfErr result (λ f. (at ≤ f.place) × (f.place < length text.now)) }
{
    let negated = is_negated(text, at + 1);
    let start = elements_start(text, at + 1);
    let mut set = ByteSet::none();
    let mut place = start;
    while place < text.len() {
        if is_closing(text, start, place) {
            return Ok((matched(folded, negated, set), place + 1));
        }
        let (members, next) = members_at(delimiter, text, place)?;
        set = set.union(&members);
        place = next;
    }
    Err(ExprFault {
        place: at,
        reason: ExprReason::OpenBracket,
    })
}

/// The place after the bracket expression whose `[` is at `at`, whatever it lists; None where it isn't closed.
pub fn list_end(delimiter: Option<u8>, text: &[u8], at: usize) -> Option<usize>
    requires { at < length text.now }
    ensures is { result ≡ list_end delimiter (at + 1) (drop (at + 1) text.now) }
    ensures after { IfSome result (λ end. (at < end) × (end ≤ length text.now)) }
{
    let start = elements_start(text, at + 1);
    let mut place = start;
    while place < text.len() {
        if is_closing(text, start, place) {
            return Some(place + 1);
        }
        let (_, width) = element_at(delimiter, text, place);
        place += width;
    }
    None
}
