//! Stretches: a byte that comes first, or none, and bytes of a set that follow, any number of them, or none; anywhere in the text or
//! at its ends. `x`, `x*`, `xx*`, each with anchors, `^x+|x+$`, and anchors alone are such.
ghost use Rattle.std.specs.Prelude.{◌≡◌, ℕ, List, ◌+◌, ◌-◌, ◌*◌, ◌≤◌, ◌↔◌, ◌⊎◌, length, IfSome, IsTrue, Some};
ghost use Rattle.sedre.specs.Steps.{Takes, TakesAtLeast, CostsWithin};
ghost use Rattle.sedre.specs.declared.types.Node.{Node};
ghost use Rattle.sedtext.specs.Bytes.{FirstFrom};
ghost use Rattle.sedtext.specs.Links.{ChainLeads, LinkLeads};
ghost use Rattle.sedmatch.specs.Stretches.{ComesFirst, FirstOf, FollowTo, StretchSpans, behind_first, bytes_sought, end_or, passed_first};
ghost use Rattle.sedmatch.specs.declared.stretches.Anchoring.TheVariants.{AtEnd, AtStart};

use crate::Span;
use sedre::{ByteSet, Steps};
use sedtext::counted::Text;
use sedtext::counted::members::{run_begin, run_end};
use sedtext::counted::set_finder::SetFinder;
use sedtext::links::Link;

/// At which ends of the text a stretch is anchored.
#[derive(Clone, Copy)]
pub enum Anchoring {
    /// At the beginning of the text.
    AtStart,
    /// At the end of the text.
    AtEnd,
    /// From the beginning of the text to its end.
    Whole,
    /// At the beginning of the text, or at its end.
    AtEitherEnd,
}

/// What comes first, and what follows it.
#[derive(Drop)]
pub struct Stretch {
    /// The set of the byte that comes first, if one does.
    pub first: Option<SetFinder>,
    /// The set whose bytes follow, if some do.
    pub rest: Option<ByteSet>,
    /// At which ends of the text it is, if at some.
    pub ends: Option<Anchoring>,
}

/// The stretch that the link and the one behind it are together, if they are one.
fn stretch_with(link: &Link, stretch: Stretch) -> Option<Stretch>
    ensures { IfSome result (λ s. (nodes : List Node) (w : List ℕ) (i j : ℕ) →
        StretchSpans s s.ends w i j ↔ ((k : ℕ) × LinkLeads nodes w link.now i k × StretchSpans stretch stretch.ends w k j)) }
{
    match (link, stretch.ends, &stretch.first, stretch.rest) {
        (Link::Start, None | Some(Anchoring::AtStart), _, _) => Some(Stretch {
            ends: Some(Anchoring::AtStart),
            ..stretch
        }),
        (Link::Start, Some(Anchoring::AtEnd | Anchoring::Whole), _, _) => Some(Stretch {
            ends: Some(Anchoring::Whole),
            ..stretch
        }),
        (Link::Byte(set), None | Some(Anchoring::AtEnd), None, _) => Some(Stretch {
            first: Some(SetFinder::of(set)),
            ..stretch
        }),
        (Link::Run(set), None | Some(Anchoring::AtEnd), None, None) => Some(Stretch {
            rest: Some(*set),
            ..stretch
        }),
        (Link::End, None, None, None) => Some(Stretch {
            ends: Some(Anchoring::AtEnd),
            ..stretch
        }),
        _ => None,
    }
}

/// The stretch that the chain is, if it is one.
pub fn stretch_of(chain: &[Link]) -> Option<Stretch>
    ensures { IfSome result (λ s. (nodes : List Node) (w : List ℕ) (i j : ℕ) → ChainLeads nodes w chain.now i j ↔ StretchSpans s s.ends w i j) }
{
    let mut stretch = Stretch {
        first: None,
        rest: None,
        ends: None,
    };
    for x in (0..chain.len()).rev() {
        stretch = stretch_with(&chain[x], stretch)?;
    }
    Some(stretch)
}

/// Whether they are of the same bytes, wherever they are.
fn same_bytes(stretch: &Stretch, other: &Stretch) -> bool
    ensures first { IsTrue result → stretch.now.first ≡ other.now.first }
    ensures rest { IsTrue result → stretch.now.rest ≡ other.now.rest }
{
    match (&stretch.first, &other.first, &stretch.rest, &other.rest) {
        (None, None, None, None) => true,
        (Some(these), Some(those), None, None) => these.same(those),
        (None, None, Some(these), Some(those)) => these.same(those),
        (Some(first), Some(one), Some(these), Some(those)) => first.same(one) && these.same(those),
        _ => false,
    }
}

/// The stretch that two alternatives are together: the same, at the beginning of the text and at its end.
pub fn stretch_at_ends(left: &[Link], right: &[Link]) -> Option<Stretch>
    ensures { IfSome result (λ s. (nodes : List Node) (w : List ℕ) (i j : ℕ) →
        (ChainLeads nodes w left.now i j ⊎ ChainLeads nodes w right.now i j) ↔ StretchSpans s s.ends w i j) }
{
    let (left, right) = (stretch_of(left)?, stretch_of(right)?);
    let same = same_bytes(&left, &right);
    match (left.ends, right.ends) {
        (Some(Anchoring::AtStart), Some(Anchoring::AtEnd)) if same => Some(Stretch {
            ends: Some(Anchoring::AtEitherEnd),
            ..left
        }),
        _ => None,
    }
}

/// The first place from `from` on at which what comes first is.
/// Counts a look for each byte from `from` to it, or to the end where there is none.
#[inline(always)]
pub fn find_first(stretch: &Stretch, text: &Text, from: usize, steps: &mut Steps) -> Option<usize>
    requires from { from ≤ length text.now }
    ensures first { FirstFrom (ComesFirst stretch.now.first text.now) from result }
    ensures inside { IfSome result (λ k. behind_first stretch.now.first k ≤ length text.now) }
    ensures cost { CostsWithin steps.old steps.new (passed_first stretch.now.first (length text.now) result) from }
    ensures counts { IfSome result (λ k. TakesAtLeast steps.old steps.new (behind_first stretch.now.first k - from)) }
{
    match &stretch.first {
        None => Some(from),
        Some(finder) => finder.find(text, from, steps),
    }
}

/// Where the bytes that follow from the place on end.
#[inline(always)]
fn rest_end(rest: &Option<ByteSet>, text: &Text, from: usize, steps: &mut Steps) -> usize
    requires from { from ≤ length text.now }
    ensures to { FollowTo rest.now text.now from result }
    ensures cost { CostsWithin steps.old steps.new (result + 1) from }
    ensures counts { TakesAtLeast steps.old steps.new (result - from) }
{
    match rest {
        None => from,
        Some(members) => run_end(text, members, from, steps),
    }
}

/// The stretch at the beginning of the text, if it is sought from there.
#[inline(always)]
fn start_span(stretch: &Stretch, text: &Text, from: usize, steps: &mut Steps) -> Option<Span>
    requires from { from ≤ length text.now }
    ensures span { FirstOf (StretchSpans stretch.now (Some AtStart) text.now) (length text.now) from result }
    ensures cost { Takes steps.old steps.new (end_or 0 result + 2) }
    ensures counts { IfSome result (λ f. TakesAtLeast steps.old steps.new f.1) }
{
    if from > 0 {
        return None;
    }
    let after = match &stretch.first {
        None => 0,
        Some(finder) if text.len() > 0 && finder.has(text.byte(0, steps)) => 1,
        Some(_) => return None,
    };
    Some((0, rest_end(&stretch.rest, text, after, steps)))
}

/// The longest stretch at the end of the text that begins at `from` or later.
#[inline(always)]
fn end_span(stretch: &Stretch, text: &Text, from: usize, steps: &mut Steps) -> Option<Span>
    requires from { from ≤ length text.now }
    ensures span { FirstOf (StretchSpans stretch.now (Some AtEnd) text.now) (length text.now) from result }
    ensures cost { CostsWithin steps.old steps.new (2 * length text.now) (2 * from) }
    ensures counts { IfSome result (λ f. TakesAtLeast steps.old steps.new (f.1 - f.0)) }
{
    // Where the bytes that follow begin, and the first place from which what comes first reaches as far.
    let rest = match &stretch.rest {
        None => text.len(),
        Some(members) => run_begin(text, members, from, text.len(), steps),
    };
    let start = match &stretch.first {
        None => rest,
        Some(_) => rest.saturating_sub(1),
    };
    let place = find_first(stretch, text, start.max(from), steps)?;
    Some((place, text.len()))
}

/// The longest of the stretches that begin first from `from` on, where they are anchored.
#[inline(always)]
pub fn stretch_span(stretch: &Stretch, text: &Text, from: usize, steps: &mut Steps) -> Option<Span>
    requires from { from ≤ length text.now }
    ensures span { FirstOf (StretchSpans stretch.now stretch.now.ends text.now) (length text.now) from result }
    ensures cost { CostsWithin steps.old steps.new (4 * (end_or (length text.now) result + 1)) (4 * from) }
    ensures counts { IfSome result (λ f. TakesAtLeast steps.old steps.new (bytes_sought stretch.now.ends from f)) }
{
    match stretch.ends {
        None => {
            let start = find_first(stretch, text, from, steps)?;
            let after = match &stretch.first {
                None => start,
                Some(_) => text.after(start, 1),
            };
            Some((start, rest_end(&stretch.rest, text, after, steps)))
        }
        Some(Anchoring::AtStart) => start_span(stretch, text, from, steps),
        Some(Anchoring::AtEnd) => end_span(stretch, text, from, steps),
        Some(Anchoring::Whole) => match start_span(stretch, text, from, steps) {
            Some((start, end)) if end == text.len() => Some((start, end)),
            _ => None,
        },
        Some(Anchoring::AtEitherEnd) => {
            if let Some(span) = start_span(stretch, text, from, steps) {
                return Some(span);
            }
            let (start, end) = end_span(stretch, text, from, steps)?;
            // The bytes before it count as looked at, since they are passed over.
            steps.add(start - from);
            Some((start, end))
        }
    }
}
