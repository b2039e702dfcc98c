//! The search for the leftmost of the longest matches (XBD 9.1), in one text from places that don't fall.
//!
//! A trial is a pass from one place at which a match can begin. Where trials went over many places that are in no match, a pass
//! from the text's end is kept for the rest of the text: it shows where matches begin, and how far one leads.
ghost use Rattle.std.specs.Prelude.{◌≡◌, ◌+◌, ◌-◌, ◌*◌, ◌≤◌, eqb, length, if◌then◌else◌, IsTrue};
ghost use Rattle.sedtext.specs.Answer.{SpanAnswer};
ghost use Rattle.sedre.specs.Steps.{CostsWithin, Takes};
ghost use Rattle.sedre.specs.Tree.{expression_tree};
ghost use Rattle.sedpass.specs.Table.{IsForwardOne, IsTable, SameShape};
ghost use Rattle.sedpass.specs.Kept.{IsKept, KeptRoom, SameSpace};
ghost use Rattle.sedpass.specs.Search.{IsNextMatch, LooksFrom, MaySearch, Searched, SearchServes, TablesStay, TrialsMade, owed_behind, owed_kept, owed_seeking, owed_after_search, search_cost};

use crate::kept::{Kept, Subject};
use crate::table::Table;
use sedre::Steps;

/// More places than any text has: trials are given up.
const GIVEN_UP: usize = usize::MAX;

/// How the searches in one text go on.
#[derive(Drop)]
pub struct Seeking {
    /// The pass from the text's end.
    pub kept: Kept,
    /// How many places the trials in this text went over that are in no match; `usize::MAX` once that pass is used.
    pub tried: usize,
}

/// Begins anew for a text: nothing was searched in it yet.
pub fn begin_text(subject: Subject, reverse_any: &Table, seeking: &mut Seeking)
    requires table { IsTable subject.prepared.now reverse_any.now }
    requires room { KeptRoom (length subject.prepared.now.nodes) (length subject.text.now) reverse_any.now seeking.old.kept }
    requires all_starts { IsTrue reverse_any.now.way.all_starts }
    ensures space { SameSpace seeking.old.kept seeking.new.kept }
    ensures tried { seeking.new.tried ≡ if eqb seeking.old.tried 18446744073709551615 then length subject.entry.text.now else 0 }
    ensures serves { SearchServes subject.entry.prepared.now subject.entry.text.now reverse_any.now seeking.new }
    ensures owed { let m = length subject.entry.prepared.now.nodes in let n = length subject.entry.text.now in
        owed_behind m n seeking.new 0 + 43 * m ≤ 308 * m * (n + 1) }
{
    let (root, length) = (subject.prepared.root(), subject.text.len());
    seeking.kept.begin(subject, reverse_any, root, length);
    // what was left to a pass in the text before is left to it here after one trial
    seeking.tried = if seeking.tried == GIVEN_UP { length } else { 0 };
}

/// What trials found.
#[derive(Clone, Copy)]
pub enum Trials {
    /// A match that begins and ends at these places.
    Hit(usize, usize),
    /// There is no match.
    Nothing,
    /// None begins before this place; it took many trials.
    Tired(usize),
}

/// Trials from a place on, a pass from each place at which a match can begin, until one is found, or many places are in none.
fn try_all(
    subject: Subject,
    forward_one: &mut Table,
    from: usize,
    tried: &mut usize,
    steps: &mut Steps,
) -> Trials
    requires from { from ≤ length subject.text.now }
    requires forward_one { IsForwardOne subject.prepared.now forward_one.old }
    ensures forward_one { IsForwardOne subject.entry.prepared.now forward_one.new }
    ensures forward_one_shape { SameShape forward_one.old forward_one.new }
    ensures made { TrialsMade (expression_tree subject.entry.prepared.now) subject.entry.text.now (length subject.entry.prepared.now.nodes) from tried.old tried.new steps.old steps.new result }
{
    let (length, hints) = (subject.text.len(), subject.prepared.hints());
    // all places for the first trial, an eighth of them for others
    let (mut start, mut most) = (from, length);
    while start <= length {
        if *tried > most {
            return Trials::Tired(start);
        }
        let Some(first) = hints.next_start(subject.text, start, steps) else {
            return Trials::Nothing;
        };
        let passed = forward_one.run(subject.prepared, subject.text, first, steps);
        if let Some(end) = passed.end {
            *tried += passed.place.saturating_sub(end);
            return Trials::Hit(first, end);
        }
        *tried += passed.place + 1 - first;
        start = first + 1;
        most = length / 8;
    }
    Trials::Nothing
}

/// The match from a place on, by the pass from the text's end.
pub fn next_kept(
    subject: Subject,
    forward_one: &mut Table,
    reverse_any: &mut Table,
    kept: &mut Kept,
    from: usize,
    steps: &mut Steps,
) -> Option<(usize, usize)>
    requires from { from ≤ length subject.text.now }
    requires forward_one { IsForwardOne subject.prepared.now forward_one.old }
    requires kept { IsKept subject.prepared.now subject.text.now reverse_any.old kept.old }
    requires all_starts { IsTrue reverse_any.old.way.all_starts }
    ensures tables { TablesStay subject.entry.prepared.now forward_one.old forward_one.new reverse_any.old reverse_any.new kept.old kept.new }
    ensures next { IsNextMatch subject.entry.prepared.now subject.entry.text.now from reverse_any.new kept.new steps.old steps.new result }
    ensures cost { let m = length subject.entry.prepared.now.nodes in let n = length subject.entry.text.now in
        CostsWithin steps.old steps.new (owed_kept m n kept.old.region from + 42 * m) (owed_after_search (λ q. owed_kept m n kept.new.region q) result) }
    ensures each { let m = length subject.entry.prepared.now.nodes in
        Takes steps.old steps.new (142 * m * (length subject.entry.text.now - from) + 42 * m) }
{
    let root = subject.prepared.root();
    let start = kept.seek(subject, reverse_any, root, from, true, steps);
    // of the text's end itself the pass says nothing
    if start == subject.text.len() && !subject.is_null(root, start, steps) {
        return None;
    }
    let end = kept.cut(subject, reverse_any, forward_one, root, start, steps);
    Some((start, end))
}

/// The leftmost of the longest matches that begin at a place or later. For one text the places don't fall from call to call.
pub fn next_match(
    subject: Subject,
    forward_one: &mut Table,
    reverse_any: &mut Table,
    seeking: &mut Seeking,
    from: usize,
    steps: &mut Steps,
) -> Option<(usize, usize)>
    requires from { from ≤ length subject.text.now }
    requires ready { MaySearch subject.prepared.now subject.text.now forward_one.old reverse_any.old seeking.old }
    ensures searched { Searched subject.entry.prepared.now subject.entry.text.now forward_one.old forward_one.new reverse_any.old reverse_any.new seeking.old seeking.new }
    ensures answer { SpanAnswer (expression_tree subject.entry.prepared.now) subject.entry.text.now from result }
    ensures cost { let m = length subject.entry.prepared.now.nodes in let n = length subject.entry.text.now in
        CostsWithin steps.old steps.new (owed_seeking m n seeking.old from + 43 * m) (owed_after_search (owed_seeking m n seeking.new) result) }
    ensures each { Takes steps.old steps.new (search_cost (length subject.entry.prepared.now.nodes) (length subject.entry.text.now) from) }
    ensures counts { LooksFrom from steps.old steps.new result }
{
    match try_all(subject, forward_one, from, &mut seeking.tried, steps) {
        Trials::Hit(first, end) => Some((first, end)),
        Trials::Nothing => None,
        Trials::Tired(later) => {
            seeking.tried = GIVEN_UP;
            let kept = &mut seeking.kept;
            next_kept(subject, forward_one, reverse_any, kept, later, steps)
        }
    }
}
