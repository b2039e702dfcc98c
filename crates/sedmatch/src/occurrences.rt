//! All occurrences in one text, one after another.
ghost use Rattle.std.specs.Prelude.{◌≡◌, ℕ, List, Option, false, if◌then◌else◌, ◌+◌, ◌-◌, ◌*◌, ◌^◌, ◌<◌, ◌≤◌, length, IfOk, IfSome, IsTrue, nat_lt, slice_get, None, Some};
ghost use Rattle.std.specs.Option.{unwrap_or};
ghost use Rattle.sedre.specs.Tree.{WrittenExpression, expression_tree};
ghost use Rattle.sedre.specs.Steps.{Takes, TakesAtLeast, CostsWithin};
ghost use Rattle.sedtext.specs.Following.{EndsWithin, OccursAfter, next_span};
ghost use Rattle.sedtext.specs.Matching.{leftmost_longest};
ghost use Rattle.sedpass.specs.Search.{MaySearch, Searched, owed_after_search, owed_behind};
ghost use Rattle.sedpass.specs.Table.{IsForwardOne, SameShape};
ghost use Rattle.sedpass.specs.declared.table.Table.{Table};
ghost use Rattle.sedmatch.specs.Occurrences.{HasTable, IsReady, RoomAt, RoomFor, ServesFrom, AnswersNext, TakesFirst, owed_search};

use crate::Span;
use crate::passes::{REVERSE_ANY, has_blocks};
use crate::table_matcher::TableMatcher;
use sedpass::kept::{Kept, Subject};
use sedpass::nodes::Prepared;
use sedpass::search::{Seeking, begin_text, next_match};
use sedpass::table::Table;
use sedpass::width::width_for;
use sedre::Steps;
use sedtext::counted::Text;
use std::alloc::{AllocError, Global};

/// How many expressions have a table of their own at most.
const MOST_OWN: usize = 256;

/// How the searches for all occurrences in one text go on.
///
/// A search that goes from each place where a match can begin may look far past the match that it finds, so that a search for each
/// occurrence could cost steps in the square of the text's length. Where the searches in a text went over many places that are in no
/// match, one pass from the text's end is made, of which the state of each place is kept: it shows where matches begin and how far one
/// leads.
///
/// All room is taken in [`Occurrences::new`]: two bytes for each byte of the longest text, which memory is touched only where such a
/// pass is made, and a table for each of the first expressions that have tables, besides one that serves all others.
#[derive(Drop)]
pub struct Occurrences {
    seeking: Seeking,
    // The table that serves each expression that has none of its own,
    shared: Table,
    // and those of the first expressions, each by its number.
    own: Vec<Option<Table>>,
    // The expression that is sought,
    number: usize,
    // and whether its own table serves it.
    by_own: bool,
    // Whether nothing was sought in the text by passes yet.
    is_fresh: bool,
}

impl Occurrences {
    /// Room for texts of at most `max_text` bytes, which is 2^30 or less, and for these expressions, each by its number among them,
    /// of at most `max_nodes` nodes each, 1 to 65,536. Fails only where a request for memory was refused.
    pub fn new(
        alloc: Global,
        max_text: usize,
        max_nodes: usize,
        matchers: &[TableMatcher],
    ) -> Result<Occurrences, AllocError>
        requires text { max_text ≤ 2 ^ 30 }
        requires some_node { 1 ≤ max_nodes }
        requires nodes { max_nodes ≤ 65536 }
        requires fit { (x : ℕ) (e : WrittenExpression) → slice_get matchers.now x ≡ Some e → length e.nodes ≤ max_nodes }
        ensures { IfOk result (RoomFor max_text matchers.now) }
    {
        let width = width_for(max_text);
        let count = matchers.len().min(MOST_OWN);
        let mut own = Vec::with_capacity(alloc, count)?;
        for x in 0..count {
            own.push_reserved(matchers[x].reverse_table(alloc)?);
        }
        let kept = Kept::new(alloc, max_text, max_text / width + 1, max_nodes)?;
        let shared = Table::with_room(alloc, REVERSE_ANY, width + 1, max_nodes)?;
        Ok(Occurrences {
            seeking: Seeking { kept, tried: 0 },
            shared,
            own,
            number: 0,
            by_own: false,
            is_fresh: true,
        })
    }

    /// Lets the room go, as `TableMatcher::close` does a matcher.
    pub fn close(self) {
        drop(self);
    }

    /// Begins anew, for the expression of this number in a text.
    pub fn begin(&mut self, number: usize)
        ensures room { (text : ℕ) (es : List WrittenExpression) → RoomFor text es self.old → RoomFor text es self.new }
        ensures serves { (w : List ℕ) (es : List WrittenExpression) (e : WrittenExpression) → slice_get es number ≡ Some e → RoomFor (length w) es self.old →
            ServesFrom e w None self.new }
        ensures number { self.new.number ≡ number }
    {
        self.number = number;
        self.is_fresh = true;
    }

    /// Chooses the table that serves the expression, where nothing was sought by passes yet.
    fn make_ready(&mut self, prepared: &Prepared, text: &Text)
        requires room { RoomAt (length text.now) self.old.number prepared.now self.old }
        requires used { self.old.is_fresh ≡ false → HasTable prepared.now text.now self.old }
        ensures ready { IsReady prepared.now text.now self.old self.new }
        ensures used { self.new.is_fresh ≡ false }
        ensures same { self.old.is_fresh ≡ false → self.new ≡ self.old }
        ensures owed { let m = length prepared.now.nodes in let n = length text.now in
            IsTrue self.old.is_fresh → owed_behind m n self.new.seeking 0 + 43 * m ≤ 308 * m * (n + 1) }
    {
        if !self.is_fresh {
            return;
        }
        self.is_fresh = false;
        let subject = Subject { prepared, text };
        match self.own.get(self.number) {
            // What is kept has room for the blocks of its passes over the text.
            Some(Some(own)) if has_blocks(&self.seeking.kept, own.room, text.len()) => {
                self.by_own = true;
                begin_text(subject, own, &mut self.seeking);
            }
            _ => {
                self.by_own = false;
                self.shared.fit(prepared);
                begin_text(subject, &self.shared, &mut self.seeking);
            }
        }
    }
}

/// Whether a match is that of the null string at a place.
pub fn is_null_at(span: Option<Span>, at: usize) -> bool
    ensures next { (search : ℕ → Option (ℕ × ℕ)) (n : ℕ) → span ≡ search at →
        next_span search n (Some at) ≡ if result then (if nat_lt at n then search (at + 1) else None) else span }
    ensures null { IsTrue result → span ≡ Some (at, at) }
    ensures after { result ≡ false → IfSome span (λ f. at ≤ f.0 → f.0 ≤ f.1 → at < f.1) }
{
    match span {
        None => false,
        Some((start, end)) => start == at && end == at,
    }
}

/// The next occurrence after the one that ended at `last`, or the first one, by these tables: a byte further where the next match is
/// that of the null string there.
#[tactic(auto, using(crate::proofs::OccurrenceLemmas::nexts), unfolding(sedre::specs::Steps::TakesAtLeast, sedre::specs::Steps::IsCounted))]
fn next_with(
    prepared: &Prepared,
    text: &Text,
    forward_one: &mut Table,
    reverse_any: &mut Table,
    seeking: &mut Seeking,
    last: Option<usize>,
    steps: &mut Steps,
) -> Option<Span>
    requires last { EndsWithin (length text.now) last }
    requires ready { MaySearch prepared.now text.now forward_one.old reverse_any.old seeking.old }
    ensures searched { Searched prepared.now text.now forward_one.old forward_one.new reverse_any.old reverse_any.new seeking.old seeking.new }
    ensures next { result ≡ next_span (leftmost_longest (expression_tree prepared.now) text.now) (length text.now) last }
    ensures occurs { IfSome result (OccursAfter (expression_tree prepared.now) text.now last) }
    ensures cost { let m = length prepared.now.nodes in let n = length text.now in
        CostsWithin steps.old steps.new (owed_search m n last seeking.old) (owed_after_search (owed_behind m n seeking.new) result) }
    ensures once { let m = length prepared.now.nodes in let n = length text.now in
        Takes steps.old steps.new (64 * m * m * (n + 1) * (n + 1)) }
    ensures first { let m = length prepared.now.nodes in let n = length text.now in
        last ≡ None → Takes steps.old steps.new (193 * m * (n + 1)) }
    ensures counts { IfSome result (λ f. TakesAtLeast steps.old steps.new (f.1 - unwrap_or last 0)) }
{
    let subject = Subject { prepared, text };
    let Some(at) = last else {
        let start = prepared.hints().skip_to_literal(text, 0, steps)?;
        return next_match(subject, forward_one, reverse_any, seeking, start, steps);
    };
    let first = next_match(subject, forward_one, reverse_any, seeking, at, steps);
    if !is_null_at(first, at) {
        return first;
    }
    if at >= text.len() {
        return None;
    }
    next_match(subject, forward_one, reverse_any, seeking, at + 1, steps)
}

/// The next occurrence after the one that ended at `last`, or the first one.
pub fn next_by(
    prepared: &Prepared,
    text: &Text,
    forward_one: &mut Table,
    occurrences: &mut Occurrences,
    last: Option<usize>,
    steps: &mut Steps,
) -> Option<Span>
    requires forward_one { IsForwardOne prepared.now forward_one.old }
    requires last { EndsWithin (length text.now) last }
    requires serves { ServesFrom prepared.now text.now last occurrences.old }
    ensures forward_one { IsForwardOne prepared.now forward_one.new }
    ensures forward_one_shape { SameShape forward_one.old forward_one.new }
    ensures answered { AnswersNext prepared.now text.now last occurrences.old occurrences.new steps.old steps.new result }
    ensures first { last ≡ None → TakesFirst (length prepared.now.nodes) (length text.now) occurrences.new steps.old steps.new result }
{
    occurrences.make_ready(prepared, text);
    let seeking = &mut occurrences.seeking;
    if !occurrences.by_own {
        let reverse = &mut occurrences.shared;
        return next_with(prepared, text, forward_one, reverse, seeking, last, steps);
    }
    let Some(reverse) = &mut occurrences.own[occurrences.number] else {
        unreachable!()
    };
    next_with(prepared, text, forward_one, reverse, seeking, last, steps)
}
