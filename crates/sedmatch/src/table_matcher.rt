//! An expression that is sought many times.
ghost use Rattle.std.specs.Prelude.{◌≡◌, ℕ, ◌+◌, ◌-◌, ◌*◌, ◌<◌, ◌≤◌, ◌↔◌, length, IfOk, IfSome, IsTrue, None, Some, is_some};
ghost use Rattle.sedre.specs.Tree.{WrittenExpression, expression_tree};
ghost use Rattle.sedre.specs.Steps.{Takes, TakesAtLeast, CostsWithin};
ghost use Rattle.sedtext.specs.Following.{CanEndEarly, EndsWithin, LiesOn, OccursAfter, LooksPast, bytes_passed, next_span};
ghost use Rattle.sedtext.specs.Matching.{leftmost_longest, reported_groups};
ghost use Rattle.sedtext.specs.Answer.{SpanIn};
ghost use Rattle.sedtext.specs.Groups.{group_depth, span_of};
ghost use Rattle.sedtext.specs.SearchRoom.{FitInto};
ghost use Rattle.sedtext.specs.Spans.{SomeFound, Matches};
ghost use Rattle.sedmatch.specs.Candidates.{NoMatchBefore};
ghost use Rattle.sedpass.specs.Decide.{AreTables, spans_in};
ghost use Rattle.sedpass.specs.Search.{owed_after_search};
ghost use Rattle.sedpass.specs.Walks.{EntersGroups};
ghost use Rattle.sedmatch.specs.Direct.{IsDirect};
ghost use Rattle.sedmatch.specs.Occurrences.{IsLook, IsReverseAny, ServesFrom, ServesOn, AnswersNext, owed, owed_after, owed_direct};
ghost use Rattle.sedmatch.specs.Passes.{ArePasses, IsDeskFor, KeepsDesk};

use crate::Span;
use crate::direct::{DirectForm, direct_form_of, direct_matches, direct_span};
use crate::occurrences::{Occurrences, is_null_at, next_by};
use crate::passes::{
    Passes, REVERSE_ANY, groups_by, matches_by, matches_with, new_passes, size_of_tables,
    whole_alone,
};
use crate::scratch::{Desk, Scratch};
use crate::stretches::find_first;
use crate::table_room::TableRoom;
use sedpass::groups::Tables;
use sedpass::nodes::Prepared;
use sedpass::table::Table;
use sedre::{Expr, Steps};
use sedtext::counted::Text;
use sedtext::counted::lookups::{find_literal, sift};
use sedtext::hints::Begins;
use sedtext::links::chain_of;
use std::alloc::{AllocError, Global};
use std::marker::Model;

/// Of fewer bytes a text is searched at once: that a pass over it is paid for is proved by their number.
const LONG_TEXT: usize = 16;

/// How an expression is searched.
#[derive(Drop)]
pub enum SearchMethod {
    /// By a look at the text, since its matches have this form.
    Direct(DirectForm),
    /// By passes.
    Passes(Box<Passes>),
}

/// An expression that is sought many times: what was found out of it, and of texts, serves at all later texts.
///
/// All room is taken in [`TableMatcher::new`]. An expression that a look at the text settles has no table, any other four, as far as
/// the room that is given goes; their memory is touched as states of passes are found. Where an expression is used once,
/// [`crate::find`] is the better choice: it needs no table.
#[derive(Drop)]
pub struct TableMatcher {
    expr: Expr,
    method: SearchMethod,
}

impl Model for TableMatcher {
    ghost use Rattle.sedre.specs.Tree.{WrittenExpression};

    ghost Value = { WrittenExpression };

    ghost use Rattle.sedmatch.specs.Passes.{IsSearchedBy};

    ghost view = { λ m. m.expr };

    ghost invariant = { λ m. IsSearchedBy m.expr m.method };
}

/// The next occurrence by a look at the text.
#[inline(always)]
fn next_direct(
    form: &DirectForm,
    text: &Text,
    last: Option<usize>,
    steps: &mut Steps,
) -> Option<Span>
    requires last { EndsWithin (length text.now) last }
    ensures next { (e : WrittenExpression) → IsDirect e form.now → result ≡ next_span (leftmost_longest (expression_tree e) text.now) (length text.now) last }
    ensures lies { IfSome result (LiesOn (length text.now) last) }
    ensures cost { CostsWithin steps.old steps.new (owed_direct (length text.now) last) (owed_after_search (λ q. owed_direct (length text.now) (Some q)) result) }
    ensures counts { IfSome result (λ f. TakesAtLeast steps.old steps.new (f.1 - f.0)) }
    ensures passes { (e : WrittenExpression) → IsDirect e form.now → CanEndEarly (expression_tree e) → IfSome result (λ f. TakesAtLeast steps.old steps.new (bytes_passed last f)) }
{
    let first = direct_span(form, text, last.unwrap_or(0), steps);
    match last {
        None => first,
        Some(at) if !is_null_at(first, at) => first,
        Some(at) if at < text.len() => direct_span(form, text, at + 1, steps),
        Some(_) => None,
    }
}

/// Whether one pass showed that there is no occurrence, before the first one is sought: where nothing is known of how matches begin,
/// the search would try each place of a text without one.
fn has_none(
    prepared: &Prepared,
    text: &Text,
    tables: &mut Tables,
    last: Option<usize>,
    steps: &mut Steps,
) -> bool
    requires tables { AreTables prepared.now tables.old }
    ensures tables { AreTables prepared.now tables.new }
    ensures none { IsTrue result → (last ≡ None) × (SomeFound (expression_tree prepared.now) text.now 0 → ⊥) }
    ensures cost { IsLook (length prepared.now.nodes) (length text.now) last steps.old steps.new }
{
    let hints = prepared.hints();
    last.is_none()
        && text.len() >= LONG_TEXT
        && hints.required.is_none()
        && matches!(hints.begins, Begins::Anyhow)
        && !matches_with(prepared, text, tables, 0, steps)
}

/// The next occurrence by passes.
fn next_by_passes(
    expr: &Expr,
    passes: &mut Passes,
    text: &Text,
    last: Option<usize>,
    occurrences: &mut Occurrences,
    desk: &mut Desk,
    steps: &mut Steps,
) -> Option<Span>
    requires passes { ArePasses expr.now passes.old }
    requires desk { IsDeskFor expr.now text.now desk.old }
    requires last { EndsWithin (length text.now) last }
    requires serves { ServesFrom expr.now text.now last occurrences.old }
    ensures passes { ArePasses expr.now passes.new }
    ensures desk { KeepsDesk desk.old desk.new }
    ensures answered { AnswersNext expr.now text.now last occurrences.old occurrences.new steps.old steps.new result }
{
    let prepared = &Prepared::of(expr, &passes.analysis);
    if let Some(own) = &mut passes.own {
        if has_none(prepared, text, own, last, steps) {
            return None;
        }
        let forward_one = &mut own.forward_one;
        return next_by(prepared, text, forward_one, occurrences, last, steps);
    }
    let forward_one = &mut desk.shared.forward_one;
    forward_one.fit(prepared);
    next_by(prepared, text, forward_one, occurrences, last, steps)
}

impl TableMatcher {
    /// The expression with empty tables, which take no more than the room that is given. Looks at the expression's nodes are
    /// counted in `steps`; no text is searched, so no bound is given here. Fails only where a request for memory was refused.
    pub fn new(
        alloc: Global,
        expr: &Expr,
        room: TableRoom,
        steps: &mut Steps,
    ) -> Result<TableMatcher, AllocError>
        ensures { IfOk result (λ m. m ≡ expr.now) }
    {
        let chain = chain_of(alloc, expr, steps)?;
        let method = match direct_form_of(alloc, expr, &chain, steps)? {
            Some(form) => SearchMethod::Direct(form),
            None => {
                let passes = new_passes(alloc, expr, &chain, room, steps)?;
                SearchMethod::Passes(Box::new(alloc, passes)?)
            }
        };
        let expr = expr.copy(alloc)?;
        Ok(TableMatcher { expr, method })
    }

    /// Lets it go. By this call what it holds is proved to be let go of once, and not in each crate above.
    pub fn close(self) {
        drop(self);
    }

    /// Lets matchers go, as `close` does one.
    pub fn close_all(matchers: Vec<TableMatcher>) {
        drop(matchers);
    }

    /// How many bytes its own tables take at most, with the one for all occurrences in a text.
    pub fn size_of_tables(&self) -> usize {
        match &self.method {
            SearchMethod::Direct(_) => 0,
            SearchMethod::Passes(passes) => match &passes.own {
                Some(own) => size_of_tables(self.expr.nodes(), own.forward_any.room),
                None => 0,
            },
        }
    }

    /// A table of passes from the text's end, if it has tables of its own.
    pub(crate) fn reverse_table(&self, alloc: Global) -> Result<Option<Table>, AllocError>
        ensures { IfOk result (λ t. IfSome t (IsReverseAny self.now)) }
    {
        let SearchMethod::Passes(passes) = &self.method else {
            return Ok(None);
        };
        let Some(own) = &passes.own else {
            return Ok(None);
        };
        let (states, nodes) = (own.reverse_one.room, self.expr.nodes());
        let mut table = Table::with_room(alloc, REVERSE_ANY, states, nodes)?;
        table.fit(&Prepared::of(&self.expr, &passes.analysis));
        Ok(Some(table))
    }

    /// How many nodes the expression has.
    pub fn nodes(&self) -> usize
        ensures { result ≡ length self.now.nodes }
    {
        self.expr.nodes()
    }

    /// A place of a text of many lines before which no line has a match, each line taken as a text of its own; None where no
    /// line has one. It is found by what every match contains, a literal mostly. Where nothing of the kind is known, it is the
    /// first place.
    pub fn candidate(&self, text: &Text, steps: &mut Steps) -> Option<usize>
        ensures before { NoMatchBefore (expression_tree self.now) text.now result }
        ensures cost { Takes steps.old steps.new (25 * (length text.now + 1)) }
        ensures counts { IfSome result (λ k. TakesAtLeast steps.old steps.new k) }
    {
        match &self.method {
            SearchMethod::Direct(form) => match form {
                DirectForm::Stretch(stretch) => find_first(stretch, text, 0, steps),
                DirectForm::Literal(finder) => find_literal(text, finder, 0, steps),
                DirectForm::FixedRun(_, _) => Some(0),
            },
            SearchMethod::Passes(passes) => {
                let hints = &passes.analysis.hints;
                match (&hints.required, &hints.begins) {
                    (Some(required), _) => find_literal(text, &required.finder, 0, steps),
                    (None, Begins::Before(sieve)) => sift(text, sieve, 0, steps),
                    _ => Some(0),
                }
            },
        }
    }

    /// Whether any match begins at `from` or later. Its steps are in proportion to the text, whatever the expression.
    pub fn is_match(
        &mut self,
        text: &Text,
        from: usize,
        scratch: &mut Scratch,
        steps: &mut Steps,
    ) -> bool
        requires from { from ≤ length text.now }
        requires fits { FitInto (length text.now) (length self.old.nodes) scratch.old }
        ensures same { self.new ≡ self.old }
        ensures scratch { scratch.new ≡ scratch.old }
        ensures matches { IsTrue result ↔ SomeFound (expression_tree self.old) text.now from }
        ensures computed { result ≡ is_some (leftmost_longest (expression_tree self.old) text.now from) }
        ensures passes { IsTrue result → LooksPast (expression_tree self.old) text.now from steps.old steps.new }
        ensures cost { Takes steps.old steps.new (64 * length self.old.nodes * (length text.now + 1)) }
    {
        let desk = &mut scratch.desk;
        let expr = &self.expr;
        match &mut self.method {
            SearchMethod::Direct(form) => direct_matches(form, text, from, steps),
            SearchMethod::Passes(passes) => matches_by(expr, passes, text, from, desk, steps),
        }
    }

    /// The next occurrence in the text after the one that ended at `last`, where there was one: the leftmost-longest
    /// match from there on, or one byte further where that is the null string at `last`.
    ///
    /// All calls for one text, from [`Occurrences::begin`] on, take at most 416 steps for each node and place together.
    /// Conditions: `begin` was called for this matcher's number, `last` is what the call before answered, `None` in the first
    /// one. After `None` begin anew.
    #[inline(always)]
    pub fn next_occurrence(
        &mut self,
        text: &Text,
        last: Option<usize>,
        occurrences: &mut Occurrences,
        scratch: &mut Scratch,
        steps: &mut Steps,
    ) -> Option<(usize, usize)>
        requires last { EndsWithin (length text.now) last }
        requires fits { FitInto (length text.now) (length self.old.nodes) scratch.old }
        requires serves { ServesFrom self.old text.now last occurrences.old }
        ensures same { self.new ≡ self.old }
        ensures scratch { scratch.new ≡ scratch.old }
        ensures next { result ≡ next_span (leftmost_longest (expression_tree self.old) text.now) (length text.now) last }
        ensures occurs { IfSome result (OccursAfter (expression_tree self.old) text.now last) }
        ensures serves { ServesOn self.old text.now result occurrences.old occurrences.new }
        ensures cost { let m = length self.old.nodes in let n = length text.now in
            CostsWithin steps.old steps.new (owed m n last occurrences.old) (owed_after m n result occurrences.new) }
        ensures once { let m = length self.old.nodes in let n = length text.now in
            Takes steps.old steps.new (64 * m * m * (n + 1) * (n + 1)) }
        ensures counts { IfSome result (λ f. TakesAtLeast steps.old steps.new (f.1 - f.0)) }
        ensures passes { CanEndEarly (expression_tree self.old) → IfSome result (λ f. TakesAtLeast steps.old steps.new (bytes_passed last f)) }
    {
        let expr = &self.expr;
        match &mut self.method {
            SearchMethod::Direct(form) => next_direct(form, text, last, steps),
            SearchMethod::Passes(passes) => {
                let desk = &mut scratch.desk;
                next_by_passes(expr, passes, text, last, occurrences, desk, steps)
            },
        }
    }

    /// What each group reports of a match that begins and ends at these places. Entry 0 is the whole match.
    pub fn groups_of(
        &mut self,
        text: &Text,
        start: usize,
        end: usize,
        scratch: &mut Scratch,
        steps: &mut Steps,
    ) -> [Option<(usize, usize)>; 10]
        requires order { start ≤ end }
        requires inside { end ≤ length text.now }
        requires spans { Matches (expression_tree self.old) text.now start end }
        requires fits { FitInto (length text.now) (length self.old.nodes) scratch.old }
        ensures same { self.new ≡ self.old }
        ensures scratch { scratch.new ≡ scratch.old }
        ensures groups { result ≡ reported_groups (expression_tree self.old) text.now start end }
        ensures lies { (k : ℕ) → SpanIn (length text.now) (span_of result k) }
        ensures none_cost { self.old.groups ≡ 0 → steps.new ≡ steps.old }
        ensures cost { let m = length self.old.nodes in let n = length text.now in
            Takes steps.old steps.new (51 * m * m * (n + 1) * (n + 1)) }
        ensures linear_cost { let m = length self.old.nodes in
            Takes steps.old steps.new (172 * m * group_depth (expression_tree self.old) * (end - start) + 2 * m) }
        ensures deep { group_depth (expression_tree self.old) < length self.old.nodes }
        ensures counts { TakesAtLeast steps.old steps.new (spans_in result - 1) }
        ensures entered { EntersGroups (expression_tree self.old) text.now start end steps.old steps.new }
    {
        let (span, expr, desk) = ((start, end), &self.expr, &mut scratch.desk);
        match &mut self.method {
            SearchMethod::Direct(_) => whole_alone(span),
            SearchMethod::Passes(passes) => groups_by(expr, passes, text, span, desk, steps),
        }
    }
}
