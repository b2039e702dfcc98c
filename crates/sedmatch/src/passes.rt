//! An expression that is searched by passes: what is found out of it once, its tables, and what they show of a text.
ghost use Rattle.std.specs.Prelude.{◌≡◌, ℕ, List, ◌+◌, ◌-◌, ◌*◌, ◌/◌, ◌<◌, ◌≤◌, ◌↔◌, [], length, vec_capacity, IfOk, IsTrue};
ghost use Rattle.sedre.specs.Arena.{IsExpr};
ghost use Rattle.sedre.specs.Tree.{WrittenExpression, expression_tree};
ghost use Rattle.sedre.specs.Steps.{Takes};
ghost use Rattle.sedtext.specs.Following.{LooksPast};
ghost use Rattle.sedtext.specs.Links.{IsChain};
ghost use Rattle.sedtext.specs.Places.{Ascending};
ghost use Rattle.sedtext.specs.Spans.{SomeFound, Matches};
ghost use Rattle.sedpass.specs.Decide.{AreTables, HasDesk, KeepsGroupRoom, SameRooms};
ghost use Rattle.sedmatch.specs.Passes.{ArePasses, IsDeskFor, KeepsDesk, AnswersGroups, AnswersMatch};

use crate::Span;
use crate::scratch::Desk;
use crate::table_room::TableRoom;
use sedpass::groups::{GroupRoom, GroupSpans, Tables, decide};
use sedpass::kept::{Kept, Subject};
use sedpass::nodes::{Analysis, Prepared};
use sedpass::rows::{TAKERS, Way};
use sedre::{Expr, Steps};
use sedtext::counted::Text;
use sedtext::hints::{Begins, Hints};
use sedtext::links::Link;
use std::alloc::{AllocError, Global};

/// What passes over an expression need.
#[derive(Drop)]
pub struct Passes {
    /// What was found out of it.
    pub analysis: Analysis,
    /// Its own tables, if there is room for them.
    pub own: Option<Tables>,
}

/// The way of passes from the text's end, of which each place's state is kept.
pub const REVERSE_ANY: Way = Way {
    mirrored: true,
    all_starts: true,
};

/// How many states the tables of an expression's own have where it has no more nodes.
const OWN_STATES: usize = 513;

/// With fewer states than so many they'd serve worse than those that serve all expressions,
const FEW_STATES: usize = 16;

/// and with fewer than so many they'd be worth no room where texts without a literal have no match, so that they're seldom asked.
const FEW_WITH_LITERAL: usize = 64;

/// How many tables an expression has: four in [`Tables`], and `reverse_any` for all occurrences in a text.
const TABLES: usize = 5;

/// How many bytes note for a node where passes begin, eight for each of four kinds of place in three tables of passes from one start, and
/// which leaves take bytes, a bit for each column with a row of them in each table,
const NOTES_OF_NODE: usize = 3 * 4 * 8 + TABLES * 8;

/// and how many more such rows of bits take, of whole words.
const NOTES: usize = TABLES * TAKERS * 8;

/// How many bytes a state takes in all tables of an expression of so many nodes, at most.
fn size_of_state(nodes: usize) -> usize
    ensures { 0 < result }
{
    let cells = 16 * nodes.saturating_add(1).min(64);
    (cells + nodes / 4 + 64).saturating_mul(TABLES)
}

/// How many bytes notes take in all tables of an expression of so many nodes, at most.
fn size_of_notes(nodes: usize) -> usize {
    nodes.saturating_mul(NOTES_OF_NODE).saturating_add(NOTES)
}

/// How many bytes all tables of an expression of so many nodes take, with so many states each, at most.
pub fn size_of_tables(nodes: usize, states: usize) -> usize {
    size_of_state(nodes)
        .saturating_mul(states)
        .saturating_add(size_of_notes(nodes))
}

/// How many states each table has for so many bytes.
fn states_in(bytes: usize, nodes: usize) -> usize {
    bytes.saturating_sub(size_of_notes(nodes)) / size_of_state(nodes)
}

/// An expression that is searched by passes, whose chain this is, with its own tables if there is room for them.
pub fn new_passes(
    alloc: Global,
    expr: &Expr,
    chain: &[Link],
    room: TableRoom,
    steps: &mut Steps,
) -> Result<Passes, AllocError>
    requires chain { IsChain expr.now.nodes (expression_tree expr.now) chain.now }
    ensures { IfOk result (ArePasses expr.now) }
{
    let nodes = expr.nodes();
    let mut analysis = Analysis::with_room(alloc, nodes)?;
    analysis.fit(expr, steps);
    let hints = Hints::of(alloc, expr, chain, steps)?;
    let analysis = Analysis { hints, ..analysis };
    // Passes that count, as those of `(a{0,23}){23}`, come to about as many states as there are nodes.
    let most = room.states.clamp(2, nodes.clamp(OWN_STATES, 65535));
    let states = most.min(states_in(room.bytes, nodes));
    let few = match &analysis.hints.required {
        None => FEW_STATES,
        Some(_) => FEW_WITH_LITERAL,
    };
    let mut own = None;
    if states >= most.min(few) {
        let mut tables = Tables::with_room(alloc, states, nodes)?;
        tables.fit(&Prepared::of(expr, &analysis));
        own = Some(tables);
    }
    Ok(Passes { analysis, own })
}

/// Whether any match begins at a place or later, by these tables.
pub fn matches_with(
    prepared: &Prepared,
    text: &Text,
    tables: &mut Tables,
    from: usize,
    steps: &mut Steps,
) -> bool
    requires tables { AreTables prepared.now tables.old }
    requires from { from ≤ length text.now }
    ensures tables { AreTables prepared.now tables.new }
    ensures room { SameRooms tables.old tables.new }
    ensures matches { IsTrue result ↔ SomeFound (expression_tree prepared.now) text.now from }
    ensures passes { IsTrue result → LooksPast (expression_tree prepared.now) text.now from steps.old steps.new }
    ensures cost { Takes steps.old steps.new (43 * length prepared.now.nodes * (length text.now + 1)) }
{
    let hints = prepared.hints();
    let Some(start) = hints.next_start(text, from, steps) else {
        return false;
    };
    let (any, one) = (&mut tables.forward_any, &mut tables.forward_one);
    match &hints.begins {
        // The first place alone is a start, and a pass from it can end early.
        Begins::AtStart => one.run(prepared, text, start, steps).end.is_some(),
        _ => any.run(prepared, text, start, steps).end.is_some(),
    }
}

/// Whether any match begins at `from` or later.
pub fn matches_by(
    expr: &Expr,
    passes: &mut Passes,
    text: &Text,
    from: usize,
    desk: &mut Desk,
    steps: &mut Steps,
) -> bool
    requires from { from ≤ length text.now }
    requires passes { ArePasses expr.now passes.old }
    requires desk { IsDeskFor expr.now text.now desk.old }
    ensures passes { ArePasses expr.now passes.new }
    ensures desk { KeepsDesk desk.old desk.new }
    ensures answered { AnswersMatch expr.now text.now from steps.old steps.new result }
{
    let prepared = &Prepared::of(expr, &passes.analysis);
    let Some(start) = prepared.hints().skip_to_literal(text, from, steps) else {
        return false;
    };
    if let Some(own) = &mut passes.own {
        return matches_with(prepared, text, own, start, steps);
    }
    desk.shared.fit(prepared);
    matches_with(prepared, text, &mut desk.shared, start, steps)
}

/// The groups of a match of an expression without groups.
pub fn whole_alone(span: Span) -> GroupSpans
    ensures { (e : WrittenExpression) (w : List ℕ) (s : ℕ) → IsExpr e.nodes e.groups → e.groups ≡ 0 → Matches (expression_tree e) w span.0 span.1 →
        AnswersGroups e w span s s result }
{
    let mut groups = [None; 10];
    groups[0] = Some(span);
    groups
}

/// Whether the rows that are kept of blocks are enough for a text of so many bytes, where a table has room for so many states.
pub fn has_blocks(kept: &Kept, states: usize, bytes: usize) -> bool
    requires some { 2 ≤ states }
    requires few { states ≤ 65535 }
    requires rows { length kept.now.edges ≤ 65536 }
    ensures { IsTrue result → bytes < length kept.now.edges / 2 * (states - 1) }
{
    bytes < kept.edges.len() / 2 * (states - 1)
}

/// The groups of a match that begins and ends at these places, by tables for which there is room.
fn groups_with(
    subject: Subject,
    tables: &mut Tables,
    span: Span,
    room: &mut GroupRoom,
    steps: &mut Steps,
) -> GroupSpans
    requires order { Ascending span.0 span.1 (length subject.text.now) }
    requires spans { Matches (expression_tree subject.prepared.now) subject.text.now span.0 span.1 }
    requires desk { HasDesk subject tables.old room.old.kept }
    requires none { room.old.tasks.items ≡ [] }
    requires tasks { 2 * length subject.prepared.now.nodes ≤ vec_capacity room.old.tasks }
    ensures room { KeepsGroupRoom subject.entry tables.old tables.new room.old room.new }
    ensures none { room.new.tasks.items ≡ [] }
    ensures answered { AnswersGroups subject.entry.prepared.now subject.entry.text.now span steps.old steps.new result }
{
    if subject.prepared.groups() == 0 {
        return whole_alone(span);
    }
    decide(subject, tables, room, span.0, span.1, steps)
}

/// The same by the tables that serve all.
pub fn shared_groups(subject: Subject, span: Span, desk: &mut Desk, steps: &mut Steps) -> GroupSpans
    requires order { Ascending span.0 span.1 (length subject.text.now) }
    requires spans { Matches (expression_tree subject.prepared.now) subject.text.now span.0 span.1 }
    requires desk { IsDeskFor subject.prepared.now subject.text.now desk.old }
    ensures desk { KeepsDesk desk.old desk.new }
    ensures answered { AnswersGroups subject.entry.prepared.now subject.entry.text.now span steps.old steps.new result }
{
    desk.shared.fit(subject.prepared);
    groups_with(subject, &mut desk.shared, span, &mut desk.room, steps)
}

/// The groups of a match that begins and ends at these places.
pub fn groups_by(
    expr: &Expr,
    passes: &mut Passes,
    text: &Text,
    span: Span,
    desk: &mut Desk,
    steps: &mut Steps,
) -> GroupSpans
    requires order { Ascending span.0 span.1 (length text.now) }
    requires spans { Matches (expression_tree expr.now) text.now span.0 span.1 }
    requires passes { ArePasses expr.now passes.old }
    requires desk { IsDeskFor expr.now text.now desk.old }
    ensures passes { ArePasses expr.now passes.new }
    ensures desk { KeepsDesk desk.old desk.new }
    ensures answered { AnswersGroups expr.now text.now span steps.old steps.new result }
{
    let prepared = &Prepared::of(expr, &passes.analysis);
    let subject = Subject { prepared, text };
    if let Some(own) = &mut passes.own {
        if has_blocks(&desk.room.kept, own.reverse_one.room, text.len()) {
            return groups_with(subject, own, span, &mut desk.room, steps);
        }
    }
    shared_groups(subject, span, desk, steps)
}
