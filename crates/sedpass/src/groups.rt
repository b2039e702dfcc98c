//! Which span each group of a match has, decided from the match's end: what is written first stays.
//!
//! A spine goes from a node to what ends where the node does, in one region of the kept pass, and writes the groups that
//! are due. What lies left of it waits as a task.
ghost use Rattle.std.specs.Prelude.{◌≡◌, [], ◌∷◌, reverse, ◌+◌, ◌-◌, ◌*◌, ◌^◌, ◌≤◌, ◌<◌, length, IfOk, IfSome, vec_capacity};
ghost use Rattle.std.specs.List.{AllByRecursion};
ghost use Rattle.sedre.specs.Arena.{IsArena};
ghost use Rattle.sedre.specs.Tree.{tree_at, expression_tree};
ghost use Rattle.sedre.specs.Steps.{CostsWithin, Takes, TakesAtLeast};
ghost use Rattle.sedre.specs.declared.types.Node.TheVariants.{Seq, Star};
ghost use Rattle.sedtext.specs.Caps.{LastCut, IsReport};
ghost use Rattle.sedtext.specs.Groups.{group_depth};
ghost use Rattle.sedtext.specs.Places.{Ascending};
ghost use Rattle.sedtext.specs.Reach.{HasSpan};
ghost use Rattle.sedpass.specs.Decide.{spans_in, known_groups, HasBlank, IsAtEnd, IsCopyFrom, NodeTurned, Works, tasks_cost, HasNoKnownLength, HasDesk, AreTables, AreRoomy, IsTaskReady, HasSpace, SameRooms, KeepsGroupDesk, KeepsGroupRoom, nodes_in, subject_text, weights};
ghost use Rattle.sedpass.specs.Kept.{SameKept, owed_region};
ghost use Rattle.sedpass.specs.Rows.{root_of};
ghost use Rattle.sedpass.specs.Walks.{EntersGroups};
ghost use Rattle.sedpass.specs.declared.groups.GroupTask.TheVariants.{Apart};

use crate::group_set::GroupSet;
use crate::kept::{Kept, Subject};
use crate::nodes::{Facts, Prepared};
use crate::rows::Way;
use crate::table::Table;
use sedre::{Node, NodeId, Steps};
use std::alloc::{AllocError, Global};

/// The spans of the groups; entry 0 is the whole match.
pub type GroupSpans = [Option<(usize, usize)>; 10];

/// A node, and the span that it matches.
#[derive(Clone, Copy)]
pub struct Matched {
    /// The node.
    pub node: usize,
    /// Where its match begins.
    pub start: usize,
    /// Where it ends.
    pub stop: usize,
}

/// One thing that is still to do.
#[derive(Clone, Copy)]
pub enum GroupTask {
    /// Decide the groups of a node on a span, in a region of its own.
    Apart(Matched),
    /// What is still due of a node's groups has no span.
    Forget(usize),
}

/// What comes in place of a node that was looked at.
#[derive(Clone, Copy)]
pub enum Then {
    /// Nothing.
    Done,
    /// A match in the same region.
    One(Matched),
    /// Such a match, and a task after it.
    Two(Matched, GroupTask),
}

/// The tables by which an expression is searched.
#[derive(Drop)]
pub struct Tables {
    /// Forwards, every place a start.
    pub forward_any: Table,
    /// Forwards from one start.
    pub forward_one: Table,
    /// The same, for parts of an expression while groups are decided, so that no state of a search goes for theirs.
    pub forward_part: Table,
    /// Backwards from a region's end, the states of its places kept.
    pub reverse_one: Table,
}

/// What is known of the groups so far.
#[derive(Clone, Copy)]
pub struct Decided {
    /// The groups for which nothing was written yet.
    pub due: GroupSet,
    /// What was written.
    pub spans: GroupSpans,
}

/// Room to decide groups in.
#[derive(Drop)]
pub struct GroupRoom {
    /// The region.
    pub kept: Kept,
    /// The tasks that wait, the next one last.
    pub tasks: Vec<GroupTask>,
}

/// The way of passes forwards in which every place is a start.
const FORWARD_ANY: Way = Way {
    mirrored: false,
    all_starts: true,
};

/// The way of passes forwards, each from one start.
const FORWARD_ONE: Way = Way {
    mirrored: false,
    all_starts: false,
};

/// The way of passes backwards from a region's end.
const REVERSE_ONE: Way = Way {
    mirrored: true,
    all_starts: false,
};

impl Tables {
    /// Empty tables with room for so many states each of any expression of at most so many nodes, which serve none yet. Fails
    /// only where a request for memory was refused.
    pub fn with_room(alloc: Global, room: usize, nodes: usize) -> Result<Tables, AllocError>
        requires some { 2 ≤ room }
        requires few { room ≤ 65535 }
        requires nodes { 1 ≤ nodes }
        requires short { nodes ≤ 65536 }
        ensures tables { IfOk result (λ t. AreRoomy nodes t) }
        ensures room { IfOk result (λ t. (t.reverse_one.room ≡ room) × (t.forward_one.room ≡ room)) }
    {
        Ok(Tables {
            forward_any: Table::with_room(alloc, FORWARD_ANY, room, nodes)?,
            forward_one: Table::with_room(alloc, FORWARD_ONE, room, nodes)?,
            forward_part: Table::with_room(alloc, FORWARD_ONE, room, nodes)?,
            reverse_one: Table::with_room(alloc, REVERSE_ONE, room, nodes)?,
        })
    }

    /// Begins to serve an expression, and forgets what was of another one.
    pub fn fit(&mut self, prepared: &Prepared)
        requires roomy { AreRoomy (length prepared.now.nodes) self.old }
        ensures tables { AreTables prepared.now self.new }
        ensures room { SameRooms self.old self.new }
    {
        self.forward_any.fit(prepared);
        self.forward_one.fit(prepared);
        self.forward_part.fit(prepared);
        self.reverse_one.fit(prepared);
    }
}

impl GroupRoom {
    /// Room for texts of at most `max_text` bytes, which are cut into at most `blocks` blocks, and expressions of at most `nodes`
    /// nodes. Fails only where a request for memory was refused.
    pub fn new(
        alloc: Global,
        max_text: usize,
        blocks: usize,
        nodes: usize,
    ) -> Result<GroupRoom, AllocError>
        requires text { max_text ≤ 2 ^ 30 }
        requires blocks { blocks ≤ 32768 }
        requires nodes { nodes ≤ 65536 }
        ensures { IfOk result (λ r. HasSpace max_text blocks nodes r) }
    {
        let tasks = Vec::with_capacity(alloc, 2 * nodes)?;
        let kept = Kept::new(alloc, max_text, blocks, nodes)?;
        Ok(GroupRoom { kept, tasks })
    }
}

/// Where the last copy of a repetition begins, if it takes one.
#[tactic(auto, using(crate::proofs::TurnLemmas::star_within), unfolding(sedre::specs::Steps::TakesAtLeast, sedre::specs::Steps::IsCounted))]
fn last_copy(
    subject: Subject,
    tables: &mut Tables,
    kept: &mut Kept,
    here: Matched,
    a: NodeId,
    first: bool,
    steps: &mut Steps,
) -> Option<usize>
    requires { IsAtEnd subject tables.old kept.old here (Star a first) }
    ensures copy { IsCopyFrom subject.entry here a first result }
    ensures desk { KeepsGroupDesk subject.entry tables.old tables.new kept.old kept.new }
    ensures cost { let m = length (nodes_in subject.entry) in
        Takes steps.old steps.new (owed_region m kept.old.region here.start + 72 * m * (here.stop - here.start) + 1) }
    ensures counts { HasNoKnownLength (nodes_in subject.entry) a.index → TakesAtLeast steps.old steps.new (here.stop - here.start) }
{
    let part = a.index();
    if here.start == here.stop {
        // A repetition that matches the null string takes one empty copy of its part, if it can.
        let copy = first && subject.is_null(part, here.start, steps);
        return copy.then_some(here.start);
    }
    if let Some(length) = subject.prepared.facts(part).length {
        return Some(here.stop - length);
    }
    let mut copy = here.start;
    let mut end = here.start;
    'copies: while end < here.stop {
        copy = end;
        let (reverse_one, forward_part) = (&mut tables.reverse_one, &mut tables.forward_part);
        end = kept.cut(subject, reverse_one, forward_part, part, copy, steps);
    }
    Some(copy)
}

/// Where a concatenation is cut: the greatest place at which its left part ends and from which its right part matches.
#[tactic(auto, using(crate::proofs::KeptLemmas::same_kept, crate::proofs::TurnLemmas::seq_within, std::proofs::lemmas::Option::slice_get_within), unfolding(sedre::specs::Steps::TakesAtLeast, sedre::specs::Steps::IsCounted))]
fn last_cut(
    subject: Subject,
    tables: &mut Tables,
    kept: &mut Kept,
    here: Matched,
    a: NodeId,
    b: NodeId,
    steps: &mut Steps,
) -> usize
    requires { IsAtEnd subject tables.old kept.old here (Seq a b) }
    ensures cut { LastCut (HasSpan (nodes_in subject.entry) (subject_text subject.entry) a.index) (HasSpan (nodes_in subject.entry) (subject_text subject.entry) b.index) here.start here.stop result }
    ensures same { SameKept kept.old kept.new }
    ensures desk { KeepsGroupDesk subject.entry tables.old tables.new kept.old kept.new }
    ensures cost { let m = length (nodes_in subject.entry) in
        CostsWithin steps.old steps.new (owed_region m kept.old.region here.start + 72 * m * result + 1) (owed_region m kept.new.region result + 72 * m * here.start) }
    ensures counts { HasNoKnownLength (nodes_in subject.entry) a.index → HasNoKnownLength (nodes_in subject.entry) b.index → TakesAtLeast steps.old steps.new (result - here.start) }
{
    if here.start == here.stop {
        return here.start;
    }
    let left = a.index();
    let known = subject.prepared.facts(left);
    // the length of a part decides it, if it is known
    if let Some(length) = known.length {
        return subject.text.after(here.start, length);
    }
    if let Some(length) = subject.prepared.facts(b.index()).length {
        return here.stop - length;
    }
    let (reverse_one, forward_part) = (&mut tables.reverse_one, &mut tables.forward_part);
    if let Some(leaf) = known.run {
        return kept.seek(subject, reverse_one, leaf, here.start, false, steps);
    }
    // no pass over it where the left part takes no byte
    if !kept.marks(subject, reverse_one, left, here.start, steps) {
        return here.start;
    }
    kept.cut(subject, reverse_one, forward_part, left, here.start, steps)
}

/// What comes in place of a node of this kind.
#[tactic(auto, using(crate::proofs::TurnLemmas::alt_inside, crate::proofs::TurnLemmas::opt_inside, crate::proofs::TurnLemmas::star_within), unfolding(sedre::specs::Steps::TakesAtLeast, sedre::specs::Steps::IsCounted))]
fn turn_node(
    subject: Subject,
    tables: &mut Tables,
    kept: &mut Kept,
    decided: &mut Decided,
    here: Matched,
    kind: &Node,
    steps: &mut Steps,
) -> Then
    requires at { IsAtEnd subject tables.old kept.old here kind.now }
    requires decided { HasBlank decided.old }
    ensures turned { NodeTurned subject.entry here kind.now (known_groups decided.old) (known_groups decided.new) kept.old.region kept.new.region result
        steps.old steps.new }
    ensures desk { KeepsGroupDesk subject.entry tables.old tables.new kept.old kept.new }
    ensures decided { HasBlank decided.new }
    ensures few { spans_in decided.new.spans ≤ spans_in decided.old.spans + 1 }
{
    match kind {
        // The right part, and then the left one.
        Node::Seq(a, b) => {
            let stop = last_cut(subject, tables, kept, here, *a, *b, steps);
            let node = a.index();
            let left = Matched { node, stop, ..here };
            let (node, start, stop) = (b.index(), stop, here.stop);
            Then::Two(Matched { node, start, stop }, GroupTask::Apart(left))
        }
        // The left alternative, if it matches, and else the right one.
        Node::Alt(a, b) => {
            let (left, reverse_one) = (a.index(), &mut tables.reverse_one);
            let spans = if here.start == here.stop {
                subject.is_null(left, here.start, steps)
            } else {
                kept.marks(subject, reverse_one, left, here.start, steps)
            };
            let node = if spans { *a } else { *b }.index();
            Then::One(Matched { node, ..here })
        }
        Node::Group(k, a) => {
            if decided.due.has(*k) {
                decided.due = decided.due.without(GroupSet::one(*k));
                decided.spans[*k] = Some((here.start, here.stop));
            }
            let node = a.index();
            Then::Two(Matched { node, ..here }, GroupTask::Forget(node))
        }
        // The last copy, in a region of its own.
        Node::Star(a, first) => match last_copy(subject, tables, kept, here, *a, *first, steps) {
            None => Then::Done,
            Some(start) => {
                let (node, stop) = (a.index(), here.stop);
                kept.begin(subject, &tables.reverse_one, node, stop);
                Then::Two(Matched { node, start, stop }, GroupTask::Forget(node))
            }
        },
        Node::Opt(a, first) => {
            let node = a.index();
            if here.start < here.stop || *first && subject.is_null(node, here.start, steps) {
                Then::Two(Matched { node, ..here }, GroupTask::Forget(node))
            } else {
                Then::Done
            }
        }
        _ => Then::Done,
    }
}

/// Goes from a match to what ends where it does, and writes the groups that are due there.
#[tactic(auto, using(crate::proofs::SpineLemmas::waiting), unfolding(sedre::specs::Steps::TakesAtLeast, sedre::specs::Steps::IsCounted))]
fn spine(
    subject: Subject,
    tables: &mut Tables,
    room: &mut GroupRoom,
    decided: &mut Decided,
    here: Matched,
    steps: &mut Steps,
)
    requires arena { IsArena (nodes_in subject) }
    requires ready { AllByRecursion (IsTaskReady (nodes_in subject) (subject_text subject)) (Apart here ∷ reverse room.old.tasks.items) }
    requires enough { weights (nodes_in subject) (Apart here ∷ reverse room.old.tasks.items) ≤ vec_capacity room.old.tasks }
    requires desk { HasDesk subject tables.old room.old.kept }
    requires blank { HasBlank decided.old }
    ensures room { KeepsGroupRoom subject.entry tables.old tables.new room.old room.new }
    ensures works { let tasks = Apart here ∷ reverse room.old.tasks.items in
        let rest = reverse room.new.tasks.items in
        Works subject.entry tasks decided.old rest decided.new 1 (tasks_cost (nodes_in subject.entry) tasks) (tasks_cost (nodes_in subject.entry) rest) steps.old steps.new }
{
    room.kept
        .begin(subject, &tables.reverse_one, here.node, here.stop);
    let mut at = here;
    'nodes: loop {
        let groups = subject.prepared.facts(at.node).groups;
        if !groups.meets(decided.due) {
            return;
        }
        let node = subject.prepared.look(at.node, false, steps);
        let kept = &mut room.kept;
        match turn_node(subject, tables, kept, decided, at, &node, steps) {
            Then::Done => return,
            Then::One(next) => at = next,
            Then::Two(next, later) => {
                room.tasks.push_reserved(later);
                at = next;
            }
        }
    }
}

/// The groups of the match `start..stop` of the whole expression.
pub fn decide(
    subject: Subject,
    tables: &mut Tables,
    room: &mut GroupRoom,
    start: usize,
    stop: usize,
    steps: &mut Steps,
) -> GroupSpans
    requires order { Ascending start stop (length (subject_text subject)) }
    requires spans { HasSpan (nodes_in subject) (subject_text subject) (root_of subject.prepared.now) start stop }
    requires tasks { room.old.tasks.items ≡ [] }
    requires room { 2 * length (nodes_in subject) ≤ vec_capacity room.old.tasks }
    requires desk { HasDesk subject tables.old room.old.kept }
    ensures report { IsReport (expression_tree subject.entry.prepared.now) (subject_text subject.entry) start stop result }
    ensures tasks { room.new.tasks.items ≡ [] }
    ensures room { KeepsGroupRoom subject.entry tables.old tables.new room.old room.new }
    ensures cost { let m = length (nodes_in subject.entry) in
        Takes steps.old steps.new (172 * m * group_depth (expression_tree subject.entry.prepared.now) * (stop - start) + 2 * m) }
    ensures counts { TakesAtLeast steps.old steps.new (spans_in result - 1) }
    ensures entered { EntersGroups (expression_tree subject.entry.prepared.now) (subject_text subject.entry) start stop steps.old steps.new }
{
    let node = subject.prepared.root();
    let due = subject.prepared.facts(node).groups;
    let mut spans = [None; 10];
    spans[0] = Some((start, stop));
    let mut decided = Decided { due, spans };
    let whole = Matched { node, start, stop };
    room.tasks.push_reserved(GroupTask::Apart(whole));
    'all: while let Some(task) = room.tasks.pop() {
        match task {
            GroupTask::Forget(x) => {
                decided.due = decided.due.without(subject.prepared.facts(x).groups);
            }
            GroupTask::Apart(here) => spine(subject, tables, room, &mut decided, here, steps),
        }
    }
    decided.spans
}
