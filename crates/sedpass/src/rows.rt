//! The one act of the matcher: from the row of a place and the byte after it to the row of the next place.
//!
//! The row of a place shows which leaves are entered there, in a match from one of the pass's starts, and which nodes
//! ended there. The leaves entered decide, with the byte, the next row: upwards from those that take it, and downwards from what begins
//! there, over the marks that are set alone. A node's parts have lower numbers, so that one loop each way meets all of them. Rows of
//! marks contain what acts work on: the first two what is found out of a place, then which leaves take bytes, and then two for each
//! state, so that a row is made where it is kept.
ghost use Rattle.std.specs.Prelude.{◌≡◌, ◌≢◌, ℕ, Bool, false, ◌+◌, ◌-◌, ◌*◌, ◌<◌, ◌≤◌, ◌↔◌, ◌||◌, ◌&&◌, length, IfSome, IsTrue, None, Some, slice_get};
ghost use Rattle.std.specs.Option.{is_none};
ghost use Rattle.sedre.specs.Steps.{Takes, TakesAtLeast, TakesExactly};
ghost use Rattle.sedtext.specs.Words.{KeepsRows, row_of};
ghost use Rattle.sedpass.specs.Prepared.{null_in};
ghost use Rattle.sedpass.specs.Regions.{IsSetAt};
ghost use Rattle.sedpass.specs.Rows.{nodes_of, has_mark, marks_of, root_of, AddsMarks, AreTakers, AreWide, EndsAfter, EndsUpTo, EntersDownTo, MarkLeaves, StartsAfter, StartsWith, TakenBy, TookBy, IsApart, leaves_row, ends_row, takers_row};
ghost use Rattle.sedpass.specs.Table.{RowIs, edge_kind};
ghost use Rattle.sedre.specs.Arena.{IsPart};
ghost use Rattle.sedre.specs.declared.types.Node.{Node};

use crate::nodes::{PlaceKind, Prepared};
use sedre::{Node, Steps};
use sedtext::counted::{Blend, Rows};

/// In which way a pass goes.
#[derive(Clone, Copy)]
pub struct Way {
    /// From the text's end, over the mirrored expression. A row keeps the ends of all nodes then, and else those of the root alone.
    pub mirrored: bool,
    /// Every place is a start, not the first alone.
    pub all_starts: bool,
}

/// What an act is about.
#[derive(Clone, Copy)]
pub struct Act<'a> {
    /// The expression.
    pub prepared: &'a Prepared<'a>,
    /// The way of its pass.
    pub way: Way,
    /// The root of its pass.
    pub root: usize,
    /// The kind of the place whose row is made.
    pub kind: PlaceKind,
}

/// The row of the nodes that begin at the place.
pub const ENTERED: usize = 0;

/// The row of the nodes that end at the place after at least one byte.
pub const ENDED: usize = 1;

/// How many columns of bytes have a row of the leaves that take them.
pub const TAKERS: usize = 64;

/// The row of the leaves that take bytes of a column.
pub fn takers_row(column: usize) -> usize
    requires { column < 64 }
    ensures { result ≡ takers_row column }
{
    column + 2
}

/// The row of the leaves entered in a state.
pub fn leaves_row(state: usize) -> usize
    requires { state ≤ 65536 }
    ensures { result ≡ leaves_row state }
{
    2 * state + TAKERS + 2
}

/// The row of the nodes that end in a state after at least one byte, and of the root if it ends there as the null string.
pub fn ends_row(state: usize) -> usize
    requires { state ≤ 65536 }
    ensures { result ≡ ends_row state }
{
    2 * state + TAKERS + 3
}

/// Whether the node is a leaf that takes the byte.
fn is_taken_by(node: &Node, byte: u8) -> bool
    ensures { IsTrue result ↔ TakenBy (Some byte) node.now }
{
    match node {
        Node::Set(set) => set.has(byte),
        _ => false,
    }
}

/// Marks in a row which leaves take the byte.
pub fn mark_takers(act: Act, byte: u8, row: usize, rows: &mut Rows, steps: &mut Steps)
    requires row { row < length rows.old }
    requires wide { length act.prepared.now.nodes ≤ length (row_of rows.old row) }
    ensures keeps { KeepsRows (λ q. q ≢ row) rows.old rows.new }
    ensures takers { AreTakers (nodes_of act.entry.way act.entry.prepared.now) byte (row_of rows.new row) }
    ensures cost { Takes steps.old steps.new (2 * length act.entry.prepared.now.nodes) }
{
    for x in 0..act.prepared.nodes() {
        let node = act.prepared.look(x, act.way.mirrored, steps);
        rows.set(row, x, is_taken_by(&node, byte), steps);
    }
}

/// The leaves that were entered in a state and take the byte that came have ended, and nothing else. `takers` is the row of the leaves
/// that take it, where there is one and the root is the expression's.
pub fn take(
    act: Act,
    byte: u8,
    takers: Option<usize>,
    state: usize,
    rows: &mut Rows,
    steps: &mut Steps,
)
    requires root { act.root < length act.prepared.now.nodes }
    requires wide { AreWide (length act.prepared.now.nodes) state rows.old }
    requires takers { IfSome takers (λ q. (2 ≤ q) × (q < length rows.old) × (act.root ≡ root_of act.prepared.now) × AreTakers (nodes_of act.way act.prepared.now) byte (row_of rows.old q)) }
    ensures keeps { KeepsRows (λ q. q ≢ 1) rows.old rows.new }
    ensures took { TookBy (nodes_of act.entry.way act.entry.prepared.now) act.entry.root (has_mark (row_of rows.old (leaves_row state))) (Some byte) (has_mark (row_of rows.new 1)) }
    ensures leaves { MarkLeaves (nodes_of act.entry.way act.entry.prepared.now) act.entry.root (row_of rows.new 1) }
    ensures cost { Takes steps.old steps.new (4 * length act.entry.prepared.now.nodes) }
    ensures fewer { IfSome takers (λ q. Takes steps.old steps.new (length act.entry.prepared.now.nodes)) }
    ensures counts { TakesAtLeast steps.old steps.new (length act.entry.prepared.now.nodes) }
{
    let nodes = act.prepared.nodes();
    let (leaves, low, end) = (leaves_row(state), act.prepared.low(act.root), act.root + 1);
    if let Some(row) = takers {
        rows.blend(Blend::Both, ENDED, leaves, row, nodes, steps);
        return;
    }
    rows.clear(ENDED, nodes, steps);
    let mut x = rows.next_set(leaves, low, end, steps);
    while x < end {
        let node = act.prepared.look(x, act.way.mirrored, steps);
        rows.set(ENDED, x, is_taken_by(&node, byte), steps);
        x = rows.next_set(leaves, x + 1, end, steps);
    }
}

/// Nothing has ended at a place, and nothing begins there yet.
pub fn forget(act: Act, rows: &mut Rows, steps: &mut Steps)
    requires root { act.root < length act.prepared.now.nodes }
    requires wide { AreWide (length act.prepared.now.nodes) 0 rows.old }
    ensures keeps { KeepsRows (λ q. 2 ≤ q) rows.old rows.new }
    ensures ended { EndsUpTo (nodes_of act.entry.way act.entry.prepared.now) act.entry.root (λ c. false) (null_in act.entry.prepared.now.nodes act.entry.kind) (row_of rows.new 1) act.entry.root }
    ensures entered { EntersDownTo (nodes_of act.entry.way act.entry.prepared.now) act.entry.root false (null_in act.entry.prepared.now.nodes act.entry.kind)
        (row_of rows.new 1) (row_of rows.new 0) (act.entry.root + 1) (act.entry.root + 1) }
    ensures cost { Takes steps.old steps.new (2 * length act.entry.prepared.now.nodes) }
    ensures counts { TakesAtLeast steps.old steps.new (2 * length act.entry.prepared.now.nodes) }
{
    let nodes = act.prepared.nodes();
    rows.clear(ENDED, nodes, steps);
    rows.clear(ENTERED, nodes, steps);
}

/// What follows where the node y has ended, which isn't the root: whether its parent has ended too, and which part of that begins here.
fn follow(act: Act, y: usize, rows: &mut Rows, steps: &mut Steps)
    requires root { act.root < length act.prepared.now.nodes }
    requires there { y < act.root }
    requires wide { AreWide (length act.prepared.now.nodes) 0 rows.old }
    ensures keeps { KeepsRows (λ q. 2 ≤ q) rows.old rows.new }
    ensures followed { let null = null_in act.entry.prepared.now.nodes act.entry.kind in
        (p : ℕ) × (node : Node) × (slice_get (nodes_of act.entry.way act.entry.prepared.now) p ≡ Some node) × IsPart node y ×
        AddsMarks (row_of rows.old 1) (row_of rows.new 1) (λ c. (c ≡ p) × EndsAfter null node y) × AddsMarks (row_of rows.old 0) (row_of rows.new 0) (StartsAfter null node y) }
    ensures cost { Takes steps.old steps.new 4 }
{
    let parent = act.prepared.parent(y);
    match act.prepared.look(parent, act.way.mirrored, steps) {
        Node::Seq(a, b) if a.index() == y => {
            let b = b.index();
            rows.set(ENTERED, b, true, steps);
            if act.prepared.null_at(b, act.kind, steps) {
                rows.set(ENDED, parent, true, steps);
            }
        }
        Node::Star(_, _) => {
            rows.set(ENTERED, y, true, steps);
            rows.set(ENDED, parent, true, steps);
        }
        _ => rows.set(ENDED, parent, true, steps),
    }
}

/// From the leaves that took a byte up: which nodes end here after at least one byte, and which parts begin here since those before them
/// end.
pub fn ascend(act: Act, rows: &mut Rows, steps: &mut Steps)
    requires root { act.root < length act.prepared.now.nodes }
    requires wide { AreWide (length act.prepared.now.nodes) 0 rows.old }
    requires leaves { MarkLeaves (nodes_of act.way act.prepared.now) act.root (row_of rows.old 1) }
    ensures keeps { KeepsRows (λ q. 2 ≤ q) rows.old rows.new }
    ensures ended { EndsUpTo (nodes_of act.entry.way act.entry.prepared.now) act.entry.root (has_mark (row_of rows.old 1)) (null_in act.entry.prepared.now.nodes act.entry.kind) (row_of rows.new 1) act.entry.root }
    ensures entered { EntersDownTo (nodes_of act.entry.way act.entry.prepared.now) act.entry.root false (null_in act.entry.prepared.now.nodes act.entry.kind)
        (row_of rows.new 1) (row_of rows.new 0) (act.entry.root + 1) (act.entry.root + 1) }
    ensures cost { Takes steps.old steps.new (6 * length act.entry.prepared.now.nodes - 4) }
    ensures counts { TakesAtLeast steps.old steps.new (length act.entry.prepared.now.nodes) }
{
    rows.clear(ENTERED, act.prepared.nodes(), steps);
    let low = act.prepared.low(act.root);
    let mut y = rows.next_set(ENDED, low, act.root, steps);
    while y < act.root {
        follow(act, y, rows, steps);
        y = rows.next_set(ENDED, y + 1, act.root, steps);
    }
}

/// Marks which parts of the node x begin here with it, in the row of the leaves the node itself if it is one.
fn enter(act: Act, x: usize, leaves: usize, rows: &mut Rows, steps: &mut Steps)
    requires inside { x < length act.prepared.now.nodes }
    requires leaves { 2 ≤ leaves }
    requires there { leaves < length rows.old }
    requires wide { AreWide (length act.prepared.now.nodes) 0 rows.old }
    ensures keeps { KeepsRows (λ q. (q ≢ 0) × (q ≢ leaves)) rows.old rows.new }
    ensures leaf { AddsMarks (row_of rows.old leaves) (row_of rows.new leaves) (λ c. (c ≡ x) × IsSetAt (nodes_of act.entry.way act.entry.prepared.now) c) }
    ensures parts { (node : Node) × (slice_get (nodes_of act.entry.way act.entry.prepared.now) x ≡ Some node) ×
        AddsMarks (row_of rows.old 0) (row_of rows.new 0) (StartsWith (null_in act.entry.prepared.now.nodes act.entry.kind) node) }
    ensures cost { Takes steps.old steps.new 4 }
{
    match act.prepared.look(x, act.way.mirrored, steps) {
        Node::Set(_) => rows.set(leaves, x, true, steps),
        Node::Seq(a, b) => {
            let a = a.index();
            rows.set(ENTERED, a, true, steps);
            if act.prepared.null_at(a, act.kind, steps) {
                rows.set(ENTERED, b.index(), true, steps);
            }
        }
        Node::Alt(a, b) => {
            rows.set(ENTERED, a.index(), true, steps);
            rows.set(ENTERED, b.index(), true, steps);
        }
        Node::Group(_, a) | Node::Star(a, _) | Node::Opt(a, _) => {
            rows.set(ENTERED, a.index(), true, steps)
        }
        _ => {}
    }
}

/// The row of the nodes that end in a state: all that do where passes are mirrored, and the root as the null string too, where it begins;
/// and those of the state that it begins with, if there is one.
fn close(
    act: Act,
    first: bool,
    base: Option<usize>,
    ends: usize,
    rows: &mut Rows,
    steps: &mut Steps,
)
    requires root { act.root < length act.prepared.now.nodes }
    requires ends { 2 ≤ ends }
    requires there { ends < length rows.old }
    requires wide { AreWide (length act.prepared.now.nodes) 0 rows.old }
    requires base { IfSome base (λ q. (q ≤ 65536) × (ends_row q < length rows.old) × (ends_row q ≢ ends)) }
    ensures keeps { KeepsRows (λ q. q ≢ ends) rows.old rows.new }
    ensures others { (c : ℕ) → c < length act.entry.prepared.now.nodes → (c ≡ act.entry.root → ⊥) →
        has_mark (row_of rows.new ends) c ≡ (marks_of base ends_row rows.old c || (act.entry.way.mirrored && has_mark (row_of rows.old 1) c)) }
    ensures own { has_mark (row_of rows.new ends) act.entry.root ≡
        (marks_of base ends_row rows.old act.entry.root || (has_mark (row_of rows.old 1) act.entry.root || ((first && is_none base) && null_in act.entry.prepared.now.nodes act.entry.kind act.entry.root))) }
    ensures cost { Takes steps.old steps.new (length act.entry.prepared.now.nodes + 3) }
    ensures counts { TakesAtLeast steps.old steps.new (length act.entry.prepared.now.nodes) }
{
    let nodes = act.prepared.nodes();
    let known = match base {
        Some(state) => {
            let row = ends_row(state);
            let how = if act.way.mirrored {
                Blend::Either
            } else {
                Blend::First
            };
            rows.blend(how, ends, row, ENDED, nodes, steps);
            rows.get(row, act.root, steps)
        }
        None => {
            let how = if act.way.mirrored {
                Blend::First
            } else {
                Blend::Without
            };
            rows.blend(how, ends, ENDED, ENDED, nodes, steps);
            first && act.prepared.null_at(act.root, act.kind, steps)
        }
    };
    let end = known || rows.get(ENDED, act.root, steps);
    rows.set(ends, act.root, end, steps);
}

/// Begins a row of leaves, of so many marks: by those of a state, if there is one.
fn lay(nodes: usize, base: Option<usize>, leaves: usize, rows: &mut Rows, steps: &mut Steps)
    requires leaves { leaves < length rows.old }
    requires wide { (q : ℕ) → q < length rows.old → nodes ≤ length (row_of rows.old q) }
    requires base { IfSome base (λ q. (q ≤ 65536) × (leaves_row q < length rows.old) × (leaves_row q ≢ leaves)) }
    ensures keeps { KeepsRows (λ q. q ≢ leaves) rows.old rows.new }
    ensures laid { (c : ℕ) → c < nodes → has_mark (row_of rows.new leaves) c ≡ marks_of base leaves_row rows.old c }
    ensures cost { TakesExactly steps.old steps.new nodes }
{
    match base {
        Some(state) => {
            let row = leaves_row(state);
            rows.blend(Blend::First, leaves, row, row, nodes, steps)
        }
        None => rows.clear(leaves, nodes, steps),
    }
}

/// From the root down: the row of this place, as that of the state. `first` says whether the root begins here; with the row of the state
/// `base`, if there is one, the row begins, and the root with that alone.
pub fn descend(
    act: Act,
    first: bool,
    base: Option<usize>,
    state: usize,
    rows: &mut Rows,
    steps: &mut Steps,
)
    requires root { act.root < length act.prepared.now.nodes }
    requires wide { AreWide (length act.prepared.now.nodes) state rows.old }
    requires base { IfSome base (λ q. q < state) }
    requires entered { EntersDownTo (nodes_of act.way act.prepared.now) act.root false (null_in act.prepared.now.nodes act.kind) (row_of rows.old 1) (row_of rows.old 0) (act.root + 1) (act.root + 1) }
    ensures keeps { KeepsRows (IsApart 1 state) rows.old rows.new }
    ensures alone { base ≡ None → (took : ℕ → Bool) → EndsUpTo (nodes_of act.entry.way act.entry.prepared.now) act.entry.root took (null_in act.entry.prepared.now.nodes act.entry.kind) (row_of rows.old 1) act.entry.root →
        RowIs act.entry first took rows.new state }
    ensures added { IfSome base (λ q. (other took : ℕ → Bool) → RowIs act.entry first other rows.old q → EndsUpTo (nodes_of act.entry.way act.entry.prepared.now) act.entry.root took (null_in act.entry.prepared.now.nodes act.entry.kind) (row_of rows.old 1) act.entry.root →
        RowIs act.entry first (λ c. other c || took c) rows.new state) }
    ensures cost { Takes steps.old steps.new (7 * length act.entry.prepared.now.nodes + 5) }
    ensures counts { TakesAtLeast steps.old steps.new (2 * length act.entry.prepared.now.nodes) }
{
    let (leaves, ends) = (leaves_row(state), ends_row(state));
    close(act, first, base, ends, rows, steps);
    let nodes = act.prepared.nodes();
    lay(nodes, base, leaves, rows, steps);
    let begun = first & base.is_none();
    rows.set(ENTERED, act.root, begun, steps);
    let low = act.prepared.low(act.root);
    let mut x = rows.last_set(ENTERED, low, act.root + 1, steps);
    while x > low {
        enter(act, x - 1, leaves, rows, steps);
        x = rows.last_set(ENTERED, low, x - 1, steps);
    }
}

/// The kind of a place after a byte: it is not where a pass begins, mirrored or not, and maybe where it ends.
pub fn edge_kind(mirrored: bool, edge: bool) -> PlaceKind
    ensures { result ≡ edge_kind mirrored edge }
{
    PlaceKind {
        begin: edge & mirrored,
        end: edge & !mirrored,
    }
}
