//! A pass backwards over a region, of which the state at each place is kept: two bytes a place.
//!
//! The region is cut into blocks, and the table has room for one state more than a block has places. The row at each block's
//! right end is kept too. Where the states of a block are gone, since the table was emptied after it was made, they are made again
//! from the block's end down to the place that is looked at, so that looks from left to right make each place again once at most.
ghost use Rattle.std.specs.Prelude.{◌≡◌, ℕ, false, not, min, ◌+◌, ◌-◌, ◌*◌, ◌/◌, ◌^◌, ◌<◌, ◌≤◌, ◌↔◌, length, vec_capacity, IfOk, IsTrue};
ghost use Rattle.sedre.specs.Steps.{CostsWithin, Takes, TakesAtLeast, TakesExactly};
ghost use Rattle.sedtext.specs.Places.{Ascending};
ghost use Rattle.sedtext.specs.Reach.{HasSpan, one_start};
ghost use Rattle.sedtext.specs.Words.{row_of};
ghost use Rattle.sedpass.specs.Regions.{CeasesAt, MeetsAt, ReachesEnd};
ghost use Rattle.sedpass.specs.Table.{AddsStates, IsForwardOne, IsOffset, IsTable, MayBegin, SameShape, state_of};
ghost use Rattle.sedpass.specs.Kept.{AllMarked, ComesDown, Follows, IsEdge, IsKept, IsRegion, KeepsRegion, KeptAt, KeptRoom, Meet, PassesDownTo, SameSpace, again, ends_shown, owed_region};

use crate::cells::offset_of;
use crate::nodes::{Prepared, kind_of};
use crate::rows::{ends_row, leaves_row};
use crate::table::Table;
use sedre::Steps;
use sedtext::counted::{Rows, Text};
use std::alloc::{AllocError, Global};

/// An expression, and the text that is searched.
#[derive(Clone, Copy)]
pub struct Subject<'a> {
    /// The expression.
    pub prepared: &'a Prepared<'a>,
    /// The text.
    pub text: &'a Text<'a>,
}

impl<'a> Subject<'a> {
    /// Whether a node matches the null string at a place. Counts one look.
    pub fn is_null(self, x: usize, place: usize, steps: &mut Steps) -> bool
        requires inside { x < length self.prepared.now.nodes }
        ensures null { IsTrue result ↔ HasSpan self.entry.prepared.now.nodes self.entry.text.now x place place }
        ensures cost { TakesExactly steps.old steps.new 1 }
    {
        let kind = kind_of(place, self.text.len());
        self.prepared.null_at(x, kind, steps)
    }
}

/// The places from which a node is matched up to an end, and of which of them the states are known.
#[derive(Clone, Copy, Default)]
pub struct Region {
    /// The node.
    pub root: usize,
    /// The place where its matches end.
    pub end: usize,
    /// The states from this place up to the end were made.
    pub low: usize,
    /// Those from this place on are in the table,
    pub from: usize,
    /// up to, but not including, this one.
    pub to: usize,
}

/// What is kept of a pass backwards over a region of one text.
#[derive(Drop)]
pub struct Kept {
    /// The region.
    pub region: Region,
    /// For each place the number of its state. There is room for one at each place of the longest text; how many are
    /// there grows as texts need them, so that memory is touched only then.
    pub states: Vec<u16>,
    /// For each block the row at its right end: the leaves entered, and then the nodes that end there.
    pub edges: Rows,
}

impl Kept {
    /// Room for texts of at most `bytes` bytes, which are cut into at most `blocks` blocks, and expressions of `nodes` nodes.
    /// Fails only where a request for memory was refused.
    pub fn new(alloc: Global, bytes: usize, blocks: usize, nodes: usize) -> Result<Kept, AllocError>
        requires text { bytes ≤ 2 ^ 30 }
        requires blocks { blocks ≤ 32768 }
        requires nodes { nodes ≤ 65536 }
        ensures places { IfOk result (λ k. bytes < vec_capacity k.states) }
        ensures edges { IfOk result (λ k. length k.edges ≡ 2 * blocks) }
        ensures marks { IfOk result (λ k. (q : ℕ) → q < length k.edges → length (row_of k.edges q) ≡ nodes) }
    {
        Ok(Kept {
            region: Region::default(),
            states: Vec::with_capacity(alloc, bytes + 1)?,
            edges: Rows::new(alloc, 2 * blocks, nodes)?,
        })
    }

    /// Begins a region, of which nothing is kept yet.
    pub fn begin(&mut self, subject: Subject, table: &Table, root: usize, end: usize)
        requires table { IsTable subject.prepared.now table.now }
        requires room { KeptRoom (length subject.prepared.now.nodes) (length subject.text.now) table.now self.old }
        requires root { MayBegin subject.prepared.now table.now.way root }
        requires whole { IsTrue table.now.way.all_starts → end ≡ length subject.text.now }
        requires end { end ≤ length subject.text.now }
        ensures kept { IsKept subject.entry.prepared.now subject.entry.text.now table.now self.new }
        ensures root { self.new.region.root ≡ root }
        ensures end { self.new.region.end ≡ end }
        ensures space { SameSpace self.old self.new }
        ensures owed { (i : ℕ) → i ≤ end → owed_region (length subject.entry.prepared.now.nodes) self.new.region i
            ≤ 100 * length subject.entry.prepared.now.nodes * (end - i) }
    {
        self.region = Region {
            root,
            end,
            low: end,
            from: end,
            to: end,
        };
    }

    /// Sees to it that there is a number of a state for each place of a text of so many bytes.
    fn grow(&mut self, bytes: usize)
        requires { bytes < vec_capacity self.old.states }
        ensures long { bytes < length self.new.states.items }
        ensures capacity { vec_capacity self.new.states ≡ vec_capacity self.old.states }
        ensures same { (self.new.region ≡ self.old.region) × (self.new.edges ≡ self.old.edges) }
    {
        while self.states.len() <= bytes {
            self.states.push_reserved(0);
        }
    }

    /// Goes back from a place to another, and keeps the states; gives where the last one's cells begin.
    fn pass(
        &mut self,
        subject: Subject,
        table: &mut Table,
        low: usize,
        high: usize,
        offset: usize,
        steps: &mut Steps,
    ) -> usize
        requires passes { PassesDownTo subject.prepared.now subject.text.now table.old self.old high offset }
        requires order { low < high }
        ensures down { ComesDown subject.entry.prepared.now subject.entry.text.now table.old table.new self.old self.new low result }
        ensures to { low < self.new.region.to }
        ensures steady { table.old.count + (high - low) ≤ table.old.room → self.new.region.to ≡ self.old.region.to }
        ensures cost { CostsWithin steps.old steps.new (35 * length subject.entry.prepared.now.nodes * high) (35 * length subject.entry.prepared.now.nodes * low) }
        ensures counts { TakesAtLeast steps.old steps.new (2 * (high - low)) }
    {
        let mut offset = offset;
        for place in (low..high).rev() {
            let byte = subject.text.byte(place, steps);
            let epoch = table.epoch;
            let edge = place == 0;
            let code = table.next(subject.prepared, offset, byte, edge, steps);
            offset = offset_of(code);
            self.states[place] = table.state_at(offset) as u16;
            if table.epoch != epoch {
                self.region.to = place + 1;
            }
        }
        offset
    }

    /// The state of a place that is the region's end, or the right end of a block of which the row is kept; gives where its cells
    /// begin. At the region's end the block counts for nothing.
    fn edge_state(
        &self,
        subject: Subject,
        table: &mut Table,
        block: usize,
        place: usize,
        steps: &mut Steps,
    ) -> usize
        requires region { IsRegion subject.prepared.now subject.text.now table.old self.now }
        requires place { place ≤ self.now.region.end }
        requires room { place < self.now.region.end → table.old.count < table.old.room }
        requires edge { place < self.now.region.end → (place ≡ block * (table.old.room - 1) + (table.old.room - 1)) ×
            IsEdge subject.prepared.now subject.text.now table.old.way.all_starts self.now.region.root self.now.region.end self.now.edges (table.old.room - 1) block }
        ensures table { IsTable subject.entry.prepared.now table.new }
        ensures adds { AddsStates (length subject.entry.prepared.now.nodes) table.old table.new }
        ensures there { IsOffset table.new result }
        ensures at { KeptAt subject.entry.prepared.now subject.entry.text.now table.new.way.all_starts self.now.region.root self.now.region.end place
            (state_of (length subject.entry.prepared.now.nodes) table.new (result / 2 ^ table.new.layout.shift)) }
        ensures cost { Takes steps.old steps.new (33 * length subject.entry.prepared.now.nodes) }
        ensures inside { place < self.now.region.end → Takes steps.old steps.new (20 * length subject.entry.prepared.now.nodes) }
        ensures counts { TakesAtLeast steps.old steps.new 1 }
    {
        let (prepared, root) = (subject.prepared, self.region.root);
        if place == self.region.end {
            let kind = kind_of(place, subject.text.len());
            let code = table.first(prepared, root, kind, steps);
            return offset_of(code);
        }
        let nodes = prepared.nodes();
        // For proofs: so many fit their type.
        let _rows = self.edges.len();
        let (leaves, ends) = (leaves_row(table.count), ends_row(table.count));
        let rows = &mut table.rows;
        rows.copy(leaves, &self.edges, 2 * block, nodes, steps);
        rows.copy(ends, &self.edges, 2 * block + 1, nodes, steps);
        let code = table.intern(prepared, root, steps);
        offset_of(code)
    }

    /// Keeps the region's states from its end down to a place.
    #[inline(never)]
    fn make(&mut self, subject: Subject, table: &mut Table, low: usize, steps: &mut Steps)
        requires kept { IsKept subject.prepared.now subject.text.now table.old self.old }
        requires low { low < self.old.region.end }
        ensures keeps { KeepsRegion subject.entry.prepared.now subject.entry.text.now table.old table.new self.old self.new }
        ensures low { self.new.region.low ≡ low }
        ensures from { self.new.region.from ≡ low }
        ensures to { low < self.new.region.to }
        ensures cost { let m = length subject.entry.prepared.now.nodes in
            Takes steps.old steps.new (33 * m + 39 * m * (self.old.region.end - low)) }
        ensures counts { TakesAtLeast steps.old steps.new (2 * (self.old.region.end - low)) }
    {
        let nodes = subject.prepared.nodes();
        let end = self.region.end;
        self.grow(subject.text.len());
        let mut offset = self.edge_state(subject, table, 0, end, steps);
        self.region.to = end;
        let mut place = end;
        while place > low {
            let width = table.room - 1;
            let block = (place - 1) / width;
            // the row of a block's right end is kept, unless the region ends there
            if place < end {
                let (state, rows) = (table.state_at(offset), &mut self.edges);
                rows.copy(2 * block, &table.rows, leaves_row(state), nodes, steps);
                rows.copy(2 * block + 1, &table.rows, ends_row(state), nodes, steps);
            }
            let least = low.max(block * width);
            offset = self.pass(subject, table, least, place, offset, steps);
            place = least;
        }
        self.region.low = low;
        self.region.from = low;
    }

    /// Makes the states from a place up to the end of its block again, in an emptied table.
    #[inline(never)]
    fn remake(&mut self, subject: Subject, table: &mut Table, place: usize, steps: &mut Steps)
        requires kept { IsKept subject.prepared.now subject.text.now table.old self.old }
        requires low { self.old.region.low ≤ place }
        requires place { place < self.old.region.end }
        ensures keeps { KeepsRegion subject.entry.prepared.now subject.entry.text.now table.old table.new self.old self.new }
        ensures low { self.new.region.low ≡ self.old.region.low }
        ensures from { self.new.region.from ≡ place }
        ensures to { self.new.region.to ≡ min self.old.region.end (place / (table.old.room - 1) * (table.old.room - 1) + (table.old.room - 1)) }
        ensures cost { let m = length subject.entry.prepared.now.nodes in
            CostsWithin steps.old steps.new (again m (self.old.region.end - place)) (again m (self.old.region.end - self.new.region.to)) }
        ensures counts { TakesAtLeast steps.old steps.new (2 * (self.new.region.to - place)) }
    {
        let width = table.room - 1;
        let block = place / width;
        let to = self.region.end.min(block * width + width);
        table.empty(subject.prepared);
        let offset = self.edge_state(subject, table, block, to, steps);
        self.region.from = place;
        self.region.to = to;
        self.pass(subject, table, place, to, offset, steps);
    }

    /// Sees to it that the states of a place below the region's end, and of those up to the end of its block, are in the table;
    /// gives the place before which they are.
    fn ready(&mut self, subject: Subject, table: &mut Table, at: usize, steps: &mut Steps) -> usize
        requires kept { IsKept subject.prepared.now subject.text.now table.old self.old }
        requires place { at < self.old.region.end }
        ensures keeps { KeepsRegion subject.entry.prepared.now subject.entry.text.now table.old table.new self.old self.new }
        ensures from { self.new.region.from ≤ at }
        ensures to { (result ≡ self.new.region.to) × (at < result) }
        ensures cost { let m = length subject.entry.prepared.now.nodes in
            CostsWithin steps.old steps.new (owed_region m self.old.region at) (owed_region m self.new.region at) }
    {
        if at < self.region.low {
            self.make(subject, table, at, steps);
        } else if at < self.region.from || self.region.to <= at {
            self.remake(subject, table, at, steps);
        }
        self.region.to
    }

    /// Whether a node is marked at a place below the region's end. Counts one look, and those by which the place's state is made.
    pub fn marks(
        &mut self,
        subject: Subject,
        table: &mut Table,
        x: usize,
        place: usize,
        steps: &mut Steps,
    ) -> bool
        requires kept { IsKept subject.prepared.now subject.text.now table.old self.old }
        requires x { x < length subject.prepared.now.nodes }
        requires place { place < self.old.region.end }
        ensures keeps { KeepsRegion subject.entry.prepared.now subject.entry.text.now table.old table.new self.old self.new }
        ensures marked { IsTrue result ↔ ReachesEnd subject.entry.prepared.now.nodes subject.entry.text.now self.old.region.root
            (ends_shown table.old.way.all_starts self.old.region.end) x place }
        ensures cost { let m = length subject.entry.prepared.now.nodes in
            CostsWithin steps.old steps.new (owed_region m self.old.region place + 1) (owed_region m self.new.region place) }
        ensures counts { TakesAtLeast steps.old steps.new 1 }
    {
        self.ready(subject, table, place, steps);
        let ends = ends_row(self.states[place] as usize);
        table.rows.get(ends, x, steps)
    }

    /// The first place from one on at which the node x is marked, or isn't, as asked; the region's end where there is none
    /// before it.
    pub fn seek(
        &mut self,
        subject: Subject,
        table: &mut Table,
        x: usize,
        from: usize,
        marked: bool,
        steps: &mut Steps,
    ) -> usize
        requires kept { IsKept subject.prepared.now subject.text.now table.old self.old }
        requires x { x < length subject.prepared.now.nodes }
        requires from { from ≤ self.old.region.end }
        ensures keeps { KeepsRegion subject.entry.prepared.now subject.entry.text.now table.old table.new self.old self.new }
        ensures order { Ascending from result self.old.region.end }
        ensures passed { AllMarked subject.entry.prepared.now.nodes subject.entry.text.now self.old.region.root
            (ends_shown table.old.way.all_starts self.old.region.end) x (not marked) from result }
        ensures found { result < self.old.region.end → IsTrue marked ↔ ReachesEnd subject.entry.prepared.now.nodes subject.entry.text.now self.old.region.root
            (ends_shown table.old.way.all_starts self.old.region.end) x result }
        ensures cost { let m = length subject.entry.prepared.now.nodes in
            CostsWithin steps.old steps.new (owed_region m self.old.region from + 2 * result + 1) (owed_region m self.new.region result + 2 * from) }
        ensures counts { TakesAtLeast steps.old steps.new (result - from) }
    {
        let mut place = from;
        while place < self.region.end {
            let to = self.ready(subject, table, place, steps);
            let found = self.seek_in(subject, table, x, place, marked, steps);
            if found < to {
                return found;
            }
            place = to;
        }
        place
    }

    /// The same among the places whose states are in the table.
    fn seek_in(
        &self,
        subject: Subject,
        table: &Table,
        x: usize,
        from: usize,
        marked: bool,
        steps: &mut Steps,
    ) -> usize
        requires kept { IsKept subject.prepared.now subject.text.now table.now self.now }
        requires x { x < length subject.prepared.now.nodes }
        requires from { self.now.region.from ≤ from }
        requires to { from < self.now.region.to }
        ensures order { Ascending from result self.now.region.to }
        ensures passed { AllMarked subject.entry.prepared.now.nodes subject.entry.text.now self.now.region.root
            (ends_shown table.now.way.all_starts self.now.region.end) x (not marked) from result }
        ensures found { result < self.now.region.to → IsTrue marked ↔ ReachesEnd subject.entry.prepared.now.nodes subject.entry.text.now self.now.region.root
            (ends_shown table.now.way.all_starts self.now.region.end) x result }
        ensures cost { CostsWithin steps.old steps.new (result + 1) from }
        ensures counts { TakesAtLeast steps.old steps.new (result - from) }
    {
        for place in from..self.region.to {
            let ends = ends_row(self.states[place] as usize);
            if table.rows.get(ends, x, steps) == marked {
                return place;
            }
        }
        self.region.to
    }

    /// Where a pass over `a` from a place and the kept one cease to meet: the greatest end of a match of `a` from there from
    /// which the region's rest still matches.
    pub fn cut(
        &mut self,
        subject: Subject,
        table: &mut Table,
        forward_one: &mut Table,
        a: usize,
        from: usize,
        steps: &mut Steps,
    ) -> usize
        requires kept { IsKept subject.prepared.now subject.text.now table.old self.old }
        requires forward_one { IsForwardOne subject.prepared.now forward_one.old }
        requires a { a ≤ self.old.region.root }
        requires from { from ≤ self.old.region.end }
        ensures keeps { KeepsRegion subject.entry.prepared.now subject.entry.text.now table.old table.new self.old self.new }
        ensures forward_one { IsForwardOne subject.entry.prepared.now forward_one.new }
        ensures shape { SameShape forward_one.old forward_one.new }
        ensures within { result ≤ self.old.region.end }
        ensures ceases { CeasesAt subject.entry.prepared.now.nodes subject.entry.text.now self.old.region.root
            (ends_shown table.old.way.all_starts self.old.region.end) a from result }
        ensures cost { let m = length subject.entry.prepared.now.nodes in
            CostsWithin steps.old steps.new (owed_region m self.old.region from + 36 * m * (result + 1)) (owed_region m self.new.region result + 36 * m * from) }
        ensures counts { TakesAtLeast steps.old steps.new (2 * (result - from) + 1) }
    {
        let kind = kind_of(from, subject.text.len());
        let code = forward_one.first(subject.prepared, a, kind, steps);
        let mut offset = offset_of(code);
        let mut place = from;
        while place < self.region.end {
            let to = self.ready(subject, table, place, steps);
            let (reached, next) = self.meet(subject, table, forward_one, offset, place, steps);
            place = reached;
            offset = next;
            if place < to {
                return place;
            }
        }
        place
    }

    /// Follows the pass forwards from a place, in the state whose cells begin at the offset, as long as it meets the kept one, among
    /// the places whose states are in the table; gives where it stopped, and where its state's cells begin.
    fn meet(
        &self,
        subject: Subject,
        table: &Table,
        forward_one: &mut Table,
        offset: usize,
        from: usize,
        steps: &mut Steps,
    ) -> (usize, usize)
        requires kept { IsKept subject.prepared.now subject.text.now table.now self.now }
        requires forward_one { IsForwardOne subject.prepared.now forward_one.old }
        requires offset { IsOffset forward_one.old offset }
        requires from { self.now.region.from ≤ from }
        requires to { from < self.now.region.to }
        ensures forward_one { IsForwardOne subject.entry.prepared.now forward_one.new }
        ensures shape { SameShape forward_one.old forward_one.new }
        ensures offset { IsOffset forward_one.new result.1 }
        ensures order { Ascending from result.0 self.now.region.to }
        ensures meets { (a i : ℕ) → a ≤ self.now.region.root → i ≤ from → Follows subject.entry.prepared.now subject.entry.text.now forward_one.old a i from offset →
            Follows subject.entry.prepared.now subject.entry.text.now forward_one.new a i result.0 result.1
            × Meet subject.entry.prepared.now subject.entry.text.now table.now self.now a i from result.0
            × (result.0 < self.now.region.to → MeetsAt subject.entry.prepared.now.nodes subject.entry.text.now self.now.region.root
            (ends_shown table.now.way.all_starts self.now.region.end) a (one_start i) result.0 → ⊥) }
        ensures cost { let m = length subject.entry.prepared.now.nodes in CostsWithin steps.old steps.new (36 * m * result.0 + m) (36 * m * from) }
        ensures whole { let m = length subject.entry.prepared.now.nodes in result.0 ≡ self.now.region.to → CostsWithin steps.old steps.new (36 * m * result.0) (36 * m * from) }
        ensures counts { TakesAtLeast steps.old steps.new (2 * (result.0 - from)) }
    {
        let length = subject.text.len();
        let nodes = subject.prepared.nodes();
        let mut offset = offset;
        for place in from..self.region.to {
            let ahead = leaves_row(forward_one.state_at(offset));
            let behind = ends_row(self.states[place] as usize);
            let rows = &forward_one.rows;
            if !rows.meets(ahead, &table.rows, behind, nodes, steps) {
                return (place, offset);
            }
            let byte = subject.text.byte(place, steps);
            let edge = place + 1 == length;
            let code = forward_one.next(subject.prepared, offset, byte, edge, steps);
            offset = offset_of(code);
        }
        (self.region.to, offset)
    }
}
