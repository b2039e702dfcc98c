//! A pass as a lazy table: of its states, and of the state to which each byte leads from each.
//!
//! A state is the row of a place and the root of its pass, so one table serves all regions of an expression. A cell is
//! filled when it is first asked for, by one act. A full table is emptied, and the pass goes on: so an unlucky text costs
//! an act and a state for each byte, never more.
ghost use Rattle.std.specs.Prelude.{◌≡◌, ◌&&◌, ◌||◌, ℕ, ◌+◌, ◌-◌, ◌*◌, ◌/◌, ◌^◌, ◌<◌, ◌≤◌, ◌↔◌, length, IfOk, IfSome, IsTrue, None, Some, is_some, eqb, false, min, ◌≢◌, slice_index_or, vec_len};
ghost use Rattle.sedre.specs.Steps.{Takes, TakesAtLeast};
ghost use Rattle.sedtext.specs.Words.{KeepsRows, row_of};
ghost use Rattle.sedpass.specs.Rows.{AreTakers, nodes_of, IsApart, Lacks, bits, has_mark, leaves_row, root_of};
ghost use Rattle.sedpass.specs.declared.cells.StateFlags.{StateFlags};
ghost use Rattle.sedpass.specs.Table.{IsBase, KnowsNext, LinksTo, Notes, cell_for, cell_of, column_for, code_of, middle, state_of, HasNewRow, IsMade, BeginsIn, NamesState, edge_kind, IsNext, IsOffset, beginning_at, MayBegin, IsRoomy, IsTable, SameRoom, SameShape, AddsStates, Codes};

use crate::cells::{Layout, MOST_CELLS, StateFlags, code_of, empty_cells, offset_of};
use crate::nodes::{PlaceKind, Prepared};
use crate::rows::{
    Act, ENDED, ENTERED, TAKERS, Way, ascend, descend, edge_kind, ends_row, forget, leaves_row,
    mark_takers, take, takers_row,
};
use sedre::Steps;
use sedtext::counted::{Blend, Rows};
use std::alloc::{AllocError, Global};

/// From this epoch on no beginning is noted or trusted: a table that comes to the greatest number goes to and fro between
/// the last two.
const LAST_EPOCHS: u32 = u32::MAX - 1;

/// What is known of where a pass begins: in which epoch of the table, and the code of the state.
#[derive(Clone, Copy)]
pub struct Beginning {
    pub epoch: u32,
    pub code: u32,
}

/// A slot of the index: a state, and the low half of the epoch in which it was noted. A wrong slot costs a state, never an
/// answer, since rows are compared.
#[derive(Clone, Copy)]
struct Slot {
    epoch: u16,
    state: u16,
}

/// A lazy table of the passes of one way over one expression; by [`Table::fit`] it comes to serve another one.
#[derive(Drop)]
pub struct Table {
    /// The way of its passes.
    pub way: Way,
    /// How many states it has room for.
    pub room: usize,
    /// For how many nodes a row has room.
    pub marks: usize,
    /// How the cells of a state are laid out.
    pub layout: Layout,
    /// How many states there are.
    pub count: usize,
    /// Changes where the table is emptied: then no beginning that was noted has this number.
    pub epoch: u32,
    /// Two rows for the acts, then for columns of bytes the leaves that take them, then for each state the leaves entered and the nodes
    /// that end there, and behind the last state those of the one that is being made.
    pub rows: Rows,
    /// For each state the root of its pass.
    pub roots: Vec<usize>,
    /// For each state and column the code of the state that comes next, or 0 where it isn't known. There is room for all
    /// states; the cells of a state are there once it was added, so that memory is touched only then.
    pub cells: Vec<u32>,
    index: Vec<Slot>,
    /// For each root and kind of place where a pass begins.
    pub beginnings: Vec<Beginning>,
    /// For each column of bytes whether its row has the leaves that take them.
    has_takers: [bool; TAKERS],
    /// For each state one of which fewer leaves may take a byte. A wrong number costs time, never an answer.
    links: Vec<usize>,
    /// The code of the state at places between the edges where nothing but a match's beginning goes on, if there is one yet.
    origin: Option<u32>,
}

/// With fewer nodes each act finds out anew what a match's beginning leads to.
const MANY_NODES: usize = 16;

/// The epoch after one, which no beginning noted so far has.
fn next_epoch(epoch: u32) -> u32
    ensures other { result ≡ epoch → ⊥ }
    ensures later { (noted : ℕ) → noted ≤ epoch → noted < 4294967294 → noted < result }
{
    if epoch < u32::MAX {
        epoch + 1
    } else {
        LAST_EPOCHS
    }
}

impl Table {
    /// An empty table with room for so many states of any expression of so many nodes at most, which serves none yet. Fails only
    /// where a request for memory was refused.
    pub fn with_room(alloc: Global, way: Way, room: usize, most: usize) -> Result<Table, AllocError>
        requires some { 2 ≤ room }
        requires few { room ≤ 65535 }
        requires nodes { 1 ≤ most }
        requires short { most ≤ 65536 }
        ensures table { IfOk result (λ t. IsRoomy most t × (t.way ≡ way) × (t.room ≡ room)) }
    {
        // A beginning for each kind of place: of each node, with all starts of the whole expression alone.
        let kinds = if way.all_starts { 4 } else { 4 * most };
        Ok(Table {
            way,
            room,
            marks: most,
            layout: Layout {
                column_of: [0; 256],
                columns: 0,
                filled: 0,
                edge_at: 0,
                shift: 0,
            },
            count: 0,
            epoch: 1,
            rows: Rows::new(alloc, leaves_row(room) + 2, most)?,
            roots: vec![in alloc; 0; room]?,
            cells: Vec::with_capacity(alloc, room * MOST_CELLS.min(4 * (most + 1)))?,
            // An odd number and one: by a power of two only a digest's last bits would count.
            index: vec![in alloc; Slot { epoch: 0, state: 0 }; 2 * room + 2]?,
            beginnings: vec![in alloc; Beginning { epoch: 0, code: 0 }; kinds]?,
            has_takers: [false; TAKERS],
            links: vec![in alloc; 0; room]?,
            origin: None,
        })
    }

    /// Begins to serve an expression: lays the cells out anew, and forgets all states.
    pub fn fit(&mut self, prepared: &Prepared)
        requires roomy { IsRoomy (length prepared.now.nodes) self.old }
        ensures table { IsTable prepared.now self.new }
        ensures room { SameRoom self.old self.new }
    {
        let _nodes = prepared.nodes();
        self.layout = Layout::new(prepared, self.way.mirrored);
        self.has_takers = [false; TAKERS];
        self.origin = None;
        self.count = 0;
        self.epoch = next_epoch(self.epoch);
    }

    /// Forgets all states.
    pub fn empty(&mut self, prepared: &Prepared)
        requires table { IsTable prepared.now self.old }
        ensures table { IsTable prepared.now self.new }
        ensures none { self.new.count ≡ 0 }
        ensures epoch { self.new.epoch ≡ self.old.epoch → ⊥ }
        ensures shape { SameShape self.old self.new }
        ensures rows { self.new.rows ≡ self.old.rows }
    {
        self.origin = None;
        self.count = 0;
        self.epoch = next_epoch(self.epoch);
    }

    /// The number of the state whose cells begin at a place.
    pub fn state_at(&self, offset: usize) -> usize
        requires { self.now.layout.shift ≤ 8 }
        ensures { result ≡ offset / 2 ^ self.now.layout.shift }
    {
        offset >> self.layout.shift
    }

    /// The state that a slot of the index notes, if it notes one.
    fn noted(&self, slot: usize) -> Option<usize>
        requires { slot < vec_len self.now.index }
        ensures notes { IfSome result (Notes self.now slot) }
        ensures none { result ≡ None → (q : ℕ) → Notes self.now slot q → ⊥ }
    {
        let noted = self.index[slot];
        let state = noted.state as usize;
        let known = noted.epoch == (self.epoch % 65536) as u16 && state < self.count;
        known.then_some(state)
    }

    /// Forgets all states if there is no room for one more; their rows stay.
    fn make_room(&mut self, prepared: &Prepared)
        requires table { IsTable prepared.now self.old }
        ensures table { IsTable prepared.now self.new }
        ensures room { self.new.count < self.new.room }
        ensures shape { SameShape self.old self.new }
        ensures rows { self.new.rows ≡ self.old.rows }
        ensures adds { (then : Table) → AddsStates (length prepared.now.nodes) self.new then → AddsStates (length prepared.now.nodes) self.old then }
    {
        if self.count == self.room {
            self.empty(prepared);
        }
    }

    /// Adds the state with this root and the row that is being made, and gives its number. There is room.
    fn add(&mut self, prepared: &Prepared, root: usize, slot: usize, steps: &mut Steps) -> usize
        requires table { IsTable prepared.now self.old }
        requires room { self.old.count < self.old.room }
        requires root { root < length prepared.now.nodes }
        requires slot { slot < vec_len self.old.index }
        ensures table { IsTable prepared.now self.new }
        ensures adds { AddsStates (length prepared.now.nodes) self.old self.new }
        ensures noted { Notes self.new slot result }
        ensures has { HasNewRow (length prepared.now.nodes) self.old root (state_of (length prepared.now.nodes) self.new result) }
        ensures cost { Takes steps.old steps.new (2 * length prepared.now.nodes + 2) }
    {
        let state = self.count;
        self.roots[state] = root;
        let (offset, size) = (state << self.layout.shift, 1usize << self.layout.shift);
        let width = self.layout.cells();
        empty_cells(&mut self.cells, offset, width, size, steps);
        self.index[slot] = Slot {
            epoch: (self.epoch % 65536) as u16,
            state: state as u16,
        };
        self.count = state + 1;
        state
    }

    /// The code of the state with this root and the row that is being made, which is added unless it is found. There is room.
    #[tactic(auto, using(crate::proofs::TableLemmas::shifted, crate::proofs::TableLemmas::few_offset), unfolding(sedre::specs::Steps::TakesAtLeast, sedre::specs::Steps::IsCounted))]
    pub fn intern(&mut self, prepared: &Prepared, root: usize, steps: &mut Steps) -> u32
        requires table { IsTable prepared.now self.old }
        requires room { self.old.count < self.old.room }
        requires root { root < length prepared.now.nodes }
        ensures codes { Codes prepared.now self.old self.new (HasNewRow (length prepared.now.nodes) self.old root) result }
        ensures cost { Takes steps.old steps.new (9 * length prepared.now.nodes + 5) }
        ensures counts { TakesAtLeast steps.old steps.new (2 * length prepared.now.nodes) }
    {
        let nodes = prepared.nodes();
        let (leaves, ends) = (leaves_row(self.count), ends_row(self.count));
        let flags = StateFlags {
            ends: self.rows.get(ends, root, steps),
            dead: self.rows.is_clear(leaves, nodes, steps),
        };
        let entered = self.rows.digest(leaves, nodes, steps);
        let ended = self.rows.digest(ends, nodes, steps);
        let digest = entered ^ ended.rotate_left(32) ^ root as u64;
        // Where such a state is noted, if there is one: in this slot of the index or the next.
        let at = (digest % (self.index.len() - 1) as u64) as usize;
        for slot in at..at + 2 {
            steps.add(1);
            if let Some(state) = self.noted(slot)
                && self.roots[state] == root
                && self.rows.same(leaves_row(state), leaves, nodes, steps)
                && self.rows.same(ends_row(state), ends, nodes, steps)
            {
                return code_of(flags, state << self.layout.shift);
            }
        }
        let slot = at + usize::from(self.noted(at).is_some());
        let state = self.add(prepared, root, slot, steps);
        code_of(flags, state << self.layout.shift)
    }

    /// The row of the leaves that take a byte, which is made unless it is there; none with few nodes, where the byte's column has no row,
    /// where not each place is a start, and where the root of the act isn't the expression's.
    fn find_takers(&mut self, act: Act, byte: u8, steps: &mut Steps) -> Option<usize>
        requires table { IsTable act.prepared.now self.old }
        requires way { act.way ≡ self.old.way }
        ensures table { IsTable act.entry.prepared.now self.new }
        ensures others { KeepsRows (λ q. leaves_row 0 ≤ q) self.old.rows self.new.rows }
        ensures same { (then : Table) → AddsStates (length act.entry.prepared.now.nodes) self.new then → AddsStates (length act.entry.prepared.now.nodes) self.old then }
        ensures count { self.new.count ≡ self.old.count }
        ensures shape { SameShape self.old self.new }
        ensures takers { IfSome result (λ q. (2 ≤ q) × (q < leaves_row 0) × (act.entry.root ≡ root_of act.entry.prepared.now) ×
            AreTakers (nodes_of act.entry.way act.entry.prepared.now) byte (row_of self.new.rows q) × (16 ≤ length act.entry.prepared.now.nodes)) }
        ensures cost { Takes steps.old steps.new (2 * length act.entry.prepared.now.nodes) }
        ensures none { result ≡ None → steps.new ≡ steps.old }
        ensures some { IsTrue act.entry.way.all_starts → act.entry.root ≡ root_of act.entry.prepared.now → 16 ≤ length act.entry.prepared.now.nodes →
            column_for self.old.layout byte < min 64 self.old.layout.filled → IsTrue (is_some result) }
    {
        let column = self.layout.column(byte);
        let most = TAKERS.min(self.layout.filled as usize);
        let few = act.prepared.nodes() < MANY_NODES || !act.way.all_starts;
        if few || column >= most || act.root != act.prepared.root() {
            return None;
        }
        let row = takers_row(column);
        if !self.has_takers[column] {
            mark_takers(act, byte, row, &mut self.rows, steps);
            self.has_takers[column] = true;
        }
        Some(row)
    }

    /// Takes off those of the leaves that took a byte that take it where a link's are entered, if they all took it. `takers` is the row
    /// of the leaves that take it.
    fn take_off(
        &mut self,
        prepared: &Prepared,
        link: usize,
        takers: usize,
        steps: &mut Steps,
    ) -> bool
        requires table { IsTable prepared.now self.old }
        requires room { self.old.count < self.old.room }
        requires link { link < self.old.count }
        requires takers { (2 ≤ takers) × (takers < leaves_row 0) }
        ensures table { IsTable prepared.now self.new }
        ensures same { (then : Table) → AddsStates (length prepared.now.nodes) self.new then → AddsStates (length prepared.now.nodes) self.old then }
        ensures rows { KeepsRows (λ q. IsApart 2 self.old.count q) self.old.rows self.new.rows }
        ensures count { self.new.count ≡ self.old.count }
        ensures shape { SameShape self.old self.new }
        ensures others { let m = length prepared.now.nodes in let link_took = λ (c : ℕ). (has_mark (row_of self.old.rows (leaves_row link)) c && has_mark (row_of self.old.rows takers) c) in
            IsTrue result → (c : ℕ) → c < m → has_mark (row_of self.old.rows 1) c ≡ (link_took c || has_mark (row_of self.new.rows 1) c) }
        ensures less { (c : ℕ) → c < length prepared.now.nodes → IsTrue (has_mark (row_of self.new.rows 1) c) → IsTrue (has_mark (row_of self.old.rows 1) c) }
        ensures none { result ≡ false → row_of self.new.rows 1 ≡ row_of self.old.rows 1 }
        ensures lacks { result ≡ false → (c : ℕ) × Lacks (row_of self.old.rows 1) (row_of self.old.rows (leaves_row link)) (row_of self.old.rows takers) (length prepared.now.nodes) c }
        ensures cost { Takes steps.old steps.new (4 * length prepared.now.nodes) }
    {
        let (nodes, leaves, spare) = (prepared.nodes(), leaves_row(link), leaves_row(self.count));
        let rows = &mut self.rows;
        // The rows of what begins, and of the state that is made, are free until `ascend`.
        rows.blend(Blend::Both, ENTERED, leaves, takers, nodes, steps);
        rows.blend(Blend::Without, spare, ENTERED, ENDED, nodes, steps);
        if rows.meets(spare, rows, spare, nodes, steps) {
            return false;
        }
        rows.blend(Blend::Without, ENDED, ENDED, ENTERED, nodes, steps);
        true
    }

    /// The code of the state to which an act's byte leads from a state, if it is one of the act's root and this is known.
    fn next_of(&self, act: Act, byte: u8, state: usize) -> Option<u32>
        requires table { IsTable act.prepared.now self.now }
        ensures leads { IfSome result (LinksTo act.entry byte self.now state) }
        ensures none { result ≡ None → KnowsNext act.entry byte self.now state → ⊥ }
    {
        if state >= self.count || self.roots[state] != act.root {
            return None;
        }
        let edge = act.kind.begin | act.kind.end;
        let code = self.known(act.prepared, state << self.layout.shift, byte, edge);
        if code == 0 { None } else { Some(code) }
    }

    /// A state of which fewer leaves may take an act's byte than of the state `from`, and the code of that to which it leads, if this is
    /// known.
    fn link(&self, act: Act, byte: u8, from: usize) -> Option<(usize, u32)>
        requires table { IsTable act.prepared.now self.now }
        requires from { from < self.now.room }
        ensures leads { IfSome result (λ link. LinksTo act.entry byte self.now link.0 link.1) }
        ensures own { KnowsNext act.entry byte self.now (slice_index_or self.now.links.items from 0) → IsTrue (is_some result) × IfSome result (λ link. link.0 ≡ slice_index_or self.now.links.items from 0) }
        ensures origin { result ≡ None → IfSome self.now.origin (λ v. (flags : StateFlags) (offset : ℕ) → offset < 536870912 → v ≡ code_of flags offset → KnowsNext act.entry byte self.now (offset / 2 ^ self.now.layout.shift) → ⊥) }
    {
        let link = self.links[from];
        if let Some(code) = self.next_of(act, byte, link) {
            return Some((link, code));
        }
        let origin = self.state_at(offset_of(self.origin?));
        let code = self.next_of(act, byte, origin)?;
        Some((origin, code))
    }

    /// The code of a state with whose row an act can begin, if there is one: that to which another one leads, where this is known, or the
    /// origin's. The leaves are taken off from which its row follows. `takers` is the row of the leaves that take the byte.
    fn base(
        &mut self,
        act: Act,
        byte: u8,
        takers: Option<usize>,
        from: usize,
        steps: &mut Steps,
    ) -> Option<u32>
        requires table { IsTable act.prepared.now self.old }
        requires way { act.way ≡ self.old.way }
        requires root { act.root < length act.prepared.now.nodes }
        requires kind { act.kind ≡ edge_kind act.way.mirrored (act.kind.begin || act.kind.end) }
        requires room { self.old.count < self.old.room }
        requires from { from < self.old.room }
        requires takers { IfSome takers (λ q. (2 ≤ q) × (q < leaves_row 0) × (act.root ≡ root_of act.prepared.now) ×
            AreTakers (nodes_of act.way act.prepared.now) byte (row_of self.old.rows q)) }
        ensures table { IsTable act.entry.prepared.now self.new }
        ensures same { (then : Table) → AddsStates (length act.entry.prepared.now.nodes) self.new then → AddsStates (length act.entry.prepared.now.nodes) self.old then }
        ensures rows { KeepsRows (λ q. IsApart 2 self.old.count q) self.old.rows self.new.rows }
        ensures count { self.new.count ≡ self.old.count }
        ensures shape { SameShape self.old self.new }
        ensures base { IfSome result (NamesState (length act.entry.prepared.now.nodes) self.new (IsBase act.entry (row_of self.old.rows 1) (row_of self.new.rows 1))) }
        ensures less { (c : ℕ) → c < length act.entry.prepared.now.nodes → IsTrue (has_mark (row_of self.new.rows 1) c) → IsTrue (has_mark (row_of self.old.rows 1) c) }
        ensures none { result ≡ None → row_of self.new.rows 1 ≡ row_of self.old.rows 1 }
        ensures cost { Takes steps.old steps.new (4 * length act.entry.prepared.now.nodes) }
        ensures few { takers ≡ None → (steps.new ≡ steps.old) × (result ≡ None) }
        ensures some { (q : ℕ) → takers ≡ Some q → let link = slice_index_or self.old.links.items from 0 in KnowsNext act.entry byte self.old link →
            ((c : ℕ) → Lacks (row_of self.old.rows 1) (row_of self.old.rows (leaves_row link)) (row_of self.old.rows q) (length act.entry.prepared.now.nodes) c → ⊥) → IsTrue (is_some result) }
    {
        let takers = takers?;
        let Some((link, code)) = self.link(act, byte, from) else {
            // Its row follows from no leaf.
            return if act.kind.begin | act.kind.end {
                None
            } else {
                self.origin
            };
        };
        if self.take_off(act.prepared, link, takers, steps) {
            Some(code)
        } else {
            None
        }
    }

    /// The code of the state with whose row an act begins, if nothing else took the byte: then it leads there.
    fn shared(&self, prepared: &Prepared, base: Option<u32>, steps: &mut Steps) -> Option<u32>
        requires table { IsTable prepared.now self.now }
        ensures shared { IfSome result (λ v. (base ≡ Some v) × ((c : ℕ) → c < length prepared.now.nodes → has_mark (row_of self.now.rows 1) c ≡ false)) }
        ensures cost { Takes steps.old steps.new (length prepared.now.nodes) }
        ensures counts { IfSome result (λ v. TakesAtLeast steps.old steps.new (length prepared.now.nodes)) }
        ensures few { base ≡ None → steps.new ≡ steps.old }
        ensures some { (v : ℕ) → base ≡ Some v → ((c : ℕ) → c < length prepared.now.nodes → has_mark (row_of self.now.rows 1) c ≡ false) → result ≡ Some v }
    {
        let code = base?;
        if self.rows.is_clear(ENDED, prepared.nodes(), steps) {
            Some(code)
        } else {
            None
        }
    }

    /// The number of the state with a code, if there is one.
    fn named(&self, code: Option<u32>) -> Option<usize>
        requires { self.now.layout.shift ≤ 8 }
        ensures named { IfSome result (λ q. IfSome code (λ v. (o : ℕ) × (q ≡ o / 2 ^ self.now.layout.shift) ×
            ((flags : StateFlags) (offset : ℕ) → offset < 536870912 → v ≡ code_of flags offset → o ≡ offset))) }
        ensures none { result ≡ None → code ≡ None }
        ensures some { code ≡ None → result ≡ None }
    {
        Some(self.state_at(offset_of(code?)))
    }

    /// Whether no leaf took the byte, at a place between the edges, in an act that has a row of takers.
    fn is_alone(&self, act: Act, takers: Option<usize>, steps: &mut Steps) -> bool
        requires table { IsTable act.prepared.now self.now }
        ensures alone { IsTrue result ↔ (IsTrue (is_some takers) × (act.entry.kind ≡ middle) × ((c : ℕ) → c < length act.entry.prepared.now.nodes → has_mark (row_of self.now.rows 1) c ≡ false)) }
        ensures cost { Takes steps.old steps.new (length act.entry.prepared.now.nodes) }
        ensures few { takers ≡ None → steps.new ≡ steps.old }
    {
        if takers.is_none() | act.kind.begin | act.kind.end {
            return false;
        }
        self.rows.is_clear(ENDED, act.prepared.nodes(), steps)
    }

    /// Makes the state to which an act leads from the state `from`, whose row is there, and a byte; in an emptied table if there is no
    /// room for one more.
    fn make(&mut self, act: Act, byte: u8, from: usize, steps: &mut Steps) -> u32
        requires table { IsTable act.prepared.now self.old }
        requires root { act.root < length act.prepared.now.nodes }
        requires way { act.way ≡ self.old.way }
        requires kind { act.kind ≡ edge_kind act.way.mirrored (act.kind.begin || act.kind.end) }
        requires from { from < self.old.room }
        ensures codes { Codes act.entry.prepared.now self.old self.new
            (IsMade act.entry byte (bits (length act.entry.prepared.now.nodes) (row_of self.old.rows (leaves_row from)))) result }
        ensures cost { Takes steps.old steps.new (32 * length act.entry.prepared.now.nodes) }
        ensures counts { TakesAtLeast steps.old steps.new (2 * length act.entry.prepared.now.nodes) }
    {
        self.make_room(act.prepared);
        let takers = self.find_takers(act, byte, steps);
        take(act, byte, takers, from, &mut self.rows, steps);
        let alone = self.is_alone(act, takers, steps);
        let base = self.base(act, byte, takers, from, steps);
        if let Some(code) = self.shared(act.prepared, base, steps) {
            return code;
        }
        let base = self.named(base);
        ascend(act, &mut self.rows, steps);
        let to = self.count;
        descend(act, act.way.all_starts, base, to, &mut self.rows, steps);
        let code = self.intern(act.prepared, act.root, steps);
        let state = self.state_at(offset_of(code));
        self.links[state] = base.unwrap_or(state);
        if alone {
            self.origin = Some(code);
        }
        code
    }

    /// Makes the state in which a pass begins, for the root and at a place of the kind of an act.
    fn make_first(&mut self, act: Act, steps: &mut Steps) -> u32
        requires table { IsTable act.prepared.now self.old }
        requires root { act.root < length act.prepared.now.nodes }
        ensures codes { Codes act.entry.prepared.now self.old self.new (BeginsIn (nodes_of act.entry.way act.entry.prepared.now) act.entry.way act.entry.root act.entry.kind) result }
        ensures cost { Takes steps.old steps.new (18 * length act.entry.prepared.now.nodes + 10) }
    {
        self.make_room(act.prepared);
        let to = self.count;
        forget(act, &mut self.rows, steps);
        descend(act, true, None, to, &mut self.rows, steps);
        self.intern(act.prepared, act.root, steps)
    }

    /// Makes the state after a state and a byte, and fills its cell unless the table was emptied for it.
    #[inline(never)]
    pub fn fill(
        &mut self,
        prepared: &Prepared,
        offset: usize,
        byte: u8,
        edge: bool,
        steps: &mut Steps,
    ) -> u32
        requires table { IsTable prepared.now self.old }
        requires offset { IsOffset self.old offset }
        ensures codes { Codes prepared.now self.old self.new (IsNext prepared.now self.old offset byte edge) result }
        ensures cost { Takes steps.old steps.new (33 * length prepared.now.nodes) }
        ensures counts { TakesAtLeast steps.old steps.new (length prepared.now.nodes) }
    {
        let state = self.state_at(offset);
        let act = Act {
            prepared,
            way: self.way,
            root: self.roots[state],
            kind: edge_kind(self.way.mirrored, edge),
        };
        let epoch = self.epoch;
        let next = self.make(act, byte, state, steps);
        let column = self.layout.column(byte);
        if self.epoch == epoch && column < self.layout.filled as usize {
            self.cells[offset + self.layout.cell(byte, edge)] = next;
        }
        next
    }

    /// What is in the cell of a state and a byte; 0 where it isn't kept.
    pub fn known(&self, prepared: &Prepared, offset: usize, byte: u8, edge: bool) -> u32
        requires table { IsTable prepared.now self.now }
        requires offset { IsOffset self.now offset }
        ensures is { result ≡ cell_of self.now (offset / 2 ^ self.now.layout.shift) (cell_for self.now.layout byte edge) }
        ensures leads { 0 < result → NamesState (length prepared.now.nodes) self.now (IsNext prepared.now self.now offset byte edge) result }
    {
        // A cell is waited for by the state's offset alone: which of the state's it is, is known before.
        let cells = &self.cells[self.layout.cell(byte, edge)..];
        cells[offset]
    }

    /// The code of the state after the state whose cells begin at `offset`, and a byte. `edge` says whether the text's edge
    /// comes after the byte.
    pub fn next(
        &mut self,
        prepared: &Prepared,
        offset: usize,
        byte: u8,
        edge: bool,
        steps: &mut Steps,
    ) -> u32
        requires table { IsTable prepared.now self.old }
        requires offset { IsOffset self.old offset }
        ensures codes { Codes prepared.now self.old self.new (IsNext prepared.now self.old offset byte edge) result }
        ensures cost { Takes steps.old steps.new (34 * length prepared.now.nodes) }
        ensures counts { TakesAtLeast steps.old steps.new 1 }
    {
        steps.add(1);
        let cell = self.known(prepared, offset, byte, edge);
        if cell != 0 {
            return cell;
        }
        self.fill(prepared, offset, byte, edge, steps)
    }

    /// Where a beginning is noted.
    fn beginning_at(&self, root: usize, kind: PlaceKind) -> usize
        requires { root ≤ 65536 }
        ensures { result ≡ beginning_at self.now.way.all_starts root kind }
    {
        let k = usize::from(kind.begin) + 2 * usize::from(kind.end);
        if self.way.all_starts { k } else { 4 * root + k }
    }

    /// Makes the state in which a pass for a root begins, at a place of a kind, and notes it; in the last epochs nothing is noted.
    #[inline(never)]
    fn begin(&mut self, prepared: &Prepared, root: usize, kind: PlaceKind, steps: &mut Steps) -> u32
        requires table { IsTable prepared.now self.old }
        requires root { MayBegin prepared.now self.old.way root }
        ensures codes { Codes prepared.now self.old self.new (BeginsIn (nodes_of self.old.way prepared.now) self.old.way root kind) result }
        ensures cost { Takes steps.old steps.new (32 * length prepared.now.nodes) }
    {
        let act = Act {
            prepared,
            way: self.way,
            root,
            kind,
        };
        let code = self.make_first(act, steps);
        let epoch = self.epoch;
        if epoch < LAST_EPOCHS {
            let at = self.beginning_at(root, kind);
            self.beginnings[at] = Beginning { epoch, code };
        }
        code
    }

    /// The code of the state in which a pass for a root begins, at a place of a kind. With all starts the root is that of the
    /// expression.
    pub fn first(
        &mut self,
        prepared: &Prepared,
        root: usize,
        kind: PlaceKind,
        steps: &mut Steps,
    ) -> u32
        requires table { IsTable prepared.now self.old }
        requires root { MayBegin prepared.now self.old.way root }
        ensures codes { Codes prepared.now self.old self.new (BeginsIn (nodes_of self.old.way prepared.now) self.old.way root kind) result }
        ensures cost { Takes steps.old steps.new (33 * length prepared.now.nodes) }
        ensures counts { TakesAtLeast steps.old steps.new 1 }
    {
        steps.add(1);
        let known = self.beginnings[self.beginning_at(root, kind)];
        if known.epoch == self.epoch {
            return known.code;
        }
        self.begin(prepared, root, kind, steps)
    }
}
