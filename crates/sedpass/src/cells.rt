//! How a table names its states by codes, and lays out their cells.
ghost use Rattle.std.specs.Prelude.{◌≡◌, ℕ, false, ◌+◌, ◌<◌, ◌≤◌, length, min, slice_index_or, IsTrue, vec_capacity};
ghost use Rattle.sedre.specs.Steps.{TakesExactly};
ghost use Rattle.sedpass.specs.Table.{code_of, cell_for, cells_in, column_for, IsLayout};
ghost use Rattle.sedpass.specs.declared.cells.StateFlags.{StateFlags};

use crate::nodes::Prepared;
use sedre::Steps;

/// The cells of all states begin below this place.
const PLACES: u32 = 1 << 29;

/// How many cells a state has at most; it has no more than `2 * (nodes + 1)` either.
pub const MOST_CELLS: usize = 256;

/// What is known of a state.
#[derive(Clone, Copy)]
pub struct StateFlags {
    /// The root of its pass ends there.
    pub ends: bool,
    /// No leaf is entered there.
    pub dead: bool,
}

/// How the cells of a state are laid out.
#[derive(Drop)]
pub struct Layout {
    /// The column of each byte.
    pub column_of: [u8; 256],
    /// How many columns there are.
    pub columns: u16,
    /// How many of them are filled: bytes of one of these are in the same sets. What a byte of another leads to is found out anew
    /// each time.
    pub filled: u16,
    /// From which of a state's cells on those are for bytes after which the text's edge comes: all, where that tells nothing for null
    /// strings.
    pub edge_at: u16,
    /// The cells of a state begin at its number times this power of two.
    pub shift: u32,
}

/// The code of the state whose cells begin at a place: that place, and above it the flags.
pub fn code_of(flags: StateFlags, offset: usize) -> u32
    requires { offset < 536870912 }
    ensures { result ≡ code_of flags offset }
{
    offset as u32 + PLACES * (1 + 2 * u32::from(flags.ends) + 4 * u32::from(flags.dead))
}

/// Where the cells of the state with this code begin.
pub fn offset_of(code: u32) -> usize
    ensures { (flags : StateFlags) (offset : ℕ) → offset < 536870912 → code ≡ code_of flags offset → result ≡ offset }
{
    (code % PLACES) as usize
}

/// The flags of the state with this code.
pub fn flags_of(code: u32) -> StateFlags
    ensures { (flags : StateFlags) (offset : ℕ) → offset < 536870912 → code ≡ code_of flags offset → result ≡ flags }
{
    StateFlags {
        ends: code / (2 * PLACES) % 2 == 1,
        dead: code / (4 * PLACES) == 1,
    }
}

/// The code of a state of which no flag is set, whose cells begin at a place.
pub fn plain_code(offset: usize) -> u32
    requires { offset < 536870912 }
    ensures { result ≡ offset + 536870912 }
{
    offset as u32 + PLACES
}

/// Where the cells of a state begin of which no flag is set.
// In the width of an address, so that it becomes a part of one.
pub fn plain_offset(code: u32) -> usize
    requires { 536870912 ≤ code }
    ensures { result + 536870912 ≡ code }
{
    code as usize - PLACES as usize
}

/// Whether this is the code of a state of which no flag is set.
pub fn is_plain(code: u32) -> bool
    ensures some { IsTrue result → 0 < code }
    ensures plain { IsTrue result → (flags : StateFlags) (offset : ℕ) → offset < 536870912 → code ≡ code_of flags offset → (flags.ends ≡ false) × (flags.dead ≡ false) }
{
    code / PLACES == 1
}

/// The classes of bytes as columns, of which the last one has all that come after it too.
fn columns_of(classes: &[u8; 256], last: u8) -> [u8; 256]
    ensures { (byte : ℕ) → byte < 256 → slice_index_or result byte 0 ≡ min (slice_index_or classes.now byte 0) last }
{
    let mut columns = [0u8; 256];
    for byte in 0..256usize {
        columns[byte] = classes[byte].min(last);
    }
    columns
}

impl Layout {
    /// The cells of a state for an expression: few for each node, so that a new state costs little.
    pub fn new(prepared: &Prepared, mirrored: bool) -> Layout
        ensures { IsLayout prepared.now.nodes mirrored result }
    {
        let (classes, tells) = (prepared.classes(), prepared.edge_tells(mirrored));
        let most = (2 * prepared.nodes() + 2).min(MOST_CELLS);
        let columns = classes.count.min(if tells { most / 2 } else { most });
        let last = columns - 1;
        let alone = columns == classes.count;
        let filled = if alone { columns } else { last };
        let edge_at = if tells { columns } else { 0 };
        Layout {
            column_of: columns_of(&classes.of, last as u8),
            columns: columns as u16,
            filled: filled as u16,
            edge_at: edge_at as u16,
            // the least such power that is no smaller than the cells
            shift: (2 * (edge_at + columns) - 1).ilog2(),
        }
    }

    /// How many cells a state has.
    pub fn cells(&self) -> usize
        ensures { result ≡ cells_in self.now }
    {
        self.edge_at as usize + self.columns as usize
    }

    /// The column of a byte.
    pub fn column(&self, byte: u8) -> usize
        ensures is { result ≡ column_for self.now byte }
        ensures small { result < 256 }
    {
        self.column_of[byte as usize] as usize
    }

    /// Which of a state's cells is for a byte. `edge` says whether the text's edge comes after the byte.
    pub fn cell(&self, byte: u8, edge: bool) -> usize
        ensures { result ≡ cell_for self.now byte edge }
    {
        let column = self.column(byte);
        if edge {
            self.edge_at as usize + column
        } else {
            column
        }
    }
}

/// Makes the `width` cells of a state empty, which begin at a place, with room for `size`: what is there goes, and empty
/// ones are appended. Counts a look for each of the state's cells.
pub fn empty_cells(cells: &mut Vec<u32>, from: usize, width: usize, size: usize, steps: &mut Steps)
    requires there { from ≤ length cells.old.items }
    requires room { from + size ≤ vec_capacity cells.old }
    requires fits { width ≤ size }
    ensures long { from + size ≤ length cells.new.items }
    ensures capacity { vec_capacity cells.new ≡ vec_capacity cells.old }
    ensures clear { (k : ℕ) → k < width → slice_index_or cells.new.items (from + k) 0 ≡ 0 }
    ensures before { (k : ℕ) → k < from → slice_index_or cells.new.items k 0 ≡ slice_index_or cells.old.items k 0 }
    ensures cost { TakesExactly steps.old steps.new width }
{
    steps.add(width);
    cells.truncate(from);
    while cells.len() < from + size {
        cells.push_reserved(0);
    }
}
