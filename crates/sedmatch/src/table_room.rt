//! How much room the tables of an expression may have.
ghost use Rattle.std.specs.Prelude.{◌<◌};

/// How many states a table has at most: 513, and the root of a megabyte besides.
const MOST_STATES: usize = 1537;

/// How many bytes the tables of an expression, or of all expressions of a script, take at most.
const MOST_BYTES: usize = 64 << 20;

/// How much room the tables of an expression may have. The answers don't depend on it: less room takes less memory, and more
/// time.
#[derive(Clone, Copy)]
pub struct TableRoom {
    /// How many states each of its tables has at most, at least 2.
    pub states: usize,
    /// How many bytes they take together at most: they have as many states as that is enough for. Where these would be a few
    /// alone, it uses the tables that serve all expressions.
    pub bytes: usize,
}

impl TableRoom {
    /// Ample room.
    pub fn ample() -> TableRoom {
        TableRoom {
            states: MOST_STATES,
            bytes: MOST_BYTES,
        }
    }

    /// The share of each of so many expressions.
    pub fn share(self, count: usize) -> TableRoom
        requires { 0 < count }
    {
        TableRoom {
            bytes: self.bytes / count,
            ..self
        }
    }
}
