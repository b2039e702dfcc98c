//! Kinds, faults and nodes of expressions.
ghost use Rattle.std.specs.Prelude.{◌≡◌, ◌≤◌};
ghost use Rattle.sedre.specs.Reasons.{name, number};

use crate::byte_set::ByteSet;
use std::fmt::{self, Debug, Formatter};

/// The two kinds of regular expressions.
#[derive(Clone, Copy, Debug, PartialEq, Eq)]
pub enum Kind {
    /// basic regular expressions (XBD 9.3)
    Basic,
    /// extended regular expressions (XBD 9.4)
    Extended,
}

/// Why a text is no expression, E1 to E14.
#[derive(Clone, Copy, PartialEq, Eq)]
pub enum ExprReason {
    /// E1: a bracket expression, or a form in it, isn't closed
    OpenBracket = 1,
    /// E2: the name of a character class is unknown
    UnknownClass = 2,
    /// E3: more than one byte is in `[.` or `[=`
    LongCollating = 3,
    /// E4: a range is invalid: an end of it is no single byte, as a class or `[=a=]`, its last byte lies before its
    /// first, or it goes on as `a-c-e` does
    BadRange = 4,
    /// E5: a group isn't closed
    OpenGroup = 5,
    /// E6: a closing comes where no group is open
    StrayClose = 6,
    /// E7: an interval is malformed
    BadInterval = 7,
    /// E8: nothing comes before a repetition that it could repeat; with ERE also a `?` directly after a repetition
    NothingToRepeat = 8,
    /// E9: a backslash is the last byte
    LastBackslash = 9,
    /// E10: this byte has no meaning after a backslash
    UnknownEscape = 10,
    /// E11: back-references are left out
    BackReference = 11,
    /// E12: there are more nodes than allowed
    TooManyNodes = 12,
    /// E13: the expression nests deeper than 600 levels
    TooDeep = 13,
    /// E14: a request for memory was refused
    NoMemory = 14,
}

/// The names of the reasons, in the order of their numbers.
const NAMES: [&str; 14] = [
    "OpenBracket",
    "UnknownClass",
    "LongCollating",
    "BadRange",
    "OpenGroup",
    "StrayClose",
    "BadInterval",
    "NothingToRepeat",
    "LastBackslash",
    "UnknownEscape",
    "BackReference",
    "TooManyNodes",
    "TooDeep",
    "NoMemory",
];

impl ExprReason {
    /// Its number, 1 to 14.
    pub fn number(self) -> u8
        ensures is { result ≡ number self }
        ensures within { (1 ≤ result) × (result ≤ 14) }
    {
        self as u8
    }

    /// Its name, as `OpenBracket`.
    pub fn name(self) -> &'static str
        ensures { result.now ≡ name self }
    {
        NAMES[usize::from(self.number()) - 1]
    }
}

impl Debug for ExprReason {
    fn fmt<W: fmt::Write>(&self, f: &mut Formatter<W>) -> fmt::Result {
        f.write_str(self.name())
    }
}

/// A fault, and the place in the text at which it is reported, counted from 0.
#[derive(Clone, Copy, Debug, PartialEq, Eq)]
pub struct ExprFault {
    pub place: usize,
    pub reason: ExprReason,
}

/// The fault where a request for memory was refused: E14 at 0.
pub const NO_MEMORY: ExprFault = ExprFault {
    place: 0,
    reason: ExprReason::NoMemory,
};

/// The id of a node: its index in its expression.
#[derive(Clone, Copy)]
pub struct NodeId {
    pub(crate) index: usize,
}

impl NodeId {
    /// Its index, counted from 0.
    pub fn index(&self) -> usize
        ensures { result ≡ self.now.index }
    {
        self.index
    }
}

/// A node of an expression whose intervals are written out as copies.
#[derive(Clone, Copy)]
pub enum Node {
    /// the null string
    Empty,
    /// one byte of a set
    Set(ByteSet),
    /// the beginning of the text
    Begin,
    /// the end of the text
    End,
    /// one part and then the other
    Seq(NodeId, NodeId),
    /// either part
    Alt(NodeId, NodeId),
    /// a group and its number, from 1
    Group(usize, NodeId),
    /// any number of copies; the mark is true where no copy of its repetition comes before it
    Star(NodeId, bool),
    /// at most one copy; the mark as for `Star`
    Opt(NodeId, bool),
}
