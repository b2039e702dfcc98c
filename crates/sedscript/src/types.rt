//! What scripts are made of, and why a text is none.

ghost use Rattle.std.specs.Prelude.{◌≡◌};
ghost use Rattle.sedscript.specs.Faults.{name_of, number_of};

pub use sedre::{ExprFault, Kind};
use std::alloc::AllocError;
use std::fmt::{self, Debug, Formatter};

/// Which pattern spaces a command is for (XCU sed, "Addresses in sed").
#[derive(Clone, Copy)]
pub enum Address {
    /// The line of this number, 1 to 2^64 - 1.
    Line(u64),
    /// `$`: the last line.
    Last,
    /// `/RE/` or `\cREc`, with or without the flag `I`: pattern spaces that match the script's regular expression of
    /// this number, counted from 0. None stands for the empty RE, the one last used.
    Match(Option<usize>),
}

/// The commands that are one letter.
#[derive(Clone, Copy)]
pub enum Simple {
    /// `N`: appends a newline and the next line to the pattern space.
    AppendNext,
    /// `g`: replaces the pattern space by the hold space.
    CopyHold,
    /// `G`: appends a newline and the hold space to the pattern space.
    AppendHold,
    /// `h`: replaces the hold space by the pattern space.
    Hold,
    /// `H`: appends a newline and the pattern space to the hold space.
    HoldMore,
    /// `x`: exchanges the pattern space and the hold space.
    Exchange,
    /// `d`: deletes the pattern space and starts the next cycle.
    Delete,
    /// `D`: deletes the pattern space up to its first newline, and starts the next cycle without reading a line.
    /// Without a newline it is `d`.
    DeleteFirst,
    /// `=`: writes the line number.
    LineNumber,
    /// `l`: writes the pattern space in a form that shows each byte.
    List,
    /// `n`: writes the pattern space unless the default output is suppressed, and goes on with the next line in its
    /// place.
    NextLine,
    /// `p`: writes the pattern space.
    Print,
    /// `P`: writes the pattern space up to its first newline.
    PrintFirst,
    /// `q`: goes to the end of the script and quits.
    Quit,
}

/// The commands that have a text.
#[derive(Clone, Copy)]
pub enum TextUse {
    /// `a`: queues the text.
    Append,
    /// `i`: writes the text.
    Insert,
    /// `c`: deletes the pattern space and starts the next cycle, and writes the text; of a range, at its end alone, with
    /// `!` each time.
    Change,
}

/// The commands that go to a label.
#[derive(Clone, Copy)]
pub enum BranchUse {
    /// `b`
    Always,
    /// `t`: if a substitution was made.
    IfReplaced,
}

/// The commands that name a file.
#[derive(Clone, Copy)]
pub enum FileUse {
    /// `r`: queues the file's contents. Files that are read are counted from 0.
    Read,
    /// `w`: writes the pattern space to the file. Files that are written are counted from 1: 0 is the standard output.
    Write,
}

/// What a command does (XCU sed, "Editing Commands in sed"). `}`, `:` and `#` don't become commands.
#[derive(Clone, Copy)]
pub enum Action {
    /// What its letter says.
    Plain(Simple),
    /// `{`: where the pattern space isn't selected, goes to the command of this number, the one after the closing
    /// brace. The number of commands is the end of the script.
    Block(usize),
    /// Goes to the command of this number. The number of commands is the end of the script.
    Branch(BranchUse, usize),
    /// What its letter says with the script's text of this number, counted from 0.
    Text(TextUse, usize),
    /// What its letter says with the file of this number.
    File(FileUse, usize),
    /// `s`: makes the script's substitution of this number, counted from 0.
    Substitute(usize),
    /// `y`: replaces bytes as the script's table of this number says, counted from 0.
    Transliterate(usize),
}

/// A command of a script.
#[derive(Clone, Copy)]
pub struct Command {
    /// The pattern spaces that it is for, or the first of a range. None selects all.
    pub first: Option<Address>,
    /// The end of the range, where there are two addresses.
    pub second: Option<Address>,
    /// `!`: it is for the pattern spaces that aren't selected.
    pub negate: bool,
    /// What it does there.
    pub action: Action,
}

/// Why a text isn't a script, S1 to S23.
#[derive(Clone, Copy, PartialEq, Eq)]
pub enum Reason {
    /// S1: no function comes where one is expected.
    UnknownCommand,
    /// S2: the function has more addresses than it takes.
    TooManyAddresses,
    /// S3: a line's number isn't from 1 to 2^64 - 1, or no second address comes after a comma.
    BadAddress,
    /// S4: a text is missing.
    MissingText,
    /// S5: the delimiter that ends a part is missing.
    OpenDelimiter,
    /// S6: this byte can't be a delimiter.
    BadDelimiter,
    /// S7: this byte isn't a flag of `s`.
    UnknownFlag,
    /// S8: a flag of `s` occurs a second time.
    RepeatedFlag,
    /// S9: a flag's number isn't from 1 to 2^64 - 1.
    BadNumber,
    /// S10: the script has no label of this name.
    UnknownLabel,
    /// S11: an earlier label has this name.
    RepeatedLabel,
    /// S12: a label has no name.
    MissingLabel,
    /// S13: a block isn't closed.
    OpenBlock,
    /// S14: no block is open here.
    StrayClose,
    /// S15: something follows a command on its line.
    TrailingBytes,
    /// S16: the strings of `y` aren't of the same length.
    LengthsDiffer,
    /// S17: a byte occurs a second time in the first string of `y`.
    RepeatedByte,
    /// S18: this backslash and the byte after it stand for nothing.
    BadEscape,
    /// S19: the name of a file is missing.
    MissingName,
    /// S20: the regular expression has no group of this number.
    GroupAbsent,
    /// S21: a regular expression has this fault, with its place in the expression.
    Expression(ExprFault),
    /// S22: a request for memory was refused.
    NoMemory,
    /// S23: the flag `I` comes after an empty regular expression.
    FlagOnEmpty,
}

/// The names of the reasons, in the order of their numbers.
const NAMES: [&str; 23] = [
    "UnknownCommand",
    "TooManyAddresses",
    "BadAddress",
    "MissingText",
    "OpenDelimiter",
    "BadDelimiter",
    "UnknownFlag",
    "RepeatedFlag",
    "BadNumber",
    "UnknownLabel",
    "RepeatedLabel",
    "MissingLabel",
    "OpenBlock",
    "StrayClose",
    "TrailingBytes",
    "LengthsDiffer",
    "RepeatedByte",
    "BadEscape",
    "MissingName",
    "GroupAbsent",
    "Expression",
    "NoMemory",
    "FlagOnEmpty",
];

impl Reason {
    /// The fault of this reason at a place.
    pub(crate) fn at(self, place: usize) -> ScriptFault
        ensures { result ≡ record { place = place; reason = self } }
    {
        ScriptFault {
            place,
            reason: self,
        }
    }

    /// The reason's number, as 1 of S1.
    pub fn number(self) -> u32
        ensures { result ≡ number_of self }
    {
        match self {
            Reason::UnknownCommand => 1,
            Reason::TooManyAddresses => 2,
            Reason::BadAddress => 3,
            Reason::MissingText => 4,
            Reason::OpenDelimiter => 5,
            Reason::BadDelimiter => 6,
            Reason::UnknownFlag => 7,
            Reason::RepeatedFlag => 8,
            Reason::BadNumber => 9,
            Reason::UnknownLabel => 10,
            Reason::RepeatedLabel => 11,
            Reason::MissingLabel => 12,
            Reason::OpenBlock => 13,
            Reason::StrayClose => 14,
            Reason::TrailingBytes => 15,
            Reason::LengthsDiffer => 16,
            Reason::RepeatedByte => 17,
            Reason::BadEscape => 18,
            Reason::MissingName => 19,
            Reason::GroupAbsent => 20,
            Reason::Expression(_) => 21,
            Reason::NoMemory => 22,
            Reason::FlagOnEmpty => 23,
        }
    }

    /// The reason's name, for messages.
    pub fn name(self) -> &'static str
        ensures { result.now ≡ name_of self }
    {
        NAMES[self.number() as usize - 1]
    }
}

impl Debug for Reason {
    fn fmt<W: fmt::Write>(&self, f: &mut Formatter<W>) -> fmt::Result {
        match self {
            Reason::Expression(fault) => f.debug_tuple("Expression").field(fault).finish(),
            _ => f.write_str(self.name()),
        }
    }
}

/// A fault, and the place of the byte at which it is reported, counted from 0.
#[derive(Clone, Copy, Debug, PartialEq, Eq)]
pub struct ScriptFault {
    /// A place in the text, at most its length.
    pub place: usize,
    /// What is wrong there.
    pub reason: Reason,
}

/// The fault where a request for memory was refused.
pub const NO_MEMORY: ScriptFault = ScriptFault {
    place: 0,
    reason: Reason::NoMemory,
};

/// A refused request for memory is the fault `NO_MEMORY`, so that `?` can answer it.
impl From<AllocError> for ScriptFault {
    ghost use Rattle.sedscript.specs.declared.types.TheConstants.{NO_MEMORY};

    ghost from_gives = { λ e fault. fault ≡ NO_MEMORY };

    fn from(_error: AllocError) -> ScriptFault {
        NO_MEMORY
    }
}
