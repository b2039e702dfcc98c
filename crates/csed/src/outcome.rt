//! What calls come to, and what they report.
ghost use Rattle.std.specs.Prelude.{◌≡◌};
ghost use Rattle.csed.specs.Reports.{cause_of, expression_of, line_named};
ghost use Rattle.csed.specs.Outcomes.{report_of, status_of};

use sedengine::Ended;
use sedscript::{Reason, ScriptFault};

/// The script is read, or ran over the whole input.
pub const SED_DONE: i32 = 0;

/// The script is refused.
pub const SED_REFUSED: i32 = 1;

/// A flag isn't known, or a limit is out of its range.
pub const SED_BAD_LIMITS: i32 = 2;

/// A request for memory was refused.
pub const SED_NO_MEMORY: i32 = 3;

/// The run stopped before its time.
pub const SED_STOPPED: i32 = 4;

/// The fault of a script that writes to a file.
pub const SED_FAULT_WRITES_FILES: u32 = 100;

/// What a call came to. A field that doesn't apply is 0.
#[repr(C)]
#[derive(Clone, Copy)]
pub struct SedReport {
    /// How many bytes of the output were written.
    pub written: usize,
    /// The place in the script at which its fault is reported, counted from 0.
    pub place: usize,
    /// The line at which a run stopped, where its cause names one.
    pub line: u64,
    /// The number of the script's fault, as 21 of S21.
    pub fault: u32,
    /// The number of the expression's fault, as 5 of E5, where the script's is S21.
    pub expression: u32,
    /// The number of the cause for which a run stopped, as 4 of F4.
    pub cause: u32,
    /// Padding, always 0.
    pub spare: u32,
}

/// What a call came to.
#[derive(Clone, Copy)]
pub(crate) enum CallOutcome {
    /// All went well, and this many bytes were written.
    Done(usize),
    /// The script has this fault.
    Faulty(ScriptFault),
    /// The script writes to a file.
    WritesFiles,
    /// A flag isn't known, or a limit is out of its range.
    BadLimits,
    /// A request for memory was refused.
    NoMemory,
    /// The run came to this end before its time, and this many bytes were written.
    Stopped(usize, Ended),
}

impl CallOutcome {
    /// Its number.
    pub(crate) fn status(self) -> i32
        ensures { result ≡ status_of self }
    {
        match self {
            CallOutcome::Done(_) => SED_DONE,
            CallOutcome::Faulty(_) | CallOutcome::WritesFiles => SED_REFUSED,
            CallOutcome::BadLimits => SED_BAD_LIMITS,
            CallOutcome::NoMemory => SED_NO_MEMORY,
            CallOutcome::Stopped(_, _) => SED_STOPPED,
        }
    }

    /// What is reported of it besides.
    pub(crate) fn report(self) -> SedReport
        ensures { result ≡ report_of self }
    {
        let blank = SedReport {
            written: 0,
            place: 0,
            line: 0,
            fault: 0,
            expression: 0,
            cause: 0,
            spare: 0,
        };
        match self {
            CallOutcome::Done(written) => SedReport { written, ..blank },
            CallOutcome::Faulty(fault) => SedReport {
                place: fault.place,
                fault: fault.reason.number(),
                expression: expression_of(fault.reason),
                ..blank
            },
            CallOutcome::WritesFiles => SedReport {
                fault: SED_FAULT_WRITES_FILES,
                ..blank
            },
            CallOutcome::BadLimits | CallOutcome::NoMemory => blank,
            CallOutcome::Stopped(written, end) => SedReport {
                written,
                line: line_of(end),
                cause: cause_of(end),
                ..blank
            },
        }
    }
}

/// The number of an expression's fault, or 0.
fn expression_of(reason: Reason) -> u32
    ensures { result ≡ expression_of reason }
{
    match reason {
        Reason::Expression(inner) => u32::from(inner.reason.number()),
        _ => 0,
    }
}

/// The number of an end.
fn cause_of(end: Ended) -> u32
    ensures { result ≡ cause_of end }
{
    match end {
        Ended::Done => 0,
        Ended::PatternFull(_) => 1,
        Ended::HoldFull(_) => 2,
        Ended::QueueFull(_) => 3,
        Ended::TurnsSpent => 4,
        Ended::NoPrevious(_) => 5,
        Ended::InputBroken => 6,
        Ended::OutputBroken(_) => 7,
        Ended::OutputFull(_) => 8,
    }
}

/// The line that an end names, or 0.
fn line_of(end: Ended) -> u64
    ensures { result ≡ line_named end }
{
    match end {
        Ended::PatternFull(line) => line,
        Ended::HoldFull(line) => line,
        Ended::QueueFull(line) => line,
        Ended::NoPrevious(line) => line,
        _ => 0,
    }
}
