//! What the program says on the standard error, a line each (this project's own words).

use sedengine::Ended;
use sedfiles::help::USAGE;
use sedscript::{Reason, ScriptFault};
use std::io::{self, Write};

/// Says that a script isn't accepted: the place, the number and the name of its first fault,
/// and of a regular expression's fault its number and name too.
pub(crate) fn say_fault<E: Write>(errors: &mut E, fault: &ScriptFault) -> io::Result<()> {
    let place = fault.place;
    let number = fault.reason.number();
    let name = fault.reason.name();
    match fault.reason {
        Reason::NoMemory => say_no_memory(errors),
        Reason::Expression(inner) => {
            let expression = inner.reason.number();
            let meaning = inner.reason.name();
            writeln!(
                errors,
                "sed: script byte {place}: S{number} {name}: E{expression} {meaning}"
            )
        }
        _ => writeln!(errors, "sed: script byte {place}: S{number} {name}"),
    }
}

/// Says how a run ended, where that isn't the ordinary end.
pub(crate) fn say_end<E: Write>(errors: &mut E, end: Ended) -> io::Result<()> {
    match end {
        Ended::Done => Ok(()),
        Ended::PatternFull(number) => say_at(errors, number, "F1 PatternFull"),
        Ended::HoldFull(number) => say_at(errors, number, "F2 HoldFull"),
        Ended::QueueFull(number) => say_at(errors, number, "F3 QueueFull"),
        Ended::TurnsSpent => say(errors, "F4 TurnsSpent"),
        Ended::NoPrevious(number) => say_at(errors, number, "F5 NoPrevious"),
        Ended::InputBroken => say(errors, "F6 InputBroken"),
        Ended::OutputBroken(sink) => say_of(errors, "F7 OutputBroken", sink),
        Ended::OutputFull(sink) => say_of(errors, "F8 OutputFull", sink),
    }
}

/// Says how a run ended at a line.
fn say_at<E: Write>(errors: &mut E, number: u64, what: &str) -> io::Result<()> {
    writeln!(errors, "sed: line {number}: {what}")
}

/// Says how a run ended because of a sink.
fn say_of<E: Write>(errors: &mut E, what: &str, sink: usize) -> io::Result<()> {
    writeln!(errors, "sed: {what} {sink}")
}

/// Says what there is to say in a line.
fn say<E: Write>(errors: &mut E, what: &str) -> io::Result<()> {
    writeln!(errors, "sed: {what}")
}

/// Says that a file can't be opened. The name's bytes are written as they are.
pub(crate) fn say_cannot_open<E: Write>(errors: &mut E, name: &[u8]) -> io::Result<()> {
    write!(errors, "sed: cannot open ")?;
    errors.write_all(name)?;
    writeln!(errors)
}

/// Says that a request for memory was refused.
pub(crate) fn say_no_memory<E: Write>(errors: &mut E) -> io::Result<()> {
    say(errors, "no memory")
}

/// Says that no script was given.
pub(crate) fn say_no_script<E: Write>(errors: &mut E) -> io::Result<()> {
    say(errors, "no script")
}

/// Says that a command line is refused: what `clap` says of it, but for its advice to take an option for an operand.
pub(crate) fn say_refused<E: Write>(errors: &mut E, text: &str) -> io::Result<()> {
    match text.split_once("\n\n  tip:") {
        Some((what, _advice)) => writeln!(
            errors,
            "{what}\n\nUsage: {USAGE}\n\nFor more information, try '--help'."
        ),
        None => write!(errors, "{text}"),
    }
}
