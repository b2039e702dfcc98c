//! Scripts over inputs: what is written, and how the run ends. The heads of the tables name their fields and options.
//!
//! * A row of runs runs with the input whole and in reads of 1, 2, 3 and 5 bytes, with writes and pieces of files that are
//!   read of any length and of one byte, and with 1, 2, 7 and 65,536 bytes read ahead. Where a read of the input fails, the
//!   reads are as the row says, and the read-ahead is that of the program; where one of a file fails, they are of one byte.
//!   At last an engine runs it by `cycle` and `run`, and has to stay at its end.
//! * A row of failing has one call of a device fail: the first read of the input, the second, and so on until a run meets no
//!   failure; then the same of the writes to each sink. The input is read a byte at a time. Each run has to end as the row
//!   says, or by the failure; each sink has to have what the row says, or by the failure a beginning of it; and the engine
//!   has to stay at its end and to call no device, though these work again.
//! * A row of cycles says what one cycle writes, takes from the input and holds.

use crate::devices::Behaviour;
use crate::faults::put_end;
use crate::job::check_script;
use crate::options::Options;
use crate::report::{Made, Report};
use crate::runner::{self, RunOutcome};
use crate::sheet::Sheet;
use crate::table::SheetRow;
use sedengine::Ended;
use sedspace::{MemoryOutputs, Outputs};

/// The most bytes of a read.
const READS: [usize; 5] = [usize::MAX, 1, 2, 3, 5];

/// The bytes read ahead, the last those of the program.
const LOOKS: [usize; 4] = [1, 2, 7, 65536];

/// The most calls of a device that are tried.
const MOST_CALLS: usize = 1000;

/// Runs a row of runs, to the first difference.
pub(crate) fn run(row: &SheetRow, report: &mut Report) {
    check_script(row, report);
    let way = Behaviour::of(row.options(3));
    let mut piecemeal = way;
    for read in READS {
        piecemeal.read = read;
        piecemeal.write = way.write;
        run_looks(row, piecemeal, report);
        piecemeal.write = 1;
        run_looks(row, piecemeal, report);
    }
    if row.options(3).has(b"cuts") {
        run_cuts(row, way, report);
    }
    if !row.options(3).has(b"lost") {
        compare(row, runner::run(row, way, true), false, report);
    }
}

/// Runs it over the input cut at each two places.
fn run_cuts(row: &SheetRow, way: Behaviour, report: &mut Report) {
    let mut cut = way;
    for start in 0..row.field(1).len() {
        for end in start..row.field(1).len() {
            cut.cuts = (start, end);
            run_looks(row, cut, report);
        }
    }
}

/// Runs it with each number of bytes ahead, to the first difference, where the row asks for it.
fn run_looks(row: &SheetRow, way: Behaviour, report: &mut Report) {
    let mut way = way;
    for look in LOOKS {
        way.look = look;
        if report.is_empty() && is_asked(row.options(3), way) {
            compare(row, runner::run(row, way, false), false, report);
            way.note(report);
        }
    }
}

/// Whether a row is run so.
fn is_asked(options: Options<'_>, way: Behaviour) -> bool {
    let is_whole = way.read == usize::MAX;
    let is_far = way.look == 65536;
    if options.has(b"fails") {
        return is_whole && is_far;
    }
    if options.has(b"lost") && way.write != 1 {
        return false;
    }
    (is_whole || !options.has(b"read")) && (is_far || !options.has(b"look"))
}

/// Runs a row of failing, to the first difference.
pub(crate) fn run_failing(row: &SheetRow, report: &mut Report) {
    check_script(row, report);
    fail_device(row, None, report);
    for sink in 0..=row.options(3).files(b"w:") {
        fail_device(row, Some(sink), report);
    }
}

/// Has each call of a device fail in turn, of this sink or else of the input, until a run meets no failure.
fn fail_device(row: &SheetRow, sink: Option<usize>, report: &mut Report) {
    let mut way = Behaviour::of(row.options(3));
    way.read = 1;
    way.failing_sink = sink.unwrap_or(0);
    for call in 1..MOST_CALLS {
        if !report.is_empty() {
            return;
        }
        if sink.is_some() {
            way.failing_write = call;
        } else {
            way.failing_read = call;
        }
        let is_met = compare(row, runner::run(row, way, true), true, report);
        way.note(report);
        if !is_met {
            return;
        }
    }
    report.say("there are more calls than are tried");
}

/// Whether the run came to its end, and the sinks have what they should; or where a device may fail, whether it ended by the
/// failure and wrote a beginning. Says whether that failure was met.
fn compare(row: &SheetRow, came: Made<RunOutcome>, may_fail: bool, report: &mut Report) -> bool {
    let outcome = match came {
        Ok(outcome) => outcome,
        Err(message) => {
            report.say(message);
            return false;
        }
    };
    let failed = outcome.devices.failed();
    let failed = if may_fail { failed } else { None };
    compare_stays(&outcome, report);
    compare_sinks(row, &outcome.devices.outputs, failed.is_some(), report);
    compare_end(row, outcome.end, failed, report);
    failed.is_some()
}

/// Whether the engine stayed at its end.
fn compare_stays(outcome: &RunOutcome, report: &mut Report) {
    if !outcome.stays {
        report.say("the engine goes on after its end");
    }
}

/// Whether each sink has what the row says, or a beginning of it where that is enough.
fn compare_sinks(row: &SheetRow, outputs: &MemoryOutputs, is_enough: bool, report: &mut Report) {
    for sink in 0..outputs.sinks() {
        let written = outputs.bytes(sink);
        let wanted = wanted_of(row, sink);
        if !(is_enough && wanted.starts_with(written)) {
            let what = if sink == 0 { "the output" } else { "a file" };
            report.compare(what, written, wanted);
        }
    }
}

/// What a sink should have: the standard output, or else a file.
fn wanted_of(row: &SheetRow, sink: usize) -> &[u8] {
    if sink == 0 {
        return row.field(2);
    }
    match row.options(3).file(b"w:", sink - 1) {
        Some((_, text)) => text,
        None => b"",
    }
}

/// Whether the run ended by the device that failed, where one is given, and else as the row says.
fn compare_end(row: &SheetRow, end: Ended, failed: Option<Ended>, report: &mut Report) {
    let mut came = Sheet::new(row.alloc);
    put_end(&mut came, end);
    let mut wanted = Sheet::new(row.alloc);
    match failed {
        Some(failed) => put_end(&mut wanted, failed),
        None => wanted.put(row.options(3).end()),
    }
    report.compare_sheet("the end", &came, wanted.bytes.as_slice());
}

/// Runs a row of cycles.
pub(crate) fn run_cycle(row: &SheetRow, report: &mut Report) {
    check_script(row, report);
    match runner::run(row, Behaviour::of(row.options(3)), true) {
        Ok(outcome) => compare_cycle(row, &outcome, report),
        Err(message) => report.say(message),
    }
}

/// Whether the cycle wrote what the row says, and the counts are those of the options.
fn compare_cycle(row: &SheetRow, outcome: &RunOutcome, report: &mut Report) {
    let cycle = outcome.cycle;
    if outcome.devices.outputs.sinks() > 0 {
        let bytes = outcome.devices.outputs.bytes(0);
        let count = cycle.written.min(bytes.len());
        report.compare("the output", &bytes[..count], row.field(2));
    }
    let calls = outcome.devices.source.calls();
    compare_count(row, "taken", cycle.taken as u128, report);
    compare_count(row, "calls", u128::from(cycle.calls), report);
    compare_count(row, "held", cycle.held, report);
    compare_count(row, "all", u128::from(calls), report);
    compare_stays(outcome, report);
}

/// Whether a count is that of the options, where they have one.
fn compare_count(row: &SheetRow, name: &str, came: u128, report: &mut Report) {
    if let Some(wanted) = row.options(3).number(name.as_bytes()) {
        report.compare_numbers(name, came, wanted);
    }
}
