//! The limits of a run, and the script of a row of runs, of failing or of cycles.
ghost use Rattle.std.specs.Prelude.{◌≤◌, IfOk};

use crate::options::Options;
use crate::report::{Made, Report};
use crate::table::SheetRow;
use sededit::script;
use sedengine::Limits;
use sedscript::Script;

/// Runs a row of limits: those on spaces, queue, read-ahead, turns and nodes are accepted or refused.
pub(crate) fn run_limits(row: &SheetRow, report: &mut Report) {
    let (space, queue, look) = (row.number(0), row.number(1), row.number(2));
    let came = match Limits::new(space, queue, look, row.number(3) as u64, row.number(4)) {
        Some(_) => b"accepted",
        None => b"refused".as_slice(),
    };
    report.compare("the limits", came, row.field(5));
}

/// The limits, with so many bytes read ahead where the options don't say.
pub(crate) fn limits_of(options: Options<'_>, look: usize) -> Made<Limits> {
    let space = options.number_or(b"space", 1 << 20);
    let queue = options.number_or(b"queue", 4096);
    let look = options.number_or(b"look", look);
    let turns = options.number_or(b"turns", usize::MAX);
    let nodes = options.number_or(b"nodes", 16384);
    let Some(limits) = Limits::new(space, queue, look, turns as u64, nodes) else {
        return Err("a limit is out of its range");
    };
    match options.number(b"output") {
        Some(bytes) => Ok(limits.with_output(bytes as u64)),
        None => Ok(limits),
    }
}

/// The script, which keeps to the limits.
pub(crate) fn script_of(row: &SheetRow, limits: &Limits) -> Made<Script>
    ensures { IfOk result (λ s. s.max_nodes ≤ limits.now.nodes) }
{
    let options = row.options(3);
    let Ok(mut script) = script(row.alloc, row.field(0), options.kind(), limits.nodes()) else {
        return Err("the script is refused");
    };
    if options.has(b"-n") {
        script.set_quiet();
    }
    if script.max_nodes() > limits.nodes() {
        script.close();
        return Err("the script has too many nodes");
    }
    Ok(script)
}

/// Sees that the script is accepted, and that the options name its files, each once and in its order: all that it writes,
/// and some that it reads.
pub(crate) fn check_script(row: &SheetRow, report: &mut Report) {
    let options = row.options(3);
    let nodes = options.nodes_or(16384);
    match script(row.alloc, row.field(0), options.kind(), nodes) {
        Ok(script) => {
            let (written, read) = (script.wfiles(), script.rfiles());
            let (count, read_count) = (options.files(b"w:"), options.files(b"r:"));
            report.compare_numbers("files of the script", written.len() as u128, count);
            report.compare_numbers("files written", named(written, b"w:", options), count);
            report.compare_numbers("files read", named(read, b"r:", options), read_count);
            script.close();
        }
        Err(fault) => report.say(fault.reason.name()),
    }
}

/// How many options of a kind, from the first on, name files among these in their order.
fn named(names: &[Vec<u8>], kind: &[u8], options: Options<'_>) -> u128 {
    let mut number = 0usize;
    for name in names {
        if matches!(options.file(kind, number), Some((next, _)) if next == name.as_slice()) {
            number = number.saturating_add(1);
        }
    }
    number as u128
}
