//! The calls.
ghost use Rattle.std.specs.Prelude.{◌≡◌, ◌≢◌, ◌≤◌, ◌⊎◌, drop, length, take};
ghost use Rattle.sedscript.specs.Program.{Program};
ghost use Rattle.csed.specs.Reports.{empty_report, of_bytes};
ghost use Rattle.csed.specs.Calls.{GivesFilelessScript, IsBeginning, IsRefused, IsStopped, IsWhole, MayAsk, MayNotAsk, asked_by};
ghost use Rattle.csed.specs.Outcomes.{ChecksTo, EditsTo, bytes_written};

use crate::asked::{SedLimits, asked_by};
use crate::outcome::{
    CallOutcome, SED_BAD_LIMITS, SED_DONE, SED_NO_MEMORY, SED_REFUSED, SED_STOPPED, SedReport,
};
use crate::running::{read, run};
use std::alloc::Global;

/// Reads a script, and answers a status.
///
/// * 0: the script may run
/// * 1: it is refused, for the fault that is reported
/// * 2: a flag isn't known, or a limit is out of its range
/// * 3: a request for memory was refused
#[unsafe(no_mangle)]
pub extern "C" fn sed_check(
    alloc: Global,
    script: &[u8],
    flags: u32,
    limits: &SedLimits,
    report: &mut SedReport,
) -> i32
    ensures status { (result ≡ SED_DONE) ⊎ ((result ≡ SED_REFUSED)
        ⊎ ((result ≡ SED_BAD_LIMITS) ⊎ (result ≡ SED_NO_MEMORY))) }
    // The flags and the limits are refused exactly where they may not be asked for.
    ensures bad_limits { result ≡ SED_BAD_LIMITS → MayNotAsk flags limits.now }
    ensures may { result ≢ SED_BAD_LIMITS → MayAsk flags limits.now }
    // The text means a script that may run.
    ensures done { result ≡ SED_DONE → (p : Program) × GivesFilelessScript script.now (asked_by flags limits.now) p }
    // The fault is the first one of the text, or a file is written.
    ensures refused { result ≡ SED_REFUSED → IsRefused script.now (asked_by flags limits.now) report.new }
    // Nothing else is reported.
    ensures silent { result ≢ SED_REFUSED → report.new ≡ empty_report }
{
    let outcome = check(alloc, script, flags, limits);
    *report = outcome.report();
    outcome.status()
}

/// Runs a script over the input into the output, and answers a status.
///
/// * 0: the first bytes of the output are all that the script writes
/// * 1: the script is refused, for the fault that is reported
/// * 2: a flag isn't known, or a limit is out of its range
/// * 3: a request for memory was refused
/// * 4: the run stopped for the cause that is reported, and the first bytes of the output are a beginning of what the script
///   writes
#[unsafe(no_mangle)]
pub extern "C" fn sed_edit(
    alloc: Global,
    script: &[u8],
    flags: u32,
    input: &[u8],
    output: &mut [u8],
    limits: &SedLimits,
    report: &mut SedReport,
) -> i32
    ensures status { (result ≡ SED_DONE) ⊎ ((result ≡ SED_REFUSED) ⊎ ((result ≡ SED_BAD_LIMITS)
        ⊎ ((result ≡ SED_NO_MEMORY) ⊎ (result ≡ SED_STOPPED)))) }
    // Only the first bytes of the output are written, and their number is reported.
    ensures written { report.new.written ≤ length output.new }
    ensures rest { drop report.new.written output.new ≡ drop report.new.written output.old }
    ensures same_length { length output.new ≡ length output.old }
    // The flags and the limits are refused exactly where they may not be asked for.
    ensures bad_limits { result ≡ SED_BAD_LIMITS → MayNotAsk flags limits.now }
    ensures may { result ≢ SED_BAD_LIMITS → MayAsk flags limits.now }
    // The bytes are all that the script writes over the input.
    ensures done { result ≡ SED_DONE → IsWhole script.now (asked_by flags limits.now) input.now
        (take report.new.written output.new) × (report.new ≡ of_bytes report.new.written) }
    // The bytes are a beginning of it, and the cause that is reported is true.
    ensures beginning { result ≡ SED_STOPPED → IsBeginning script.now (asked_by flags limits.now) input.now
        (take report.new.written output.new) }
    ensures stopped { result ≡ SED_STOPPED → IsStopped script.now (asked_by flags limits.now) input.now
        (length output.old) (take report.new.written output.new) report.new }
    // The fault is the first one of the text, or a file is written; no byte is.
    ensures refused { result ≡ SED_REFUSED → IsRefused script.now (asked_by flags limits.now) report.new }
    // Nothing is reported, and no byte is written.
    ensures silent { (result ≡ SED_BAD_LIMITS) ⊎ (result ≡ SED_NO_MEMORY) → report.new ≡ empty_report }
{
    let outcome = edit_by(alloc, script, flags, input, output, limits);
    *report = outcome.report();
    outcome.status()
}

/// What the reading of a script comes to.
fn check(alloc: Global, script: &[u8], flags: u32, limits: &SedLimits) -> CallOutcome
    ensures { ChecksTo script.now flags limits.now result }
{
    let Some(asked) = asked_by(flags, limits) else {
        return CallOutcome::BadLimits;
    };
    match read(alloc, script, &asked) {
        Err(refusal) => refusal,
        Ok(program) => {
            program.close();
            CallOutcome::Done(0)
        }
    }
}

/// What an edit comes to.
fn edit_by(
    alloc: Global,
    script: &[u8],
    flags: u32,
    input: &[u8],
    output: &mut [u8],
    limits: &SedLimits,
) -> CallOutcome
    ensures comes { EditsTo script.now flags limits.now input.now output.new result }
    ensures written { bytes_written result ≤ length output.new }
    ensures rest { drop (bytes_written result) output.new ≡ drop (bytes_written result) output.old }
    ensures same_length { length output.new ≡ length output.old }
{
    let Some(asked) = asked_by(flags, limits) else {
        return CallOutcome::BadLimits;
    };
    match read(alloc, script, &asked) {
        Err(refusal) => refusal,
        Ok(program) => run(alloc, program, asked.limits, input, output),
    }
}
