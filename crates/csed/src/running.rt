//! A script is read, and run over bytes in memory.
ghost use Rattle.std.specs.Prelude.{◌≡◌, ◌≢◌, ◌<◌, ◌≤◌, ◌⊎◌, ◌||◌, ℕ, [], Ok, IfErr, IfOk, IfSome, drop, length, take};
ghost use Rattle.csed.specs.declared.outcome.CallOutcome.TheVariants.{Faulty as HasFault, NoMemory, WritesFiles as HasFiles};
ghost use Rattle.csed.specs.Calls.{GivesFilelessScript};
ghost use Rattle.csed.specs.Outcomes.{IsScriptRefusal, CallRunsTo, outcome_of, bytes_written};

use crate::asked::Request;
use crate::input::LentBytes;
use crate::outcome::CallOutcome;
use crate::standard_output::StandardOutput;
use sededit::{edit, script};
use sedengine::{Ended, Limits};
use sedscript::{NO_MEMORY, Reason, Script, ScriptFault};
use sedspace::MemoryTexts;
use std::alloc::{AllocError, Global};

/// Reads a script that may run here.
pub(crate) fn read(alloc: Global, text: &[u8], asked: &Request) -> Result<Script, CallOutcome>
    ensures gives { IfOk result (GivesFilelessScript text.now asked.now) }
    ensures refused { IfErr result (IsScriptRefusal text.now asked.now) }
{
    match script(alloc, text, asked.kind, asked.limits.nodes()) {
        Err(fault) => Err(refusal_of(fault)),
        Ok(program) => without_files(program, asked.quiet),
    }
}

/// What keeps a script from being read.
fn refusal_of(fault: ScriptFault) -> CallOutcome
    ensures { (result ≡ NoMemory) ⊎ ((result ≡ HasFault fault) × (fault ≢ NO_MEMORY)) }
{
    match fault.reason {
        Reason::NoMemory => CallOutcome::NoMemory,
        _ => CallOutcome::Faulty(fault),
    }
}

/// The script, with its default output suppressed where that is asked for, if it names no file to write.
fn without_files(mut program: Script, quiet: bool) -> Result<Script, CallOutcome>
    ensures gives { IfOk result (λ p. (program.wfiles ≡ []) × (p ≡ record program { quiet = quiet || program.quiet })) }
    ensures refused { IfErr result (λ o. (o ≡ HasFiles) × (0 < length program.wfiles)) }
{
    if !program.wfiles().is_empty() {
        program.close();
        return Err(CallOutcome::WritesFiles);
    }
    if quiet {
        program.set_quiet();
    }
    Ok(program)
}

/// Copies bytes to the front of the output.
fn deliver(bytes: &[u8], output: &mut [u8])
    requires { length bytes.now ≤ length output.old }
    ensures front { take (length bytes.now) output.new ≡ bytes.now }
    ensures rest { drop (length bytes.now) output.new ≡ drop (length bytes.now) output.old }
    ensures length { length output.new ≡ length output.old }
{
    output[..bytes.len()].copy_from_slice(bytes);
}

/// What a run came to that ended with `end` and wrote `written` bytes.
fn outcome_of(end: Ended, written: usize) -> CallOutcome
    ensures { result ≡ outcome_of end written }
{
    match end {
        Ended::Done => CallOutcome::Done(written),
        end => CallOutcome::Stopped(written, end),
    }
}

/// How a run ended, unless for want of memory. For nothing else can the sink fail: it has room for all that the limit lets
/// through.
fn end_of(ended: Result<Ended, AllocError>) -> Option<Ended>
    ensures { IfSome result (λ end. (ended ≡ Ok end) × ((k : ℕ) → end ≢ Ended.OutputBroken k)) }
{
    match ended {
        Err(_) | Ok(Ended::OutputBroken(_)) => None,
        Ok(end) => Some(end),
    }
}

/// Runs a script over the input into the output, which limits what is written.
pub(crate) fn run(
    alloc: Global,
    program: Script,
    limits: Limits,
    input: &[u8],
    output: &mut [u8],
) -> CallOutcome
    requires nodes { program.max_nodes ≤ limits.nodes }
    requires files { program.wfiles ≡ [] }
    ensures runs { CallRunsTo limits program input.now output.new result }
    ensures written { bytes_written result ≤ length output.new }
    ensures rest { drop (bytes_written result) output.new ≡ drop (bytes_written result) output.old }
    ensures same_length { length output.new ≡ length output.old }
{
    let room = output.len();
    let Ok(mut standard) = StandardOutput::with_room(alloc, room) else {
        // by a call: where it goes out of scope, it is proved field by field
        program.close();
        return CallOutcome::NoMemory;
    };
    let mut source = LentBytes::new(input);
    let mut texts = MemoryTexts::new(Vec::new(alloc));
    let ended = edit(
        alloc,
        program,
        limits.with_output(room as u64),
        &mut source,
        &mut standard,
        &mut texts,
    );
    let Some(end) = end_of(ended) else {
        return CallOutcome::NoMemory;
    };
    let bytes = standard.bytes();
    deliver(bytes, output);
    outcome_of(end, bytes.len())
}
