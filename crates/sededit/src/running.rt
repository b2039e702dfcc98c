//! The run of a script over the files of a command line, and the status that it gives.
ghost use Rattle.std.specs.Prelude.{◌≡◌, ◌<◌, ◌≤◌, ◌∷◌, ℕ, IfOk, OnErr, [], length, map};
ghost use Rattle.std.specs.String.{string_bytes};
ghost use Rattle.sedfiles.specs.Files.{StillGives, dash, joined_files};
ghost use Rattle.sedfiles.specs.Opening.{WereRefused};
ghost use Rattle.sededit.specs.Program.{observe, or_standard};
ghost use Rattle.sededit.specs.RunStatus.{Finishes, HasRun};

use crate::editing::{Edited, edit_ahead};
use crate::messages::{say_cannot_open, say_end, say_no_memory};
use sedengine::{Ended, Limits};
use sedfiles::{Inputs, Joined, Sinks};
use sedscript::Script;
use sedspace::Texts;
use std::alloc::{AllocError, Global};
use std::io::Write;

/// The script ran over the whole input, or help was asked for and written.
pub(crate) const SUCCESS: u8 = 0;

/// Nothing was written: there was no run, because of the words, the script, a file or a lack of memory.
pub(crate) const REFUSED: u8 = 1;

/// The script ran over the whole input, and an input file couldn't be opened.
pub(crate) const MISSED: u8 = 2;

/// The run ended before its time: a limit or a device ended it.
pub(crate) const STOPPED: u8 = 4;

/// A script, the operands that name the files that it is run over, and the limits of the run.
#[derive(Drop)]
pub(crate) struct ScriptRun<'a> {
    pub(crate) script: Script,
    pub(crate) operands: &'a [String],
    pub(crate) limits: Limits,
}

/// Says how the run stopped.
pub(crate) fn stopped<E: Write>(end: Ended, errors: &mut E) -> u8
    ensures { result ≡ STOPPED }
{
    let _ = say_end(errors, end);
    STOPPED
}

/// Says that a request for memory was refused.
pub(crate) fn out_of_memory<E: Write>(errors: &mut E) -> u8
    ensures { result ≡ REFUSED }
{
    let _ = say_no_memory(errors);
    REFUSED
}

/// The name of the standard input alone.
fn standard_input(alloc: Global) -> Result<Vec<String>, AllocError>
    ensures { IfOk result (λ names. map string_bytes names.items ≡ dash ∷ []) }
{
    let mut names = Vec::new(alloc);
    names.push(String::from_str(alloc, "-")?)?;
    Ok(names)
}

/// The names of the input files: the operands, or the standard input where there are none.
fn names_of<'a>(operands: &'a [String], standard: &'a [String]) -> &'a [String]
    requires { map string_bytes standard.now ≡ dash ∷ [] }
    ensures { map string_bytes result.now ≡ or_standard (map string_bytes operands.now) }
{
    if operands.is_empty() {
        standard
    } else {
        operands
    }
}

/// Gives back what an edit left ahead that `q` ended, names the files that were missed, in their order, and answers whether
/// any was.
fn close<I: Inputs, E: Write>(
    joined: &Joined<'_, I>,
    edited: &Result<Edited, AllocError>,
    names: &[String],
    errors: &mut E,
) -> bool
    ensures { WereRefused result joined.now.start (I.refusals joined.now.inputs) }
{
    if let Ok(
        Edited {
            end: Ended::Done,
            ahead,
        },
    ) = edited
    {
        joined.give_back(*ahead);
    }
    for (number, name) in names.iter().enumerate() {
        if joined.missed(number) {
            let _ = say_cannot_open(errors, name.as_bytes());
        }
    }
    joined.has_missed()
}

/// Writes out what is held back, says how the run ended, and gives the status.
pub(crate) fn finish<O: Sinks, E: Write>(
    end: Ended,
    has_missed: bool,
    sinks: &mut O,
    errors: &mut E,
) -> u8
    ensures finishes { Finishes (O.failures sinks.old) (O.failures sinks.new) has_missed end result }
    ensures contents { (k : ℕ) → O.contents sinks.new k ≡ O.contents sinks.old k }
    ensures names { O.names sinks.new ≡ O.names sinks.old }
{
    match (end, sinks.flush()) {
        (Ended::Done, Ok(())) if has_missed => MISSED,
        (Ended::Done, Ok(())) => SUCCESS,
        (Ended::Done, Err(sink)) => stopped(Ended::OutputBroken(sink), errors),
        (end, _) => stopped(end, errors),
    }
}

/// Runs a script over the files that the operands name, joined, and gives the status.
pub(crate) fn run<I: Inputs, O: Sinks, T: Texts, E: Write>(
    alloc: Global,
    task: ScriptRun<'_>,
    inputs: &mut I,
    sinks: &mut O,
    texts: &mut T,
    errors: &mut E,
) -> Result<u8, AllocError>
    requires sinks { length task.script.wfiles < O.count sinks.old }
    requires nodes { task.script.max_nodes ≤ task.limits.nodes }
    ensures ran { IfOk result (HasRun task.entry.limits
        (observe I.refusals I.failures O.contents O.failures inputs.old sinks.old)
        (observe I.refusals I.failures O.contents O.failures inputs.new sinks.new)
        (StillGives I.current I.ahead inputs.new)
        (record {
          script = task.entry.script;
          input = joined_files (I.ahead inputs.old) (or_standard (map string_bytes task.entry.operands.now));
          texts = T.text texts.old;
        })) }
    ensures untouched { OnErr result ((inputs.new ≡ inputs.old) × (sinks.new ≡ sinks.old)) }
    ensures names { O.names sinks.new ≡ O.names sinks.old }
{
    let ScriptRun {
        script,
        operands,
        limits,
    } = task;
    let Ok(standard) = standard_input(alloc) else {
        script.close();
        return Err(AllocError);
    };
    let names = names_of(operands, standard.as_slice());
    let Ok(missed) = vec![in alloc; false; names.len()] else {
        script.close();
        return Err(AllocError);
    };
    let mut joined = Joined::over(&mut *inputs, names, missed);
    let edited = edit_ahead(alloc, script, limits, &mut joined, sinks, texts);
    let has_missed = close(&joined, &edited, names, errors);
    // They give the inputs back, and what became of these is known.
    let _inputs = joined.into_inputs();
    match edited {
        Ok(edited) => Ok(finish(edited.end, has_missed, sinks, errors)),
        Err(AllocError) => Err(AllocError),
    }
}
