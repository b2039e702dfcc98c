//! The program, over devices that its caller gives.
ghost use Rattle.std.specs.Prelude.{◌≡◌, ◌≢◌, ◌<◌, ◌⊎◌, ℕ, IfOk, length, map, true};
ghost use Rattle.clap.specs.Words.{kind_of};
ghost use Rattle.sedfiles.specs.Files.{StillGives, OnlyReadsScripts, Creates, CreatesFirst};
ghost use Rattle.sedscript.specs.Program.{Program};
ghost use Rattle.sededit.specs.Program.{AsksHelp, GivesScript, HelpMeans, RunsAs, StatusMeans, observe, run_of, texts_by_name};
ghost use Rattle.sededit.specs.RunStatus.{Helps, HasRun, Refuses};

use crate::messages::{say_cannot_open, say_fault, say_no_script, say_refused};
use crate::reading::{NoScript, read_script};
use crate::running::{MISSED, REFUSED, STOPPED, SUCCESS, ScriptRun, finish, out_of_memory, run};
use clap::error::ErrorKind;
use sedengine::{Ended, Limits};
use sedfiles::{Inputs, Line, Names, Refused, Sinks, line};
use sedscript::Script;
use sedspace::write_all;
use std::alloc::{AllocError, Global};
use std::convert::AsStr;
use std::io::Write;
use std::string::ToString;

/// Runs the program and gives its exit status (XCU sed, "Exit Status"; which number above 0 is this project's own).
///
/// `words` are the arguments after the program's name. `inputs` opens the input files, of which `-` is the standard input,
/// and the script's files of -f; `sinks` has the standard output alone, as sink 0, and the files that the script writes are
/// added to it; `names` are the files that the script reads; and `errors` is the standard error. A message that can't be
/// written is lost. The work is done in this order: the command line, the script's files, the script, the files that it
/// writes, the run.
///
/// * 0: the script ran over the whole input; or `-h` or `--help` was given, and the help was written
/// * 1: the words are refused, with the text of `clap`; `sed: no script`; a file of -f can't be read, or one that the
///   script writes can't be created: `sed: cannot open NAME`; the script is refused, as `sed: script byte 4: S1
///   UnknownCommand` or `sed: script byte 3: S21 Expression: E5 OpenGroup`; or a request for memory was refused: `sed: no
///   memory`. Nothing was written.
/// * 2: the script ran over the whole input, but for files that couldn't be opened: `sed: cannot open NAME` for each
/// * 4: the run stopped, as `sed: line 7: F1 PatternFull`, `sed: line 7: F2 HoldFull`,
///   `sed: line 7: F3 QueueFull`, `sed: F4 TurnsSpent`, `sed: line 7: F5 NoPrevious`, `sed: F6 InputBroken`,
///   `sed: F7 OutputBroken 0` or, if the limits have one on the output, `sed: F8 OutputFull 0`. What was written stays.
///   Files that were missed are named before.
pub fn command<S: AsStr, I: Inputs, O: Sinks, N: Names, E: Write>(
    alloc: Global,
    words: &[S],
    limits: Limits,
    inputs: &mut I,
    sinks: &mut O,
    names: &mut N,
    errors: &mut E,
) -> u8
    requires sinks { O.count sinks.old ≡ 1 }
    requires names { N.named names.old ≡ 0 }
    ensures status { (result ≡ SUCCESS) ⊎ ((result ≡ REFUSED) ⊎ ((result ≡ MISSED) ⊎ (result ≡ STOPPED))) }
    // Another status than 1 says what became of the run of the script; or help was asked for, a text was written to the
    // standard output alone, and no input was touched.
    ensures means { result ≢ REFUSED →
        RunsAs (record {
          scripts = I.text inputs.old;
          inputs = I.ahead inputs.old;
          named = N.file names.old;
          others = N.text names.old;
        }) limits.nodes (map S.text words.now) (λ run. Creates (O.names sinks.old) (O.names sinks.new) run.script.wfiles
        × StatusMeans limits (observe I.refusals I.failures O.contents O.failures inputs.old sinks.old)
        (observe I.refusals I.failures O.contents O.failures inputs.new sinks.new)
        (StillGives I.current I.ahead inputs.new) result run)
        ⊎ (AsksHelp (map S.text words.now)
        × HelpMeans (O.contents sinks.old) (O.contents sinks.new) (O.failures sinks.old) (O.failures sinks.new) result
        × (O.names sinks.new ≡ O.names sinks.old) × (inputs.new ≡ inputs.old)) }
    // At every status but 4 no sink has failed, neither when it was flushed nor as help was written.
    ensures no_sink { result ≢ STOPPED → (k : ℕ) → O.failures sinks.new k ≡ O.failures sinks.old k }
    // A refusal writes nothing, opens no input file and reads none of the input, and of the files that the script writes it
    // leaves the first ones created, if any.
    ensures refused { result ≡ REFUSED → (k : ℕ) → O.contents sinks.new k ≡ O.contents sinks.old k }
    ensures unread { result ≡ REFUSED →
        OnlyReadsScripts I.current I.ahead I.text I.refusals I.failures I.reference inputs.old inputs.new }
    ensures created { result ≡ REFUSED → (O.names sinks.new ≡ O.names sinks.old)
        ⊎ RunsAs (record {
          scripts = I.text inputs.old;
          inputs = I.ahead inputs.old;
          named = N.file names.old;
          others = N.text names.old;
        }) limits.nodes (map S.text words.now)
        (λ run. CreatesFirst (O.names sinks.old) (O.names sinks.new) run.script.wfiles) }
{
    match line(alloc, words) {
        Ok(line) => run_line(alloc, &line, limits, inputs, sinks, names, errors),
        Err(Refused::Words(error)) => answer_words(alloc, &error, sinks, errors),
        Err(Refused::NoMemory) => out_of_memory(errors),
    }
}

/// Runs what a line asks for.
fn run_line<I: Inputs, O: Sinks, N: Names, E: Write>(
    alloc: Global,
    line: &Line,
    limits: Limits,
    inputs: &mut I,
    sinks: &mut O,
    names: &mut N,
    errors: &mut E,
) -> u8
    requires sinks { O.count sinks.old ≡ 1 }
    requires names { N.named names.old ≡ 0 }
    ensures { Refuses (observe I.refusals I.failures O.contents O.failures inputs.old sinks.old)
        (observe I.refusals I.failures O.contents O.failures inputs.new sinks.new) result
        (OnlyReadsScripts I.current I.ahead I.text I.refusals I.failures I.reference inputs.old inputs.new)
        ((O.names sinks.new ≡ O.names sinks.old) ⊎ ((p : Program) × GivesScript (I.text inputs.old) line.now limits.nodes p
        × CreatesFirst (O.names sinks.old) (O.names sinks.new) p.wfiles))
        ⊎ ((p : Program) × GivesScript (I.text inputs.old) line.now limits.nodes p
        × (Creates (O.names sinks.old) (O.names sinks.new) p.wfiles
        × HasRun limits (observe I.refusals I.failures O.contents O.failures inputs.old sinks.old)
        (observe I.refusals I.failures O.contents O.failures inputs.new sinks.new) (StillGives I.current I.ahead inputs.new)
        (run_of (record {
          scripts = I.text inputs.old;
          inputs = I.ahead inputs.old;
          named = N.file names.old;
          others = N.text names.old;
        }) line.now p) result)) }
{
    let script = match read_script(alloc, line, limits.nodes(), inputs) {
        Ok(script) => script,
        Err(refusal) => return refuse(refusal, errors),
    };
    if !create_files(&script, sinks, errors) {
        script.close();
        return REFUSED;
    }
    if let Err(AllocError) = name_files(&script, names) {
        script.close();
        return out_of_memory(errors);
    }
    let task = ScriptRun {
        script,
        operands: line.operands.as_slice(),
        limits,
    };
    match run(alloc, task, inputs, sinks, names, errors) {
        Ok(status) => status,
        Err(AllocError) => out_of_memory(errors),
    }
}

/// Writes what `clap` answers: help to the standard output, anything else to the standard error.
fn answer_words<O: Sinks, E: Write>(
    alloc: Global,
    error: &clap::Error,
    sinks: &mut O,
    errors: &mut E,
) -> u8
    requires { 0 < O.count sinks.old }
    ensures { ((result ≡ REFUSED) × (sinks.new ≡ sinks.old))
        ⊎ ((kind_of error.now ≡ ErrorKind.DisplayHelp) × Helps (O.contents sinks.old) (O.contents sinks.new)
        (O.failures sinks.old) (O.failures sinks.new) (O.names sinks.old) (O.names sinks.new) result) }
{
    let Ok(text) = error.to_string(alloc) else {
        return out_of_memory(errors);
    };
    let ErrorKind::DisplayHelp = error.kind() else {
        let _ = say_refused(errors, text.as_str());
        return REFUSED;
    };
    write_help(text.as_bytes(), sinks, errors)
}

/// Writes the help to sink 0 and flushes it.
fn write_help<O: Sinks, E: Write>(text: &[u8], sinks: &mut O, errors: &mut E) -> u8
    requires { 0 < O.count sinks.old }
    ensures { Helps (O.contents sinks.old) (O.contents sinks.new) (O.failures sinks.old) (O.failures sinks.new)
        (O.names sinks.old) (O.names sinks.new) result }
{
    match write_all(sinks, 0, text) {
        Ok(()) => finish(Ended::Done, false, sinks, errors),
        Err(_) => finish(Ended::OutputBroken(0), false, sinks, errors),
    }
}

/// Creates the files that a script writes, in their order. Stops at one that can't be created, and says so.
fn create_files<O: Sinks, E: Write>(script: &Script, sinks: &mut O, errors: &mut E) -> bool
    requires { O.count sinks.old ≡ 1 }
    ensures all { result ≡ true → Creates (O.names sinks.old) (O.names sinks.new) script.now.wfiles
        × (length script.now.wfiles < O.count sinks.new) }
    ensures first { CreatesFirst (O.names sinks.old) (O.names sinks.new) script.now.wfiles }
    ensures contents { (k : ℕ) → O.contents sinks.new k ≡ O.contents sinks.old k }
    ensures failed { (k : ℕ) → O.failures sinks.new k ≡ O.failures sinks.old k }
{
    for name in script.wfiles() {
        if !sinks.create(name.as_slice()) {
            let _ = say_cannot_open(errors, name.as_slice());
            return false;
        }
    }
    true
}

/// Gives the texts the names of the files that a script reads.
fn name_files<N: Names>(script: &Script, names: &mut N) -> Result<(), AllocError>
    requires { N.named names.old ≡ 0 }
    ensures { IfOk result (λ _. (k : ℕ) → N.text names.new k ≡ texts_by_name (N.file names.old) (N.text names.old) script.now k) }
{
    for (number, name) in script.rfiles().iter().enumerate() {
        names.name(number, name.as_slice())?;
    }
    Ok(())
}

/// Says why there is no script to run.
fn refuse<E: Write>(refusal: NoScript<'_>, errors: &mut E) -> u8
    ensures { result ≡ REFUSED }
{
    let _ = match refusal {
        NoScript::NotGiven => say_no_script(errors),
        NoScript::Unreadable(name) => say_cannot_open(errors, name.as_bytes()),
        NoScript::Faulty(fault) => say_fault(errors, &fault),
        NoScript::NoMemory => return out_of_memory(errors),
    };
    REFUSED
}
