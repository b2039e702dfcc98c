//! The words, the standard streams and the files of the process, given to the program (XCU sed, "Stdin", "Stdout", "Stderr",
//! "Input Files", "Output Files").
ghost use Rattle.std.specs.Prelude.{◌≡◌, ◌-◌, ◌^◌, ◌⊎◌, map};
ghost use Rattle.std.specs.String.{string_bytes};
ghost use Rattle.sedengine.specs.LimitRanges.{limits_of};
ghost use Rattle.sedfiles.specs.CommandLine.{IsCommandLine};
ghost use Rattle.sededit.specs.Program.{AsksHelp};

use sededit::command;
use sedengine::Limits;
use sedsystem::{FileInputs, FileNames, FileSinks, Messages, SinkDevices, placeholders};
use std::env;
use std::io::{self, ErrorKind, Write};

/// The status of words that are refused.
const REFUSED: u8 = 1;

/// The limits of the program: 1 MiB in each space, 4,096 entries of the queue, 64 KiB read ahead, 16,384 nodes of an
/// expression, and more turns than a machine can take.
pub(crate) fn program_limits() -> Limits
    ensures { result ≡ limits_of (2 ^ 20) 4096 65536 (2 ^ 64 - 1) 16384 }
{
    match Limits::new(1 << 20, 4096, 65536, u64::MAX, 16384) {
        Some(limits) => limits,
        None => unreachable!(),
    }
}

/// Runs the program over the standard streams and the files of the system, and gives its exit status.
///
/// Output is gathered and written in pieces of 64 KiB, that to a file in pieces of 8 KiB; a longer write goes through
/// directly. What is gathered is written out before a read that may wait, and before the status is given; a terminal gets
/// each line as it is written. Where that fails, as on a full disk, a closed pipe or a closed standard output, the status
/// is 4 and the message `sed: F7 OutputBroken 0`, with the sink's number; a run that writes nothing doesn't notice. After
/// another end than the ordinary one its own message is the only one. A closed standard input and a directory in a file's
/// place are `sed: F6 InputBroken`.
pub(crate) fn run(rt: &HostRuntime) -> u8
    ensures { (result ≡ 0) ⊎ ((result ≡ 1) ⊎ ((result ≡ 2) ⊎ (result ≡ 4))) }
{
    let _closed = placeholders(rt);
    run_process(rt)
}

/// Runs the program over the words of the process.
fn run_process(rt: &HostRuntime) -> u8
    ensures { (result ≡ 0) ⊎ ((result ≡ 1) ⊎ ((result ≡ 2) ⊎ (result ≡ 4))) }
{
    let Ok(mut errors) = Messages::new(rt.alloc(), rt.stderr()) else {
        return no_memory(&mut rt.stderr());
    };
    match words(rt) {
        Ok(words) => run_words(rt, words.as_slice(), &mut errors),
        Err(error) if error.kind() == ErrorKind::OutOfMemory => no_memory(&mut errors),
        Err(_) => {
            let _ = writeln!(errors, "sed: a word of the command line is not UTF-8");
            REFUSED
        }
    }
}

/// Says that a request for memory was refused, and gives the status of that.
fn no_memory<E: Write>(errors: &mut E) -> u8
    ensures { result ≡ 1 }
{
    let _ = writeln!(errors, "sed: no memory");
    REFUSED
}

/// The words after the program's name.
fn words(rt: &HostRuntime) -> io::Result<Vec<String>> {
    let words = env::args(rt)?.skip(1).collect(rt.alloc())?;
    Ok(words)
}

fn run_words<E: Write>(rt: &HostRuntime, words: &[String], errors: &mut E) -> u8
    ensures status { (result ≡ 0) ⊎ ((result ≡ 1) ⊎ ((result ≡ 2) ⊎ (result ≡ 4))) }
    ensures asked { result ≡ 0 →
        IsCommandLine (map string_bytes words.now) ⊎ AsksHelp (map string_bytes words.now) }
{
    let Ok(devices) = SinkDevices::new(rt, rt.stdout()) else {
        return no_memory(errors);
    };
    let Ok(mut sinks) = FileSinks::new(rt, &devices) else {
        return no_memory(errors);
    };
    let Ok(mut inputs) = FileInputs::new(rt, &devices) else {
        return no_memory(errors);
    };
    let mut names = FileNames::new(rt, &devices);
    command(
        rt.alloc(),
        words,
        program_limits(),
        &mut inputs,
        &mut sinks,
        &mut names,
        errors,
    )
}
