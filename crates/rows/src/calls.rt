//! Calls of the program over files in memory: what they write, and their status. The head of the table names its fields.
//!
//! Each row runs with reads of any length and of 1, 2 and 3 bytes, with writes of any length and of one byte, and with 1
//! and 65,536 bytes read ahead; where a read or a write fails, as the program reads and writes. A flush is a write too. A
//! call of status 1 reads no input.

ghost use Rattle.std.specs.Prelude.{◌≡◌, ◌<◌, [], IfSome};

use crate::devices::Behaviour;
use crate::job::limits_of;
use crate::options::{Options, name_and_value};
use crate::report::{NO_MEMORY, Report};
use crate::table::{SheetRow, add_copy};
use sededit::{MemoryFile, MemoryInputs, MemoryNames, MemorySinks, command};
use sedengine::Limits;
use sedspace::Outputs;
use std::alloc::Global;
use std::str;

/// The devices of a call.
#[derive(Drop)]
struct EditDevices {
    inputs: MemoryInputs,
    sinks: MemorySinks,
    names: MemoryNames,
    errors: Vec<u8>,
}

/// The most bytes of a read.
const READS: [usize; 4] = [usize::MAX, 1, 2, 3];

/// Runs a row, to the first difference.
pub(crate) fn run(row: &SheetRow, report: &mut Report) {
    let options = row.options(4);
    let way = Behaviour::of(options);
    if !options.has(b"fails") && !options.has(b"refuses") {
        let mut piecemeal = way;
        piecemeal.write = 1;
        for read in READS {
            piecemeal.read = read;
            piecemeal.look = 1;
            run_way(row, piecemeal, report);
            piecemeal.look = way.look;
            run_way(row, piecemeal, report);
        }
    }
    run_way(row, way, report);
}

/// Runs it so, where no difference was found before.
fn run_way(row: &SheetRow, way: Behaviour, report: &mut Report) {
    if report.is_empty() {
        match limits_of(row.options(4), way.look) {
            Ok(limits) => run_limited(row, way, limits, report),
            Err(message) => report.say(message),
        }
        way.note(report);
    }
}

/// Runs it so within these limits.
fn run_limited(row: &SheetRow, way: Behaviour, limits: Limits, report: &mut Report) {
    let Some(words) = words_of(row.alloc, row.field(0)) else {
        return report.say("a word is no text");
    };
    match devices_of(row, way) {
        Some(mut devices) => run_words(row, words.as_slice(), limits, &mut devices, report),
        None => report.say(NO_MEMORY),
    }
}

/// Calls the program with these words over these devices.
fn run_words(
    row: &SheetRow,
    words: &[String],
    limits: Limits,
    devices: &mut EditDevices,
    report: &mut Report,
)
    requires created { devices.old.sinks.created ≡ 0 }
    requires named { devices.old.names.named ≡ [] }
{
    let EditDevices {
        inputs,
        sinks,
        names,
        errors,
    } = devices;
    let status = command(row.alloc, words, limits, inputs, sinks, names, errors);
    report.compare_numbers("the status", u128::from(status), row.number(3));
    let options = row.options(4);
    let begun = options.value(b"output_begins");
    compare_stream("the output", sinks.bytes(0), row.field(2), begun, report);
    compare_files(sinks, options, report);
    let wanted = options.value(b"errors").unwrap_or(b"");
    let begun = options.value(b"errors_begin");
    compare_stream("the errors", errors.as_slice(), wanted, begun, report);
    if status == 1 && inputs.calls() > 0 {
        report.say("an input is read");
    }
}

/// The words of a command line. None where they are no text, and for want of memory.
fn words_of(alloc: Global, written: &[u8]) -> Option<Vec<String>> {
    let text = str::from_utf8(written).ok()?;
    let mut words = Vec::new(alloc);
    if text.is_empty() {
        return Some(words);
    }
    for written in text.split(' ') {
        let word = if written == "''" { "" } else { written };
        words.push(word.replace(alloc, "~", " ").ok()?).ok()?;
    }
    Some(words)
}

/// The devices of a row.
fn devices_of(row: &SheetRow, way: Behaviour) -> Option<EditDevices>
    ensures created { IfSome result (λ d. d.sinks.created ≡ 0) }
    ensures named { IfSome result (λ d. d.names.named ≡ []) }
{
    if let Some(files) = files_of(row)
        && let Some(inputs) = inputs_of(row, way)
        && let Some(sinks) = sinks_of(row, way)
    {
        return Some(EditDevices {
            inputs,
            sinks,
            names: MemoryNames::new(row.alloc, files),
            errors: Vec::new(row.alloc),
        });
    }
    None
}

/// The inputs.
fn inputs_of(row: &SheetRow, way: Behaviour) -> Option<MemoryInputs> {
    let standard = row.field(1).to_vec(row.alloc).ok()?;
    let mut inputs = MemoryInputs::new(standard, files_of(row)?);
    inputs.give_at_most(way.read.max(1));
    inputs.fail_at(way.failing_read as u64);
    Some(inputs)
}

/// The files of the options `f:NAME=TEXT`.
fn files_of(row: &SheetRow) -> Option<Vec<MemoryFile>> {
    let mut files = Vec::new(row.alloc);
    for option in row.options(4).written {
        if let Some(file) = option.as_slice().strip_prefix(b"f:") {
            let (name, text) = name_and_value(file);
            files.push(file_of(row.alloc, name, text)?).ok()?;
        }
    }
    Some(files)
}

/// A file of this name and text.
fn file_of(alloc: Global, name: &[u8], text: &[u8]) -> Option<MemoryFile> {
    if let Ok(name) = str::from_utf8(name)
        && let Ok(name) = String::from_str(alloc, name)
        && let Ok(text) = text.to_vec(alloc)
    {
        return Some(MemoryFile::new(name, text));
    }
    None
}

/// The sinks. None where no sink of that number can be made to fail, and for want of memory.
fn sinks_of(row: &SheetRow, way: Behaviour) -> Option<MemorySinks>
    ensures { IfSome result (λ s. s.created ≡ 0) }
{
    let names = names_of(row)?;
    let count = names.len();
    let room = row.options(4).number_or(b"room", 4096);
    let Ok(mut sinks) = MemorySinks::with_room(row.alloc, names, room) else {
        return None;
    };
    sinks.take_at_most(way.write.max(1));
    if way.failing_sink > count {
        return None;
    }
    sinks.fail_at(way.failing_sink, way.failing_write as u64);
    Some(sinks)
}

/// The names of the options `w:NAME=TEXT`.
fn names_of(row: &SheetRow) -> Option<Vec<Vec<u8>>> {
    let mut names = Vec::new(row.alloc);
    for option in row.options(4).written {
        if let Some(file) = option.as_slice().strip_prefix(b"w:") {
            add_copy(&mut names, name_and_value(file).0)?;
        }
    }
    Some(names)
}

/// Whether all files are created, and have what they should.
fn compare_files(sinks: &MemorySinks, options: Options<'_>, report: &mut Report) {
    let count = options.files(b"w:");
    for k in 0..count {
        if let Some((_, wanted)) = options.file(b"w:", k) {
            report.compare("a file", sinks.bytes(k + 1), wanted);
        }
    }
    report.compare_numbers("files created", sinks.sinks() as u128 - 1, count);
}

/// Whether what was written is what is wanted, or begins with it.
fn compare_stream(
    what: &str,
    written: &[u8],
    wanted: &[u8],
    beginning: Option<&[u8]>,
    report: &mut Report,
) {
    match beginning {
        Some(begun) if written.starts_with(begun) => {}
        _ => report.compare(what, written, beginning.unwrap_or(wanted)),
    }
}
