//! The command line, the files joined, and the program.

ghost use Rattle.std.specs.Prelude.{◌≡◌, [], IfOk};

use crate::given::{FILE, INPUT, limits};
use crate::marks::{answer, answer_made, begin, end};
use anyhow::Result;
use sededit::{
    Joined, Line, MemoryFile, MemoryInputs, MemoryNames, MemorySinks, Refused, command, line,
};
use std::alloc::Global;
use std::{slice, str};

/// The bytes that an output takes.
const ROOM: usize = 1000;

/// The words of a command line with each option, a script and files.
fn words_with(script: &str) -> [&str; 8] {
    ["-n", "-E", "-e", script, "-f", "program", "f", "-"]
}

/// How many words of scripts and files a line has.
fn count_of(read: &Result<Line, Refused>) -> Result<usize, &'static str> {
    match read {
        Ok(line) => Ok(line.parts.len().saturating_add(line.operands.len())),
        Err(Refused::NoMemory) => Err("no memory"),
        Err(Refused::Words(_)) => Err("other words"),
    }
}

pub(crate) fn read_line(rt: &HostRuntime, script: &str) -> Result<()> {
    begin(rt);
    let line = line(rt.alloc(), &words_with(script));
    let count = count_of(&line);
    drop(line);
    answer(rt, &count)
}

/// The files that can be read.
fn files(alloc: Global) -> Result<Vec<MemoryFile>> {
    let mut files = Vec::new(alloc);
    for (name, text) in [("program", b"$!d\n".as_slice()), ("f", FILE)].iter() {
        let name = String::from_str(alloc, name)?;
        files.push(MemoryFile::new(name, text.to_vec(alloc)?))?;
    }
    Ok(files)
}

/// The files that can be read, and the input.
fn inputs(alloc: Global) -> Result<MemoryInputs> {
    Ok(MemoryInputs::new(INPUT.to_vec(alloc)?, files(alloc)?))
}

/// The standard output, and the file that can be written.
fn sinks(alloc: Global) -> Result<MemorySinks>
    ensures { IfOk result (λ s. s.created ≡ 0) }
{
    let mut names = Vec::new(alloc);
    names.push(b"out".to_vec(alloc)?)?;
    Ok(MemorySinks::with_room(alloc, names, ROOM)?)
}

/// The devices of a call of the program.
#[derive(Drop)]
struct CallDevices {
    inputs: MemoryInputs,
    sinks: MemorySinks,
    names: MemoryNames,
    errors: Vec<u8>,
}

impl CallDevices {
    /// Devices that were not used yet.
    fn new(alloc: Global) -> Result<CallDevices>
        ensures { IfOk result (λ d. (d.sinks.created ≡ 0) × (d.names.named ≡ [])) }
    {
        Ok(CallDevices {
            errors: Vec::with_capacity(alloc, ROOM)?,
            sinks: sinks(alloc)?,
            names: MemoryNames::new(alloc, files(alloc)?),
            inputs: inputs(alloc)?,
        })
    }
}

pub(crate) fn join(rt: &HostRuntime) -> Result<()> {
    let name = String::from_str(rt.alloc(), "f")?;
    let inputs = inputs(rt.alloc())?;
    begin(rt);
    answer_made(rt, Joined::new(rt.alloc(), inputs, slice::from_ref(&name)))
}

pub(crate) fn make_sinks(rt: &HostRuntime) -> Result<()> {
    let names = Vec::new(rt.alloc());
    begin(rt);
    answer_made(rt, MemorySinks::with_room(rt.alloc(), names, ROOM))
}

pub(crate) fn run_command(rt: &HostRuntime, script: &str) -> Result<()> {
    let mut devices = CallDevices::new(rt.alloc())?;
    let done = run_over(rt, script, &mut devices);
    drop(devices);
    done
}

/// Runs the program over devices, and writes what came of it.
fn run_over(rt: &HostRuntime, script: &str, devices: &mut CallDevices) -> Result<()>
    requires sinks { devices.old.sinks.created ≡ 0 }
    requires names { devices.old.names.named ≡ [] }
{
    let limits = limits()?;
    begin(rt);
    let status = command(
        rt.alloc(),
        &words_with(script),
        limits,
        &mut devices.inputs,
        &mut devices.sinks,
        &mut devices.names,
        &mut devices.errors,
    );
    end(rt);
    write_call(rt, status, devices)
}

/// Writes what came of a call of the program.
fn write_call(rt: &HostRuntime, status: u8, devices: &CallDevices) -> Result<()> {
    let written = str::from_utf8(devices.sinks.bytes(0)).unwrap_or("no text");
    let message = str::from_utf8(devices.errors.as_slice()).unwrap_or("no text");
    let is_read = devices.inputs.calls() > 0;
    println!(rt; "{status}, wrote {written:?}, said {message:?}, read {is_read}")?;
    Ok(())
}
