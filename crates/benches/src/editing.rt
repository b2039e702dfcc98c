//! The engine and its runs.

ghost use Rattle.std.specs.Prelude.{◌≡◌, ◌<◌, ◌≤◌, length, IfOk};

use crate::given::{INPUT, LOOK, RunDevices, limits, script_of};
use crate::marks::{answer, begin, end};
use anyhow::Result;
use sededit::edit;
use sedengine::{Ended, Engine, Limits, Progress};
use sedscript::Script;
use sedspace::{ByteSource, FromReader, Lines, MemoryOutputs, Outputs, Room, Texts};
use std::alloc::{AllocError, Global};
use std::str;

/// The most cycles of a run.
const CYCLES: usize = 8;

/// How much an engine holds that was just opened.
fn held_at_start(alloc: Global, script: Script, limits: Limits) -> Result<u128, AllocError>
    requires { script.max_nodes ≤ limits.nodes }
{
    let engine = Engine::open(alloc, script, limits)?;
    let held = engine.held().total();
    engine.close();
    Ok(held)
}

pub(crate) fn open(rt: &HostRuntime, text: &[u8]) -> Result<()> {
    let limits = limits()?;
    let script = script_of(rt.alloc(), text)?;
    begin(rt);
    let held = held_at_start(rt.alloc(), script, limits);
    answer(rt, &held)
}

/// The bytes of the standard output.
fn written(outputs: &MemoryOutputs) -> &str {
    if outputs.sinks() == 0 {
        return "no output";
    }
    str::from_utf8(outputs.bytes(0)).unwrap_or("no text")
}

pub(crate) fn run_edit(rt: &HostRuntime, text: &[u8]) -> Result<()> {
    let mut devices = RunDevices::new(rt.alloc())?;
    let done = edit_over(rt, text, &mut devices);
    drop(devices);
    done
}

/// Edits the input, and writes what came of it.
fn edit_over(rt: &HostRuntime, text: &[u8], devices: &mut RunDevices) -> Result<()>
    requires { length devices.old.outputs.held ≡ 1 }
{
    let limits = limits()?;
    let script = script_of(rt.alloc(), text)?;
    let mut source = FromReader::new(INPUT);
    let outputs = &mut devices.outputs;
    begin(rt);
    let ended = edit(
        rt.alloc(),
        script,
        limits,
        &mut source,
        outputs,
        &mut devices.texts,
    );
    end(rt);
    let is_touched = source.reader().len() < INPUT.len() || devices.outputs.writes(0) > 0;
    println!(rt;
        "{ended:?}, wrote {:?}, touched {is_touched}",
        written(&devices.outputs)
    )?;
    Ok(())
}

/// Runs cycles to the end, and notes what is held after each. None where there are more cycles than are noted.
fn cycles<R: ByteSource, O: Outputs, T: Texts>(
    engine: &mut Engine,
    lines: &mut Lines<R>,
    outputs: &mut O,
    texts: &mut T,
    held: &mut [u128; CYCLES],
) -> Option<Ended>
    requires look { lines.old.read_ahead ≡ engine.old.limits.look }
    requires sinks { length engine.old.script.wfiles < O.count outputs.old }
{
    for cycle in 0..CYCLES {
        let progress = engine.cycle(lines, outputs, texts);
        held[cycle] = engine.held().total();
        if let Progress::Ended(end) = progress {
            return Some(end);
        }
    }
    None
}

/// An engine that runs the script of a text.
fn engine_of(alloc: Global, text: &[u8]) -> Result<Engine>
    ensures { IfOk result (λ e. (e.limits.look ≡ 8) × (length e.script.wfiles ≡ 0)) }
{
    let limits = limits()?;
    Ok(Engine::open(alloc, script_of(alloc, text)?, limits)?)
}

pub(crate) fn run_cycles(rt: &HostRuntime, text: &[u8]) -> Result<()> {
    let mut devices = RunDevices::new(rt.alloc())?;
    let done = cycles_over(rt, text, &mut devices);
    drop(devices);
    done
}

/// Runs cycles over the input, and writes what came of them.
fn cycles_over(rt: &HostRuntime, text: &[u8], devices: &mut RunDevices) -> Result<()>
    requires { length devices.old.outputs.held ≡ 1 }
{
    let room = Room::new(rt.alloc(), LOOK)?;
    let mut engine = engine_of(rt.alloc(), text)?;
    let mut lines = Lines::over(FromReader::new(INPUT), room);
    let mut held = [0; CYCLES];
    begin(rt);
    let outputs = &mut devices.outputs;
    let ended = cycles(
        &mut engine,
        &mut lines,
        outputs,
        &mut devices.texts,
        &mut held,
    );
    end(rt);
    engine.close();
    write_cycles(rt, ended, &devices.outputs, &held)
}

/// Writes what came of cycles.
fn write_cycles(
    rt: &HostRuntime,
    ended: Option<Ended>,
    outputs: &MemoryOutputs,
    held: &[u128; CYCLES],
) -> Result<()> {
    println!(rt; "{ended:?}, wrote {:?}, held {held:?}", written(outputs))?;
    Ok(())
}
