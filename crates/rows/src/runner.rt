//! The run of a row's script, by `edit` or by an engine.
ghost use Rattle.std.specs.Prelude.{◌≡◌, ◌<◌, ◌≤◌, length};

use crate::devices::{Behaviour, Devices, PiecedTexts, devices_of};
use crate::job::{limits_of, script_of};
use crate::report::{Made, NO_MEMORY};
use crate::table::SheetRow;
use sededit::edit;
use sedengine::{Ended, Engine, Limits, Progress};
use sedscript::Script;
use sedspace::{Lines, MemoryOutputs, MemorySource, Outputs};
use std::alloc::Global;

/// What a run came to.
#[derive(Drop)]
pub(crate) struct RunOutcome {
    pub end: Ended,
    pub devices: Devices,
    /// Whether the engine answers its end again, and calls no device.
    pub stays: bool,
    pub cycle: Cycle,
}

/// What an engine holds and has taken after one cycle.
#[derive(Clone, Copy, Default)]
pub(crate) struct Cycle {
    /// The bytes that the standard output has.
    pub written: usize,
    /// The bytes taken from the input, and how often it was read.
    pub taken: usize,
    pub calls: u64,
    /// The bytes that the engine holds.
    pub held: u128,
}

/// Runs it by an engine, or else by `edit`.
pub(crate) fn run(row: &SheetRow, way: Behaviour, by_engine: bool) -> Made<RunOutcome> {
    let limits = limits_of(row.options(3), way.look)?;
    let script = script_of(row, &limits)?;
    match devices_of(row, &script, way) {
        Ok(devices) if by_engine => run_engine(row.alloc, script, limits, devices),
        Ok(devices) => run_edit(row.alloc, script, limits, devices),
        Err(message) => {
            script.close();
            Err(message)
        }
    }
}

/// Runs it by `edit`.
fn run_edit(alloc: Global, script: Script, limits: Limits, devices: Devices) -> Made<RunOutcome>
    requires nodes { script.max_nodes ≤ limits.nodes }
    requires sinks { length script.wfiles < length devices.outputs.held }
{
    let mut devices = devices;
    let (source, outputs) = (&mut devices.source, &mut devices.outputs);
    let Ok(end) = edit(alloc, script, limits, source, outputs, &mut devices.texts) else {
        return Err(NO_MEMORY);
    };
    Ok(RunOutcome {
        end,
        devices,
        stays: true,
        cycle: Cycle::default(),
    })
}

/// Runs it by an engine, which is made last: each way out that lets go of one is dear to prove.
fn run_engine(alloc: Global, script: Script, limits: Limits, devices: Devices) -> Made<RunOutcome>
    requires nodes { script.max_nodes ≤ limits.nodes }
    requires sinks { length script.wfiles < length devices.outputs.held }
{
    let Ok(lines) = Lines::new(alloc, devices.source, limits.look()) else {
        script.close();
        return Err(NO_MEMORY);
    };
    match Engine::open(alloc, script, limits) {
        Ok(engine) => Ok(run_to_end(engine, lines, devices.outputs, devices.texts)),
        Err(_) => Err(NO_MEMORY),
    }
}

/// Runs a cycle, and the rest; then both again, which do nothing more.
fn run_to_end(
    mut engine: Engine,
    mut lines: Lines<MemorySource>,
    mut outputs: MemoryOutputs,
    mut texts: PiecedTexts,
) -> RunOutcome
    requires look { lines.read_ahead ≡ engine.limits.look }
    requires sinks { length engine.script.wfiles < length outputs.held }
{
    let _progress = engine.cycle(&mut lines, &mut outputs, &mut texts);
    let cycle = Cycle {
        written: outputs.bytes(0).len(),
        taken: lines.source().taken(),
        calls: lines.source().calls(),
        held: engine.held().total(),
    };
    let end = engine.run(&mut lines, &mut outputs, &mut texts);
    let calls = calls_of(lines.source(), &outputs, &texts);
    let again = engine.run(&mut lines, &mut outputs, &mut texts);
    let progress = engine.cycle(&mut lines, &mut outputs, &mut texts);
    let is_ended = again == end && matches!(progress, Progress::Ended(last) if last == end);
    let stays = is_ended && calls_of(lines.source(), &outputs, &texts) == calls;
    // by a call: at the end of its scope all its fields would be proved to be let go of
    engine.close();
    let source = lines.into_source();
    RunOutcome {
        end,
        devices: Devices {
            source,
            outputs,
            texts,
        },
        stays,
        cycle,
    }
}

/// How often devices were called.
fn calls_of(source: &MemorySource, outputs: &MemoryOutputs, texts: &PiecedTexts) -> u64 {
    let mut calls = source.calls().saturating_add(texts.reads as u64);
    for sink in 0..outputs.sinks() {
        calls = calls.saturating_add(outputs.writes(sink));
    }
    calls
}
