//! A host that drives the engine a cycle at a time, and leaves off where it has seen enough of a script.

ghost use Rattle.std.specs.Prelude.{◌≡◌, ◌<◌, length};

use anyhow::{Result, bail};
use sedengine::{Ended, Engine, Limits, Progress};
use sedscript::{Kind, read};
use sedspace::{ByteSource, FromReader, Lines, MemoryTexts, Outputs, Texts, ToWriter};
use std::alloc::Global;

/// How many cycles the host sees of each script.
const MOST_CYCLES: u32 = 3;

/// Runs the first cycles, and gives the end where they come to one.
fn first_cycles<R: ByteSource, O: Outputs, T: Texts>(
    engine: &mut Engine,
    lines: &mut Lines<R>,
    outputs: &mut O,
    texts: &mut T,
) -> Option<Ended>
    requires look { lines.old.read_ahead ≡ engine.old.limits.look }
    requires sinks { length engine.old.script.wfiles < O.count outputs.old }
{
    for _cycle in 0..MOST_CYCLES {
        if let Progress::Ended(end) = engine.cycle(lines, outputs, texts) {
            return Some(end);
        }
    }
    None
}

/// What the first cycles of a script write over bytes, and the end where they come to one.
pub fn run(alloc: Global, text: &[u8], input: &[u8]) -> Result<(Vec<u8>, Option<Ended>)> {
    let Some(limits) = Limits::new(1 << 16, 64, 4096, 1 << 20, 1024) else {
        bail!("a limit is out of its range");
    };
    let mut lines = Lines::new(alloc, FromReader::new(input), limits.look())?;
    let script = match read(alloc, text, Kind::Basic, limits.nodes()) {
        Ok(script) if script.wfiles().is_empty() => script,
        Ok(script) => {
            script.close();
            bail!("it writes files")
        }
        Err(fault) => bail!("byte {}: {}", fault.place, fault.reason.name()),
    };
    let mut engine = Engine::open(alloc, script, limits)?;
    let mut output = ToWriter::new(Vec::new(alloc));
    let mut texts = MemoryTexts::new(Vec::new(alloc));
    let end = first_cycles(&mut engine, &mut lines, &mut output, &mut texts);
    // by its own call: where it goes out of scope, it is proved field by field
    engine.close();
    Ok((output.into_writer(), end))
}
