//! A host that runs strangers' scripts over bytes, within limits of its own.

use anyhow::{Result, bail};
use sededit::{edit, script};
use sedengine::{Ended, Limits};
use sedscript::Kind;
use sedspace::{FromReader, MemoryTexts, ToWriter};
use std::alloc::Global;

/// The most bytes that a script may write.
const MOST_WRITTEN: u64 = 40;

/// The limits of the host: 64 bytes in each space, no queue, 16 bytes read ahead, 1,000 turns, 100 nodes.
fn own_limits() -> Result<Limits> {
    match Limits::new(64, 0, 16, 1000, 100) {
        Some(limits) => Ok(limits.with_output(MOST_WRITTEN)),
        None => bail!("a limit is out of its range"),
    }
}

/// Runs a script over bytes: what it wrote, and how it ended.
pub fn run(alloc: Global, text: &[u8], input: &[u8]) -> Result<(Vec<u8>, Ended)> {
    let limits = own_limits()?;
    let script = match script(alloc, text, Kind::Extended, limits.nodes()) {
        Ok(script) if script.wfiles().is_empty() => script,
        Ok(script) => {
            script.close();
            bail!("it writes files")
        }
        Err(fault) => bail!("byte {}: {}", fault.place, fault.reason.name()),
    };
    let mut source = FromReader::new(input);
    let mut output = ToWriter::new(Vec::new(alloc));
    let mut texts = MemoryTexts::new(Vec::new(alloc));
    let end = edit(alloc, script, limits, &mut source, &mut output, &mut texts)?;
    Ok((output.into_writer(), end))
}
