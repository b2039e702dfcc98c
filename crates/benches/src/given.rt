//! What calls are given: expressions, scripts and devices. Where one can't be made, nothing is written of a call.

ghost use Rattle.std.specs.Prelude.{◌≡◌, ◌<◌, ◌≤◌, length, IfOk};

use anyhow::{Result, bail};
use sedengine::Limits;
use sedre::{Expr, Kind};
use sedscript::Script;
use sedspace::{MemoryOutputs, MemoryTexts};
use std::alloc::Global;

/// The most nodes of an expression.
pub(crate) const NODES: usize = 1000;

/// The bytes that are read ahead.
pub(crate) const LOOK: usize = 8;

/// The input.
pub(crate) const INPUT: &[u8] = b"aab\nb\nxax\n\nab,ba\nlast";

/// The file that scripts read.
pub(crate) const FILE: &[u8] = b"from f\n";

/// The bytes that an output takes.
const ROOM: usize = 1000;

/// The expression of a text.
pub(crate) fn expression_of(alloc: Global, text: &[u8]) -> Result<Expr>
    ensures { IfOk result (λ e. length e.nodes ≤ 1000) }
{
    match sedre::read(alloc, Kind::Basic, text, None, NODES) {
        Ok(expr) => Ok(expr),
        Err(fault) => bail!("the expression is refused: {fault:?}"),
    }
}

/// Small limits, with few bytes read ahead.
pub(crate) fn limits() -> Result<Limits>
    ensures { IfOk result (λ l. (l.nodes ≡ 1000) × (l.look ≡ 8)) }
{
    match Limits::new(200, 4, LOOK, 1000, NODES) {
        Some(limits) => Ok(limits),
        None => bail!("a limit is out of its range"),
    }
}

/// The script of a text, which writes no file.
pub(crate) fn script_of(alloc: Global, text: &[u8]) -> Result<Script>
    ensures { IfOk result (λ s. (s.max_nodes ≤ 1000) × (length s.wfiles ≡ 0)) }
{
    match sedscript::read(alloc, text, Kind::Basic, NODES) {
        Ok(script) if script.wfiles().is_empty() => Ok(script),
        Ok(script) => {
            script.close();
            bail!("the script writes files")
        }
        Err(fault) => bail!("the script is refused: {fault:?}"),
    }
}

/// What a run writes to, and what its script reads.
#[derive(Drop)]
pub(crate) struct RunDevices {
    /// The standard output.
    pub(crate) outputs: MemoryOutputs,
    /// The file that scripts read.
    pub(crate) texts: MemoryTexts,
}

impl RunDevices {
    /// Devices that were not used yet.
    pub(crate) fn new(alloc: Global) -> Result<RunDevices>
        ensures { IfOk result (λ d. length d.outputs.held ≡ 1) }
    {
        let mut texts = Vec::new(alloc);
        texts.push(FILE.to_vec(alloc)?)?;
        Ok(RunDevices {
            texts: MemoryTexts::new(texts),
            outputs: MemoryOutputs::with_room(alloc, 1, ROOM)?,
        })
    }
}
