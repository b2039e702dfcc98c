//! A whole edit, from bytes to bytes: what the contract of `edit` says of one over memory that is ample.
ghost use Rattle.std.specs.Prelude.{◌≡◌, ◌≤◌, ◌<◌, ◌==◌, ℕ, List, [], Some, None, IfOk, codes, if◌then◌else◌, length, reverse, vec_capacity};
ghost use Rattle.sedre.specs.declared.types.Kind.TheVariants.{Basic};
ghost use Rattle.sedscript.specs.Script.{Means};
ghost use Rattle.sedspace.specs.Lines.{split_lines};
ghost use Rattle.scripts.specs.Ampleness.{IsAmple, ample_room};
ghost use Rattle.scripts.specs.Edited.{text_of};

use sededit::{edit, script};
use sedengine::{Ended, Limits};
use sedscript::laws::one_meaning;
use sedscript::{Kind, Script};
use sedspace::{Broken, ByteSource, MemoryTexts, Outputs};
use std::alloc::{AllocError, Global};

/// The bytes that a space holds here, and the output: an input that is shorter fits.
const ROOM: usize = 1_048_576;

/// Bytes that the caller lends. No read of them fails.
#[derive(Drop)]
struct Lent<'a> {
    left: &'a [u8],
}

impl<'a> ByteSource for Lent<'a> {
    ghost remaining = { λ s. Some s.left.now };

    ghost failures = { λ _. 0 };

    ghost reads = { λ _. None };

    ghost reference = { λ _. [] };

    fn read(&mut self, buf: &mut [u8]) -> Result<usize, Broken> {
        let count = self.left.len().min(buf.len());
        let (first, rest) = self.left.split_at(count);
        buf[..count].copy_from_slice(first);
        self.left = rest;
        Ok(count)
    }
}

/// One sink in memory, for which `ROOM` bytes are reserved. A write to it fails only where it is full.
#[derive(Drop)]
struct OneSink {
    bytes: Vec<u8>,
    failed: u64,
    ghost room: { ample_room ≤ vec_capacity bytes },
    ghost within: { length bytes.items ≤ ample_room },
    ghost full: { 0 < failed → ample_room ≤ length bytes.items },
}

impl OneSink {
    fn new(alloc: Global) -> Result<OneSink, AllocError>
        ensures { IfOk result (λ o. o.bytes.items ≡ []) }
    {
        let bytes = Vec::with_capacity(alloc, ROOM)?;
        Ok(OneSink { bytes, failed: 0 })
    }
}

impl Outputs for OneSink {
    ghost count = { λ o. 1 };

    ghost contents = { λ o k. if k == 0 then Some o.bytes.items else Some [] };

    ghost failures = { λ o k. if k == 0 then o.failed else 0 };

    ghost names = { λ _. [] };

    fn sinks(&self) -> usize {
        1
    }

    fn write(&mut self, sink: usize, bytes: &[u8]) -> Result<usize, Broken> {
        let count = bytes.len().min(ROOM - self.bytes.len());
        if count == 0 && !bytes.is_empty() {
            self.failed = self.failed.saturating_add(1);
            return Err(Broken);
        }
        match self.bytes.extend_from_slice(&bytes[..count]) {
            Ok(()) => Ok(count),
            Err(_) => unreachable!(),
        }
    }
}

/// The limits: a space of `ROOM` bytes, no queue, and as many turns as there are.
fn limits() -> Result<Limits, AllocError>
    ensures { IfOk result IsAmple }
{
    Limits::new(ROOM, 0, 65536, u64::MAX, 65536).ok_or(AllocError)
}

/// The script `1!G;h;$!d`.
fn reversing(alloc: Global) -> Result<Script, AllocError>
    ensures { IfOk result (λ p. Means (codes "1!G;h;$!d") Basic 65536 p) }
{
    script(alloc, b"1!G;h;$!d", Kind::Basic, 65536).map_err(|_| AllocError)
}

/// Runs `1!G;h;$!d` over an input of less than 1,048,576 bytes: how the run ended, and the bytes that it wrote.
///
/// # Errors
/// `AllocError` where a request for memory was refused.
pub fn reversed(alloc: Global, input: &[u8]) -> Result<(Ended, Vec<u8>), AllocError>
    requires { length input.now < ample_room }
    ensures { IfOk result (λ r. (r.0 ≡ Ended.Done) × (r.1.items ≡ text_of (reverse (split_lines input.now)))) }
{
    one_meaning();
    let limits = limits()?;
    let program = reversing(alloc)?;
    let mut source = Lent { left: input };
    let mut output = OneSink::new(alloc)?;
    let mut texts = MemoryTexts::new(Vec::new(alloc));
    let end = edit(alloc, program, limits, &mut source, &mut output, &mut texts)?;
    Ok((end, output.bytes))
}
