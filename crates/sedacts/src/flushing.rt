//! Writing the queue, and the files of it.
ghost use Rattle.std.specs.Prelude.{◌≡◌, ◌<◌, ◌≤◌, [], ◌∷◌, length, slice_get};
ghost use Rattle.sedacts.specs.State.{copy, flush};
ghost use Rattle.sedacts.specs.Keeping.{AllQueue, CommandQueues, entries_of, entry_by};
ghost use Rattle.sedacts.specs.Steps.{FlushesPart};

use crate::ends::Ended;
use crate::limits::Limits;
use crate::meter::MeteredSinks;
use crate::write::write_line;
use sedscript::{Action, Script};
use sedspace::{Queue, Space, Texts};

/// Writes a file's bytes to the standard output as they are, a turn each, through the build space (XCU sed, the command
/// `r`).
fn copy_file<O: MeteredSinks, T: Texts>(
    file: usize,
    limits: &Limits,
    turns: &mut u64,
    build: &mut Space,
    outputs: &mut O,
    texts: &mut T,
) -> Result<(), Ended>
    requires sink { 0 < O.count outputs.old }
    requires room { build.old.limit ≡ limits.now.space }
    requires before { turns.old ≤ limits.now.turns }
    ensures { FlushesPart O.tally O.count T.text limits.now
        (λ rest later. (copy file 0 ∷ rest, later)) (λ rest later. (rest, later))
        turns.old turns.new build.old build.new outputs.old outputs.new texts.old texts.new result }
{
    let mut offset: u64 = 0;
    'pieces: loop {
        let left = limits.turns() - *turns;
        // At least one byte is asked for, which shows whether a turn is due.
        let most = left.min(limits.space() as u64).max(1) as usize;
        let count = build.fill(texts, file, offset, most);
        if count == 0 {
            return Ok(());
        }
        if left == 0 {
            return Err(Ended::TurnsSpent);
        }
        outputs.write_all(0, build.bytes())?;
        *turns += count as u64;
        offset += count as u64;
    }
}

/// Writes an entry of the queue, by the number of its command: a text with a newline, a file as it is.
#[inline(never)]
fn write_entry<O: MeteredSinks, T: Texts>(
    script: &Script,
    entry: u64,
    limits: &Limits,
    turns: &mut u64,
    build: &mut Space,
    outputs: &mut O,
    texts: &mut T,
) -> Result<(), Ended>
    requires sink { 0 < O.count outputs.old }
    requires room { 0 < length script.now.rfiles → build.old.limit ≡ limits.now.space }
    requires before { turns.old ≤ limits.now.turns }
    requires queued { CommandQueues (slice_get script.now.commands entry) }
    ensures { FlushesPart O.tally O.count T.text limits.now
        (λ rest later. (flush ∷ rest, entry_by script.now.texts (slice_get script.now.commands entry) ∷ later))
        (λ rest later. (flush ∷ rest, later))
        turns.old turns.new build.old build.new outputs.old outputs.new texts.old texts.new result }
{
    match script.command(entry as usize).action {
        Action::Text(_, text) => write_line(outputs, 0, script.text(text)),
        Action::File(_, file) => copy_file(file, limits, turns, build, outputs, texts),
        _ => unreachable!(),
    }
}

/// Writes the queue: texts with a newline, files as they are.
#[inline(always)]
pub fn flush_queue<O: MeteredSinks, T: Texts>(
    script: &Script,
    queue: &Queue,
    limits: &Limits,
    turns: &mut u64,
    build: &mut Space,
    outputs: &mut O,
    texts: &mut T,
) -> Result<(), Ended>
    requires sink { 0 < O.count outputs.old }
    requires room { 0 < length script.now.rfiles → build.old.limit ≡ limits.now.space }
    requires before { turns.old ≤ limits.now.turns }
    requires queued { AllQueue script.now queue.now.items }
    ensures { FlushesPart O.tally O.count T.text limits.now
        (λ rest later. (flush ∷ rest, entries_of script.now queue.now.items)) (λ rest later. (rest, []))
        turns.old turns.new build.old build.new outputs.old outputs.new texts.old texts.new result }
{
    for index in 0..queue.len() {
        write_entry(
            script,
            queue.entry(index),
            limits,
            turns,
            build,
            outputs,
            texts,
        )?;
    }
    Ok(())
}
