//! The devices of a run, in memory. These options of a row set how they behave:
//!
//! * `read=1`: a read of the input gives one byte; `lines`: it gives one line; `fails=2`: the second read fails
//! * `room=3`: a sink takes three bytes and then fails; `refuses=1`: the first write to this sink fails, or with
//!   `write=3` the third
//! * `lost=2`: the second read of a file that the script reads fails
ghost use Rattle.std.specs.Prelude.{◌<◌, length, None, IfOk};

use crate::options::Options;
use crate::report::{Made, NO_MEMORY, Report};
use crate::table::{SheetRow, add_copy};
use sedengine::Ended;
use sedscript::Script;
use sedspace::{MemoryOutputs, MemorySource, MemoryTexts, Outputs, Texts};
use std::alloc::Global;

/// How devices give and take bytes, and which of their calls fails. Calls are counted from 1, and 0 is none.
#[derive(Clone, Copy)]
pub(crate) struct Behaviour {
    /// The most bytes of a read of the input, where the row doesn't say.
    pub read: usize,
    /// The most bytes of a write, and of a read of a file.
    pub write: usize,
    /// The most bytes read ahead, where the row doesn't say.
    pub look: usize,
    /// Two places where the input is cut.
    pub cuts: (usize, usize),
    pub failing_read: usize,
    pub failing_sink: usize,
    pub failing_write: usize,
}

impl Behaviour {
    /// Reads and writes of any length, as far ahead as the program reads; the calls fail of which the options say so.
    pub(crate) fn of(options: Options<'_>) -> Behaviour {
        let is_refused = options.has(b"refuses");
        Behaviour {
            read: usize::MAX,
            write: usize::MAX,
            look: 65536,
            cuts: (usize::MAX, usize::MAX),
            failing_read: options.number_or(b"fails", 0),
            failing_sink: options.number_or(b"refuses", 0),
            failing_write: options.number_or(b"write", usize::from(is_refused)),
        }
    }

    /// Adds to the difference, where there is one, the way by which it came.
    pub(crate) fn note(self, report: &mut Report) {
        report.note("; bytes of a read: ", self.read);
        report.note(", of a write: ", self.write);
        report.note(", ahead: ", self.look);
        report.note("; the read that fails: ", self.failing_read);
        report.note(", the write: ", self.failing_write);
    }
}

/// What a script runs over.
#[derive(Drop)]
pub(crate) struct Devices {
    pub source: MemorySource,
    pub outputs: MemoryOutputs,
    pub texts: PiecedTexts,
}

impl Devices {
    /// The end that names the first device that failed, where one did.
    pub(crate) fn failed(&self) -> Option<Ended> {
        if self.source.failures() > 0 {
            return Some(Ended::InputBroken);
        }
        for sink in 0..self.outputs.sinks() {
            if self.outputs.failures(sink) > 0 {
                return Some(Ended::OutputBroken(sink));
            }
        }
        None
    }
}

/// Texts of which a read gives no more than so many bytes, at least one, and of which one read may fail: it gives nothing,
/// and those after it give again what there is.
#[derive(Drop)]
pub(crate) struct PiecedTexts {
    held: MemoryTexts,
    most: usize,
    /// How often they were read.
    pub reads: usize,
    /// The number of the read that fails.
    fails: usize,
}

impl Texts for PiecedTexts {
    // Its bytes are given by no definition, since a read may fail.
    ghost text = { λ t k. None };

    fn read_at(&mut self, number: usize, offset: u64, buf: &mut [u8]) -> usize {
        self.reads = self.reads.saturating_add(1);
        if self.reads == self.fails {
            return 0;
        }
        let room = buf.len().min(self.most.max(1));
        self.held.read_at(number, offset, &mut buf[..room])
    }
}

/// The devices of a script: with a sink for the standard output and for each file that it writes.
pub(crate) fn devices_of(row: &SheetRow, script: &Script, way: Behaviour) -> Made<Devices>
    ensures { IfOk result (λ d. length script.now.wfiles < length d.outputs.held) }
{
    let options = row.options(3);
    let held = texts_of(row.alloc, script.rfiles(), options).ok_or(NO_MEMORY)?;
    let texts = PiecedTexts {
        held,
        most: way.write,
        reads: 0,
        fails: options.number_or(b"lost", 0),
    };
    let source = source_of(row, way)?;
    match outputs_of(row, script, way) {
        Ok(outputs) => Ok(Devices {
            source,
            outputs,
            texts,
        }),
        Err(message) => Err(message),
    }
}

/// The input.
fn source_of(row: &SheetRow, way: Behaviour) -> Made<MemorySource> {
    let most = row.options(3).number_or(b"read", way.read);
    if most == 0 {
        return Err("no input comes in reads of no byte");
    }
    let (Ok(input), Some(cuts)) = (row.field(1).to_vec(row.alloc), cuts_of(row, way)) else {
        return Err(NO_MEMORY);
    };
    let mut source = MemorySource::new(input, cuts);
    source.give_at_most(most);
    source.fail_at(way.failing_read as u64);
    Ok(source)
}

/// The places where the input is cut. None for want of memory.
fn cuts_of(row: &SheetRow, way: Behaviour) -> Option<Vec<usize>> {
    if row.options(3).has(b"lines") {
        return line_ends(row.alloc, row.field(1));
    }
    [way.cuts.0, way.cuts.1].to_vec(row.alloc).ok()
}

/// The places after the newlines. None for want of memory.
fn line_ends(alloc: Global, input: &[u8]) -> Option<Vec<usize>> {
    let mut ends = Vec::new(alloc);
    let mut place = 0usize;
    for b in input {
        place = place.saturating_add(1);
        if *b == b'\n' {
            ends.push(place).ok()?;
        }
    }
    Some(ends)
}

/// The texts of the files of these names, one that no option gives is empty. None for want of memory.
fn texts_of(alloc: Global, names: &[Vec<u8>], options: Options<'_>) -> Option<MemoryTexts> {
    let mut texts = Vec::new(alloc);
    for name in names {
        add_copy(&mut texts, options.text_read(name.as_slice()))?;
    }
    Some(MemoryTexts::new(texts))
}

/// The sinks.
fn outputs_of(row: &SheetRow, script: &Script, way: Behaviour) -> Made<MemoryOutputs>
    ensures { IfOk result (λ o. length script.now.wfiles < length o.held) }
{
    let options = row.options(3);
    let count = options.files(b"w:").saturating_add(1);
    let made = match options.number(b"room") {
        Some(room) => MemoryOutputs::with_room(row.alloc, count, room),
        None => MemoryOutputs::new(row.alloc, count),
    };
    let Ok(mut outputs) = made else {
        return Err(NO_MEMORY);
    };
    outputs.take_at_most(way.write.max(1));
    if way.failing_sink >= outputs.sinks() || script.wfiles().len() >= outputs.sinks() {
        return Err("there is no such sink");
    }
    outputs.fail_at(way.failing_sink, way.failing_write as u64);
    Ok(outputs)
}
