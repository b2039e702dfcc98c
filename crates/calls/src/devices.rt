//! Devices over memory and over those of std, and faults of lines that are answered again.
ghost use Rattle.std.specs.Prelude.{◌≡◌, IfOk};

use sedspace::{
    Broken, ByteSource, FromReader, Got, LineFault, Lines, MemoryOutputs, MemorySource,
    MemoryTexts, Outputs, Space, Texts, ToWriter,
};
use std::io;
use std::process::Abort;
use std::test::Fail;

fn same(rt: &impl Abort, found: &[u8], wanted: &[u8]) {
    assert_eq!(rt; found, wanted);
}

// Copies the lines, each with its newline, and asks before each whether there is one.
fn copy<R: ByteSource>(
    rt: &impl Abort,
    lines: &mut Lines<R>,
    space: &mut Space,
    found: &mut Vec<u8>,
) {
    for _ in 0..100 {
        space.clear();
        let is_last = lines.is_last() == Ok(true);
        let got = if is_last { Got::End } else { Got::Line };
        assert!(rt; lines.next_into(space) == Ok(got));
        if is_last {
            break;
        }
        assert!(rt; found.extend_from_slice(space.line()).is_ok());
    }
}

// The fault is answered again, without a read, and the space has its old bytes.
fn stays_at(rt: &impl Abort, lines: &mut Lines<MemorySource>, space: &mut Space, fault: LineFault) {
    let held = space.len();
    let calls = lines.source().calls();
    let line = lines.next_into(space);
    let last = lines.is_last();
    assert!(rt; line == Err(fault) && last == Err(fault));
    assert!(rt; space.len() == held && lines.source().calls() == calls);
}

#[test]
fn a_failure_is_answered_again(rt: HostRuntime) -> Result<(), Fail> {
    let alloc = rt.alloc();
    let mut space = Space::new(alloc, 8)?;
    let mut source = MemorySource::new(b"ab\ncd".to_vec(alloc)?, Vec::new(alloc));
    source.give_at_most(1);
    source.fail_at(4);
    let mut lines = Lines::new(alloc, source, 64)?;
    assert!(rt; lines.next_into(&mut space) == Ok(Got::Line));
    assert!(rt; lines.next_into(&mut space) == Err(LineFault::Broken));
    stays_at(&rt, &mut lines, &mut space, LineFault::Broken);
    assert!(rt; lines.source().calls() == 4 && lines.source().failures() == 1);
    Ok(())
}

#[test]
fn a_long_line_is_answered_again(rt: HostRuntime) -> Result<(), Fail> {
    let alloc = rt.alloc();
    for (look, ahead) in [(1, 1), (2, 2), (7, 3), (64, 7)] {
        let mut space = Space::new(alloc, 6)?;
        let source = MemorySource::new(b"abc\nabcd\na\n".to_vec(alloc)?, Vec::new(alloc));
        let mut lines = Lines::new(alloc, source, look)?;
        assert!(rt; lines.next_into(&mut space) == Ok(Got::Line));
        assert!(rt; lines.is_last() == Ok(false) && lines.ahead_len() == ahead);
        assert!(rt; lines.next_into(&mut space) == Err(LineFault::TooLong));
        stays_at(&rt, &mut lines, &mut space, LineFault::TooLong);
        same(&rt, space.bytes(), b"abc");
    }
    Ok(())
}

// A device of std whose first calls a signal interrupts; then it works, or fails.
#[derive(Drop)]
struct Interrupted {
    interrupts: u64,
    works: bool,
}

impl Interrupted {
    fn outcome(&mut self, count: usize) -> io::Result<usize>
        ensures { IfOk result (λ n. n ≡ count) }
    {
        if self.interrupts > 0 {
            self.interrupts -= 1;
            return Err(io::Error::from(io::ErrorKind::Interrupted));
        }
        if self.works {
            Ok(count)
        } else {
            Err(io::Error::from(io::ErrorKind::TimedOut))
        }
    }
}

impl io::Read for Interrupted {
    fn read(&mut self, buf: &mut [u8]) -> io::Result<usize> {
        self.outcome(buf.len().min(2))
    }
}

impl io::Write for Interrupted {
    fn write(&mut self, buf: &[u8]) -> io::Result<usize> {
        self.outcome(buf.len().min(2))
    }

    fn flush(&mut self) -> io::Result<()> {
        Ok(())
    }
}

#[test]
fn interrupts_are_no_failures(rt: HostRuntime) {
    for (works, wanted, failures) in [(true, Ok(2), 0), (false, Err(Broken), 1)] {
        let interrupts = 3;
        let mut source = FromReader::new(Interrupted { interrupts, works });
        assert!(rt; source.read(&mut [0; 4]) == wanted);
        assert!(rt; source.failures() == failures && source.reader().interrupts == 0);
        let mut outputs = ToWriter::new(Interrupted { interrupts, works });
        assert!(rt; outputs.write(0, b"abc") == wanted);
        assert!(rt; outputs.failures() == failures && outputs.writer().interrupts == 0);
    }
}

#[test]
fn readers_and_writers_of_std(rt: HostRuntime) -> Result<(), Fail> {
    let alloc = rt.alloc();
    let mut space = Space::new(alloc, 40)?;
    let mut lines = Lines::new(alloc, FromReader::new(b"ab\n\ncd".as_slice()), 2)?;
    let mut found = Vec::new(alloc);
    copy(&rt, &mut lines, &mut space, &mut found);
    let mut outputs = ToWriter::new(Vec::new(alloc));
    assert!(rt; outputs.sinks() == 1);
    assert!(rt; outputs.write(0, found.as_slice()) == Ok(7) && outputs.write(0, b"") == Ok(0));
    same(&rt, outputs.into_writer().as_slice(), b"ab\n\ncd\n");
    // A slice that is full takes none.
    let mut room = [0; 2];
    let mut short = ToWriter::new(room.as_mut_slice());
    assert!(rt; short.write(0, b"abc") == Ok(2) && short.write(0, b"c") == Err(Broken));
    assert!(rt; short.failures() == 1);
    Ok(())
}

#[test]
fn outputs_over_memory(rt: HostRuntime) -> Result<(), Fail> {
    let mut ample = MemoryOutputs::new(rt.alloc(), 2)?;
    assert!(rt; ample.sinks() == 2 && ample.write(1, b"abcd") == Ok(4));
    same(&rt, ample.bytes(1), b"abcd");
    assert!(rt; ample.bytes(0).is_empty());
    Ok(())
}

#[test]
fn outputs_that_take_short_and_fail(rt: HostRuntime) -> Result<(), Fail> {
    let mut outputs = MemoryOutputs::with_room(rt.alloc(), 1, 5)?;
    outputs.take_at_most(3);
    assert!(rt; outputs.sinks() == 1);
    outputs.fail_at(0, 2);
    let rows: [(&[u8], _); 4] = [
        (b"abcd", Ok(3)),
        (b"d", Err(Broken)),
        (b"def", Ok(2)),
        (b"f", Err(Broken)),
    ];
    for (bytes, wanted) in rows {
        assert!(rt; outputs.sinks() == 1);
        assert!(rt; outputs.write(0, bytes) == wanted);
    }
    assert!(rt; outputs.sinks() == 1);
    same(&rt, outputs.bytes(0), b"abcde");
    assert!(rt; outputs.writes(0) == 4 && outputs.failures(0) == 2);
    Ok(())
}

#[test]
fn texts_over_memory(rt: HostRuntime) -> Result<(), Fail> {
    let alloc = rt.alloc();
    let mut space = Space::new(alloc, 4)?;
    let list = vec![in alloc; b"hello".to_vec(alloc)?, b"lost".to_vec(alloc)?]?;
    let mut texts = MemoryTexts::new(list);
    texts.fail_at(1, 2);
    let rows: [(usize, u64, &[u8]); 6] = [
        (0, 0, b"hell"),
        (0, 4, b"o"),
        (0, 5, b""),
        (0, u64::MAX, b""),
        (1, 0, b"lo"),
        (2, 0, b""),
    ];
    for (number, offset, wanted) in rows {
        assert!(rt; space.limit() == 4);
        let count = space.fill(&mut texts, number, offset, 4);
        assert!(rt; count == wanted.len());
        same(&rt, space.bytes(), wanted);
    }
    assert!(rt; texts.read_at(0, 3, &mut [0; 9]) == 2);
    Ok(())
}
