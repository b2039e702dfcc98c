//! Writing lines to a sink.
ghost use Rattle.std.specs.Prelude.{◌<◌, [], if◌then◌else◌};
ghost use Rattle.sedacts.specs.Move.{line_to};
ghost use Rattle.sedacts.specs.Calls.{WritesAll};

use crate::ends::Ended;
use crate::meter::MeteredSinks;
use sedscript::Script;
use sedspace::Space;

/// The most bytes that are copied, so that they are written with their newline at once.
const SHORT: usize = 127;

/// Writes all the bytes and a newline.
pub fn write_line<O: MeteredSinks>(outputs: &mut O, sink: usize, bytes: &[u8]) -> Result<(), Ended>
    requires { sink < O.count outputs.old }
    ensures { WritesAll O.tally O.count outputs.old outputs.new (line_to sink bytes.now) result }
{
    if bytes.len() > SHORT {
        outputs.write_all(sink, bytes)?;
        return outputs.write_all(sink, b"\n");
    }
    let mut line = [b'\n'; 128];
    line[..bytes.len()].copy_from_slice(bytes);
    outputs.write_all(sink, &line[..bytes.len() + 1])
}

/// Writes the pattern space, unless default output is suppressed.
pub fn print_by_default<O: MeteredSinks>(
    script: &Script,
    pattern: &Space,
    outputs: &mut O,
) -> Result<(), Ended>
    requires { 0 < O.count outputs.old }
    ensures { WritesAll O.tally O.count outputs.old outputs.new
        (if script.now.quiet then [] else line_to 0 pattern.now.bytes) result }
{
    if script.quiet() {
        return Ok(());
    }
    outputs.write_all(0, pattern.line())
}
