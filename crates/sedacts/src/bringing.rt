//! Further lines: brought to the end of a space, or asked for.
ghost use Rattle.std.specs.Prelude.{◌<◌, [], ◌∷◌, ◌++◌};
ghost use Rattle.sedacts.specs.Bringing.{AsksLast, BringsLine};
ghost use Rattle.sedacts.specs.Move.{newline};

use crate::ends::Ended;
use sedspace::{ByteSource, Full, Got, LineFault, Lines, Space};

/// Whether the line given last was the last one of the input. Only an address `$`, `n`, and an `N` that has no room ask
/// this.
pub fn is_last<R: ByteSource>(lines: &mut Lines<R>) -> Result<bool, Ended>
    ensures { AsksLast R.remaining R.failures R.reference lines.old lines.new result }
{
    match lines.is_last() {
        Ok(last) => Ok(last),
        Err(_) => Err(Ended::InputBroken),
    }
}

/// Appends the next line, which has this number, to a space, and says whether there was one.
pub fn bring_line<R: ByteSource>(
    space: &mut Space,
    lines: &mut Lines<R>,
    number: u64,
) -> Result<Got, Ended>
    ensures { BringsLine R.remaining R.failures R.reference space.old.bytes number space.old space.new
        lines.old lines.new result }
{
    match lines.next_into(space) {
        Ok(got) => Ok(got),
        Err(LineFault::TooLong) => Err(Ended::PatternFull(number)),
        Err(LineFault::Broken) => Err(Ended::InputBroken),
    }
}

/// Appends a newline and the next line, which has this number, to a space, and says whether there was one.
pub fn join_line<R: ByteSource>(
    space: &mut Space,
    lines: &mut Lines<R>,
    number: u64,
) -> Result<Got, Ended>
    ensures { BringsLine R.remaining R.failures R.reference (space.old.bytes ++ newline ∷ []) number space.old space.new
        lines.old lines.new result }
{
    let len = space.len();
    if let Err(Full) = space.append(b"\n") {
        if is_last(lines)? {
            return Ok(Got::End);
        }
        return Err(Ended::PatternFull(number));
    }
    match bring_line(space, lines, number) {
        Ok(Got::Line) => Ok(Got::Line),
        Ok(Got::End) => {
            space.truncate(len);
            Ok(Got::End)
        }
        Err(end) => {
            space.truncate(len);
            Err(end)
        }
    }
}
