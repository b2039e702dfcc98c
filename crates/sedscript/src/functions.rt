//! What follows the letters of functions: texts and names, and the end of a command.

ghost use Rattle.std.specs.Prelude.{◌≡◌, ◌≤◌, ◌<◌, length, IfOk, IfSome};
ghost use Rattle.sedscript.specs.Bytes.{past, fault_if};
ghost use Rattle.sedscript.specs.Arguments.{may_end, to_command_end, name_from, spanned};

use crate::bytes::{Sort, byte_at, past};
use crate::items::Argument;
use crate::types::{Reason, ScriptFault};

/// Whether a command may end before this byte; None is the end of the text.
pub fn may_end(next: Option<u8>) -> bool
    ensures { result ≡ may_end next }
{
    match next {
        None => true,
        Some(b) => b == b'\n' || b == b';' || b == b'}' || b == b'#',
    }
}

/// The fault at a place, if something is wrong.
pub fn fault_if(wrong: bool, reason: Reason, place: usize) -> Option<ScriptFault>
    ensures { result ≡ fault_if wrong reason place }
{
    wrong.then_some(reason.at(place))
}

/// What follows a letter and the end of its command, if only blanks come between `at` and that end.
pub fn to_command_end(
    text: &[u8],
    argument: Argument,
    at: usize,
) -> Result<(Argument, usize), ScriptFault>
    requires { at ≤ length text.now }
    ensures is { result ≡ to_command_end text.now argument at }
    ensures within { IfOk result (λ found. (at ≤ found.1) × (found.1 ≤ length text.now)) }
{
    let end = past(Sort::Blank, text, at);
    if may_end(byte_at(text, end)) {
        Ok((argument, end))
    } else {
        Err(Reason::TrailingBytes.at(end))
    }
}

/// Where the file's name that is expected at `at`, after its letter, begins and ends; None where it is missing.
#[tactic(auto, unfolding(crate::specs::Arguments::name_from))]
pub fn name_from(text: &[u8], at: usize) -> Option<(usize, usize)>
    requires { at ≤ length text.now }
    ensures is { result ≡ name_from text.now at }
    ensures bounds { IfSome result (λ name. (at ≤ name.0) × (name.0 ≤ name.1) × (name.1 ≤ length text.now)) }
{
    let from = past(Sort::Blank, text, at);
    let to = past(Sort::Line, text, from);
    if to == from { None } else { Some((from, to)) }
}

/// The text or the name that was found after the letter at `place`, and the place after it; this fault where there is none.
pub fn spanned(
    reason: Reason,
    place: usize,
    found: Option<(usize, usize)>,
) -> Result<(Argument, usize), ScriptFault>
    ensures { result ≡ spanned reason place found }
{
    match found {
        None => Err(reason.at(place)),
        Some((from, to)) => Ok((Argument::Between(from, to), to)),
    }
}
