//! How much room a script needs in the spaces besides the pattern space.
ghost use Rattle.std.specs.Prelude.{◌≡◌, ◌<◌, ◌≤◌, length};
ghost use Rattle.sedacts.specs.Keeping.{FillsHold, keeps_in_hold};

use crate::limits::Limits;
use sedscript::types::Simple;
use sedscript::{Action, Script};

/// Whether an action puts something into the hold space.
fn is_holding(action: &Action) -> bool
    ensures { result ≡ keeps_in_hold action.now }
{
    matches!(
        action,
        Action::Plain(Simple::Hold | Simple::HoldMore | Simple::Exchange)
    )
}

/// How many bytes the hold space has room for: none where no command puts any into it.
pub(crate) fn hold_room(script: &Script, limits: &Limits) -> usize
    ensures { FillsHold script.now → result ≡ limits.now.space }
{
    for k in 0..script.len() {
        if is_holding(&script.command(k).action) {
            return limits.space();
        }
    }
    0
}

/// How many bytes the build space has room for: none where there is no substitution, and no file to copy.
pub(crate) fn build_room(script: &Script, limits: &Limits) -> usize
    ensures within { result ≤ limits.now.space }
    ensures substitutions { 0 < length script.now.substitutions → result ≡ limits.now.space }
    ensures files { 0 < length script.now.rfiles → result ≡ limits.now.space }
{
    if script.substitutions() == 0 && script.rfiles().is_empty() {
        0
    } else {
        limits.space()
    }
}
