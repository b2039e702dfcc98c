//! What a caller asks for.
ghost use Rattle.std.specs.Prelude.{◌≡◌, IfNone, IfSome};
ghost use Rattle.csed.specs.Calls.{MayAsk, MayNotAsk, asked_by};

use sededit::kind_with;
use sedengine::Limits;
use sedscript::Kind;

/// The script has extended expressions, as the option -E says (XCU sed, "Options").
pub const SED_EXTENDED: u32 = 1;

/// Default output is suppressed, as the option -n says.
pub const SED_QUIET: u32 = 2;

/// How much a run may hold and do.
#[repr(C)]
#[derive(Clone, Copy)]
pub struct SedLimits {
    /// The bytes that each of the pattern space, the hold space and the build space may hold, 1 to 2^30.
    pub space: usize,
    /// The entries that wait for the end of a cycle, 0 to 2^24.
    pub queue: usize,
    /// The bytes that are read ahead, 1 to 2^30.
    pub look: usize,
    /// The nodes of an expression written out, 1 to 65,536.
    pub nodes: usize,
    /// The turns of a run: starts of cycles and commands reached, 0 to 2^64 - 1.
    pub turns: u64,
}

/// What a caller asks for.
#[derive(Clone, Copy)]
pub(crate) struct Request {
    /// The kind of the script's expressions.
    pub kind: Kind,
    /// Whether default output is suppressed.
    pub quiet: bool,
    /// The limits, with none on the output.
    pub limits: Limits,
}

/// What flags and limits ask for; None where a flag isn't known, or a limit is out of its range.
pub(crate) fn asked_by(flags: u32, limits: &SedLimits) -> Option<Request>
    ensures asked { IfSome result (λ a. (a ≡ asked_by flags limits.now) × MayAsk flags limits.now) }
    ensures refused { IfNone result (MayNotAsk flags limits.now) }
{
    if flags > SED_EXTENDED | SED_QUIET {
        return None;
    }
    let within = Limits::new(
        limits.space,
        limits.queue,
        limits.look,
        limits.turns,
        limits.nodes,
    )?;
    Some(Request {
        kind: kind_with(flags & SED_EXTENDED != 0),
        quiet: flags & SED_QUIET != 0,
        limits: within,
    })
}
