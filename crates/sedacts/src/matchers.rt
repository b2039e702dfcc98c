//! What seeks the expressions of a script.
ghost use Rattle.std.specs.Prelude.{◌≡◌, ◌<◌, ◌≤◌, ℕ, IfOk, Some, length, slice_get};
ghost use Rattle.sedre.specs.Tree.{WrittenExpression};
ghost use Rattle.sedacts.specs.Fitting.{AllFit, RoomToSeek, Seek};

use crate::limits::Limits;
use sedmatch::{Occurrences, Scratch, TableMatcher, TableRoom};
use sedre::Steps;
use sedscript::Script;
use std::alloc::{AllocError, Global};

/// A matcher for each expression of the script, in its order. What one finds out at a line serves at all later lines. Each gets an
/// equal share of the room for tables that is left.
// In place it would take as much of the stack again as all other parts that are made there.
#[inline(never)]
pub(crate) fn matchers_of(
    alloc: Global,
    script: &Script,
    most_nodes: usize,
) -> Result<Vec<TableMatcher>, AllocError>
    requires within { script.now.max_nodes ≤ most_nodes }
    requires few { most_nodes ≤ 65536 }
    ensures { IfOk result (λ ms. Seek script.now.expressions most_nodes ms.items) }
{
    let count = script.expressions();
    let mut room = TableRoom::ample();
    // What is found out once is counted, and the count let go of.
    let mut steps = Steps::new();
    let mut matchers = Vec::with_capacity(alloc, count)?;
    for k in 0..count {
        let share = room.share(count - k);
        // The matchers are let go of by a call: in place they are proved field by field.
        let Ok(matcher) = TableMatcher::new(alloc, script.expr(k), share, &mut steps) else {
            TableMatcher::close_all(matchers);
            return Err(AllocError);
        };
        room.bytes = room.bytes.saturating_sub(matcher.size_of_tables());
        matchers.push_reserved(matcher);
    }
    Ok(matchers)
}

/// The most nodes of the expressions that the matchers seek, at least one.
fn most_nodes(matchers: &[TableMatcher], limit: usize) -> usize
    requires fit { AllFit limit matchers.now }
    requires few { limit ≤ 65536 }
    ensures some { 1 ≤ result }
    ensures few { result ≤ 65536 }
    ensures most { (i : ℕ) (e : WrittenExpression) → slice_get matchers.now i ≡ Some e → length e.nodes ≤ result }
{
    let mut most = 1;
    for matcher in matchers {
        let nodes = matcher.nodes();
        if most < nodes {
            most = nodes;
        }
    }
    most
}

/// Room for searches of these matchers: little where the script has no regular expression, since none is sought then.
// In place it would take as much of the stack again.
#[inline(never)]
pub(crate) fn room_to_search(
    alloc: Global,
    script: &Script,
    matchers: &Vec<TableMatcher>,
    limits: &Limits,
) -> Result<Scratch, AllocError>
    requires seek { Seek script.now.expressions limits.now.nodes matchers.now.items }
    ensures text { IfOk result (λ s. 0 < length script.now.expressions → s.text ≡ limits.now.space) }
    ensures nodes { IfOk result (λ s. AllFit s.nodes matchers.now.items) }
{
    let most = most_nodes(matchers, limits.nodes());
    let space = limits.space();
    let longest = if script.expressions() == 0 { 0 } else { space };
    Scratch::new(alloc, longest, most)
}

/// Room to seek occurrences in a text as long as a space may be: little where the script has no substitution.
pub(crate) fn room_to_seek(
    alloc: Global,
    script: &Script,
    matchers: &Vec<TableMatcher>,
    limits: &Limits,
) -> Result<Occurrences, AllocError>
    requires seek { Seek script.now.expressions limits.now.nodes matchers.now.items }
    ensures { IfOk result (RoomToSeek script.now.substitutions script.now.expressions limits.now.space) }
{
    let most = most_nodes(matchers, limits.nodes());
    if script.substitutions() == 0 {
        return Occurrences::new(alloc, 0, most, &[]);
    }
    Occurrences::new(alloc, limits.space(), most, matchers)
}
