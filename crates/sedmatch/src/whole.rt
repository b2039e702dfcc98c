//! The search for an expression that is used once (XBD 9.1). It makes it ready for passes in the room of the scratch.
ghost use Rattle.std.specs.Prelude.{◌≡◌, ◌+◌, ◌-◌, ◌*◌, ◌≤◌, length, IfNone, IfSome};
ghost use Rattle.sedre.specs.Tree.{expression_tree};
ghost use Rattle.sedtext.specs.Answer.{IsComputed, MatchAnswer};
ghost use Rattle.sedtext.specs.SearchRoom.{FitInto};
ghost use Rattle.sedre.specs.Steps.{StepsWithin, Takes, TakesAtLeast};
ghost use Rattle.sedpass.specs.Walks.{EntersGroups};
ghost use Rattle.sedtext.specs.Groups.{group_depth};

use crate::passes::shared_groups;
use crate::scratch::Scratch;
use sedpass::kept::Subject;
use sedpass::nodes::Prepared;
use sedpass::search::next_kept;
use sedre::{Expr, Steps};
use sedtext::{Found, Text};

/// The leftmost-longest match that begins at `from` or later, with its groups. `None` exactly where there is no match.
///
/// It takes no memory, and its steps are bounded whatever the expression: where there is no match, and without groups, they are in
/// proportion to the text. Conditions: `from` is at most the text's length, and the scratch has room for the text and the
/// expression.
#[tactic(auto)]
pub fn find(
    expr: &Expr,
    text: &Text,
    from: usize,
    scratch: &mut Scratch,
    steps: &mut Steps,
) -> Option<Found>
    requires from { from ≤ length text.now }
    requires fits { FitInto (length text.now) (length expr.now.nodes) scratch.old }
    ensures scratch { scratch.new ≡ scratch.old }
    ensures answer { MatchAnswer (expression_tree expr.now) text.now from result }
    ensures computed { IsComputed (expression_tree expr.now) text.now from result }
    ensures cost { let m = length expr.now.nodes in let n = length text.now in
        Takes steps.old steps.new (64 * m * m * (n + 1) * (n + 1)) }
    ensures linear_cost { let m = length expr.now.nodes in let n = length text.now in
        StepsWithin steps.old steps.new (172 * m * (group_depth (expression_tree expr.now) + 1) * (n + 1)) }
    ensures cost_without_groups { let m = length expr.now.nodes in let n = length text.now in expr.now.groups ≡ 0 →
        StepsWithin steps.old steps.new (64 * m * (n + 1) * (n + 1)) × StepsWithin steps.old steps.new (143 * m * (n + 1)) }
    ensures cost_of_none { let m = length expr.now.nodes in let n = length text.now in
        IfNone result (StepsWithin steps.old steps.new (64 * m * (n + 1) * (n + 1)) × StepsWithin steps.old steps.new (143 * m * (n + 1))) }
    ensures counts { IfSome result (λ f. TakesAtLeast steps.old steps.new (f.end - f.start)) }
    ensures entered { IfSome result (λ f. EntersGroups (expression_tree expr.now) text.now f.start f.end steps.old steps.new) }
{
    scratch.analysis.fit(expr, steps);
    let prepared = &Prepared::of(expr, &scratch.analysis);
    let subject = Subject { prepared, text };
    let desk = &mut scratch.desk;
    let forward_one = &mut desk.shared.forward_one;
    let reverse_any = &mut desk.reverse_any;
    forward_one.fit(subject.prepared);
    reverse_any.fit(subject.prepared);
    let kept = &mut desk.room.kept;
    kept.begin(subject, reverse_any, prepared.root(), text.len());
    let span = next_kept(subject, forward_one, reverse_any, kept, from, steps)?;
    let groups = shared_groups(subject, span, desk, steps);
    let (start, end) = span;
    Some(Found { start, end, groups })
}
