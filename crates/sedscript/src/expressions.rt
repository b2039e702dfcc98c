//! Regular expressions in a script.

ghost use Rattle.std.specs.Prelude.{◌≡◌, ◌≢◌, ◌≤◌, ◌<◌, ◌+◌, ◌++◌, ◌∷◌, [], ◌⊎◌, ℕ, Ok, Some, length, IfOk, IfErr, OnOk};
ghost use Rattle.sedre.specs.declared.types.ExprReason.{ExprReason};
ghost use Rattle.sedre.specs.declared.types.TheConstants.{NO_MEMORY as NO_EXPR_MEMORY};
ghost use Rattle.sedre.specs.Tree.{expression_tree};
ghost use Rattle.sedre.specs.Grammar.{ReadsAs, ExprFaulty};
ghost use Rattle.sedscript.specs.Bytes.{bytes_between};
ghost use Rattle.sedscript.specs.Items.{plainly, expression};
ghost use Rattle.sedscript.specs.Answers.{as_groups, ComesFrom, fault_of};

use crate::items::Source;
use crate::types::{ExprFault, NO_MEMORY, Reason, ScriptFault};
use sedre::{Expr, read_folded};
use std::alloc::Global;

/// The fault of the script, where the regular expression that begins at `from` has this fault.
fn fault_of(from: usize, fault: ExprFault) -> ScriptFault
    requires { from + fault.place ≤ usize.MAX }
    ensures { result ≡ fault_of from fault }
{
    match fault.reason {
        sedre::ExprReason::NoMemory => NO_MEMORY,
        _ => Reason::Expression(fault).at(from + fault.place),
    }
}

/// Reads the regular expression between two places; where it is `folded`, its letters match without regard to case.
fn expression_between(
    source: &Source,
    delimiter: u8,
    folded: bool,
    from: usize,
    to: usize,
) -> Result<Expr, ExprFault>
    requires delimiter { (delimiter ≢ 92) × (delimiter ≢ 10) }
    requires place { (from ≤ to) × (to ≤ length source.now.text.now) }
    ensures reads { IfOk result (λ e.
        ReadsAs source.now.kind folded (Some delimiter) (bytes_between source.now.text.now from to) (expression_tree e) e.groups) }
    ensures fits { IfOk result (λ e. length e.nodes ≤ source.now.max_nodes) }
    ensures no_fault { OnOk result ((place : ℕ) (reason : ExprReason) →
        ExprFaulty source.now.kind (Some delimiter) (bytes_between source.now.text.now from to) source.now.max_nodes
        place reason → ⊥) }
    ensures fault { IfErr result (λ f.
        ExprFaulty source.now.kind (Some delimiter) (bytes_between source.now.text.now from to) source.now.max_nodes
        f.place f.reason ⊎ (f ≡ NO_EXPR_MEMORY)) }
    ensures within { IfErr result (λ f. from + f.place ≤ to) }
{
    let text = &source.text[from..to];
    if folded {
        read_folded(
            source.alloc,
            source.kind,
            text,
            Some(delimiter),
            source.max_nodes,
        )
    } else {
        sedre::read(
            source.alloc,
            source.kind,
            text,
            Some(delimiter),
            source.max_nodes,
        )
    }
}

/// Adds a copy of an expression, which takes only the room that it needs; the one that was read may have taken more. Answers how
/// many groups it has.
fn add_copy(alloc: Global, exprs: &mut Vec<Expr>, expr: &Expr) -> Result<usize, ScriptFault>
    ensures added { IfOk result (λ groups. (groups ≡ expr.now.groups) × (exprs.new.items ≡ exprs.old.items ++ expr.now ∷ [])) }
    ensures memory { IfErr result (λ f. f ≡ NO_MEMORY) }
{
    let Ok(copy) = expr.copy(alloc) else {
        return Err(NO_MEMORY);
    };
    match exprs.push(copy) {
        Ok(()) => Ok(expr.groups()),
        Err(_) => Err(NO_MEMORY),
    }
}

/// Reads the regular expression between two places, adds it and answers how many groups it has. Where it is `folded`,
/// its letters match without regard to case.
pub fn expression_at(
    source: &Source,
    exprs: &mut Vec<Expr>,
    delimiter: u8,
    folded: bool,
    from: usize,
    to: usize,
) -> Result<usize, ScriptFault>
    requires delimiter { (delimiter ≢ 92) × (delimiter ≢ 10) }
    requires place { (from ≤ to) × (to ≤ length source.now.text.now) }
    ensures comes { ComesFrom source.now exprs.old.items exprs.new.items as_groups result
        (expression (record { from = from; to = to; delimiter = delimiter; folded = folded })
        (λ groups. plainly (Ok groups))) }
    ensures one { IfOk result (λ groups. length exprs.new.items ≡ length exprs.old.items + 1) }
{
    match expression_between(source, delimiter, folded, from, to) {
        Err(fault) => Err(fault_of(from, fault)),
        Ok(expr) => add_copy(source.alloc, exprs, &expr),
    }
}
