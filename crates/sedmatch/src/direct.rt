//! Direct forms: expressions whose matches a look at the text finds. A byte of a set, a run of such bytes, both, and anchors
//! ([`crate::stretches`]), always as many bytes of a set, a literal.
//!
//! Where such a match begins is decided by its bytes, and where the longest ends by those that follow, so that nothing
//! has to be found out of the expression in a search. What a search costs falls with the place from which it starts: all
//! matches of a text together cost no more than one pass over it.
ghost use Rattle.std.specs.Prelude.{◌+◌, ◌-◌, ◌*◌, ◌≤◌, length, IfOk, IfSome};
ghost use Rattle.sedre.specs.Tree.{WrittenExpression, expression_tree};
ghost use Rattle.sedre.specs.Steps.{TakesAtLeast, CostsWithin};
ghost use Rattle.sedtext.specs.Answer.{SpanAnswer};
ghost use Rattle.sedtext.specs.Following.{CanEndEarly};
ghost use Rattle.sedtext.specs.Links.{IsChain};
ghost use Rattle.sedmatch.specs.Direct.{FormSpans, IsDirect, bytes_looked_at};
ghost use Rattle.sedmatch.specs.Passes.{AnswersMatch};
ghost use Rattle.sedmatch.specs.Stretches.{FirstOf, end_or};

use crate::Span;
use crate::stretches::{Stretch, stretch_at_ends, stretch_of, stretch_span};
use memchr::memmem::Finder;
use sedre::{ByteSet, Expr, Steps};
use sedtext::counted::Text;
use sedtext::counted::lookups::find_literal;
use sedtext::fixed_runs::{find_fixed_run, fixed_run_of};
use sedtext::links::{Link, alternatives_at, literal_at};
use std::alloc::{AllocError, Global};

/// The form of the matches of an expression.
#[derive(Drop)]
pub enum DirectForm {
    /// A byte, bytes of a set that follow, or both, anywhere or at the ends of the text.
    Stretch(Stretch),
    /// As many bytes of the set as the number says.
    FixedRun(ByteSet, usize),
    /// A literal of two bytes or more, as it is sought.
    Literal(Finder<'static>),
}

/// The direct form of the expression whose chain this is, if it has one. It fails only where a request for memory was refused.
pub fn direct_form_of(
    alloc: Global,
    expr: &Expr,
    chain: &[Link],
    steps: &mut Steps,
) -> Result<Option<DirectForm>, AllocError>
    requires chain { IsChain expr.now.nodes (expression_tree expr.now) chain.now }
    ensures form { IfOk result (λ r. IfSome r (IsDirect expr.now)) }
{
    if expr.groups() > 0 {
        return Ok(None);
    }
    // A single byte is sought faster as a stretch than as a literal.
    if let Some(stretch) = stretch_of(chain) {
        return Ok(Some(DirectForm::Stretch(stretch)));
    }
    let bytes = literal_at(alloc, chain, 0)?;
    if bytes.len() == chain.len() {
        let finder = Finder::new(&bytes).into_owned(alloc)?;
        return Ok(Some(DirectForm::Literal(finder)));
    }
    if let Some((set, count)) = fixed_run_of(chain) {
        return Ok(Some(DirectForm::FixedRun(set, count)));
    }
    if chain.len() != 1 {
        return Ok(None);
    }
    let Some((left, right)) = alternatives_at(alloc, expr, chain, 0, steps)? else {
        return Ok(None);
    };
    match stretch_at_ends(&left, &right) {
        Some(stretch) => Ok(Some(DirectForm::Stretch(stretch))),
        None => Ok(None),
    }
}

/// The longest of the matches of this form that begin first from `from` on.
// On short texts a call of its own costs as much as the search.
#[inline(always)]
fn form_span(form: &DirectForm, text: &Text, from: usize, steps: &mut Steps) -> Option<Span>
    requires from { from ≤ length text.now }
    ensures span { FirstOf (FormSpans form.now text.now) (length text.now) from result }
    ensures cost { CostsWithin steps.old steps.new (4 * (end_or (length text.now) result + 1)) (4 * from) }
    ensures counts { IfSome result (λ f. TakesAtLeast steps.old steps.new (bytes_looked_at form.now from f)) }
{
    match form {
        DirectForm::Stretch(stretch) => stretch_span(stretch, text, from, steps),
        DirectForm::FixedRun(set, count) => match find_fixed_run(set, *count, text, from, steps) {
            None => None,
            Some(start) => Some((start, text.after(start, *count))),
        },
        DirectForm::Literal(finder) => match find_literal(text, finder, from, steps) {
            None => None,
            Some(start) => Some((start, text.after(start, finder.needle().len()))),
        },
    }
}

/// Where the leftmost-longest match that begins at `from` or later begins and ends.
#[inline(always)]
pub fn direct_span(form: &DirectForm, text: &Text, from: usize, steps: &mut Steps) -> Option<Span>
    requires from { from ≤ length text.now }
    ensures answer { (e : WrittenExpression) → IsDirect e form.now → SpanAnswer (expression_tree e) text.now from result }
    ensures lies { IfSome result (λ f. (from ≤ f.0) × (f.0 ≤ f.1) × (f.1 ≤ length text.now)) }
    ensures cost { CostsWithin steps.old steps.new (4 * (end_or (length text.now) result + 1)) (4 * from) }
    ensures counts { IfSome result (λ f. TakesAtLeast steps.old steps.new (f.1 - f.0)) }
    ensures passes { (e : WrittenExpression) → IsDirect e form.now → CanEndEarly (expression_tree e) → IfSome result (λ f. TakesAtLeast steps.old steps.new (f.1 - from)) }
{
    form_span(form, text, from, steps)
}

/// Whether any match begins at `from` or later.
pub fn direct_matches(form: &DirectForm, text: &Text, from: usize, steps: &mut Steps) -> bool
    requires from { from ≤ length text.now }
    ensures { (e : WrittenExpression) → IsDirect e form.now → AnswersMatch e text.now from steps.old steps.new result }
{
    direct_span(form, text, from, steps).is_some()
}
