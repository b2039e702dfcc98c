//! Hints: what an expression shows of where its matches begin, so that most of a text is passed over. No match begins before the
//! place that a hint gives, and none at all where it gives none.
ghost use Rattle.std.specs.Prelude.{◌≡◌, ℕ, List, ◌-◌, ◌*◌, ◌≤◌, length, IfOk, IfSome, IsTrue, None, Some};
ghost use Rattle.sedre.specs.Tree.{expression_tree, Tree};
ghost use Rattle.sedre.specs.declared.types.Node.{Node};
ghost use Rattle.memchr.specs.Find.{OccursAt};
ghost use Rattle.sedtext.specs.Bytes.{FirstFrom, passed_to};
ghost use Rattle.sedtext.specs.Hints.{AllBegin, AreHints, CanBegin, IsRequired, Narrowed};
ghost use Rattle.sedtext.specs.Branches.{AreBranches};
ghost use Rattle.sedre.specs.Steps.{CostsWithin, Takes, TakesAtLeast};
ghost use Rattle.sedtext.specs.Links.{IsChain};
ghost use Rattle.sedtext.specs.Sieve.{AllPass, AllFixed};

use crate::branches::{MAX_OFFSET, branches_of, set_at};
use crate::counted::Text;
use crate::counted::lookups::{find_literal, sift};
use crate::counted::nibbles::Nibbles;
use crate::counted::set_finder::SetFinder;
use crate::counted::sieve::{Fixed, Sieve};
use crate::links::{Link, literal_at};
use memchr::memmem::Finder;
use sedre::{ByteSet, Expr, Steps};
use std::alloc::{AllocError, Global};

/// How often bytes occur in a thousand that aren't worth seeking.
const FREQUENT: usize = 500;

/// How often each letter occurs in a thousand bytes of ordinary text, that is prose, logs and programs.
const LETTERS: [u8; 26] = [
    65, 12, 30, 33, 95, 18, 16, 30, 60, 2, 7, 35, 22, 60, 60, 22, 1, 55, 55, 70, 25, 8, 12, 3, 12,
    1,
];

/// How every span of an expression begins.
#[derive(Drop)]
pub enum Begins {
    /// Nothing is known of it.
    Anyhow,
    /// At the beginning of the text.
    AtStart,
    /// With a byte of this set.
    With(SetFinder),
    /// So that bytes of three sets are at their distances after it.
    Before(Sieve),
}

/// A literal that every match contains.
#[derive(Drop)]
pub struct RequiredLiteral {
    /// A search for it.
    pub finder: Finder<'static>,
    /// Whether every match begins with it.
    pub is_prefix: bool,
}

/// Hints: what is known of all matches of an expression.
#[derive(Drop)]
pub struct Hints {
    /// How they begin.
    pub begins: Begins,
    /// A literal that they contain, where one is known.
    pub required: Option<RequiredLiteral>,
}

/// How often bytes of the set occur in a thousand bytes of ordinary text.
fn set_weight(set: &ByteSet) -> usize {
    let mut total = 0usize;
    for x in 0..256usize {
        let byte = x as u8;
        if set.has(byte) {
            total = total.saturating_add(match byte {
                b' ' => 150,
                b'a'..=b'z' => LETTERS[(byte - b'a') as usize] as usize,
                b'0'..=b'9' => 12,
                b'A'..=b'Z' => 4,
                b'!'..=b'~' => 6,
                _ => 1,
            });
        }
    }
    total
}

/// A sieve of these.
fn sieve_of(first: Fixed, second: Fixed, third: Fixed) -> Sieve
    ensures { result ≡ record { first = first; second = second; third = third } }
{
    Sieve {
        first,
        second,
        third,
    }
}

/// The three rarest of these and one more. Where there are fewer, the first is taken again.
fn with_fixed(sieve: Option<Sieve>, more: Fixed) -> Sieve
    ensures { (e : Tree) → AllPass e sieve → AllFixed e more → AllPass e (Some result) }
{
    let again = Fixed {
        weight: usize::MAX,
        ..more
    };
    match sieve {
        None => sieve_of(more, again, again),
        Some(s) if more.weight < s.first.weight => sieve_of(more, s.first, s.second),
        Some(s) if more.weight < s.second.weight => sieve_of(s.first, more, s.second),
        Some(s) if more.weight < s.third.weight => sieve_of(s.first, s.second, more),
        Some(s) => s,
    }
}

/// The three rarest sets of which a byte is at a fixed distance after the beginning of every match, if there is such a set.
fn rarest_of(branches: &[Vec<Link>]) -> Option<Sieve>
    ensures pass { (nodes : List Node) (e : Tree) → AreBranches nodes e branches.now → AllPass e result }
{
    let mut sieve = None;
    for offset in 0..MAX_OFFSET {
        let Some(set) = set_at(branches, offset) else {
            return sieve;
        };
        let fixed = Fixed {
            offset,
            set: Nibbles::of(&set),
            weight: set_weight(&set),
        };
        sieve = Some(with_fixed(sieve, fixed));
    }
    sieve
}

/// How every span of the expression begins, whose chain this is.
fn how_begins(
    alloc: Global,
    expr: &Expr,
    chain: &[Link],
    steps: &mut Steps,
) -> Result<Begins, AllocError>
    requires chain { IsChain expr.now.nodes (expression_tree expr.now) chain.now }
    ensures begins { IfOk result (AllBegin (expression_tree expr.now)) }
{
    if let Some(Link::Start) = chain.first() {
        return Ok(Begins::AtStart);
    }
    let branches = branches_of(alloc, expr, chain, steps)?;
    if let Some(sieve) = rarest_of(&branches) {
        if sieve.first.weight <= FREQUENT && sieve.second.weight < usize::MAX {
            return Ok(Begins::Before(sieve));
        }
    }
    match set_at(&branches, 0) {
        Some(set) => Ok(Begins::With(SetFinder::of(&set))),
        None => Ok(Begins::Anyhow),
    }
}

/// A literal that every match of the expression contains whose chain this is, if one is found: one of two bytes or more with
/// which all begin, or else the longest that is found.
fn find_required(alloc: Global, chain: &[Link]) -> Result<Option<RequiredLiteral>, AllocError>
    ensures required { (nodes : List Node) (e : Tree) → IsChain nodes e chain.now → IfOk result (λ n. IsRequired e n) }
{
    let mut literal = literal_at(alloc, chain, 0)?;
    let is_prefix = literal.len() >= 2;
    let mut from = literal.len().max(1);
    while from < chain.len() && !is_prefix {
        let bytes = literal_at(alloc, chain, from)?;
        from += bytes.len().max(1);
        if literal.len() < bytes.len() {
            literal = bytes;
        }
    }
    if literal.is_empty() {
        return Ok(None);
    }
    let finder = Finder::new(&literal).into_owned(alloc)?;
    Ok(Some(RequiredLiteral { finder, is_prefix }))
}

impl Hints {
    /// Nothing is known.
    pub fn none() -> Hints
        ensures { (e : Tree) → AreHints e result }
    {
        Hints {
            begins: Begins::Anyhow,
            required: None,
        }
    }

    /// What the expression's chain shows. It fails only where a request for memory was refused.
    pub fn of(
        alloc: Global,
        expr: &Expr,
        chain: &[Link],
        steps: &mut Steps,
    ) -> Result<Hints, AllocError>
        requires chain { IsChain expr.now.nodes (expression_tree expr.now) chain.now }
        ensures { IfOk result (AreHints (expression_tree expr.now)) }
    {
        let begins = how_begins(alloc, expr, chain, steps)?;
        let required = find_required(alloc, chain)?;
        Ok(Hints { begins, required })
    }

    /// A place from `from` on before which no match begins, if one may begin there or later, as far as the literal shows. What lies
    /// before the literal is looked at as often as it is asked, so this is asked once in a text.
    pub fn skip_to_literal(&self, text: &Text, from: usize, steps: &mut Steps) -> Option<usize>
        requires from { from ≤ length text.now }
        ensures narrowed { (e : Tree) → AreHints e self.now → Narrowed e text.now from result }
        ensures lies { IfSome result (λ q. (from ≤ q) × (q ≤ length text.now)) }
        ensures none { IfSome self.now.required (λ r. ((k : ℕ) → from ≤ k → OccursAt text.now r.finder k → ⊥) → result ≡ None) }
        ensures first { IfSome self.now.required (λ r. IsTrue r.is_prefix → FirstFrom (OccursAt text.now r.finder) from result) }
        ensures cost { CostsWithin steps.old steps.new (length text.now) from }
        ensures counts { IfSome result (λ q. TakesAtLeast steps.old steps.new (q - from)) }
    {
        match &self.required {
            None => Some(from),
            Some(required) => {
                let place = find_literal(text, &required.finder, from, steps)?;
                Some(if required.is_prefix { place } else { from })
            }
        }
    }

    /// A place from `from` on before which no match begins, if one may begin there or later, as far as it shows how they begin.
    pub fn next_start(&self, text: &Text, from: usize, steps: &mut Steps) -> Option<usize>
        requires from { from ≤ length text.now }
        ensures narrowed { (e : Tree) → AreHints e self.now → Narrowed e text.now from result }
        ensures lies { IfSome result (λ q. (from ≤ q) × (q ≤ length text.now)) }
        ensures first { FirstFrom (CanBegin self.now.begins text.now) from result }
        ensures cost { Takes steps.old steps.new (3 * passed_to (length text.now) from 1 result) }
        ensures counts { IfSome result (λ q. TakesAtLeast steps.old steps.new (q - from)) }
    {
        match &self.begins {
            Begins::Anyhow => Some(from),
            Begins::AtStart => if from == 0 { Some(0) } else { None },
            Begins::With(finder) => finder.find(text, from, steps),
            Begins::Before(sieve) => sift(text, sieve, from, steps),
        }
    }
}
