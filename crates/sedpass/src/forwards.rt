//! Passes for the whole expression, which stop as soon as no later place matters.
ghost use Rattle.std.specs.Prelude.{◌≡◌, ℕ, false, ◌+◌, ◌-◌, ◌*◌, ◌<◌, ◌≤◌, ◌↔◌, length, min, IfSome, IsTrue, is_some};
ghost use Rattle.sedre.specs.Steps.{CostsWithin, TakesAtLeast};
ghost use Rattle.sedtext.specs.Following.{LooksPast};
ghost use Rattle.sedtext.specs.Reach.{IsLongestFrom};
ghost use Rattle.sedtext.specs.Spans.{SomeFound};
ghost use Rattle.sedre.specs.Tree.{expression_tree};
ghost use Rattle.sedpass.specs.Table.{NamesState, IsOffset, IsTable, SameShape};
ghost use Rattle.sedpass.specs.Forwards.{Arrives, EndsBelow, PassIs, is_over};

use crate::cells::{StateFlags, flags_of, is_plain, offset_of, plain_code, plain_offset};
use crate::nodes::{Prepared, kind_of};
use crate::table::Table;
use sedre::Steps;
use sedtext::counted::Text;

/// Where a pass is.
#[derive(Clone, Copy)]
pub struct Passed {
    /// Where its state's cells begin.
    pub offset: usize,
    /// The place.
    pub place: usize,
    /// The last place at which its root ended.
    pub end: Option<usize>,
    /// Whether it needn't go on.
    pub over: bool,
}

/// Whether a pass needn't go on at a state: with all starts where its root ends, and else where no leaf is entered.
fn is_over(all_starts: bool, flags: StateFlags) -> bool
    ensures { result ≡ is_over all_starts flags }
{
    if all_starts { flags.ends } else { flags.dead }
}

impl Table {
    /// The pass at a place whose state has this code. `end` is the last end before it.
    fn arrive(
        &self,
        prepared: &Prepared,
        text: &Text,
        code: u32,
        place: usize,
        end: Option<usize>,
    ) -> Passed
        requires table { IsTable prepared.now self.now }
        requires code { NamesState (length prepared.now.nodes) self.now (λ a. Unit {0}) code }
        ensures place { result.place ≡ place }
        ensures offset { IsOffset self.now result.offset }
        ensures passes { (start : ℕ) → start ≤ place → place ≤ length text.now →
            NamesState (length prepared.now.nodes) self.now (Arrives prepared.now self.now.way text.now start place) code →
            EndsBelow prepared.now self.now.way text.now start place end →
            PassIs prepared.now self.now text.now start result }
    {
        let flags = flags_of(code);
        Passed {
            offset: offset_of(code),
            place,
            end: flags.ends.then_some(place).or(end),
            over: is_over(self.way.all_starts, flags),
        }
    }

    /// Follows filled cells up to a place: as far as they are filled, or to where the pass needn't go on.
    fn follow(
        &self,
        prepared: &Prepared,
        text: &Text,
        from: Passed,
        to: usize,
        steps: &mut Steps,
    ) -> Passed
        requires table { IsTable prepared.now self.now }
        requires offset { IsOffset self.now from.offset }
        requires over { from.over ≡ false }
        requires order { from.place ≤ to }
        requires to { to < length text.now }
        ensures offset { IsOffset self.now result.offset }
        ensures after { from.place ≤ result.place }
        ensures within { result.place ≤ to }
        ensures moved { IsTrue result.over → from.place < result.place }
        ensures passes { (start : ℕ) → PassIs prepared.now self.now text.now start from → PassIs prepared.now self.now text.now start result }
        ensures cost { CostsWithin steps.old steps.new (2 * min (result.place + 1) to) (2 * from.place) }
        ensures counts { TakesAtLeast steps.old steps.new (2 * (result.place - from.place)) }
    {
        let mut at = from;
        // A count that is this loop's alone stays in a register.
        let mut looks = Steps::new();
        // The offset as the code of a plain state: from a cell to the next is one addition.
        let mut code = plain_code(at.offset);
        while at.place < to {
            let byte = text.byte(at.place, &mut looks);
            let cell = self.known(prepared, plain_offset(code), byte, false);
            if is_plain(cell) {
                // Most states show nothing.
                code = cell;
                at.offset = plain_offset(code);
                at.place += 1;
            } else {
                if cell == 0 {
                    break;
                }
                at = self.arrive(prepared, text, cell, at.place + 1, at.end);
                code = plain_code(at.offset);
                if at.over {
                    break;
                }
            }
        }
        // A look at a byte, and one at its cell.
        let looks = looks.count() as usize;
        steps.add(looks);
        steps.add(looks);
        at
    }

    /// Passes from a place until no match that began there can end later; with all starts, over all places from there on, until
    /// some match ends. `end` of the result is the longest match, or says whether there is one, wherever the pass stopped.
    pub fn run(&mut self, prepared: &Prepared, text: &Text, at: usize, steps: &mut Steps) -> Passed
        requires table { IsTable prepared.now self.old }
        requires forwards { self.old.way.mirrored ≡ false }
        requires from { at ≤ length text.now }
        ensures table { IsTable prepared.now self.new }
        ensures shape { SameShape self.old self.new }
        ensures after { at ≤ result.place }
        ensures within { result.place ≤ length text.now }
        ensures reached { IfSome result.end (λ j. j ≤ result.place) }
        ensures longest { self.old.way.all_starts ≡ false → IsLongestFrom (expression_tree prepared.now) text.now at result.end }
        ensures found { IsTrue self.old.way.all_starts → IsTrue (is_some result.end) ↔ SomeFound (expression_tree prepared.now) text.now at }
        ensures passes { IfSome result.end (λ j. LooksPast (expression_tree prepared.now) text.now at steps.old steps.new) }
        ensures cost { CostsWithin steps.old steps.new (40 * length prepared.now.nodes * (result.place + 1)) (40 * length prepared.now.nodes * at) }
        ensures counts { TakesAtLeast steps.old steps.new (2 * (result.place - at) + 1) }
    {
        let kind = kind_of(at, text.len());
        let code = self.first(prepared, prepared.root(), kind, steps);
        let mut here = self.arrive(prepared, text, code, at, None);
        // `&`: a loop with one end takes half the proof.
        while !here.over & (here.place < text.len()) {
            let last = text.len() - 1;
            here = self.follow(prepared, text, here, last, steps);
            if !here.over {
                let byte = text.byte(here.place, steps);
                let code = self.next(prepared, here.offset, byte, here.place == last, steps);
                here = self.arrive(prepared, text, code, here.place + 1, here.end);
            }
        }
        here
    }
}
