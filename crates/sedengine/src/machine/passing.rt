//! Lines that no command touches are passed over, a block at a time.
ghost use Rattle.std.specs.Prelude.{◌≡◌, ◌<◌, ◌≤◌, ◌+◌, ◌*◌, [], ◌∷◌, IfSome, IsTrue, List, ℕ, is_some, length, take, true};
ghost use Rattle.sedscript.specs.Ranges.{IsOneOf};
ghost use Rattle.sedspace.specs.Stream.{AreWholeLines};
ghost use Rattle.sedacts.specs.State.{begin};
ghost use Rattle.sedacts.specs.Ends.{WithinLimits};
ghost use Rattle.sedacts.specs.Run.{at_lines};
ghost use Rattle.sedengine.specs.Passing.{AllowsLines, BreaksOffBy, PassesLines, PassesLinesOver, WritesLines, counted_block};
ghost use Rattle.sedacts.specs.Idle.{need_at};

use super::Machine;
use crate::next_step::NextStep;
use sedacts::Ended;
use sedacts::block::{clear_end, extent_of, line_length, lines_before};
use sedacts::idle::{Idle, clear_lines};
use sedacts::meter::{CutShort, MeteredSinks};
use sedspace::{ByteSource, Lines, whole_lines};

/// The first of the bytes ahead, which are lines that no command touches.
#[derive(Clone, Copy)]
pub(crate) struct IdleLines {
    /// How many bytes, with the newlines.
    pub(crate) bytes: usize,
    /// How many lines.
    pub(crate) lines: u64,
    /// How many commands are reached on each of them.
    pub(crate) reached: usize,
    /// The expression that they judge last.
    pub(crate) judged: Option<usize>,
}

impl Machine {
    /// How many lines may be passed over at most, if no command touches them for what they hold.
    fn most_lines(&self, idle: &Idle) -> Option<u64>
        requires needs { (j : ℕ) → j < idle.now.reached →
            is_some (need_at self.now.script.commands self.now.script.substitutions j) ≡ true }
        requires few { idle.now.reached ≤ 64 }
        ensures { IfSome result (AllowsLines self.now idle.now.reached) }
    {
        if self.queue.len() > 0 {
            return None;
        }
        let most = clear_lines(&self.script, &self.ranges, idle.reached, self.number)?;
        let turns = self.limits.turns() - self.turns;
        Some(most.min(turns / (idle.reached as u64 + 1)))
    }

    /// The first of the lines ahead that no command touches, as far as a look shows.
    fn idle_block(&self, ahead: &[u8]) -> Option<IdleLines>
        ensures { IfSome result (PassesLinesOver self.now ahead.now) }
    {
        let Some(idle) = &self.idle else {
            return None;
        };
        let most = self.most_lines(idle)?;
        let seen = ahead
            .len()
            .min(self.limits.space())
            .min(self.patience.window);
        let end = clear_end(&self.matchers, &idle.expressions, &ahead[..seen]);
        let whole = lines_before(ahead, end, idle.asks_last);
        let extent = extent_of(&ahead[..whole], most);
        if extent.lines == 0 {
            return None;
        }
        Some(IdleLines {
            bytes: extent.bytes,
            lines: extent.lines,
            reached: idle.reached,
            judged: idle.judged,
        })
    }

    /// The first of the lines ahead that may be passed over. Where there is none, the next try is put off.
    fn find_block(&mut self, ahead: &[u8]) -> Option<IdleLines>
        ensures block { IfSome result (PassesLinesOver self.old ahead.now) }
        ensures same { self.new ≡ self.old }
    {
        if whole_lines(ahead) == 0 {
            return None;
        }
        let found = self.idle_block(ahead);
        if found.is_none() {
            self.patience.note(0, 0);
        }
        found
    }

    /// Writes lines as they are, unless default output is suppressed.
    fn write_lines<O: MeteredSinks>(&self, bytes: &[u8], outputs: &mut O) -> Result<(), CutShort>
        requires { 0 < O.count outputs.old }
        ensures { WritesLines O.tally O.count outputs.old outputs.new self.now.script.quiet bytes.now result }
    {
        if self.script.quiet() {
            return Ok(());
        }
        outputs.write_part(0, bytes)
    }

    /// Counts the block, and goes on after it.
    fn count_block(&mut self, block: IdleLines)
        requires turns { self.old.state.turns + block.lines * (block.reached + 1) ≤ self.old.limits.turns }
        requires few { block.reached ≤ 64 }
        requires judged { IsOneOf (length self.old.script.expressions) block.judged }
        ensures { self.new ≡ counted_block self.old block }
    {
        self.turns_fit();
        self.number += block.lines;
        self.turns += block.lines * (block.reached as u64 + 1);
        self.replaced = false;
        self.used = block.judged.or(self.used);
        self.patience.note(block.lines, block.bytes);
    }

    /// Brings the line to the pattern space of which a sink took only a part, after `done` bytes of a block.
    fn break_off<R: ByteSource>(&mut self, lines: &mut Lines<R>, bytes: usize, done: usize)
        requires within { bytes ≤ length lines.old.ahead }
        requires whole { AreWholeLines (take bytes lines.old.ahead) }
        requires short { bytes ≤ self.old.limits.space }
        requires done { done < bytes }
        ensures { BreaksOffBy lines.old lines.new self.old self.new done bytes }
    {
        let ahead = lines.ahead();
        let start = whole_lines(&ahead[..done]);
        let end = start + line_length(&ahead[start..bytes]);
        match self.pattern.set(&ahead[start..end]) {
            Ok(()) => {}
            Err(_) => unreachable!(),
        }
        self.next_step = NextStep::Do(self.script.len());
        lines.take_lines(end + 1);
    }

    /// Passes over the first of the lines ahead that no command touches.
    fn pass_ahead<R: ByteSource, O: MeteredSinks>(
        &mut self,
        lines: &mut Lines<R>,
        outputs: &mut O,
    ) -> Result<(), Ended>
        requires begins { self.old.state.tasks ≡ begin ∷ [] }
        requires emptied { self.old.state.pattern ≡ [] }
        requires limits { (ls : List (List ℕ)) → WithinLimits self.old.limits (at_lines self.old ls) }
        requires sink { 0 < O.count outputs.old }
        ensures { PassesLines R.remaining R.failures R.reference O.tally O.count self.old self.new
            lines.old lines.new outputs.old outputs.new result }
    {
        let ahead = lines.ahead();
        let Some(block) = self.find_block(ahead) else {
            return Ok(());
        };
        match self.write_lines(&ahead[..block.bytes], outputs) {
            Ok(()) => {
                lines.take_lines(block.bytes);
                self.count_block(block);
                Ok(())
            }
            Err(cut) => {
                self.break_off(lines, block.bytes, cut.done);
                Err(cut.end)
            }
        }
    }

    /// Whether lines may be passed over: where a cycle is to begin, and that may pay.
    #[inline(always)]
    fn may_pass(&mut self) -> bool
        ensures begins { IsTrue result → self.old.state.tasks ≡ begin ∷ [] }
        ensures emptied { IsTrue result → self.old.state.pattern ≡ [] }
        ensures same { self.new ≡ self.old }
    {
        matches!(self.next_step, NextStep::Begin) && self.patience.is_due()
    }

    /// Passes over lines that no command touches, if it may pay.
    #[inline(always)]
    pub(super) fn pass_over<R: ByteSource, O: MeteredSinks>(
        &mut self,
        lines: &mut Lines<R>,
        outputs: &mut O,
    ) -> Result<(), Ended>
        requires { 0 < O.count outputs.old }
        ensures { PassesLines R.remaining R.failures R.reference O.tally O.count self.old self.new
            lines.old lines.new outputs.old outputs.new result }
    {
        self.is_within_limits();
        if self.may_pass() {
            return self.pass_ahead(lines, outputs);
        }
        Ok(())
    }
}
