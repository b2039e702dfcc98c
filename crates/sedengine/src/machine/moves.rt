//! The moves one after another.
ghost use Rattle.std.specs.Prelude.{◌≡◌, ◌<◌, Err, length};
ghost use Rattle.sedspace.specs.Stream.{lines_left};
ghost use Rattle.sedacts.specs.Run.{Cycles, CameToEnd, as_moves_answer, starts_cycle};
ghost use Rattle.sedengine.specs.Advancing.{Advances, RunsOn};

use super::Machine;
use crate::next_step::NextStep;
use sedacts::meter::MeteredSinks;
use sedacts::{Ended, Progress};
use sedspace::{ByteSource, Lines, Texts};

impl Machine {
    /// Makes the next moves, or finds the end.
    fn step<R: ByteSource, O: MeteredSinks, T: Texts>(
        &mut self,
        lines: &mut Lines<R>,
        outputs: &mut O,
        texts: &mut T,
    ) -> Result<(), Ended>
        requires { length self.old.script.wfiles < O.count outputs.old }
        ensures { Advances R.remaining R.failures R.reference O.tally O.count T.text self.old self.new
            lines.old lines.new outputs.old outputs.new texts.old texts.new result }
    {
        match self.next_step {
            NextStep::Begin => self.begin(lines),
            NextStep::Rebegin => self.rebegin(),
            NextStep::Do(k) => self.reach(k, lines, outputs, texts),
            NextStep::WriteLast => self.quit(outputs, texts),
            NextStep::Ended => Err(Ended::Done),
        }
    }

    /// Makes moves to the end.
    pub(crate) fn run<R: ByteSource, O: MeteredSinks, T: Texts>(
        &mut self,
        lines: &mut Lines<R>,
        outputs: &mut O,
        texts: &mut T,
    ) -> Ended
        requires sinks { length self.old.script.wfiles < O.count outputs.old }
        requires look { lines.old.read_ahead ≡ self.old.limits.look }
        ensures { RunsOn R.remaining R.failures R.reference O.tally O.count T.text
            (λ g s out before after. CameToEnd self.old.limits g s out before after self.new.state result)
            self.old self.new lines.old lines.new outputs.old outputs.new texts.old texts.new (Err result) }
    {
        self.is_within_limits();
        'moves: loop {
            if let Err(end) = self.pass_over(lines, outputs) {
                return end;
            }
            if let Err(end) = self.step(lines, outputs, texts) {
                return end;
            }
        }
    }

    /// Whether a cycle starts here.
    fn at_start(&self) -> bool
        ensures { result ≡ starts_cycle self.now.state.tasks }
    {
        matches!(self.next_step, NextStep::Begin | NextStep::Rebegin)
    }

    /// Makes the moves of one cycle.
    pub(crate) fn cycle<R: ByteSource, O: MeteredSinks, T: Texts>(
        &mut self,
        lines: &mut Lines<R>,
        outputs: &mut O,
        texts: &mut T,
    ) -> Progress
        requires sinks { length self.old.script.wfiles < O.count outputs.old }
        requires look { lines.old.read_ahead ≡ self.old.limits.look }
        ensures { RunsOn R.remaining R.failures R.reference O.tally O.count T.text
            (λ g s out before after. Cycles self.old.limits g s out before after self.new (lines_left R.remaining lines.new) result)
            self.old self.new lines.old lines.new outputs.old outputs.new texts.old texts.new (as_moves_answer result) }
    {
        self.is_within_limits();
        'moves: loop {
            if let Err(end) = self.step(lines, outputs, texts) {
                return Progress::Ended(end);
            }
            if self.at_start() {
                return Progress::More;
            }
        }
    }
}
