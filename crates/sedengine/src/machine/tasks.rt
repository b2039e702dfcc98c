//! The start of a cycle, and its end.
ghost use Rattle.std.specs.Prelude.{◌≡◌, ◌<◌, ◌≤◌, [], ◌∷◌, length};
ghost use Rattle.sedacts.specs.State.{begin, rebegin, do_at, print_pattern, flush};
ghost use Rattle.sedengine.specs.Advancing.{AdvancesAlone, AdvancesHere, AdvancesReading};

use super::Machine;
use crate::next_step::NextStep;
use sedacts::Ended;
use sedacts::meter::MeteredSinks;
use sedspace::{ByteSource, Got, LineFault, Lines, Texts};

impl Machine {
    /// Starts a cycle with the next line.
    pub(super) fn begin<R: ByteSource>(&mut self, lines: &mut Lines<R>) -> Result<(), Ended>
        requires { self.old.state.tasks ≡ begin ∷ [] }
        ensures { AdvancesReading R.remaining R.failures R.reference self.old self.new lines.old lines.new result }
    {
        if self.turns == self.limits.turns() {
            return match lines.is_last() {
                Ok(true) => {
                    self.next_step = NextStep::Ended;
                    Ok(())
                }
                Ok(false) => Err(Ended::TurnsSpent),
                Err(_) => Err(Ended::InputBroken),
            };
        }
        match lines.next_into(&mut self.pattern) {
            Ok(Got::Line) => {
                self.number += 1;
                self.turns += 1;
                self.replaced = false;
                self.next_step = NextStep::Do(0);
                Ok(())
            }
            Ok(Got::End) => {
                self.next_step = NextStep::Ended;
                Ok(())
            }
            Err(LineFault::TooLong) => Err(Ended::PatternFull(self.number + 1)),
            Err(LineFault::Broken) => Err(Ended::InputBroken),
        }
    }

    /// Starts a cycle with the pattern space as it is.
    pub(super) fn rebegin(&mut self) -> Result<(), Ended>
        requires { self.old.state.tasks ≡ rebegin ∷ [] }
        ensures { AdvancesAlone self.old self.new result }
    {
        if self.turns == self.limits.turns() {
            return Err(Ended::TurnsSpent);
        }
        self.turns += 1;
        self.next_step = NextStep::Do(0);
        Ok(())
    }

    /// Ends a cycle at the end of the script: writes the pattern space and the queue, and empties the pattern space.
    pub(super) fn finish<O: MeteredSinks, T: Texts>(
        &mut self,
        k: usize,
        outputs: &mut O,
        texts: &mut T,
    ) -> Result<(), Ended>
        requires at { self.old.state.tasks ≡ do_at k ∷ [] }
        requires end { length self.old.script.commands ≤ k }
        requires sink { 0 < O.count outputs.old }
        ensures { AdvancesHere O.tally O.count T.text self.old self.new outputs.old outputs.new texts.old texts.new result }
    {
        self.print_and_flush(outputs, texts)?;
        self.pattern.clear();
        self.next_step = NextStep::Begin;
        Ok(())
    }

    /// Ends the run: writes the pattern space and the queue for the last time.
    pub(super) fn quit<O: MeteredSinks, T: Texts>(
        &mut self,
        outputs: &mut O,
        texts: &mut T,
    ) -> Result<(), Ended>
        requires at { self.old.state.tasks ≡ print_pattern ∷ flush ∷ [] }
        requires sink { 0 < O.count outputs.old }
        ensures { AdvancesHere O.tally O.count T.text self.old self.new outputs.old outputs.new texts.old texts.new result }
    {
        self.next_step = NextStep::Ended;
        self.print_and_flush(outputs, texts)
    }
}
