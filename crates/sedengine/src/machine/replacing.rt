//! The commands `s`, `t` and `y`: substitutions, what `t` sees of them, and tables (XCU sed, "Editing Commands in
//! sed").
ghost use Rattle.std.specs.Prelude.{◌≡◌, ◌<◌, [], ◌∷◌, List, ℕ, false, true, length, map, slice_get, if◌then◌else◌};
ghost use Rattle.sedacts.specs.State.{do_at};
ghost use Rattle.sedacts.specs.Move.{in_table, substitutes};
ghost use Rattle.sedacts.specs.Ends.{WithinLimits};
ghost use Rattle.sedacts.specs.Run.{at_lines};
ghost use Rattle.sedacts.specs.Calls.{WritesAll};
ghost use Rattle.sedacts.specs.Steps.{reaches};
ghost use Rattle.sedengine.specs.Advancing.{ActsAlone};
ghost use Rattle.sedengine.specs.SubstituteCalls.{ReplacesOccurrences, written_of};

use super::Machine;
use super::known::is_within;
use crate::next_step::NextStep;
use sedacts::Ended;
use sedacts::meter::MeteredSinks;
use sedacts::substitute::build_text;
use sedspace::Full;

impl Machine {
    /// The command `s`: replaces occurrences in the pattern space, and writes it as its flags `p` and `w` say if it did.
    #[inline(never)]
    pub(super) fn act_substitute<O: MeteredSinks>(
        &mut self,
        k: usize,
        outputs: &mut O,
    ) -> Result<(), Ended>
        requires at { reaches self.old.state.tasks ≡ true }
        requires limits { (ls : List (List ℕ)) → WithinLimits self.old.limits (at_lines self.old ls) }
        requires number { k < length self.old.script.substitutions }
        requires sinks { length self.old.script.wfiles < O.count outputs.old }
        ensures { ActsAlone O.tally O.count (λ g s. substitutes g s (slice_get self.old.script.substitutions k))
            self.old self.new outputs.old outputs.new result }
    {
        if self.replace_occurrences(k)? {
            self.write_replaced(k, outputs)
        } else {
            Ok(())
        }
    }

    /// Replaces in the pattern space the occurrences that the substitution of number `k` chooses. Says whether there are
    /// any. Its expression, or the one that an empty one stands for, is then the one last used.
    fn replace_occurrences(&mut self, k: usize) -> Result<bool, Ended>
        requires at { reaches self.old.state.tasks ≡ true }
        requires number { k < length self.old.script.substitutions }
        ensures { ReplacesOccurrences k self.old self.new result }
    {
        let substitution = self.script.substitution(k);
        let Some(e) = substitution.expression.or(self.used) else {
            return Err(Ended::NoPrevious(self.number));
        };
        self.used = Some(e);
        self.seeking.begin(e);
        let built = build_text(
            substitution,
            self.pattern.bytes(),
            &mut self.matchers[e],
            &mut self.build,
            &mut self.seeking,
            &mut self.scratch,
            &mut self.findings,
        );
        match built {
            Ok(true) => {
                is_within(&self.build);
                self.pattern.swap(&mut self.build);
                self.replaced = true;
                Ok(true)
            }
            Ok(false) => Ok(false),
            Err(Full) => Err(Ended::PatternFull(self.number)),
        }
    }

    /// Writes the pattern space as the flags `p` and `w` of the substitution of number `k` say.
    fn write_replaced<O: MeteredSinks>(&self, k: usize, outputs: &mut O) -> Result<(), Ended>
        requires number { k < length self.now.script.substitutions }
        requires sinks { length self.now.script.wfiles < O.count outputs.old }
        ensures { WritesAll O.tally O.count outputs.old outputs.new (written_of self.now k) result }
    {
        let substitution = self.script.substitution(k);
        match (substitution.print, substitution.file) {
            (false, None) => Ok(()),
            (false, Some(sink)) => self.act_write(sink, outputs),
            (true, None) => self.act_write(0, outputs),
            (true, Some(sink)) => {
                self.act_write(0, outputs)?;
                self.act_write(sink, outputs)
            }
        }
    }

    /// The command `t`: goes on at its target if a substitution was made, which is then forgotten.
    pub(super) fn act_test(&mut self, target: usize)
        ensures { self.new ≡ record self.old {
          state = if self.old.state.replaced
              then record self.old.state { tasks = do_at target ∷ []; replaced = false }
              else self.old.state;
        } }
    {
        if self.replaced {
            self.replaced = false;
            self.next_step = NextStep::Do(target);
        }
    }

    /// The command `y`: replaces each byte of the pattern space by the one at its place in the table of number `k`.
    #[inline(never)]
    pub(super) fn act_transliterate(&mut self, k: usize)
        requires { k < length self.old.script.tables }
        ensures { self.new ≡ record self.old {
          state = record self.old.state {
            pattern = map (in_table (slice_get self.old.script.tables k)) self.old.state.pattern;
          };
        } }
    {
        self.pattern.translate(self.script.table(k));
    }
}
