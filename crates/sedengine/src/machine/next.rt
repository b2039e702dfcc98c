//! The commands `n` and `N`: further lines (XCU sed, "Editing Commands in sed").
ghost use Rattle.std.specs.Prelude.{◌≡◌, ◌<◌, [], ◌∷◌, true, false};
ghost use Rattle.sedscript.specs.declared.types.Action.TheVariants.{Plain};
ghost use Rattle.sedscript.specs.declared.types.Simple.TheVariants.{AppendNext};
ghost use Rattle.sedacts.specs.State.{empty_pattern, fetch, join};
ghost use Rattle.sedacts.specs.Move.{acts};
ghost use Rattle.sedacts.specs.Steps.{reaches};
ghost use Rattle.sedengine.specs.Advancing.{ActsLines};
ghost use Rattle.sedengine.specs.Fetching.{Fetches, brought, next_line};

use super::Machine;
use crate::next_step::NextStep;
use sedacts::Ended;
use sedacts::bringing::{bring_line, is_last, join_line};
use sedacts::meter::MeteredSinks;
use sedspace::{ByteSource, Got, Lines, Texts};

impl Machine {
    /// The command `n`: writes the pattern space, unless default output is suppressed, and the queue, and goes on with the
    /// next line in place of the pattern space. Without a next line the run is to end as by `q`.
    pub(super) fn act_next_line<R: ByteSource, O: MeteredSinks, T: Texts>(
        &mut self,
        lines: &mut Lines<R>,
        outputs: &mut O,
        texts: &mut T,
    ) -> Result<(), Ended>
        requires at { reaches self.old.state.tasks ≡ true }
        requires number { self.old.state.number < self.old.state.turns }
        requires sink { 0 < O.count outputs.old }
        ensures { ActsLines R.remaining R.failures R.reference O.tally O.count T.text (λ g s. next_line s) true
            self.old self.new lines.old lines.new outputs.old outputs.new texts.old texts.new result }
    {
        if is_last(lines)? {
            self.next_step = NextStep::WriteLast;
            return Ok(());
        }
        self.print_and_flush(outputs, texts)?;
        self.fetch(lines)
    }

    /// Puts the next line in place of the pattern space.
    fn fetch<R: ByteSource>(&mut self, lines: &mut Lines<R>) -> Result<(), Ended>
        requires at { reaches self.old.state.tasks ≡ true }
        requires number { self.old.state.number < self.old.state.turns }
        ensures { Fetches R.remaining R.failures R.reference (empty_pattern ∷ fetch ∷ []) self.old self.new
            lines.old lines.new result }
    {
        self.turns_fit();
        self.pattern.clear();
        let got = bring_line(&mut self.pattern, lines, self.number + 1)?;
        self.go_on(got);
        Ok(())
    }

    /// Goes on with the line that was fetched, or ends the run where there was none.
    fn go_on(&mut self, got: Got)
        requires at { reaches self.old.state.tasks ≡ true }
        requires number { self.old.state.number < self.old.state.turns }
        ensures { self.new ≡ brought self.old got }
    {
        match got {
            Got::Line => {
                self.turns_fit();
                self.number += 1;
                self.replaced = false;
            }
            Got::End => self.next_step = NextStep::Ended,
        }
    }

    /// The command `N`: writes the queue, and appends a newline and the next line to the pattern space. Without a next line
    /// the run is over, and the pattern space isn't written.
    pub(super) fn act_append_next<R: ByteSource, O: MeteredSinks, T: Texts>(
        &mut self,
        lines: &mut Lines<R>,
        outputs: &mut O,
        texts: &mut T,
    ) -> Result<(), Ended>
        requires at { reaches self.old.state.tasks ≡ true }
        requires number { self.old.state.number < self.old.state.turns }
        requires sink { 0 < O.count outputs.old }
        ensures { ActsLines R.remaining R.failures R.reference O.tally O.count T.text (λ g s. acts g s true (Plain AppendNext)) false
            self.old self.new lines.old lines.new outputs.old outputs.new texts.old texts.new result }
    {
        self.flush(outputs, texts)?;
        self.join(lines)
    }

    /// Appends a newline and the next line to the pattern space.
    fn join<R: ByteSource>(&mut self, lines: &mut Lines<R>) -> Result<(), Ended>
        requires at { reaches self.old.state.tasks ≡ true }
        requires number { self.old.state.number < self.old.state.turns }
        ensures { Fetches R.remaining R.failures R.reference (join ∷ []) self.old self.new
            lines.old lines.new result }
    {
        self.turns_fit();
        let got = join_line(&mut self.pattern, lines, self.number + 1)?;
        self.go_on(got);
        Ok(())
    }
}
