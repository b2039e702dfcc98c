//! The queue: the commands `a` and `r`, and the places at which it is written (XCU sed, "Editing Commands in sed").
ghost use Rattle.std.specs.Prelude.{◌<◌, [], ◌∷◌, slice_get};
ghost use Rattle.sedacts.specs.State.{flush, print_pattern};
ghost use Rattle.sedengine.specs.Inside.{IsEmptied};
ghost use Rattle.sedacts.specs.Keeping.{CommandQueues, entry_by};
ghost use Rattle.sedengine.specs.Queueing.{EndsCycle, QueuesOrFull, WritesQueue};

use super::Machine;
use crate::next_step::NextStep;
use sedacts::Ended;
use sedacts::flushing::flush_queue;
use sedacts::meter::MeteredSinks;
use sedacts::write::print_by_default;
use sedspace::Texts;

impl Machine {
    /// The commands `a` and `r`: the entry of command `k` waits in the queue, if there is room.
    pub(super) fn act_queue(&mut self, k: usize) -> Result<(), Ended>
        requires { CommandQueues (slice_get self.old.script.commands k) }
        ensures { QueuesOrFull self.old self.new (entry_by self.old.script.texts (slice_get self.old.script.commands k)) result }
    {
        match self.queue.push(k as u64) {
            Ok(()) => Ok(()),
            Err(_) => Err(Ended::QueueFull(self.number)),
        }
    }

    /// Writes the queue, which is then empty.
    #[inline(always)]
    pub(super) fn flush<O: MeteredSinks, T: Texts>(
        &mut self,
        outputs: &mut O,
        texts: &mut T,
    ) -> Result<(), Ended>
        requires { 0 < O.count outputs.old }
        ensures { WritesQueue O.tally O.count T.text (flush ∷ []) self.old self.new
            outputs.old outputs.new texts.old texts.new result }
    {
        flush_queue(
            &self.script,
            &self.queue,
            &self.limits,
            &mut self.turns,
            &mut self.build,
            outputs,
            texts,
        )?;
        self.queue.clear();
        Ok(())
    }

    /// Writes the pattern space, unless default output is suppressed, and then the queue.
    #[inline(always)]
    pub(super) fn print_and_flush<O: MeteredSinks, T: Texts>(
        &mut self,
        outputs: &mut O,
        texts: &mut T,
    ) -> Result<(), Ended>
        requires { 0 < O.count outputs.old }
        ensures { WritesQueue O.tally O.count T.text (print_pattern ∷ flush ∷ []) self.old self.new
            outputs.old outputs.new texts.old texts.new result }
    {
        print_by_default(&self.script, &self.pattern, outputs)?;
        self.flush(outputs, texts)
    }

    /// Writes the queue, and starts the next cycle at this step.
    pub(super) fn end_cycle<O: MeteredSinks, T: Texts>(
        &mut self,
        next_step: NextStep,
        outputs: &mut O,
        texts: &mut T,
    ) -> Result<(), Ended>
        requires emptied { IsEmptied next_step self.old.state.pattern }
        requires sink { 0 < O.count outputs.old }
        ensures { EndsCycle O.tally O.count T.text next_step self.old self.new
            outputs.old outputs.new texts.old texts.new result }
    {
        self.next_step = next_step;
        self.flush(outputs, texts)
    }
}
