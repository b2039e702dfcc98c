//! The commands `c`, `d` and `D`: the pattern space is deleted, and a cycle starts (XCU sed, "Editing Commands in sed").
ghost use Rattle.std.specs.Prelude.{◌<◌, true, length};
ghost use Rattle.sedscript.specs.declared.types.Action.TheVariants.{Plain, Text};
ghost use Rattle.sedscript.specs.declared.types.Simple.TheVariants.{Delete, DeleteFirst};
ghost use Rattle.sedscript.specs.declared.types.TextUse.TheVariants.{Change};
ghost use Rattle.sedacts.specs.Move.{acts};
ghost use Rattle.sedengine.specs.Advancing.{ActsHere};

use super::Machine;
use crate::next_step::NextStep;
use sedacts::Ended;
use sedacts::meter::MeteredSinks;
use sedacts::write::write_line;
use sedspace::Texts;

impl Machine {
    /// The command `c`: deletes the pattern space, writes its text where `writes_text` says so, writes the queue, and starts the
    /// next cycle.
    pub(super) fn act_change<O: MeteredSinks, T: Texts>(
        &mut self,
        text: usize,
        writes_text: bool,
        outputs: &mut O,
        texts: &mut T,
    ) -> Result<(), Ended>
        requires text { text < length self.old.script.texts }
        requires sink { 0 < O.count outputs.old }
        ensures { ActsHere O.tally O.count T.text (λ g s. acts g s writes_text (Text Change text)) self.old self.new
            outputs.old outputs.new texts.old texts.new result }
    {
        self.pattern.clear();
        if !writes_text {
            return self.end_cycle(NextStep::Begin, outputs, texts);
        }
        write_line(outputs, 0, self.script.text(text))?;
        self.end_cycle(NextStep::Begin, outputs, texts)
    }

    /// The command `d`: deletes the pattern space, writes the queue, and starts the next cycle.
    pub(super) fn act_delete<O: MeteredSinks, T: Texts>(
        &mut self,
        outputs: &mut O,
        texts: &mut T,
    ) -> Result<(), Ended>
        requires { 0 < O.count outputs.old }
        ensures { ActsHere O.tally O.count T.text (λ g s. acts g s true (Plain Delete)) self.old self.new
            outputs.old outputs.new texts.old texts.new result }
    {
        self.pattern.clear();
        self.end_cycle(NextStep::Begin, outputs, texts)
    }

    /// The command `D`: deletes the pattern space up to its first newline, writes the queue, and starts a cycle with what is
    /// left. Without a newline it is `d`.
    pub(super) fn act_delete_first<O: MeteredSinks, T: Texts>(
        &mut self,
        outputs: &mut O,
        texts: &mut T,
    ) -> Result<(), Ended>
        requires { 0 < O.count outputs.old }
        ensures { ActsHere O.tally O.count T.text (λ g s. acts g s true (Plain DeleteFirst)) self.old self.new
            outputs.old outputs.new texts.old texts.new result }
    {
        if self.pattern.cut_line() {
            self.end_cycle(NextStep::Rebegin, outputs, texts)
        } else {
            self.act_delete(outputs, texts)
        }
    }
}
