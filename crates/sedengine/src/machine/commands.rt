//! The commands (XCU sed, "Editing Commands in sed"): `act` and the calls that it passes commands on to have a case for each.
ghost use Rattle.std.specs.Prelude.{◌≡◌, ◌<◌, [], ◌∷◌, Ok, Err, Bool, List, ℕ, true, false, length, slice_get};
ghost use Rattle.sedscript.specs.Script.{ActionWithin};
ghost use Rattle.sedscript.specs.declared.types.Action.TheVariants.{Plain};
ghost use Rattle.sedacts.specs.State.{do_at, flush, print_pattern};
ghost use Rattle.sedacts.specs.Move.{acts, line_to};
ghost use Rattle.sedacts.specs.Ends.{WithinLimits, is_next_line};
ghost use Rattle.sedacts.specs.Run.{at_lines};
ghost use Rattle.sedengine.specs.Passing.{passed_over};
ghost use Rattle.sedacts.specs.Calls.{WritesAll};
ghost use Rattle.sedacts.specs.Steps.{reaches, HasAction};
ghost use Rattle.sedengine.specs.Advancing.{ActsHere, ActsLines, Advances, takes_further_line};

use super::Machine;
use crate::next_step::NextStep;
use itoa::Buffer;
use sedacts::Ended;
use sedacts::listing::write_listing;
use sedacts::meter::MeteredSinks;
use sedacts::select::writes_text;
use sedacts::write::write_line;
use sedscript::Action;
use sedscript::types::{BranchUse, FileUse, Simple, TextUse};
use sedspace::{ByteSource, Lines, Texts};

impl Machine {
    /// Reaches a command, or the end of the script.
    pub(super) fn reach<R: ByteSource, O: MeteredSinks, T: Texts>(
        &mut self,
        k: usize,
        lines: &mut Lines<R>,
        outputs: &mut O,
        texts: &mut T,
    ) -> Result<(), Ended>
        requires at { self.old.state.tasks ≡ do_at k ∷ [] }
        requires sinks { length self.old.script.wfiles < O.count outputs.old }
        ensures { Advances R.remaining R.failures R.reference O.tally O.count T.text self.old self.new
            lines.old lines.new outputs.old outputs.new texts.old texts.new result }
    {
        if k >= self.script.len() {
            return self.finish(k, outputs, texts);
        }
        if self.turns == self.limits.turns() {
            return Err(Ended::TurnsSpent);
        }
        let command = *self.script.command(k);
        let choice = self.judge(k, &command, lines)?;
        if choice.yes {
            self.act(
                k,
                command.action,
                writes_text(&command, choice.end),
                lines,
                outputs,
                texts,
            )
        } else {
            self.pass(command.action);
            Ok(())
        }
    }

    /// Does what command `k` does where it applies. `writes_text` says whether `c` writes its text.
    fn act<R: ByteSource, O: MeteredSinks, T: Texts>(
        &mut self,
        k: usize,
        action: Action,
        writes_text: bool,
        lines: &mut Lines<R>,
        outputs: &mut O,
        texts: &mut T,
    ) -> Result<(), Ended>
        requires at { reaches self.old.state.tasks ≡ true }
        requires number { self.old.state.number < self.old.state.turns }
        requires within { ActionWithin self.old.script action }
        requires action { HasAction (slice_get self.old.script.commands k) action }
        requires sinks { length self.old.script.wfiles < O.count outputs.old }
        ensures { ActsLines R.remaining R.failures R.reference O.tally O.count T.text
            (λ g s. acts g s writes_text action) (is_next_line action)
            self.old self.new lines.old lines.new outputs.old outputs.new texts.old texts.new result }
    {
        match action {
            Action::Plain(Simple::AppendNext) => self.act_append_next(lines, outputs, texts),
            Action::Plain(Simple::NextLine) => self.act_next_line(lines, outputs, texts),
            _ => self.act_here(k, action, writes_text, outputs, texts),
        }
    }

    /// Does what command `k` does where it applies, if it takes no line.
    fn act_here<O: MeteredSinks, T: Texts>(
        &mut self,
        k: usize,
        action: Action,
        writes_text: bool,
        outputs: &mut O,
        texts: &mut T,
    ) -> Result<(), Ended>
        requires at { reaches self.old.state.tasks ≡ true }
        requires within { ActionWithin self.old.script action }
        requires action { HasAction (slice_get self.old.script.commands k) action }
        requires here { takes_further_line action ≡ false }
        requires sinks { length self.old.script.wfiles < O.count outputs.old }
        ensures { ActsHere O.tally O.count T.text (λ g s. acts g s writes_text action) self.old self.new
            outputs.old outputs.new texts.old texts.new result }
    {
        self.is_within_limits();
        match action {
            Action::Plain(simple) => self.act_plain(k, simple, outputs, texts),
            Action::Text(TextUse::Append, _) => self.act_queue(k),
            Action::Text(TextUse::Change, text) => self.act_change(
                text,
                writes_text,
                outputs,
                texts,
            ),
            Action::Text(TextUse::Insert, text) => write_line(outputs, 0, self.script.text(text)),
            Action::File(FileUse::Read, _) => self.act_queue(k),
            Action::File(FileUse::Write, sink) => self.act_write(sink, outputs),
            Action::Branch(BranchUse::Always, target) => {
                self.next_step = NextStep::Do(target);
                Ok(())
            }
            Action::Branch(BranchUse::IfReplaced, target) => {
                self.act_test(target);
                Ok(())
            }
            Action::Block(_) => Ok(()),
            Action::Substitute(k) => self.act_substitute(k, outputs),
            Action::Transliterate(k) => {
                self.act_transliterate(k);
                Ok(())
            }
        }
    }

    /// Does what a command without arguments does, number `k`, where it applies, if it takes no line.
    fn act_plain<O: MeteredSinks, T: Texts>(
        &mut self,
        k: usize,
        simple: Simple,
        outputs: &mut O,
        texts: &mut T,
    ) -> Result<(), Ended>
        requires at { reaches self.old.state.tasks ≡ true }
        requires limits { (ls : List (List ℕ)) → WithinLimits self.old.limits (at_lines self.old ls) }
        requires action { HasAction (slice_get self.old.script.commands k) (Plain simple) }
        requires here { takes_further_line (Plain simple) ≡ false }
        requires sink { 0 < O.count outputs.old }
        ensures { (writes_text : Bool) → ActsHere O.tally O.count T.text (λ g s. acts g s writes_text (Plain simple)) self.old self.new
            outputs.old outputs.new texts.old texts.new result }
    {
        match simple {
            Simple::AppendHold => self.act_append_hold(),
            Simple::CopyHold => {
                self.act_copy_hold();
                Ok(())
            }
            Simple::Delete => self.act_delete(outputs, texts),
            Simple::DeleteFirst => self.act_delete_first(outputs, texts),
            Simple::Exchange => {
                self.act_exchange();
                Ok(())
            }
            Simple::Hold => {
                self.act_hold();
                Ok(())
            }
            Simple::HoldMore => self.act_hold_more(),
            Simple::LineNumber => {
                let mut buffer = Buffer::new();
                write_line(outputs, 0, buffer.format(self.number).as_bytes())
            }
            Simple::List => write_listing(outputs, self.pattern.bytes()),
            Simple::Print => self.act_write(0, outputs),
            Simple::PrintFirst => outputs.write_all(0, self.pattern.first_line()),
            Simple::Quit => {
                self.act_quit();
                Ok(())
            }
            _ => unreachable!(),
        }
    }

    /// The command `q`: the run is to end once the pattern space and the queue are written.
    fn act_quit(&mut self)
        ensures { self.new ≡ record self.old { state = record self.old.state { tasks = print_pattern ∷ flush ∷ [] } } }
    {
        self.next_step = NextStep::WriteLast;
    }

    /// Does what a command does where it doesn't apply: `{` passes over its block.
    fn pass(&mut self, action: Action)
        ensures { self.new ≡ passed_over self.old action }
    {
        if let Action::Block(next) = action {
            self.next_step = NextStep::Do(next);
        }
    }

    /// The commands `p` and `w`: writes the pattern space to a sink.
    pub(super) fn act_write<O: MeteredSinks>(
        &self,
        sink: usize,
        outputs: &mut O,
    ) -> Result<(), Ended>
        requires { sink < O.count outputs.old }
        ensures { WritesAll O.tally O.count outputs.old outputs.new (line_to sink self.now.state.pattern) result }
    {
        outputs.write_all(sink, self.pattern.line())
    }
}
