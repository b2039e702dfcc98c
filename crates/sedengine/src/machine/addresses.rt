//! The addresses of a command (XCU sed, "Addresses in sed").
//!
//! Only the address that decides is judged: the source is asked for a further line by `$` alone, and an expression is
//! the one last used only where it was tried.
ghost use Rattle.std.specs.Prelude.{◌≡◌, ◌<◌, Some, length, slice_set};
ghost use Rattle.sedscript.specs.Ranges.{AddressWithin, CommandWithin};
ghost use Rattle.sedscript.specs.declared.types.Address.TheVariants.{Match};
ghost use Rattle.sedengine.specs.Judging.{JudgesCommand, JudgesDeciding, SeeksMatch, reached_with};
ghost use Rattle.sedacts.specs.Choose.{deciding, is_active};

use super::Machine;
use crate::next_step::NextStep;
use sedacts::Ended;
use sedacts::bringing::is_last;
use sedacts::select::{Chosen, choose, deciding, finds, yes_by_number};
use sedscript::{Address, Command};
use sedspace::{ByteSource, Lines};

impl Machine {
    /// Whether the pattern space has a match of an expression, or of the one last used where none is named. It is then
    /// the one last used.
    fn finds(&mut self, named: Option<usize>) -> Result<bool, Ended>
        requires { AddressWithin (length self.old.script.expressions) (Some (Match named)) }
        ensures { SeeksMatch named self.old self.new result }
    {
        match named.or(self.used) {
            None => Err(Ended::NoPrevious(self.number)),
            Some(k) => {
                self.used = Some(k);
                Ok(finds(&mut self.matchers, k, &self.pattern, &mut self.scratch))
            }
        }
    }

    /// Whether the pattern space matches an address.
    fn matches<R: ByteSource>(
        &mut self,
        address: Address,
        lines: &mut Lines<R>,
    ) -> Result<bool, Ended>
        requires { AddressWithin (length self.old.script.expressions) (Some address) }
        ensures { JudgesDeciding R.remaining R.failures R.reference (Some address) self.old self.new
            lines.old lines.new result }
    {
        match address {
            Address::Line(line) => Ok(line == self.number),
            Address::Last => is_last(lines),
            Address::Match(named) => self.finds(named),
        }
    }

    /// Whether the address that decides matches; yes where none decides.
    fn decide<R: ByteSource>(
        &mut self,
        command: &Command,
        active: bool,
        lines: &mut Lines<R>,
    ) -> Result<bool, Ended>
        requires first { AddressWithin (length self.old.script.expressions) command.now.first }
        requires second { AddressWithin (length self.old.script.expressions) command.now.second }
        ensures { JudgesDeciding R.remaining R.failures R.reference
            (deciding command.now.first command.now.second active self.old.state.number) self.old self.new
            lines.old lines.new result }
    {
        match deciding(command, active, self.number) {
            None => Ok(true),
            Some(address) => self.matches(address, lines),
        }
    }

    /// Whether the range of command `k` is active.
    fn is_active(&self, k: usize) -> bool
        requires { k < length self.now.script.commands }
        ensures { result ≡ is_active self.now.state k }
    {
        self.ranges[k]
    }

    /// Reaches command `k`: notes whether its range is active, takes the turn, and goes on after the command.
    fn take_turn(&mut self, k: usize, active: bool)
        requires there { k < length self.old.script.commands }
        requires turn { self.old.state.turns < self.old.limits.turns }
        ensures { self.new ≡ reached_with self.old k (slice_set self.old.state.ranges k active) self.old.state.used }
    {
        self.turns_fit();
        self.ranges[k] = active;
        self.turns += 1;
        self.next_step = NextStep::Do(k + 1);
    }

    /// Judges the addresses of command `k`, and reaches it.
    pub(super) fn judge<R: ByteSource>(
        &mut self,
        k: usize,
        command: &Command,
        lines: &mut Lines<R>,
    ) -> Result<Chosen, Ended>
        requires there { k < length self.old.script.commands }
        requires within { CommandWithin self.old.script command.now }
        requires turn { self.old.state.turns < self.old.limits.turns }
        ensures { JudgesCommand R.remaining R.failures R.reference k command.now self.old self.new
            lines.old lines.new result }
    {
        let active = self.is_active(k);
        if let Some(yes) = yes_by_number(command, self.number) {
            self.take_turn(k, active);
            return Ok(Chosen {
                yes,
                end: false,
                active,
            });
        }
        let matched = self.decide(command, active, lines)?;
        let choice = choose(command, active, self.number, matched);
        self.take_turn(k, choice.active);
        Ok(choice)
    }
}
