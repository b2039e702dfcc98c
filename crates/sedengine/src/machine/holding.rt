//! The commands `g`, `G`, `h`, `H` and `x`: the hold space (XCU sed, "Editing Commands in sed").
ghost use Rattle.std.specs.Prelude.{◌≡◌, ◌∷◌, ◌++◌, true};
ghost use Rattle.sedacts.specs.Move.{newline};
ghost use Rattle.sedengine.specs.Holding.{BecomesOrFull};
ghost use Rattle.sedacts.specs.Keeping.{FillsHold};
ghost use Rattle.sedacts.specs.Steps.{reaches};

use super::Machine;
use sedacts::Ended;

impl Machine {
    /// The command `g`: the pattern space becomes what the hold space is.
    pub(super) fn act_copy_hold(&mut self)
        requires { reaches self.old.state.tasks ≡ true }
        ensures { self.new ≡ record self.old { state = record self.old.state { pattern = self.old.state.hold } } }
    {
        match self.pattern.set(self.hold.bytes()) {
            Ok(()) => {}
            Err(_) => unreachable!(),
        }
    }

    /// The command `G`: appends a newline and the hold space to the pattern space, if there is room.
    pub(super) fn act_append_hold(&mut self) -> Result<(), Ended>
        requires { reaches self.old.state.tasks ≡ true }
        ensures { BecomesOrFull self.old (record self.old {
          state = record self.old.state {
            pattern = self.old.state.pattern ++ newline ∷ self.old.state.hold;
          };
        }) self.new result }
    {
        match self.pattern.append_line(self.hold.bytes()) {
            Ok(()) => Ok(()),
            Err(_) => Err(Ended::PatternFull(self.number)),
        }
    }

    /// The command `h`: the hold space becomes what the pattern space is.
    pub(super) fn act_hold(&mut self)
        requires { FillsHold self.old.script }
        ensures { self.new ≡ record self.old { state = record self.old.state { hold = self.old.state.pattern } } }
    {
        match self.hold.set(self.pattern.bytes()) {
            Ok(()) => {}
            Err(_) => unreachable!(),
        }
    }

    /// The command `H`: appends a newline and the pattern space to the hold space, if there is room.
    pub(super) fn act_hold_more(&mut self) -> Result<(), Ended>
        requires { FillsHold self.old.script }
        ensures { BecomesOrFull self.old (record self.old {
          state = record self.old.state {
            hold = self.old.state.hold ++ newline ∷ self.old.state.pattern;
          };
        }) self.new result }
    {
        match self.hold.append_line(self.pattern.bytes()) {
            Ok(()) => Ok(()),
            Err(_) => Err(Ended::HoldFull(self.number)),
        }
    }

    /// The command `x`: exchanges the pattern space and the hold space.
    pub(super) fn act_exchange(&mut self)
        requires at { reaches self.old.state.tasks ≡ true }
        requires holds { FillsHold self.old.script }
        ensures { self.new ≡ record self.old {
          state = record self.old.state {
            pattern = self.old.state.hold;
            hold = self.old.state.pattern;
          };
        } }
    {
        self.pattern.swap(&mut self.hold);
    }
}
