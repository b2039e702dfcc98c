//! The machine that makes the moves of a run: its parts, and what it holds.
ghost use Rattle.std.specs.Prelude.{◌≡◌, ◌≤◌, [], None, IfOk, length};
ghost use Rattle.sedacts.specs.Move.{start};
ghost use Rattle.sedacts.specs.Held.{total_of, bound_of};
ghost use Rattle.sedacts.specs.Parts.{AreEngineParts};

mod addresses;
pub(crate) mod commands;
mod deleting;
mod holding;
mod known;
mod moves;
mod next;
mod passing;
mod queueing;
mod replacing;
mod tasks;

use crate::next_step::NextStep;
use sedacts::idle::Idle;
use sedacts::parts::Parts;
use sedacts::patience::Patience;
use sedacts::substitute::Findings;
use sedacts::{Held, Limits};
use sedmatch::{Occurrences, Scratch, TableMatcher};
use sedscript::Script;
use sedspace::{Queue, Space};
use std::alloc::{AllocError, Global};
use std::marker::Model;

/// The editor without its counts of what sinks have gained, and without its end: contracts see it as a `RunState` that has
/// none.
#[derive(Drop)]
pub(crate) struct Machine {
    script: Script,
    limits: Limits,
    pattern: Space,
    hold: Space,
    build: Space,
    queue: Queue,
    scratch: Scratch,
    // How far a substitution has searched.
    seeking: Occurrences,
    // What it found.
    findings: Findings,
    // For each regular expression of the script, what seeks it.
    matchers: Vec<TableMatcher>,
    // For each command, whether its range is active.
    ranges: Vec<bool>,
    // What is needed of a line that no command touches, where that is known,
    idle: Option<Idle>,
    // and when such lines are sought.
    patience: Patience,
    // The number of the regular expression last used.
    used: Option<usize>,
    // Whether a substitution was made, as the command `t` sees it.
    replaced: bool,
    number: u64,
    next_step: NextStep,
    turns: u64,
}

impl Model for Machine {
    ghost use Rattle.sedacts.specs.Run.{RunState};
    ghost use Rattle.sedengine.specs.Inside.{run_state_of, IsConsistent};

    ghost Value = { RunState };

    ghost view = { run_state_of };

    ghost invariant = { IsConsistent };
}

impl Machine {
    /// A machine at the start of a run, with the spaces and all else that its run takes.
    pub(crate) fn open(alloc: Global, script: Script, limits: Limits) -> Result<Machine, AllocError>
        requires { script.max_nodes ≤ limits.nodes }
        ensures { IfOk result (λ e. e ≡ record {
          script = script;
          limits = limits;
          state = start script.commands [];
          sent = [];
          ended = None;
        }) }
    {
        match Parts::new(alloc, &script, &limits) {
            Ok(parts) => Ok(Machine::of(script, limits, parts)),
            Err(refused) => {
                script.close();
                Err(refused)
            }
        }
    }

    /// The same machine of parts that were made for it. Apart from `open`, so that its invariant is proved where no request can
    /// be refused.
    fn of(script: Script, limits: Limits, parts: Parts) -> Machine
        requires nodes { script.max_nodes ≤ limits.nodes }
        requires parts { AreEngineParts script limits parts }
        ensures { result ≡ record {
          script = script;
          limits = limits;
          state = start script.commands [];
          sent = [];
          ended = None;
        } }
    {
        let Parts {
            ranges,
            idle,
            store,
            seekers,
        } = parts;
        Machine {
            script,
            limits,
            pattern: store.pattern,
            hold: store.hold,
            build: store.build,
            queue: store.queue,
            scratch: seekers.scratch,
            seeking: seekers.seeking,
            findings: Findings::new(),
            matchers: seekers.matchers,
            ranges,
            idle,
            patience: Patience::new(),
            used: None,
            replaced: false,
            number: 0,
            turns: 0,
            next_step: NextStep::Begin,
        }
    }

    /// What the machine holds. The read-ahead counts with its whole room.
    pub(crate) fn held(&self) -> Held
        ensures pattern { result.pattern ≡ length self.now.state.pattern }
        ensures hold { result.hold ≡ length self.now.state.hold }
        ensures build { result.build ≤ self.now.limits.space }
        ensures look { result.look ≡ self.now.limits.look }
        ensures queue { result.queue ≡ length self.now.state.queue }
        ensures bound { total_of result ≤ bound_of self.now.limits }
    {
        Held {
            pattern: self.pattern.len(),
            hold: self.hold.len(),
            build: self.build.len(),
            look: self.limits.look(),
            queue: self.queue.len(),
        }
    }

    /// Lets the machine go, and the script by its own call, which is proved in its crate.
    pub(crate) fn close(self) {
        let Machine {
            script,
            pattern,
            hold,
            build,
            queue,
            scratch,
            seeking,
            matchers,
            ranges,
            idle,
            ..
        } = self;
        script.close();
        drop(pattern);
        drop(hold);
        drop(build);
        drop(queue);
        scratch.close();
        seeking.close();
        TableMatcher::close_all(matchers);
        drop(ranges);
        drop(idle);
    }
}
