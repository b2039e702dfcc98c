//! The parts of a machine as they are made, each in a call of its own: a refused request drops all that was made before it,
//! so the proof of one call for all of them would be long.
ghost use Rattle.std.specs.Prelude.{◌≡◌, ◌<◌, ◌≤◌, IfOk, length};
ghost use Rattle.sedacts.specs.Fitting.{AllFit, Seek};
ghost use Rattle.sedacts.specs.Parts.{AreEngineParts, AreSeekers, IsStore};

use crate::idle::{Idle, idle_of};
use crate::limits::Limits;
use crate::matchers::{matchers_of, room_to_search, room_to_seek};
use crate::needs::{build_room, hold_room};
use sedmatch::{Occurrences, Scratch, TableMatcher};
use sedscript::Script;
use sedspace::{Queue, Space};
use std::alloc::{AllocError, Global};

/// All that a machine holds besides its script.
#[derive(Drop)]
pub struct Parts {
    /// For each command, whether its range is active.
    pub ranges: Vec<bool>,
    /// What is needed of a line that no command touches, where that is known.
    pub idle: Option<Idle>,
    /// The spaces and the queue.
    pub store: Store,
    /// What seeks the expressions of the script.
    pub seekers: Seekers,
}

impl Parts {
    /// The parts at the start of a run of this script.
    pub fn new(alloc: Global, script: &Script, limits: &Limits) -> Result<Parts, AllocError>
        requires { script.now.max_nodes ≤ limits.now.nodes }
        ensures { IfOk result (AreEngineParts script.now limits.now) }
    {
        Ok(Parts {
            ranges: vec![in alloc; false; script.len()]?,
            idle: idle_of(alloc, script)?,
            store: Store::new(alloc, script, limits)?,
            seekers: Seekers::new(alloc, script, limits)?,
        })
    }
}

/// The spaces and the queue of an engine.
#[derive(Drop)]
pub struct Store {
    /// The pattern space.
    pub pattern: Space,
    /// The hold space.
    pub hold: Space,
    /// The build space, in which a substitution makes its text.
    pub build: Space,
    /// The queue, of numbers of commands.
    pub queue: Queue,
}

impl Store {
    /// Empty ones, whose room is reserved here: as much as the script needs.
    fn new(alloc: Global, script: &Script, limits: &Limits) -> Result<Store, AllocError>
        ensures { IfOk result (IsStore script.now limits.now) }
    {
        Ok(Store {
            pattern: Space::new(alloc, limits.space())?,
            hold: Space::new(alloc, hold_room(script, limits))?,
            build: Space::new(alloc, build_room(script, limits))?,
            queue: Queue::new(alloc, limits.queue())?,
        })
    }
}

/// What seeks the expressions of the script, with the room for it.
#[derive(Drop)]
pub struct Seekers {
    /// For each regular expression, what seeks it.
    pub matchers: Vec<TableMatcher>,
    /// Room for their searches.
    pub scratch: Scratch,
    /// How far a substitution has searched.
    pub seeking: Occurrences,
}

impl Seekers {
    /// For each expression of the script a matcher, which has found out nothing yet.
    fn new(alloc: Global, script: &Script, limits: &Limits) -> Result<Seekers, AllocError>
        requires { script.now.max_nodes ≤ limits.now.nodes }
        ensures { IfOk result (AreSeekers script.now limits.now) }
    {
        let matchers = matchers_of(alloc, script, limits.nodes())?;
        match room_to_search(alloc, script, &matchers, limits) {
            Ok(scratch) => Seekers::of(alloc, script, limits, matchers, scratch),
            Err(refused) => {
                TableMatcher::close_all(matchers);
                Err(refused)
            }
        }
    }

    /// These matchers and the room to search for them, with room to seek occurrences.
    fn of(
        alloc: Global,
        script: &Script,
        limits: &Limits,
        matchers: Vec<TableMatcher>,
        scratch: Scratch,
    ) -> Result<Seekers, AllocError>
        requires seek { Seek script.now.expressions limits.now.nodes matchers.items }
        requires text { 0 < length script.now.expressions → scratch.text ≡ limits.now.space }
        requires nodes { AllFit scratch.nodes matchers.items }
        ensures { IfOk result (AreSeekers script.now limits.now) }
    {
        match room_to_seek(alloc, script, &matchers, limits) {
            Ok(seeking) => Ok(Seekers {
                matchers,
                scratch,
                seeking,
            }),
            Err(refused) => {
                TableMatcher::close_all(matchers);
                scratch.close();
                Err(refused)
            }
        }
    }
}
