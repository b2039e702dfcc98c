//! The room that searches work in, made once.
ghost use Rattle.std.specs.Prelude.{◌≡◌, ◌^◌, ◌≤◌, IfOk};

use crate::passes::REVERSE_ANY;
use sedpass::groups::{GroupRoom, Tables};
use sedpass::nodes::Analysis;
use sedpass::table::Table;
use sedpass::width::width_for;
use std::alloc::{AllocError, Global};
use std::marker::Model;

/// Where passes are made: the room for them, and tables that serve each expression that has none of its own.
#[derive(Drop)]
pub struct Desk {
    /// The room.
    pub room: GroupRoom,
    /// The table of passes from the text's end.
    pub reverse_any: Table,
    /// All other tables.
    pub shared: Tables,
    /// How many bytes a text has at most,
    pub max_text: usize,
    /// and how many nodes an expression.
    pub max_nodes: usize,
}

/// The room for searches in texts, and for the groups of what they find: they take no other memory.
#[derive(Drop)]
pub struct Scratch {
    /// Where passes are made.
    pub(crate) desk: Desk,
    /// Room for what is found out of an expression that is used once.
    pub(crate) analysis: Analysis,
}

impl Model for Scratch {
    ghost use Rattle.sedtext.specs.SearchRoom.{SearchRoom};

    ghost Value = { SearchRoom };

    ghost use Rattle.sedmatch.specs.Passes.{IsDesk};
    ghost use Rattle.sedpass.specs.Prepared.{HasNodeRoom};

    ghost view = { λ s. record { text = s.desk.max_text; nodes = s.desk.max_nodes } };

    ghost invariant = { λ s. IsDesk s.desk × HasNodeRoom s.desk.max_nodes s.analysis };
}

impl Scratch {
    /// Room for texts of at most `max_text` bytes, which is 2^30 or less, and expressions of at most `max_nodes` nodes,
    /// from 1 to 65,536. Fails only where a request for memory was refused.
    pub fn new(alloc: Global, max_text: usize, max_nodes: usize) -> Result<Scratch, AllocError>
        requires text { max_text ≤ 2 ^ 30 }
        requires some_node { 1 ≤ max_nodes }
        requires nodes { max_nodes ≤ 65536 }
        ensures { IfOk result (λ s. (s.text ≡ max_text) × (s.nodes ≡ max_nodes)) }
    {
        let block = width_for(max_text);
        let analysis = Analysis::with_room(alloc, max_nodes)?;
        let desk = Desk {
            room: GroupRoom::new(alloc, max_text, max_text / block + 1, max_nodes)?,
            reverse_any: Table::with_room(alloc, REVERSE_ANY, block + 1, max_nodes)?,
            shared: Tables::with_room(alloc, block + 1, max_nodes)?,
            max_text,
            max_nodes,
        };
        Ok(Scratch { desk, analysis })
    }

    /// Lets the room go, as `TableMatcher::close` does a matcher.
    pub fn close(self) {
        drop(self);
    }
}
