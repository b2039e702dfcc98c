//! Scripts of sed (POSIX.1-2024, XCU sed): a text is read into its commands, or its first fault is named.
#![tactic(auto)]

mod addresses;
mod between;
mod bytes;
mod commands;
mod expressions;
mod files;
mod flags;
mod functions;
mod item_reader;
mod items;
pub mod laws;
mod letters;
mod packed;
mod reader;
mod replacement;
mod script;
mod script_text;
mod strings;
mod substitution;
mod targets;
mod texts;
mod transliteration;
pub mod types;

pub use reader::read;
pub use script::Script;
pub use script_text::add_part;
pub use substitution::{Piece, Replacement, ReplacementPart, Substitution};
pub use types::{Action, Address, Command, ExprFault, Kind, NO_MEMORY, Reason, ScriptFault};
