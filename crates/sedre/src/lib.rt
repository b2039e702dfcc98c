//! Regular expressions of both POSIX kinds (XBD 9.3, 9.4), read from bytes and written out as nodes.
//!
//! [`read`] and [`read_folded`] go once over the text. Their work grows with the length of the text times `max_nodes`,
//! their memory with the sum of the two; they use no recursion. [`delimited`] finds where an expression ends in a
//! script.
#![tactic(auto)]

mod brackets;
mod builder;
mod byte_set;
mod class;
mod delimiter;
mod elements;
mod intervals;
pub mod laws;
mod packed;
mod parts;
mod reader;
mod repeats;
mod stack;
mod steps;
mod symbols;
mod syntax;
mod table;
mod tokens;
mod types;

pub use byte_set::ByteSet;
pub use delimiter::delimited;
pub use reader::{read, read_folded};
pub use steps::Steps;
pub use table::Expr;
pub use types::{ExprFault, ExprReason, Kind, NO_MEMORY, Node, NodeId};
