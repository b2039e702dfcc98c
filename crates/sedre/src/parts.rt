//! What the reader keeps of the trees and the groups that it has read.

/// What is kept of a tree.
#[derive(Clone, Copy)]
pub struct TreeExtent {
    /// How many nodes the trees up to and including this one have, or the limit where they have more.
    pub end: usize,
    /// How deep it nests, up to 601.
    pub depth: usize,
    /// How deep it nests where it is an alternative after the first, up to 601.
    pub inner: usize,
}

/// An open group: its number, and where its alternatives and the pieces of the last one begin on the stack.
#[derive(Clone, Copy)]
pub struct Mark {
    pub number: usize,
    pub alternatives: usize,
    pub pieces: usize,
}

/// A node with one part.
#[derive(Clone, Copy)]
pub enum Cover {
    Group(usize),
    Star(bool),
    Opt(bool),
}
