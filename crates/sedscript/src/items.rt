//! The text of a script, and the items that it is cut into before labels and blocks are looked up.
//! A name, a text or a string is kept as the places where it begins and ends.

ghost use Rattle.std.specs.Prelude.{◌≤◌};

use crate::letters::Verb;
use crate::types::{Address, Kind};
use std::alloc::Global;

/// A script's text, and how its regular expressions are read.
#[derive(Clone, Copy)]
pub struct Source<'a> {
    pub alloc: Global,
    pub text: &'a [u8],
    pub kind: Kind,
    /// The most nodes that a regular expression may have.
    pub max_nodes: usize,
    ghost nodes: { (1 ≤ max_nodes) × (max_nodes ≤ 65536) },
}

/// The addresses of a function.
#[derive(Clone, Copy)]
pub struct Addresses {
    pub first: Option<Address>,
    pub second: Option<Address>,
    pub negate: bool,
}

/// The flags of `s`: a number, if there is one; `g`, `p` and `I`; and where the name after `w` begins and ends, if
/// there is one.
#[derive(Clone, Copy)]
pub struct Flags {
    pub number: Option<u64>,
    pub global: bool,
    pub print: bool,
    /// `I`: letters match without regard to case.
    pub folded: bool,
    pub file: Option<(usize, usize)>,
}

/// Two strings between delimiters, as `s` and `y` have them. The first begins at `from` and ends at `middle`, where a
/// delimiter is; the second begins after that and ends at `to`, where the last delimiter is.
#[derive(Clone, Copy)]
pub struct Strings {
    pub delimiter: u8,
    pub from: usize,
    pub middle: usize,
    pub to: usize,
}

/// What follows a letter.
#[derive(Clone, Copy)]
pub enum Argument {
    /// Nothing, or a comment.
    Nothing,
    /// A name, or a text as it is written, between these places.
    Between(usize, usize),
    /// The strings of `y`.
    Pair(Strings),
    /// The regular expression and the replacement of `s`, the number of the expression in the script (none for the empty
    /// one), and the flags.
    FlaggedPair(Strings, Option<usize>, Flags),
}

/// A function with its addresses: the place of its letter, what that stands for, and what follows it.
#[derive(Clone, Copy)]
pub struct Item {
    pub addresses: Addresses,
    pub place: usize,
    pub verb: Verb,
    pub argument: Argument,
}

/// What is at a place: an item and the place after it, or the end.
#[derive(Clone, Copy)]
pub enum ItemOrEnd {
    Is(Item, usize),
    Ends,
}
