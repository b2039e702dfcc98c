//! Laws of famous scripts, each for every input: what a script writes, in words of lines, lists and numbers, from the bytes
//! of both. The calls of `laws` do nothing; that of `reversing` edits.
#![tactic(auto)]

pub mod laws;
pub mod reversing;
