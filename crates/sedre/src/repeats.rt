//! Repetitions, which are written out as copies on the stack.
ghost use Rattle.std.specs.Prelude.{◌≡◌, ◌≤◌, ◌<◌, ◌+◌, ◌^◌, ◌++◌, ◌∷◌, ◌&&◌, [], ℕ, List, None, Some, OnOk, nat_eq};
ghost use Rattle.std.specs.Prelude.{vec_len};

use crate::parts::Cover;
use crate::stack::Stack;
use crate::types::Node;
use std::alloc::AllocError;

/// Whether an optional copy that contains `held` others is the outermost of `count + 1`, in a repetition where it is
/// `first`.
fn is_first(first: bool, held: usize, count: usize) -> bool
    ensures { result ≡ (first && nat_eq held count) }
{
    first && held == count
}

impl Stack {
    ghost use Rattle.sedre.specs.Tree.{Tree};
    ghost use Rattle.sedre.specs.Grammar.{with_copies, optional, repetition};
    ghost use Rattle.sedre.specs.Stacks.{StoresTrees, LastBecomes, IsInterval};

    /// Puts `count` copies of the last tree after it.
    fn copies(&mut self, count: usize) -> Result<(), AllocError>
        requires { 1 ≤ vec_len self.old.parts }
        ensures trees { OnOk result ((limit : ℕ) (ts : List Tree) (a : Tree) → StoresTrees limit self.old (ts ++ a ∷ []) →
            StoresTrees limit self.new ((ts ++ with_copies count a []) ++ a ∷ [])) }
        ensures count { OnOk result (vec_len self.new.parts ≡ vec_len self.old.parts + count) }
    {
        for _ in 0..count {
            self.copy()?;
        }
        Ok(())
    }

    /// Makes the last `count + 1` trees optional copies, each of which contains the next.
    fn nest(&mut self, count: usize, first: bool) -> Result<(), AllocError>
        requires { count + 1 ≤ vec_len self.old.parts }
        ensures trees { OnOk result ((limit : ℕ) (ts : List Tree) (a : Tree) →
            StoresTrees limit self.old ((ts ++ with_copies count a []) ++ a ∷ []) →
            StoresTrees limit self.new (ts ++ optional count a first ∷ [])) }
        ensures count { OnOk result (vec_len self.new.parts + count ≡ vec_len self.old.parts) }
    {
        self.cover(Cover::Opt(is_first(first, 0, count)))?;
        for held in 0..count {
            self.join(false)?;
            self.cover(Cover::Opt(is_first(first, held + 1, count)))?;
        }
        Ok(())
    }

    /// Repeats the last tree at least `least` times, without a limit.
    fn repeat_from(&mut self, least: u8) -> Result<(), AllocError>
        requires { 1 ≤ vec_len self.old.parts }
        ensures trees { OnOk result (LastBecomes (repetition least None) self.old self.new) }
        ensures count { OnOk result (vec_len self.new.parts ≡ vec_len self.old.parts) }
    {
        let from = self.len() - 1;
        self.copies(least as usize)?;
        self.cover(Cover::Star(least == 0))?;
        self.concatenate(from)
    }

    /// Repeats the last tree `count` times, at least once.
    fn repeat_exactly(&mut self, count: usize) -> Result<(), AllocError>
        requires some { 1 ≤ vec_len self.old.parts }
        requires once { 1 ≤ count }
        ensures trees { OnOk result (LastBecomes (repetition count (Some count)) self.old self.new) }
        ensures count { OnOk result (vec_len self.new.parts ≡ vec_len self.old.parts) }
    {
        let from = self.len() - 1;
        self.copies(count - 1)?;
        self.concatenate(from)
    }

    /// Repeats the last tree at least `least` times, and at most `least + more` times.
    fn repeat_within(&mut self, least: usize, more: usize) -> Result<(), AllocError>
        requires some { 1 ≤ vec_len self.old.parts }
        requires more { 1 ≤ more }
        requires small { least + more < 2 ^ 16 }
        ensures trees { OnOk result (LastBecomes (repetition least (Some (least + more))) self.old self.new) }
        ensures count { OnOk result (vec_len self.new.parts ≡ vec_len self.old.parts) }
    {
        let from = self.len() - 1;
        self.copies(least + more - 1)?;
        self.nest(more - 1, least == 0)?;
        self.concatenate(from)
    }

    /// Puts the null string in place of the last tree.
    fn repeat_never(&mut self) -> Result<(), AllocError>
        requires { 1 ≤ vec_len self.old.parts }
        ensures trees { OnOk result (LastBecomes (repetition 0 (Some 0)) self.old self.new) }
        ensures count { OnOk result (vec_len self.new.parts ≡ vec_len self.old.parts) }
    {
        self.drop_last();
        self.leaf(Node::Empty)
    }

    /// Repeats the last tree at least `least` times, and at most `most` times, or without a limit where that is None.
    pub fn repeat(&mut self, least: u8, most: Option<u8>) -> Result<(), AllocError>
        requires some { 1 ≤ vec_len self.old.parts }
        requires order { IsInterval least most }
        ensures trees { OnOk result (LastBecomes (repetition least most) self.old self.new) }
        ensures count { OnOk result (vec_len self.new.parts ≡ vec_len self.old.parts) }
    {
        match most {
            None => self.repeat_from(least),
            Some(0) => self.repeat_never(),
            Some(most) => {
                if most == least {
                    self.repeat_exactly(least as usize)
                } else {
                    self.repeat_within(least as usize, (most - least) as usize)
                }
            }
        }
    }
}
