//! The trees that were read so far, and the groups that are open.
ghost use Rattle.std.specs.Prelude.{◌≡◌, ◌≤◌, ◌<◌, ◌+◌, [], ◌∷◌, ℕ, OnOk, vec_len};

use crate::parts::{Cover, Mark};
use crate::stack::Stack;
use crate::syntax::Token;
use crate::types::Node;
use std::alloc::{AllocError, Global};

/// The trees read so far, and the groups that are open.
#[derive(Drop)]
pub struct Builder {
    pub stack: Stack,
    pub opened: usize,
    pub top: Mark,
    pub below: Vec<Mark>,
}

impl Builder {
    ghost use Rattle.sedre.specs.Tree.{Tree};
    ghost use Rattle.sedre.specs.Stacks.{Represents, Nesting, TakesToken, no_nesting, CanTake, StoresTrees, IsLeaf, with_piece, whole_level};
    ghost use Rattle.sedre.specs.Stacks.{IsInterval};

    /// A builder to which nothing was added. The limit is one more than the nodes allowed.
    pub fn new(alloc: Global, limit: usize) -> Self
        ensures { Represents limit result no_nesting }
    {
        Builder {
            stack: Stack::new(alloc, limit),
            opened: 0,
            top: Mark {
                number: 0,
                alternatives: 0,
                pieces: 0,
            },
            below: Vec::new(alloc),
        }
    }

    /// Adds a piece without parts. What the stack promises of its trees is here made a promise on the groups that are open,
    /// once for the three tokens that are such pieces.
    fn leaf(&mut self, node: Node) -> Result<(), AllocError>
        ensures state { OnOk result ((limit : ℕ) (s : Nesting) (t : Tree) → IsLeaf node t → Represents limit self.old s →
            Represents limit self.new (record { opened = s.opened; top = with_piece t s.top; below = s.below })) }
        ensures opened { OnOk result (self.new.opened ≤ self.old.opened + 1) }
    {
        self.stack.leaf(node)
    }

    /// Opens a group.
    fn open(&mut self) -> Result<(), AllocError>
        requires { self.old.opened < usize.MAX }
        ensures state { OnOk result (TakesToken Token.Open self.old self.new) }
        ensures opened { OnOk result (self.new.opened ≤ self.old.opened + 1) }
    {
        self.below.push(self.top)?;
        self.opened += 1;
        self.top = Mark {
            number: self.opened,
            alternatives: self.stack.len(),
            pieces: self.stack.len(),
        };
        Ok(())
    }

    /// Ends an alternative and begins the next.
    fn bar(&mut self) -> Result<(), AllocError>
        requires { self.old.top.pieces ≤ vec_len self.old.stack.parts }
        ensures state { OnOk result (TakesToken Token.Bar self.old self.new) }
        ensures opened { OnOk result (self.new.opened ≤ self.old.opened + 1) }
    {
        self.stack.concatenate(self.top.pieces)?;
        self.top.pieces = self.stack.len();
        Ok(())
    }

    /// Closes the innermost open group.
    fn close(&mut self) -> Result<(), AllocError>
        requires pieces { self.old.top.pieces ≤ vec_len self.old.stack.parts }
        requires alternatives { self.old.top.alternatives ≤ self.old.top.pieces }
        requires opened { 0 < vec_len self.old.below }
        ensures state { OnOk result (TakesToken Token.Close self.old self.new) }
        ensures opened { OnOk result (self.new.opened ≤ self.old.opened + 1) }
    {
        self.stack.concatenate(self.top.pieces)?;
        self.stack.join_all(self.top.alternatives, true)?;
        self.stack.cover(Cover::Group(self.top.number))?;
        self.top = self.below.pop().unwrap();
        Ok(())
    }

    /// Repeats the last piece. Apart from `take`, which is a table of calls that all promise the same of their token.
    fn repeat(&mut self, least: u8, most: Option<u8>) -> Result<(), AllocError>
        requires some { 1 ≤ vec_len self.old.stack.parts }
        requires order { IsInterval least most }
        ensures state { OnOk result (TakesToken (Token.Repeat least most) self.old self.new) }
        ensures opened { OnOk result (self.new.opened ≤ self.old.opened + 1) }
    {
        self.stack.repeat(least, most)
    }

    /// Adds one more token.
    pub fn take(&mut self, token: Token) -> Result<(), AllocError>
        requires some { (limit : ℕ) × (s : Nesting) × Represents limit self.old s × CanTake token s }
        requires room { self.old.opened < usize.MAX }
        ensures state { OnOk result (TakesToken token self.old self.new) }
        ensures opened { OnOk result (self.new.opened ≤ self.old.opened + 1) }
    {
        match token {
            Token::Byte(set) => self.leaf(Node::Set(set)),
            Token::Open => self.open(),
            Token::Close => self.close(),
            Token::Bar => self.bar(),
            Token::Repeat(least, most) => self.repeat(least, most),
            Token::AtBegin => self.leaf(Node::Begin),
            Token::AtEnd => self.leaf(Node::End),
        }
    }

    /// Joins what was read into one tree.
    pub fn join(&mut self) -> Result<(), AllocError>
        requires { (limit : ℕ) × (s : Nesting) × Represents limit self.old s × (s.below ≡ []) }
        ensures { OnOk result ((limit : ℕ) (s : Nesting) → Represents limit self.old s → s.below ≡ [] →
            StoresTrees limit self.new.stack (whole_level s.top ∷ []) × (self.new.opened ≡ s.opened)) }
    {
        self.stack.concatenate(self.top.pieces)?;
        self.stack.join_all(0, true)
    }
}
