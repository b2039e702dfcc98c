//! The trees that were read, written out one after another.
//!
//! The nodes of a tree are kept only if all nodes up to it stay below a limit. Of a tree that is too large, and of all
//! after it, only the depths are kept: reading goes on, since `{0}` may still take them away.
ghost use Rattle.std.specs.Prelude.{◌≡◌, ◌≤◌, ◌<◌, ◌+◌, ◌-◌, ◌++◌, ◌∷◌, [], ℕ, List, min, max, drop, map, length};
ghost use Rattle.std.specs.Prelude.{OnOk, vec_len, false};
ghost use Rattle.sedre.specs.Covers.{cover_node};

use crate::packed::Packed;
use crate::parts::{Cover, TreeExtent};
use crate::types::{Node, NodeId};
use std::alloc::{AllocError, Global};

/// The sum, or the limit where that is less.
fn sum_within(a: usize, b: usize, limit: usize) -> usize
    ensures { result ≡ min (a + b) limit }
{
    if a < limit && b < limit - a {
        a + b
    } else {
        limit
    }
}

/// One level deeper, up to 601.
fn deeper(a: usize) -> usize
    ensures { result ≡ min 600 a + 1 }
{
    if a < 600 { a + 1 } else { 601 }
}

/// The root of a tree whose nodes end at `end`.
fn root_at(end: usize) -> NodeId
    ensures { result.index ≡ end - 1 }
{
    NodeId {
        index: end.saturating_sub(1),
    }
}

/// The node with this part.
fn cover_node(cover: Cover, part: NodeId) -> Node
    ensures { result ≡ cover_node cover part }
{
    match cover {
        Cover::Group(number) => Node::Group(number, part),
        Cover::Star(first) => Node::Star(part, first),
        Cover::Opt(first) => Node::Opt(part, first),
    }
}

/// A stack of trees.
#[derive(Drop)]
pub struct Stack {
    /// One more than the most nodes that are kept.
    pub limit: usize,
    pub nodes: Packed,
    pub parts: Vec<TreeExtent>,
}

impl Stack {
    ghost use Rattle.sedre.specs.Tree.{Tree, size};
    ghost use Rattle.sedre.specs.Grammar.{depth, concatenation};
    ghost use Rattle.sedre.specs.Packed.{shifted};
    ghost use Rattle.sedre.specs.Stacks.{StoresTrees, LastBecomes, JoinsTrees, IsLeaf, PutsTree, last_end, pair, chain, covered};

    /// No trees.
    pub fn new(alloc: Global, limit: usize) -> Self
        ensures { StoresTrees limit result [] }
    {
        Stack {
            limit,
            nodes: Packed::new(alloc),
            parts: Vec::new(alloc),
        }
    }

    /// How many trees there are.
    pub fn len(&self) -> usize
        ensures { result ≡ vec_len self.now.parts }
    {
        self.parts.len()
    }

    /// Where the nodes of the last tree end, up to the limit.
    fn end(&self) -> usize
        ensures { result ≡ last_end self.now.parts.items }
    {
        match self.parts.last() {
            Some(part) => part.end,
            None => 0,
        }
    }

    /// Puts a tree on the stack whose root is this node. The nodes of its parts are the last ones, and end at `end`.
    fn put(&mut self, node: Node, end: usize, depth: usize, inner: usize) -> Result<(), AllocError>
        ensures put { OnOk result
            (PutsTree self.old.limit self.old.nodes self.old.parts.items self.new node end depth inner) }
        ensures count { OnOk result (vec_len self.new.parts ≡ vec_len self.old.parts + 1) }
    {
        let end = sum_within(end, 1, self.limit);
        if end < self.limit {
            self.nodes.push(node)?;
        } else {
            let base = self.end();
            self.nodes.truncate(base);
        }
        self.parts.push(TreeExtent { end, depth, inner })?;
        Ok(())
    }

    /// Puts a tree without parts on the stack.
    pub fn leaf(&mut self, node: Node) -> Result<(), AllocError>
        ensures trees { OnOk result ((limit : ℕ) (ts : List Tree) (t : Tree) →
            IsLeaf node t → StoresTrees limit self.old ts → StoresTrees limit self.new (ts ++ t ∷ [])) }
        ensures count { OnOk result (vec_len self.new.parts ≡ vec_len self.old.parts + 1) }
    {
        let end = self.end();
        self.put(node, end, 0, 0)
    }

    /// Makes the last two trees one: an alternation of `alternatives`, or a concatenation.
    pub fn join(&mut self, alternatives: bool) -> Result<(), AllocError>
        requires { 2 ≤ vec_len self.old.parts }
        ensures trees { OnOk result ((limit : ℕ) (ts : List Tree) (a b : Tree) →
            StoresTrees limit self.old (ts ++ a ∷ b ∷ []) → StoresTrees limit self.new (ts ++ pair alternatives a b ∷ [])) }
        ensures count { OnOk result (vec_len self.new.parts + 1 ≡ vec_len self.old.parts) }
    {
        let right = self.parts.pop().unwrap();
        let left = self.parts.pop().unwrap();
        let (first, second) = (root_at(left.end), root_at(right.end));
        if alternatives {
            let depth = left.depth.max(right.inner);
            self.put(Node::Alt(first, second), right.end, deeper(depth), depth)
        } else {
            let depth = left.depth.max(right.depth);
            self.put(Node::Seq(first, second), right.end, depth, depth)
        }
    }

    /// Puts a node above the last tree.
    pub fn cover(&mut self, cover: Cover) -> Result<(), AllocError>
        requires { 1 ≤ vec_len self.old.parts }
        ensures trees { OnOk result (LastBecomes (covered cover) self.old self.new) }
        ensures count { OnOk result (vec_len self.new.parts ≡ vec_len self.old.parts) }
    {
        let part = self.parts.pop().unwrap();
        let depth = deeper(part.depth);
        self.put(cover_node(cover, root_at(part.end)), part.end, depth, depth)
    }

    /// Adds a copy of the last `count` nodes, if the nodes then end, at `end`, below the limit.
    fn copy_nodes(&mut self, count: usize, end: usize) -> Result<(), AllocError>
        ensures limit { self.new.limit ≡ self.old.limit }
        ensures parts { self.new.parts ≡ self.old.parts }
        ensures kept { OnOk result (end < self.old.limit → count ≤ length self.old.nodes →
            self.new.nodes ≡
            self.old.nodes ++ map (shifted count) (drop (length self.old.nodes - count) self.old.nodes)) }
        ensures over { OnOk result (self.old.limit ≤ end → self.new.nodes ≡ self.old.nodes) }
    {
        if end < self.limit {
            self.nodes.copy_last(count)?;
        }
        Ok(())
    }

    /// Puts a copy of the last tree after it.
    pub fn copy(&mut self) -> Result<(), AllocError>
        requires { 1 ≤ vec_len self.old.parts }
        ensures trees { OnOk result ((limit : ℕ) (ts : List Tree) (a : Tree) → StoresTrees limit self.old (ts ++ a ∷ []) →
            StoresTrees limit self.new ((ts ++ a ∷ []) ++ a ∷ [])) }
        ensures count { OnOk result (vec_len self.new.parts ≡ vec_len self.old.parts + 1) }
    {
        let part = self.parts.pop().unwrap();
        let size = part.end.saturating_sub(self.end());
        let end = sum_within(part.end, size, self.limit);
        self.copy_nodes(size, end)?;
        self.parts.push(part)?;
        self.parts.push(TreeExtent {
            end,
            depth: part.depth,
            inner: part.inner,
        })?;
        Ok(())
    }

    /// Takes the last tree away.
    pub fn drop_last(&mut self)
        requires { 1 ≤ vec_len self.old.parts }
        ensures trees { (limit : ℕ) (ts : List Tree) (a : Tree) → StoresTrees limit self.old (ts ++ a ∷ []) →
            StoresTrees limit self.new ts }
        ensures count { vec_len self.new.parts + 1 ≡ vec_len self.old.parts }
    {
        self.parts.pop();
        let base = self.end();
        self.nodes.truncate(base);
    }

    /// Makes the trees from number `from` on one, an alternation or a concatenation. There is at least one of them.
    pub fn join_all(&mut self, from: usize, alternatives: bool) -> Result<(), AllocError>
        requires { from < vec_len self.old.parts }
        ensures trees { OnOk result (JoinsTrees from (chain alternatives) self.old self.new) }
        ensures count { OnOk result (vec_len self.new.parts ≡ from + 1) }
    {
        while self.parts.len() > from + 1 {
            self.join(alternatives)?;
        }
        Ok(())
    }

    /// Makes the trees from number `from` on one concatenation.
    pub fn concatenate(&mut self, from: usize) -> Result<(), AllocError>
        requires { from ≤ vec_len self.old.parts }
        ensures trees { OnOk result (JoinsTrees from concatenation self.old self.new) }
        ensures count { OnOk result (vec_len self.new.parts ≡ from + 1) }
    {
        if self.parts.len() == from {
            self.leaf(Node::Empty)
        } else {
            self.join_all(from, false)
        }
    }
}
