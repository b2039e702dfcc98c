//! Expressions as callers see them: nodes, each after its parts.
ghost use Rattle.std.specs.Prelude.{◌≡◌, ◌<◌, ◌≤◌, ◌+◌, ℕ, Bool, List, Some, IfOk, length, slice_get};
ghost use Rattle.sedre.specs.declared.types.Node.TheVariants.{Set};
ghost use Rattle.sedre.specs.Arena.{IsArena, IsExpr};
ghost use Rattle.sedre.specs.Tree.{WrittenExpression};
ghost use Rattle.sedre.specs.Steps.{TakesExactly};

use crate::byte_set::ByteSet;
use crate::packed::Packed;
use crate::steps::Steps;
use crate::types::{Node, NodeId};
use std::alloc::{AllocError, Global};
use std::marker::Model;

/// An expression whose intervals are written out as copies. A node has a greater index than its parts. The last node is
/// the whole expression, and each other one is a part of exactly one node, once.
#[derive(Drop)]
pub struct Expr {
    nodes: Packed,
    groups: usize,
}

impl Model for Expr {
    ghost use Rattle.sedre.specs.Arena.{IsExpr};
    ghost use Rattle.sedre.specs.Tree.{WrittenExpression};

    ghost Value = { WrittenExpression };

    ghost view = { λ e. record { nodes = e.nodes; groups = e.groups } };

    ghost invariant = { λ e. IsExpr e.nodes e.groups };
}

impl Expr {
    /// The expression of these nodes.
    pub(crate) fn of(nodes: Packed, groups: usize) -> Self
        requires { IsExpr nodes groups }
        ensures { result ≡ record { nodes = nodes; groups = groups } }
    {
        Expr { nodes, groups }
    }

    /// A copy of the expression. It fails only where a request for memory was refused.
    pub fn copy(&self, alloc: Global) -> Result<Expr, AllocError>
        ensures { IfOk result (λ e. e ≡ self.now) }
    {
        Ok(Expr {
            nodes: self.nodes.copy(alloc)?,
            groups: self.groups,
        })
    }

    /// How many nodes it has, with its intervals written out.
    pub fn nodes(&self) -> usize
        ensures value { result ≡ length self.now.nodes }
        ensures arena { IsArena self.now.nodes }
        ensures few { length self.now.nodes ≤ 65536 }
    {
        self.nodes.len()
    }

    /// The sets of its nodes, with no more of them than the text that was read has.
    pub fn sets(&self) -> &[ByteSet]
        ensures { (x : ℕ) (members : List Bool) → slice_get self.now.nodes x ≡ Some (Set members) →
            (k : ℕ) × (slice_get result.now k ≡ Some members) }
    {
        self.nodes.sets()
    }

    /// How many groups the text that was read has.
    pub fn groups(&self) -> usize
        ensures value { result ≡ self.now.groups }
        ensures expr { IsExpr self.now.nodes self.now.groups }
    {
        self.groups
    }

    /// The id of the node that is the whole expression.
    pub fn root(&self) -> NodeId
        ensures last { result.index + 1 ≡ length self.now.nodes }
        ensures arena { IsArena self.now.nodes }
        ensures few { length self.now.nodes ≤ 65536 }
    {
        NodeId {
            index: self.nodes.len() - 1,
        }
    }

    /// The id of the node at an index. Condition: the index is below `nodes()`.
    pub fn id(&self, index: usize) -> NodeId
        requires { index < length self.now.nodes }
        ensures { result.index ≡ index }
    {
        NodeId { index }
    }

    /// The node of an id. This counts one step. Condition: the id's index is below `nodes()`.
    pub fn look(&self, id: NodeId, steps: &mut Steps) -> Node
        requires inside { id.index < length self.now.nodes }
        ensures node { slice_get self.now.nodes id.index ≡ Some result }
        ensures cost { TakesExactly steps.old steps.new 1 }
        ensures arena { IsArena self.now.nodes }
        ensures few { length self.now.nodes ≤ 65536 }
    {
        steps.add(1);
        self.nodes.get(id.index)
    }
}
