//! The nodes of an expression as a table: a shape and two numbers for each node, and each set once.
ghost use Rattle.std.specs.Prelude.{◌≡◌, ◌≤◌, ◌<◌, ◌+◌, ◌-◌, ◌++◌, ◌∷◌, [], List, Bool, Some, IfOk, IfSome, OnOk};
ghost use Rattle.std.specs.Prelude.{ℕ, length, map, take, drop, slice_get, vec_len};
ghost use Rattle.sedre.specs.Packed.{node_at, nodes_from, NodeFits, FitFrom, entry_of, HasNumber};
ghost use Rattle.sedre.specs.Packed.{AddsSets, PartsBelow, number_of_set, shifted};
ghost use Rattle.std.specs.Prelude.{option_map, true};
ghost use Rattle.sedre.specs.declared.types.Node.TheVariants.{Set};

use crate::byte_set::ByteSet;
use crate::types::{Node, NodeId};
use std::alloc::{AllocError, Global};
use std::collections::BTreeMap;
use std::marker::Model;

/// The kind of a node, with its mark.
#[derive(Clone, Copy)]
pub enum Shape {
    Empty,
    Set,
    Begin,
    End,
    Seq,
    Alt,
    Group,
    Star(bool),
    Opt(bool),
}

/// What is kept of a node: for a set its number, for a group its number, and for a part how many places it is
/// before the node. So a copy of some nodes is a copy of their entries.
#[derive(Clone, Copy)]
pub struct PackedNode {
    pub shape: Shape,
    pub left: usize,
    pub right: usize,
}

/// What is kept of a node at the index `at`. `number` is that of its set, if it is one.
fn entry_of(at: usize, number: usize, node: Node) -> PackedNode
    ensures { result ≡ entry_of at number node }
{
    let (shape, left, right) = match node {
        Node::Empty => (Shape::Empty, 0, 0),
        Node::Set(_) => (Shape::Set, number, 0),
        Node::Begin => (Shape::Begin, 0, 0),
        Node::End => (Shape::End, 0, 0),
        Node::Seq(a, b) => (
            Shape::Seq,
            at.saturating_sub(a.index),
            at.saturating_sub(b.index),
        ),
        Node::Alt(a, b) => (
            Shape::Alt,
            at.saturating_sub(a.index),
            at.saturating_sub(b.index),
        ),
        Node::Group(k, a) => (Shape::Group, k, at.saturating_sub(a.index)),
        Node::Star(a, first) => (Shape::Star(first), 0, at.saturating_sub(a.index)),
        Node::Opt(a, first) => (Shape::Opt(first), 0, at.saturating_sub(a.index)),
    };
    PackedNode { shape, left, right }
}

/// The node that an entry at the index `at` stands for.
fn node_at(sets: &[ByteSet], at: usize, entry: PackedNode) -> Node
    requires { NodeFits sets.now at entry }
    ensures { result ≡ node_at sets.now at entry }
{
    let left = NodeId {
        index: at.saturating_sub(entry.left),
    };
    let right = NodeId {
        index: at.saturating_sub(entry.right),
    };
    match entry.shape {
        Shape::Empty => Node::Empty,
        Shape::Set => Node::Set(sets[entry.left]),
        Shape::Begin => Node::Begin,
        Shape::End => Node::End,
        Shape::Seq => Node::Seq(left, right),
        Shape::Alt => Node::Alt(left, right),
        Shape::Group => Node::Group(entry.left, right),
        Shape::Star(first) => Node::Star(right, first),
        Shape::Opt(first) => Node::Opt(right, first),
    }
}

/// The number of a set, if it was added before and `numbers` leads to it. The set there is compared, so that nothing
/// rests on `numbers`.
fn number_among(
    sets: &[ByteSet],
    numbers: &BTreeMap<[u64; 4], usize>,
    set: &ByteSet,
) -> Option<usize>
    ensures number { IfSome result (λ k. slice_get sets.now k ≡ Some set.now) }
    ensures known { IfSome result (λ k. number_of_set numbers.now set.now ≡ Some k) }
    ensures found { (k : ℕ) → number_of_set numbers.now set.now ≡ Some k → slice_get sets.now k ≡ Some set.now →
        result ≡ Some k }
{
    let number = *numbers.get(&set.words())?;
    let found = sets.get(number)?;
    if found.same(set) { Some(number) } else { None }
}

/// The number of a set, which is added unless `numbers` leads to it.
fn number_of(
    sets: &mut Vec<ByteSet>,
    numbers: &mut BTreeMap<[u64; 4], usize>,
    set: ByteSet,
) -> Result<usize, AllocError>
    ensures grows { AddsSets sets.old.items sets.new.items }
    ensures number { IfOk result (λ k. slice_get sets.new.items k ≡ Some set) }
    // A set whose number is known isn't added again.
    ensures kept { (k : ℕ) → number_of_set numbers.old set ≡ Some k → slice_get sets.old.items k ≡ Some set →
        sets.new ≡ sets.old }
    // And then its number is known.
    ensures known { IfOk result (λ k. number_of_set numbers.new set ≡ Some k) }
{
    if let Some(number) = number_among(sets, numbers, &set) {
        return Ok(number);
    }
    let number = sets.len();
    sets.push(set)?;
    numbers.insert(set.words(), number)?;
    Ok(number)
}

/// The number of the node's set, which is added unless it is known; 0 where the node is no set.
fn set_number(
    sets: &mut Vec<ByteSet>,
    numbers: &mut BTreeMap<[u64; 4], usize>,
    node: &Node,
) -> Result<usize, AllocError>
    ensures grows { AddsSets sets.old.items sets.new.items }
    ensures number { IfOk result (λ k. HasNumber sets.new.items k node.now) }
{
    match node {
        Node::Set(set) => number_of(sets, numbers, *set),
        _ => Ok(0),
    }
}

/// Adds one node.
fn add(
    entries: &mut Vec<PackedNode>,
    sets: &mut Vec<ByteSet>,
    numbers: &mut BTreeMap<[u64; 4], usize>,
    node: Node,
) -> Result<(), AllocError>
    ensures fits { FitFrom sets.old.items 0 entries.old.items → FitFrom sets.new.items 0 entries.new.items }
    ensures nodes { OnOk result (FitFrom sets.old.items 0 entries.old.items → PartsBelow (vec_len entries.old) node →
        nodes_from sets.new.items 0 entries.new.items ≡ nodes_from sets.old.items 0 entries.old.items ++ node ∷ []) }
{
    let number = set_number(sets, numbers, &node)?;
    let entry = entry_of(entries.len(), number, node);
    entries.push(entry)?;
    Ok(())
}

/// Nodes, each after its parts.
#[derive(Drop)]
pub struct Packed {
    entries: Vec<PackedNode>,
    sets: Vec<ByteSet>,
    /// The number of each set, by its words.
    numbers: BTreeMap<[u64; 4], usize>,
}

impl Model for Packed {
    ghost use Rattle.std.specs.Prelude.{List};
    ghost use Rattle.sedre.specs.declared.types.Node.{Node};
    ghost use Rattle.sedre.specs.Packed.{nodes_from, FitFrom};

    ghost Value = { List Node };

    ghost view = { λ p. nodes_from p.sets.items 0 p.entries.items };

    ghost invariant = { λ p. FitFrom p.sets.items 0 p.entries.items };
}

impl Packed {
    /// No nodes.
    pub fn new(alloc: Global) -> Self
        ensures { result ≡ [] }
    {
        Packed {
            entries: Vec::new(alloc),
            sets: Vec::new(alloc),
            numbers: BTreeMap::new(alloc),
        }
    }

    /// A copy of the nodes. The sets of nodes that are added to it later aren't sought among those that it has.
    pub fn copy(&self, alloc: Global) -> Result<Packed, AllocError>
        ensures { IfOk result (λ p. p ≡ self.now) }
    {
        Ok(Packed {
            entries: self.entries.clone()?,
            sets: self.sets.clone()?,
            numbers: BTreeMap::new(alloc),
        })
    }

    /// How many nodes there are.
    pub fn len(&self) -> usize
        ensures { result ≡ length self.now }
    {
        self.entries.len()
    }

    /// The sets, among them that of each node.
    pub fn sets(&self) -> &[ByteSet]
        ensures { (x : ℕ) (members : List Bool) → slice_get self.now x ≡ Some (Set members) → (k : ℕ) × (slice_get result.now k ≡ Some members) }
    {
        &self.sets
    }

    /// The node at an index. By the invariant its entry fits the sets, as `node_at` asks, so no caller shows that.
    pub fn get(&self, index: usize) -> Node
        requires { index < length self.now }
        ensures { slice_get self.now index ≡ Some result }
    {
        node_at(&self.sets, index, self.entries[index])
    }

    /// Adds a node. It is kept as it is if its parts come before it. `add` goes over the fields, so that the invariant is
    /// shown here and not at each of its exits.
    pub fn push(&mut self, node: Node) -> Result<(), AllocError>
        ensures { OnOk result (PartsBelow (length self.old) node → self.new ≡ self.old ++ node ∷ []) }
    {
        add(&mut self.entries, &mut self.sets, &mut self.numbers, node)
    }

    /// Adds a copy of the last `count` nodes, whose parts are `count` places further on.
    pub fn copy_last(&mut self, count: usize) -> Result<(), AllocError>
        ensures { OnOk result (count ≤ length self.old →
            self.new ≡ self.old ++ map (shifted count) (drop (length self.old - count) self.old)) }
    {
        let from = self.entries.len().saturating_sub(count);
        self.entries.extend_from_within(from..)
    }

    /// Keeps the first `count` nodes, or all where there are fewer.
    pub fn truncate(&mut self, count: usize)
        ensures { self.new ≡ take count self.old }
    {
        self.entries.truncate(count);
    }
}
