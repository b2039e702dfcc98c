//! An expression made ready for passes: what is found out of each node once, and the classes of bytes.
ghost use Rattle.std.specs.Prelude.{◌≡◌, ℕ, List, Bool, false, not, cond, ◌+◌, ◌<◌, ◌≤◌, ◌↔◌, length, vec_capacity, Some, None, slice_get, slice_index_or, IfOk, IfSome, IsTrue};
ghost use Rattle.sedre.specs.Arena.{IsArena, IsExpr, IsPart};
ghost use Rattle.sedre.specs.declared.types.Node.{Node};
ghost use Rattle.sedre.specs.Tree.{expression_tree, tree_at, tree_of, Tree, any_copies, one_or_none, size};
ghost use Rattle.sedre.specs.Mirror.{node_seen, seen};
ghost use Rattle.sedre.specs.Packed.{PartsBelow};
ghost use Rattle.sedre.specs.Steps.{Takes, TakesExactly, TakesAtLeast};
ghost use Rattle.sedtext.specs.Hints.{AreHints};
ghost use Rattle.sedpass.specs.Classes.{AreClasses};
ghost use Rattle.sedpass.specs.Prepared.{HasNodeRoom, IsAnalysis, SameNulls, holds, IsFacts, AreFacts, IsShort, is_one_set, null_at, null_in, sum_of, same_of};
ghost use Rattle.sedpass.specs.Regions.{IsRunOf, IsSetAt};
ghost use Rattle.sedpass.specs.Rows.{IsNodeRange, root_of};

use crate::classes::{Classes, classes_of};
use crate::group_set::GroupSet;
use sedre::{Expr, Node, NodeId, Steps};
use sedtext::hints::Hints;
use std::alloc::{AllocError, Global};
use std::marker::Model;

/// A kind of place: whether it is the text's beginning, and whether it is its end. An expression matches the null string
/// at one place of a kind if it does at all of them.
#[derive(Clone, Copy)]
pub struct PlaceKind {
    pub begin: bool,
    pub end: bool,
}

/// The kind of a place in a text of so many bytes.
pub fn kind_of(place: usize, length: usize) -> PlaceKind
    ensures begin { IsTrue result.begin ↔ (place ≡ 0) }
    ensures end { IsTrue result.end ↔ (place ≡ length) }
{
    PlaceKind {
        begin: place == 0,
        end: place == length,
    }
}

/// Sets of kinds of places, a bit for each kind by its number: all kinds, those of a text's beginning, and of its end; 0 is none.
const EVERYWHERE: u8 = 0b1111;

const AT_BEGIN: u8 = 0b1010;

const AT_END: u8 = 0b1100;

/// Whether a kind is among those with these bits. Its number is 1 for the beginning, 2 for the end, and their sum for both.
fn has_kind(kinds: u8, kind: PlaceKind) -> bool
    ensures { result ≡ null_at kinds kind.begin kind.end }
{
    (kinds >> (u8::from(kind.begin) + 2 * u8::from(kind.end))) & 1 == 1
}

/// Whether these are other kinds at an edge of the text, its beginning or its end, than at places between the edges.
fn edge_tells(kinds: u8, begin: bool) -> bool
    ensures { (result ≡ false) ↔ (null_at kinds begin (not begin) ≡ null_at kinds false false) }
{
    let edge = PlaceKind { begin, end: !begin };
    let middle = PlaceKind {
        begin: false,
        end: false,
    };
    has_kind(kinds, edge) != has_kind(kinds, middle)
}

/// What is found out of a node once.
#[derive(Clone, Copy)]
pub struct Facts {
    /// The least index in its tree: the nodes of the tree are those from `low` to the node itself.
    pub low: usize,
    /// Where it matches the null string: at places of these kinds.
    pub null: u8,
    /// The groups of its tree.
    pub groups: GroupSet,
    /// How long all its matches are, where they are of one length.
    pub length: Option<usize>,
    /// The set, where the node is a repetition of one set, in groups or not: the index of that part.
    pub run: Option<usize>,
}

/// What is known of a node without parts.
fn of_leaf(x: usize, null: u8, length: usize) -> Facts
    ensures low { result.low ≡ x }
    ensures null { result.null ≡ null }
    ensures groups { (k : ℕ) → holds result.groups k ≡ false }
    ensures length { result.length ≡ Some length }
    ensures run { result.run ≡ None }
{
    Facts {
        low: x,
        null,
        groups: GroupSet::none(),
        length: Some(length),
        run: None,
    }
}

/// The sum of two lengths, if both are known.
fn sum_of(left: Option<usize>, right: Option<usize>) -> Option<usize>
    ensures { IsShort left → IsShort right → result ≡ sum_of left right }
{
    Some(left?.saturating_add(right?))
}

/// The one length of both, if there is one.
fn same_of(left: Option<usize>, right: Option<usize>) -> Option<usize>
    ensures { result ≡ same_of left right }
{
    if left == right { left } else { None }
}

/// The index of a part, if that is a set: it has no parts, and its matches have one byte.
#[tactic(auto, using(crate::proofs::FactLemmas::shown_set))]
fn set_at(part: NodeId, shown: Facts) -> Option<usize>
    ensures { (a : Tree) → IsFacts a part.index shown → result ≡ cond (is_one_set a) (Some part.index) None }
{
    let x = part.index();
    if shown.low == x && shown.length == Some(1) {
        Some(x)
    } else {
        None
    }
}

/// What is known of a repetition, or of a part that may be left out, from that of the part. `run` is the part, if it is a set.
fn of_many(part: Facts, run: Option<usize>) -> Facts
    ensures star { (a : Tree) (first : Bool) (x z : ℕ) → IsFacts a x part → x + 1 ≡ z → run ≡ cond (is_one_set a) (Some x) None → IsFacts (any_copies a first) z result }
    ensures opt { (a : Tree) (first : Bool) (x z : ℕ) → IsFacts a x part → x + 1 ≡ z → run ≡ None → IsFacts (one_or_none a first) z result }
{
    Facts {
        null: EVERYWHERE,
        length: None,
        run,
        ..part
    }
}

/// What was found out of a part.
fn of_part(facts: &Vec<Facts>, part: NodeId) -> Facts
    requires { part.index < length facts.now.items }
    ensures { slice_get facts.now.items part.index ≡ Some result }
{
    facts[part.index()]
}

/// What is known of the next node, from what is known of those before it.
pub fn facts_of(node: &Node, facts: &Vec<Facts>) -> Facts
    requires { PartsBelow (length facts.now.items) node.now }
    ensures { (nodes : List Node) (groups : ℕ) → IsExpr nodes groups → AreFacts nodes facts.now.items → slice_get nodes (length facts.now.items) ≡ Some node.now →
        IsFacts (tree_of (tree_at nodes) node.now) (length facts.now.items) result }
{
    let x = facts.len();
    match *node {
        Node::Empty => of_leaf(x, EVERYWHERE, 0),
        Node::Set(_) => of_leaf(x, 0, 1),
        Node::Begin => of_leaf(x, AT_BEGIN, 0),
        Node::End => of_leaf(x, AT_END, 0),
        Node::Seq(a, b) => {
            let (left, right) = (of_part(facts, a), of_part(facts, b));
            Facts {
                null: left.null & right.null,
                groups: left.groups.union(right.groups),
                length: sum_of(left.length, right.length),
                run: None,
                ..left
            }
        }
        Node::Alt(a, b) => {
            let (left, right) = (of_part(facts, a), of_part(facts, b));
            Facts {
                null: left.null | right.null,
                groups: left.groups.union(right.groups),
                length: same_of(left.length, right.length),
                run: None,
                ..left
            }
        }
        Node::Group(k, a) => {
            let part = of_part(facts, a);
            let groups = part.groups.union(GroupSet::one(k));
            Facts { groups, ..part }
        }
        Node::Star(a, _) => of_many(of_part(facts, a), set_at(a, of_part(facts, a))),
        Node::Opt(a, _) => of_many(of_part(facts, a), None),
    }
}

/// Notes for the parts of the node x that they are its parts.
fn note_parent(parents: &mut Vec<usize>, node: &Node, x: usize)
    requires { PartsBelow (length parents.old.items) node.now }
    ensures parts { (c : ℕ) → IsPart node.now c → slice_index_or parents.new.items c 0 ≡ x }
    ensures others { (c : ℕ) → (IsPart node.now c → ⊥) → slice_index_or parents.new.items c 0 ≡ slice_index_or parents.old.items c 0 }
    ensures length { length parents.new.items ≡ length parents.old.items }
    ensures capacity { vec_capacity parents.new ≡ vec_capacity parents.old }
{
    match *node {
        Node::Seq(a, b) | Node::Alt(a, b) => {
            parents[a.index()] = x;
            parents[b.index()] = x;
        }
        Node::Group(_, a) | Node::Star(a, _) | Node::Opt(a, _) => parents[a.index()] = x,
        _ => {}
    }
}

/// A node, mirrored or as it is.
fn node_seen(node: Node, mirrored: bool) -> Node
    ensures { result ≡ node_seen mirrored node }
{
    if !mirrored {
        return node;
    }
    match node {
        Node::Begin => Node::End,
        Node::End => Node::Begin,
        Node::Seq(a, b) => Node::Seq(b, a),
        other => other,
    }
}

/// What is found out once of an expression, in room made once.
#[derive(Drop)]
pub struct Analysis {
    /// What is known of each node.
    pub facts: Vec<Facts>,
    /// Whether a node matches the null string at the text's beginning and not between its edges, or the other way about.
    pub begin_tells: bool,
    /// The same of its end.
    pub end_tells: bool,
    /// For each node but the last that of which it is a part.
    pub parents: Vec<usize>,
    /// Classes of bytes: those of one class are in the same sets.
    pub classes: Classes,
    /// What is known of its matches.
    pub hints: Hints,
}

impl Analysis {
    /// Room for what is found out of an expression of at most `nodes` nodes. Fails only where a request for memory was refused.
    pub fn with_room(alloc: Global, nodes: usize) -> Result<Analysis, AllocError>
        ensures { IfOk result (HasNodeRoom nodes) }
    {
        Ok(Analysis {
            facts: Vec::with_capacity(alloc, nodes)?,
            begin_tells: false,
            end_tells: false,
            parents: Vec::with_capacity(alloc, nodes)?,
            classes: classes_of(&[]),
            hints: Hints::none(),
        })
    }

    /// Finds out what passes need, by a look at each node. Of its matches nothing is known then.
    #[tactic(auto, using(sedtext::proofs::NodeLemmas::parts_below), unfolding(sedre::specs::Steps::TakesAtLeast, sedre::specs::Steps::IsCounted))]
    pub fn fit(&mut self, expr: &Expr, steps: &mut Steps)
        requires room { HasNodeRoom (length expr.now.nodes) self.old }
        ensures analysis { IsAnalysis expr.now self.new }
        ensures room { (count : ℕ) → HasNodeRoom count self.old → HasNodeRoom count self.new }
        ensures cost { Takes steps.old steps.new (length expr.now.nodes) }
        ensures counts { TakesAtLeast steps.old steps.new (length expr.now.nodes) }
    {
        let _groups = expr.groups();
        self.facts.clear();
        self.begin_tells = false;
        self.end_tells = false;
        self.parents.clear();
        for x in 0..expr.nodes() {
            let node = expr.look(expr.id(x), steps);
            let next = facts_of(&node, &self.facts);
            self.begin_tells |= edge_tells(next.null, true);
            self.end_tells |= edge_tells(next.null, false);
            self.facts.push_reserved(next);
            self.parents.push_reserved(0);
            note_parent(&mut self.parents, &node, x);
        }
        self.classes = classes_of(expr.sets());
        self.hints = Hints::none();
    }
}

/// An expression that is ready for passes, with what was found out of it.
#[derive(Drop)]
pub struct Prepared<'a> {
    expr: &'a Expr,
    analysis: &'a Analysis,
}

impl<'a> Model for Prepared<'a> {
    ghost use Rattle.sedre.specs.Tree.{WrittenExpression};
    ghost use Rattle.sedre.specs.Arena.{IsExpr};
    ghost use Rattle.sedpass.specs.Prepared.{IsAnalysis};

    ghost Value = { WrittenExpression };

    ghost view = { λ p. p.expr.now };

    ghost invariant = { λ p. IsAnalysis p.expr.now p.analysis.now × IsExpr p.expr.now.nodes p.expr.now.groups };
}

impl<'a> Prepared<'a> {
    /// The expression, ready for passes.
    pub fn of(expr: &'a Expr, analysis: &'a Analysis) -> Prepared<'a>
        requires { IsAnalysis expr.now analysis.now }
        ensures is { result ≡ expr.now }
        ensures expr { IsExpr expr.now.nodes expr.now.groups }
    {
        let _groups = expr.groups();
        Prepared { expr, analysis }
    }

    /// How many groups there are.
    pub fn groups(&self) -> usize
        ensures { result ≡ self.now.groups }
    {
        self.expr.groups()
    }

    /// How many nodes there are.
    pub fn nodes(&self) -> usize
        ensures value { result ≡ length self.now.nodes }
        ensures few { length self.now.nodes ≤ 65536 }
        ensures expr { IsExpr self.now.nodes self.now.groups }
    {
        self.expr.nodes()
    }

    /// The last node, the whole expression.
    pub fn root(&self) -> usize
        ensures value { result ≡ root_of self.now }
        ensures expr { IsExpr self.now.nodes self.now.groups }
    {
        self.expr.root().index()
    }

    /// Whether it tells something for null strings that a place is the edge to which passes go.
    pub fn edge_tells(&self, mirrored: bool) -> bool
        ensures { (result ≡ false) ↔ SameNulls self.now.nodes mirrored (length self.now.nodes) }
    {
        if mirrored {
            self.analysis.begin_tells
        } else {
            self.analysis.end_tells
        }
    }

    /// The classes of bytes.
    pub fn classes(&self) -> &Classes
        ensures { AreClasses self.now.nodes result.now.of result.now.count }
    {
        &self.analysis.classes
    }

    /// What is known of its matches.
    pub fn hints(&self) -> &Hints
        ensures { AreHints (expression_tree self.now) result.now }
    {
        &self.analysis.hints
    }

    /// The node of an index, as it is or mirrored. Counts one look.
    // As a call of its own it would make states a fifth dearer.
    #[inline(always)]
    pub fn look(&self, x: usize, mirrored: bool, steps: &mut Steps) -> Node
        requires inside { x < length self.now.nodes }
        ensures node { slice_get (seen mirrored self.now).nodes x ≡ Some result }
        ensures cost { TakesExactly steps.old steps.new 1 }
        ensures parts { PartsBelow x result }
        ensures arena { IsArena (seen mirrored self.now).nodes }
        ensures few { length self.now.nodes ≤ 65536 }
    {
        node_seen(self.expr.look(self.expr.id(x), steps), mirrored)
    }

    /// What is known of a node.
    pub fn facts(&self, x: usize) -> Facts
        requires { x < length self.now.nodes }
        ensures facts { IsFacts (tree_at self.now.nodes x) x result }
        ensures run { IfSome result.run (λ c. IsRunOf self.now.nodes c x × IsSetAt self.now.nodes c) }
        ensures expr { IsExpr self.now.nodes self.now.groups }
    {
        self.analysis.facts[x]
    }

    /// The least index in a node's tree: its nodes are those from there to the node itself.
    pub fn low(&self, x: usize) -> usize
        requires inside { x < length self.now.nodes }
        ensures size { result + size (tree_at self.now.nodes x) ≡ x + 1 }
        ensures range { (mirrored : Bool) → IsNodeRange (seen mirrored self.now).nodes result x }
        ensures few { length self.now.nodes ≤ 65536 }
    {
        self.facts(x).low
    }

    /// The node of which a node is a part. The last one is a part of none.
    pub fn parent(&self, x: usize) -> usize
        requires { x + 1 < length self.now.nodes }
        ensures inside { result < length self.now.nodes }
        ensures above { x < result }
        ensures part { (mirrored : Bool) (node : Node) → slice_get (seen mirrored self.now).nodes result ≡ Some node → IsPart node x }
    {
        self.analysis.parents[x]
    }

    /// Whether a node matches the null string at a place of a kind. Counts one look.
    pub fn null_at(&self, x: usize, kind: PlaceKind, steps: &mut Steps) -> bool
        requires inside { x < length self.now.nodes }
        ensures null { result ≡ null_in self.now.nodes kind x }
        ensures cost { TakesExactly steps.old steps.new 1 }
    {
        steps.add(1);
        has_kind(self.facts(x).null, kind)
    }
}
