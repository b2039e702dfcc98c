//! An expression as a chain of links: what its spans are made of, one after another. What follows asks chains alone for what an
//! expression shows of its matches.
ghost use Rattle.std.specs.Prelude.{◌≡◌, ℕ, List, [], ◌+◌, ◌<◌, ◌≤◌, ◌↔◌, length, slice_get, take, IfOk, IfSome, None, Some};
ghost use Rattle.std.specs.List.{All};
ghost use Rattle.sedre.specs.Arena.{IsArena};
ghost use Rattle.sedre.specs.Tree.{expression_tree};
ghost use Rattle.sedtext.specs.Links.{AreAlternatives, IsContinuation, IsChain, IsLiteral, IsWithin, LinkLeads};
ghost use Rattle.sedtext.specs.Reach.{HasSpan};
ghost use Rattle.sedtext.specs.declared.links.Link.TheVariants.{Either};

use sedre::{ByteSet, Expr, Node, Steps};
use std::alloc::{AllocError, Global};

/// The most bytes of a literal.
const MAX_LITERAL: usize = 32;

/// A link: what comes next in a span.
#[derive(Clone, Copy)]
pub enum Link {
    /// A byte of this set.
    Byte(ByteSet),
    /// Any number of bytes of this set.
    Run(ByteSet),
    /// No byte, at the beginning of the text.
    Start,
    /// No byte, at the end of the text.
    End,
    /// A span of either node.
    Either(usize, usize),
    /// A span of this node.
    Other(usize),
}

/// The link that a node is which is neither a concatenation nor a group.
fn link_of(expr: &Expr, index: usize, node: &Node, steps: &mut Steps) -> Link
    requires node { slice_get expr.now.nodes index ≡ Some node.now }
    requires arena { IsArena expr.now.nodes }
    ensures leads { (w : List ℕ) (i j : ℕ) → HasSpan expr.now.nodes w index i j ↔ LinkLeads expr.now.nodes w result i j }
    ensures within { IsWithin (length expr.now.nodes) result }
{
    match node {
        Node::Set(set) => Link::Byte(*set),
        Node::Begin => Link::Start,
        Node::End => Link::End,
        Node::Alt(left, right) => Link::Either(left.index(), right.index()),
        Node::Star(part, _) => match expr.look(*part, steps) {
            Node::Set(set) => Link::Run(set),
            _ => Link::Other(index),
        },
        _ => Link::Other(index),
    }
}

/// The links before, and after them those of the node.
fn continued(
    alloc: Global,
    before: &[Link],
    expr: &Expr,
    node: usize,
    steps: &mut Steps,
) -> Result<Vec<Link>, AllocError>
    requires inside { node < length expr.now.nodes }
    requires within { All (IsWithin (length expr.now.nodes)) before.now }
    ensures { IfOk result (λ v. IsContinuation expr.now.nodes before.now node v.items) }
{
    let mut links = before.to_vec(alloc)?;
    let mut rest = Vec::new(alloc);
    rest.push(node)?;
    while let Some(index) = rest.pop() {
        let node = expr.look(expr.id(index), steps);
        match node {
            Node::Seq(left, right) => {
                rest.push(right.index())?;
                rest.push(left.index())?;
            }
            Node::Group(_, part) => rest.push(part.index())?,
            _ => links.push(link_of(expr, index, &node, steps))?,
        }
    }
    Ok(links)
}

/// The chains of both alternatives at a place of the chain, if there are some, each of them after the links before.
pub fn alternatives_at(
    alloc: Global,
    expr: &Expr,
    chain: &[Link],
    at: usize,
    steps: &mut Steps,
) -> Result<Option<(Vec<Link>, Vec<Link>)>, AllocError>
    requires within { All (IsWithin (length expr.now.nodes)) chain.now }
    ensures some { IfOk result (λ r. IfSome r (λ p. AreAlternatives expr.now.nodes (take (at + 1) chain.now) p.0.items p.1.items)) }
    ensures none { IfOk result (λ r. r ≡ None → (left right : ℕ) → slice_get chain.now at ≡ Some (Either left right) → ⊥) }
{
    let Some(Link::Either(left, right)) = chain.get(at) else {
        return Ok(None);
    };
    let before = &chain[..at];
    let left = continued(alloc, before, expr, *left, steps)?;
    let right = continued(alloc, before, expr, *right, steps)?;
    Ok(Some((left, right)))
}

/// The chain of the whole expression.
pub fn chain_of(alloc: Global, expr: &Expr, steps: &mut Steps) -> Result<Vec<Link>, AllocError>
    ensures { IfOk result (λ v. IsChain expr.now.nodes (expression_tree expr.now) v.items) }
{
    let root = expr.root().index();
    continued(alloc, &[], expr, root, steps)
}

/// The bytes that the chain's links are from a place on, as far as each is one alone.
pub fn literal_at(alloc: Global, chain: &[Link], from: usize) -> Result<Vec<u8>, AllocError>
    requires from { from ≤ length chain.now }
    ensures literal { IfOk result (λ v. IsLiteral chain.now from v.items) }
{
    let mut bytes = Vec::new(alloc);
    while bytes.len() < MAX_LITERAL && from + bytes.len() < chain.len() {
        let Link::Byte(set) = &chain[from + bytes.len()] else {
            break;
        };
        let Some(byte) = set.sole() else {
            break;
        };
        bytes.push(byte)?;
    }
    Ok(bytes)
}
