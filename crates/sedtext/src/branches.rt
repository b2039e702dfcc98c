//! The alternatives with which an expression begins, as chains, and which bytes are at a fixed distance after the beginning of every
//! match: the sets of alternatives are joined.
ghost use Rattle.std.specs.Prelude.{List, ◌+◌, ◌≤◌, length, IfOk, IfSome};
ghost use Rattle.std.specs.List.{AllWithin};
ghost use Rattle.sedre.specs.Tree.{Tree, expression_tree};
ghost use Rattle.sedre.specs.declared.types.Node.{Node};
ghost use Rattle.sedtext.specs.Branches.{AllHave, AreBranches, IsOneByte};
ghost use Rattle.sedtext.specs.Links.{IsChain};

use crate::links::{Link, alternatives_at};
use sedre::{ByteSet, Expr, Steps};
use std::alloc::{AllocError, Global};

/// How many bytes after its beginning a match is followed.
pub const MAX_OFFSET: usize = 32;

/// How many alternatives after the first are followed.
const MORE_ALTERNATIVES: usize = 7;

/// How many of the chain's links are bytes before one that isn't, as far as a match is followed.
fn lead(chain: &[Link]) -> usize
    ensures within { result ≤ length chain.now }
    ensures sets { AllWithin IsOneByte chain.now 0 result }
{
    let most = chain.len().min(MAX_OFFSET);
    for x in 0..most {
        let Link::Byte(_) = &chain[x] else {
            return x;
        };
    }
    most
}

/// The chains of which one leads on where a match of the expression begins, whose chain this is: alternatives behind the bytes with
/// which it begins are chains of their own.
pub fn branches_of(
    alloc: Global,
    expr: &Expr,
    chain: &[Link],
    steps: &mut Steps,
) -> Result<Vec<Vec<Link>>, AllocError>
    requires chain { IsChain expr.now.nodes (expression_tree expr.now) chain.now }
    ensures branches { IfOk result (λ v. AreBranches expr.now.nodes (expression_tree expr.now) v.items) }
{
    let mut branches = Vec::new(alloc);
    let mut chain = chain.to_vec(alloc)?;
    for _turn in 0..MORE_ALTERNATIVES {
        let fixed = lead(&chain);
        let Some((left, right)) = alternatives_at(alloc, expr, &chain, fixed, steps)? else {
            break;
        };
        branches.push(left)?;
        chain = right;
    }
    branches.push(chain)?;
    Ok(branches)
}

/// The set of the bytes over which the chains lead `offset` bytes after their beginnings, if each leads over bytes alone up to there.
pub fn set_at(branches: &[Vec<Link>], offset: usize) -> Option<ByteSet>
    ensures { IfSome result (λ s. (nodes : List Node) (e : Tree) → AreBranches nodes e branches.now → AllHave e offset s) }
{
    let mut members = ByteSet::none();
    for x in (0..branches.len()).rev() {
        let chain = &branches[x];
        let Some(Link::Byte(set)) = chain.get(offset) else {
            return None;
        };
        if offset >= lead(chain) {
            return None;
        }
        members = members.union(set);
    }
    Some(members)
}
