//! Reads an expression, in one pass over the text and with a stack of its own.
ghost use Rattle.std.specs.Prelude.{◌≡◌, ◌≢◌, true, false, ◌≤◌, ◌<◌, ◌+◌, ◌⊎◌, [], ℕ, Some, length};
ghost use Rattle.std.specs.Prelude.{OnOk, IfOk, IfErr, vec_len};
ghost use Rattle.std.specs.Bool.{OnTrue, OnFalse};
ghost use Rattle.sedre.specs.declared.types.ExprReason.{ExprReason};
ghost use Rattle.sedre.specs.Grammar.{ReadsAs, FaultyWith, ExprFaulty};
ghost use Rattle.sedre.specs.Tree.{size, expression_tree};
ghost use Rattle.sedre.specs.Stacks.{Nesting, Represents, no_nesting, whole_level};
ghost use Rattle.sedre.specs.Arena.{IsExpr};
ghost use Rattle.sedre.specs.Finished.{GroupsNumbered, IsFinished, IsOverLimit};

use crate::builder::Builder;
use crate::syntax::{NextToken, Token};
use crate::table::Expr;
use crate::tokens::token_at;
use crate::types::{ExprFault, ExprReason, Kind, NO_MEMORY};
use std::alloc::{AllocError, Global};

/// Joins what was read into one tree. A fault at the end of the text, `len`, where it is not within the limits.
fn finish(builder: &mut Builder, len: usize) -> Result<(), ExprFault>
    requires { (limit : ℕ) × (s : Nesting) × Represents limit builder.old s × (s.below ≡ []) ×
        GroupsNumbered s.opened (whole_level s.top) × (limit ≤ 65537) }
    ensures expr { OnOk result (IsExpr builder.new.stack.nodes builder.new.opened) }
    ensures ok { OnOk result ((limit : ℕ) (s : Nesting) → Represents limit builder.old s → s.below ≡ [] →
        IsFinished s limit (record { nodes = builder.new.stack.nodes; groups = builder.new.opened })) }
    ensures err { IfErr result (λ f. (limit : ℕ) (s : Nesting) → Represents limit builder.old s → s.below ≡ [] →
        IsOverLimit s limit len f ⊎ (f ≡ NO_MEMORY)) }
{
    if let Err(AllocError) = builder.join() {
        return Err(NO_MEMORY);
    }
    let part = builder.stack.parts[0];
    if part.depth > 600 {
        return Err(ExprFault {
            place: len,
            reason: ExprReason::TooDeep,
        });
    }
    if part.end >= builder.stack.limit {
        return Err(ExprFault {
            place: len,
            reason: ExprReason::TooManyNodes,
        });
    }
    Ok(())
}

/// Whether the token closes a group and none is open.
fn is_stray(builder: &Builder, token: &Token) -> bool
    ensures stray { OnTrue result ((token.now ≡ Token.Close) × (vec_len builder.now.below ≡ 0)) }
    ensures fine { OnFalse result (token.now ≡ Token.Close → 0 < vec_len builder.now.below) }
{
    matches!(token, Token::Close) && builder.below.is_empty()
}

/// Reads a text into a builder to which nothing was added, or answers its first fault. The builder is the caller's, so
/// that no exit here lets go of it.
fn read_into(
    builder: &mut Builder,
    kind: Kind,
    folded: bool,
    text: &[u8],
    delimiter: Option<u8>,
) -> Result<(), ExprFault>
    requires empty { (max_nodes : ℕ) × Represents (max_nodes + 1) builder.old no_nesting × (max_nodes ≤ 65536) }
    ensures expr { OnOk result (IsExpr builder.new.stack.nodes builder.new.opened) }
    ensures reads { OnOk result (ReadsAs kind folded delimiter text.now
        (expression_tree (record { nodes = builder.new.stack.nodes; groups = builder.new.opened })) builder.new.opened) }
    ensures size { OnOk result ((max_nodes : ℕ) → Represents (max_nodes + 1) builder.old no_nesting →
        (length builder.new.stack.nodes
        ≡ size (expression_tree (record { nodes = builder.new.stack.nodes; groups = builder.new.opened })))
        × (length builder.new.stack.nodes ≤ max_nodes)) }
    ensures no_fault { OnOk result ((max_nodes : ℕ) → Represents (max_nodes + 1) builder.old no_nesting →
        (place : ℕ) (reason : ExprReason) → FaultyWith kind folded delimiter text.now max_nodes place reason → ⊥) }
    ensures fault { IfErr result (λ f. (max_nodes : ℕ) → Represents (max_nodes + 1) builder.old no_nesting →
        FaultyWith kind folded delimiter text.now max_nodes f.place f.reason ⊎ (f ≡ NO_MEMORY)) }
    ensures within { IfErr result (λ f. f.place ≤ length text.now) }
{
    let mut before: Option<Token> = None;
    let mut at = 0;
    'tokens: loop {
        match token_at(kind, folded, delimiter, text, before, at) {
            NextToken::Bad(fault) => return Err(fault),
            NextToken::Ends => {
                if builder.below.len() > 0 {
                    return Err(ExprFault {
                        place: text.len(),
                        reason: ExprReason::OpenGroup,
                    });
                }
                return finish(builder, text.len());
            }
            NextToken::Is(token, next) => {
                if is_stray(builder, &token) {
                    return Err(ExprFault {
                        place: at,
                        reason: ExprReason::StrayClose,
                    });
                }
                if let Err(AllocError) = builder.take(token) {
                    return Err(NO_MEMORY);
                }
                before = Some(token);
                at = next;
            }
        }
    }
}

/// Reads a text as an expression, or answers its first fault. Where it is `folded`, letters match without regard to
/// case.
fn read_with(
    alloc: Global,
    kind: Kind,
    folded: bool,
    text: &[u8],
    delimiter: Option<u8>,
    max_nodes: usize,
) -> Result<Expr, ExprFault>
    requires some { 1 ≤ max_nodes }
    requires most { max_nodes ≤ 65536 }
    requires not_backslash { delimiter ≢ Some 92 }
    requires not_newline { delimiter ≢ Some 10 }
    ensures reads { IfOk result (λ e. ReadsAs kind folded delimiter text.now (expression_tree e) e.groups) }
    ensures size { IfOk result (λ e. (length e.nodes ≡ size (expression_tree e)) × (length e.nodes ≤ max_nodes)) }
    ensures no_fault { OnOk result ((place : ℕ) (reason : ExprReason) →
        FaultyWith kind folded delimiter text.now max_nodes place reason → ⊥) }
    ensures fault { IfErr result (λ f.
        FaultyWith kind folded delimiter text.now max_nodes f.place f.reason ⊎ (f ≡ NO_MEMORY)) }
    ensures within { IfErr result (λ f. f.place ≤ length text.now) }
{
    let mut builder = Builder::new(alloc, max_nodes + 1);
    match read_into(&mut builder, kind, folded, text, delimiter) {
        Err(fault) => Err(fault),
        Ok(()) => {
            let Builder { stack, opened, .. } = builder;
            Ok(Expr::of(stack.nodes, opened))
        }
    }
}

/// Reads a text as an expression, or answers its first fault.
///
/// With a delimiter, a backslash and the delimiter stand for the delimiter as a literal. E14 at 0 is answered only
/// where a request for memory was refused. Conditions: `max_nodes` is 1 to 65,536, and the delimiter is neither a
/// backslash nor a newline.
pub fn read(
    alloc: Global,
    kind: Kind,
    text: &[u8],
    delimiter: Option<u8>,
    max_nodes: usize,
) -> Result<Expr, ExprFault>
    requires some { 1 ≤ max_nodes }
    requires most { max_nodes ≤ 65536 }
    requires not_backslash { delimiter ≢ Some 92 }
    requires not_newline { delimiter ≢ Some 10 }
    // What is answered is what the text reads as.
    ensures reads { IfOk result (λ e. ReadsAs kind false delimiter text.now (expression_tree e) e.groups) }
    // It has as many nodes as it has when it is written out, and no more than allowed.
    ensures size { IfOk result (λ e. (length e.nodes ≡ size (expression_tree e)) × (length e.nodes ≤ max_nodes)) }
    // No fault is passed over.
    ensures no_fault { OnOk result ((place : ℕ) (reason : ExprReason) →
        ExprFaulty kind delimiter text.now max_nodes place reason → ⊥) }
    // A fault is the first one of the text, or there was no memory.
    ensures fault { IfErr result (λ f.
        ExprFaulty kind delimiter text.now max_nodes f.place f.reason ⊎ (f ≡ NO_MEMORY)) }
    // A fault is reported in the text or at its end.
    ensures within { IfErr result (λ f. f.place ≤ length text.now) }
{
    read_with(alloc, kind, false, text, delimiter, max_nodes)
}

/// Reads a text as an expression whose ASCII letters match without regard to case, or answers its first fault. A
/// literal letter stands for both its cases, and so does a letter that a list names, before its `^` takes the other
/// bytes. Faults, delimiters and conditions are those of [`read`].
pub fn read_folded(
    alloc: Global,
    kind: Kind,
    text: &[u8],
    delimiter: Option<u8>,
    max_nodes: usize,
) -> Result<Expr, ExprFault>
    requires some { 1 ≤ max_nodes }
    requires most { max_nodes ≤ 65536 }
    requires not_backslash { delimiter ≢ Some 92 }
    requires not_newline { delimiter ≢ Some 10 }
    // What is answered is what the text reads as.
    ensures reads { IfOk result (λ e. ReadsAs kind true delimiter text.now (expression_tree e) e.groups) }
    // It has as many nodes as it has when it is written out, and no more than allowed.
    ensures size { IfOk result (λ e. (length e.nodes ≡ size (expression_tree e)) × (length e.nodes ≤ max_nodes)) }
    // No fault is passed over.
    ensures no_fault { OnOk result ((place : ℕ) (reason : ExprReason) →
        ExprFaulty kind delimiter text.now max_nodes place reason → ⊥) }
    // A fault is the first one of the text, or there was no memory.
    ensures fault { IfErr result (λ f.
        ExprFaulty kind delimiter text.now max_nodes f.place f.reason ⊎ (f ≡ NO_MEMORY)) }
    // A fault is reported in the text or at its end.
    ensures within { IfErr result (λ f. f.place ≤ length text.now) }
{
    read_with(alloc, kind, true, text, delimiter, max_nodes)
}
