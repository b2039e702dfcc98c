//! Laws of the grammar of expressions, for the contracts of other crates. The calls do nothing.
ghost use Rattle.std.specs.Prelude.{◌≡◌, ◌≤◌, ℕ, List, length, Bool, Option};
ghost use Rattle.sedre.specs.declared.types.Kind.{Kind};
ghost use Rattle.sedre.specs.declared.types.ExprReason.{ExprReason};
ghost use Rattle.sedre.specs.Tree.{Tree, size};
ghost use Rattle.sedre.specs.Grammar.{depth, ReadsAs, ExprFaulty};

/// A text reads as one expression at most, with one number of groups, and as one at most where letters match without
/// regard to case.
pub fn reads_as_one()
    ensures { (kind : Kind) (folded : Bool) (delimiter : Option ℕ) (text : List ℕ) (one other : Tree)
        (groups more : ℕ) →
        ReadsAs kind folded delimiter text one groups → ReadsAs kind folded delimiter text other more →
        (one ≡ other) × (groups ≡ more) }
{}

/// A text has no fault if it reads as an expression within the limits, be it one whose letters match without regard to
/// case or not.
pub fn reads_without_fault()
    ensures { (kind : Kind) (folded : Bool) (delimiter : Option ℕ) (text : List ℕ) (expression : Tree)
        (groups max_nodes place : ℕ) (reason : ExprReason) →
        ReadsAs kind folded delimiter text expression groups → depth expression ≤ 600 → size expression ≤ max_nodes →
        ExprFaulty kind delimiter text max_nodes place reason → ⊥ }
{}

/// A text has one first fault at most: its place and its reason.
pub fn one_fault()
    ensures { (kind : Kind) (delimiter : Option ℕ) (text : List ℕ) (max_nodes place more : ℕ) (reason other : ExprReason) →
        ExprFaulty kind delimiter text max_nodes place reason → ExprFaulty kind delimiter text max_nodes more other →
        (place ≡ more) × (reason ≡ other) }
{}

/// The first fault of a text is in the text or at its end.
pub fn fault_within()
    ensures { (kind : Kind) (delimiter : Option ℕ) (text : List ℕ) (max_nodes place : ℕ) (reason : ExprReason) →
        ExprFaulty kind delimiter text max_nodes place reason → place ≤ length text }
{}
