//! Laws of what a text means, for callers' proofs. The calls do nothing.

ghost use Rattle.std.specs.Prelude.{◌≡◌, ℕ, List, map};
ghost use Rattle.sedre.specs.declared.types.Kind.{Kind};
ghost use Rattle.sedre.specs.Tree.{expression_tree};
ghost use Rattle.sedscript.specs.Script.{Means};
ghost use Rattle.sedscript.specs.Program.{Program};
ghost use Rattle.sedscript.specs.FirstFault.{Faulty};
ghost use Rattle.sedscript.specs.Ranges.{IsWithinRanges};
ghost use Rattle.sedscript.specs.declared.types.ScriptFault.{ScriptFault};

use sedre::laws::reads_as_one;

/// A text that means a script has no fault.
pub fn no_fault()
    ensures { (text : List ℕ) (kind : Kind) (max_nodes : ℕ) (s : Program) (f : ScriptFault) →
        Means text kind max_nodes s → Faulty text kind max_nodes f → ⊥ }
{
    reads_as_one();
}

/// A text has at most one first fault.
pub fn one_fault()
    ensures { (text : List ℕ) (kind : Kind) (max_nodes : ℕ) (f g : ScriptFault) →
        Faulty text kind max_nodes f → Faulty text kind max_nodes g → f ≡ g }
{
    reads_as_one();
    sedre::laws::one_fault();
}

/// A text means the same commands, expressions, texts, substitutions, tables and files whenever it means a script, and
/// is quiet or not. Of an expression this is its tree and how many groups it has.
pub fn one_meaning()
    ensures { (text : List ℕ) (kind : Kind) (max_nodes : ℕ) (s t : Program) →
        Means text kind max_nodes s → Means text kind max_nodes t →
        (s.commands ≡ t.commands) × (s.texts ≡ t.texts) × (s.substitutions ≡ t.substitutions) × (s.tables ≡ t.tables)
        × (s.rfiles ≡ t.rfiles) × (s.wfiles ≡ t.wfiles) × (s.quiet ≡ t.quiet) × (s.max_nodes ≡ t.max_nodes)
        × (map expression_tree s.expressions ≡ map expression_tree t.expressions)
        × (map (λ e. e.groups) s.expressions ≡ map (λ e. e.groups) t.expressions) }
{
    reads_as_one();
}

/// The numbers in a script that a text means are in range.
pub fn in_range()
    ensures { (text : List ℕ) (kind : Kind) (max_nodes : ℕ) (s : Program) →
        Means text kind max_nodes s → IsWithinRanges s }
{}
