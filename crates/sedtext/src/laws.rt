//! The computed match is the one that the relations determine.
ghost use Rattle.std.specs.Prelude.{ℕ, List, IsTrue, ◌↔◌, ◌≡◌, ◌≤◌, length, Some, None, is_some};
ghost use Rattle.sedre.specs.Tree.{Tree};
ghost use Rattle.sedtext.specs.Spans.{Matches, IsLeftmostLongest, NotFound, SomeFound};
ghost use Rattle.sedtext.specs.Caps.{Captures, IsReport};
ghost use Rattle.sedtext.specs.Groups.{SpansOfGroups};
ghost use Rattle.sedtext.specs.Matching.{groups_after, leftmost_longest, reported_groups, spans};

/// An expression spans a part of a text exactly where the computed test says so.
pub fn spans_law()
    ensures { (e : Tree) (w : List ℕ) (i j : ℕ) → IsTrue (spans e w i j) ↔ Matches e w i j }
{}

/// The match found by trying all places is the leftmost-longest one, and none is found exactly where there is none.
pub fn found_law()
    ensures some { (e : Tree) (w : List ℕ) (p i j : ℕ) → p ≤ length w → (leftmost_longest e w p ≡ Some (i, j)) ↔ IsLeftmostLongest e w p i j }
    ensures none { (e : Tree) (w : List ℕ) (p : ℕ) → p ≤ length w → (leftmost_longest e w p ≡ None) ↔ NotFound e w p }
    ensures any { (e : Tree) (w : List ℕ) (p : ℕ) → p ≤ length w → IsTrue (is_some (leftmost_longest e w p)) ↔ SomeFound e w p }
{}

/// The computed groups are the ones that a match has, and no match has others.
pub fn groups_law()
    ensures one { (e : Tree) (w : List ℕ) (i j : ℕ) (old new other : SpansOfGroups) → Captures e w i j old new → Captures e w i j old other → new ≡ other }
    ensures caps { (e : Tree) (w : List ℕ) (i j : ℕ) (old new : SpansOfGroups) → Matches e w i j → (new ≡ groups_after e w i j old) ↔ Captures e w i j old new }
    ensures report { (e : Tree) (w : List ℕ) (i j : ℕ) (groups : SpansOfGroups) → Matches e w i j → (groups ≡ reported_groups e w i j) ↔ IsReport e w i j groups }
{}
