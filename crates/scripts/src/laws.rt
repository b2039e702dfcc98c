//! What famous scripts write, over every input. The calls do nothing.

ghost use Rattle.std.specs.Prelude.{◌≡◌, ◌<◌, ◌-◌, ◌^◌, ℕ, List, [], ◌∷◌, ◌++◌, false, true, Option, codes, decimal, drop, length, map, reverse, take};
ghost use Rattle.std.specs.List.{filter, flat_map, list_any};
ghost use Rattle.sedre.specs.Tree.{Tree};
ghost use Rattle.sedscript.specs.Pieces.{PieceGroupsWithin};
ghost use Rattle.sedre.specs.declared.types.Kind.{Kind};
ghost use Rattle.sedscript.specs.Script.{Means, with_part};
ghost use Rattle.sedscript.specs.Program.{Program};
ghost use Rattle.sedengine.specs.State.{LimitsView};
ghost use Rattle.sedengine.specs.Move.{to_sink};
ghost use Rattle.sedengine.specs.Types.{Ended, Done};
ghost use Rattle.scripts.specs.Ampleness.{Ample, ComesTo};
ghost use Rattle.sedscript.specs.Strings.{is_among};
ghost use Rattle.sedscript.specs.declared.substitution.Piece.{Piece};
ghost use Rattle.sedspace.specs.Stream.{AreWholeLines};
ghost use Rattle.sedspace.specs.Lines.{split_lines};
ghost use Rattle.sedengine.specs.Ends.{SinksGain, bytes_of_sink};
ghost use Rattle.examples.specs.Strings.{NoneTwice};
ghost use Rattle.examples.specs.WrittenReplacements.{written_pieces};
ghost use Rattle.scripts.specs.Alone.{EachLooksAtLine};
ghost use Rattle.scripts.specs.Edited.{RunsTo, EditsInto, EditsIntoLines, text_of};
ghost use Rattle.scripts.specs.InTurn.{BreaksNoLine, EachOnlyEdits, in_turn, is_break};
ghost use Rattle.scripts.specs.OneText.{EditInTurn, HasLabel, LacksNewline, EachLeadsInside, ShareNoFile, ShareNoLabel};
ghost use Rattle.scripts.specs.Slashed.{IsSlashed};
ghost use Rattle.scripts.specs.Words.{HasWayBack, by_table, has_none, in_one, numbered_lines, odd_ones, replaced, y_of};

use sedscript::laws::one_meaning;

/// The empty script writes the lines; with -n it writes nothing.
pub fn empty()
    ensures { (input : List ℕ) → EditsIntoLines false (codes "") input (split_lines input) × EditsIntoLines true (codes "") input [] }
{
    one_meaning();
}

/// `p` writes each line twice; with -n once.
pub fn print()
    ensures { (input : List ℕ) →
        EditsIntoLines false (codes "p") input (flat_map (λ line. line ∷ line ∷ []) (split_lines input)) × EditsIntoLines true (codes "p") input (split_lines input) }
{
    one_meaning();
}

/// `=` writes each line after its number.
pub fn number()
    ensures { (input : List ℕ) → EditsIntoLines false (codes "=") input (numbered_lines 1 (split_lines input)) }
{
    one_meaning();
}

/// `$!d`, and `$p` with -n, write the last line.
pub fn last()
    ensures { (input : List ℕ) → let end = drop (length (split_lines input) - 1) (split_lines input) in
        EditsIntoLines false (codes "$!d") input end × EditsIntoLines true (codes "$p") input end }
{
    one_meaning();
}

/// `Nq` writes the first N lines, for any number N above 0.
pub fn first()
    ensures { (n : ℕ) (input : List ℕ) → 0 < n → n < 2 ^ 64 →
        EditsIntoLines false (decimal n ++ codes "q") input (take n (split_lines input)) }
{
    one_meaning();
}

/// `N,Md` writes all lines but those from N to M, for any numbers N below M.
pub fn without()
    ensures { (n m : ℕ) (input : List ℕ) → 0 < n → n < m → m < 2 ^ 64 →
        EditsIntoLines false (decimal n ++ (codes "," ++ (decimal m ++ codes "d"))) input (take (n - 1) (split_lines input) ++ drop m (split_lines input)) }
{
    one_meaning();
}

/// `n;d` writes the first line, the third and so on.
pub fn half()
    ensures { (input : List ℕ) → EditsIntoLines false (codes "n;d") input (odd_ones (split_lines input)) }
{
    one_meaning();
}

/// `1!G;h;$!d` writes the lines in reverse order, as `tac` does.
pub fn turned()
    ensures { (input : List ℕ) → EditsIntoLines false (codes "1!G;h;$!d") input (reverse (split_lines input)) }
{
    one_meaning();
}

/// `$!N;P;D` writes the lines as they are.
pub fn pairs()
    ensures { (input : List ℕ) → EditsIntoLines false (codes "$!N;P;D") input (split_lines input) }
{
    one_meaning();
}

/// `:a;$!{N;ba;};s/\n/,/g` writes the lines in one, with commas between them.
pub fn joined()
    ensures { (input : List ℕ) → EditsIntoLines false (codes ":a;$!{N;ba;};s/\\n/,/g") input (in_one (split_lines input)) }
{
    one_meaning();
}

/// `w f` writes to the file what it writes to the standard output, each line once.
pub fn file()
    ensures { (input : List ℕ) → (out : List (ℕ × ℕ)) × EditsInto false (codes "w f") input out
        × (bytes_of_sink 1 out ≡ text_of (split_lines input)) × (bytes_of_sink 0 out ≡ text_of (split_lines input)) }
{
    one_meaning();
}

/// `/RE/d`, and `/RE/!p` with -n, write the lines in which the expression has no match, for any expression.
pub fn unmatched()
    ensures { (re : List ℕ) (e : Tree) (groups : ℕ) (input : List ℕ) → IsSlashed re e groups → let left = filter (has_none e) (split_lines input) in
        EditsIntoLines false (codes "/" ++ (re ++ codes "/d")) input left × EditsIntoLines true (codes "/" ++ (re ++ codes "/!p")) input left }
{
    one_meaning();
}

/// `s/RE/text/g` writes each line with its occurrences replaced, for any expression and any text.
pub fn substituted()
    ensures { (re : List ℕ) (e : Tree) (groups : ℕ) (text : List Piece) (input : List ℕ) → IsSlashed re e groups → PieceGroupsWithin 9 text → PieceGroupsWithin groups text →
        EditsIntoLines false (codes "s/" ++ (re ++ (codes "/" ++ (written_pieces 47 text ++ codes "/g")))) input (map (replaced e text) (split_lines input)) }
{
    one_meaning();
}

/// What `s/RE/text/g` writes has as many lines as its input, where the text has no newline.
pub fn line_for_line()
    ensures { (e : Tree) (text : List Piece) (input : List ℕ) → list_any is_break text ≡ false →
        length (split_lines (text_of (map (replaced e text) (split_lines input)))) ≡ length (split_lines input) }
{}

/// `y/string1/string2/` writes each line byte by byte as its table says, where no byte is twice in the first string and
/// the two are of one length.
pub fn transliterated()
    ensures { (s1 s2 input : List ℕ) → NoneTwice s1 → length s1 ≡ length s2 → EditsIntoLines false (y_of s1 s2) input (map (by_table s1 s2) (split_lines input)) }
{
    one_meaning();
}

/// A `y` and then the `y` back write the lines of the input, where the strings have a way back for its bytes.
pub fn back_again()
    ensures { (s1 s2 input : List ℕ) → HasWayBack s1 s2 input →
        EditsIntoLines false (y_of s2 s1) (text_of (map (by_table s1 s2) (split_lines input))) (split_lines input) }
{
    one_meaning();
}

/// A script whose commands look at their line alone writes over two inputs one after the other, the first of which ends in
/// a newline, what it writes over the one and then what it writes over the other.
pub fn apart()
    ensures { (p : Program) (files : ℕ → List ℕ) (a b : List ℕ) (x y : List (ℕ × ℕ)) → EachLooksAtLine p → AreWholeLines a →
        RunsTo p files a x → RunsTo p files b y → RunsTo p files (a ++ b) (x ++ y) }
{}

/// Of two scripts that only edit their lines the script of both writes what the second writes over what the first wrote, where the
/// first breaks no line and the second counts none.
pub fn one_after_other()
    ensures { (p q : Program) (files : ℕ → List ℕ) (input middle : List ℕ) (out : List (ℕ × ℕ)) → EachOnlyEdits true p → EachOnlyEdits false q → BreaksNoLine p →
        RunsTo p files input (to_sink 0 middle) → RunsTo q files middle out → RunsTo (in_turn p q) files input out }
{}

/// Two texts of scripts, with a newline between them, mean the script of both: the commands of the first and then those of the second, where
/// no `b` or `t` leads to the end of the first, no file and no label is in both, and the second doesn't begin with the line `#n`.
pub fn texts_in_turn()
    ensures { (a b : List ℕ) (kind : Kind) (max_nodes : ℕ) (p q : Program) → Means a kind max_nodes p → Means b kind max_nodes q →
        EachLeadsInside p → ShareNoFile p q → q.quiet ≡ false → ShareNoLabel kind max_nodes a b → Means (a ++ 10 ∷ b) kind max_nodes (in_turn p q) }
{}

/// A text with a label has a colon.
pub fn label_has_colon()
    ensures { (kind : Kind) (max_nodes : ℕ) (text name : List ℕ) → HasLabel kind max_nodes text name → is_among text 58 ≡ true }
{}

/// Two texts of scripts that only edit their lines, with a newline between them, write what the second writes over what the first wrote.
pub fn texts_one_after_other()
    ensures { (a b input middle : List ℕ) (out : List (ℕ × ℕ)) → EditInTurn a b →
        EditsInto false a input (to_sink 0 middle) → EditsInto false b middle out → EditsInto false (a ++ 10 ∷ b) input out }
{
    one_meaning();
}

/// And so `sed -e A -e B` writes what B writes over what A wrote, where neither ends with a newline.
pub fn words_one_after_other()
    ensures { (a b input middle : List ℕ) (out : List (ℕ × ℕ)) → EditInTurn a b → LacksNewline a → LacksNewline b →
        EditsInto false a input (to_sink 0 middle) → EditsInto false b middle out → EditsInto false (with_part (with_part [] a) b) input out }
{
    one_meaning();
}

/// Within ample limits, an edit by `1!G;h;$!d` in which no device fails or is full comes to the ordinary end, and its sinks have
/// gained the lines in reverse order.
pub fn turned_ends()
    ensures { (l : LimitsView) (input : List ℕ) (old new : ℕ → Option (List ℕ)) (end : Ended) → Ample l 4 input → ComesTo l (codes "1!G;h;$!d") input old new end →
        (end ≡ Done) × SinksGain old new (to_sink 0 (text_of (reverse (split_lines input)))) }
{
    one_meaning();
}
