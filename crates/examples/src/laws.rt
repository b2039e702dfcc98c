//! Laws of the definitions, in the subject's own words. The calls do nothing.

ghost use Rattle.std.specs.Prelude.{◌≡◌, ◌≤◌, ◌<◌, ◌⊎◌, ℕ, ◌+◌, Bool, true, false, List, ◌∷◌, ◌++◌, Option, Some, None, Ok, Err, All, length, drop, slice_get};
ghost use Rattle.sedre.specs.declared.types.Kind.{Kind};
ghost use Rattle.sedre.specs.Tree.{WrittenExpression};
ghost use Rattle.sedre.specs.Sets.{set_of, matching, complement};
ghost use Rattle.sedre.specs.Brackets.{list_at};
ghost use Rattle.sedscript.specs.declared.bytes.Sort.TheVariants.{Blank, Name};
ghost use Rattle.sedscript.specs.declared.types.ScriptFault.{ScriptFault};
ghost use Rattle.sedscript.specs.declared.types.Reason.TheVariants.{MissingText, RepeatedByte, BadEscape, GroupAbsent, OpenBlock, StrayClose};
ghost use Rattle.sedscript.specs.declared.types.FileUse.TheVariants.{Read, Write};
ghost use Rattle.sedscript.specs.declared.items.Flags.{Flags};
ghost use Rattle.sedscript.specs.declared.items.Strings.{Strings};
ghost use Rattle.sedscript.specs.declared.items.Argument.TheVariants.{FlaggedPair, Pair};
ghost use Rattle.sedscript.specs.declared.types.TextUse.{TextUse};
ghost use Rattle.sedscript.specs.declared.letters.Verb.TheVariants.{Close, Open, Text};
ghost use Rattle.sedscript.specs.declared.transliteration.Char.{Char};
ghost use Rattle.sedscript.specs.declared.items.Item.{Item};
ghost use Rattle.sedscript.specs.Bytes.{past, bytes_between, fault};
ghost use Rattle.sedscript.specs.Arguments.{flags_from, no_flags, name_from, text_from};
ghost use Rattle.sedscript.specs.Letters.{argument_of};
ghost use Rattle.sedscript.specs.declared.substitution.Piece.{Piece};
ghost use Rattle.sedscript.specs.Strings.{pieces_of, replacement_fault, string_end, table_of, escaped_byte, chars_from, chars_of, bytes_of, is_among, string_fault};
ghost use Rattle.sedscript.specs.Pieces.{PieceGroupsWithin};
ghost use Rattle.sedscript.specs.Script.{unescaped_from, CutScript, IsEnd, Means, block_end, commands_in};
ghost use Rattle.sedscript.specs.Program.{Program};
ghost use Rattle.sedscript.specs.FirstFault.{Faulty};
ghost use Rattle.examples.specs.Backslashes.{IsUnescaped, NoneUnescaped};
ghost use Rattle.examples.specs.Escapes.{FirstWrong, IsEscape, HasGroups, IsWrongEscape, wrong_in_string, wrong_in_replacement};
ghost use Rattle.examples.specs.Blocks.{BracesMatch, IsStray, IsUnclosed};
ghost use Rattle.examples.specs.Labels.{EndsLabel};
ghost use Rattle.examples.specs.Texts.{HasNoText, letter_of, each_backslashed};
ghost use Rattle.examples.specs.Strings.{NoneTwice, IsTransliterate, RepeatsFirst, written_string};
ghost use Rattle.examples.specs.Names.{EachOnce, names_of};
ghost use Rattle.examples.specs.Numbers.{NumberAmong};
ghost use Rattle.examples.specs.Lists.{ArePlainMembers};
ghost use Rattle.examples.specs.WrittenReplacements.{written_pieces};

/// A text of `a`, `i` or `c` ends at the first newline with an even number of backslashes directly before it, or at the
/// end of the script.
pub fn text_ends()
    ensures { (script : List ℕ) (from begin end : ℕ) → text_from script from ≡ Some (begin, end) →
        (begin ≤ end) × (end ≤ length script) × NoneUnescaped 10 script begin end
        × ((end ≡ length script) ⊎ IsUnescaped 10 script begin end) }
{}

/// `a`, `i` and `c` are refused exactly where they have no text, at their letter: where the line ends after it and
/// blanks, or where no newline ends the text and the script ends in a backslash that none escapes, or in such a one and
/// a newline.
pub fn text_missing()
    ensures { (script : List ℕ) (at : ℕ) (t : TextUse) →
        ((f : ScriptFault) → argument_of script (Text t) at ≡ Err f →
        (f.place ≡ at) × (f.reason ≡ MissingText) × HasNoText script (past Blank script (at + 1)))
        × (HasNoText script (past Blank script (at + 1)) →
        argument_of script (Text t) at ≡ fault MissingText at) }
{}

/// A script that is refused for want of a text has an `a`, `i` or `c` at the fault's place, and no text comes after that
/// and blanks.
pub fn text_fault()
    ensures { (kind : Kind) (max_nodes : ℕ) (text : List ℕ) (f : ScriptFault) → Faulty text kind max_nodes f →
        f.reason ≡ MissingText →
        (t : TextUse) × (slice_get text f.place ≡ Some (letter_of t))
        × HasNoText text (past Blank text (f.place + 1)) }
{}

/// A label holds no newline, semicolon, blank or closing brace, and one of these follows it, or the script ends
/// there.
pub fn label_ends()
    ensures { (script : List ℕ) (from : ℕ) →
        (from ≤ past Name script from) × (from ≤ length script → past Name script from ≤ length script)
        × ((at b : ℕ) → from ≤ at → at < past Name script from → slice_get script at ≡ Some b → EndsLabel b → ⊥)
        × ((b : ℕ) → slice_get script (past Name script from) ≡ Some b → EndsLabel b) }
{}

/// A string between delimiters ends at the first delimiter with an even number of backslashes directly before it.
pub fn string_ends()
    ensures { (script : List ℕ) (breaks : Bool) (delimiter from to : ℕ) →
        string_end breaks delimiter false from (drop from script) ≡ Some to →
        (from ≤ to) × IsUnescaped delimiter script from to × NoneUnescaped delimiter script from to }
{}

/// In a text, bytes each with a backslash before it stand for these bytes, whatever follows them.
pub fn escaped_bytes()
    ensures { (bytes rest : List ℕ) →
        unescaped_from false (each_backslashed bytes ++ rest) ≡ bytes ++ unescaped_from false rest }
{}

/// In a text, bytes that are no backslashes stand for themselves, whatever follows them.
pub fn plain_bytes()
    ensures { (bytes rest : List ℕ) → All (λ b. b ≡ 92 → ⊥) bytes →
        unescaped_from false (bytes ++ rest) ≡ bytes ++ unescaped_from false rest }
{}

/// Where no byte is twice in the first string of a `y`, its table gives, for the byte at a place of the first string,
/// the byte at that place of the second.
pub fn table_gives()
    ensures { (string1 string2 : List ℕ) (place s t : ℕ) → NoneTwice string1 → s < 256 →
        slice_get string1 place ≡ Some s → slice_get string2 place ≡ Some t →
        slice_get (table_of string1 string2) s ≡ Some t }
{}

/// The table of a `y` gives, for a byte that isn't in the first string, that byte.
pub fn table_keeps()
    ensures { (string1 string2 : List ℕ) (b : ℕ) → b < 256 →
        ((place : ℕ) → slice_get string1 place ≡ Some b → ⊥) → slice_get (table_of string1 string2) b ≡ Some b }
{}

/// A byte of a string of a `y` has the place of this byte in the text, or that of the backslash of its escape.
pub fn string_places()
    ensures { (text : List ℕ) (delimiter from to k : ℕ) (c : Char) →
        slice_get (chars_of text delimiter from to) k ≡ Some c →
        (slice_get text c.place ≡ Some c.byte)
        ⊎ ((b : ℕ) × IsEscape text from to c.place b × (escaped_byte delimiter b ≡ Some c.byte)) }
{}

/// A `y` of an accepted script has no byte twice in its first string, and as many bytes in its second.
pub fn strings_accepted()
    ensures { (kind : Kind) (max_nodes : ℕ) (text : List ℕ) (script : Program)
        (means : Means text kind max_nodes script) (k : ℕ) (i : Item) (s : Strings) →
        slice_get means.items k ≡ Some i → i.argument ≡ Pair s →
        NoneTwice (bytes_of (chars_of text s.delimiter s.from s.middle))
        × (length (chars_of text s.delimiter s.from s.middle)
        ≡ length (chars_of text s.delimiter (s.middle + 1) s.to)) }
{}

/// A script that is refused for a byte that is there twice has a `y`, and the fault's place is the first in its first
/// string at which a byte stands for the second time.
pub fn repeated_byte()
    ensures { (kind : Kind) (max_nodes : ℕ) (text : List ℕ) (f : ScriptFault) → Faulty text kind max_nodes f →
        f.reason ≡ RepeatedByte →
        (at : ℕ) × (s : Strings) × IsTransliterate text at s
        × RepeatsFirst (chars_of text s.delimiter s.from s.middle) f.place }
{}

/// A string of a `y` that is written out is read as its bytes, unless its delimiter is an `n`.
pub fn string_read()
    ensures { (delimiter : ℕ) (bytes : List ℕ) (at : ℕ) → (delimiter ≡ 110 → ⊥) →
        bytes_of (chars_from delimiter false at (written_string delimiter bytes)) ≡ bytes }
{}

/// A string of a `y` that is written out ends at the delimiter after it, unless that is a backslash or a
/// newline.
pub fn string_whole()
    ensures { (delimiter : ℕ) (bytes after : List ℕ) (at : ℕ) → (delimiter ≡ 92 → ⊥) → (delimiter ≡ 10 → ⊥) →
        string_end false delimiter false at (written_string delimiter bytes ++ delimiter ∷ after)
        ≡ Some (at + length (written_string delimiter bytes)) }
{}

/// A string of a `y` that is written out has no fault.
pub fn string_faultless()
    ensures { (delimiter : ℕ) (bytes : List ℕ) (at : ℕ) →
        string_fault delimiter false at (written_string delimiter bytes) ≡ None }
{}

/// The fault of a string of a `y` is that of the first backslash, escaped by none, before a byte which is none of the
/// delimiter, a backslash, `n` and `t`. Where there is no such backslash, it has none.
pub fn string_fault_first()
    ensures { (script : List ℕ) (delimiter from to : ℕ) →
        FirstWrong (wrong_in_string delimiter) script from to
        (string_fault delimiter false from (bytes_between script from to)) }
{}

/// A script that is refused for an escape has a `y` or an `s` with the fault's backslash in it: the first with which
/// something is wrong in a string of the `y`, or in the replacement of the `s`.
pub fn escape_fault()
    ensures { (kind : Kind) (max_nodes : ℕ) (text : List ℕ) (f : ScriptFault) → Faulty text kind max_nodes f →
        (f.reason ≡ BadEscape) ⊎ (f.reason ≡ GroupAbsent) → IsWrongEscape kind max_nodes text f }
{}

/// Nothing is wrong with an escape in a string of a `y` of an accepted script, and in the replacement of an `s`.
pub fn escapes_accepted()
    ensures { (kind : Kind) (max_nodes : ℕ) (text : List ℕ) (script : Program)
        (means : Means text kind max_nodes script) (k : ℕ) (i : Item) → slice_get means.items k ≡ Some i →
        ((s : Strings) → i.argument ≡ Pair s →
        FirstWrong (wrong_in_string s.delimiter) text s.from s.middle None
        × FirstWrong (wrong_in_string s.delimiter) text (s.middle + 1) s.to None)
        × ((s : Strings) (e : Option ℕ) (f : Flags) → i.argument ≡ FlaggedPair s e f →
        (groups : Option ℕ) × HasGroups kind max_nodes text s groups
        × FirstWrong (wrong_in_replacement s.delimiter groups) text (s.middle + 1) s.to None) }
{}

/// A replacement that is written out is read as its pieces, unless its delimiter is a digit.
pub fn replacement_read()
    ensures { (delimiter : ℕ) (pieces : List Piece) → (48 ≤ delimiter → delimiter ≤ 57 → ⊥) → PieceGroupsWithin 9 pieces →
        pieces_of delimiter (written_pieces delimiter pieces) ≡ pieces }
{}

/// A replacement that is written out ends at the delimiter after it, unless that is a backslash, a newline or
/// an `&`.
pub fn replacement_whole()
    ensures { (delimiter : ℕ) (pieces : List Piece) (after : List ℕ) (at : ℕ) →
        (delimiter ≡ 92 → ⊥) → (delimiter ≡ 10 → ⊥) → (delimiter ≡ 38 → ⊥) →
        string_end true delimiter false at (written_pieces delimiter pieces ++ delimiter ∷ after)
        ≡ Some (at + length (written_pieces delimiter pieces)) }
{}

/// A replacement that is written out has no fault where the expression has its groups.
pub fn replacement_faultless()
    ensures { (delimiter groups : ℕ) (pieces : List Piece) (at : ℕ) → PieceGroupsWithin 9 pieces →
        PieceGroupsWithin groups pieces →
        replacement_fault delimiter (Some groups) false at (written_pieces delimiter pieces) ≡ None }
{}

/// The fault of a replacement is that of the first backslash, escaped by none, before a letter other than `n` and `t`, or
/// before the digit of a group that the expression hasn't, where these aren't the delimiter. Where no backslash comes
/// so, it has none.
pub fn replacement_fault_first()
    ensures { (script : List ℕ) (delimiter : ℕ) (groups : Option ℕ) (from to : ℕ) →
        FirstWrong (wrong_in_replacement delimiter groups) script from to
        (replacement_fault delimiter groups false from (bytes_between script from to)) }
{}

/// Where flags of `s` are read without a file, `g` is among them exactly where a `g` is among the bytes that were
/// read, and so for `p` and `I`.
pub fn flags_read()
    ensures { (script : List ℕ) (empty : Bool) (flags : Flags) (from to : ℕ) →
        flags_from script empty no_flags 0 from (drop from script) ≡ Ok (flags, to) → flags.file ≡ None →
        (flags.global ≡ is_among (bytes_between script from to) 103)
        × (flags.print ≡ is_among (bytes_between script from to) 112)
        × (flags.folded ≡ is_among (bytes_between script from to) 73) }
{}

/// Where flags of `s` are read without a file, the digits among the bytes that were read are together and write the flags'
/// number; where the flags have no number, there are no digits.
pub fn number_read()
    ensures { (script : List ℕ) (empty : Bool) (flags : Flags) (from to : ℕ) →
        flags_from script empty no_flags 0 from (drop from script) ≡ Ok (flags, to) → flags.file ≡ None →
        NumberAmong (bytes_between script from to) flags.number }
{}

/// Where flags with a file are read, the file's name follows the first `w` there, and the flags say of the bytes before
/// that `w` what flags without a file say of all.
pub fn flags_before_file()
    ensures { (script : List ℕ) (empty : Bool) (flags : Flags) (from to : ℕ) (name : ℕ × ℕ) →
        flags_from script empty no_flags 0 from (drop from script) ≡ Ok (flags, to) → flags.file ≡ Some name →
        (w : ℕ) × (from ≤ w) × (slice_get script w ≡ Some 119) × (is_among (bytes_between script from w) 119 ≡ false)
        × (name_from script (w + 1) ≡ Some name) × (to ≡ name.1)
        × (flags.global ≡ is_among (bytes_between script from w) 103)
        × (flags.print ≡ is_among (bytes_between script from w) 112)
        × (flags.folded ≡ is_among (bytes_between script from w) 73)
        × NumberAmong (bytes_between script from w) flags.number }
{}

/// A list of one or more bytes, none of them `[`, `]`, `-` or `^`, nor a backslash where the expression has a delimiter,
/// matches exactly these bytes, in either case where case is folded, and ends after its `]`.
pub fn list_matches()
    ensures { (folded : Bool) (delimiter : Option ℕ) (before bytes after : List ℕ) → 0 < length bytes →
        ArePlainMembers delimiter bytes →
        list_at folded delimiter (before ++ 91 ∷ (bytes ++ 93 ∷ after)) (length before)
        ≡ Ok (matching folded (set_of (λ c. is_among bytes c)), length before + length bytes + 2) }
{}

/// A list of a `^` and such bytes matches exactly the bytes that the list without the `^` doesn't match, and ends after its
/// `]`.
pub fn others_match()
    ensures { (folded : Bool) (delimiter : Option ℕ) (before bytes after : List ℕ) → 0 < length bytes →
        ArePlainMembers delimiter bytes →
        list_at folded delimiter (before ++ 91 ∷ 94 ∷ (bytes ++ 93 ∷ after)) (length before)
        ≡ Ok (complement (matching folded (set_of (λ c. is_among bytes c))), length before + length bytes + 3) }
{}

/// The files that an accepted script reads, and those that it writes, are the names that occur in it, each once, in the
/// order in which they first occur there.
pub fn files_once()
    ensures { (kind : Kind) (max_nodes : ℕ) (text : List ℕ) (script : Program)
        (means : Means text kind max_nodes script) →
        EachOnce (names_of Read text means.items) script.rfiles
        × EachOnce (names_of Write text means.items) script.wfiles }
{}

/// In an accepted script each opening brace has its closing one, and each closing brace its opening one.
pub fn braces_match()
    ensures { (kind : Kind) (max_nodes : ℕ) (text : List ℕ) (script : Program)
        (means : Means text kind max_nodes script) → BracesMatch means.items }
{}

/// A block ends at the brace that closes it: before the command after it come those up to the opening brace, and those
/// within.
pub fn block_leads()
    ensures { (before inner after : List Item) (i j : Item) → i.verb ≡ Open → BracesMatch inner →
        j.verb ≡ Close → block_end before (inner ++ j ∷ after) ≡ Some (commands_in (before ++ i ∷ inner)) }
{}

/// A script that is refused for a brace is cut to its end, and the fault's place is the first closing brace that closes
/// nothing, or the first opening one that nothing closes: up to it all braces match.
pub fn brace_faults()
    ensures { (kind : Kind) (max_nodes : ℕ) (text : List ℕ) (f : ScriptFault) → Faulty text kind max_nodes f →
        (f.reason ≡ StrayClose →
        (items : List Item) × (expressions : List WrittenExpression) × (to : ℕ)
        × CutScript text kind max_nodes 0 0 items expressions to × IsEnd text to × IsStray items f.place)
        × (f.reason ≡ OpenBlock →
        (items : List Item) × (expressions : List WrittenExpression) × (to : ℕ)
        × CutScript text kind max_nodes 0 0 items expressions to × IsEnd text to × IsUnclosed items f.place) }
{}
