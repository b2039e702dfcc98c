//! The texts of help and of a command line that is refused (this project's own words).

/// How the program is called.
pub const USAGE: &str = "sed [-n] [-E] script [file...]
       sed [-n] [-E] [-e script]... [-f file]... [file...]";

/// What the statuses and the codes of messages mean, which help ends with.
pub(crate) const CODES: &str = "The status is
  0  after a script that ran over the whole input, or that q ended
  1  where the command line, the script or a file of it is refused; no input
     was read
  2  where an input file can't be opened; the others were edited
  4  where the run ended early; what was written before stands

A script is refused by `sed: script byte PLACE: S15 TrailingBytes`. PLACE counts
the bytes of the whole script from 0, with a newline after each part. Where the
parts are p and p x, and PLACE is 4, this shows the script from there on:
  printf '%s\\n' 'p' 'p x' | tail -c +5

  S1   no command stands where one is expected
  S2   the command takes fewer addresses
  S3   a line number is 0 or too large, or no address follows a comma
  S4   a, i or c has no text
  S5   an expression, a replacement or a string isn't ended
  S6   a backslash or a newline can't be the delimiter
  S7   s has no such flag
  S8   a flag stands twice
  S9   the number of a match is 0 or too large
  S10  no label has this name
  S11  two labels have this name
  S12  a : has no name
  S13  a block isn't closed
  S14  a } closes nothing
  S15  something else follows a command
  S16  the strings of y differ in length
  S17  a byte stands twice in the first string of y
  S18  a backslash stands before a letter or digit with which it means nothing
  S19  a file has no name
  S20  the expression has no group of this number
  S21  the expression has the fault that follows
  S23  I belongs to an empty expression

Faults of expressions:

  E1   a list isn't closed
  E2   no class has this name
  E3   more than one byte in [. .] or [= =]
  E4   a range ends before its start or goes on, or an end is no single byte
  E5   a group isn't closed
  E6   no group is open
  E7   an interval isn't one, or its numbers are out of order or above 255
  E8   nothing stands before a repetition, or ? stands after one with -E
  E9   a backslash is the last byte
  E10  a backslash stands before a byte with which it means nothing
  E11  a back-reference, \\1 to \\9
  E12  the expression, written out, is too large
  E13  it nests too deep

A run that ends early says why, with the number of its line:

  F1   the line, or what a command makes of it, is too long
  F2   what a command puts into the hold space is too long
  F3   too many texts and files of a and r wait
  F4   no turns are left
  F5   an empty expression stands for the last one, and there was none
  F6   a read of the input failed
  F7   a write failed: 0 is the standard output, 1 the first file of w
  F8   an output is full; only hosts of the library limit that
";
