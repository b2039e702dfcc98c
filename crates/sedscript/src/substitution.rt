//! Substitutions: what the command `s` replaces, and by what (XCU sed, "Editing Commands in sed").

ghost use Rattle.std.specs.Prelude.{◌≡◌};
ghost use Rattle.sedscript.specs.Pieces.{pieces_in, PieceGroupsWithin};

use std::marker::Model;

/// A part of a replacement.
#[derive(Drop)]
pub enum ReplacementPart {
    /// These bytes.
    Literal(Vec<u8>),
    /// `&` (or `\0`): the matched text.
    Whole,
    /// `\1` to `\9`: what this group of the match contains.
    Group(usize),
}

/// A piece of a replacement, a byte at a time, as contracts see it.
#[derive(Clone, Copy)]
pub enum Piece {
    /// This byte.
    Literal(u8),
    /// The matched text.
    Whole,
    /// What this group of the match contains.
    Group(usize),
}

/// What an occurrence is replaced by. Contracts see its pieces.
#[derive(Drop)]
pub struct Replacement {
    parts: Vec<ReplacementPart>,
}

impl Model for Replacement {
    ghost use Rattle.std.specs.Prelude.{List};
    ghost use Rattle.sedscript.specs.declared.substitution.Piece.{Piece};
    ghost use Rattle.sedscript.specs.Pieces.{pieces_in, PieceGroupsWithin};

    ghost Value = { List Piece };

    ghost view = { λ r. pieces_in r.parts.items };

    ghost invariant = { λ r. PieceGroupsWithin 9 (pieces_in r.parts.items) };
}

impl Replacement {
    ghost use Rattle.sedscript.specs.Pieces.{pieces_in, PieceGroupsWithin};

    /// A replacement of these parts.
    pub(crate) fn of(parts: Vec<ReplacementPart>) -> Replacement
        requires { PieceGroupsWithin 9 (pieces_in parts.items) }
        ensures { result ≡ pieces_in parts.items }
    {
        Replacement { parts }
    }

    /// Its parts, in order. Their groups are 1 to 9.
    pub fn parts(&self) -> &[ReplacementPart]
        ensures pieces { pieces_in result.now ≡ self.now }
        ensures within { PieceGroupsWithin 9 self.now }
    {
        &self.parts
    }
}

/// What a command `s` does.
#[derive(Drop)]
pub struct Substitution {
    /// The script's regular expression of this number, counted from 0. None stands for the empty RE, the one last used.
    pub expression: Option<usize>,
    /// What an occurrence is replaced by.
    pub replacement: Replacement,
    /// The first occurrence that is replaced, counted from 1.
    pub number: u64,
    /// `g`: all later ones are replaced too.
    pub global: bool,
    /// `p`: the pattern space is written if a replacement was made.
    pub print: bool,
    /// `w`: the sink that it is written to, after `p`, if a replacement was made: 0 is the standard output, and the
    /// files that are written follow from 1 on.
    pub file: Option<usize>,
}
