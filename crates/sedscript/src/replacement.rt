//! Replacements of `s`.

ghost use Rattle.std.specs.Prelude.{◌≡◌, ◌≤◌, ◌<◌, ◌+◌, ◌++◌, ◌∷◌, [], false, length, IfOk, OnOk};
ghost use Rattle.sedscript.specs.Bytes.{bytes_between};
ghost use Rattle.sedscript.specs.Strings.{escaped_piece, piece_of, pieces_of, exceeds, piece_fault, replacement_fault};
ghost use Rattle.sedscript.specs.Pieces.{pieces_in, PieceGroupsWithin};
ghost use Rattle.sedscript.specs.Answers.{pieces_with};

use crate::items::Strings;
use crate::strings::{escapes, second_of};
use crate::substitution::{Piece, ReplacementPart};
use crate::types::{Reason, ScriptFault};
use std::alloc::{AllocError, Global};

/// What this byte stands for where it is escaped, if it may be.
fn escaped_piece(delimiter: u8, b: u8) -> Option<Piece>
    ensures { result ≡ escaped_piece delimiter b }
{
    if b == delimiter {
        Some(Piece::Literal(b))
    } else if b == b'0' {
        Some(Piece::Whole)
    } else if b.is_ascii_digit() {
        Some(Piece::Group(usize::from(b - b'0')))
    } else if b == b'n' {
        Some(Piece::Literal(b'\n'))
    } else if b == b't' {
        Some(Piece::Literal(b'\t'))
    } else if b.is_ascii_alphabetic() {
        None
    } else {
        Some(Piece::Literal(b))
    }
}

/// The piece that a byte ends, `escaped` or not; None where it ends none.
fn piece_of(delimiter: u8, escaped: bool, b: u8) -> Option<Piece>
    ensures { result ≡ piece_of delimiter escaped b }
{
    if escaped {
        escaped_piece(delimiter, b)
    } else if b == b'\\' {
        None
    } else if b == b'&' {
        Some(Piece::Whole)
    } else {
        Some(Piece::Literal(b))
    }
}

/// Whether a group's number is above the limit, if there is one.
fn exceeds(limit: Option<usize>, k: usize) -> bool
    ensures { result ≡ exceeds limit k }
{
    match limit {
        None => false,
        Some(limit) => limit < k,
    }
}

/// What is wrong with the escape of a byte, if anything is. Its backslash is at `place`.
fn escape_fault(delimiter: u8, limit: Option<usize>, place: usize, b: u8) -> Option<ScriptFault>
    ensures { result ≡ piece_fault limit place (escaped_piece delimiter b) }
{
    match escaped_piece(delimiter, b) {
        None => Some(Reason::BadEscape.at(place)),
        Some(Piece::Group(k)) if exceeds(limit, k) => Some(Reason::GroupAbsent.at(place)),
        Some(_) => None,
    }
}

/// The first fault of the replacement, the second of the strings, if it has one. Groups have numbers up to `limit`, where
/// there is one.
pub fn replacement_fault(text: &[u8], strings: Strings, limit: Option<usize>) -> Option<ScriptFault>
    requires { (strings.middle < strings.to) × (strings.to ≤ length text.now) }
    ensures { result ≡ replacement_fault strings.delimiter limit false (strings.middle + 1)
        (bytes_between text.now (strings.middle + 1) strings.to) }
{
    let from = strings.middle + 1;
    let bytes = second_of(text, strings);
    let mut escaped = false;
    let mut k = 0;
    'bytes: while k < bytes.len() {
        let b = bytes[k];
        if escaped {
            if let Some(fault) = escape_fault(strings.delimiter, limit, from + k - 1, b) {
                return Some(fault);
            }
        }
        escaped = escapes(escaped, b);
        k += 1;
    }
    None
}

/// Adds the bytes that are gathered, if there are any, as a part of their own.
fn end_run(parts: &mut Vec<ReplacementPart>, run: Vec<u8>) -> Result<(), AllocError>
    ensures { OnOk result (pieces_in parts.new.items ≡ pieces_with parts.old.items run.items) }
{
    if !run.is_empty() {
        parts.push(ReplacementPart::Literal(run))?;
    }
    Ok(())
}

/// Answers the bytes that are gathered after one piece more: a byte joins those gathered so far, and any other piece
/// ends them and becomes a part.
fn add_piece(
    alloc: Global,
    parts: &mut Vec<ReplacementPart>,
    run: Vec<u8>,
    piece: Piece,
) -> Result<Vec<u8>, AllocError>
    ensures { IfOk result (λ rest.
        pieces_with parts.new.items rest.items ≡ pieces_with parts.old.items run.items ++ piece ∷ []) }
{
    match piece {
        Piece::Literal(b) => {
            let mut rest = run;
            rest.push(b)?;
            Ok(rest)
        }
        Piece::Whole => {
            end_run(parts, run)?;
            parts.push(ReplacementPart::Whole)?;
            Ok(Vec::new(alloc))
        }
        Piece::Group(k) => {
            end_run(parts, run)?;
            parts.push(ReplacementPart::Group(k))?;
            Ok(Vec::new(alloc))
        }
    }
}

/// The parts of a replacement without faults. Bytes that come together are one part.
pub fn parts_of(
    alloc: Global,
    bytes: &[u8],
    delimiter: u8,
) -> Result<Vec<ReplacementPart>, AllocError>
    ensures is { IfOk result (λ v. pieces_in v.items ≡ pieces_of delimiter bytes.now) }
    ensures within { IfOk result (λ v. PieceGroupsWithin 9 (pieces_in v.items)) }
{
    let mut parts = Vec::new(alloc);
    let mut run = Vec::new(alloc);
    let mut escaped = false;
    let mut k = 0;
    'bytes: while k < bytes.len() {
        let b = bytes[k];
        if let Some(piece) = piece_of(delimiter, escaped, b) {
            run = add_piece(alloc, &mut parts, run, piece)?;
        }
        escaped = escapes(escaped, b);
        k += 1;
    }
    end_run(&mut parts, run)?;
    Ok(parts)
}
