//! The flags of `s`.

ghost use Rattle.std.specs.Prelude.{◌≡◌, ◌≤◌, ◌<◌, ◌+◌, length, drop, false, slice_index, IfOk};
ghost use Rattle.sedscript.specs.Arguments.{no_flags, with_number, with_flag, flags_from, ends_flags, with_file, name_from};
ghost use Rattle.sedscript.specs.Answers.{with_rest};

use crate::bytes::{Sort, bytes_between, is_blank, number_of, past};
use crate::functions::{may_end, name_from};
use crate::items::Flags;
use crate::types::{Reason, ScriptFault};

/// Whether flags end before this byte.
fn ends_flags(b: u8) -> bool
    ensures { result ≡ ends_flags b }
{
    is_blank(b) || may_end(Some(b))
}

/// The flags with the number that these digits write, of which the first is at `at`.
fn with_number(flags: Flags, at: usize, digits: &[u8]) -> Result<Flags, ScriptFault>
    ensures { result ≡ with_number flags at digits.now }
{
    if flags.number.is_some() {
        return Err(Reason::RepeatedFlag.at(at));
    }
    match number_of(digits) {
        None | Some(0) => Err(Reason::BadNumber.at(at)),
        number => Ok(Flags { number, ..flags }),
    }
}

/// The flags with the one added that the byte `b` at `at` names. `empty` says whether the regular expression is empty.
fn with_flag(empty: bool, flags: Flags, at: usize, b: u8) -> Result<Flags, ScriptFault>
    ensures { result ≡ with_flag empty flags at b }
{
    match b {
        b'g' if !flags.global => Ok(Flags {
            global: true,
            ..flags
        }),
        b'p' if !flags.print => Ok(Flags {
            print: true,
            ..flags
        }),
        b'I' if empty => Err(Reason::FlagOnEmpty.at(at)),
        b'I' if !flags.folded => Ok(Flags {
            folded: true,
            ..flags
        }),
        b'g' | b'p' | b'I' => Err(Reason::RepeatedFlag.at(at)),
        _ => Err(Reason::UnknownFlag.at(at)),
    }
}

/// The flags with the file of the `w` at a place, and the place after its name.
fn with_file(text: &[u8], flags: Flags, at: usize) -> Result<(Flags, usize), ScriptFault>
    requires { at < length text.now }
    ensures is { result ≡ with_file flags at (name_from text.now (at + 1)) }
    ensures within { IfOk result (λ next. (at < next.1) × (next.1 ≤ length text.now)) }
{
    match name_from(text, at + 1) {
        None => Err(Reason::MissingName.at(at)),
        Some(name) => Ok((
            Flags {
                file: Some(name),
                ..flags
            },
            name.1,
        )),
    }
}

/// The flags with the one that begins at `at`, and the place after it. `empty` says whether the regular expression is
/// empty.
fn flag_at(text: &[u8], empty: bool, flags: Flags, at: usize) -> Result<(Flags, usize), ScriptFault>
    requires inside { at < length text.now }
    requires flag { ends_flags (slice_index text.now at) ≡ false }
    ensures is { flags_from text.now empty flags 0 at (drop at text.now) ≡ with_rest text.now empty result }
    ensures within { IfOk result (λ next. (at < next.1) × (next.1 ≤ length text.now)) }
{
    let b = text[at];
    if b.is_ascii_digit() {
        let to = past(Sort::Digit, text, at);
        match with_number(flags, at, bytes_between(text, at, to)) {
            Ok(flags) => Ok((flags, to)),
            Err(fault) => Err(fault),
        }
    } else if b == b'w' {
        with_file(text, flags, at)
    } else {
        match with_flag(empty, flags, at, b) {
            Ok(flags) => Ok((flags, at + 1)),
            Err(fault) => Err(fault),
        }
    }
}

/// The flags from `from` on, and the place after them. `empty` says whether the regular expression is empty.
pub fn flags_at(text: &[u8], empty: bool, from: usize) -> Result<(Flags, usize), ScriptFault>
    requires { from ≤ length text.now }
    ensures is { result ≡ flags_from text.now empty no_flags 0 from (drop from text.now) }
    ensures within { IfOk result (λ found. (from ≤ found.1) × (found.1 ≤ length text.now)) }
{
    let mut flags = Flags {
        number: None,
        global: false,
        print: false,
        folded: false,
        file: None,
    };
    let mut at = from;
    'flags: while at < text.len() && !ends_flags(text[at]) {
        let (more, next) = flag_at(text, empty, flags, at)?;
        flags = more;
        at = next;
    }
    Ok((flags, at))
}
