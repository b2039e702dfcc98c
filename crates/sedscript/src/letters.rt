//! The letters of the functions: what each stands for, and what is asked of it.

ghost use Rattle.std.specs.Prelude.{◌≡◌, ◌≤◌, ◌<◌, length, IfOk};
ghost use Rattle.std.specs.Option.{option_len};
ghost use Rattle.sedscript.specs.Letters.{verb_of, most_addresses, becomes_command, is_open, is_close, reads_expression, allowed, name_at, label_at, transliterate_at, substituted, argument_of};
ghost use Rattle.sedscript.specs.Answers.{AreStrings};

use crate::between::strings_at;
use crate::bytes::{Sort, past};
use crate::flags::flags_at;
use crate::functions::{name_from, spanned, to_command_end};
use crate::items::{Addresses, Argument, Strings};
use crate::replacement::replacement_fault;
use crate::texts::text_from;
use crate::transliteration::strings_fault;
use crate::types::{Address, BranchUse, FileUse, Reason, ScriptFault, Simple, TextUse};

/// What a letter stands for.
#[derive(Clone, Copy)]
pub enum Verb {
    /// A function of one letter, which nothing follows.
    Plain(Simple),
    /// `{`, and the next command may follow at once.
    Open,
    /// `}`
    Close,
    /// `#` and the rest of the line.
    Comment,
    /// `:` and a name.
    Label,
    /// `b` or `t` and a name, which is empty where there is none.
    Branch(BranchUse),
    /// `a`, `i` or `c` and a text.
    Text(TextUse),
    /// `r` or `w` and a name.
    File(FileUse),
    /// `s`, which alone reads a regular expression.
    Substitute,
    /// `y` and two strings.
    Transliterate,
}

/// What a letter stands for; None where it stands for no function.
fn verb_of(letter: u8) -> Option<Verb>
    ensures { result ≡ verb_of letter }
{
    match letter {
        b'{' => Some(Verb::Open),
        b'}' => Some(Verb::Close),
        b'#' => Some(Verb::Comment),
        b':' => Some(Verb::Label),
        b'b' => Some(Verb::Branch(BranchUse::Always)),
        b't' => Some(Verb::Branch(BranchUse::IfReplaced)),
        b'a' => Some(Verb::Text(TextUse::Append)),
        b'i' => Some(Verb::Text(TextUse::Insert)),
        b'c' => Some(Verb::Text(TextUse::Change)),
        b'r' => Some(Verb::File(FileUse::Read)),
        b'w' => Some(Verb::File(FileUse::Write)),
        b's' => Some(Verb::Substitute),
        b'y' => Some(Verb::Transliterate),
        b'=' => Some(Verb::Plain(Simple::LineNumber)),
        b'd' => Some(Verb::Plain(Simple::Delete)),
        b'D' => Some(Verb::Plain(Simple::DeleteFirst)),
        b'l' => Some(Verb::Plain(Simple::List)),
        b'n' => Some(Verb::Plain(Simple::NextLine)),
        b'N' => Some(Verb::Plain(Simple::AppendNext)),
        b'p' => Some(Verb::Plain(Simple::Print)),
        b'P' => Some(Verb::Plain(Simple::PrintFirst)),
        b'q' => Some(Verb::Plain(Simple::Quit)),
        b'g' => Some(Verb::Plain(Simple::CopyHold)),
        b'G' => Some(Verb::Plain(Simple::AppendHold)),
        b'h' => Some(Verb::Plain(Simple::Hold)),
        b'H' => Some(Verb::Plain(Simple::HoldMore)),
        b'x' => Some(Verb::Plain(Simple::Exchange)),
        _ => None,
    }
}

/// The most addresses that a function takes.
fn most_addresses(verb: Verb) -> usize
    ensures { result ≡ most_addresses verb }
{
    match verb {
        Verb::Label | Verb::Close | Verb::Comment => 0,
        Verb::Plain(Simple::Quit) => 1,
        _ => 2,
    }
}

/// Whether a function becomes a command: all but `}`, `:` and `#` do.
pub fn becomes_command(verb: Verb) -> bool
    ensures { result ≡ becomes_command verb }
{
    !matches!(verb, Verb::Close | Verb::Label | Verb::Comment)
}

/// Whether a function opens a block.
pub fn is_open(verb: Verb) -> bool
    ensures { result ≡ is_open verb }
{
    matches!(verb, Verb::Open)
}

/// Whether a function closes a block.
pub fn is_close(verb: Verb) -> bool
    ensures { result ≡ is_close verb }
{
    matches!(verb, Verb::Close)
}

/// Whether a function reads a regular expression.
pub fn reads_expression(verb: Verb) -> bool
    ensures { result ≡ reads_expression verb }
{
    matches!(verb, Verb::Substitute)
}

/// 1 where there is an address, and 0 where there is none.
fn given(address: Option<Address>) -> usize
    ensures { result ≡ option_len address }
{
    match address {
        None => 0,
        Some(_) => 1,
    }
}

/// What the letter at `at` stands for, if that is a function which may have these addresses.
pub fn allowed(addresses: Addresses, letter: u8, at: usize) -> Result<Verb, ScriptFault>
    ensures { result ≡ allowed addresses at (verb_of letter) }
{
    match verb_of(letter) {
        None => Err(Reason::UnknownCommand.at(at)),
        Some(verb) => {
            let most = most_addresses(verb);
            if addresses.negate && most == 0 {
                Err(Reason::UnknownCommand.at(at))
            } else if most < given(addresses.first) + given(addresses.second) {
                Err(Reason::TooManyAddresses.at(at))
            } else {
                Ok(verb)
            }
        }
    }
}

/// The name of a label that begins at `from`, which may be empty, and the end of its command.
fn name_at(text: &[u8], from: usize) -> Result<(Argument, usize), ScriptFault>
    requires { from ≤ length text.now }
    ensures is { result ≡ name_at text.now from }
    ensures within { IfOk result (λ found. (from ≤ found.1) × (found.1 ≤ length text.now)) }
{
    let end = past(Sort::Name, text, from);
    to_command_end(text, Argument::Between(from, end), end)
}

/// The name of the label whose `:` is at `place`, where that name begins at `from`, and the end of its command.
fn label_at(text: &[u8], place: usize, from: usize) -> Result<(Argument, usize), ScriptFault>
    requires { from ≤ length text.now }
    ensures is { result ≡ label_at text.now place from }
    ensures within { IfOk result (λ found. (from ≤ found.1) × (found.1 ≤ length text.now)) }
{
    if past(Sort::Name, text, from) == from {
        Err(Reason::MissingLabel.at(place))
    } else {
        name_at(text, from)
    }
}

/// The strings of the command `y` whose letter is at `at`, and its end.
#[tactic(auto, unfolding(crate::specs::Letters::transliterate_at))]
fn transliterate_at(text: &[u8], at: usize) -> Result<(Argument, usize), ScriptFault>
    requires { at < length text.now }
    ensures is { result ≡ transliterate_at text.now at }
    ensures within { IfOk result (λ found. (at < found.1) × (found.1 ≤ length text.now)) }
{
    let strings = strings_at(text, false, at + 1)?;
    if let Some(fault) = strings_fault(text, strings, at) {
        return Err(fault);
    }
    to_command_end(text, Argument::Pair(strings), strings.to + 1)
}

/// These strings of an `s` with their flags, and its end. Its regular expression has this number in the script; None
/// stands for the empty one. The groups of the replacement have numbers up to `limit`, where there is one.
#[tactic(auto, unfolding(crate::specs::Letters::substituted))]
pub fn substituted(
    text: &[u8],
    strings: Strings,
    expression: Option<usize>,
    limit: Option<usize>,
) -> Result<(Argument, usize), ScriptFault>
    requires { AreStrings 0 (length text.now) strings }
    ensures is { result ≡ substituted text.now strings expression limit }
    ensures within { IfOk result (λ found. (strings.to < found.1) × (found.1 ≤ length text.now)) }
{
    if let Some(fault) = replacement_fault(text, strings, limit) {
        return Err(fault);
    }
    let (flags, end) = flags_at(text, expression.is_none(), strings.to + 1)?;
    to_command_end(text, Argument::FlaggedPair(strings, expression, flags), end)
}

/// What follows the letter at `at`, which stands for this and reads no expression, and the place after it.
pub fn argument_of(text: &[u8], verb: Verb, at: usize) -> Result<(Argument, usize), ScriptFault>
    requires { at < length text.now }
    ensures is { result ≡ argument_of text.now verb at }
    ensures within { IfOk result (λ found. (at < found.1) × (found.1 ≤ length text.now)) }
{
    match verb {
        Verb::Open => Ok((Argument::Nothing, at + 1)),
        Verb::Comment => Ok((Argument::Nothing, past(Sort::Line, text, at + 1))),
        Verb::Label => label_at(text, at, past(Sort::Blank, text, at + 1)),
        Verb::Branch(_) => name_at(text, past(Sort::Blank, text, at + 1)),
        Verb::Text(_) => {
            spanned(
                Reason::MissingText,
                at,
                text_from(text, past(Sort::Blank, text, at + 1)),
            )
        }
        Verb::File(_) => spanned(Reason::MissingName, at, name_from(text, at + 1)),
        Verb::Transliterate => transliterate_at(text, at),
        _ => to_command_end(text, Argument::Nothing, at + 1),
    }
}
