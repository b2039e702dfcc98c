//! Which lines the addresses of a command select (XCU sed, "Addresses in sed").
//!
//! At a line one address decides at most: the first of an idle range, the second of an active one. Only that one is
//! judged, and the choice follows from whether it matches.
ghost use Rattle.std.specs.Prelude.{◌≡◌, ◌<◌, ◌≤◌, length};
ghost use Rattle.sedacts.specs.Choose.{choice_by_match, chosen_active, chosen_idle, deciding, turned_by_bang, yes_by_number};
ghost use Rattle.sedacts.specs.Fitting.{AllFit};
ghost use Rattle.sedacts.specs.State.{finds_in};
ghost use Rattle.sedacts.specs.Move.{writes_text_at};

use sedmatch::{Scratch, TableMatcher, Text};
use sedre::Steps;
use sedscript::{Address, Command};
use sedspace::Space;

/// What the addresses of a command choose at a line.
#[derive(Clone, Copy)]
pub struct Chosen {
    /// Whether the command applies.
    pub yes: bool,
    /// Whether this is the end of the command's range.
    pub end: bool,
    /// Whether the range is active afterwards.
    pub active: bool,
}

/// The address that decides at the line of this number, where one does.
pub fn deciding(command: &Command, active: bool, number: u64) -> Option<Address>
    ensures { result ≡ deciding command.now.first command.now.second active number }
{
    let first = command.first?;
    match command.second {
        Some(Address::Line(line)) if active => { if number <= line { None } else { Some(first) } }
        Some(second) if active => Some(second),
        _ => Some(first),
    }
}

/// Whether a command applies, if it has no address or one that is a line number; None for any other.
pub fn yes_by_number(command: &Command, number: u64) -> Option<bool>
    ensures { result ≡ yes_by_number command.now.first command.now.second command.now.negate number }
{
    let matched = match (command.first, command.second) {
        (None, _) => true,
        (Some(Address::Line(line)), None) => line == number,
        _ => return None,
    };
    Some(if command.negate { !matched } else { matched })
}

/// The choice, by whether the deciding address matches. `!` turns the yes alone.
pub fn choose(command: &Command, active: bool, number: u64, matched: bool) -> Chosen
    ensures { result ≡ turned_by_bang command.now.negate
        (choice_by_match command.now.first command.now.second active number matched) }
{
    let choice = choose_straight(command.first, command.second, active, number, matched);
    Chosen {
        yes: if command.negate {
            !choice.yes
        } else {
            choice.yes
        },
        ..choice
    }
}

/// The choice without `!`.
fn choose_straight(
    first: Option<Address>,
    second: Option<Address>,
    active: bool,
    number: u64,
    matched: bool,
) -> Chosen
    ensures { result ≡ choice_by_match first second active number matched }
{
    match (first, second) {
        (Some(_), Some(second)) if active => choose_active(second, number, matched),
        (Some(_), Some(second)) => choose_idle(second, number, matched),
        _ => Chosen {
            yes: matched,
            end: false,
            active,
        },
    }
}

/// The choice where the range isn't active.
fn choose_idle(second: Address, number: u64, matched: bool) -> Chosen
    ensures { result ≡ chosen_idle second number matched }
{
    if !matched {
        return Chosen {
            yes: false,
            end: false,
            active: false,
        };
    }
    // A range that begins at the line of its second address, or past it, is over there.
    let over = matches!(second, Address::Line(line) if line <= number);
    Chosen {
        yes: true,
        end: over,
        active: !over,
    }
}

/// The choice where the range is active.
fn choose_active(second: Address, number: u64, matched: bool) -> Chosen
    ensures { result ≡ chosen_active second number matched }
{
    match second {
        Address::Line(line) if number < line => Chosen {
            yes: true,
            end: false,
            active: true,
        },
        Address::Line(line) if number == line => Chosen {
            yes: true,
            end: true,
            active: false,
        },
        Address::Line(_) => choose_idle(second, number, matched),
        _ => Chosen {
            yes: true,
            end: matched,
            active: !matched,
        },
    }
}

/// Whether the expression of number `k` has a match in the pattern space.
pub fn finds(
    matchers: &mut Vec<TableMatcher>,
    k: usize,
    pattern: &Space,
    scratch: &mut Scratch,
) -> bool
    requires number { k < length matchers.old.items }
    requires text { length pattern.now.bytes ≤ scratch.old.text }
    requires fit { AllFit scratch.old.nodes matchers.old.items }
    ensures finds { result ≡ finds_in matchers.old.items k pattern.now.bytes }
    ensures same { matchers.new.items ≡ matchers.old.items }
    ensures scratch { scratch.new ≡ scratch.old }
{
    let text = Text::new(pattern.bytes());
    let mut steps = Steps::new();
    let matcher = &mut matchers[k];
    matcher.is_match(&text, 0, scratch, &mut steps)
}

/// Whether `c` writes its text: without a range, at a range's end, and with `!`.
pub fn writes_text(command: &Command, end: bool) -> bool
    ensures { result ≡ writes_text_at command.now end }
{
    command.second.is_none() || end || command.negate
}
