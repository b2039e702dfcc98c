//! Lines that no command of a script touches: what the commands that are reached on such a line need of it, found out once.
ghost use Rattle.std.specs.Prelude.{◌≡◌, ◌<◌, ◌≤◌, ◌+◌, ◌^◌, ◌⊎◌, IfOk, IfSome, IsNone, OnOk, Some, ℕ, false, is_some, length, true};
ghost use Rattle.sedscript.specs.declared.types.Address.TheVariants.{Line};
ghost use Rattle.sedscript.specs.Ranges.{AddressWithin, CommandWithin};
ghost use Rattle.sedacts.specs.Idle.{AsksNoNumber, IsIdleOf, NeedWithin, NotesNeed, RangesIdle, need_at, need_of, need_of_address};
ghost use Rattle.sedacts.specs.Idle.{behind_by, need_of_action};
ghost use Rattle.sedscript.specs.Script.{ActionWithin};

use sedscript::types::BranchUse;
use sedscript::{Action, Address, Command, Script};
use std::alloc::{AllocError, Global};

/// The most expressions that are judged on a line that no command touches: each is sought in every line.
const MOST_EXPRESSIONS: usize = 4;

/// The most commands that are reached on such a line: they are gone over before each block.
const MOST_REACHED: usize = 64;

/// What a command needs of a line to do nothing on it.
#[derive(Clone, Copy)]
pub enum Need {
    /// No match of this expression.
    NoMatch(usize),
    /// Another number than this.
    OtherNumber(u64),
    /// A line after it.
    NotLast,
    /// Nothing: it does nothing on any line.
    Nothing,
}

/// What the commands need that are reached on a line that none of them touches.
#[derive(Drop)]
pub struct Idle {
    /// How many are reached.
    pub reached: usize,
    /// The number of the command that is reached then.
    pub place: usize,
    /// The expression judged last.
    pub judged: Option<usize>,
    /// Whether one asks for the last line.
    pub asks_last: bool,
    /// The expressions that are judged.
    pub expressions: Vec<usize>,
}

/// What an address needs to select nothing.
fn need_of_address(address: Address) -> Option<Need>
    ensures is { result ≡ need_of_address address }
    ensures within { (n : ℕ) → AddressWithin n (Some address) → NeedWithin n result }
{
    match address {
        Address::Line(number) => Some(Need::OtherNumber(number)),
        Address::Last => Some(Need::NotLast),
        Address::Match(Some(e)) => Some(Need::NoMatch(e)),
        Address::Match(None) => None,
    }
}

/// What an action needs to do nothing where it applies.
fn need_of_action(script: &Script, action: Action) -> Option<Need>
    requires { ActionWithin script.now action }
    ensures is { result ≡ need_of_action script.now.substitutions action }
    ensures within { NeedWithin (length script.now.expressions) result }
{
    match action {
        Action::Substitute(k) => script.substitution(k).expression.map(Need::NoMatch),
        Action::Block(_) | Action::Branch(..) => Some(Need::Nothing),
        _ => None,
    }
}

/// What a command needs, if that is known.
fn need_of(script: &Script, command: &Command) -> Option<Need>
    requires { CommandWithin script.now command.now }
    ensures is { result ≡ need_of script.now.substitutions (Some command.now) }
    ensures within { NeedWithin (length script.now.expressions) result }
{
    if command.negate {
        return None;
    }
    match command.first {
        Some(address) => need_of_address(address),
        None => need_of_action(script, command.action),
    }
}

/// Where the script goes on behind command `k`, if that does nothing.
fn behind(command: &Command, k: usize) -> usize
    requires { k + 1 < 2 ^ 64 }
    ensures { result ≡ behind_by command.now.first command.now.action k }
{
    match (command.first, command.action) {
        (Some(_), Action::Block(next)) => next,
        (None, Action::Branch(BranchUse::Always, target)) => target,
        _ => k + 1,
    }
}

impl Idle {
    /// Notes what one more command needs, behind which the script goes on at this place.
    fn note(&mut self, need: Need, place: usize) -> Result<(), AllocError>
        requires { self.old.reached + 1 < 2 ^ 64 }
        ensures { OnOk result (NotesNeed self.old self.new need place) }
    {
        match need {
            Need::NoMatch(e) => {
                self.expressions.push(e)?;
                self.judged = Some(e);
            }
            Need::NotLast => self.asks_last = true,
            Need::OtherNumber(_) | Need::Nothing => {}
        }
        self.reached += 1;
        self.place = place;
        Ok(())
    }
}

/// What is needed of a line that no command of a script touches; None where that isn't known.
pub(crate) fn idle_of(alloc: Global, script: &Script) -> Result<Option<Idle>, AllocError>
    ensures { IfOk result (λ o. IfSome o (IsIdleOf script.now)) }
{
    let mut idle = Idle {
        reached: 0,
        place: 0,
        judged: None,
        asks_last: false,
        expressions: Vec::new(alloc),
    };
    'walk: while idle.place < script.len() {
        // A walk that goes round ends here too.
        if idle.reached >= MOST_REACHED {
            return Ok(None);
        }
        let command = script.command(idle.place);
        let Some(need) = need_of(script, command) else {
            return Ok(None);
        };
        let next = behind(command, idle.place);
        idle.note(need, next)?;
    }
    if idle.expressions.len() > MOST_EXPRESSIONS {
        return Ok(None);
    }
    Ok(Some(idle))
}

/// How many lines of those after the one of this number come before one whose number a command asks for, at most.
fn clear_of(command: &Command, number: u64, most: u64) -> u64
    ensures fewer { result ≤ most }
    ensures clear { (n : ℕ) → command.now.first ≡ Some (Line n) → (n ≤ number) ⊎ (number + result < n) }
{
    match command.first {
        Some(Address::Line(n)) if n > number => most.min(n - number - 1),
        _ => most,
    }
}

/// How many lines after the one of this number may be passed over at most, if no command touches them for what they contain: up
/// to one whose number is asked for. None where a range is active. `reached` commands are reached on such a line.
pub fn clear_lines(script: &Script, ranges: &[bool], reached: usize, number: u64) -> Option<u64>
    requires ranges { length ranges.now ≡ length script.now.commands }
    requires needs { (j : ℕ) → j < reached → is_some (need_at script.now.commands script.now.substitutions j) ≡ true }
    ensures active { IsNone result → RangesIdle script.now.commands reached ranges.now → ⊥ }
    ensures idle { IfSome result (λ most. RangesIdle script.now.commands reached ranges.now) }
    ensures clear { IfSome result (λ most. AsksNoNumber script.now.commands script.now.substitutions reached number most) }
{
    let mut place = 0;
    let mut most = u64::MAX - number;
    'walk: for j in 0..reached {
        let command = script.command(place);
        if ranges[place] {
            return None;
        }
        most = clear_of(command, number, most);
        place = behind(command, place);
    }
    Some(most)
}
