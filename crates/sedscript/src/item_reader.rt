//! Reads the items of a script: functions with their addresses.

ghost use Rattle.std.specs.Prelude.{◌≡◌, ◌≤◌, ◌<◌, length, IfOk};
ghost use Rattle.sedscript.specs.Items.{substitute_at, argument_with, function_at, item_at, item_of};
ghost use Rattle.sedscript.specs.Answers.{as_argument, as_here, ComesFrom, IsItemAfter, IsHere};

use crate::addresses::{addresses_at, with_bang};
use crate::between::{folds, strings_at};
use crate::bytes::{Sort, byte_at, past};
use crate::expressions::expression_at;
use crate::items::{Addresses, Argument, Item, ItemOrEnd, Source};
use crate::letters::{Verb, allowed, argument_of, reads_expression, substituted};
use crate::types::{Reason, ScriptFault};
use sedre::Expr;

/// What follows the `s` at `at`, and its end.
fn substitute_at(
    source: &Source,
    exprs: &mut Vec<Expr>,
    at: usize,
) -> Result<(Argument, usize), ScriptFault>
    requires { at < length source.now.text.now }
    ensures comes { ComesFrom source.now exprs.old.items exprs.new.items as_argument result
        (substitute_at source.now.text.now (length exprs.old.items) at) }
    ensures within { IfOk result (λ found. (at < found.1) × (found.1 ≤ length source.now.text.now)) }
{
    let strings = strings_at(source.text, true, at + 1)?;
    if strings.middle == strings.from {
        return substituted(source.text, strings, None, None);
    }
    let number = exprs.len();
    let groups = expression_at(
        source,
        exprs,
        strings.delimiter,
        folds(source.text, strings),
        strings.from,
        strings.middle,
    )?;
    substituted(source.text, strings, Some(number), Some(groups))
}

/// What follows the letter at `at`, which stands for this, and the place after it.
fn argument_with(
    source: &Source,
    exprs: &mut Vec<Expr>,
    verb: Verb,
    at: usize,
) -> Result<(Argument, usize), ScriptFault>
    requires { at < length source.now.text.now }
    ensures comes { ComesFrom source.now exprs.old.items exprs.new.items as_argument result
        (argument_with source.now.text.now (length exprs.old.items) verb at) }
    ensures within { IfOk result (λ found. (at < found.1) × (found.1 ≤ length source.now.text.now)) }
{
    if reads_expression(verb) {
        substitute_at(source, exprs, at)
    } else {
        argument_of(source.text, verb, at)
    }
}

/// An item and the place after it.
fn item_of(
    addresses: Addresses,
    place: usize,
    verb: Verb,
    argument: Argument,
    next: usize,
) -> ItemOrEnd
    ensures { result ≡ item_of addresses place verb (argument, next) }
{
    ItemOrEnd::Is(
        Item {
            addresses,
            place,
            verb,
            argument,
        },
        next,
    )
}

/// The item of the function that is expected at `at`, after these addresses.
fn function_at(
    source: &Source,
    exprs: &mut Vec<Expr>,
    addresses: Addresses,
    at: usize,
) -> Result<ItemOrEnd, ScriptFault>
    requires { at ≤ length source.now.text.now }
    ensures comes { ComesFrom source.now exprs.old.items exprs.new.items as_here result
        (function_at source.now.text.now (length exprs.old.items) addresses at) }
    ensures within { IfOk result (IsItemAfter at (length source.now.text.now)) }
{
    let Some(letter) = byte_at(source.text, at) else {
        return Err(Reason::UnknownCommand.at(at));
    };
    let verb = allowed(addresses, letter, at)?;
    let (argument, next) = argument_with(source, exprs, verb, at)?;
    Ok(item_of(addresses, at, verb, argument, next))
}

/// The next item from a place on, or the end.
pub fn item_at(source: &Source, exprs: &mut Vec<Expr>, at: usize) -> Result<ItemOrEnd, ScriptFault>
    requires at { at ≤ length source.now.text.now }
    ensures comes { ComesFrom source.now exprs.old.items exprs.new.items as_here result
        (item_at source.now.text.now (length exprs.old.items) at) }
    ensures here { IfOk result (IsHere source.now.text.now at) }
{
    let start = past(Sort::Separator, source.text, at);
    match byte_at(source.text, start) {
        None => Ok(ItemOrEnd::Ends),
        Some(_) => {
            let (plain, end) = addresses_at(source, exprs, start)?;
            let (addresses, next) = with_bang(source.text, plain, end);
            function_at(source, exprs, addresses, next)
        }
    }
}
