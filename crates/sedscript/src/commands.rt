//! The commands that the items become, what they name by numbers, and what is wrong with their labels and blocks.

ghost use Rattle.std.specs.Prelude.{◌≡◌, ◌+◌, ◌++◌, List, [], Some, false, drop, take, slice_get, map, option_map, IfOk, OnOk};
ghost use Rattle.std.specs.List.{cons_option};
ghost use Rattle.sedscript.specs.Tables.{TargetsAre, FilesAre, EndIs};
ghost use Rattle.sedscript.specs.Parts.{OperandsAre};
ghost use Rattle.sedscript.specs.Script.{target_fault_at, target_fault, action_of, command_of, commands_of, text_in, substitution_of, substitution_in, table_in, unescaped_from, is_quiet};
ghost use Rattle.sedscript.specs.declared.items.Item.{Item};

use crate::files::Files;
use crate::functions::fault_if;
use crate::items::{Argument, Flags, Item, Strings};
use crate::letters::Verb;
use crate::packed::Items;
use crate::replacement::parts_of;
use crate::script::Operands;
use crate::strings::second_of;
use crate::substitution::{Replacement, Substitution};
use crate::targets::{Targets, depth_after, opened, written_in};
use crate::transliteration::table_between;
use crate::types::{Action, Command, Reason, ScriptFault};
use std::alloc::{AllocError, Global};

/// The action of an item; None where it doesn't become a command. The operands of the items before it are `operands`,
/// and the block that it opens ends at `end`, if it opens one.
fn action_of<'a>(
    text: &'a [u8],
    targets: &Targets<'a>,
    files: &Files<'a>,
    operands: &Operands,
    end: Option<usize>,
    item: Item,
) -> Option<Action>
    ensures { (all before after : List Item) →
        TargetsAre text.now all targets.now.labels targets.now.ends.items targets.now.commands →
        FilesAre text.now all files.now → OperandsAre text.now all before operands.now →
        EndIs before after item.verb end → result ≡ action_of text.now all before after item.verb item.argument }
{
    let written = written_in(text, item.argument);
    match item.verb {
        Verb::Plain(simple) => Some(Action::Plain(simple)),
        Verb::Open => Some(Action::Block(end.unwrap_or(0))),
        Verb::Branch(branch_use) => {
            Some(Action::Branch(branch_use, targets.branch(written).unwrap_or(0)))
        }
        Verb::Text(text_use) => Some(Action::Text(text_use, operands.texts.len())),
        Verb::File(file_use) => Some(Action::File(file_use, files.number(file_use, written))),
        Verb::Substitute => Some(Action::Substitute(operands.substitutions.len())),
        Verb::Transliterate => Some(Action::Transliterate(operands.tables.len())),
        _ => None,
    }
}

/// What is wrong with the item at index `k`, if anything is. The block that it opens ends at `end`, if it opens one, and
/// `depth` blocks are open before it.
fn target_fault_at<'a>(
    text: &'a [u8],
    targets: &Targets<'a>,
    end: Option<usize>,
    depth: usize,
    k: usize,
    item: Item,
) -> Option<ScriptFault>
    ensures { (items : List Item) →
        TargetsAre text.now items targets.now.labels targets.now.ends.items targets.now.commands →
        slice_get items k ≡ Some item → EndIs (take k items) (drop (k + 1) items) item.verb end →
        result ≡ target_fault_at text.now items (take k items) depth (drop (k + 1) items) item.place item.verb item.argument }
{
    let name = written_in(text, item.argument);
    match item.verb {
        Verb::Open => fault_if(end.is_none(), Reason::OpenBlock, item.place),
        Verb::Close => fault_if(depth == 0, Reason::StrayClose, item.place),
        Verb::Label => fault_if(
            targets.is_repeated(name, k),
            Reason::RepeatedLabel,
            item.place,
        ),
        Verb::Branch(_) => {
            fault_if(
                targets.branch(name).is_none(),
                Reason::UnknownLabel,
                item.place,
            )
        }
        _ => None,
    }
}

/// The first fault of labels and blocks, if there is one.
pub fn target_fault<'a>(text: &'a [u8], items: &Items, targets: &Targets<'a>) -> Option<ScriptFault>
    requires targets { TargetsAre text.now items.now targets.now.labels targets.now.ends.items targets.now.commands }
    ensures { result ≡ target_fault text.now items.now }
{
    let mut blocks = 0;
    let mut depth: usize = 0;
    let mut k = 0;
    'items: while k < items.len() {
        let item = items.get(k);
        let fault = target_fault_at(text, targets, targets.block_end(blocks), depth, k, item);
        if fault.is_some() {
            return fault;
        }
        blocks = opened(blocks, item.verb);
        depth = depth_after(depth, item.verb);
        k += 1;
    }
    None
}

/// Adds the command that an item becomes, if it has an action.
fn add_command(
    commands: &mut Vec<Command>,
    item: Item,
    action: Option<Action>,
) -> Result<(), AllocError>
    ensures { OnOk result (commands.new.items ≡ commands.old.items ++ cons_option (option_map (command_of item.addresses) action) []) }
{
    if let Some(action) = action {
        commands.push(Command {
            first: item.addresses.first,
            second: item.addresses.second,
            negate: item.addresses.negate,
            action,
        })?;
    }
    Ok(())
}

/// A text without the backslashes that escape its bytes.
fn unescaped(alloc: Global, bytes: &[u8]) -> Result<Vec<u8>, AllocError>
    ensures { IfOk result (λ v. v.items ≡ unescaped_from false bytes.now) }
{
    let mut plain = Vec::new(alloc);
    let mut escaped = false;
    let mut k = 0;
    'bytes: while k < bytes.len() {
        let b = bytes[k];
        if !escaped && b == b'\\' {
            escaped = true;
        } else {
            plain.push(b)?;
            escaped = false;
        }
        k += 1;
    }
    Ok(plain)
}

/// The substitution that an `s` makes.
fn substitution_of<'a>(
    alloc: Global,
    text: &'a [u8],
    files: &Files<'a>,
    strings: Strings,
    expression: Option<usize>,
    flags: Flags,
) -> Result<Substitution, AllocError>
    ensures { IfOk result (λ s. (items : List Item) →
        FilesAre text.now items files.now → s ≡ substitution_of text.now items strings expression flags) }
{
    let parts = parts_of(alloc, second_of(text, strings), strings.delimiter)?;
    Ok(Substitution {
        expression,
        replacement: Replacement::of(parts),
        number: flags.number.unwrap_or(1),
        global: flags.global,
        print: flags.print,
        file: files.sink(text, flags),
    })
}

/// Adds the text of an item, if it has one.
fn add_text(
    alloc: Global,
    text: &[u8],
    texts: &mut Vec<Vec<u8>>,
    item: Item,
) -> Result<(), AllocError>
    ensures { OnOk result (map (λ t. t.items) texts.new.items
        ≡ map (λ t. t.items) texts.old.items ++ cons_option (text_in text.now item.verb item.argument) []) }
{
    if let Verb::Text(_) = item.verb {
        texts.push(unescaped(alloc, written_in(text, item.argument))?)?;
    }
    Ok(())
}

/// Adds the text, the substitution or the table of an item, if it has one.
fn add_operand<'a>(
    alloc: Global,
    text: &'a [u8],
    files: &Files<'a>,
    operands: &mut Operands,
    item: Item,
) -> Result<(), AllocError>
    ensures texts { OnOk result (map (λ t. t.items) operands.new.texts.items
        ≡ map (λ t. t.items) operands.old.texts.items ++ cons_option (text_in text.now item.verb item.argument) []) }
    ensures substitutions { OnOk result ((all : List Item) → FilesAre text.now all files.now →
        operands.new.substitutions.items
        ≡ operands.old.substitutions.items ++ cons_option (substitution_in text.now all item.argument) []) }
    ensures tables { OnOk result (map (λ t. t.items) operands.new.tables.items
        ≡ map (λ t. t.items) operands.old.tables.items ++ cons_option (table_in text.now item.argument) []) }
{
    add_text(alloc, text, &mut operands.texts, item)?;
    match item.argument {
        Argument::FlaggedPair(strings, expression, flags) => {
            let substitution = substitution_of(alloc, text, files, strings, expression, flags)?;
            operands.substitutions.push(substitution)?;
        }
        Argument::Pair(strings) => {
            operands.tables.push(table_between(alloc, text, strings)?)?;
        }
        _ => {}
    }
    Ok(())
}

/// The commands that the items become, in order. Their texts, substitutions and tables are added to `operands`, where none
/// were.
pub fn commands_of<'a>(
    alloc: Global,
    text: &'a [u8],
    items: &Items,
    targets: &Targets<'a>,
    files: &Files<'a>,
    operands: &mut Operands,
) -> Result<Vec<Command>, AllocError>
    requires targets { TargetsAre text.now items.now targets.now.labels targets.now.ends.items targets.now.commands }
    requires files { FilesAre text.now items.now files.now }
    requires none { OperandsAre text.now items.now [] operands.old }
    ensures commands { IfOk result (λ v. v.items ≡ commands_of text.now items.now [] items.now) }
    ensures operands { OnOk result (OperandsAre text.now items.now items.now operands.new) }
{
    let mut commands = Vec::with_capacity(alloc, targets.commands)?;
    let mut blocks = 0;
    let mut k = 0;
    'items: while k < items.len() {
        let item = items.get(k);
        let end = targets.block_end(blocks);
        let action = action_of(text, targets, files, operands, end, item);
        add_command(&mut commands, item, action)?;
        add_operand(alloc, text, files, operands, item)?;
        blocks = opened(blocks, item.verb);
        k += 1;
    }
    Ok(commands)
}

/// Whether the first line of a script is exactly `#n`.
pub fn is_quiet(text: &[u8]) -> bool
    ensures { result ≡ is_quiet text.now }
{
    match text {
        [b'#', b'n'] => true,
        [b'#', b'n', b'\n', ..] => true,
        _ => false,
    }
}
