//! Where labels and blocks lead, by tables that are made once so that nothing is searched anew.

ghost use Rattle.std.specs.Prelude.{◌≡◌, ◌<◌, ◌≤◌, ◌+◌, ℕ, List, Option, Some, None, true, is_some, take};
ghost use Rattle.std.specs.Prelude.{slice_get, reverse, unwrap_or, if◌then◌else◌, IfOk, OnOk};
ghost use Rattle.std.specs.Option.{option_or};
ghost use Rattle.sedscript.specs.Script.{written_in, count_with, commands_in, is_label, label_in, branch_in, depth_after};
ghost use Rattle.sedscript.specs.Letters.{becomes_command};
ghost use Rattle.sedscript.specs.declared.items.Item.{Item};
ghost use Rattle.sedscript.specs.Tables.{TargetsAre, ends_in, with_end, opened, unopened_by, labelled};

use crate::bytes::bytes_between;
use crate::items::{Argument, Item};
use crate::letters::{Verb, becomes_command, is_close, is_open};
use crate::packed::Items;
use std::alloc::{AllocError, Global};
use std::collections::BTreeMap;

/// The first item with a label.
#[derive(Clone, Copy)]
pub struct FirstLabel {
    /// The item's index.
    pub item: usize,
    /// The number of commands before it.
    pub number: usize,
}

/// The name or the text that follows a letter, as it is written; empty where none does.
pub fn written_in(text: &[u8], argument: Argument) -> &[u8]
    ensures { result.now ≡ written_in text.now argument }
{
    match argument {
        Argument::Between(from, to) => bytes_between(text, from, to),
        _ => &[],
    }
}

/// The number of commands up to and including this item, where there are `n` before it.
pub fn counted(n: usize, item: Item) -> usize
    requires { n < usize.MAX }
    ensures is { result ≡ count_with n item }
    ensures few { result ≤ n + 1 }
{
    if becomes_command(item.verb) { n + 1 } else { n }
}

/// The number of commands before this item, where there are `n` up to and including it.
fn number_before(n: usize, item: Item) -> usize
    requires { becomes_command item.verb ≡ true → 1 ≤ n }
    ensures { n ≡ count_with result item }
{
    if becomes_command(item.verb) { n - 1 } else { n }
}

/// The number of blocks opened up to and including this function, where there are `n` before it.
pub fn opened(n: usize, verb: Verb) -> usize
    requires { n < usize.MAX }
    ensures is { result ≡ opened n verb }
    ensures few { result ≤ n + 1 }
{
    if is_open(verb) { n + 1 } else { n }
}

/// Passes a function on the way back: `n` commands come before it, the stack `unopened` has where the closing braces lead
/// that come after it and close no block opened there, and `ends` has the ends of the blocks after it, the last one first.
fn pass_back(
    ends: &mut Vec<Option<usize>>,
    unopened: &mut Vec<usize>,
    n: usize,
    verb: Verb,
) -> Result<(), AllocError>
    ensures unopened { OnOk result ((us : List ℕ) → unopened.old.items ≡ reverse us →
        unopened.new.items ≡ reverse (unopened_by n verb us)) }
    ensures ends { OnOk result ((us : List ℕ) (es : List (Option ℕ)) → unopened.old.items ≡ reverse us →
        ends.old.items ≡ reverse es → ends.new.items ≡ reverse (with_end verb (slice_get us 0) es)) }
{
    if is_open(verb) {
        ends.push(unopened.pop())?;
    } else if is_close(verb) {
        unopened.push(n)?;
    }
    Ok(())
}

/// For each block the number of the command after its end; None where it isn't closed.
fn ends_of(alloc: Global, items: &Items, commands: usize) -> Result<Vec<Option<usize>>, AllocError>
    requires { commands ≡ commands_in items.now }
    ensures { IfOk result (λ ends. ends.items ≡ ends_in 0 items.now) }
{
    let mut ends = Vec::new(alloc);
    let mut unopened = Vec::new(alloc);
    let mut n = commands;
    let mut k = items.len();
    'items: while k > 0 {
        k -= 1;
        let item = items.get(k);
        n = number_before(n, item);
        pass_back(&mut ends, &mut unopened, n, item.verb)?;
    }
    ends.reverse();
    Ok(ends)
}

/// Adds the label that an item is, if it is one and no earlier label has its name. The item is at index `k`, after
/// `n` commands.
fn add_label<'a>(
    labels: &mut BTreeMap<&'a [u8], FirstLabel>,
    text: &'a [u8],
    item: Item,
    k: usize,
    n: usize,
) -> Result<(), AllocError>
    ensures { OnOk result ((name : List ℕ) → labelled labels.new name ≡
        option_or (labelled labels.old name)
        (if is_label text.now name item.verb item.argument then Some (record { item = k; number = n }) else None)) }
{
    let Verb::Label = item.verb else {
        return Ok(());
    };
    let name = written_in(text, item.argument);
    if labels.contains_key(&name) {
        return Ok(());
    }
    match labels.insert(name, FirstLabel { item: k, number: n }) {
        Ok(_) => Ok(()),
        Err(_) => Err(AllocError),
    }
}

/// Where the labels and blocks of a script lead.
#[derive(Drop)]
pub struct Targets<'a> {
    /// The first label of each name.
    pub labels: BTreeMap<&'a [u8], FirstLabel>,
    /// For each block the number of the command after its end; None where it isn't closed.
    pub ends: Vec<Option<usize>>,
    /// How many commands there are.
    pub commands: usize,
}

/// Finds where the labels and blocks of the items lead, in one pass over them for each table.
pub fn targets_of<'a>(
    alloc: Global,
    text: &'a [u8],
    items: &Items,
) -> Result<Targets<'a>, AllocError>
    ensures { IfOk result (λ t. TargetsAre text.now items.now t.labels t.ends.items t.commands) }
{
    let mut labels = BTreeMap::new(alloc);
    let mut commands = 0;
    let mut k = 0;
    'items: while k < items.len() {
        let item = items.get(k);
        add_label(&mut labels, text, item, k, commands)?;
        commands = counted(commands, item);
        k += 1;
    }
    let ends = ends_of(alloc, items, commands)?;
    Ok(Targets {
        labels,
        ends,
        commands,
    })
}

impl<'a> Targets<'a> {
    /// The first label of a name.
    fn first_label(&self, name: &'a [u8]) -> Option<FirstLabel>
        ensures { result ≡ labelled self.now.labels name.now }
    {
        self.labels.get(&name).copied()
    }

    /// The number of the command after the first label of a name; None where no label has it.
    fn label(&self, name: &'a [u8]) -> Option<usize>
        ensures { (text : List ℕ) (items : List Item) →
            TargetsAre text items self.now.labels self.now.ends.items self.now.commands →
            result ≡ label_in text name.now 0 items }
    {
        match self.first_label(name) {
            None => None,
            Some(first) => Some(first.number),
        }
    }

    /// Where a branch to this label leads: an empty one stands for the end of the script.
    pub fn branch(&self, name: &'a [u8]) -> Option<usize>
        ensures { (text : List ℕ) (items : List Item) →
            TargetsAre text items self.now.labels self.now.ends.items self.now.commands →
            result ≡ branch_in text items name.now }
    {
        match name {
            [] => Some(self.commands),
            _ => self.label(name),
        }
    }

    /// Whether an item before the one at index `k` is a label of this name, as that is.
    pub fn is_repeated(&self, name: &'a [u8], k: usize) -> bool
        ensures { (text : List ℕ) (items : List Item) (i : Item) →
            TargetsAre text items self.now.labels self.now.ends.items self.now.commands →
            slice_get items k ≡ Some i → is_label text name.now i.verb i.argument ≡ true →
            result ≡ is_some (label_in text name.now 0 (take k items)) }
    {
        match self.first_label(name) {
            None => false,
            Some(first) => first.item != k,
        }
    }

    /// The number of the command after the end of a block; None where it isn't closed, or where no block is left. Before it
    /// `blocks` were opened.
    pub fn block_end(&self, blocks: usize) -> Option<usize>
        ensures { result ≡ unwrap_or (slice_get self.now.ends.items blocks) None }
    {
        self.ends.get(blocks).copied().unwrap_or(None)
    }
}

/// How many blocks are open after a function, where `depth` are open before it.
pub fn depth_after(depth: usize, verb: Verb) -> usize
    requires { depth < usize.MAX }
    ensures is { result ≡ depth_after depth verb }
    ensures few { result ≤ depth + 1 }
{
    if is_open(verb) {
        depth + 1
    } else if is_close(verb) {
        depth.saturating_sub(1)
    } else {
        depth
    }
}
