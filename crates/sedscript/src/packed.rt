//! The items of a script as they are kept until its commands are made of them. A script may have a great many, so
//! each takes little room: what only a few of them need is in lists of its own.

ghost use Rattle.std.specs.Prelude.{◌≡◌, ◌<◌, ◌++◌, ◌∷◌, [], Some, length, slice_get, slice_index_or, IfOk, OnOk};
ghost use Rattle.sedscript.specs.Packed.{unpacked_addresses, unpacked_argument, unpacked_item, PacksAddresses, PacksArgument, PacksItem, Longer};

use crate::items::{Addresses, Argument, Item};
use crate::letters::Verb;
use crate::types::Address;
use std::alloc::{AllocError, Global};
use std::marker::Model;

/// Which addresses an item has.
#[derive(Clone, Copy)]
pub enum PackedAddresses {
    /// None.
    Nothing,
    /// A line's number, which is kept in the item.
    Line,
    /// `$`
    Last,
    /// Those of a list, at an index that is kept in the item.
    Listed,
}

/// Which argument an item has.
#[derive(Clone, Copy)]
pub enum PackedArgument {
    /// None.
    Nothing,
    /// Two places, which are kept in the item.
    Between,
    /// One of a list, at an index that is kept in the item.
    Listed,
}

/// An item in a compact form.
#[derive(Clone, Copy)]
pub struct PackedItem {
    pub place: usize,
    /// The line's number or the index that `given` asks for.
    pub head: u64,
    /// The first place or the index that `argument` asks for.
    pub from: usize,
    pub to: usize,
    pub given: PackedAddresses,
    pub verb: Verb,
    pub argument: PackedArgument,
}

/// The addresses of a function that has none.
const NO_ADDRESSES: Addresses = Addresses {
    first: None,
    second: None,
    negate: false,
};

/// The addresses that an item keeps as `given` and `head`.
#[inline]
fn unpacked_addresses(
    listed_addresses: &[Addresses],
    given: PackedAddresses,
    head: u64,
) -> Addresses
    requires { PacksAddresses (length listed_addresses.now) given head }
    ensures { result ≡ unpacked_addresses listed_addresses.now given head }
{
    match given {
        PackedAddresses::Nothing => NO_ADDRESSES,
        PackedAddresses::Line => Addresses {
            first: Some(Address::Line(head)),
            ..NO_ADDRESSES
        },
        PackedAddresses::Last => Addresses {
            first: Some(Address::Last),
            ..NO_ADDRESSES
        },
        PackedAddresses::Listed => listed_addresses[head as usize],
    }
}

/// The argument that an item keeps as `argument`, `from` and `to`.
#[inline]
fn unpacked_argument(
    listed_arguments: &[Argument],
    argument: PackedArgument,
    from: usize,
    to: usize,
) -> Argument
    requires { PacksArgument (length listed_arguments.now) argument from }
    ensures { result ≡ unpacked_argument listed_arguments.now argument from to }
{
    match argument {
        PackedArgument::Nothing => Argument::Nothing,
        PackedArgument::Between => Argument::Between(from, to),
        PackedArgument::Listed => listed_arguments[from],
    }
}

/// What an item keeps of its addresses. They go into the list, unless they are none, one line or `$`.
fn keep_addresses(
    listed_addresses: &mut Vec<Addresses>,
    addresses: Addresses,
) -> Result<(PackedAddresses, u64), AllocError>
    ensures longer { Longer listed_addresses.old.items listed_addresses.new.items }
    ensures kept { IfOk result (λ g. PacksAddresses (length listed_addresses.new.items) g.0 g.1
        × (unpacked_addresses listed_addresses.new.items g.0 g.1 ≡ addresses)) }
{
    match (addresses.first, addresses.second, addresses.negate) {
        (None, None, false) => Ok((PackedAddresses::Nothing, 0)),
        (Some(Address::Line(n)), None, false) => Ok((PackedAddresses::Line, n)),
        (Some(Address::Last), None, false) => Ok((PackedAddresses::Last, 0)),
        _ => {
            let at = listed_addresses.len();
            listed_addresses.push(addresses)?;
            Ok((PackedAddresses::Listed, at as u64))
        }
    }
}

/// What an item keeps of its argument. One with more than two places goes into the list.
fn keep_argument(
    listed_arguments: &mut Vec<Argument>,
    argument: Argument,
) -> Result<(PackedArgument, usize, usize), AllocError>
    ensures longer { Longer listed_arguments.old.items listed_arguments.new.items }
    ensures kept { IfOk result (λ b. PacksArgument (length listed_arguments.new.items) b.0 b.1
        × (unpacked_argument listed_arguments.new.items b.0 b.1 b.2 ≡ argument)) }
{
    match argument {
        Argument::Nothing => Ok((PackedArgument::Nothing, 0, 0)),
        Argument::Between(from, to) => Ok((PackedArgument::Between, from, to)),
        _ => {
            let at = listed_arguments.len();
            listed_arguments.push(argument)?;
            Ok((PackedArgument::Listed, at, 0))
        }
    }
}

/// The item in its compact form. What that has no room for goes into the lists.
fn keep(
    listed_addresses: &mut Vec<Addresses>,
    listed_arguments: &mut Vec<Argument>,
    item: Item,
) -> Result<PackedItem, AllocError>
    ensures listed_addresses { Longer listed_addresses.old.items listed_addresses.new.items }
    ensures listed_arguments { Longer listed_arguments.old.items listed_arguments.new.items }
    ensures kept { IfOk result (λ k. PacksItem (length listed_addresses.new.items) (length listed_arguments.new.items) k
        × (unpacked_item listed_addresses.new.items listed_arguments.new.items k ≡ item)) }
{
    let (given, head) = keep_addresses(listed_addresses, item.addresses)?;
    let (argument, from, to) = keep_argument(listed_arguments, item.argument)?;
    Ok(PackedItem {
        place: item.place,
        head,
        from,
        to,
        given,
        verb: item.verb,
        argument,
    })
}

/// The items of a script. Contracts see them as a list.
#[derive(Drop)]
pub struct Items {
    kept: Vec<PackedItem>,
    /// The addresses of the items that have more than a line's number or `$`.
    listed_addresses: Vec<Addresses>,
    /// The arguments that have more than two places.
    listed_arguments: Vec<Argument>,
}

impl Model for Items {
    ghost use Rattle.std.specs.Prelude.{List, length};
    ghost use Rattle.std.specs.List.{All};
    ghost use Rattle.sedscript.specs.Packed.{unpacked_items, PacksItem};
    ghost use Rattle.sedscript.specs.declared.items.Item.{Item};

    ghost Value = { List Item };

    ghost view = { λ s. unpacked_items s.listed_addresses.items s.listed_arguments.items s.kept.items };

    ghost invariant = { λ s. All (PacksItem (length s.listed_addresses.items) (length s.listed_arguments.items)) s.kept.items };
}

impl Items {
    /// No items.
    pub fn new(alloc: Global) -> Items
        ensures { result ≡ [] }
    {
        Items {
            kept: Vec::new(alloc),
            listed_addresses: Vec::new(alloc),
            listed_arguments: Vec::new(alloc),
        }
    }

    /// How many items there are.
    pub fn len(&self) -> usize
        ensures { result ≡ length self.now }
    {
        self.kept.len()
    }

    /// The item at an index.
    #[inline]
    pub fn get(&self, k: usize) -> Item
        requires { k < length self.now }
        ensures is { slice_get self.now k ≡ Some result }
        ensures read { result ≡ slice_index_or self.now k result }
    {
        let kept = self.kept[k];
        Item {
            addresses: unpacked_addresses(&self.listed_addresses, kept.given, kept.head),
            place: kept.place,
            verb: kept.verb,
            argument: unpacked_argument(&self.listed_arguments, kept.argument, kept.from, kept.to),
        }
    }

    /// Adds an item.
    pub fn push(&mut self, item: Item) -> Result<(), AllocError>
        ensures { OnOk result (self.new ≡ self.old ++ item ∷ []) }
    {
        let kept = keep(&mut self.listed_addresses, &mut self.listed_arguments, item)?;
        self.kept.push(kept)?;
        Ok(())
    }
}
