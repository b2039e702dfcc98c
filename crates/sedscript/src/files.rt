//! The files that a script names: tables that are made once, so that no name is compared with all earlier ones.

ghost use Rattle.std.specs.Prelude.{◌≡◌, ◌≤◌, ◌<◌, ◌+◌, ℕ, List, length, unwrap_or, is_some, option_map, IfOk, OnOk};
ghost use Rattle.sedscript.specs.Script.{is_standard_output, is_file, sink_name, sink_of, name_in, file_in, files_in, number_in};
ghost use Rattle.sedscript.specs.Tables.{labelled, with_name, AreNumbered, FilesAre};
ghost use Rattle.sedscript.specs.declared.items.Item.{Item};

use crate::bytes::bytes_between;
use crate::items::{Argument, Flags, Item};
use crate::letters::Verb;
use crate::packed::Items;
use crate::targets::written_in;
use crate::types::FileUse;
use std::alloc::{AllocError, Global};
use std::collections::BTreeMap;

/// The files that a script reads, or writes.
#[derive(Drop)]
pub struct NumberedFiles<'a> {
    /// Their names, each once, in the order in which they first occur in the text.
    pub names: Vec<Vec<u8>>,
    /// The number of each.
    pub numbers: BTreeMap<&'a [u8], usize>,
}

/// The files that a script names.
#[derive(Drop)]
pub struct Files<'a> {
    /// Those of `r`.
    pub read: NumberedFiles<'a>,
    /// Those of `w` and of the flag `w`.
    pub written: NumberedFiles<'a>,
}

/// What is written to this name goes to the standard output.
const STANDARD_OUTPUT: &[u8] = b"/dev/stdout";

/// Whether what is written to a name goes to the standard output.
fn is_standard_output(name: &[u8]) -> bool
    ensures { result ≡ is_standard_output name.now }
{
    name == STANDARD_OUTPUT
}

/// Whether a name is a file's: each that is read is, and each that is written but the standard output's.
fn is_file(file_use: FileUse, name: &[u8]) -> bool
    ensures { result ≡ is_file file_use name.now }
{
    match file_use {
        FileUse::Read => true,
        FileUse::Write => !is_standard_output(name),
    }
}

/// The name of the sink of an `s`, if it has one: that after its flag `w`.
fn sink_name(text: &[u8], flags: Flags) -> Option<&[u8]>
    ensures { option_map (λ n. n.now) result ≡ sink_name text.now flags }
{
    let (from, to) = flags.file?;
    Some(bytes_between(text, from, to))
}

/// The name that a function reads or writes by, as `file_use` says, if it does so.
fn name_in(file_use: FileUse, text: &[u8], item: Item) -> Option<&[u8]>
    ensures { option_map (λ n. n.now) result ≡ name_in file_use text.now item.verb item.argument }
{
    match (file_use, item.verb, item.argument) {
        (FileUse::Read, Verb::File(FileUse::Read), _) => Some(written_in(text, item.argument)),
        (FileUse::Write, Verb::File(FileUse::Write), _) => Some(written_in(text, item.argument)),
        (FileUse::Write, _, Argument::FlaggedPair(_, _, flags)) => sink_name(text, flags),
        _ => None,
    }
}

/// The name of the file that a function reads or writes, as `file_use` says, if it does so.
fn file_in(file_use: FileUse, text: &[u8], item: Item) -> Option<&[u8]>
    ensures { option_map (λ n. n.now) result ≡ file_in file_use (name_in file_use text.now item.verb item.argument) }
{
    let name = name_in(file_use, text, item)?;
    is_file(file_use, name).then_some(name)
}

/// Whether a name has a number.
fn is_numbered<'a>(numbers: &BTreeMap<&'a [u8], usize>, name: &'a [u8]) -> bool
    ensures { result ≡ is_some (labelled numbers.now name.now) }
{
    numbers.contains_key(&name)
}

/// Adds a file's name, if there is one, with the next number, unless it has one. The first one has the number `first`.
fn add_name<'a>(
    alloc: Global,
    files: &mut NumberedFiles<'a>,
    first: usize,
    found: Option<&'a [u8]>,
) -> Result<(), AllocError>
    requires { first + length files.old.names.items < usize.MAX }
    ensures few { OnOk result (length files.new.names.items ≤ length files.old.names.items + 1) }
    ensures added { OnOk result ((ns : List (List ℕ)) → AreNumbered first ns files.old →
        AreNumbered first (with_name ns (option_map (λ n. n.now) found.entry)) files.new) }
{
    let Some(name) = found else {
        return Ok(());
    };
    if is_numbered(&files.numbers, name) {
        return Ok(());
    }
    let number = first + files.names.len();
    files.names.push(name.to_vec(alloc)?)?;
    match files.numbers.insert(name, number) {
        Ok(_) => Ok(()),
        Err(_) => Err(AllocError),
    }
}

/// The files that the items read, or write, with numbers from `first` on.
fn numbered<'a>(
    alloc: Global,
    text: &'a [u8],
    file_use: FileUse,
    first: usize,
    items: &Items,
) -> Result<NumberedFiles<'a>, AllocError>
    requires { first ≤ 1 }
    ensures { IfOk result (AreNumbered first (files_in file_use text.now items.now)) }
{
    let mut files = NumberedFiles {
        names: Vec::new(alloc),
        numbers: BTreeMap::new(alloc),
    };
    let mut k = 0;
    'items: while k < items.len() {
        let found = file_in(file_use, text, items.get(k));
        add_name(alloc, &mut files, first, found)?;
        k += 1;
    }
    Ok(files)
}

/// The files that the items name. Those that are written have numbers from 1 on: 0 is the standard output.
pub fn files_of<'a>(alloc: Global, text: &'a [u8], items: &Items) -> Result<Files<'a>, AllocError>
    ensures { IfOk result (FilesAre text.now items.now) }
{
    Ok(Files {
        read: numbered(alloc, text, FileUse::Read, 0, items)?,
        written: numbered(alloc, text, FileUse::Write, 1, items)?,
    })
}

impl<'a> NumberedFiles<'a> {
    /// The number of the file of this name, or 0 where it isn't one of these.
    fn number(&self, name: &'a [u8]) -> usize
        ensures { result ≡ unwrap_or (labelled self.now.numbers name.now) 0 }
    {
        self.numbers.get(&name).copied().unwrap_or(0)
    }
}

impl<'a> Files<'a> {
    /// The number of the file of this name that is read, or of the sink of this name that is written.
    pub fn number(&self, file_use: FileUse, name: &'a [u8]) -> usize
        ensures { (text : List ℕ) (items : List Item) →
            FilesAre text items self.now → result ≡ number_in file_use text items name.now }
    {
        match file_use {
            FileUse::Read => self.read.number(name),
            FileUse::Write => if is_standard_output(name) {
                0
            } else {
                self.written.number(name)
            },
        }
    }

    /// The number of the sink of an `s`, if it has one.
    pub fn sink(&self, text: &'a [u8], flags: Flags) -> Option<usize>
        ensures { (items : List Item) → FilesAre text.now items self.now →
            result ≡ sink_of text.now items flags }
    {
        let name = sink_name(text, flags)?;
        Some(self.number(FileUse::Write, name))
    }
}
