//! Files in memory by name, which a script reads, for tests and for callers that have all bytes at hand.
ghost use Rattle.std.specs.Prelude.{◌≡◌, ◌≤◌, ◌-◌, [], Some, length, min, unwrap_or};
ghost use Rattle.sedspace.specs.Reading.{ReadsAt};
ghost use Rattle.sedfiles.specs.MemoryFiles.{all_of, file_of, named_text};

use crate::memory_inputs::{CurrentFile, MemoryFile, all_of, find};
use crate::names::Names;
use sedspace::Texts;
use std::alloc::{AllocError, Global};
use std::marker::Model;

/// Files in memory by name. The texts are the files of the names that `name` was given; a name that no file has can't be
/// read.
#[derive(Drop)]
pub struct MemoryNames {
    files: Vec<MemoryFile>,
    named: Vec<CurrentFile>,
}

impl Model for MemoryNames {
    ghost use Rattle.sedfiles.specs.MemoryFiles.{NamedFiles};

    ghost Value = { NamedFiles };

    ghost view = { λ s. record { files = s.files.items; named = s.named.items } };
}

impl MemoryNames {
    /// Makes texts of these files, with no name given yet.
    pub fn new(alloc: Global, files: Vec<MemoryFile>) -> MemoryNames
        ensures { result ≡ record { files = files.items; named = [] } }
    {
        MemoryNames {
            files,
            named: Vec::new(alloc),
        }
    }

    // The text of a number.
    fn text(&self, number: usize) -> &[u8]
        ensures { result.now ≡ named_text self.now.files self.now.named number }
    {
        match self.named.get(number) {
            Some(file) => all_of(self.files.as_slice(), &[], *file),
            None => &[],
        }
    }
}

impl Texts for MemoryNames {
    ghost text = { λ s k. Some (named_text s.files s.named k) };

    fn read_at(&mut self, number: usize, offset: u64, buf: &mut [u8]) -> usize
        ensures bound { result ≤ length buf.new }
        ensures bytes { ReadsAt (Some (named_text self.old.files self.old.named number)) offset result buf.new }
        ensures count { result ≡ min (length (named_text self.old.files self.old.named number) - offset) (length buf.new) }
        ensures kept { self.new ≡ self.old }
    {
        let text = self.text(number);
        let start = (offset as usize).min(text.len());
        let count = (text.len() - start).min(buf.len());
        buf[..count].copy_from_slice(&text[start..start + count]);
        count
    }
}

// The file of this name, as one to read.
fn current(files: &[MemoryFile], name: &[u8]) -> CurrentFile
    ensures { all_of files.now [] result ≡ unwrap_or (file_of files.now name.now) [] }
{
    match find(files, name) {
        Some(number) => CurrentFile::Number(number),
        None => CurrentFile::Nothing,
    }
}

impl Names for MemoryNames {
    ghost named = { λ s. length s.named };

    ghost file = { λ s name. Some (unwrap_or (file_of s.files name) []) };

    fn name(&mut self, _number: usize, name: &[u8]) -> Result<(), AllocError> {
        let file = current(self.files.as_slice(), name);
        self.named.push(file)?;
        Ok(())
    }
}
