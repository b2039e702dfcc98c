//! Input files over memory, for tests and for callers that have all bytes at hand.
ghost use Rattle.std.specs.Prelude.{◌≡◌, ◌<◌, ◌↔◌, ◌∷◌, ℕ, List, [], None, Some, true, length, min, string_bytes, IfOk, IsErr, MatchOption, refl, unwrap_or};
ghost use Rattle.std.specs.Option.{is_some, option_map};
ghost use Rattle.std.specs.Str.{bytes_eq};
ghost use Rattle.std.specs.Io.{ReadsAtMost};
ghost use Rattle.std.specs.Io.KnownBytes.{ReadConsumes};
ghost use Rattle.sedspace.specs.FailureCounts.{FailsAtErr, raised};
ghost use Rattle.sedfiles.specs.Opening.{CountsRefusal, OpensKnown};
ghost use Rattle.sedfiles.specs.Files.{GivesWhole};
ghost use Rattle.sedfiles.specs.MemoryFiles.{all_of, bytes_at, file_of, files_of};

use super::Inputs;
use sedspace::Broken;
use std::alloc::{AllocError, Global};
use std::marker::Model;

/// Which file is current.
#[derive(Clone, Copy)]
pub(crate) enum CurrentFile {
    /// None: none was opened, or the last couldn't be.
    Nothing,
    /// The standard input.
    Standard,
    /// The file of this number.
    Number(usize),
}

/// A file in memory.
#[derive(Drop)]
pub struct MemoryFile {
    name: String,
    bytes: Vec<u8>,
}

impl Model for MemoryFile {
    ghost use Rattle.std.specs.Prelude.{string_bytes};
    ghost use Rattle.sedfiles.specs.Opening.{CountsRefusal};
    ghost use Rattle.sedfiles.specs.MemoryFiles.{NamedFile};

    ghost Value = { NamedFile };

    ghost view = { λ f. record { name = string_bytes f.name; bytes = f.bytes.items } };
}

impl MemoryFile {
    /// Makes a file of this name with these bytes.
    pub fn new(name: String, bytes: Vec<u8>) -> MemoryFile
        ensures { result ≡ record { name = string_bytes name; bytes = bytes.items } }
    {
        MemoryFile { name, bytes }
    }

    fn is_named(&self, name: &[u8]) -> bool
        ensures { result ≡ bytes_eq self.now.name name.now }
    {
        self.name.as_bytes() == name
    }

    fn bytes(&self) -> &[u8]
        ensures { result.now ≡ self.now.bytes }
    {
        self.bytes.as_slice()
    }
}

// The number of the first file of this name.
pub(crate) fn find(files: &[MemoryFile], name: &[u8]) -> Option<usize>
    ensures { MatchOption result (file_of files.now name.now ≡ None)
        (λ k. (k < length files.now) × (file_of files.now name.now ≡ Some (bytes_at files.now k))) }
{
    for (k, file) in files.iter().enumerate() {
        if file.is_named(name) {
            return Some(k);
        }
    }
    None
}

// All bytes of the current file.
pub(crate) fn all_of<'a>(
    files: &'a [MemoryFile],
    standard: &'a [u8],
    current: CurrentFile,
) -> &'a [u8]
    ensures { result.now ≡ all_of files.now standard.now current }
{
    match current {
        CurrentFile::Nothing => &[],
        CurrentFile::Standard => standard,
        CurrentFile::Number(k) => match files.get(k) {
            Some(file) => file.bytes(),
            None => &[],
        },
    }
}

/// Files in memory by name, and a standard input. A name that no file has can't be opened. The standard input gives its
/// bytes when it is first opened, and none when it is opened again. One read can be set to fail.
#[derive(Drop)]
pub struct MemoryInputs {
    files: Vec<MemoryFile>,
    standard: Vec<u8>,
    given: usize,
    current: CurrentFile,
    place: usize,
    most: usize,
    calls: u64,
    fails_at: Option<u64>,
    failures: u64,
    refusals: u64,
}

impl Model for MemoryInputs {
    ghost use Rattle.std.specs.Prelude.{◌≤◌, ◌<◌, drop, length, vec_len};
    ghost use Rattle.sedfiles.specs.Opening.{CountsRefusal};
    ghost use Rattle.sedfiles.specs.MemoryFiles.{FilesInMemory, all_of};

    ghost Value = { FilesInMemory };

    ghost view = { λ s. record {
      files = s.files.items;
      standard = drop s.given s.standard.items;
      current = drop s.place (all_of s.files.items s.standard.items s.current);
      most = s.most;
      calls = s.calls;
      fails_at = s.fails_at;
      failures = s.failures;
      refusals = s.refusals;
    } };

    ghost invariant = { λ s. (0 < s.most) × (s.given ≤ vec_len s.standard)
        × (s.place ≤ length (all_of s.files.items s.standard.items s.current)) };
}

impl MemoryInputs {
    /// Makes inputs of these bytes as the standard input, and these files. None is open.
    pub fn new(standard: Vec<u8>, files: Vec<MemoryFile>) -> MemoryInputs
        ensures { result ≡ record {
          files = files.items;
          standard = standard.items;
          current = [];
          most = usize.MAX;
          calls = 0;
          fails_at = None;
          failures = 0;
          refusals = 0;
        } }
    {
        MemoryInputs {
            files,
            standard,
            given: 0,
            current: CurrentFile::Nothing,
            place: 0,
            most: usize::MAX,
            calls: 0,
            fails_at: None,
            failures: 0,
            refusals: 0,
        }
    }

    /// Lets no read give more than `most` bytes.
    pub fn give_at_most(&mut self, most: usize)
        requires { 0 < most }
        ensures { self.new ≡ record self.old { most = most } }
    {
        self.most = most;
    }

    /// Makes one read fail, the one of this number, counted from 1. The reads after it work again.
    pub fn fail_at(&mut self, call: u64)
        ensures { self.new ≡ record self.old { fails_at = Some call } }
    {
        self.fails_at = Some(call);
    }

    /// How often `read` was called.
    pub fn calls(&self) -> u64
        ensures { result ≡ self.now.calls }
    {
        self.calls
    }

    // Makes the standard input the current file. What it gives is given once.
    fn open_standard(&mut self)
        ensures { self.new ≡ record self.old { current = self.old.standard; standard = [] } }
    {
        self.current = CurrentFile::Standard;
        self.place = self.given;
        self.given = self.standard.len();
    }

    // Makes the file of this name the current one, where there is one.
    fn open_file(&mut self, name: &str) -> bool
        ensures is_open { result ≡ is_some (file_of self.old.files name.now) }
        ensures refused { CountsRefusal result self.old.refusals self.new.refusals }
        ensures opened { self.new ≡ record self.old {
          current = unwrap_or (file_of self.old.files name.now) [];
          refusals = self.new.refusals;
        } }
    {
        self.place = 0;
        match find(self.files.as_slice(), name.as_bytes()) {
            Some(k) => {
                self.current = CurrentFile::Number(k);
                true
            }
            None => {
                self.current = CurrentFile::Nothing;
                self.refusals = self.refusals.saturating_add(1);
                false
            }
        }
    }
}

impl Inputs for MemoryInputs {
    ghost current = { λ s. Some s.current };

    ghost ahead = { λ s names. Some (files_of s.files s.standard names) };

    ghost text = { λ s name. Some (file_of s.files name) };

    ghost failures = { λ s. s.failures };

    ghost refusals = { λ s. s.refusals };

    ghost reference = { λ _. [] };

    ghost none_ahead = { λ _. refl };

    fn refused(&self) -> u64 {
        self.refusals
    }

    fn open(&mut self, name: &str) -> bool
        ensures opens { (names : List (List ℕ)) →
            OpensKnown (Some (files_of self.old.files self.old.standard (name.now ∷ names))) result
            (Some self.new.current) (Some (files_of self.new.files self.new.standard names)) }
        ensures refused { CountsRefusal result self.old.refusals self.new.refusals }
        ensures rest { self.new ≡ record self.old {
          standard = self.new.standard;
          current = self.new.current;
          refusals = self.new.refusals;
        } }
    {
        if name == "-" {
            self.open_standard();
            return true;
        }
        self.open_file(name)
    }

    fn read(&mut self, buf: &mut [u8]) -> Result<usize, Broken>
        ensures bound { ReadsAtMost result buf.new }
        ensures bytes { ReadConsumes (Some self.old.current) (Some self.new.current) result buf.new }
        ensures failed { FailsAtErr result self.old.failures self.new.failures }
        ensures calls { self.new.calls ≡ raised self.old.calls }
        ensures count { IfOk result (λ n. n ≡ min (length self.old.current) (min (length buf.new) self.old.most)) }
        ensures answered { IsErr result ↔ (self.old.fails_at ≡ Some self.new.calls) }
        ensures rest { self.new
            ≡ record self.old { current = self.new.current; calls = self.new.calls; failures = self.new.failures } }
    {
        self.calls = self.calls.saturating_add(1);
        if self.fails_at == Some(self.calls) {
            self.failures = self.failures.saturating_add(1);
            return Err(Broken);
        }
        let start = self.place;
        let bytes = all_of(
            self.files.as_slice(),
            self.standard.as_slice(),
            self.current,
        );
        let count = (bytes.len() - start).min(buf.len().min(self.most));
        buf[..count].copy_from_slice(&bytes[start..start + count]);
        self.place += count;
        Ok(count)
    }

    // Nobody shares a place in memory.
    fn give_back(&self, _count: usize) {}

    fn whole(&mut self, alloc: Global, name: &str) -> Result<Option<Vec<u8>>, AllocError>
        ensures given { IfOk result (λ file.
            GivesWhole (Some (file_of self.old.files name.now)) (option_map (λ bytes. bytes.items) file)) }
        ensures rest { self.new ≡ self.old }
    {
        match find(self.files.as_slice(), name.as_bytes()) {
            Some(k) => {
                let bytes = self.files[k].bytes().to_vec(alloc)?;
                Ok(Some(bytes))
            }
            None => Ok(None),
        }
    }
}
